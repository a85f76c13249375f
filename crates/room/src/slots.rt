// What a room keeps for each registered bidder, and its phase.
ghost use Rattle.std.specs.Prelude.{◌≡◌, ◌≤◌, ◌++◌, length, drop, MatchResult};
ghost use Rattle.room.specs.Slots.{new_slot, IsFirst, HasNone};
ghost use Rattle.room.specs.declared.faults.RoomFault.TheVariants.{UnknownBidder};

use crate::faults::RoomFault;
use cipher::{KEY_BYTES, MOST_TAG_BYTES};
use envelope::LETTER_BYTES;

// A room is open for lodging until it is closed.
#[derive(Clone, Copy)]
pub enum Phase {
    Open,
    Closed,
}

// A registered bidder with its key, and the last accepted envelope: its sequence (0 where none was accepted), the sealed letter and the
// tag. A tag of eight bytes stands in the first eight.
// The sequence is a plain number and no Option: it is the last accepted one, which is 0 at first, and asking answers it as it is. The tag has room
// for the longest, and is cut to the variant's where it is read.
#[derive(Clone, Copy)]
pub struct Slot {
    pub bidder: u32,
    pub key: [u8; KEY_BYTES],
    pub sequence: u32,
    pub letter: [u8; LETTER_BYTES],
    pub tag: [u8; MOST_TAG_BYTES],
}

impl Slot {
    // The slot of a registered bidder from whom nothing was accepted yet.
    pub(crate) fn new(bidder: u32, key: [u8; KEY_BYTES]) -> Slot
        ensures { result ≡ new_slot (record { bidder = bidder; key = key }) }
    {
        Slot {
            bidder,
            key,
            sequence: 0,
            letter: [0; LETTER_BYTES],
            tag: [0; MOST_TAG_BYTES],
        }
    }

    // Takes an accepted letter and its tag. Bytes of the slot's tag that the tag has not are left as they are.
    pub(crate) fn fill(&mut self, sequence: u32, letter: &[u8; LETTER_BYTES], tag: &[u8])
        requires { length tag.now ≤ MOST_TAG_BYTES }
        ensures { let kept = tag.now ++ drop (length tag.now) self.old.tag in
            self.new ≡ record self.old { sequence = sequence; letter = letter.now; tag = kept } }
    {
        self.sequence = sequence;
        self.letter = *letter;
        self.tag[..tag.len()].copy_from_slice(tag);
    }
}

// The place of a bidder's slot. The slots are looked at one by one: there are at most 64, and `position` says it plainly, whether they rise by
// bidder or not.
pub(crate) fn place_of(slots: &[Slot], bidder: u32) -> Result<usize, RoomFault>
    ensures { MatchResult result (λ i. IsFirst slots.now bidder i) (λ f. HasNone slots.now bidder
        × (f ≡ UnknownBidder)) }
{
    slots
        .iter()
        .position(|slot| slot.bidder == bidder)
        .ok_or(RoomFault::UnknownBidder)
}
