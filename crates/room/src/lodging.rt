// Lodging of envelopes, asking and closing.
ghost use Rattle.std.specs.Prelude.{◌≡◌, length};
ghost use Rattle.fault.specs.Checks.{decision, by_answer};
ghost use Rattle.engine.specs.declared.variants.Variant.{Variant as Kind};
ghost use Rattle.cipher.specs.Mode.{tag_size};
ghost use Rattle.envelope.specs.Parts.{bid_seen, bid_of};
ghost use Rattle.room.specs.Sales.{Lodging};
ghost use Rattle.room.specs.Calls.{LodgingOf, Asking, Closing, Met, without_number, head_checks};
ghost use Rattle.room.specs.Reading.{bid_read, bid_checks, filled_by};

use crate::admission::Op;
use crate::conditions::Conditions;
use crate::faults::RoomFault;
use crate::slots::{Phase, Slot, place_of};
use crate::state::RoomState;
use cipher::{CipherFault, KEY_BYTES, check};
use engine::Engine;
use envelope::{HeadFields, LETTER_BYTES, SealedBid, head_of, parts_of};

impl RoomState {
    // Lodges an envelope, and answers its sequence.
    pub(crate) fn lodge<E: Engine>(&mut self, engine: &E, envelope: &[u8]) -> Result<u32, RoomFault>
        ensures { let lodging : Lodging = record { envelope = envelope.now } in
            Met (E.kind engine.now) self.old (LodgingOf lodging) result self.new }
    {
        self.admits(Op::Lodge)?;
        let conditions = Conditions {
            engine,
            lot: self.lot,
            terms: &self.terms[..self.terms_bytes],
        };
        let bid = conditions.read(envelope)?;
        let i = place_of(&self.slots[..self.count], bid.head.bidder)?;
        let Slot { sequence: last, .. } = &self.slots[i];
        if bid.head.sequence <= *last {
            return Err(RoomFault::SequenceNotAbove);
        }
        conditions.keep(&mut self.slots[i], bid)
    }

    // The last accepted sequence of a bidder.
    pub(crate) fn ask(&self, bidder: u32) -> Result<u32, RoomFault>
        ensures { (v : Kind) → Met v self.now (Asking bidder) result self.now }
    {
        self.admits(Op::Ask)?;
        let slots = &self.slots[..self.count];
        let i = place_of(slots, bidder)?;
        let Slot { sequence, .. } = &slots[i];
        Ok(*sequence)
    }

    // Ends lodging.
    pub(crate) fn close(&mut self) -> Result<(), RoomFault>
        ensures { (v : Kind) → Met v self.old Closing (without_number result) self.new }
    {
        self.admits(Op::Close)?;
        self.phase = Phase::Closed;
        Ok(())
    }
}

impl<E: Engine> Conditions<'_, E> {
    // The bid in an envelope, if the envelope has the variant's length and is for the lot.
    fn read<'a>(&self, envelope: &'a [u8]) -> Result<SealedBid<'a>, RoomFault>
        ensures { let v = E.kind self.now.engine.now in
            bid_read result
            ≡ decision (head_checks v self.now.lot envelope.now) (bid_of envelope.now) }
    {
        let variant = self.engine.variant();
        let bid = parts_of(envelope)
            .and_then(|parts| parts.sealed_bid(variant))
            .ok_or(RoomFault::EnvelopeLength)?;
        if bid.head.lot != self.lot {
            return Err(RoomFault::OtherLot);
        }
        Ok(bid)
    }

    // Keeps a bid in its bidder's slot, where its tag is right.
    fn keep(&self, slot: &mut Slot, bid: SealedBid) -> Result<u32, RoomFault>
        requires { length bid.tag.now ≡ tag_size (E.kind self.now.engine.now) }
        ensures answer { let v = E.kind self.now.engine.now in let b = bid_seen bid.entry in
            result ≡ decision (bid_checks v slot.old.key self.now.terms.now b) b.head.sequence }
        ensures slot { slot.new
            ≡ by_answer result (filled_by (bid_seen bid.entry) slot.old) slot.old }
    {
        let SealedBid { head, letter, tag } = bid;
        self.check_tag(&slot.key, head, letter, tag)?;
        slot.fill(head.sequence, letter, tag);
        Ok(head.sequence)
    }

    // Refuses a letter with a wrong tag. Any other fault of the cipher is passed up by `?`, though none comes at these sizes.
    fn check_tag(
        &self,
        key: &[u8; KEY_BYTES],
        head: HeadFields,
        letter: &[u8; LETTER_BYTES],
        tag: &[u8],
    ) -> Result<(), RoomFault>
        requires { length tag.now ≡ tag_size (E.kind self.now.engine.now) }
        ensures { let v = E.kind self.now.engine.now in
            result ≡ decision (bid_checks v key.now self.now.terms.now
            (record { head = head; letter = letter.now; tag = tag.now })) tt }
    {
        let text = match check(self.engine, key, &head_of(head), self.terms, letter, tag) {
            Err(cause @ CipherFault::WrongTag) => {
                return Err(RoomFault::WrongTag {
                    bidder: head.bidder,
                    sequence: head.sequence,
                    cause,
                });
            }
            checked => checked?,
        };
        let _ = text.into_sealed();
        Ok(())
    }
}
