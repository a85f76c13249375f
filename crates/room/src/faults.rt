// Why rooms refuse.
ghost use Rattle.std.specs.Prelude.{◌≡◌};
ghost use Rattle.room.specs.Faults.{fault_number, fault_layer, fault_place};
ghost use Rattle.room.specs.declared.faults.RoomFault.TheVariants.{Cipher as by_cipher, List as by_list};

use cipher::CipherFault;
use fault::{Fault, Layer, Place};
use list::ListFault;

/// Why a room refuses a call.
#[derive(Clone, Copy, PartialEq, Eq, Debug)]
pub enum RoomFault {
    /// The terms have more than 64 bytes.
    TermsLength,
    /// The register is not 1 to 64 entries by strictly rising bidder.
    Register,
    /// The room is closed.
    Closed,
    /// The envelope has another length than the variant's.
    EnvelopeLength,
    /// The envelope is for another lot.
    OtherLot,
    /// The bidder is not registered.
    UnknownBidder,
    /// The sequence is not above the bidder's last accepted one.
    SequenceNotAbove,
    /// The tag is wrong: found by the cipher, at the head of this bidder and sequence.
    WrongTag {
        bidder: u32,
        sequence: u32,
        cause: CipherFault,
    },
    /// The room is not closed.
    NotClosed,
    /// A place lent to the opening has not its size.
    Places,
    /// The cipher refused.
    Cipher(CipherFault),
    /// The ordered list refused an entry of the sheet.
    List(ListFault),
}

impl Fault for RoomFault {
    ghost number_is = { fault_number };

    ghost layer_is = { fault_layer };

    ghost place_is = { fault_place };

    fn number(self) -> u8 {
        match self {
            RoomFault::TermsLength => 15,
            RoomFault::Register => 16,
            RoomFault::Closed => 12,
            RoomFault::EnvelopeLength => 8,
            RoomFault::OtherLot => 9,
            RoomFault::UnknownBidder => 10,
            RoomFault::SequenceNotAbove => 11,
            RoomFault::WrongTag {
                bidder: _,
                sequence: _,
                cause,
            } => cause.number(),
            RoomFault::NotClosed => 13,
            RoomFault::Places => 14,
            RoomFault::Cipher(f) => f.number(),
            RoomFault::List(f) => f.number(),
        }
    }

    fn layer(self) -> Layer {
        Layer::Room
    }

    fn place(self) -> Place {
        match self {
            RoomFault::WrongTag {
                bidder,
                sequence,
                cause: _,
            } => Place::Head { bidder, sequence },
            _ => Place::Zero,
        }
    }
}

/// For `?` to pass a fault of the cipher up, held whole.
impl From<CipherFault> for RoomFault {
    ghost from_gives = { λ f r. r ≡ by_cipher f };

    fn from(f: CipherFault) -> RoomFault {
        RoomFault::Cipher(f)
    }
}

/// For `?` to pass a fault of the list up, held whole.
impl From<ListFault> for RoomFault {
    ghost from_gives = { λ f r. r ≡ by_list f };

    fn from(f: ListFault) -> RoomFault {
        RoomFault::List(f)
    }
}
