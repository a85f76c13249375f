// Why a sale file is refused.
ghost use Rattle.std.specs.Prelude.{◌≡◌};
ghost use Rattle.file.specs.Faults.{fault_number, fault_layer, line_of, fault_place};
ghost use Rattle.file.specs.declared.faults.FileFault.TheVariants.{Cipher as by_cipher, Room as by_room};

use cipher::CipherFault;
use fault::{Fault, Layer, Place};
use list::ListFault;
use room::RoomFault;

/// Why a sale file is refused. Lines are counted from 1.
#[derive(Clone, Copy, PartialEq, Eq, Debug)]
pub enum FileFault {
    /// The file has more than 32,768 bytes.
    TooLong,
    /// The line breaks the form, is missing, or is not ended by byte 10.
    Form { line: u32 },
    /// The terms have more than 64 bytes.
    TermsLength { line: u32 },
    /// The list of bidders refuses the line's bidder.
    List { line: u32, cause: ListFault },
    /// The cipher refuses a bidder's key. It never does, since a key in the form of a file has 16 bytes.
    Cipher(CipherFault),
    /// The room refuses the sale. It never does, since an accepted file keeps the limits of a room.
    Room(RoomFault),
}

impl FileFault {
    /// The line that is refused. By the rules of refusals it is 0, and no `Option`, for a file that is too long; and so it is where the cipher or
    /// the room refuses.
    pub fn line(self) -> u32
        ensures { result ≡ line_of self }
    {
        match self {
            FileFault::TooLong => 0,
            FileFault::Form { line } => line,
            FileFault::TermsLength { line } => line,
            FileFault::List { line, cause: _ } => line,
            FileFault::Cipher(_) => 0,
            FileFault::Room(_) => 0,
        }
    }
}

impl Fault for FileFault {
    ghost number_is = { fault_number };

    ghost layer_is = { fault_layer };

    ghost place_is = { fault_place };

    fn number(self) -> u8 {
        match self {
            FileFault::TooLong => 23,
            FileFault::Form { line: _ } => 22,
            FileFault::TermsLength { line: _ } => 15,
            FileFault::List { line: _, cause } => cause.number(),
            FileFault::Cipher(cause) => cause.number(),
            FileFault::Room(cause) => cause.number(),
        }
    }

    // The layer whose fault this is. The fault that is held inside tells where it started.
    fn layer(self) -> Layer {
        Layer::File
    }

    fn place(self) -> Place {
        Place::Line(self.line())
    }
}

// For `?`, which passes a fault of a lower layer up, held whole.
impl From<CipherFault> for FileFault {
    ghost from_gives = { λ f r. r ≡ by_cipher f };

    fn from(f: CipherFault) -> FileFault {
        FileFault::Cipher(f)
    }
}

impl From<RoomFault> for FileFault {
    ghost from_gives = { λ f r. r ≡ by_room f };

    fn from(f: RoomFault) -> FileFault {
        FileFault::Room(f)
    }
}
