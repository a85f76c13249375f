// Why pens and the sealing of bids refuse.
ghost use Rattle.std.specs.Prelude.{◌≡◌};
ghost use Rattle.envelope.specs.Faults.{fault_number, fault_layer, fault_place};
ghost use Rattle.envelope.specs.declared.faults.EnvelopeFault.TheVariants.{Cipher as by_cipher};

use cipher::CipherFault;
use fault::{Fault, Layer, Place};

/// Why a pen or the sealing of a bid refused.
#[derive(Clone, Copy, PartialEq, Eq, Debug)]
pub enum EnvelopeFault {
    /// The terms have more than 64 bytes.
    TermsLength,
    /// The pen has given its last sequence.
    HeadsSpent,
    /// The place has another length than the variant's envelopes.
    EnvelopeLength,
    /// The note has more than 55 bytes.
    NoteLength,
    /// The amount is above 999,999,999,999 cents.
    AmountAboveLimit,
    /// The cipher refused.
    Cipher(CipherFault),
}

impl Fault for EnvelopeFault {
    ghost number_is = { fault_number };

    ghost layer_is = { fault_layer };

    ghost place_is = { fault_place };

    fn number(self) -> u8 {
        match self {
            EnvelopeFault::TermsLength => 15,
            EnvelopeFault::HeadsSpent => 19,
            EnvelopeFault::EnvelopeLength => 8,
            EnvelopeFault::NoteLength => 20,
            EnvelopeFault::AmountAboveLimit => 21,
            EnvelopeFault::Cipher(f) => f.number(),
        }
    }

    fn layer(self) -> Layer {
        Layer::Envelope
    }

    fn place(self) -> Place {
        Place::Zero
    }
}

// For `?`, which passes a fault of the cipher up, held whole.
impl From<CipherFault> for EnvelopeFault {
    ghost from_gives = { λ f r. r ≡ by_cipher f };

    fn from(f: CipherFault) -> EnvelopeFault {
        EnvelopeFault::Cipher(f)
    }
}
