// The faults of the cipher.
ghost use Rattle.std.specs.Prelude.{◌≡◌};
ghost use Rattle.cipher.specs.Faults.{fault_number, fault_layer, fault_place};
ghost use Rattle.cipher.specs.declared.faults.CipherFault.TheVariants.{Engine as by_engine};

use engine::EngineFault;
use fault::{Fault, Layer, Place};

/// Why the sealing, checking or opening of a text is refused.
#[derive(Clone, Copy, PartialEq, Eq, Debug)]
pub enum CipherFault {
    /// The key is not 16 bytes long.
    KeyLength,
    /// The nonce is not 12 bytes long.
    NonceLength,
    /// The associated data has more than 65,536 bytes.
    AssociatedDataLength,
    /// The text has more than 65,536 bytes.
    TextLength,
    /// The tag, or the place for it, has another length than the variant's tags.
    TagLength,
    /// The output has another length than the text.
    OutputLength,
    /// The tag is not that of the text.
    WrongTag,
    /// An engine refused a call.
    Engine(EngineFault),
}

impl Fault for CipherFault {
    ghost number_is = { fault_number };

    ghost layer_is = { fault_layer };

    ghost place_is = { fault_place };

    fn number(self) -> u8 {
        match self {
            CipherFault::KeyLength => 1,
            CipherFault::NonceLength => 2,
            CipherFault::AssociatedDataLength => 3,
            CipherFault::TextLength => 4,
            CipherFault::TagLength => 5,
            CipherFault::OutputLength => 6,
            CipherFault::WrongTag => 7,
            CipherFault::Engine(f) => f.number(),
        }
    }

    fn layer(self) -> Layer {
        Layer::Cipher
    }

    fn place(self) -> Place {
        Place::Zero
    }
}

// For `?`, which passes an engine's fault up, held whole.
impl From<EngineFault> for CipherFault {
    ghost from_gives = { λ f r. r ≡ by_engine f };

    fn from(f: EngineFault) -> CipherFault {
        CipherFault::Engine(f)
    }
}
