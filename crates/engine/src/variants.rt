// The three variants of the cipher.
ghost use Rattle.std.specs.Prelude.{◌≡◌, Some};
ghost use Rattle.engine.specs.Names.{name};
ghost use Rattle.engine.specs.Permutation.{block_size, rounds};

use crate::spongent::{DUMBO_ROUNDS, JUMBO_ROUNDS};
use std::fmt;

/// The variants of the cipher.
#[derive(Clone, Copy, PartialEq, Eq, Debug)]
pub enum Variant {
    /// Blocks of 20 bytes, tags of 8; Spongent.
    Dumbo,
    /// Blocks of 22 bytes, tags of 8; Spongent.
    Jumbo,
    /// Blocks of 25 bytes, tags of 16; Keccak-f[200].
    Delirium,
}

impl Variant {
    /// The bytes of a block.
    pub fn block_bytes(self) -> usize
        ensures { result ≡ block_size self }
    {
        match self {
            Variant::Dumbo => 20,
            Variant::Jumbo => 22,
            Variant::Delirium => 25,
        }
    }

    /// The rounds of the permutation.
    pub fn rounds(self) -> u8
        ensures { result ≡ rounds self }
    {
        match self {
            Variant::Dumbo => DUMBO_ROUNDS,
            Variant::Jumbo => JUMBO_ROUNDS,
            Variant::Delirium => 18,
        }
    }
}

// Writes the name.
impl fmt::Display for Variant {
    ghost output = { λ v. Some (name v) };

    fn fmt<W: fmt::Write>(&self, f: &mut fmt::Formatter<W>) -> fmt::Result {
        f.write_str(match self {
            Variant::Dumbo => "Dumbo",
            Variant::Jumbo => "Jumbo",
            Variant::Delirium => "Delirium",
        })
    }
}
