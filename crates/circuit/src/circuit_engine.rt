// The circuit engine, which permutes the blocks of Dumbo and Jumbo by whole words.
ghost use Rattle.std.specs.Prelude.{◌≡◌, ◌*◌};
ghost use Rattle.engine.specs.Calls.{answer_by_length, place_by_length};
ghost use Rattle.engine.specs.Permutation.{block_size, permutation, each};
ghost use Rattle.circuit.specs.Kinds.{kind_of};

use crate::blocks::permute;
use crate::family::{Dumbo, Jumbo};
use crate::words::Word;
use engine::{Engine, EngineFault, Variant};
use std::simd::prelude::*;

/// The fast engine of a variant whose permutation is Spongent.
#[derive(Clone, Copy, PartialEq, Eq, Debug)]
pub enum Circuit {
    /// The engine of Dumbo.
    Dumbo,
    /// The engine of Jumbo.
    Jumbo,
}

impl Circuit {
    // Replaces each block by the permutation of it. A place of another length is refused and left as it was.
    fn replace<W: Word>(self, blocks: &mut [u8]) -> Result<(), EngineFault>
        ensures answer { result
            ≡ answer_by_length (W.BLOCKS * block_size (kind_of self)) blocks.old }
        ensures blocks { blocks.new
            ≡ place_by_length (W.BLOCKS * block_size (kind_of self))
            (each (permutation (kind_of self)) (block_size (kind_of self)) W.BLOCKS) blocks.old }
    {
        if blocks.len() != W::BLOCKS * self.variant().block_bytes() {
            return Err(EngineFault::BlockLength);
        }
        match self {
            Circuit::Dumbo => permute::<Dumbo, W>(blocks),
            Circuit::Jumbo => permute::<Jumbo, W>(blocks),
        }
        Ok(())
    }
}

impl Engine for Circuit {
    ghost kind = { kind_of };

    fn variant(&self) -> Variant {
        match self {
            Circuit::Dumbo => Variant::Dumbo,
            Circuit::Jumbo => Variant::Jumbo,
        }
    }

    fn one(&self, block: &mut [u8]) -> Result<(), EngineFault> {
        self.replace::<u64>(block)
    }

    fn four(&self, blocks: &mut [u8]) -> Result<(), EngineFault> {
        self.replace::<u64x4>(blocks)
    }
}
