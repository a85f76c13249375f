// The engine for Delirium that treats four blocks together. No branch and no index depends on the bytes of a block.
ghost use Rattle.std.specs.Prelude.{◌≡◌, ◌*◌, ◌≤◌};
ghost use Rattle.engine.specs.Calls.{answer_by_length, place_by_length};
ghost use Rattle.engine.specs.Permutation.{permutation, each};
ghost use Rattle.engine.specs.declared.variants.Variant.TheVariants.{Delirium};

use crate::rounds::all_rounds;
use crate::weave::{BLOCK_BYTES, load, store};
use engine::{Engine, EngineFault, Variant};

/// The fast engine of Delirium.
#[derive(Clone, Copy)]
pub struct Interleaved;

impl Engine for Interleaved {
    ghost kind = { λ _. Delirium };

    fn variant(&self) -> Variant {
        Variant::Delirium
    }

    fn one(&self, block: &mut [u8]) -> Result<(), EngineFault> {
        permute::<1>(block)
    }

    fn four(&self, blocks: &mut [u8]) -> Result<(), EngineFault> {
        permute::<4>(blocks)
    }
}

// Replaces each of up to four neighbouring blocks by the permutation of it. A place of another length is refused and left as it was.
fn permute<const BLOCKS: usize>(blocks: &mut [u8]) -> Result<(), EngineFault>
    requires { BLOCKS ≤ 4 }
    ensures answer { result ≡ answer_by_length (BLOCKS * 25) blocks.old }
    ensures blocks { blocks.new
        ≡ place_by_length (BLOCKS * 25) (each (permutation Delirium) 25 BLOCKS) blocks.old }
{
    if blocks.len() != BLOCKS * BLOCK_BYTES {
        return Err(EngineFault::BlockLength);
    }
    store(&all_rounds(load(blocks)), blocks);
    Ok(())
}
