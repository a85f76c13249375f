// The plain engine, which permutes blocks bit by bit, for each variant.
ghost use Rattle.std.specs.Prelude.{◌≡◌, length};
ghost use Rattle.engine.specs.Permutation.{block_size, permutation};

use crate::faults::EngineFault;
use crate::interface::Engine;
use crate::spongent::{DUMBO_FIRST_COUNTER, JUMBO_FIRST_COUNTER};
use crate::variants::Variant;
use crate::{keccak, spongent};

/// The plain engine of a variant. It goes bit by bit, as the definitions read, and is slow.
#[derive(Clone, Copy)]
pub struct Plain {
    /// The variant that it belongs to.
    pub variant: Variant,
}

impl Engine for Plain {
    ghost kind = { λ e. e.variant };

    fn variant(&self) -> Variant {
        self.variant
    }

    fn one(&self, block: &mut [u8]) -> Result<(), EngineFault> {
        if block.len() != self.variant.block_bytes() {
            return Err(EngineFault::BlockLength);
        }
        permute(self.variant, block);
        Ok(())
    }
}

#[tactic(auto, unfolding(crate::specs::Permutation::permutation))]
fn permute(variant: Variant, block: &mut [u8])
    requires { length block.old ≡ block_size variant }
    ensures { block.new ≡ permutation variant block.old }
{
    match variant {
        Variant::Dumbo => spongent::permute::<160>(block, DUMBO_FIRST_COUNTER, variant.rounds()),
        Variant::Jumbo => spongent::permute::<176>(block, JUMBO_FIRST_COUNTER, variant.rounds()),
        Variant::Delirium => keccak::permute(block),
    }
}
