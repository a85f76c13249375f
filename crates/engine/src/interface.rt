// What an engine is: it belongs to one variant, and replaces blocks by the variant's permutation of them.
ghost use Rattle.std.specs.Prelude.{◌≡◌};
ghost use Rattle.engine.specs.Calls.{one_answer, one_after, four_answer, four_after};
ghost use Rattle.engine.specs.declared.variants.Variant.{Variant as Kind};

use crate::faults::EngineFault;
use crate::variants::Variant;

/// An engine: it permutes blocks as one variant of the cipher does, and no call changes it.
pub trait Engine {
    // The variant that the engine belongs to.
    ghost kind: { Self → Kind };

    /// That variant.
    fn variant(&self) -> Variant
        ensures answer { result ≡ kind self.now }
        ensures engine { self.exit.now ≡ self.entry.now };

    /// Replaces a block by the permutation of it. A place of another length is refused and left as it was.
    fn one(&self, block: &mut [u8]) -> Result<(), EngineFault>
        ensures answer { result ≡ one_answer (kind self.now) block.old }
        ensures block { block.new ≡ one_after (kind self.now) block.old }
        ensures engine { self.exit.now ≡ self.entry.now };

    /// Replaces each of four neighbouring blocks by the permutation of it. A place of another length is refused and left as it was.
    fn four(&self, blocks: &mut [u8]) -> Result<(), EngineFault>
        ensures answer { result ≡ four_answer (kind self.now) blocks.old }
        ensures blocks { blocks.new ≡ four_after (kind self.now) blocks.old }
        ensures engine { self.exit.now ≡ self.entry.now }
    {
        let n = self.variant().block_bytes();
        if blocks.len() != 4 * n {
            return Err(EngineFault::BlockLength);
        }
        // By the place: what `chunks_exact_mut` wrote is not known after the loop.
        for i in 0..4 {
            self.one(&mut blocks[i * n..i * n + n])?;
        }
        Ok(())
    }
}
