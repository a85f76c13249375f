// An engine under a key, and its permutation of blocks under masks.
ghost use Rattle.std.specs.Prelude.{◌≡◌, ℕ, ◌*◌, take, Ok, IsOkAnd};
ghost use Rattle.engine.specs.Permutation.{block_size, permutation, each};
ghost use Rattle.cipher.specs.Blocks.{xor_of, iterate, stream};
ghost use Rattle.cipher.specs.Masks.{phi1 as first_phi, first_mask, mask as mask_of};
ghost use Rattle.cipher.specs.Groups.{block_in};

use crate::faults::CipherFault;
use crate::masks::four_masks;
use crate::sizes::{Block, Blocks, KEY_BYTES, MOST_BLOCK_BYTES, MOST_GROUP_BYTES};
use crate::xor::xor_into;
use engine::Engine;

// An engine under a key, of which the first mask is all that the cipher needs.
#[derive(Drop)]
pub(crate) struct Keyed<'e, E: Engine> {
    pub(crate) engine: &'e E,
    pub(crate) first: Block,
}

// An engine's fault is passed up by `?`, held whole, as every fault of a lower layer is. `granted` says here and in the other modules that none
// comes.
impl<'e, E: Engine> Keyed<'e, E> {
    // Makes the first mask of a key.
    pub(crate) fn new(engine: &'e E, key: &[u8; KEY_BYTES]) -> Result<Keyed<'e, E>, CipherFault>
        ensures { IsOkAnd result (λ k. (k.engine.now ≡ engine.now)
            × (block_in (E.kind engine.now) k.first ≡ first_mask (E.kind engine.now) key.now)) }
    {
        let mut first = [0; MOST_BLOCK_BYTES];
        first[0..KEY_BYTES].copy_from_slice(key);
        engine.one(&mut first[0..engine.variant().block_bytes()])?;
        Ok(Keyed { engine, first })
    }

    // Xors a mask into a block, permutes the block, and xors the mask in again.
    pub(crate) fn encipher(&self, mask: &Block, block: &mut Block) -> Result<(), CipherFault>
        ensures granted { result ≡ Ok tt }
        ensures block { let v = E.kind self.now.engine.now in
            block_in v block.new
            ≡ xor_of (permutation v (xor_of (block_in v block.old) (block_in v mask.now)))
            (block_in v mask.now) }
    {
        let n = self.engine.variant().block_bytes();
        xor_into(block, mask);
        self.engine.one(&mut block[0..n])?;
        xor_into(block, mask);
        Ok(())
    }

    // The same with each of four neighbouring blocks under the running mask and the next three, and steps the running one past them.
    // A text of one block does not pay for four.
    pub(crate) fn encipher_four(
        &self,
        running: &mut Block,
        j: usize,
        blocks: &mut Blocks,
    ) -> Result<(), CipherFault>
        ensures granted { result ≡ Ok tt }
        ensures blocks { let v = E.kind self.now.engine.now in let n = block_size v in
            let masks = stream (λ q. mask_of v (block_in v running.old) q j) 4 0 in
            take (4 * n) blocks.new
            ≡ xor_of (each (permutation v) n 4 (xor_of (take (4 * n) blocks.old) masks)) masks }
        ensures running { let v = E.kind self.now.engine.now in
            block_in v running.new ≡ iterate (first_phi v) 4 (block_in v running.old) }
    {
        let variant = self.engine.variant();
        let mut masks = [0; MOST_GROUP_BYTES];
        four_masks(variant, running, j, &mut masks);
        xor_into(blocks, &masks);
        self.engine.four(&mut blocks[0..4 * variant.block_bytes()])?;
        xor_into(blocks, &masks);
        Ok(())
    }
}
