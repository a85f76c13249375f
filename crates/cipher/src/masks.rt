// The masks: phi1 and phi2 of a block, and four masks side by side, each stepped from the one before.
// A block is bytes, of which the variant says how many count.
ghost use Rattle.std.specs.Prelude.{◌≡◌, ℕ, ◌*◌, take};
ghost use Rattle.engine.specs.Permutation.{block_size};
ghost use Rattle.cipher.specs.Blocks.{iterate, stream};
ghost use Rattle.cipher.specs.Masks.{appended_byte, phi1 as first_phi, phi2 as second_phi, mask as mask_of};
ghost use Rattle.cipher.specs.Groups.{block_in};

use crate::sizes::{Block, Blocks};
use crate::xor::xor_into;
use engine::Variant;

// How often phi2 is applied to the masks: of associated data, of the key stream, and of the sealed text in the tag.
pub(crate) const ASSOCIATED_TURNS: usize = 0;

pub(crate) const STREAM_TURNS: usize = 1;

pub(crate) const SEALED_TURNS: usize = 2;

// The byte that phi1 appends.
fn appended_byte(variant: Variant, block: &Block) -> u8
    ensures { result ≡ appended_byte variant (block_in variant block.now) }
{
    match variant {
        Variant::Dumbo => block[0].rotate_left(3) ^ (block[3] << 7) ^ (block[13] >> 7),
        Variant::Jumbo => block[0].rotate_left(1) ^ (block[3] << 7) ^ (block[19] >> 7),
        Variant::Delirium => block[0].rotate_left(1) ^ block[2].rotate_left(1) ^ (block[13] << 1),
    }
}

// Drops the first byte of the block and appends another.
pub(crate) fn phi1(variant: Variant, block: &mut Block)
    ensures { block_in variant block.new ≡ first_phi variant (block_in variant block.old) }
{
    let n = variant.block_bytes();
    let last = appended_byte(variant, block);
    block.copy_within(1..n, 0);
    block[n - 1] = last;
}

// The block xored with phi1 of it.
fn phi2(variant: Variant, block: &mut Block)
    ensures { block_in variant block.new ≡ second_phi variant (block_in variant block.old) }
{
    let old = *block;
    phi1(variant, block);
    xor_into(block, &old);
}

// The running mask with phi2 applied j times.
pub(crate) fn mask(variant: Variant, running: &Block, j: usize) -> Block
    ensures { block_in variant result ≡ mask_of variant (block_in variant running.now) 0 j }
{
    let mut block = *running;
    for _ in 0..j {
        phi2(variant, &mut block);
    }
    block
}

// Writes four masks side by side, from the running one on, and steps the running one past them.
pub(crate) fn four_masks(variant: Variant, running: &mut Block, j: usize, masks: &mut Blocks)
    ensures masks { take (4 * block_size variant) masks.new
        ≡ stream (λ q. mask_of variant (block_in variant running.old) q j) 4 0 }
    ensures running { block_in variant running.new
        ≡ iterate (first_phi variant) 4 (block_in variant running.old) }
{
    let n = variant.block_bytes();
    // By the place: what `chunks_exact_mut` wrote is not known after the loop.
    for q in 0..4 {
        masks[q * n..q * n + n].copy_from_slice(&mask(variant, running, j)[0..n]);
        phi1(variant, running);
    }
}
