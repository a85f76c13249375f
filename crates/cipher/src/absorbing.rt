// Parts of a string and 01, enciphered and xored into the tag sum.
ghost use Rattle.std.specs.Prelude.{◌≡◌, ℕ, ◌+◌, ◌*◌, ◌/◌, ◌<◌, min, length, take, drop, Ok};
ghost use Rattle.engine.specs.Permutation.{block_size};
ghost use Rattle.cipher.specs.Blocks.{padded_part, part, parts, iterate, sum_of_parts};
ghost use Rattle.cipher.specs.Masks.{phi1 as first_phi};
ghost use Rattle.cipher.specs.Mode.{with_01, enciphered_block, sum_with_parts};
ghost use Rattle.cipher.specs.Groups.{block_in};

use crate::enciphering::Keyed;
use crate::faults::CipherFault;
use crate::sizes::{Block, MOST_GROUP_BYTES};
use crate::xor::xor_into;
use engine::Engine;

// Writes the bytes and 01, filled up with zeros, as far as the place goes.
pub(crate) fn load(bytes: &[u8], block: &mut [u8])
    ensures { block.new ≡ padded_part (length block.old) (with_01 bytes.now) }
{
    block.fill(0);
    let k = block.len().min(bytes.len());
    block[0..k].copy_from_slice(&bytes[0..k]);
    if k < block.len() {
        block[k] = 1;
    }
}

// Xors neighbouring blocks of n bytes into the sum.
fn add_blocks(sum: &mut Block, n: usize, blocks: &[u8])
    requires { 0 < n }
    ensures { sum.new
        ≡ sum_of_parts (λ q. take n (drop (q * n) blocks.now)) (length blocks.now / n) 0 sum.old }
{
    for block in blocks.chunks_exact(n) {
        xor_into(sum, block);
    }
}

impl<'e, E: Engine> Keyed<'e, E> {
    // Xors the first four parts of the bytes and 01, or as many as there are, enciphered from the running mask on, into the sum, and
    // steps the mask past four.
    fn absorb_group(
        &self,
        running: &mut Block,
        j: usize,
        bytes: &[u8],
        sum: &mut Block,
    ) -> Result<(), CipherFault>
        ensures granted { result ≡ Ok tt }
        ensures sum { let v = E.kind self.now.engine.now in let n = block_size v in
            let count = min (parts n (length bytes.now + 1)) 4 in let first = block_in v running.old in
            block_in v sum.new
            ≡ sum_with_parts v first j count 0 (with_01 bytes.now) (block_in v sum.old) }
        ensures running { let v = E.kind self.now.engine.now in
            block_in v running.new ≡ iterate (first_phi v) 4 (block_in v running.old) }
    {
        let n = self.engine.variant().block_bytes();
        let count = (bytes.len() / n + 1).min(4);
        let mut blocks = [0; MOST_GROUP_BYTES];
        load(bytes, &mut blocks[0..4 * n]);
        self.encipher_four(running, j, &mut blocks)?;
        add_blocks(sum, n, &blocks[0..count * n]);
        Ok(())
    }

    // Xors all parts of the bytes and 01, enciphered from a mask on, into the sum.
    // A chunk fills four parts, so that the 01 after it is in none of them, and only the one after the rest goes in.
    pub(crate) fn absorb(
        &self,
        mask: Block,
        j: usize,
        bytes: &[u8],
        sum: &mut Block,
    ) -> Result<(), CipherFault>
        ensures granted { result ≡ Ok tt }
        ensures sum { let v = E.kind self.now.engine.now in
            let count = parts (block_size v) (length (with_01 bytes.now)) in
            block_in v sum.new
            ≡ sum_with_parts v (block_in v mask) j count 0 (with_01 bytes.now) (block_in v sum.old) }
    {
        let groups = bytes.chunks_exact(4 * self.engine.variant().block_bytes());
        let rest = groups.remainder();
        let mut running = mask;
        for part in groups {
            self.absorb_group(&mut running, j, part, sum)?;
        }
        self.absorb_group(&mut running, j, rest, sum)
    }
}
