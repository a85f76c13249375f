// The key stream over a text, part by part, in groups of four.
ghost use Rattle.std.specs.Prelude.{◌≡◌, ℕ, ◌*◌, ◌≤◌, length, take, Ok};
ghost use Rattle.engine.specs.Permutation.{block_size};
ghost use Rattle.cipher.specs.Blocks.{padded_part, xor_of, iterate, stream};
ghost use Rattle.cipher.specs.Masks.{phi1 as first_phi};
ghost use Rattle.cipher.specs.Mode.{key_block, streamed_text};
ghost use Rattle.cipher.specs.Groups.{block_in, group};

use crate::enciphering::Keyed;
use crate::faults::CipherFault;
use crate::masks::{STREAM_TURNS, mask, phi1};
use crate::sizes::{Block, Blocks, MOST_BLOCK_BYTES, MOST_GROUP_BYTES, NONCE_BYTES};
use crate::xor::xor_into;
use engine::Engine;

// Writes a block four times side by side.
fn copies(block: &[u8], blocks: &mut Blocks)
    requires { length block.now ≤ 25 }
    ensures { take (4 * length block.now) blocks.new ≡ stream (λ _. block.now) 4 0 }
{
    let n = block.len();
    // By the place: what `chunks_exact_mut` wrote is not known after the loop.
    for q in 0..4 {
        blocks[q * n..q * n + n].copy_from_slice(block);
    }
}

impl<'e, E: Engine> Keyed<'e, E> {
    // Writes a block of the key stream, under the running mask, and steps that on.
    fn key_block(
        &self,
        nonce: &Block,
        running: &mut Block,
        block: &mut Block,
    ) -> Result<(), CipherFault>
        ensures granted { result ≡ Ok tt }
        ensures block { let v = E.kind self.now.engine.now in
            block_in v block.new ≡ key_block v (block_in v running.old) (block_in v nonce.now) 0 }
        ensures running { let v = E.kind self.now.engine.now in
            block_in v running.new ≡ first_phi v (block_in v running.old) }
    {
        let variant = self.engine.variant();
        *block = *nonce;
        self.encipher(&mask(variant, running, STREAM_TURNS), block)?;
        phi1(variant, running);
        Ok(())
    }

    // Writes four blocks of the key stream, from the running mask on, and steps the mask past them.
    fn key_blocks(
        &self,
        nonce: &Block,
        running: &mut Block,
        blocks: &mut Blocks,
    ) -> Result<(), CipherFault>
        ensures granted { result ≡ Ok tt }
        ensures blocks { let v = E.kind self.now.engine.now in
            take (4 * block_size v) blocks.new
            ≡ stream (key_block v (block_in v running.old) (block_in v nonce.now)) 4 0 }
        ensures running { let v = E.kind self.now.engine.now in
            block_in v running.new ≡ iterate (first_phi v) 4 (block_in v running.old) }
    {
        copies(&nonce[0..self.engine.variant().block_bytes()], blocks);
        self.encipher_four(running, STREAM_TURNS, blocks)
    }

    // Writes a part of at most four blocks under the key stream: four blocks of it, or one where that is enough.
    fn stream_group(
        &self,
        nonce: &Block,
        running: &mut Block,
        part: &[u8],
        out: &mut [u8],
    ) -> Result<(), CipherFault>
        requires { length out.old ≡ length part.now }
        ensures granted { result ≡ Ok tt }
        ensures out { let v = E.kind self.now.engine.now in
            let blocks = key_block v (block_in v running.old) (block_in v nonce.now) in
            out.new ≡ xor_of part.now (stream blocks (group v part.now) 0) }
        ensures running { let v = E.kind self.now.engine.now in
            block_in v running.new
            ≡ iterate (first_phi v) (group v part.now) (block_in v running.old) }
    {
        let n = self.engine.variant().block_bytes();
        out.copy_from_slice(part);
        if part.len() > n {
            let mut blocks = [0; MOST_GROUP_BYTES];
            self.key_blocks(nonce, running, &mut blocks)?;
            xor_into(out, &blocks[0..4 * n]);
        } else {
            let mut block = [0; MOST_BLOCK_BYTES];
            self.key_block(nonce, running, &mut block)?;
            xor_into(out, &block[0..n]);
        }
        Ok(())
    }

    // Writes a text under the key stream of a nonce.
    pub(crate) fn stream(
        &self,
        nonce: &[u8; NONCE_BYTES],
        text: &[u8],
        out: &mut [u8],
    ) -> Result<(), CipherFault>
        requires { length out.old ≡ length text.now }
        ensures granted { result ≡ Ok tt }
        ensures out { let v = E.kind self.now.engine.now in
            out.new ≡ streamed_text v (block_in v self.now.first)
            (padded_part (block_size v) nonce.now) text.now }
    {
        let mut nonce_block = [0; MOST_BLOCK_BYTES];
        nonce_block[0..NONCE_BYTES].copy_from_slice(nonce);
        let mut running = self.first;
        // By the place: what `chunks_mut` wrote is not known after the loop.
        let mut at = 0;
        for part in text.chunks(4 * self.engine.variant().block_bytes()) {
            let end = at + part.len();
            self.stream_group(&nonce_block, &mut running, part, &mut out[at..end])?;
            at = end;
        }
        Ok(())
    }
}
