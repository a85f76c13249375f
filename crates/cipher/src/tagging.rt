// The tag sum and the tag.
ghost use Rattle.std.specs.Prelude.{◌≡◌, ◌++◌, Ok};
ghost use Rattle.engine.specs.Permutation.{block_size};
ghost use Rattle.cipher.specs.Blocks.{part};
ghost use Rattle.cipher.specs.Mode.{with_01, associated_sum, enciphered_block, tag_sum};
ghost use Rattle.cipher.specs.Groups.{block_in};

use crate::absorbing::load;
use crate::enciphering::Keyed;
use crate::faults::CipherFault;
use crate::masks::{ASSOCIATED_TURNS, SEALED_TURNS, phi1};
use crate::sizes::{Block, NONCE_BYTES};
use engine::{Engine, Variant};

// Writes part 0 of nonce, associated data and 01.
fn start_sum(variant: Variant, nonce: &[u8; NONCE_BYTES], associated: &[u8], sum: &mut Block)
    ensures { block_in variant sum.new
        ≡ part (block_size variant) 0 (nonce.now ++ with_01 associated.now) }
{
    sum[0..NONCE_BYTES].copy_from_slice(nonce);
    load(associated, &mut sum[NONCE_BYTES..variant.block_bytes()]);
}

impl<'e, E: Engine> Keyed<'e, E> {
    // Writes the sum after nonce and associated data. The other parts of that string are those of the data after part 0, and 01.
    fn sum_associated(
        &self,
        nonce: &[u8; NONCE_BYTES],
        associated: &[u8],
        sum: &mut Block,
    ) -> Result<(), CipherFault>
        ensures granted { result ≡ Ok tt }
        ensures sum { let v = E.kind self.now.engine.now in
            block_in v sum.new
            ≡ associated_sum v (block_in v self.now.first) nonce.now associated.now }
    {
        let variant = self.engine.variant();
        start_sum(variant, nonce, associated, sum);
        let within = variant.block_bytes() - NONCE_BYTES;
        if associated.len() < within {
            return Ok(());
        }
        let mut second = self.first;
        phi1(variant, &mut second);
        self.absorb(second, ASSOCIATED_TURNS, &associated[within..], sum)
    }

    // Writes a block that begins with the tag of a sealed text.
    pub(crate) fn tag(
        &self,
        nonce: &[u8; NONCE_BYTES],
        associated: &[u8],
        sealed: &[u8],
        block: &mut Block,
    ) -> Result<(), CipherFault>
        ensures granted { result ≡ Ok tt }
        ensures block { let v = E.kind self.now.engine.now in
            let first = block_in v self.now.first in
            block_in v block.new
            ≡ enciphered_block v first (tag_sum v first nonce.now associated.now sealed.now) 0 0 }
    {
        self.sum_associated(nonce, associated, block)?;
        self.absorb(self.first, SEALED_TURNS, sealed, block)?;
        self.encipher(&self.first, block)
    }
}
