// The sizes of keys, nonces, texts and tags, and the checks of them.
ghost use Rattle.std.specs.Prelude.{◌≡◌, [], ◌∷◌};
ghost use Rattle.fault.specs.Checks.{decision};
ghost use Rattle.cipher.specs.Mode.{tag_size};
ghost use Rattle.cipher.specs.Calls.{key_check, size_checks, key_answer};
ghost use Rattle.cipher.specs.Views.{lawful_seen, key_seen};

use crate::faults::CipherFault;
use engine::Variant;

/// The bytes of a key.
pub const KEY_BYTES: usize = 16;

pub(crate) const NONCE_BYTES: usize = 12;

pub(crate) const MOST_BYTES: usize = 65536;
// The bytes of the longest block, and of four.
pub(crate) const MOST_BLOCK_BYTES: usize = 25;

pub(crate) const MOST_GROUP_BYTES: usize = 4 * MOST_BLOCK_BYTES;

/// The bytes of the longest tag of all variants.
pub const MOST_TAG_BYTES: usize = 16;

// Room for a block of any variant, and for four neighbouring ones: how long an engine's blocks are is known only when it runs. The first bytes
// hold them, and the others say nothing.
pub(crate) type Block = [u8; MOST_BLOCK_BYTES];

pub(crate) type Blocks = [u8; MOST_GROUP_BYTES];

// The key and the nonce of a call whose sizes are lawful.
#[derive(Clone, Copy)]
pub(crate) struct Lawful<'a> {
    pub(crate) key: &'a [u8; KEY_BYTES],
    pub(crate) nonce: &'a [u8; NONCE_BYTES],
}

/// The bytes of a tag.
pub fn tag_bytes(variant: Variant) -> usize
    ensures { result ≡ tag_size variant }
{
    match variant {
        Variant::Dumbo => 8,
        Variant::Jumbo => 8,
        Variant::Delirium => 16,
    }
}

// A key of the right length.
fn sized_key(key: &[u8]) -> Result<&[u8; KEY_BYTES], CipherFault>
    ensures { key_seen result ≡ decision (key_check key.now ∷ []) key.now }
{
    key.as_array().ok_or(CipherFault::KeyLength)
}

/// The check of a key.
pub fn check_key(key: &[u8]) -> Result<(), CipherFault>
    ensures { result ≡ key_answer key.now }
{
    sized_key(key)?;
    Ok(())
}

// The checks of sizes that sealing and checking share, in their order.
pub(crate) fn check_sizes<'a>(
    variant: Variant,
    key: &'a [u8],
    nonce: &'a [u8],
    associated: &[u8],
    text: &[u8],
    tag: &[u8],
) -> Result<Lawful<'a>, CipherFault>
    ensures { lawful_seen result
        ≡ decision (size_checks variant key.now nonce.now associated.now text.now tag.now [])
        (key.now, nonce.now) }
{
    let key = sized_key(key)?;
    let nonce = nonce.as_array().ok_or(CipherFault::NonceLength)?;
    if associated.len() > MOST_BYTES {
        return Err(CipherFault::AssociatedDataLength);
    }
    if text.len() > MOST_BYTES {
        return Err(CipherFault::TextLength);
    }
    if tag.len() != tag_bytes(variant) {
        return Err(CipherFault::TagLength);
    }
    Ok(Lawful { key, nonce })
}
