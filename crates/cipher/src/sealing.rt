// Sealing of texts.
ghost use Rattle.std.specs.Prelude.{◌≡◌, length, Ok};
ghost use Rattle.fault.specs.Checks.{by_answer};
ghost use Rattle.cipher.specs.Mode.{tag_size, sealed_text, tag as tag_of};
ghost use Rattle.cipher.specs.Calls.{seal_answer};

use crate::enciphering::Keyed;
use crate::faults::CipherFault;
use crate::sizes::{MOST_BLOCK_BYTES, check_sizes};
use engine::Engine;

/// Seals a text of at most 65,536 bytes, under a key of 16 bytes, a nonce of 12 and associated data of at most 65,536: writes the sealed
/// text, as long as the text, and its tag, as long as the variant's tags. Errors: a wrong size (1 to 6); then both places are as they were.
/// Source: Elephant, version 2.
pub fn seal<E: Engine>(
    engine: &E,
    key: &[u8],
    nonce: &[u8],
    associated: &[u8],
    text: &[u8],
    out: &mut [u8],
    tag: &mut [u8],
) -> Result<(), CipherFault>
    ensures answer { let v = E.kind engine.now in
        result ≡ seal_answer v key.now nonce.now associated.now text.now out.old tag.old }
    ensures out { let v = E.kind engine.now in
        out.new ≡ by_answer result (sealed_text v key.now nonce.now text.now) out.old }
    ensures tag { let v = E.kind engine.now in
        let sealed = sealed_text v key.now nonce.now text.now in
        tag.new ≡ by_answer result (tag_of v key.now nonce.now associated.now sealed) tag.old }
{
    let lawful = check_sizes(engine.variant(), key, nonce, associated, text, tag)?;
    if out.len() != text.len() {
        return Err(CipherFault::OutputLength);
    }
    let keyed = Keyed::new(engine, lawful.key)?;
    keyed.stream(lawful.nonce, text, out)?;
    let mut block = [0; MOST_BLOCK_BYTES];
    keyed.tag(lawful.nonce, associated, out, &mut block)?;
    tag.copy_from_slice(&block[0..tag.len()]);
    Ok(())
}
