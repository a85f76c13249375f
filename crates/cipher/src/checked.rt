// Checking of received texts, and opening of checked ones.
ghost use Rattle.std.specs.Prelude.{◌≡◌, ℕ, ◌+◌, ◌*◌, ◌<◌, ◌≤◌, length, Ok};
ghost use Rattle.std.specs.Str.{bytes_eq};
ghost use Rattle.fault.specs.Checks.{by_answer};
ghost use Rattle.cipher.specs.Mode.{tag_from};
ghost use Rattle.cipher.specs.Groups.{block_in};
ghost use Rattle.cipher.specs.Calls.{check_answer, open_answer, text_of_checked};
ghost use Rattle.cipher.specs.Views.{text_of, check_seen, open_seen, GivesBack};

use crate::enciphering::Keyed;
use crate::faults::CipherFault;
use crate::sizes::{MOST_BLOCK_BYTES, NONCE_BYTES, check_sizes, tag_bytes};
use crate::xor::equal;
use big_endian::{number_of, put_number};
use engine::{Engine, Plain, Variant};

/// A received text whose tag was found right: the sealed text, borrowed, with the variant of its check, and the key (16 bytes) and the
/// nonce (12 bytes) of it as numbers, highest byte first. Only `check` makes one. It moves, and cannot be let go: it is opened, or given
/// up for the sealed text.
pub struct Checked<'a> {
    sealed: &'a [u8],
    variant: Variant,
    key: u128,
    nonce: u128,
}

/// Checks the tag of a received text: of at most 65,536 bytes, under a key of 16 bytes, a nonce of 12 and associated data of at most
/// 65,536. Errors: a wrong size (1 to 5), then a wrong tag (7).
pub fn check<'a, E: Engine>(
    engine: &E,
    key: &[u8],
    nonce: &[u8],
    associated: &[u8],
    sealed: &'a [u8],
    tag: &[u8],
) -> Result<Checked<'a>, CipherFault>
    ensures { check_seen result
        ≡ check_answer (E.kind engine.now) key.now nonce.now associated.now sealed.now tag.now }
{
    let variant = engine.variant();
    let lawful = check_sizes(variant, key, nonce, associated, sealed, tag)?;
    let keyed = Keyed::new(engine, lawful.key)?;
    if !keyed.has_tag(lawful.nonce, associated, sealed, tag)? {
        return Err(CipherFault::WrongTag);
    }
    Ok(Checked {
        sealed,
        variant,
        key: u128::from_be_bytes(*lawful.key),
        // A nonce has twelve bytes, and no type of numbers has so many for `from_be_bytes`.
        nonce: number_of(nonce),
    })
}

impl<'e, E: Engine> Keyed<'e, E> {
    // Whether a tag is that of the sealed text.
    fn has_tag(
        &self,
        nonce: &[u8; NONCE_BYTES],
        associated: &[u8],
        sealed: &[u8],
        tag: &[u8],
    ) -> Result<bool, CipherFault>
        ensures { let v = E.kind self.now.engine.now in
            let right = tag_from v (block_in v self.now.first) nonce.now associated.now sealed.now in
            result ≡ Ok (bytes_eq tag.now right) }
    {
        let mut block = [0; MOST_BLOCK_BYTES];
        self.tag(nonce, associated, sealed, &mut block)?;
        let right = &block[0..tag_bytes(self.engine.variant())];
        Ok(equal(tag, right))
    }
}

impl<'a> Checked<'a> {
    /// Whether an opening into this place would be refused (6, for another length than the text's). The text stays checked.
    pub fn refuses(&self, out: &[u8]) -> Result<(), CipherFault>
        ensures { result ≡ open_answer (text_of self.now) out.now }
    {
        if out.len() != self.sealed.len() {
            return Err(CipherFault::OutputLength);
        }
        Ok(())
    }

    /// Opens the text into a place of its length, and uses it up. A refused opening (6) leaves the place as it was and gives the checked
    /// text back.
    pub fn open<E: Engine>(
        self,
        engine: &E,
        out: &mut [u8],
    ) -> Result<(), (CipherFault, Checked<'a>)>
        ensures answer { open_seen result ≡ open_answer (text_of self.entry) out.old }
        ensures out { out.new ≡ by_answer result (text_of_checked (text_of self.entry)) out.old }
        ensures again { GivesBack (text_of self.entry) result }
    {
        match self.open_into(engine, out) {
            Err(f) => Err((f, self)),
            Ok(()) => {
                let Checked {
                    sealed: _,
                    variant: _,
                    key: _,
                    nonce: _,
                } = self;
                Ok(())
            }
        }
    }

    /// Gives up the check for the sealed text.
    pub fn into_sealed(self) -> &'a [u8]
        ensures { result.now ≡ self.entry.sealed.now }
    {
        let Checked {
            sealed: bytes,
            variant: _,
            key: _,
            nonce: _,
        } = self;
        bytes
    }

    // Writes what the text opens to: by the engine lent, or by the plain engine of the text's variant where that one is of another.
    fn open_into<E: Engine>(&self, engine: &E, out: &mut [u8]) -> Result<(), CipherFault>
        ensures answer { result ≡ open_answer (text_of self.now) out.old }
        ensures out { out.new ≡ by_answer result (text_of_checked (text_of self.now)) out.old }
    {
        self.refuses(out)?;
        if engine.variant() == self.variant {
            return self.open_by(engine, out);
        }
        self.open_by(
            &Plain {
                variant: self.variant,
            },
            out,
        )
    }

    // Writes what the text opens to, by an engine of its variant.
    fn open_by<E: Engine>(&self, engine: &E, out: &mut [u8]) -> Result<(), CipherFault>
        requires variant { E.kind engine.now ≡ self.now.variant }
        requires out { length out.old ≡ length self.now.sealed.now }
        ensures granted { result ≡ Ok tt }
        ensures out { out.new ≡ text_of_checked (text_of self.now) }
    {
        let mut nonce = [0u8; NONCE_BYTES];
        put_number(self.nonce, &mut nonce);
        Keyed::new(engine, &self.key.to_be_bytes())?.stream(&nonce, self.sealed, out)
    }
}
