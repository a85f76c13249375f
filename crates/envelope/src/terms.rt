// Terms: what a lot is sold under, up to 64 bytes, held as plain numbers.
ghost use Rattle.std.specs.Prelude.{◌≡◌, ◌-◌, ◌≤◌, ◌++◌, length, take, replicate};

use big_endian::{number_of, put_number};

/// The most bytes that terms may have.
pub const MOST_TERMS_BYTES: usize = 64;

// Four numbers of sixteen bytes each, filled with zeros after the terms, and how many bytes the terms have: a head holds its terms as plain
// numbers and no array.
#[derive(Clone, Copy)]
pub struct Terms {
    a: u128,
    b: u128,
    c: u128,
    d: u128,
    len: u8,
    ghost short: { len ≤ 64 },
}

impl Terms {
    ghost use Rattle.envelope.specs.Terms.{bytes_of_terms, held_bytes};

    // The terms that the bytes write, filled with zeros.
    #[tactic(auto, using(crate::proofs::TermsLaws::zeros_left))]
    pub(crate) fn new(bytes: &[u8]) -> Terms
        requires { length bytes.now ≤ 64 }
        ensures terms { bytes_of_terms result ≡ bytes.now }
        ensures zeros { held_bytes result ≡ bytes.now ++ replicate (64 - length bytes.now) 0 }
    {
        let mut held = [0u8; MOST_TERMS_BYTES];
        held[..bytes.len()].copy_from_slice(bytes);
        Terms::held_in(&held, bytes.len() as u8)
    }

    // The terms that the first of these bytes write, `len` of them. The parts of the place are slices, which `number_of` takes as they are.
    fn held_in(held: &[u8; MOST_TERMS_BYTES], len: u8) -> Terms
        requires { len ≤ 64 }
        ensures terms { bytes_of_terms result ≡ take len held.now }
        ensures held { held_bytes result ≡ held.now }
    {
        Terms {
            a: number_of(&held[0..16]),
            b: number_of(&held[16..32]),
            c: number_of(&held[32..48]),
            d: number_of(&held[48..64]),
            len,
        }
    }

    // How many bytes the terms have.
    #[tactic(auto, using(crate::proofs::TermsLaws::terms_length))]
    pub(crate) fn bytes(self) -> usize
        ensures { result ≡ length (bytes_of_terms self) }
    {
        self.len as usize
    }

    // Writes the four numbers: the bytes of the terms, and what fills them after these.
    pub(crate) fn put(self, held: &mut [u8; MOST_TERMS_BYTES])
        ensures { held.new ≡ held_bytes self }
    {
        put_number(self.a, &mut held[0..16]);
        put_number(self.b, &mut held[16..32]);
        put_number(self.c, &mut held[32..48]);
        put_number(self.d, &mut held[48..64]);
    }
}
