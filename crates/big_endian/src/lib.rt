//! Numbers as bytes, the highest byte first.
#![tactic(auto)]

ghost use Rattle.std.specs.Prelude.{◌≡◌, length, take};
ghost use Rattle.std.specs.Int.Digits.{number_from_digits};
ghost use Rattle.big_endian.specs.Numbers.{bytes_of};

// The bytes that a number of 128 bits has.
const NUMBER_BYTES: usize = 16;

/// The number that the first sixteen bytes write, or all where there are fewer, as the twelve of a nonce. (`from_be_bytes` takes sixteen exactly.)
pub fn number_of(bytes: &[u8]) -> u128
    ensures { result ≡ number_from_digits 256 (take 16 bytes.now) }
{
    let mut n = 0;
    for b in bytes.iter().take(NUMBER_BYTES) {
        n = n * 256 + u128::from(*b);
    }
    n
}

/// Writes the last bytes of a number, as many as there are places, with zeros in front where there are more than sixteen.
#[tactic(auto, using(crate::proofs::Laws::put_more), unfolding(crate::specs::Numbers::bytes_of))]
pub fn put_number(n: u128, out: &mut [u8])
    ensures { out.new ≡ bytes_of (length out.old) n }
{
    let mut rest = n;
    // By the place: what `iter_mut().rev()` wrote is not known after the loop.
    for i in (0..out.len()).rev() {
        out[i] = (rest % 256) as u8;
        rest /= 256;
    }
}
