// Exclusive or of byte strings, and their comparison.
ghost use Rattle.std.specs.Prelude.{◌≡◌};
ghost use Rattle.std.specs.Str.{bytes_eq};
ghost use Rattle.cipher.specs.Blocks.{xor_of};

// Xors source into target, as far as both go.
pub(crate) fn xor_into(target: &mut [u8], source: &[u8])
    ensures { target.new ≡ xor_of target.old source.now }
{
    let n = target.len().min(source.len());
    // By the place: what `iter_mut().zip` wrote is not known after the loop.
    for (k, byte) in source[0..n].iter().enumerate() {
        target[k] ^= *byte;
    }
}

// Whether two strings are equal. All differences are gathered: nothing depends on where the first one is.
pub(crate) fn equal(a: &[u8], b: &[u8]) -> bool
    ensures { result ≡ bytes_eq a.now b.now }
{
    if a.len() != b.len() {
        return false;
    }
    a.iter().zip(b).fold(0, |d, (x, y)| d | (x ^ y)) == 0
}
