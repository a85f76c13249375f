// The bits of a block as an array, and layers of a permutation, each given by the rule for one bit of its result.
ghost use Rattle.std.specs.Prelude.{◌≡◌, ℕ, ◌*◌, ◌^◌, ◌<◌, ◌≤◌, Bool, List, length};
ghost use Rattle.binary.specs.Bits.{bit, bits, block, value, list_from_fn};

use std::array;

// Bit k of a byte.
pub(crate) fn get(x: u8, k: usize) -> bool
    requires { k < 8 }
    ensures { result ≡ bit x k }
{
    (x >> k) % 2 == 1
}

// The number that has these bits, the lowest first.
pub(crate) fn number(bits: &[bool]) -> u8
    requires { length bits.now ≤ 8 }
    ensures { (result ≡ value bits.now 0 (length bits.now)) × (result < 2 ^ length bits.now) }
{
    let mut n = 0;
    for b in bits.iter().rev() {
        n = u8::from(*b) + 2 * n;
    }
    n
}

// The bits of a block, eight for each byte.
pub(crate) fn unpack<const BITS: usize>(block: &[u8]) -> [bool; BITS]
    requires { BITS ≡ 8 * length block.now }
    ensures { result ≡ bits block.now }
{
    array::from_fn(|j| get(block[j / 8], j % 8))
}

// Writes the block that has these bits.
pub(crate) fn pack<const BITS: usize>(bits: &[bool; BITS], out: &mut [u8])
    requires { BITS ≡ 8 * length out.old }
    ensures { out.new ≡ block (length out.old) bits.now }
{
    // By the place: what `zip` wrote is not known after the loop.
    let bits = &bits[..];
    for (k, byte) in out.iter_mut().enumerate() {
        *byte = number(&bits[8 * k..8 * k + 8]);
    }
}

// A layer of a permutation of so many bits, by the rule that gives bit j of its result.
pub(crate) trait BitLayer<const BITS: usize> {
    ghost rule: { Self → List Bool → ℕ → Bool };
    // What the layer asks of the number of bits.
    ghost suits: { Type 0 };

    fn bit(&self, old: &[bool; BITS], j: usize) -> bool
        requires suits { suits }
        requires inside { j < BITS }
        ensures { result ≡ rule self.now old.now j };
}

// What the layer makes of the bits.
pub(crate) fn apply<L: BitLayer<BITS>, const BITS: usize>(
    layer: &L,
    old: &[bool; BITS],
) -> [bool; BITS]
    requires { L.suits }
    ensures { result ≡ list_from_fn (length old.now) (L.rule layer.now old.now) }
{
    array::from_fn(
        |j: usize| -> bool
            requires suits { L.suits }
            requires inside { j < BITS }
            ensures { result ≡ L.rule layer.entry.now old.entry.now j }
        { layer.bit(old, j) },
    )
}
