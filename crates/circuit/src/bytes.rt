// The bytes of blocks in words, and back.
ghost use Rattle.std.specs.Prelude.{◌≡◌, ℕ, ◌+◌, ◌*◌, ◌/◌, ◌%◌, ◌<◌, ◌≤◌, Bool, List, length};
ghost use Rattle.binary.specs.Bits.{bit, bit_of, bits, block, word};
ghost use Rattle.circuit.specs.Planes.{of_block, one_at, block_at, Holds};
ghost use Rattle.circuit.specs.Packed.{packed_bit};

use crate::family::Spongent;
use crate::planes::Planes;
use crate::words::Word;

// Six bytes from place i on, the first one lowest.
fn six(xs: &[u8], i: usize) -> u64
    requires { i + 6 ≤ length xs.now }
    ensures { (k : ℕ) → k < 48 → bit result k ≡ bit_of xs.now (8 * i + k) }
{
    let mut bytes = [0; 8];
    bytes[..6].copy_from_slice(&xs[i..i + 6]);
    u64::from_le_bytes(bytes)
}

// The bits of a block from bit p on, 44 of them or up to the block's end.
fn word_from(xs: &[u8], p: usize) -> u64
    requires { (6 ≤ length xs.now) × ((p % 4 ≡ 0) × (p + 40 ≤ 8 * length xs.now)) }
    ensures { (k : ℕ) → k < 44 → p + k < 8 * length xs.now → bit result k ≡ bit_of xs.now (p + k) }
{
    let i = (p / 8).min(xs.len() - 6);
    six(xs, i) >> (p - 8 * i)
}

// Word t of block i, and above that bits of other words or none.
fn quarter<S: Spongent>(blocks: &[u8], i: usize, t: usize) -> u64
    requires { (i * (S.WIDTH / 2) + S.WIDTH / 2 ≤ length blocks.now) × (t < 4) }
    ensures { (k : ℕ) → k < S.WIDTH
        → bit result k ≡ bit_of (block_at (S.WIDTH / 2) i blocks.now) (t * S.WIDTH + k) }
{
    let m = S::WIDTH as usize;
    let n = m / 2;
    word_from(&blocks[i * n..i * n + n], t * m)
}

// Word t of each block.
fn quarters<S: Spongent, W: Word>(blocks: &[u8], t: usize) -> W
    requires { (length blocks.now ≡ W.BLOCKS * (S.WIDTH / 2)) × (t < 4) }
    ensures { (i k : ℕ) → i < W.BLOCKS → k < S.WIDTH
        → W.at result i k ≡ bit_of (block_at (S.WIDTH / 2) i blocks.now) (t * S.WIDTH + k) }
{
    W::from_fn(|i| quarter::<S>(blocks, i, t))
}

// The blocks in words.
pub(crate) fn load<S: Spongent, W: Word>(blocks: &[u8]) -> Planes<W>
    requires { length blocks.now ≡ W.BLOCKS * (S.WIDTH / 2) }
    ensures { (i : ℕ) → i < W.BLOCKS
        → Holds S.WIDTH (of_block W.at result i) (bits (block_at (S.WIDTH / 2) i blocks.now)) }
{
    Planes {
        a: quarters::<S, W>(blocks, 0),
        b: quarters::<S, W>(blocks, 1),
        c: quarters::<S, W>(blocks, 2),
        d: quarters::<S, W>(blocks, 3),
    }
}

// Byte k of a block in words: what word t has of it, and above that what the next word has.
fn byte_at<S: Spongent>(ws: &[u64; 5], k: usize) -> u8
    requires { k * 2 < S.WIDTH }
    ensures { result ≡ word (packed_bit S.WIDTH ws.now) (8 * k) 8 }
{
    let m = S::WIDTH as usize;
    let (t, r) = (8 * k / m, 8 * k % m);
    let here = (ws[t] & ((1 << m) - 1)) >> r;
    let above = ws[t + 1] << (m - r);
    ((here | above) & 0xFF) as u8
}

// Writes the block that lies in words.
pub(crate) fn store<S: Spongent>(p: Planes<u64>, xs: &mut [u8])
    requires { length xs.old * 2 ≡ S.WIDTH }
    ensures { (bs : List Bool) → Holds S.WIDTH (of_block one_at p 0) bs
        → xs.new ≡ block (length xs.old) bs }
{
    let ws = [p.a, p.b, p.c, p.d, 0];
    for (k, x) in xs.iter_mut().enumerate() {
        *x = byte_at::<S>(&ws, k);
    }
}
