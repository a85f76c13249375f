// Gathering the bits of a block: word t gets the bits t, t + 4, t + 8 and on, so that each place has a half byte.
// First the block is laid out in four rows by sequences of 16 bits, row r with the sequences r, r + 4 and r + 8; then bits change
// places between rows.
ghost use Rattle.std.specs.Prelude.{ℕ, ◌<◌};
ghost use Rattle.circuit.specs.Moves.{Masked, Crossed};
ghost use Rattle.circuit.specs.Planes.{of_block, Unzipped, Gathered};

use crate::family::Spongent;
use crate::planes::Planes;
use crate::words::Word;

// The bits of x where the mask has ones.
pub(crate) fn masked<W: Word>(x: W, mask: u64) -> W
    ensures { (i : ℕ) → Masked mask (W.at x i) (W.at result i) }
{
    x.and(W::all(mask))
}

// Two words.
#[derive(Clone, Copy)]
struct Pair<W> {
    lo: W,
    hi: W,
}

// Exchanges the bits of hi where the mask has ones with those of lo n places above: n as of `Word::up`.
fn cross<W: Word>(lo: W, hi: W, n: u32, mask: u64) -> Pair<W>
    requires { n < 64 }
    ensures { (i : ℕ)
        → Crossed n mask (W.at lo i) (W.at hi i) (W.at result.lo i) (W.at result.hi i) }
{
    let t = masked(lo.down(n).xor(hi), mask);
    Pair {
        lo: lo.xor(t.up(n)),
        hi: hi.xor(t),
    }
}

// Gathers the bits of four rows. The first four exchanges swap bits 2 and 3 of a bit's place in its row with the row's number,
// and the others bits 0 and 1.
fn unzip<W: Word>(r: Planes<W>) -> Planes<W>
    ensures { (i : ℕ) → Unzipped (of_block W.at r i) (of_block W.at result i) }
{
    let e = cross(r.a, r.b, 4, 0x0F0F0F0F0F0F0F0F);
    let f = cross(r.c, r.d, 4, 0x0F0F0F0F0F0F0F0F);
    let g = cross(e.lo, f.lo, 8, 0x00FF00FF00FF00FF);
    let h = cross(e.hi, f.hi, 8, 0x00FF00FF00FF00FF);
    let s = cross(g.lo, h.lo, 1, 0x5555555555555555);
    let t = cross(g.hi, h.hi, 1, 0x5555555555555555);
    let u = cross(s.lo, t.lo, 2, 0x3333333333333333);
    let v = cross(s.hi, t.hi, 2, 0x3333333333333333);
    Planes {
        a: u.lo,
        b: v.lo,
        c: u.hi,
        d: v.hi,
    }
}

// Gathers the bits of a block.
pub(crate) fn gather<S: Spongent, W: Word>(p: Planes<W>) -> Planes<W>
    ensures { (i : ℕ) → Gathered S.WIDTH (of_block W.at p i) (of_block W.at result i) }
{
    unzip(S::rows(p))
}
