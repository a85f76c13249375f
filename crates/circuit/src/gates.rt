// The substitution of whole words by a boolean circuit.
ghost use Rattle.std.specs.Prelude.{◌≡◌, ℕ, ◌<◌};
ghost use Rattle.circuit.specs.Planes.{of_block, Substituted};

use crate::planes::Planes;
use crate::words::Word;

// At each place the half byte of the four words' bits, the lowest in a, is substituted.
pub(crate) fn substitute<W: Word>(p: Planes<W>) -> Planes<W>
    ensures { (i : ℕ) → Substituted (of_block W.at p i) (of_block W.at result i) }
{
    let t = p.c.not();
    let a = p.d.xor(t.and(p.b)).xor(p.a);
    let u = a.xor(t);
    let b = u.or(p.d).xor(p.b).xor(p.c);
    let c = u.xor(b.not().or(p.d));
    let d = t.and(c).xor(p.d).xor(b.and(p.b));
    Planes { a, b, c, d }
}
