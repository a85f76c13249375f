// The rounds of Spongent on words.
ghost use Rattle.std.specs.Prelude.{◌≡◌, ℕ, ◌*◌, ◌<◌, Bool, List, length};
ghost use Rattle.engine.specs.Spongent.{with_counter, round, bits_after};
ghost use Rattle.circuit.specs.Planes.{of_block, Holds};

use crate::family::Spongent;
use crate::gates::substitute;
use crate::gather::gather;
use crate::planes::Planes;
use crate::words::Word;
use engine::next_counter;

// Adds the counter to the first byte, and its reversal to the last.
fn add_counter<S: Spongent, W: Word>(p: Planes<W>, c: u8) -> Planes<W>
    ensures { (i : ℕ) (bs : List Bool) → length bs ≡ S.WIDTH * 4
        → Holds S.WIDTH (of_block W.at p i) bs
        → Holds S.WIDTH (of_block W.at result i) (with_counter c bs) }
{
    let first = W::all(c as u64);
    let last = W::all((c.reverse_bits() as u64) << (S::WIDTH - 8));
    Planes {
        a: p.a.xor(first),
        d: p.d.xor(last),
        ..p
    }
}

// One round. The words that come out of the circuit, one after another, are the block with its bits moved.
fn one_round<S: Spongent, W: Word>(p: Planes<W>, c: u8) -> Planes<W>
    ensures { (i : ℕ) (bs : List Bool) → length bs ≡ S.WIDTH * 4
        → Holds S.WIDTH (of_block W.at p i) bs
        → Holds S.WIDTH (of_block W.at result i) (round c bs) }
{
    substitute(gather::<S, W>(add_counter::<S, W>(p, c)))
}

// All rounds of Spongent on blocks in words.
pub(crate) fn all_rounds<S: Spongent, W: Word>(p: Planes<W>) -> Planes<W>
    ensures { (i : ℕ) (bs : List Bool) → length bs ≡ S.WIDTH * 4
        → Holds S.WIDTH (of_block W.at p i) bs
        → Holds S.WIDTH (of_block W.at result i) (bits_after S.FIRST S.ROUNDS bs) }
{
    let mut c = S::FIRST;
    let mut q = p;
    for _ in 0..S::ROUNDS {
        q = one_round::<S, W>(q, c);
        c = next_counter(c);
    }
    q
}
