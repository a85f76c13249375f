// Spongent of blocks side by side, one in each lane of the words.
ghost use Rattle.std.specs.Prelude.{◌≡◌, ◌*◌, ◌/◌, ◌<◌, length};
ghost use Rattle.engine.specs.Permutation.{each};
ghost use Rattle.engine.specs.Spongent.{spongent};
ghost use Rattle.circuit.specs.Planes.{of_block, one_at};

use crate::bytes::{load, store};
use crate::family::Spongent;
use crate::planes::Planes;
use crate::rounds::all_rounds;
use crate::words::Word;

// The words of block i.
fn lane<W: Word>(p: Planes<W>, i: usize) -> Planes<u64>
    requires { i < W.BLOCKS }
    ensures { of_block one_at result 0 ≡ of_block W.at p i }
{
    Planes {
        a: p.a.lane(i),
        b: p.b.lane(i),
        c: p.c.lane(i),
        d: p.d.lane(i),
    }
}

// Spongent of each block.
pub(crate) fn permute<S: Spongent, W: Word>(blocks: &mut [u8])
    requires { length blocks.old ≡ W.BLOCKS * (S.WIDTH / 2) }
    ensures { blocks.new ≡ each (spongent S.FIRST S.ROUNDS) (S.WIDTH / 2) W.BLOCKS blocks.old }
{
    let n = S::WIDTH as usize / 2;
    let p = load::<S, W>(blocks);
    let r = all_rounds::<S, W>(p);
    // By the place: what `chunks_exact_mut` wrote is not known after the loop.
    for i in 0..W::BLOCKS {
        store::<S>(lane(r, i), &mut blocks[i * n..i * n + n]);
    }
}
