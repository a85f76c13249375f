// The two members of the Spongent family.
ghost use Rattle.std.specs.Prelude.{ℕ};
ghost use Rattle.std.proofs.Common.{refl, lit≤};
ghost use Rattle.circuit.specs.Planes.{Wide, of_block, InRows};

use crate::gather::masked;
use crate::planes::Planes;
use crate::words::Word;
use engine::{DUMBO_FIRST_COUNTER, DUMBO_ROUNDS, JUMBO_FIRST_COUNTER, JUMBO_ROUNDS};

// Spongent on blocks of 4 * WIDTH bits.
pub(crate) trait Spongent {
    // The bits of a word, a quarter of a block.
    ghost WIDTH: { ℕ };

    const WIDTH: u32;

    // Where the counter starts.
    ghost FIRST: { ℕ };

    const FIRST: u8;

    // How many rounds.
    ghost ROUNDS: { ℕ };

    const ROUNDS: u8;

    // The rows of a block.
    fn rows<W: Word>(p: Planes<W>) -> Planes<W>
        ensures { (i : ℕ) → InRows WIDTH (of_block W.at p i) (of_block W.at result i) };

    // A width of 40 or 44.
    ghost wide: { Wide WIDTH };
}

// Blocks of 20 bytes.
pub(crate) struct Dumbo;

impl Spongent for Dumbo {
    ghost WIDTH = { 40 };

    const WIDTH: u32 = 40;

    ghost FIRST = { 0x75 };

    const FIRST: u8 = DUMBO_FIRST_COUNTER;

    ghost ROUNDS = { 80 };

    const ROUNDS: u8 = DUMBO_ROUNDS;

    fn rows<W: Word>(p: Planes<W>) -> Planes<W> {
        let a = masked(p.a, 0xFFFF)
            .or(masked(p.b.down(8), 0xFFFF0000))
            .or(masked(p.d.up(24), 0xFFFF00000000));
        let b = masked(p.a.down(16), 0xFFFF)
            .or(masked(p.c.up(16), 0xFFFF0000))
            .or(masked(p.d.up(8), 0xFFFF00000000));
        let c = masked(p.a.down(32), 0xFF)
            .or(masked(p.b.up(8), 0xFF00))
            .or(masked(p.c, 0xFFFF0000));
        let d = masked(p.b.down(8), 0xFFFF)
            .or(masked(p.c.down(16), 0xFF0000))
            .or(masked(p.d.up(24), 0xFF000000));
        Planes { a, b, c, d }
    }

    ghost wide = { (lit≤ tt, lit≤ tt, refl) };
}

// Blocks of 22 bytes.
pub(crate) struct Jumbo;

impl Spongent for Jumbo {
    ghost WIDTH = { 44 };

    const WIDTH: u32 = 44;

    ghost FIRST = { 0x45 };

    const FIRST: u8 = JUMBO_FIRST_COUNTER;

    ghost ROUNDS = { 90 };

    const ROUNDS: u8 = JUMBO_ROUNDS;

    fn rows<W: Word>(p: Planes<W>) -> Planes<W> {
        let a = masked(p.a, 0xFFFF)
            .or(masked(p.b.down(4), 0xFFFF0000))
            .or(masked(p.c.down(8), 0xF00000000))
            .or(masked(p.d.up(36), 0xFFF000000000));
        let b = masked(p.a.down(16), 0xFFFF)
            .or(masked(p.b.down(20), 0xFF0000))
            .or(masked(p.c.up(24), 0xFF000000))
            .or(masked(p.d.up(20), 0xFFFF00000000));
        let c = masked(p.a.down(32), 0xFFF)
            .or(masked(p.b.up(12), 0xF000))
            .or(masked(p.c.up(8), 0xFFFF0000))
            .or(masked(p.d.up(4), 0xFFFF00000000));
        let d = masked(p.b.down(4), 0xFFFF).or(masked(p.c.down(8), 0xFFFF0000));
        Planes { a, b, c, d }
    }

    ghost wide = { (lit≤ tt, lit≤ tt, refl) };
}
