// Spongent, bit by bit.
ghost use Rattle.std.specs.Prelude.{◌≡◌, ◌*◌, ◌%◌, ◌<◌, ◌≤◌, length};
ghost use Rattle.engine.specs.Spongent.{counter_bit, next_counter, bit_with_counter, substituted_bit, moved_bit, round, spongent};

use crate::bits::{BitLayer, apply, get, number, pack, unpack};

/// The counter of Dumbo's first round.
pub const DUMBO_FIRST_COUNTER: u8 = 0x75;

/// The counter of Jumbo's first round.
pub const JUMBO_FIRST_COUNTER: u8 = 0x45;

/// The rounds of Dumbo's permutation.
pub const DUMBO_ROUNDS: u8 = 80;

/// The rounds of Jumbo's permutation.
pub const JUMBO_ROUNDS: u8 = 90;

const TABLE: [u8; 16] = [14, 13, 11, 0, 2, 1, 4, 15, 7, 10, 8, 5, 9, 12, 3, 6];

// Adds the counter to the first byte, and its reversal to the last.
#[derive(Clone, Copy)]
struct AddCounter {
    counter: u8,
}

impl<const BITS: usize> BitLayer<BITS> for AddCounter {
    ghost rule = { λ l. bit_with_counter l.counter };

    ghost suits = { Unit {0} };

    fn bit(&self, old: &[bool; BITS], j: usize) -> bool {
        old[j] ^ counter_bit(BITS, self.counter, j)
    }
}

// The bit that the counter adds at place j of b.
fn counter_bit(b: usize, c: u8, j: usize) -> bool
    requires { j < b }
    ensures { result ≡ counter_bit b c j }
{
    let low = j < 8 && get(c, j);
    let high = j >= b.saturating_sub(8) && get(c, b - 1 - j);
    low ^ high
}

// Substitutes each half byte. The bits are whole half bytes.
#[derive(Clone, Copy)]
struct Substitute;

impl<const BITS: usize> BitLayer<BITS> for Substitute {
    ghost rule = { λ _. substituted_bit };

    ghost suits = { BITS % 4 ≡ 0 };

    fn bit(&self, old: &[bool; BITS], j: usize) -> bool {
        let start = j / 4 * 4;
        let half = number(&old.as_slice()[start..start + 4]);
        get(TABLE[half as usize], j % 4)
    }
}

// Moves the bits.
#[derive(Clone, Copy)]
struct Move;

impl<const BITS: usize> BitLayer<BITS> for Move {
    ghost rule = { λ _. moved_bit };

    ghost suits = { BITS % 4 ≡ 0 };

    fn bit(&self, old: &[bool; BITS], j: usize) -> bool {
        let quarter = BITS / 4;
        old[j % quarter * 4 + j / quarter]
    }
}

fn one_round<const BITS: usize>(s: &[bool; BITS], counter: u8) -> [bool; BITS]
    requires { BITS % 4 ≡ 0 }
    ensures { result ≡ round counter s.now }
{
    let s = apply(&AddCounter { counter }, s);
    let s = apply(&Substitute, &s);
    apply(&Move, &s)
}

/// The counter of the next round.
#[tactic(auto, unfolding(crate::specs::Spongent::next_counter))]
pub fn next_counter(c: u8) -> u8
    ensures { result ≡ next_counter c }
{
    c % 64 * 2 + (get(c, 6) ^ get(c, 5)) as u8
}

// The permutation of a block of so many bits, where the counter starts at `first`.
#[tactic(auto, unfolding(crate::specs::Spongent::bits_after, crate::specs::Spongent::counter, crate::specs::Spongent::spongent))]
pub(crate) fn permute<const BITS: usize>(block: &mut [u8], first: u8, rounds: u8)
    requires { (BITS ≡ 8 * length block.old) × (BITS ≤ 200) }
    ensures { block.new ≡ spongent first rounds block.old }
{
    let mut s = unpack::<BITS>(block);
    let mut c = first;
    for _ in 0..rounds {
        s = one_round(&s, c);
        c = next_counter(c);
    }
    pack(&s, block);
}
