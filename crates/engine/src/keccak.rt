// Keccak-f[200], bit by bit.
ghost use Rattle.std.specs.Prelude.{◌≡◌, ℕ, ◌*◌, ◌/◌, ◌%◌, ◌<◌, Bool, List, length};
ghost use Rattle.engine.specs.Keccak.{lane_bit, by_coordinates, column, theta_at, rho_at, pi_at, chi_at, iota_at, round, keccak};

use crate::bits::{BitLayer, apply, get, pack, unpack};

const BITS: usize = 200;

type State = [bool; BITS];

// Where a bit of a state stands: it is bit z of lane (x, y).
#[derive(Clone, Copy)]
struct Cell {
    x: usize,
    y: usize,
    z: usize,
    ghost inside: { (x < 5) × ((y < 5) × (z < 8)) },
}

impl Cell {
    // Where bit j stands.
    fn of(j: usize) -> Self
        requires { j < 200 }
        ensures { (result.x ≡ j / 8 % 5) × ((result.y ≡ j / 8 / 5) × (result.z ≡ j % 8)) }
    {
        Cell {
            x: j / 8 % 5,
            y: j / 8 / 5,
            z: j % 8,
        }
    }

    // The bit of a state.
    fn get(self, s: &State) -> bool
        ensures { result ≡ lane_bit s.now self.x self.y self.z }
    {
        s[8 * (5 * self.y + self.x) + self.z]
    }

    // The sum of the column through it.
    fn column(self, s: &State) -> bool
        ensures { result ≡ column s.now self.x self.z }
    {
        let Cell { x, z, .. } = self;
        Cell { x, y: 0, z }.get(s)
            ^ Cell { x, y: 1, z }.get(s)
            ^ Cell { x, y: 2, z }.get(s)
            ^ Cell { x, y: 3, z }.get(s)
            ^ Cell { x, y: 4, z }.get(s)
    }
}

#[derive(Clone, Copy)]
struct Theta;

impl BitLayer<BITS> for Theta {
    ghost rule = { λ _ s. by_coordinates (theta_at s) };

    ghost suits = { Unit {0} };

    fn bit(&self, old: &State, j: usize) -> bool {
        let Cell { x, y, z } = Cell::of(j);
        let before = Cell {
            x: (x + 4) % 5,
            y,
            z,
        };
        let after = Cell {
            x: (x + 1) % 5,
            y,
            z: (z + 7) % 8,
        };
        Cell { x, y, z }.get(old) ^ (before.column(old) ^ after.column(old))
    }
}

const OFFSETS: [usize; 25] = [
    0, 1, 190, 28, 91, 36, 300, 6, 55, 276, 3, 10, 171, 153, 231, 105, 45, 15, 21, 136, 210, 66,
    253, 120, 78,
];

#[derive(Clone, Copy)]
struct Rho;

impl BitLayer<BITS> for Rho {
    ghost rule = { λ _ s. by_coordinates (rho_at s) };

    ghost suits = { Unit {0} };

    fn bit(&self, old: &State, j: usize) -> bool {
        let Cell { x, y, z } = Cell::of(j);
        let offset = OFFSETS[5 * y + x] % 8;
        Cell {
            x,
            y,
            z: (z + (8 - offset)) % 8,
        }
        .get(old)
    }
}

#[derive(Clone, Copy)]
struct Pi;

impl BitLayer<BITS> for Pi {
    ghost rule = { λ _ s. by_coordinates (pi_at s) };

    ghost suits = { Unit {0} };

    fn bit(&self, old: &State, j: usize) -> bool {
        let Cell { x, y, z } = Cell::of(j);
        Cell {
            x: (x + 3 * y) % 5,
            y: x,
            z,
        }
        .get(old)
    }
}

#[derive(Clone, Copy)]
struct Chi;

impl BitLayer<BITS> for Chi {
    ghost rule = { λ _ s. by_coordinates (chi_at s) };

    ghost suits = { Unit {0} };

    fn bit(&self, old: &State, j: usize) -> bool {
        let Cell { x, y, z } = Cell::of(j);
        let next = Cell {
            x: (x + 1) % 5,
            y,
            z,
        };
        let second = Cell {
            x: (x + 2) % 5,
            y,
            z,
        };
        Cell { x, y, z }.get(old) ^ (!next.get(old) & second.get(old))
    }
}

#[derive(Clone, Copy)]
struct Iota {
    constant: u8,
}

impl BitLayer<BITS> for Iota {
    ghost rule = { λ l s. by_coordinates (iota_at l.constant s) };

    ghost suits = { Unit {0} };

    fn bit(&self, old: &State, j: usize) -> bool {
        let Cell { x, y, z } = Cell::of(j);
        Cell { x, y, z }.get(old) ^ ((5 * y + x == 0) & get(self.constant, z))
    }
}

#[tactic(auto, unfolding(crate::specs::Keccak::round, crate::specs::Keccak::theta, crate::specs::Keccak::rho, crate::specs::Keccak::pi, crate::specs::Keccak::chi, crate::specs::Keccak::iota))]
fn one_round(s: &State, constant: u8) -> State
    ensures { result ≡ round constant s.now }
{
    let s = apply(&Theta, s);
    let s = apply(&Rho, &s);
    let s = apply(&Pi, &s);
    let s = apply(&Chi, &s);
    apply(&Iota { constant }, &s)
}

const CONSTANTS: [u8; 18] = [
    0x01, 0x82, 0x8A, 0x00, 0x8B, 0x01, 0x81, 0x09, 0x8A, 0x88, 0x09, 0x0A, 0x8B, 0x8B, 0x89, 0x03,
    0x02, 0x80,
];

// The permutation of a block of 25 bytes.
#[tactic(auto, unfolding(crate::specs::Keccak::state_after, crate::specs::Keccak::keccak))]
pub(crate) fn permute(block: &mut [u8])
    requires { length block.old ≡ 25 }
    ensures { block.new ≡ keccak 18 block.old }
{
    let mut s = unpack(block);
    for constant in CONSTANTS {
        s = one_round(&s, constant);
    }
    pack(&s, block);
}
