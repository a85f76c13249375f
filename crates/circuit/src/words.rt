// Words of 64 bits, of one block or of four blocks side by side, and what the gates and shifts do to their bits.
ghost use Rattle.std.specs.Prelude.{◌≡◌, ℕ, ◌+◌, ◌-◌, ◌<◌, ◌≤◌, Bool, false, not, ◌&&◌, ◌||◌, if◌then◌else◌, nat_lt};
ghost use Rattle.std.proofs.Common.{lit≤};
ghost use Rattle.binary.specs.Bits.{bit, differs};
ghost use Rattle.circuit.specs.Planes.{one_at, four_at};

use std::simd::prelude::*;

// A word for each of some blocks.
pub(crate) trait Word: Copy {
    // The number of blocks.
    ghost BLOCKS: { ℕ };

    const BLOCKS: usize;

    // Bit k of the word of block i.
    ghost at: { Self → ℕ → ℕ → Bool };

    // For each block the word that f gives.
    fn from_fn<F: Fn(usize) -> u64>(f: F) -> Self
        requires { (i : ℕ) → i < BLOCKS → F.pre f i }
        ensures { (i : ℕ) → i < BLOCKS → (x : ℕ) × F.post f i x × (at result i ≡ bit x) };

    // The word of block i.
    fn lane(self, i: usize) -> u64
        requires { i < BLOCKS }
        ensures { at self i ≡ bit result };

    // The same word for each block.
    fn all(x: u64) -> Self
        ensures { (i k : ℕ) → k < 64 → at result i k ≡ bit x k };

    // The gates are methods, since no vector meets a bound on std's operators: u64x4 does not implement BitXor.
    fn xor(self, other: Self) -> Self
        ensures { (i k : ℕ) → k < 64 → at result i k ≡ differs (at self i k) (at other i k) };

    fn and(self, other: Self) -> Self
        ensures { (i k : ℕ) → k < 64 → at result i k ≡ (at self i k && at other i k) };

    fn or(self, other: Self) -> Self
        ensures { (i k : ℕ) → k < 64 → at result i k ≡ (at self i k || at other i k) };

    fn not(self) -> Self
        ensures { (i k : ℕ) → k < 64 → at result i k ≡ not (at self i k) };

    // Each bit n places up; n is below 64.
    fn up(self, n: u32) -> Self
        requires { n < 64 }
        ensures { (i k : ℕ) → k < 64
            → at result i k ≡ (if nat_lt k n then false else at self i (k - n)) };

    // Each bit n places down.
    fn down(self, n: u32) -> Self
        requires { n < 64 }
        ensures { (i k : ℕ) → k < 64
            → at result i k ≡ (if nat_lt (n + k) 64 then at self i (n + k) else false) };

    // So many that their bytes can be counted.
    ghost few: { BLOCKS ≤ 4 };
}

// One block.
impl Word for u64 {
    ghost BLOCKS = { 1 };

    const BLOCKS: usize = 1;

    ghost at = { one_at };

    fn from_fn<F: Fn(usize) -> u64>(f: F) -> u64 {
        f(0)
    }

    fn lane(self, _i: usize) -> u64 {
        self
    }

    fn all(x: u64) -> u64 {
        x
    }

    fn xor(self, other: u64) -> u64 {
        self ^ other
    }

    fn and(self, other: u64) -> u64 {
        self & other
    }

    fn or(self, other: u64) -> u64 {
        self | other
    }

    fn not(self) -> u64 {
        !self
    }

    fn up(self, n: u32) -> u64 {
        self << n
    }

    fn down(self, n: u32) -> u64 {
        self >> n
    }

    ghost few = { lit≤ tt };
}

// Four blocks, one in each lane.
impl Word for u64x4 {
    ghost BLOCKS = { 4 };

    const BLOCKS: usize = 4;

    ghost at = { four_at };

    fn from_fn<F: Fn(usize) -> u64>(f: F) -> u64x4 {
        u64x4::from_array([f(0), f(1), f(2), f(3)])
    }

    fn lane(self, i: usize) -> u64 {
        self.to_array()[i]
    }

    fn all(x: u64) -> u64x4 {
        u64x4::splat(x)
    }

    fn xor(self, other: u64x4) -> u64x4 {
        self ^ other
    }

    fn and(self, other: u64x4) -> u64x4 {
        self & other
    }

    fn or(self, other: u64x4) -> u64x4 {
        self | other
    }

    fn not(self) -> u64x4 {
        !self
    }

    fn up(self, n: u32) -> u64x4 {
        self << u64x4::splat(n as u64)
    }

    fn down(self, n: u32) -> u64x4 {
        self >> u64x4::splat(n as u64)
    }

    ghost few = { lit≤ tt };
}
