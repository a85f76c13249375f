// The sheet of a lot: who offers how much.
ghost use Rattle.list.specs.Order.{by_key, by_key_is_total};

use list::Entry;
use std::cmp::Ordering;

/// A bidder and the amount that it offers, in cents.
#[derive(Clone, Copy)]
pub struct SheetEntry {
    pub bidder: u32,
    pub amount: u64,
}

// A sheet is ordered by bidder, as a register is. One impl for both would need a trait for having a bidder, which would have to be implemented
// twice.
impl Entry for SheetEntry {
    ghost compares = { by_key (λ x. x.bidder) };

    ghost total = { by_key_is_total (λ x. x.bidder) };

    fn compare(&self, other: &SheetEntry) -> Ordering {
        self.bidder.cmp(&other.bidder)
    }
}
