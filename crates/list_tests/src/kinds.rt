// Two kinds of entry: one by a rising number, and one by a falling amount.

ghost use Rattle.list.specs.Order.{by_key, by_key_is_total};
ghost use Rattle.list_tests.specs.Falling.{falling, falling_is_total};

use list::Entry;
use std::cmp::Ordering;

// An instrument in a catalogue. Two with one number are equal in order, whatever their makers.
#[derive(Clone, Copy, PartialEq, Eq, Debug)]
pub struct Instrument {
    pub number: u32,
    pub maker: u8,
}

impl Entry for Instrument {
    ghost compares = { by_key (λ x. x.number) };

    ghost total = { by_key_is_total (λ x. x.number) };

    fn compare(&self, other: &Instrument) -> Ordering {
        self.number.cmp(&other.number)
    }
}

// An offer in a table with the highest amount first.
#[derive(Clone, Copy, PartialEq, Eq, Debug)]
pub struct Offer {
    pub amount: u64,
    pub bidder: u32,
}

impl Entry for Offer {
    ghost compares = { falling (λ x. x.amount) };

    ghost total = { falling_is_total (λ x. x.amount) };

    fn compare(&self, other: &Offer) -> Ordering {
        other.amount.cmp(&self.amount)
    }
}
