// The register of a lot: who may bid, and under which key.
ghost use Rattle.list.specs.Order.{by_key, by_key_is_total};

use cipher::KEY_BYTES;
use list::Entry;
use std::cmp::Ordering;

/// A registered bidder and its key of 16 bytes. Bidders are numbers that the house gives, each to one.
#[derive(Clone, Copy)]
pub struct RegisterEntry {
    pub bidder: u32,
    pub key: [u8; KEY_BYTES],
}

// A register is ordered by bidder.
impl Entry for RegisterEntry {
    ghost compares = { by_key (λ x. x.bidder) };

    ghost total = { by_key_is_total (λ x. x.bidder) };

    fn compare(&self, other: &RegisterEntry) -> Ordering {
        self.bidder.cmp(&other.bidder)
    }
}
