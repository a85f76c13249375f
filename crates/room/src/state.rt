// What a room keeps, in a place that the caller holds.
ghost use Rattle.std.specs.Prelude.{◌≤◌, take};
ghost use Rattle.envelope.specs.Terms.{most_terms_bytes};
ghost use Rattle.room.specs.Limits.{most_bidders};
ghost use Rattle.room.specs.Rising.{RiseByBidder};

use crate::slots::{Phase, Slot};
use envelope::MOST_TERMS_BYTES;

/// The most bidders of a register.
pub const MOST_BIDDERS: usize = 64;

/// What a room keeps. The terms are the first `terms_bytes` of their array, and the slots in use the first `count`, in the register's order:
/// they rise by bidder. A room's place is a plain struct of arrays that the caller lends, with room for the most of each.
#[derive(Drop)]
pub struct RoomState {
    pub(crate) phase: Phase,
    pub(crate) lot: u32,
    pub(crate) terms: [u8; MOST_TERMS_BYTES],
    pub(crate) terms_bytes: usize,
    pub(crate) slots: [Slot; MOST_BIDDERS],
    pub(crate) count: usize,
    ghost short: { terms_bytes ≤ most_terms_bytes },
    ghost few: { count ≤ most_bidders },
    ghost rising: { RiseByBidder (take count slots) },
}
