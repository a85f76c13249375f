// The envelope layer: letters, heads, pens, and the sealing of bids into envelopes.
#![tactic(auto)]

mod bids;
mod faults;
mod heads;
mod letters;
mod pens;
mod reading;
mod terms;
mod theorems;

pub use bids::{envelope_bytes, seal_bid};
pub use faults::EnvelopeFault;
pub use heads::{HEAD_BYTES, Head, HeadFields, head_of};
pub use letters::{LETTER_BYTES, amount_in, is_lawful};
pub use pens::Pen;
pub use reading::{Parts, SealedBid, parts_of};
pub use terms::MOST_TERMS_BYTES;
pub use theorems::envelope_laws_stand;
