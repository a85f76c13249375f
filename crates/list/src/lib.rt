//! The ordered list: a container over places that the caller lends, for every kind of entry that has a total order.
#![tactic(auto)]

mod entry;
mod faults;
mod ordered;

pub use entry::Entry;
pub use faults::ListFault;
pub use ordered::Ordered;
