//! The cipher layer: sealing, checking and opening of texts by the Elephant mode, over any engine.
#![tactic(auto)]

mod absorbing;
mod checked;
mod enciphering;
mod faults;
mod masks;
mod sealing;
mod sizes;
mod streaming;
mod tagging;
mod theorems;
mod xor;

pub use checked::{Checked, check};
pub use faults::CipherFault;
pub use sealing::seal;
pub use sizes::{KEY_BYTES, MOST_TAG_BYTES, check_key, tag_bytes};
pub use theorems::cipher_laws_stand;
