//! The engine layer: the variants of the cipher, the permutation of a block of each, and the engines that compute it.
#![tactic(auto)]

mod bits;
mod faults;
mod interface;
mod keccak;
mod plain_engine;
mod spongent;
mod theorems;
mod variants;

pub use faults::EngineFault;
pub use interface::Engine;
pub use plain_engine::Plain;
pub use spongent::{
    DUMBO_FIRST_COUNTER, DUMBO_ROUNDS, JUMBO_FIRST_COUNTER, JUMBO_ROUNDS, next_counter,
};
pub use theorems::permutation_laws_stand;
pub use variants::Variant;
