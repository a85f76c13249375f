//! The circuit engine: a fast engine for Dumbo and Jumbo, without tables, branches or places that depend on what is in a block.
#![tactic(auto)]

mod blocks;
mod bytes;
mod circuit_engine;
mod family;
mod gates;
mod gather;
mod planes;
mod rounds;
mod words;

pub use circuit_engine::Circuit;
