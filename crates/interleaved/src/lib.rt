//! The fast engine for Delirium: four blocks interleaved bit by bit in 25 words of 32 bits, treated together.
#![tactic(auto)]

mod interleaved_engine;
mod rounds;
mod weave;

pub use interleaved_engine::Interleaved;
