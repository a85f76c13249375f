// Sales from beginning to end, in each variant: a pen, sealed bids, a room that envelopes are lodged in, closing and opening; and a
// room that is made again over an old one. It prints what each call answers, and the pages.
#![tactic(auto)]

mod bidding;
mod holding;
mod opening;
mod telling;

use arguments::{begin, ended};
use circuit::Circuit;
use engine::Engine;
use holding::{hold_again, hold_sale};
use interleaved::Interleaved;
use room::{RoomState, call_laws_stand, page_of_lot_17_stands, promise_stands};
use std::process::ExitCode;
use worked::worked_examples_stand;

// What `--help` tells.
const ABOUT: &str =
    "Holds two sales above an engine of each variant, and prints what each call answers, and the pages.";

const HEADLINE: &str = "Sales from beginning to end
Each line tells a call and what is answered. A refusal has its number, its layer and its place: the bidder and the sequence
of a head, or else 0.";

// Two sales of one engine in one place: the second makes the room anew.
fn run_engine<E: Engine + Copy>(rt: &HostRuntime, engine: E) -> anyhow::Result<()> {
    let mut place = RoomState::fresh();
    hold_sale(rt, &mut place, engine)?;
    hold_again(rt, &mut place, engine)
}

fn run(rt: &HostRuntime) -> anyhow::Result<ExitCode> {
    promise_stands();
    call_laws_stand();
    page_of_lot_17_stands();
    worked_examples_stand();
    println!(rt; "{HEADLINE}")?;
    run_engine(rt, Circuit::Dumbo)?;
    run_engine(rt, Circuit::Jumbo)?;
    run_engine(rt, Interleaved)?;
    Ok(ExitCode::SUCCESS)
}

fn main(rt: HostRuntime) -> ExitCode {
    match begin(&rt, "rooms", ABOUT) {
        Some(end) => end,
        None => ended(&rt, "rooms", run(&rt)),
    }
}
