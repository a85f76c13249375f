// Runs the engines side by side. Without an argument each fast engine is compared with the plain one on blocks that look random,
// and the output is always the same. With the argument `measure` the time of blocks and of sealed texts is measured.
#![tactic(auto)]

mod agreement;
mod measures;
mod source;

use agreement::run_agreement;
use arguments::{ended, read};
use circuit::Circuit;
use clap::{Arg, Command};
use engine::{Engine, Plain, Variant};
use interleaved::Interleaved;
use measures::{measure_engine, measure_texts};
use std::alloc::{AllocError, Global};
use std::env;
use std::process::ExitCode;

// What `--help` tells.
const ABOUT: &str =
    "Compares each fast engine with the plain one of its variant on blocks that look random.";

// The argument that has times measured.
const MEASURE: &str = "measure";

// Here and below the name of an engine goes beside it: a struct of both would be made for each call alone, and be taken apart in it.
fn agreements(rt: &HostRuntime) -> anyhow::Result<ExitCode> {
    let dumbo = run_agreement(rt, "Dumbo, circuit", &Circuit::Dumbo)?;
    let jumbo = run_agreement(rt, "Jumbo, circuit", &Circuit::Jumbo)?;
    let delirium = run_agreement(rt, "Delirium, interleaved", &Interleaved)?;
    if dumbo && jumbo && delirium {
        Ok(ExitCode::SUCCESS)
    } else {
        Ok(ExitCode::FAILURE)
    }
}

fn plain_of(variant: Variant) -> Plain {
    Plain { variant }
}

fn measure(rt: &HostRuntime) -> anyhow::Result<()> {
    println!(rt; "engine,ns one block,ns a block of four,ns a sealed letter")?;
    measure_engine(rt, "Dumbo plain", &plain_of(Variant::Dumbo), 1)?;
    measure_engine(rt, "Dumbo circuit", &Circuit::Dumbo, 20)?;
    measure_engine(rt, "Jumbo plain", &plain_of(Variant::Jumbo), 1)?;
    measure_engine(rt, "Jumbo circuit", &Circuit::Jumbo, 20)?;
    measure_engine(rt, "Delirium plain", &plain_of(Variant::Delirium), 1)?;
    measure_engine(rt, "Delirium interleaved", &Interleaved, 20)?;
    println!(rt; "")?;
    println!(rt; "engine,text bytes,ns a seal call")?;
    measure_texts(rt, "Dumbo circuit", &Circuit::Dumbo)?;
    measure_texts(rt, "Jumbo circuit", &Circuit::Jumbo)?;
    measure_texts(rt, "Delirium interleaved", &Interleaved)
}

// The argument that the program takes.
fn command<'a>(alloc: Global) -> Result<Command<'a>, AllocError> {
    let what = Arg::new(alloc, "what")
        .value_name(MEASURE)
        .help("Measures the time of blocks and of sealed texts instead")
        .value_parser([MEASURE].as_slice());
    Command::new(alloc, "bench").about(ABOUT).arg(what)
}

fn run(rt: &HostRuntime) -> anyhow::Result<ExitCode> {
    let words: Vec<String> = env::args(rt)?.collect(rt.alloc())?;
    match read(command(rt.alloc())?, words.as_slice()) {
        Ok(matches) if matches.contains_id("what") => {
            measure(rt)?;
            Ok(ExitCode::SUCCESS)
        }
        Ok(_none) => agreements(rt),
        Err(notice) => Ok(notice.print(rt)?),
    }
}

fn main(rt: HostRuntime) -> ExitCode {
    ended(&rt, "bench", run(&rt))
}
