// Runs the published values of the permutations and the known answers of data/ through every engine of their variant,
// and prints how many agree. A first argument N has the plain engine try every N-th record of each
// file, and a second has only one engine run.
#![tactic(auto)]

ghost use Rattle.std.specs.Prelude.{◌≡◌, ◌↔◌, ℕ, ◌<◌, IsTrue, if◌then◌else◌};
ghost use Rattle.std.specs.Process.{exit_status};

mod asked;
mod published;
mod records;
mod tallies;
mod trials;

use arguments::{ended, read};
use asked::{Asked, EngineName, command};
use cipher::cipher_laws_stand;
use circuit::Circuit;
use engine::{Engine, Plain, Variant, permutation_laws_stand};
use interleaved::Interleaved;
use published::{try_keccak, try_spongent};
use records::{Answers, read_answers};
use std::process::ExitCode;
use std::{env, fs};
use tallies::Tally;
use trials::try_records;

// What is published of the permutations.
const KECCAK: &str = "published values of Keccak-f[200]";

const SPONGENT: &str = "published value of SPONGENT-160/160/16";

// The file of a variant: the names of the data files are this program's alone.
fn file_of(variant: Variant) -> &'static str {
    match variant {
        Variant::Dumbo => "dumbo.txt",
        Variant::Jumbo => "jumbo.txt",
        Variant::Delirium => "delirium.txt",
    }
}

// An engine, and the name that it is asked for by and told by.
#[derive(Drop)]
struct Named<E> {
    name: EngineName,
    engine: E,
}

fn plain_engine(variant: Variant) -> Named<Plain> {
    Named {
        name: EngineName::Plain,
        engine: Plain { variant },
    }
}

fn circuit(engine: Circuit) -> Named<Circuit> {
    Named {
        name: EngineName::Circuit,
        engine,
    }
}

fn interleaved_engine() -> Named<Interleaved> {
    Named {
        name: EngineName::Interleaved,
        engine: Interleaved,
    }
}

// Runs published values through an engine of their permutation, by a trial that counts those met; and whether all were.
fn run_values<E: Engine, F: FnOnce(&E) -> Tally>(
    rt: &HostRuntime,
    asked: &Asked,
    values: &str,
    named: &Named<E>,
    trial: F,
) -> anyhow::Result<bool>
    requires { F.IsAlwaysCallable trial }
{
    let name = named.name;
    if asked.wants(name) {
        let tally = trial(&named.engine);
        println!(rt; "{values}, {name} engine: {tally}")?;
        return Ok(is_full(&tally));
    }
    Ok(true)
}

// Runs the published values through each engine that has their permutation.
fn run_published(rt: &HostRuntime, asked: &Asked) -> anyhow::Result<bool> {
    let first = run_values(
        rt,
        asked,
        KECCAK,
        &plain_engine(Variant::Delirium),
        try_keccak,
    )?;
    let second = run_values(rt, asked, KECCAK, &interleaved_engine(), try_keccak)?;
    let third = run_values(
        rt,
        asked,
        SPONGENT,
        &plain_engine(Variant::Jumbo),
        try_spongent,
    )?;
    let fourth = run_values(rt, asked, SPONGENT, &circuit(Circuit::Jumbo), try_spongent)?;
    Ok(first && second && third && fourth)
}

// Runs the records through an engine of their variant. It stands beside `run_values`, since a trial of records may fail, and is told by the variant.
fn run_engine<E: Engine>(
    rt: &HostRuntime,
    asked: &Asked,
    named: &Named<E>,
    answers: &Answers,
) -> anyhow::Result<bool> {
    let name = named.name;
    if asked.wants(name) {
        let variant = named.engine.variant();
        let trials = try_records(
            rt.alloc(),
            &named.engine,
            asked.step(name),
            &answers.records,
        )?;
        for number in &trials.disagreeing {
            eprintln!(rt; "{variant}, {name} engine: record {number} does not agree")?;
        }
        let tally = trials.tally;
        println!(rt; "{variant}, {name} engine: {tally}")?;
        return Ok(is_full(&tally));
    }
    Ok(true)
}

// Reads the records of a variant and runs them through each of its engines; and whether there are some, all were read, and all agreed.
fn run_variant(rt: &HostRuntime, asked: &Asked, variant: Variant) -> anyhow::Result<bool> {
    let text = fs::read_to_string(rt, file_of(variant))?;
    let answers = read_answers(rt.alloc(), variant, text.as_str())?;
    let read = answers.records.len();
    let unreadable = answers.faults.len();
    println!(rt; "{variant}: {read} records read, {unreadable} could not be read")?;
    let slow = run_engine(rt, asked, &plain_engine(variant), &answers)?;
    let fast = match variant {
        Variant::Dumbo => run_engine(rt, asked, &circuit(Circuit::Dumbo), &answers)?,
        Variant::Jumbo => run_engine(rt, asked, &circuit(Circuit::Jumbo), &answers)?,
        Variant::Delirium => run_engine(rt, asked, &interleaved_engine(), &answers)?,
    };
    Ok(read > 0 && unreadable == 0 && slow && fast)
}

fn run_asked(rt: &HostRuntime, asked: &Asked) -> anyhow::Result<ExitCode> {
    let mut agreed = run_published(rt, asked)?;
    for variant in [Variant::Dumbo, Variant::Jumbo, Variant::Delirium] {
        agreed &= run_variant(rt, asked, variant)?;
    }
    Ok(exit_code(agreed))
}

// Whether all trials agreed.
fn is_full(tally: &Tally) -> bool
    ensures { IsTrue result ↔ (tally.now.agreed ≡ tally.now.tried) }
{
    tally.agreed == tally.tried
}

// The status that the program ends with, once all is compared.
fn exit_code(agreed: bool) -> ExitCode
    ensures { exit_status result ≡ (if agreed then 0 else 1) }
{
    ExitCode::from(u8::from(!agreed))
}

fn run(rt: &HostRuntime) -> anyhow::Result<ExitCode> {
    permutation_laws_stand();
    cipher_laws_stand();
    let words: Vec<String> = env::args(rt)?.collect(rt.alloc())?;
    match read(command(rt.alloc())?, words.as_slice()) {
        Ok(matches) => run_asked(rt, &Asked::of(&matches)),
        Err(notice) => Ok(notice.print(rt)?),
    }
}

fn main(rt: HostRuntime) -> ExitCode {
    ended(&rt, "vectors", run(&rt))
}
