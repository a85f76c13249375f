// Holds the sale of each file in data/, and tells whether its report and its exit status are those written for it. It ends with status 0 where all
// are, with 1 where one is not, and with 2 where one cannot be told.
#![tactic(auto)]

ghost use Rattle.std.specs.Prelude.{◌≡◌, ◌↔◌, IsTrue, if◌then◌else◌, vec_items};
ghost use Rattle.std.specs.List.{list_all};
ghost use Rattle.std.specs.Process.{exit_status};

use anyhow::Context;
use arguments::{begin, ended};
use file::hold_sale;
use std::fs;
use std::process::ExitCode;

// What `--help` tells.
const ABOUT: &str =
    "Holds the sale of each example file, and tells whether report and exit status are those written for it.";

// A sale file NAME.sale with its report NAME.report, and the exit status that goes with it.
#[derive(Clone, Copy)]
struct Example {
    name: &'static str,
    status: u8,
}

const EXAMPLES: [Example; 7] = [
    Example {
        name: "dumbo",
        status: 0,
    },
    Example {
        name: "jumbo",
        status: 0,
    },
    Example {
        name: "delirium",
        status: 0,
    },
    Example {
        name: "refused",
        status: 1,
    },
    Example {
        name: "twice",
        status: 1,
    },
    Example {
        name: "empty",
        status: 1,
    },
    Example {
        name: "too-long",
        status: 1,
    },
];

// What is printed of a sale file, and the exit status that goes with it.
#[derive(Drop)]
struct Printed {
    report: Vec<u8>,
    status: u8,
}

// What holding the sale of an example prints.
fn hold(rt: &HostRuntime, example: &Example) -> anyhow::Result<Printed> {
    let name = example.name;
    let path = format!(in rt.alloc(); "{name}.sale")?;
    let file = fs::open(rt, path.as_str()).context(format_args!("reading {name}.sale"))?;
    let mut report = Vec::new(rt.alloc());
    let status = hold_sale(rt.alloc(), file, &mut report)?;
    Ok(Printed { report, status })
}

// What is written for an example.
fn read_written(rt: &HostRuntime, example: &Example) -> anyhow::Result<Printed> {
    let name = example.name;
    let path = format!(in rt.alloc(); "{name}.report")?;
    let report = fs::read(rt, path.as_str()).context(format_args!("reading {name}.report"))?;
    Ok(Printed {
        report,
        status: example.status,
    })
}

// Whether what is printed is what is written.
fn is_as_written(printed: &Printed, written: &Printed) -> bool
    ensures { IsTrue result
        ↔ ((vec_items printed.now.report ≡ vec_items written.now.report)
        × (printed.now.status ≡ written.now.status)) }
{
    printed.report == written.report && printed.status == written.status
}

// Holds the sale of an example, and tells whether it is as written.
fn tell(rt: &HostRuntime, example: &Example) -> anyhow::Result<bool> {
    let printed = hold(rt, example)?;
    let agrees = is_as_written(&printed, &read_written(rt, example)?);
    let name = example.name;
    let status = printed.status;
    let verdict = if agrees {
        "as written"
    } else {
        "NOT as written"
    };
    println!(rt; "{name}.sale: status {status}, {verdict}")?;
    Ok(agrees)
}

// Whether each example is as written.
fn are_all_as_written(as_written: &[bool]) -> bool
    ensures { result ≡ list_all (λ b. b) as_written.now }
{
    as_written.iter().all(|b| *b)
}

// The status that the program ends with, once it is told of each example whether it is as written.
fn exit_code(as_written: &[bool]) -> ExitCode
    ensures { exit_status result ≡ (if list_all (λ b. b) as_written.now then 0 else 1) }
{
    if are_all_as_written(as_written) {
        ExitCode::SUCCESS
    } else {
        ExitCode::FAILURE
    }
}

fn run(rt: &HostRuntime) -> anyhow::Result<ExitCode> {
    let mut as_written = [false; EXAMPLES.len()];
    for (place, example) in as_written.iter_mut().zip(&EXAMPLES) {
        *place = tell(rt, example)?;
    }
    Ok(exit_code(&as_written))
}

fn main(rt: HostRuntime) -> ExitCode {
    match begin(&rt, "examples", ABOUT) {
        Some(end) => end,
        None => ended(&rt, "examples", run(&rt)),
    }
}
