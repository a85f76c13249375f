// Prints the report of the sale file that it reads from standard input. It ends with status 0 where the file is accepted, with 1 once a refusal is
// printed, and with 2 and a message on standard error where memory does not suffice or reading or writing fails.
#![tactic(auto)]

ghost use Rattle.std.specs.Process.{exit_status};
ghost use Rattle.sale.specs.Running.{Ends};

use arguments::{NOT_DONE, begin};
use file::{accepted_files_keep_limits, format_laws_stand, hold_sale, page_laws_stand};
use room::promise_stands;
use std::alloc::Global;
use std::io;
use std::io::{Read, Write};
use std::process::ExitCode;

// What `--help` tells.
const ABOUT: &str = "Reads a sale file from standard input, holds its sale, and prints the report.";

// Prints the report of the input to the output, or why it does not to the messages.
fn run<R: Read + Drop, W: Write, M: Write>(
    heap: Global,
    input: R,
    output: &mut W,
    messages: &mut M,
) -> ExitCode
    ensures { Ends (R.remaining input) (W.contents output.old) (W.contents output.new)
        (exit_status result) }
{
    match hold_sale(heap, input, output) {
        Ok(status) => ExitCode::from(status),
        Err(e) => {
            // Where this cannot be written either, the status still tells.
            let _ = writeln!(messages, "sale: {e}");
            ExitCode::from(NOT_DONE)
        }
    }
}

fn main(rt: HostRuntime) -> ExitCode {
    promise_stands();
    accepted_files_keep_limits();
    format_laws_stand();
    page_laws_stand();
    match begin(&rt, "sale", ABOUT) {
        Some(end) => end,
        None => run(
            rt.alloc(),
            rt.reader(),
            &mut io::writer(&rt),
            &mut rt.stderr(),
        ),
    }
}
