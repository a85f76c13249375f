// What the arguments ask for.
ghost use Rattle.std.specs.Prelude.{◌<◌};

use clap::{Arg, ArgMatches, Command, value_parser};
use std::alloc::{AllocError, Global};
use std::fmt;
use std::num::NonZeroUsize;
use std::str::FromStr;

/// What `--help` tells.
const ABOUT: &str =
    "Runs the published values of the permutations and the known answers of the data folder through every engine of their \
variant, and prints how many agree.";

/// The engines by their names.
#[derive(Clone, Copy, PartialEq, Eq)]
pub(crate) enum EngineName {
    Plain,
    Circuit,
    Interleaved,
}

const ENGINE_NAMES: [&str; 3] = ["plain", "circuit", "interleaved"];

impl fmt::Display for EngineName {
    fn fmt<W: fmt::Write>(&self, f: &mut fmt::Formatter<W>) -> fmt::Result {
        f.write_str(match self {
            EngineName::Plain => "plain",
            EngineName::Circuit => "circuit",
            EngineName::Interleaved => "interleaved",
        })
    }
}

/// No engine has the name.
#[derive(Drop)]
pub(crate) struct NoSuchEngine;

impl FromStr for EngineName {
    type Err = NoSuchEngine;

    fn from_str(name: &str) -> Result<EngineName, NoSuchEngine> {
        match name {
            "plain" => Ok(EngineName::Plain),
            "circuit" => Ok(EngineName::Circuit),
            "interleaved" => Ok(EngineName::Interleaved),
            _ => Err(NoSuchEngine),
        }
    }
}

/// The arguments that the program takes.
pub(crate) fn command<'a>(alloc: Global) -> Result<Command<'a>, AllocError> {
    let step = Arg::new(alloc, "step")
        .value_name("STEP")
        .help("Has the plain engine, which is slow, try one record in so many [default: 1]")
        .value_parser(value_parser!(usize).range(1..));
    let engine = Arg::new(alloc, "engine")
        .value_name("ENGINE")
        .help("Has only this engine run")
        .value_parser(ENGINE_NAMES.as_slice());
    Command::new(alloc, "vectors")
        .about(ABOUT)
        .arg(step)?
        .arg(engine)
}

/// Of how many records the plain engine, which is slow, tries one; and the only engine that is run, if one is named.
#[derive(Drop)]
pub(crate) struct Asked {
    step: NonZeroUsize,
    engine: Option<EngineName>,
}

impl Asked {
    /// What the arguments of `command` ask for. Without them every record is tried by every engine.
    pub(crate) fn of(matches: &ArgMatches) -> Asked {
        let step = matches.get_one::<NonZeroUsize>("step");
        Asked {
            step: step.unwrap_or(NonZeroUsize::MIN),
            engine: matches.get_one::<EngineName>("engine"),
        }
    }

    /// Whether an engine is run.
    pub(crate) fn wants(&self, name: EngineName) -> bool {
        self.engine.is_none_or(|only| only == name)
    }

    /// Of how many records an engine tries one.
    pub(crate) fn step(&self, name: EngineName) -> usize
        ensures { 0 < result }
    {
        match name {
            EngineName::Plain => self.step.get(),
            EngineName::Circuit | EngineName::Interleaved => 1,
        }
    }
}
