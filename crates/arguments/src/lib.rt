//! What a program does with the words it was called with: it takes the arguments that it knows, shows its help where that is
//! asked for, and refuses anything else.
#![tactic(auto)]

ghost use Rattle.std.specs.Prelude.{◌≡◌, ◌⊎◌, ◌∷◌, [], List, IfErr, IfOk, IfSome, IsErrAnd, codes};
ghost use Rattle.std.specs.Prelude.{drop, false, map, option_map, true};
ghost use Rattle.std.specs.Process.{exit_status};
ghost use Rattle.clap.specs.Words.{HasMatchesOf, Text, app_of, fault_of, is_simple_and_free, new_app};
ghost use Rattle.arguments.specs.Notice.{Tells, TellsFault, begins_with_hyphen, status_by};
ghost use Rattle.arguments.specs.Notice.{fault_told as fault_of_notice};

use clap::error::ErrorKind;
use clap::{ArgMatches, Command, Error};
use std::alloc::Global;
use std::convert::AsStr;
use std::env::Env;
use std::process::ExitCode;
use std::{env, io};

/// The status of a program that could not do what it was called for: its arguments are refused, or reading, writing or memory
/// failed.
pub const NOT_DONE: u8 = 2;

/// Where a text goes.
#[derive(Clone, Copy, Debug, PartialEq, Eq)]
pub enum Stream {
    /// Standard output.
    Output,
    /// Standard error.
    Errors,
}

/// What a program tells in place of a run: its help, or why it refuses its arguments, with a line on its usage.
#[derive(Debug, Drop)]
pub struct Notice {
    error: Error,
    // The line on the usage, where memory suffices for it.
    usage: Option<String>,
}

impl Notice {
    ghost use Rattle.arguments.specs.Notice.{fault_told, status_of, stream_of};

    /// Where the notice goes.
    pub fn stream(&self) -> Stream
        ensures { result ≡ stream_of (fault_told self.now) }
    {
        if self.error.use_stderr() {
            Stream::Errors
        } else {
            Stream::Output
        }
    }

    /// The status with which the program ends.
    pub fn status(&self) -> u8
        ensures { result ≡ status_of (fault_told self.now) }
    {
        match self.stream() {
            Stream::Output => 0,
            Stream::Errors => NOT_DONE,
        }
    }

    /// Prints the notice, and tells the status with which the program ends. Fails where it cannot be written.
    pub fn print<R: Print + Eprint>(&self, rt: &R) -> io::Result<ExitCode>
        ensures { IfOk result (λ code. exit_status code ≡ status_of (fault_told self.now)) }
    {
        let text = &self.error;
        match self.stream() {
            Stream::Output => print!(rt; "{text}")?,
            Stream::Errors => eprint!(rt; "{text}")?,
        }
        if let Some(usage) = &self.usage {
            if self.lacks_usage() {
                eprintln!(rt; "\n{usage}")?;
            }
        }
        Ok(ExitCode::from(self.status()))
    }

    // Whether the text has no line on the usage: clap writes none where the value of an argument is refused.
    fn lacks_usage(&self) -> bool {
        matches!(
            self.error.kind(),
            ErrorKind::InvalidValue | ErrorKind::ValueValidation
        )
    }
}

/// What `words`, of which the first is the program's name, give to the arguments of `command`; or the notice for which
/// the program then makes no run.
pub fn read<'a, S: AsStr>(
    mut command: Command<'a>,
    words: &'a [S],
) -> Result<ArgMatches<'a>, Notice>
    ensures matches { IfOk result (HasMatchesOf (app_of command.entry) (map S.text words.entry.now)) }
    ensures fault { is_simple_and_free (app_of command.entry) ≡ true
        → TellsFault (fault_of (app_of command.entry) (map S.text words.entry.now)) result }
{
    match command.try_get_matches_from_mut(words) {
        Ok(matches) => Ok(matches),
        Err(error) => {
            let usage = command.render_usage().ok();
            Err(Notice { error, usage })
        }
    }
}

/// As `read`, for a program that takes no arguments: nothing where it makes its run. Its help has `about`, which says what
/// the program does.
pub fn read_no_arguments<'a, S: AsStr>(
    alloc: Global,
    name: &'a str,
    about: &'a str,
    words: &'a [S],
) -> Result<(), Notice>
    ensures fault { TellsFault (fault_of (new_app name.entry.now) (map S.text words.entry.now)) result }

    // What this comes to, by the words after the program's name.
    ensures run { drop 1 (map S.text words.entry.now) ≡ []
        → IfErr result (λ notice. fault_of_notice notice ≡ ErrorKind.OutOfMemory) }
    ensures help { (rest : List Text) → drop 1 (map S.text words.entry.now) ≡ codes "--help" ∷ rest
        → IsErrAnd result (Tells ErrorKind.DisplayHelp) }
    ensures refusal { (word : Text) (rest : List Text)
        → drop 1 (map S.text words.entry.now) ≡ word ∷ rest → begins_with_hyphen word ≡ false
        → IsErrAnd result (Tells ErrorKind.UnknownArgument) }
{
    let command = Command::new(alloc, name).about(about);
    let _none = read(command, words)?;
    Ok(())
}

/// The beginning of a program that takes no arguments: nothing where it goes on, and else, once it is told why not, the
/// status with which it ends: 0 after its help, and `NOT_DONE` where its arguments are refused or cannot be read.
pub fn begin<R: Env + AllocGlobal + Print + Eprint>(
    rt: &R,
    name: &str,
    about: &str,
) -> Option<ExitCode>
    ensures { IfSome result (λ status.
        (exit_status status ≡ 0) ⊎ (exit_status status ≡ NOT_DONE)) }
{
    match end_by_arguments(rt, name, about) {
        Ok(end) => end,
        Err(error) => Some(ended(rt, name, Err(error))),
    }
}

// The end of a program that takes no arguments, where those that it is called with end it.
fn end_by_arguments<R: Env + AllocGlobal + Print + Eprint>(
    rt: &R,
    name: &str,
    about: &str,
) -> anyhow::Result<Option<ExitCode>>
    ensures { IfOk result (λ end. IfSome end (λ status.
        (exit_status status ≡ 0) ⊎ (exit_status status ≡ NOT_DONE))) }
{
    let words: Vec<String> = env::args(rt)?.collect(rt.alloc())?;
    let read = read_no_arguments(rt.alloc(), name, about, words.as_slice());
    Ok(end_by(rt, read)?)
}

// Nothing where the arguments are read, and else, once the notice is printed, the status with which the program ends.
fn end_by<R: Print + Eprint>(rt: &R, read: Result<(), Notice>) -> io::Result<Option<ExitCode>>
    ensures { IfOk result (λ end. option_map exit_status end ≡ status_by read) }
{
    match read {
        Ok(()) => Ok(None),
        Err(notice) => Ok(Some(notice.print(rt)?)),
    }
}

/// The end of a program: the status that its run gave, or, once the error is told on standard error under the program's
/// name, `NOT_DONE`.
pub fn ended<R: Eprint>(rt: &R, name: &str, run: anyhow::Result<ExitCode>) -> ExitCode
    ensures done { IfOk run (λ status. result ≡ status) }
    ensures failed { IfErr run (λ _. exit_status result ≡ NOT_DONE) }
{
    match run {
        Ok(status) => status,
        Err(error) => {
            // Where this cannot be written either, the status still tells.
            let _ = eprintln!(rt; "{name}: {error:?}");
            ExitCode::from(NOT_DONE)
        }
    }
}
