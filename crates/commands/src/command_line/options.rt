//! What the words of `othello`'s command line ask for.
ghost use Rattle.std.specs.Prelude.{◌≡◌, [], false, map, true, IfErr, IfOk, None, OnErr, OnOk, Some};
ghost use Rattle.clap.specs.Words.{fault_of, found_of, kind_of, rows_of, subcommand_rows_of};
ghost use Rattle.clap.specs.declared.error.kind.ErrorKind.TheVariants.{ValueValidation};
ghost use Rattle.commands.specs.command_line.CommandLine.{AreWithinLimits, asked_of, command_asked, options_asked, program, serve_asked, solve_asked};
ghost use Rattle.commands.specs.command_line.Faults.{IsOutside, IsRefusal};
ghost use Rattle.commands.specs.declared.command_line.options.Options.TheVariants.{SolveOrdered};

use crate::command_line::commands::{command_of, flag_in, othello_command};
use crate::command_line::faults::WordsFault;
use crate::command_line::settings::{GRAIN, Missing, NODES, PORT, SEGMENTS, SESSIONS, WORKERS};
use clap::error::ErrorKind;
use clap::{ArgMatches, Command, Error};
use std::alloc::{AllocError, Global};
use std::convert::AsStr;

/// What the program is asked to do.
#[derive(Clone, Copy, Debug, PartialEq, Eq)]
pub enum Options {
    /// To answer the lines of standard input.
    Solve {
        /// The depth that the worker searches alone, 0 to 6.
        grain: u8,
        /// Whether each answer also tells how many positions one serial search entered.
        visited: bool,
    },
    /// To answer the lines of standard input, each by one ordered search.
    SolveOrdered,
    /// To serve sessions over TCP.
    Serve {
        /// How many sessions, 1 to 1,000.
        sessions: u16,
        /// The port of 127.0.0.1; at 0 the system chooses one.
        port: u16,
        /// The workers of the pool, 1 to 32.
        workers: u8,
        /// The segments of all tenants together, 1 to 65,536.
        segments: u32,
        /// The nodes of all tenants together, 1 to 4,194,304.
        nodes: u32,
        /// The depth that one worker searches alone, 0 to 6.
        grain: u8,
    },
}

impl Options {
    /// What the words ask for, the program's name first.
    ///
    /// At Ok each option has the value that the words give it, or its default, and is within its limits. The words
    /// are refused only for a fault that they have: one of the kinds that `clap` finds, a value that is no number
    /// of 1 to 8 digits within the limits of its option, or `--ordered` beside another option.
    pub fn read<S: AsStr>(alloc: Global, words: &[S]) -> Result<Options, WordsFault>
        ensures read { IfOk result (λ options. options_asked (map S.text words.now) ≡ Some options) }
        ensures within { IfOk result AreWithinLimits }
        ensures faultless { OnOk result (fault_of program (map S.text words.now) ≡ []) }
        ensures refused { IfErr result (IsRefusal (map S.text words.now)) }
    {
        let command = match othello_command(alloc) {
            Ok(command) => command,
            Err(AllocError) => return Err(WordsFault::OutOfMemory),
        };
        match command.try_get_matches_from(words) {
            Ok(matches) => match options_of(&matches) {
                Ok(options) => Ok(options),
                Err(missing) => Err(outside(alloc, missing, &matches)),
            },
            Err(error) if error.kind() == ErrorKind::OutOfMemory => Err(WordsFault::OutOfMemory),
            Err(error) => Err(WordsFault::Refused(error)),
        }
    }
}

/// What the command that the words name asks for. Err where they name none, an option has no value within its limits, or
/// `--ordered` doesn't stand alone.
fn options_of(matches: &ArgMatches<'_>) -> Result<Options, Missing>
    ensures asked { IfOk result (λ options. asked_of (subcommand_rows_of matches.now) ≡ Some options) }
    ensures within { IfOk result AreWithinLimits }
    ensures none { OnErr result (asked_of (subcommand_rows_of matches.now) ≡ None) }
{
    match matches.subcommand() {
        Some((name, given)) => options_given(name, given),
        None => Err(Missing::Command),
    }
}

/// What the command of this name asks for. Err where there is no such command, an option has no value within its limits,
/// or `--ordered` doesn't stand alone.
fn options_given(name: &str, given: &ArgMatches<'_>) -> Result<Options, Missing>
    ensures asked { IfOk result (λ options. command_asked (name.now, rows_of (found_of given.now)) ≡ Some options) }
    ensures within { IfOk result AreWithinLimits }
    ensures none { OnErr result (command_asked (name.now, rows_of (found_of given.now)) ≡ None) }
{
    if name == "solve" {
        solve_of(given)
    } else if name == "serve" {
        serve_of(given)
    } else {
        Err(Missing::Command)
    }
}

/// The options of `solve` that the words give, or their defaults.
fn solve_of(given: &ArgMatches<'_>) -> Result<Options, Missing>
    ensures asked { IfOk result (λ options. solve_asked (rows_of (found_of given.now)) ≡ Some options) }
    ensures within { IfOk result AreWithinLimits }
    ensures none { OnErr result (solve_asked (rows_of (found_of given.now)) ≡ None) }
{
    if flag_in(given, "ordered") {
        return ordered_of(GRAIN.is_given(given) || flag_in(given, "visited"));
    }
    let grain = GRAIN.value_in(given)?;
    Ok(Options::Solve {
        grain: grain as u8,
        visited: flag_in(given, "visited"),
    })
}

/// What `solve --ordered` asks for. Err where another option stands beside it.
fn ordered_of(has_another: bool) -> Result<Options, Missing>
    ensures asked { IfOk result (λ options. (options ≡ SolveOrdered) × (has_another ≡ false)) }
    ensures none { OnErr result (has_another ≡ true) }
{
    if has_another {
        return Err(Missing::OrderedAlone);
    }
    Ok(Options::SolveOrdered)
}

/// The options of `serve` that the words give, or their defaults.
fn serve_of(given: &ArgMatches<'_>) -> Result<Options, Missing>
    ensures asked { IfOk result (λ options. serve_asked (rows_of (found_of given.now)) ≡ Some options) }
    ensures within { IfOk result AreWithinLimits }
    ensures none { OnErr result (serve_asked (rows_of (found_of given.now)) ≡ None) }
{
    let sessions = SESSIONS.value_in(given)?;
    let port = PORT.value_in(given)?;
    let workers = WORKERS.value_in(given)?;
    let segments = SEGMENTS.value_in(given)?;
    let nodes = NODES.value_in(given)?;
    let grain = GRAIN.value_in(given)?;
    Ok(Options::Serve {
        sessions: sessions as u16,
        port: port as u16,
        workers: workers as u8,
        segments,
        nodes,
        grain: grain as u8,
    })
}

/// The refusal of words that lack something.
fn outside(alloc: Global, missing: Missing, matches: &ArgMatches<'_>) -> WordsFault
    ensures { IsOutside result }
{
    match outside_error(alloc, missing, matches) {
        Ok(error) => WordsFault::Refused(error),
        Err(AllocError) => WordsFault::OutOfMemory,
    }
}

/// The error of `clap` for what is missing: a message, and the usage of the command that the words name.
fn outside_error(
    alloc: Global,
    missing: Missing,
    matches: &ArgMatches<'_>,
) -> Result<Error, AllocError>
    ensures { IfOk result (λ error. kind_of error ≡ ValueValidation) }
{
    let text = text_of(alloc, missing)?;
    let mut command = named_command(alloc, matches)?;
    command.error(ErrorKind::ValueValidation, text.as_str())
}

/// The error message for what is missing.
fn text_of(alloc: Global, missing: Missing) -> Result<String, AllocError> {
    match missing {
        Missing::Value(setting) => format!(in alloc; "{setting}"),
        Missing::Command => format!(in alloc; "a command is needed"),
        Missing::OrderedAlone => format!(in alloc;
            "--ordered stands without --grain and --visited"
        ),
    }
}

/// The command that the words name; the program's where they name none.
fn named_command<'a>(alloc: Global, matches: &ArgMatches<'_>) -> Result<Command<'a>, AllocError> {
    match matches.subcommand() {
        Some((name, _)) => command_of(alloc, name),
        None => othello_command(alloc),
    }
}
