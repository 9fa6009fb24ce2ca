//! The commands of `othello` as the parser `clap` has them, with what help says of each.
ghost use Rattle.std.specs.Prelude.{◌≡◌, IfOk, codes, false, is_none};
ghost use Rattle.clap.specs.Words.{app_of, found_of, new_app, rows_of, rule_of, shape_of, with_rule};
ghost use Rattle.clap.specs.declared.builder.command.Command.TheViews.{out-Command};
ghost use Rattle.commands.specs.command_line.CommandLine.{bare_program, flag_rule, is_set, program, serve_of_sessions, serve_shape, solve_program, solve_shape};
ghost use Rattle.commands.specs.command_line.Settings.{number_rule};

use crate::command_line::settings::{GRAIN, NODES, PORT, SEGMENTS, SESSIONS, Setting, WORKERS};
use clap::{Arg, ArgAction, ArgMatches, Command};
use std::alloc::{AllocError, Global};

/// Whether a command was given a flag.
pub(crate) fn flag_in(given: &ArgMatches<'_>, flag: &str) -> bool
    ensures { result ≡ is_set flag.now (rows_of (found_of given.now)) }
{
    match given.get_str(flag) {
        Some(value) => value == "true",
        None => false,
    }
}

/// The program `othello` with its commands `solve` and `serve`.
pub(crate) fn othello_command<'a>(alloc: Global) -> Result<Command<'a>, AllocError>
    ensures { IfOk result (λ command. app_of command ≡ program) }
{
    let serve = serve_command(alloc)?;
    with_solve(alloc)?.subcommand(serve)
}

/// The program `othello` with the command `solve`, and `serve` not yet.
fn with_solve<'a>(alloc: Global) -> Result<Command<'a>, AllocError>
    ensures { IfOk result (λ command. app_of command ≡ solve_program) }
{
    let solve = solve_command(alloc)?;
    bare_othello(alloc).subcommand(solve)
}

/// The command `othello`, with its version and description but no subcommand yet.
fn bare_othello<'a>(alloc: Global) -> Command<'a>
    ensures { app_of result ≡ bare_program }
{
    Command::new(alloc, "othello")
        .version(VERSION)
        .about(
            "Othello analysis: the minimax value of a position, and the first move that attains it",
        )
        .subcommand_required(true)
}

/// The command of this name, for the usage in an error message; the whole program where there is no such command.
pub(crate) fn command_of<'a>(alloc: Global, name: &str) -> Result<Command<'a>, AllocError> {
    if name == "solve" {
        solve_command(alloc)?.bin_name("othello solve")
    } else if name == "serve" {
        serve_command(alloc)?.bin_name("othello serve")
    } else {
        othello_command(alloc)
    }
}

/// The option of a setting, as `clap` has it: required where the setting has no default.
fn number_arg<'a>(alloc: Global, setting: Setting) -> Arg<'a>
    ensures rule { rule_of result ≡ number_rule setting.name.now (is_none setting.default) }
    ensures local { result.global ≡ false }
{
    Arg::new(alloc, setting.name)
        .long(setting.name)
        .value_name(setting.value)
        .required(setting.default.is_none())
        .help(setting.help)
}

/// The command `solve` of `othello`, with its options, as `clap` parses it.
fn solve_command<'a>(alloc: Global) -> Result<Command<'a>, AllocError>
    ensures shape { IfOk result (λ command. shape_of command ≡ solve_shape) }
    ensures local { IfOk result (λ command. (out-Command command).has_globals ≡ false) }
{
    let command = with_number(alloc, bare(alloc, "solve", SOLVE_ABOUT, SOLVE_HELP), GRAIN)?;
    let command = command.arg(flag_arg(alloc, "visited", VISITED_HELP))?;
    command.arg(flag_arg(alloc, "ordered", ORDERED_HELP))
}

/// What `solve` does, for help.
const SOLVE_ABOUT: &str =
    "answers lines `depth position` from standard input by lines `value move`";

/// What `--visited` does, for help.
const VISITED_HELP: &str =
    "answers by one serial search, and adds the number of positions that it entered";

/// What `--ordered` does, for help.
const ORDERED_HELP: &str =
    "answers by one serial search that tries likely moves first, the fastest way; stands without another option";

/// A flag: its name, and what help says of it.
fn flag_arg<'a>(alloc: Global, name: &'static str, help: &'static str) -> Arg<'a>
    ensures rule { rule_of result ≡ flag_rule name.now }
    ensures local { result.global ≡ false }
{
    Arg::new(alloc, name)
        .long(name)
        .action(ArgAction::SetTrue)
        .help(help)
}

/// The command `serve` of `othello`, with its options, as `clap` parses it.
fn serve_command<'a>(alloc: Global) -> Result<Command<'a>, AllocError>
    ensures shape { IfOk result (λ command. shape_of command ≡ serve_shape) }
    ensures local { IfOk result (λ command. (out-Command command).has_globals ≡ false) }
{
    let command = with_number(alloc, serve_of_sessions(alloc)?, SEGMENTS)?;
    let command = with_number(alloc, command, NODES)?;
    with_number(alloc, command, GRAIN)
}

/// The command `serve` with the options of its sessions alone: how many, on which port, by how many workers.
fn serve_of_sessions<'a>(alloc: Global) -> Result<Command<'a>, AllocError>
    ensures app { IfOk result (λ command. app_of command ≡ serve_of_sessions) }
    ensures local { IfOk result (λ command. (out-Command command).has_globals ≡ false) }
{
    let command = with_number(
        alloc,
        bare(alloc, "serve", SERVE_ABOUT, SERVE_HELP),
        SESSIONS,
    )?;
    let command = with_number(alloc, command, PORT)?;
    with_number(alloc, command, WORKERS)
}

/// What `serve` does, for help.
const SERVE_ABOUT: &str =
    "serves sessions of many tenants over TCP on 127.0.0.1, with one pool of workers";

/// A command without options: its name, what it does, and the help that follows its options.
fn bare<'a>(
    alloc: Global,
    name: &'static str,
    about: &'static str,
    help: &'static str,
) -> Command<'a>
    ensures app { app_of result ≡ new_app name.now }
    ensures local { (out-Command result).has_globals ≡ false }
{
    Command::new(alloc, name).about(about).after_help(help)
}

/// A command with one more option that has a number.
fn with_number<'a>(
    alloc: Global,
    command: Command<'a>,
    setting: Setting,
) -> Result<Command<'a>, AllocError>
    requires { (out-Command command).has_globals ≡ false }
    ensures app { IfOk result (λ c. app_of c ≡ with_rule (app_of command.entry) (number_rule setting.name.now (is_none setting.default))) }
    ensures local { IfOk result (λ c. (out-Command c).has_globals ≡ false) }
{
    command.arg(number_arg(alloc, setting))
}

/// The program's version.
const VERSION: &str = "1.0.0";

/// What help says of the lines of `solve` and of their answers.
const SOLVE_HELP: &str = "A line is `depth position`, and is answered as soon as it is complete.
  depth     a number from 0 to 12, in plies
  position  64 cells from a1 to h8, row by row from the top, a space, and the side to move;
            X, x and * are a black disc, O and o a white one, - and . an empty cell

An answer is `value move`.
  value     seen by the side to move, from -128000 to 128000: 2000 for each disc more in a finished game
  move      a1 to h8, pass, or - where there is none (depth 0, or a finished game)

A faulty line is answered by ERR and the number of its first fault.
  22  over 128 bytes            21  no space after the depth
  23  the depth is no number    27  the depth is over 12
  24  the position hasn't 66 bytes
  25  a byte spells no cell     26  no space and side after the cells
  19  no memory for the search
";

/// What help says of a session, of its lines and of their answers.
const SERVE_HELP: &str =
    "The program writes `listening 127.0.0.1:port` first, and `ended k` when k sessions have ended.
A connection is a session. Each line is answered by one line, in order:
  HELLO s n         WELCOME s n     reserves s segments (1 to 4096) and n nodes (1 to 65536)
  RESERVE s n       RESERVED s n    reserves more than before, while jobs run
  ASK d position    JOB k           asks for a position, d plies deep (`othello solve --help`)
  GET k             PENDING k, DONE k value move, SPENT k or CANCELLED k
  WAIT k            as GET, once the job has ended
  TABLE k           TABLE k and each move with its value: d3=-3, or at most c4<-3, or at
                    least f5>2; as GET where the job isn't done
  CANCEL k          CANCELLED k     ends a job
  QUOTA             QUOTA s n t     the segments, nodes and steps that are left
  LIVE              LIVE f w        the frames that are open, and their words
  BYE               BYE             ends the session

A faulty line is answered by ERR and a number, and the session goes on.
  22  over 128 bytes             21  unknown word, or wrong number of words
  28  no HELLO yet               29  HELLO again
  23  no number, or HELLO or RESERVE outside the limits
  27  the depth is over 12       24, 25, 26  the position, as in `solve`
  14  no room for the tenant     10, 11  no segments or nodes are left
  13  256 jobs were asked        17  no such job
  19  no memory for the tenant   20  RESERVE of no more than before
";
