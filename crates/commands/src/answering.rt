//! The lines of an input of the program `othello`, answered as `solve` answers them.
ghost use Rattle.std.specs.Prelude.{◌≡◌, ◌≤◌, Result};
ghost use Rattle.line_io.specs.Leads.{between};
ghost use Rattle.line_io.specs.declared.faults.LineFault.{LineFault};
ghost use Rattle.commands.specs.Answering.{IsAnsweredRun, status_of_run};
ghost use Rattle.solve_engine.specs.Solving.{OrderedRun};

use crate::saying::say;
use crate::streams::{ProgramInput, ProgramOutput, Streams};
use crate::{EXIT_FAILED, EXIT_OK};
use line_io::{LineFault, Sink};
use solve_engine::{solve, solve_ordered, solve_visited};
use std::alloc::{AllocError, Global};

/// Bytes of the block that is allocated and freed before the first line of `solve`. Freeing it raises glibc's mmap
/// threshold to this size, so that smaller blocks stay with the process when freed, their pages mapped. Speed only.
const KEPT: usize = 16 << 20;

/// What `solve` writes on the errors at its start where the input is a terminal.
const HINT: &str = "reading lines `depth position`; `othello solve --help` explains them";

/// Answers the lines of the input until it ends, and returns the exit status: 0, or 1 where the input or the output
/// failed. Where `visited` is true each answer has the number of positions visited too, and `grain` isn't used. The
/// reason of a failure is written on the errors, but not where the reader of the output closed it. Where the input is a
/// terminal the errors get a hint first.
pub fn answer<S: ProgramInput, K: ProgramOutput, E: Sink>(
    alloc: Global,
    grain: u8,
    visited: bool,
    streams: &mut Streams<S, K, E>,
) -> u8
    requires { grain ≤ 6 }
    ensures { (r : Result (Unit {0}) LineFault) × IsAnsweredRun S.gives K.takes streams.old.source streams.old.sink streams.new.source streams.new.sink visited r
        × (result ≡ status_of_run r) }
{
    hint(streams);
    let result = if visited {
        solve_visited(&mut streams.source, &mut streams.sink)
    } else {
        keep_memory(alloc);
        solve(alloc, &mut streams.source, &mut streams.sink, grain)
    };
    ended(result, streams)
}

/// Answers the lines of the input until it ends, each by one ordered search, and returns the exit status; in all else
/// as [`answer`].
pub fn answer_ordered<S: ProgramInput, K: ProgramOutput, E: Sink>(
    streams: &mut Streams<S, K, E>,
) -> u8
    ensures { (r : Result (Unit {0}) LineFault) × OrderedRun (between S.gives streams.old.source streams.new.source) (between K.takes streams.old.sink streams.new.sink) r
        × (result ≡ status_of_run r) }
{
    hint(streams);
    let result = solve_ordered(&mut streams.source, &mut streams.sink);
    ended(result, streams)
}

/// Says what is read, where the input is a terminal.
fn hint<S: ProgramInput, K: ProgramOutput, E: Sink>(streams: &mut Streams<S, K, E>)
    ensures source { streams.new.source ≡ streams.old.source }
    ensures sink { streams.new.sink ≡ streams.old.sink }
{
    if streams.source.is_typed() {
        say(&mut streams.errors, HINT);
    }
}

/// The exit status of a run that ended so. Why it failed is said, but not where the reader of the output closed it.
fn ended<S: ProgramInput, K: ProgramOutput, E: Sink>(
    run: Result<(), LineFault>,
    streams: &mut Streams<S, K, E>,
) -> u8
    ensures status { result ≡ status_of_run run }
    ensures source { streams.new.source ≡ streams.old.source }
    ensures sink { streams.new.sink ≡ streams.old.sink }
{
    match run {
        Ok(()) => EXIT_OK,
        Err(LineFault::Write) if streams.sink.is_closed() => EXIT_FAILED,
        Err(fault) => {
            say(&mut streams.errors, fault);
            EXIT_FAILED
        }
    }
}

/// Allocates and frees one block of `KEPT` bytes, so that the C library reuses a core's memory for the next line's
/// core. If the block can't be had nothing changes.
fn keep_memory(alloc: Global) {
    let _: Result<Vec<u8>, AllocError> = Vec::with_capacity(alloc, KEPT);
}
