//! What the program `othello` says of itself, and of words that it can't follow.
ghost use Rattle.std.specs.Prelude.{◌≡◌};
ghost use Rattle.commands.specs.command_line.Faults.{exit_status};

use crate::command_line::WordsFault;
use line_io::{Sink, write_text};
use std::fmt::{self, Display, Write as _};

/// Writes on `errors` why the words of the command line are refused or can't be read, or on `sink` the help or the
/// version that they ask for. Returns the exit status: 2 for a refusal, 1 for want of memory, 0 for help and version,
/// whether the text could be written or not.
pub fn refuse<K: Sink, E: Sink>(fault: &WordsFault, sink: &mut K, errors: &mut E) -> u8
    ensures { result ≡ exit_status fault.now }
{
    match fault {
        WordsFault::OutOfMemory => say(errors, fault),
        WordsFault::Refused(error) if error.use_stderr() => put(errors, error),
        WordsFault::Refused(error) => put(sink, error),
    }
    fault.status()
}

/// Writes the line `othello: text`. Where the sink fails the rest of the line is lost, and nobody is told.
pub fn say<K: Sink, D: Display + Drop>(sink: &mut K, text: D) {
    let _ = writeln!(Pen(sink), "othello: {text}");
}

/// Writes a text. Where the sink fails the rest of the text is lost, and nobody is told.
fn put<K: Sink, D: Display + Drop>(sink: &mut K, text: D) {
    let _ = write!(Pen(sink), "{text}");
}

/// A sink as a writer of texts.
#[derive(Drop)]
struct Pen<'a, K>(&'a mut K);

impl<K: Sink> fmt::Write for Pen<'_, K> {
    /// Writes a text to the sink; an error where a write failed.
    fn write_str(&mut self, text: &str) -> fmt::Result {
        match write_text(self.0, text.as_bytes()) {
            Ok(()) => Ok(()),
            Err(_) => Err(fmt::Error),
        }
    }
}
