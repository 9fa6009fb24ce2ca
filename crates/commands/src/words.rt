//! The words that the process of `othello` was started with.
ghost use Rattle.std.specs.Prelude.{◌≡◌, ◌⊎◌, IfErr};

use crate::command_line::WordsFault;
use crate::saying::say;
use crate::{EXIT_FAILED, EXIT_REFUSED};
use line_io::Sink;
use std::alloc::{AllocError, Global};
use std::env::Args;
use std::io::{self, ErrorKind};

/// The words of the command line, the program's name first, by what the system gave of them (`std::env::args`). Where
/// they can't be had, writes on `errors` why, and returns the exit status: 2 where a word is no text in UTF-8, 1 where
/// there is no memory for them.
pub fn words_of<E: Sink>(
    alloc: Global,
    given: io::Result<Args>,
    errors: &mut E,
) -> Result<Vec<String>, u8>
    ensures { IfErr result (λ status. (status ≡ EXIT_FAILED) ⊎ (status ≡ EXIT_REFUSED)) }
{
    match given {
        Ok(words) => match words.collect(alloc) {
            Ok(words) => Ok(words),
            Err(AllocError) => Err(unread(errors)),
        },
        Err(error) if error.kind() == ErrorKind::InvalidData => {
            say(errors, "a word of the command line is no text in UTF-8");
            Err(EXIT_REFUSED)
        }
        Err(_) => Err(unread(errors)),
    }
}

/// Says that there was no memory for the words, and returns the exit status.
fn unread<E: Sink>(errors: &mut E) -> u8
    ensures { result ≡ EXIT_FAILED }
{
    say(errors, WordsFault::OutOfMemory);
    EXIT_FAILED
}
