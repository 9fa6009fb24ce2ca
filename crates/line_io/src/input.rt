//! Where the bytes of an input come from: sources, over std's readers.
ghost use Rattle.std.specs.Prelude.{◌≡◌, ◌<◌, ◌≤◌, length, IfOk};
ghost use Rattle.line_io.specs.Streams.{ReadAnswer, read_answer, ReadsKnown};

use crate::faults::ReadFailed;
use std::io::{ErrorKind, Read};

/// How often a read that a signal interrupts is made again.
const READ_TRIES: u32 = 65536;

/// Gives the bytes of an input in blocks.
pub trait Source {
    /// What one call of `fill` may do, and the states before and after it.
    ghost gives: { Self → ReadAnswer → Self → Type 0 };

    /// Puts the next bytes of the input at the start of the block, and returns how many they are: 0 only at the end of
    /// the input. Err where the input fails.
    fn fill(&mut self, block: &mut [u8]) -> Result<usize, ReadFailed>
        requires { 0 < length block.old }
        ensures bound { IfOk result (λ n. n ≤ length block.new) }
        ensures answer { gives self.old (read_answer result block.new) self.new };
}

/// A reader of std as a source. A read that a signal interrupts is made again, up to 65,536 times; any other error is
/// a failure, and consumes no byte.
#[derive(Drop)]
pub struct FromReader<R> {
    /// The reader that `fill` reads from.
    pub reader: R,
}

impl<R: Read> Source for FromReader<R> {
    ghost gives = { λ s answer t. ReadsKnown (R.remaining s.reader) answer (R.remaining t.reader) };

    /// Reads into the block. A read that a signal interrupts is made again; it fails after 65,536 of them.
    fn fill(&mut self, block: &mut [u8]) -> Result<usize, ReadFailed> {
        for _ in 0..READ_TRIES {
            match self.reader.read(block) {
                Ok(count) => return Ok(count),
                Err(error) if error.kind() == ErrorKind::Interrupted => {}
                Err(_) => return Err(ReadFailed),
            }
        }
        Err(ReadFailed)
    }
}
