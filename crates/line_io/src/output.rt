//! Where the answers to an input's lines go: sinks, over std's writers.
ghost use Rattle.std.specs.Prelude.{◌≡◌, ◌<◌, ◌≤◌, length, None, IfOk, OnOk};
ghost use Rattle.line_io.specs.Streams.{WriteAnswer, write_answer, WritesKnown};
ghost use Rattle.line_io.specs.Writes.{IsWritten};

use crate::faults::WriteFailed;
use std::io::{ErrorKind, Write};

/// How often a write that a signal interrupts is made again.
const WRITE_TRIES: u32 = 65536;

/// Takes the bytes of an output.
pub trait Sink {
    /// What one call of `put` may do, and the states before and after it.
    ghost takes: { Self → WriteAnswer → Self → Type 0 };

    /// Takes the first of these bytes, at least one, and returns how many it took. Err where the output fails.
    fn put(&mut self, bytes: &[u8]) -> Result<usize, WriteFailed>
        requires { 0 < length bytes.now }
        ensures some { IfOk result (λ n. 0 < n) }
        ensures bound { IfOk result (λ n. n ≤ length bytes.now) }
        ensures answer { takes self.old (write_answer result bytes.now) self.new };
}

/// A writer of std as a sink. A write that a signal interrupts is made again, up to 65,536 times; each other
/// error, and a write that takes no byte, is a failure. Nothing is flushed.
#[derive(Drop)]
pub struct FromWriter<W> {
    /// The writer, which has what `put` took.
    pub writer: W,
    /// The error of the last write that failed; None where none has failed.
    pub failure: Option<ErrorKind>,
}

impl<W> FromWriter<W> {
    /// A sink over this writer, by which nothing was written yet.
    pub fn new(writer: W) -> FromWriter<W>
        ensures { result ≡ record { writer = writer; failure = None } }
    {
        FromWriter {
            writer,
            failure: None,
        }
    }

    /// Notes why a write has failed, and returns `WriteFailed`.
    fn fail(&mut self, failure: ErrorKind) -> Result<usize, WriteFailed>
        ensures failed { OnOk result ⊥ }
        ensures kept { self.new.writer ≡ self.old.writer }
    {
        self.failure = Some(failure);
        Err(WriteFailed)
    }
}

impl<W: Write> Sink for FromWriter<W> {
    ghost takes = { λ s answer t. WritesKnown (W.contents s.writer) answer (W.contents t.writer) };

    /// Writes to the writer. A write that a signal interrupts is made again; it fails after 65,536 of them, and where the
    /// writer takes no byte.
    fn put(&mut self, bytes: &[u8]) -> Result<usize, WriteFailed> {
        for _ in 0..WRITE_TRIES {
            match self.writer.write(bytes) {
                Ok(0) => return self.fail(ErrorKind::WriteZero),
                Ok(count) => return Ok(count),
                Err(error) if error.kind() == ErrorKind::Interrupted => {}
                Err(error) => return self.fail(error.kind()),
            }
        }
        self.fail(ErrorKind::Interrupted)
    }
}

/// Writes all of these bytes: the first call offers them all, and each further one what is left. Err at the first
/// write that fails; then only a beginning of the bytes is written.
pub fn write_text<K: Sink>(sink: &mut K, bytes: &[u8]) -> Result<(), WriteFailed>
    ensures { IsWritten K.takes sink.old bytes.now sink.new result }
{
    let mut sent = 0;
    while sent < bytes.len() {
        sent += sink.put(&bytes[sent..])?;
    }
    Ok(())
}
