//! The output of `othello`, which explains answers: where the input is a terminal, each answer that is a fault is said
//! in words on the standard error.
use crate::saying::say;
use crate::streams::ProgramOutput;
use line_io::{Sink, WriteFailed};
use protocol::{ProtocolFault, split_at_space};
use sched_rules::Refusal;

/// The faults that a line of `solve` may have.
const FAULTS: [ProtocolFault; 7] = [
    ProtocolFault::NoCommand,
    ProtocolFault::LongLine,
    ProtocolFault::NoNumber,
    ProtocolFault::PositionLength,
    ProtocolFault::PositionCell,
    ProtocolFault::PositionSide,
    ProtocolFault::TooDeep,
];

/// An output that takes what another one does, and says on the errors what is wrong with a line that is answered by
/// `ERR n`.
#[derive(Drop)]
pub struct Explained<K, E> {
    /// The output.
    pub sink: K,
    /// Where the faults are said in words.
    pub errors: E,
    /// Whether they are said at all.
    pub explains: bool,
}

impl<K: Sink, E: Sink> Sink for Explained<K, E> {
    ghost takes = { λ s answer t. K.takes s.sink answer t.sink };

    /// Writes to the output; an answer that went out whole is explained on the errors, if it is a fault.
    fn put(&mut self, bytes: &[u8]) -> Result<usize, WriteFailed> {
        let count = self.sink.put(bytes)?;
        if self.explains && count == bytes.len() {
            explain(&mut self.errors, bytes);
        }
        Ok(count)
    }
}

impl<K: ProgramOutput, E: Sink> ProgramOutput for Explained<K, E> {
    /// Whether nobody reads the output any more.
    fn is_closed(&self) -> bool {
        self.sink.is_closed()
    }
}

/// Says what is wrong with a line, where its answer is `ERR n` with an LF.
fn explain<E: Sink>(errors: &mut E, answer: &[u8]) {
    let Some((b"ERR", [tens, ones, b'\n'])) = split_at_space(answer) else {
        return;
    };
    if tens.is_ascii_digit() && ones.is_ascii_digit() {
        explain_number(errors, 10 * (*tens - b'0') + (*ones - b'0'));
    }
}

/// Says what the number of an `ERR` means, where a line of `solve` can have it.
fn explain_number<E: Sink>(errors: &mut E, number: u8) {
    if number == Refusal::OutOfMemory.number() {
        say(errors, Refusal::OutOfMemory);
    }
    for fault in FAULTS {
        if number == fault.number() {
            say(errors, fault);
        }
    }
}
