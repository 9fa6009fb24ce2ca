//! A test of a session's answer to TABLE: one call, however long it is.
use super::{Prepared, holds, joined, session};
use line_io::{FromReader, Sink, WriteFailed};
use othello_eval::{Bound, BoundKind, Valued};
use othello_moves::Choice;
use session::{Analysis, Bounds, End, Standing};
use std::alloc::{AllocError, Global};
use std::sync::Wait;

/// Takes each answer by one call, and keeps the last.
#[derive(Drop)]
struct Last {
    answer: Vec<u8>,
    calls: usize,
}

impl Sink for Last {
    ghost takes = { λ _ _ _. Unit {0} };

    /// Keeps the last answer, and counts the calls.
    fn put(&mut self, bytes: &[u8]) -> Result<usize, WriteFailed> {
        self.calls = self.calls.saturating_add(1);
        self.answer.clear();
        match self.answer.extend_from_slice(bytes) {
            Ok(()) => Ok(bytes.len()),
            Err(_) => Err(WriteFailed),
        }
    }
}

/// A job that is done, with a table of 64 entries that are as long as an entry can be.
fn longest() -> Standing {
    let entry = Bound {
        choice: Choice::Pass,
        score: i32::MIN,
        kind: BoundKind::Low,
    };
    let mut bounds = Bounds::NONE;
    for _ in 0..64 {
        if bounds.as_slice().len() < 64 {
            bounds.push(entry);
        }
    }
    let best = Valued {
        value: 0,
        choice: Some(Choice::Pass),
    };
    Standing::Done(Analysis { best, bounds })
}

/// The answer to the line TABLE for the job with the longest table, with the greatest job number that a line can name.
fn longest_text(alloc: Global) -> Result<Vec<u8>, AllocError> {
    let entries = joined(alloc, [b" pass<-2147483648".as_slice(); 64].as_slice())?;
    let title = b"TABLE 99999999".as_slice();
    let texts = [title, entries.as_slice(), b"\n".as_slice()];
    joined(alloc, texts.as_slice())
}

/// Whether the answer to TABLE is this text, written by one call beside that of HELLO.
fn is_written_at_once<R: Wait>(rt: &R, alloc: Global, due: &[u8]) -> bool {
    let mut office = Prepared::new(longest());
    office.jobs = 99_999_999;
    let mut sink = Last {
        answer: Vec::new(alloc),
        calls: 0,
    };
    let lines = b"HELLO 4 8\nTABLE 99999999".as_slice();
    let mut source = FromReader { reader: lines };
    let result = session(rt, &mut source, &mut sink, &mut office);
    matches!(result, Ok(End::EndOfInput)) && sink.calls == 2 && sink.answer.as_slice() == due
}

/// The longest TABLE line, of 1,103 bytes, is written by one call.
#[test]
fn the_longest_table_is_written_by_one_call(rt: HostRuntime) {
    let due = longest_text(rt.alloc()).expect(&rt, "there is memory");
    holds(&rt, is_written_at_once(&rt, rt.alloc(), due.as_slice()));
    holds(&rt, due.len() == 1103);
}
