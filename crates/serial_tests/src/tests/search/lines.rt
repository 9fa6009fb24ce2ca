//! Tests of what no contract says of lines and their answers: that input is read in blocks, that an error is answered
//! at once, and that an answer is written before more is read.
use super::{given, holds, holds_at};
use arrayvec::ArrayVec;
use line_io::{
    FromReader, FromWriter, Line, LineAnswerer, ReadFailed, Sink, Source, WriteFailed, answer_lines,
};
use std::alloc::Global;
use std::cell::Cell;
use std::io::{self, ErrorKind, Read, Write};

/// Answers a line by itself, where it has fewer than 16 bytes, and else by nothing.
#[derive(Drop)]
struct Echo {
    text: ArrayVec<u8, 16>,
}

impl Echo {
    /// An answerer without a text yet.
    fn new() -> Echo {
        Echo {
            text: ArrayVec::new(),
        }
    }
}

impl LineAnswerer for Echo {
    ghost answers = { λ _ _ _ _. Unit {0} };

    ghost kept = { λ echo. echo.text.items };

    /// The answer to a line of fewer than 16 bytes is the line, and to any other nothing; LF ends both.
    fn answer(&mut self, line: Line<'_>) {
        self.text.clear();
        if let Line::Whole(bytes) = line
            && bytes.len() < 16
        {
            self.text.try_extend_from_slice(bytes).unwrap();
        }
        self.text.push(b'\n');
    }

    /// The text of the last answer.
    fn text(&self) -> &[u8] {
        self.text.as_slice()
    }
}

/// Whether all lines of the source are echoed on the sink.
fn echoes<S: Source, K: Sink>(source: &mut S, sink: &mut K) -> bool {
    answer_lines(source, sink, &mut Echo::new()).is_ok()
}

/// Whether these bytes are answered by those.
fn is_echoed(alloc: Global, bytes: &[u8], answers: &[u8]) -> bool {
    let mut source = FromReader { reader: bytes };
    let mut sink = FromWriter::new(Vec::new(alloc));
    echoes(&mut source, &mut sink) && sink.writer.as_slice() == answers
}

/// Two lines, the first ended by CR and LF, the last by nothing, are echoed with LF.
#[test]
fn lines_are_echoed(rt: HostRuntime) {
    holds(&rt, is_echoed(rt.alloc(), b"one\r\ntwo", b"one\ntwo\n"));
}

/// A reader and writer that fails a few times by an error, and then gives and takes all. It counts its calls, and
/// keeps how many bytes the last one had room for or offered.
#[derive(Drop)]
struct Failing {
    error: ErrorKind,
    failures: u32,
    calls: u32,
    bytes: usize,
}

impl Failing {
    /// A stream whose first calls fail so many times by this error.
    fn new(error: ErrorKind, failures: u32) -> Failing {
        Failing {
            error,
            failures,
            calls: 0,
            bytes: 0,
        }
    }

    /// One call of the stream for so many bytes: it fails as long as failures are left.
    fn call(&mut self, bytes: usize) -> io::Result<usize> {
        self.calls = self.calls.saturating_add(1);
        self.bytes = bytes;
        if self.failures == 0 {
            return Ok(bytes);
        }
        self.failures -= 1;
        Err(io::Error::from(self.error))
    }
}

impl Read for Failing {
    /// Reads so many bytes as the block has, or fails.
    fn read(&mut self, buf: &mut [u8]) -> io::Result<usize> {
        let count = self.call(buf.len())?;
        Ok(count.min(buf.len()))
    }
}

impl Write for Failing {
    /// Takes all bytes, or fails.
    fn write(&mut self, buf: &[u8]) -> io::Result<usize> {
        let count = self.call(buf.len())?;
        Ok(count.min(buf.len()))
    }

    /// Does nothing, as nothing is kept back.
    fn flush(&mut self) -> io::Result<()> {
        Ok(())
    }
}

/// An error, how often it comes, after how many calls a read or a write is over, and whether it fails.
type Failure = (ErrorKind, u32, u32, bool);

const FAILURES: [Failure; 5] = [
    (ErrorKind::ConnectionReset, 0, 1, false),
    (ErrorKind::Interrupted, 2, 3, false),
    (ErrorKind::ConnectionReset, 1, 1, true),
    (ErrorKind::Interrupted, 65_535, 65_536, false),
    (ErrorKind::Interrupted, 65_536, 65_536, true),
];

/// Whether a reader or writer was called so often, the last time with so many bytes.
fn is_called(failing: &Failing, calls: u32, bytes: usize) -> bool {
    failing.calls == calls && failing.bytes == bytes
}

/// Whether a read of a whole block fails so.
fn is_read(failure: &Failure) -> bool {
    let (error, failures, calls, fails) = *failure;
    let mut block = [0u8; 4096];
    let mut source = FromReader {
        reader: Failing::new(error, failures),
    };
    source.fill(&mut block).is_err() == fails && is_called(&source.reader, calls, 4096)
}

/// Whether a write of a hundred bytes fails so, and the error is kept.
fn is_written(failure: &Failure) -> bool {
    let (error, failures, calls, fails) = *failure;
    let mut sink = FromWriter::new(Failing::new(error, failures));
    let kept = if fails { Some(error) } else { None };
    sink.put([b'a'; 100].as_slice()).is_err() == fails
        && sink.failure == kept
        && is_called(&sink.writer, calls, 100)
}

/// A read asks for a whole block of 4,096 bytes and a write offers all 100; each error ends it at once, but an
/// interruption is tried again, up to 65,535 times.
#[test]
fn whole_blocks_are_read_and_written_and_errors_answered_at_once(rt: HostRuntime) {
    let mut case = 0usize;
    for failure in &FAILURES {
        holds_at(&rt, case, is_read(failure) && is_written(failure));
        case = case.saturating_add(1);
    }
}

/// What the two ends know of each other.
#[derive(Drop)]
pub struct Ear {
    asked: Cell<usize>,
    answered: Cell<usize>,
    too_early: Cell<bool>,
}

impl Ear {
    /// Nothing was asked and nothing answered yet.
    pub fn new() -> Ear {
        Ear {
            asked: Cell::new(0),
            answered: Cell::new(0),
            too_early: Cell::new(false),
        }
    }

    /// Whether so many lines were asked for and answered, none of them too early.
    pub fn has_heard(&self, lines: usize) -> bool {
        self.asked.get() == lines && self.answered.get() == lines && !self.too_early.get()
    }
}

/// Gives one line a call, and notes where it is asked before the last answer was written, or has no room for a
/// block.
#[derive(Drop)]
pub struct Asking<'a> {
    pub ear: &'a Ear,
    pub lines: &'a [&'a [u8]],
}

impl Source for Asking<'_> {
    ghost gives = { λ _ _ _. Unit {0} };

    /// Gives the next line, and notes it as too early where the line before has no answer yet.
    fn fill(&mut self, block: &mut [u8]) -> Result<usize, ReadFailed> {
        let asked = self.ear.asked.get();
        if self.ear.answered.get() != asked || block.len() < 4096 {
            self.ear.too_early.set(true);
        }
        let lines = self.lines;
        match lines.get(asked) {
            Some(line) => {
                self.ear.asked.set(asked.saturating_add(1));
                Ok(given(block, line))
            }
            None => Ok(0),
        }
    }
}

/// Counts the answers, of which each has to come by one call.
#[derive(Drop)]
pub struct Hearing<'a>(pub &'a Ear);

impl Sink for Hearing<'_> {
    ghost takes = { λ _ _ _. Unit {0} };

    /// Hears an answer, which must end with LF.
    fn put(&mut self, bytes: &[u8]) -> Result<usize, WriteFailed> {
        if bytes.last() != Some(&b'\n') {
            return Err(WriteFailed);
        }
        self.0.answered.set(self.0.answered.get().saturating_add(1));
        Ok(bytes.len())
    }
}

/// Three lines.
const THREE: [&[u8]; 3] = [b"one\n", b"two\n", b"six\n"];

/// Whether all of three lines are answered, each before more is read.
fn is_heard_to_its_end() -> bool {
    let ear = Ear::new();
    let mut source = Asking {
        ear: &ear,
        lines: THREE.as_slice(),
    };
    echoes(&mut source, &mut Hearing(&ear)) && ear.has_heard(3)
}

/// Each line's answer is heard before the next line is read.
#[test]
fn each_answer_is_written_before_more_is_read(rt: HostRuntime) {
    holds(&rt, is_heard_to_its_end());
}
