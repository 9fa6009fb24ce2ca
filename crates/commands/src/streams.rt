//! The streams of the program `othello`, and what it has to know of them beside their bytes.
use crate::explaining::Explained;
use line_io::{FromReader, FromWriter, Sink, Source};
use std::io::{ErrorKind, IsTerminal, Read, Write};
use std::rt::{HostRuntime, Stderr, Stdin, Stdout};

/// The three streams of a program.
#[derive(Drop)]
pub struct Streams<S, K, E> {
    /// Its input.
    pub source: S,
    /// Its output.
    pub sink: K,
    /// Where it writes all that isn't an answer, help or the version: why it failed, and hints.
    pub errors: E,
}

impl<S: ProgramInput, K, E> Streams<S, Explained<K, E>, E> {
    /// Streams whose output's faults are said in words, on `words`, where the input is a terminal.
    pub fn explained(source: S, sink: K, words: E, errors: E) -> Self {
        let explains = source.is_typed();
        Streams {
            source,
            sink: Explained {
                sink,
                errors: words,
                explains,
            },
            errors,
        }
    }
}

/// The standard output, explained on the standard error.
type StandardOutput = Explained<FromWriter<Stdout>, FromWriter<Stderr>>;

impl Streams<FromReader<Stdin>, StandardOutput, FromWriter<Stderr>> {
    /// The standard streams of the process.
    pub fn standard(rt: &HostRuntime) -> Self {
        Streams::explained(
            FromReader { reader: rt.stdin() },
            FromWriter::new(rt.stdout()),
            FromWriter::new(rt.stderr()),
            FromWriter::new(rt.stderr()),
        )
    }
}

/// An input of the program, which knows whether it is a terminal.
pub trait ProgramInput: Source {
    /// Whether the input is a terminal, at which somebody types.
    fn is_typed(&self) -> bool;
}

impl<R: Read + IsTerminal> ProgramInput for FromReader<R> {
    /// Whether the input is a terminal, at which somebody types.
    fn is_typed(&self) -> bool {
        self.reader.is_terminal()
    }
}

/// An output of the program, which knows whether its reader has closed it.
pub trait ProgramOutput: Sink {
    /// Whether a write has failed because the reader of the output closed it (a broken pipe).
    fn is_closed(&self) -> bool;
}

impl<W: Write> ProgramOutput for FromWriter<W> {
    /// Whether the last write failed because nobody reads any more.
    fn is_closed(&self) -> bool {
        self.failure == Some(ErrorKind::BrokenPipe)
    }
}
