//! Tests of the program `othello`: what the words of the command line ask for, the exit statuses, and where each text
//! goes.
mod clients;
mod grains;
mod served;
mod streams;
mod words;

use super::{Host, holds};
use crate::tests::spell;
use commands::{Audit, Explained, ProgramInput, ProgramOutput, Streams, Unaudited, run};
use line_io::{FromReader, FromWriter, Sink};
use std::alloc::Global;
use std::io::{self, Error, ErrorKind, IsTerminal, Read, Write};
use std::net::{Net, TcpListener, TcpStream};
use std::sync::Wait;
use std::sync::ledger::Share;
use std::thread::Threads;
use tcp_server::Passed;
use tcp_server::desk::{DeskLedger, Hall};

/// The opening two plies deep.
const LINE: &[u8] = b"2 ---------------------------OX------XO--------------------------- X\n";

/// What writes into memory.
type Memory = FromWriter<Vec<u8>>;

/// A writer that keeps in memory what is written.
fn memory(alloc: Global) -> Memory {
    FromWriter::new(Vec::new(alloc))
}

/// Gives its bytes at once and then ends, or fails so.
#[derive(Drop)]
struct Keys {
    bytes: &'static [u8],
    failure: Option<ErrorKind>,
    is_terminal: bool,
}

impl Read for Keys {
    /// Gives the next bytes that were typed, or fails by the error.
    fn read(&mut self, block: &mut [u8]) -> io::Result<usize> {
        if let Some(kind) = self.failure {
            return Err(Error::from(kind));
        }
        let bytes = self.bytes;
        let count = bytes.len().min(block.len());
        block[..count].copy_from_slice(&bytes[..count]);
        self.bytes = &bytes[count..];
        Ok(count)
    }
}

impl IsTerminal for Keys {
    /// Whether these bytes are typed at a terminal, as the test says.
    fn is_terminal(&self) -> bool {
        self.is_terminal
    }
}

/// An input that gives these bytes or fails so, at a terminal or not.
fn input(bytes: &'static [u8], failure: Option<ErrorKind>, is_terminal: bool) -> FromReader<Keys> {
    FromReader {
        reader: Keys {
            bytes,
            failure,
            is_terminal,
        },
    }
}

/// An input that gives these bytes, at a terminal or not.
fn typed(bytes: &'static [u8], is_terminal: bool) -> FromReader<Keys> {
    input(bytes, None, is_terminal)
}

/// Takes nothing, and fails so.
#[derive(Drop)]
struct Broken(ErrorKind);

impl Write for Broken {
    /// Fails by the error that the test chose.
    fn write(&mut self, _bytes: &[u8]) -> io::Result<usize> {
        Err(Error::from(self.0))
    }

    /// Does nothing, as nothing is kept back.
    fn flush(&mut self) -> io::Result<()> {
        Ok(())
    }
}

/// An audit that counts the sessions that it is given, and is told of which desk they are.
#[derive(Drop)]
struct Counting {
    sessions: usize,
    /// Whether none of them failed.
    are_well: bool,
}

impl Audit for Counting {
    ghost use Rattle.std.specs.Prelude.{◌≡◌, length};
    ghost use Rattle.tcp_server.specs.Connections.{IsLeftBy};

    ghost given = { λ _ begun hall sessions after. IsLeftBy begun hall sessions × (after.sessions ≡ length sessions) };

    /// Counts the sessions.
    fn give<L: DeskLedger>(&mut self, _hall: Hall, _whole: Share<L>, sessions: Vec<Passed<L>>) {
        self.sessions = sessions.len();
        self.are_well = are_well(&sessions);
    }
}

/// Whether none of these sessions failed.
fn are_well<L: DeskLedger>(sessions: &[Passed<L>]) -> bool {
    for passed in sessions {
        if passed.ended().is_err() {
            return false;
        }
    }
    true
}

/// Does what the words ask for: the exit status, how many sessions an audit was given, and whether none of them failed.
fn audited<S: ProgramInput, K: ProgramOutput, E: Sink, R>(
    rt: &R,
    alloc: Global,
    words: &[&str],
    streams: &mut Streams<S, K, E>,
) -> (u8, usize, bool)
where
    R: Net<Stream = TcpStream> + Threads + Wait + Sync,
    R::Listener: Send,
{
    let mut counting = Counting {
        sessions: 0,
        are_well: false,
    };
    let status = run(rt, alloc, words, streams, &mut counting);
    (status, counting.sessions, counting.are_well)
}

/// Does what the words ask for: the exit status. It says nothing of what `run` promises, so that a call is cheap to prove.
fn status_of<S: ProgramInput, K: ProgramOutput, E: Sink, R>(
    rt: &R,
    alloc: Global,
    words: &[&str],
    streams: &mut Streams<S, K, E>,
) -> u8
where
    R: Net<Stream = TcpStream> + Threads + Wait + Sync,
    R::Listener: Send,
{
    run(rt, alloc, words, streams, &mut Unaudited)
}

/// The exit status with these streams, the output then, and what was said on the errors.
fn ended<S: ProgramInput + Drop, K: ProgramOutput, R>(
    rt: &R,
    alloc: Global,
    words: &[&str],
    mut streams: Streams<S, K, Memory>,
) -> (u8, K, Vec<u8>)
where
    R: Net<Stream = TcpStream> + Threads + Wait + Sync,
    R::Listener: Send,
{
    let status = status_of(rt, alloc, words, &mut streams);
    let Streams { sink, errors, .. } = streams;
    (status, sink, errors.writer)
}

/// What comes of a command line with this input and this output: the exit status, the output and what is said on the
/// errors.
fn followed<S: ProgramInput + Drop, K: ProgramOutput, R>(
    rt: &R,
    alloc: Global,
    words: &[&str],
    source: S,
    sink: K,
) -> (u8, K, Vec<u8>)
where
    R: Net<Stream = TcpStream> + Threads + Wait + Sync,
    R::Listener: Send,
{
    let errors = memory(alloc);
    let streams = Streams {
        source,
        sink,
        errors,
    };
    ended(rt, alloc, words, streams)
}

/// The exit status with this input, and what was written on the output and on the errors.
fn written<R>(rt: &R, words: &[&str], source: FromReader<Keys>) -> (u8, Vec<u8>, Vec<u8>)
where
    R: Net<Listener = TcpListener, Stream = TcpStream> + Host + Sync,
{
    let alloc = rt.alloc();
    let (status, sink, errors) = followed(rt, alloc, words, source, memory(alloc));
    (status, sink.writer, errors)
}

/// Whether a text begins so, and is empty where that is.
fn begins(text: &[u8], beginning: &str) -> bool {
    text.starts_with(beginning.as_bytes()) && text.is_empty() == beginning.is_empty()
}

/// Words of a command line.
type Words = &'static [&'static str];

/// Words, the exit status with the line of the opening as input, and how the output and the errors begin.
type Text = (Words, u8, &'static str, &'static str);

const TEXTS: [Text; 13] = [
    (&["othello", "solve", "--"], 0, "-4 d3\n", ""),
    (&["othello", "solve", "--grain", "0"], 0, "-4 d3\n", ""),
    (&["othello", "solve", "--visited"], 0, "-4 d3 15\n", ""),
    (&["othello", "solve", "--ordered"], 0, "-4 d3\n", ""),
    (&["othello", "--version"], 0, "othello 1.0.0\n", ""),
    (
        &["othello", "--help"],
        0,
        "Othello analysis: the minimax value",
        "",
    ),
    (
        &["othello", "solve", "-h"],
        0,
        "answers lines `depth position`",
        "",
    ),
    (&["othello"], 2, "", "error: "),
    (&["othello", "--visited"], 2, "", "error: "),
    (&["othello", "solved"], 2, "", "error: "),
    (&["othello", "solve", "--fast"], 2, "", "error: "),
    (&["othello", "serve"], 2, "", "error: "),
    (&["othello", "serve", "--help"], 0, "serves sessions", ""),
];

/// Whether words have this status and these texts.
fn have_texts<R>(rt: &R, text: &Text) -> bool
where
    R: Net<Listener = TcpListener, Stream = TcpStream> + Host + Sync,
{
    let (words, status, output, error) = *text;
    let (found, answers, errors) = written(rt, words, typed(LINE, false));
    found == status && begins(&answers, output) && begins(&errors, error)
}

/// For each command line: what is written to the output and to the errors, and the exit status.
#[test]
fn each_text_has_its_place_and_status(rt: HostRuntime) {
    for text in &TEXTS {
        assert!(rt; have_texts(&rt, text), "{:?}", text.0);
    }
}

/// Lines with each fault that a line of `solve` can have by itself, and one that has none.
const FAULTY: &[u8] = b"x
000000000000000000000000000000000000000000000000000000000000000000000000000000000000000000000000000000000000000000000000000000000
2 ---------------------------OX------XO--------------------------- X
one ---------------------------OX------XO--------------------------- X
2 ---------------------------OX
2 ---------------------------OX------XO--------------------------Q X
2 ---------------------------OX------XO--------------------------- Z
13 ---------------------------OX------XO--------------------------- X
";

/// The answers to them.
const NUMBERS: &str = "ERR 21
ERR 22
-4 d3
ERR 23
ERR 24
ERR 25
ERR 26
ERR 27
";

/// What is said of them at a terminal, behind the line of hints.
const IN_WORDS: &str = "othello: no such command
othello: the line is too long
othello: not a number within the limits
othello: the position hasn't 66 bytes
othello: a byte of the position spells no cell
othello: no space and side after the cells
othello: the depth is over 12
";

/// Whether the input is a terminal, the words, and what is said of the faults.
type Explaining = (bool, Words, &'static str);

const EXPLAINING: [Explaining; 5] = [
    (false, &["othello", "solve"], ""),
    (false, &["othello", "solve", "--visited"], ""),
    (true, &["othello", "solve"], IN_WORDS),
    (true, &["othello", "solve", "--visited"], IN_WORDS),
    (true, &["othello", "solve", "--ordered"], IN_WORDS),
];

/// Whether faults are said in words at a terminal, behind the line of hints, and nowhere else.
fn is_explained<R>(rt: &R, explaining: &Explaining) -> bool
where
    R: Net<Listener = TcpListener, Stream = TcpStream> + Host + Sync,
{
    let (is_terminal, words, said) = *explaining;
    let alloc = rt.alloc();
    let source = typed(FAULTY, is_terminal);
    let streams = Streams::explained(source, memory(alloc), memory(alloc), memory(alloc));
    let (status, sink, errors) = ended(rt, alloc, words, streams);
    status == 0
        && spell(&sink.errors.writer, said)
        && errors.is_empty() != is_terminal
        && (words.len() > 2 || spell(&sink.sink.writer, NUMBERS))
}

/// At a terminal each answer that is a fault is explained in words; else none is.
#[test]
fn faults_are_said_in_words_at_a_terminal(rt: HostRuntime) {
    for explaining in &EXPLAINING {
        assert!(rt; is_explained(&rt, explaining), "{explaining:?}");
    }
}

/// Answers, and what is said of them.
const ANSWERS: [(&str, &str); 9] = [
    ("ERR 19\n", "othello: out of memory\n"),
    ("ERR 27\n", "othello: the depth is over 12\n"),
    ("ERR 27", ""),
    ("ERR 7\n", ""),
    ("ERR 99\n", ""),
    ("ERR 2:\n", ""),
    ("ERR 227\n", ""),
    ("-4 d3\n", ""),
    ("0 -\n", ""),
];

/// An output that is explained in memory.
fn explained<K>(alloc: Global, sink: K) -> Explained<K, Memory> {
    Explained {
        sink,
        errors: memory(alloc),
        explains: true,
    }
}

/// Writes an answer, which isn't empty, and tells whether it was taken as a whole.
fn is_taken<K: Sink>(sink: &mut K, answer: &str) -> bool {
    let bytes = answer.as_bytes();
    if bytes.is_empty() {
        return false;
    }
    matches!(sink.put(bytes), Ok(count) if count == bytes.len())
}

/// Whether the program says this on the errors of an answer that is taken by the output.
fn is_said_of(alloc: Global, answer: &str, said: &str) -> bool {
    let mut sink = explained(alloc, memory(alloc));
    is_taken(&mut sink, answer)
        && spell(&sink.sink.writer, answer)
        && spell(&sink.errors.writer, said)
}

/// Whether nothing is said of an answer that nobody got.
fn is_lost_in_silence(alloc: Global) -> bool {
    let broken = FromWriter::new(Broken(ErrorKind::BrokenPipe));
    let mut sink = explained(alloc, broken);
    !is_taken(&mut sink, "ERR 27\n") && sink.is_closed() && sink.errors.writer.is_empty()
}

/// Of answers, faults alone are explained; and nothing is said of an answer that nobody got, since the output was
/// closed.
#[test]
fn only_faults_are_said_in_words(rt: HostRuntime) {
    for (answer, said) in &ANSWERS {
        assert!(rt; is_said_of(rt.alloc(), answer, said), "{answer:?}");
    }
    holds(&rt, is_lost_in_silence(rt.alloc()));
}
