//! For tests of the program: streams that fail by each error that a process can meet, and terminals.
use super::{Broken, LINE, Words, followed, input, memory, status_of, typed, written};
use crate::tests::servers::looked_at::{Nameless, no_address};
use crate::tests::{Host, holds, says, spell};
use commands::{Streams, Unserved};
use line_io::FromWriter;
use std::alloc::AllocError;
use std::io::ErrorKind;
use std::net::{Net, TcpListener, TcpStream};
use tcp_server::ServeFault;

/// Where the output couldn't be written.
const UNWRITTEN: &str = "othello: the output could not be written\n";

/// Where the input couldn't be read.
const UNREAD: &str = "othello: the input could not be read\n";

/// What is said first at a terminal.
const HINT: &str =
    "othello: reading lines `depth position`; `othello solve --help` explains them\n";

const SOLVE: Words = &["othello", "solve"];

const SERVE: Words = &["othello", "serve", "--sessions", "1"];

/// Words, how the input fails, whether it is a terminal, how the output fails, the exit status, and the errors.
type Failing = (Words, Option<ErrorKind>, bool, ErrorKind, u8, &'static str);

const FAILING: [Failing; 11] = [
    (SOLVE, None, false, ErrorKind::BrokenPipe, 1, ""),
    (SOLVE, None, false, ErrorKind::StorageFull, 1, UNWRITTEN),
    (
        SOLVE,
        None,
        false,
        ErrorKind::PermissionDenied,
        1,
        UNWRITTEN,
    ),
    (SOLVE, None, false, ErrorKind::ConnectionReset, 1, UNWRITTEN),
    (SOLVE, None, false, ErrorKind::WriteZero, 1, UNWRITTEN),
    (SOLVE, None, false, ErrorKind::Other, 1, UNWRITTEN),
    (SERVE, None, false, ErrorKind::StorageFull, 1, UNWRITTEN),
    (SERVE, None, false, ErrorKind::BrokenPipe, 1, UNWRITTEN),
    (
        SOLVE,
        Some(ErrorKind::Other),
        false,
        ErrorKind::Other,
        1,
        UNREAD,
    ),
    (SOLVE, None, true, ErrorKind::BrokenPipe, 1, HINT),
    (&["othello", "--help"], None, false, ErrorKind::Other, 0, ""),
];

/// Whether a program whose input and output fail so has this status and says this on its errors.
fn is_told<R>(rt: &R, failing: &Failing) -> bool
where
    R: Net<Listener = TcpListener, Stream = TcpStream> + Host + Sync,
{
    let (words, failure, is_terminal, broken, status, said) = *failing;
    let source = input(LINE, failure, is_terminal);
    let sink = FromWriter::new(Broken(broken));
    let (found, _sink, errors) = followed(rt, rt.alloc(), words, source, sink);
    found == status && spell(&errors, said)
}

/// Of `othello` with a failing output: only a reader that closed it leaves nothing to say; each other error of an
/// output is told, once, and so is a failed read before it.
#[test]
fn each_error_of_an_output(rt: HostRuntime) {
    for failing in &FAILING {
        assert!(rt; is_told(&rt, failing), "{failing:?}");
    }
}

/// The status of words that are refused where that can't be said.
fn refused_in_silence<R>(rt: &R) -> u8
where
    R: Net<Listener = TcpListener, Stream = TcpStream> + Host + Sync,
{
    let mut streams = Streams {
        source: typed(LINE, false),
        sink: FromWriter::new(Broken(ErrorKind::Other)),
        errors: FromWriter::new(Broken(ErrorKind::Other)),
    };
    status_of(rt, rt.alloc(), &["othello", "solved"], &mut streams)
}

/// Words that are refused, where the errors can't be written, still give exit status 2.
#[test]
fn refused_words_that_cannot_be_explained(rt: HostRuntime) {
    holds(&rt, refused_in_silence(&rt) == 2);
}

/// Whether the input is a terminal, how it fails, the exit status, and the errors.
type Reading = (bool, Option<ErrorKind>, u8, &'static str);

const READINGS: [Reading; 4] = [
    (false, None, 0, ""),
    (true, None, 0, HINT),
    (false, Some(ErrorKind::IsADirectory), 1, UNREAD),
    (false, Some(ErrorKind::BrokenPipe), 1, UNREAD),
];

/// Whether a program with this input has this status, says this on its errors, and answers where it could read.
fn is_read<R>(rt: &R, reading: &Reading) -> bool
where
    R: Net<Listener = TcpListener, Stream = TcpStream> + Host + Sync,
{
    let (is_terminal, failure, status, said) = *reading;
    let (found, answers, errors) = written(rt, SOLVE, input(LINE, failure, is_terminal));
    found == status && spell(&errors, said) && answers.is_empty() == failure.is_some()
}

/// Of `othello` with each kind of input: at a terminal a hint comes first; a failed read is told, and isn't the end.
#[test]
fn each_input(rt: HostRuntime) {
    for reading in &READINGS {
        assert!(rt; is_read(&rt, reading), "{reading:?}");
    }
}

/// For each fault of a server: what the program says of it.
#[test]
fn faults_of_the_program_are_told(rt: HostRuntime) {
    let alloc = rt.alloc();
    let unwritten = Unserved::Unwritten;
    let unsaid = Unserved::from(ServeFault::Unsaid);
    let refused = Unserved::from(AllocError);
    let no_memory = Unserved::from(ServeFault::OutOfMemory);
    let no_thread = Unserved::from(ServeFault::NoThread);
    let no_output = "the output could not be written";
    holds(&rt, says(alloc, refused, "no memory for the segments"));
    holds(&rt, says(alloc, unwritten, no_output));
    holds(&rt, says(alloc, unsaid, no_output));
    holds(&rt, says(alloc, no_memory, "no memory for the workers"));
    holds(&rt, says(alloc, no_thread, "no thread for a worker"));
}

/// The status of a server whose listener has no address, what it says, and what on the errors.
fn unnamed<R>(rt: &R) -> (u8, Vec<u8>, Vec<u8>)
where
    R: Net<Listener = TcpListener, Stream = TcpStream> + Host + Sync,
{
    let nameless = Nameless { rt };
    let alloc = rt.alloc();
    let (status, sink, errors) = followed(
        &nameless,
        alloc,
        SERVE,
        typed(LINE, false),
        memory(alloc),
    );
    (status, sink.writer, errors)
}

/// Where a listener tells no address, the program says why on the errors, and not that anything couldn't be written;
/// exit status 1.
#[test]
fn an_address_that_cannot_be_had_is_told(rt: HostRuntime) {
    let (status, answers, errors) = unnamed(&rt);
    let error = no_address();
    match format!(in rt.alloc(); "othello: {error}\n") {
        Ok(told) => holds(&rt, spell(&errors, told.as_str())),
        Err(_) => panic!(rt; "no memory"),
    }
    holds(&rt, status == 1 && answers.is_empty());
}
