//! Tests of servers of the program `othello`, and of callers that come once they are told where a server listens.
use super::grains::is_served;
use super::served::has_many_sessions;
use super::{audited, memory, typed, written};
use crate::tests::servers::{ASK_2, LAST, Row, SPENT, are_told, are_told_before_last, is_answered};
use crate::tests::{Host, holds};
use commands::{ProgramOutput, Streams};
use line_io::{Sink, WriteFailed};
use std::fs::Files;
use std::net::{Net, TcpListener, TcpStream};
use std::sync::Arc;
use std::sync::atomic::{AtomicBool, Ordering};
use std::test::Fail;
use std::thread::{self, JoinHandle, Threads};

/// Who comes to a server as soon as it says where it listens.
#[derive(Clone, Copy)]
pub(super) enum Caller {
    /// Two sessions, one after the other, in a thread of their own.
    Two,
    /// A session with a job of this line, which ends so.
    Asker(&'static str, &'static str),
    /// Sessions one after another.
    Many,
}

impl Caller {
    /// How many sessions come.
    fn sessions(self) -> usize {
        match self {
            Caller::Two => 2,
            Caller::Asker(..) => 1,
            Caller::Many => 1_000,
        }
    }
}

/// An output that keeps what it is told, and lets a caller come.
#[derive(Drop)]
struct Told<'r, R: Threads> {
    rt: &'r R,
    caller: Caller,
    text: Vec<u8>,
    /// Whether the server has said that it ended.
    is_over: Arc<AtomicBool>,
    /// Whether the caller is content.
    is_content: bool,
    /// The caller, where it has a thread of its own.
    thread: Option<JoinHandle<bool>>,
}

impl<R: Net<Stream = TcpStream> + Host + Files> Told<'_, R> {
    /// Reads a line that the server says. At the one that tells where it listens, the callers come; any other says that
    /// the server has ended.
    fn hear(&mut self, line: &[u8]) {
        let Some(address) = address_in(line) else {
            self.is_over.store(true, Ordering::SeqCst);
            return;
        };
        match self.caller {
            Caller::Two => self.thread = self.visit(address),
            Caller::Asker(ask, end) => self.is_content = is_served(self.rt, address, ask, end),
            Caller::Many => self.is_content = has_many_sessions(self.rt, address),
        }
    }

    /// Starts both sessions at this address.
    fn visit(&self, address: &str) -> Option<JoinHandle<bool>> {
        let one = TcpStream::connect(self.rt, address).ok()?;
        let two = TcpStream::connect(self.rt, address).ok()?;
        let is_over = Arc::try_clone(&self.is_over).ok()?;
        thread::spawn(self.rt, move || are_answered(&one, &two, &is_over)).ok()
    }
}

impl<R: Net<Stream = TcpStream> + Host + Files> Sink for Told<'_, R> {
    ghost takes = { λ _ _ _. Unit {0} };

    /// Hears what the server says, and keeps it.
    fn put(&mut self, bytes: &[u8]) -> Result<usize, WriteFailed> {
        self.hear(bytes);
        match self.text.extend_from_slice(bytes) {
            Ok(()) => Ok(bytes.len()),
            Err(_) => Err(WriteFailed),
        }
    }
}

impl<R: Net<Stream = TcpStream> + Host + Files> ProgramOutput for Told<'_, R> {
    /// Says that somebody still reads the output.
    fn is_closed(&self) -> bool {
        false
    }
}

/// The address in the line that says where a server listens; None in another line.
fn address_in(line: &[u8]) -> Option<&str> {
    let line = str::from_utf8(line).ok()?;
    Some(line.strip_prefix("listening ")?.trim_end())
}

/// Whether a server that these words ask for ends well, has said where it listens and this at the end, its caller is content, and an
/// audit was given all of the caller's sessions, none of which failed.
pub(super) fn is_called<R>(rt: &R, words: &[&str], caller: Caller, end: &[u8]) -> bool
where
    R: Net<Listener = TcpListener, Stream = TcpStream> + Host + Files + Sync,
{
    let told = Told {
        rt,
        caller,
        text: Vec::new(rt.alloc()),
        is_over: Arc::new(rt.alloc(), AtomicBool::new(false)).expect(rt, "a flag"),
        is_content: false,
        thread: None,
    };
    let mut streams = Streams {
        source: typed(b"", false),
        sink: told,
        errors: memory(rt.alloc()),
    };
    let (status, sessions, are_well) = audited(rt, rt.alloc(), words, &mut streams);
    let Streams { sink, errors, .. } = streams;
    let Told {
        text,
        is_content,
        thread,
        ..
    } = sink;
    let is_content = match thread {
        Some(thread) => thread.join(rt),
        None => is_content,
    };
    let text = text.as_slice();
    let has_said = text.starts_with(b"listening 127.0.0.1:") && text.ends_with(end);
    let is_audited = sessions == caller.sessions() && are_well;
    status == 0 && is_content && has_said && is_audited && errors.writer.is_empty()
}

/// What can't be reserved at a server of 8 segments and 1 node.
const BEYOND: [Row; 2] = [("HELLO 9 1\n", "ERR 14\n"), ("HELLO 8 2\n", "ERR 14\n")];

/// What can't be reserved while all is.
const FULL: Row = ("HELLO 1 1\n", "ERR 14\n");

/// A job for which one node doesn't suffice, up to the last line.
const AGAIN: [Row; 3] = [
    ("HELLO 8 1\n", "WELCOME 8 1\n"),
    (ASK_2, "JOB 1\n"),
    ("WAIT 1\n", "SPENT 1\n"),
];

/// Whether the first session is answered as it should be, while the second one can reserve nothing.
fn is_first_answered(one: &TcpStream, two: &TcpStream) -> bool {
    are_told(one, &BEYOND)
        && are_told_before_last(one, &SPENT)
        && is_answered(two, FULL)
        && is_answered(one, LAST)
}

/// Whether two sessions, one after the other, are answered as they should be, and nobody says that the server has
/// ended before their last line.
fn are_answered(one: &TcpStream, two: &TcpStream, is_over: &AtomicBool) -> bool {
    is_first_answered(one, two)
        && are_told(two, &AGAIN)
        && !is_over.load(Ordering::SeqCst)
        && is_answered(two, LAST)
}

/// The words for a server of two sessions with 8 segments and 1 node, at grain 0.
const WORDS: [&str; 10] = [
    "othello",
    "serve",
    "--sessions",
    "2",
    "--grain",
    "0",
    "--segments",
    "8",
    "--nodes",
    "1",
];

/// A server for 2 sessions says where it listens, serves two callers, and says that it has ended after 2.
#[test]
fn a_server_says_where_it_listens_and_serves_as_asked(rt: HostRuntime) {
    let is_content = is_called(&rt, WORDS.as_slice(), Caller::Two, b"\nended 2\n");
    holds(&rt, is_content);
}

/// The status of a server at this port, whether it has said where it listens, and what is said on the errors.
fn served_at<R>(rt: &R, port: &str) -> (u8, Vec<u8>, Vec<u8>)
where
    R: Net<Listener = TcpListener, Stream = TcpStream> + Host + Sync,
{
    let words = ["othello", "serve", "--sessions", "1", "--port", port];
    written(rt, words.as_slice(), typed(b"", false))
}

/// A port that is taken is told on the errors, with exit status 1.
#[test]
fn a_port_that_is_taken_is_told(rt: HostRuntime) -> Result<(), Fail> {
    let taken = TcpListener::bind(&rt, "127.0.0.1:0")?;
    let port = format!(in rt.alloc(); "{}", taken.local_addr()?.port())?;
    let (status, answers, errors) = served_at(&rt, port.as_str());
    let told = format!(in rt.alloc(); "othello: port {port}: ")?;
    holds(&rt, status == 1 && answers.is_empty());
    holds(&rt, errors.as_slice().starts_with(told.as_bytes()));
    Ok(())
}
