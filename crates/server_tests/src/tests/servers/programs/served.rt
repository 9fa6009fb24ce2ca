//! For tests of the program: a server as its system and those who come to it see it.
use super::clients::{Caller, is_called};
use crate::tests::servers::{LAST, is_answered, is_closed};
use crate::tests::{Host, holds};
use std::alloc::Global;
use std::fs::{self, Files};
use std::net::{Net, TcpStream};
use std::string::String;

/// How many sessions there are, one after another.
const SESSIONS: u32 = 1_000;

/// Whether a line of what the system says of a process tells this count of threads.
fn tells_threads(line: &str, count: &str) -> bool {
    match line.strip_prefix("Threads:") {
        Some(told) => told.trim() == count,
        None => false,
    }
}

/// Whether any line of what the system says of a process tells this count of threads.
fn has_line_of_threads(text: &str, count: &str) -> bool {
    for line in text.lines() {
        if tells_threads(line, count) {
            return true;
        }
    }
    false
}

/// Whether the process has so many threads, as the system says.
fn has_threads<R: AllocGlobal + Files>(rt: &R, count: &str) -> bool {
    match fs::read_to_string(rt, "/proc/self/status") {
        Ok(text) => has_line_of_threads(text.as_str(), count),
        Err(_) => false,
    }
}

/// Whether the process has seven threads, nobody listens at another address, and all sessions are answered at this one.
pub(super) fn has_many_sessions<R: Net<Stream = TcpStream> + Host + Files>(
    rt: &R,
    address: &str,
) -> bool {
    let is_so = has_threads(rt, "7") && !is_elsewhere(rt, address);
    for _ in 0..SESSIONS {
        holds(rt, is_visited(rt, address));
    }
    is_so
}

/// The same port at another address of this machine; None where this address isn't at 127.0.0.1.
fn other_of(alloc: Global, address: &str) -> Option<String> {
    let port = address.strip_prefix("127.0.0.1:")?;
    format!(in alloc; "127.0.0.2:{port}").ok()
}

/// Whether somebody listens at the port of this address elsewhere than at 127.0.0.1.
fn is_elsewhere<R: Net<Stream = TcpStream> + Host>(rt: &R, address: &str) -> bool {
    match other_of(rt.alloc(), address) {
        Some(other) => TcpStream::connect(rt, other.as_str()).is_ok(),
        None => true,
    }
}

/// Whether a session of one line is answered and ends.
fn is_visited<R: Net<Stream = TcpStream> + Host>(rt: &R, address: &str) -> bool {
    match TcpStream::connect(rt, address) {
        Ok(stream) => is_answered(&stream, LAST) && is_closed(&stream),
        Err(_) => false,
    }
}

/// The words for a server of a thousand sessions and five workers.
const WORDS: [&str; 6] = ["othello", "serve", "--sessions", "1000", "--workers", "5"];

/// When a server of five workers says where it listens, its process has a thread for each of them, one that takes the
/// connections, and its own. It listens at 127.0.0.1 alone, and takes a thousand sessions.
#[test]
fn a_thousand_sessions_and_five_workers(rt: HostRuntime) {
    let is_content = is_called(&rt, WORDS.as_slice(), Caller::Many, b"\nended 1000\n");
    holds(&rt, is_content);
}
