//! Tests of the grain that a server is asked for: jobs for which its nodes suffice at one grain alone.
use super::clients::{Caller, is_called};
use crate::tests::Host;
use crate::tests::servers::{ASK_3, ASK_7, LAST, are_told};
use std::fs::Files;
use std::net::{Net, TcpListener, TcpStream};

/// A grain, the line of a job, and how that ends. To depth 3 from grain 2 on the opening is a root, its first child, and three more that
/// are tested and searched again at most: eight nodes. Where children have children of their own they are many more.
type Case = (&'static str, &'static str, &'static str);

const CASES: [Case; 7] = [
    ("0", ASK_3, "SPENT 1\n"),
    ("1", ASK_3, "SPENT 1\n"),
    ("2", ASK_3, "DONE 1 9 d3\n"),
    ("3", ASK_3, "DONE 1 9 d3\n"),
    ("2", ASK_7, "SPENT 1\n"),
    ("5", ASK_7, "SPENT 1\n"),
    ("6", ASK_7, "DONE 1 6 d3\n"),
];

/// Whether a session with one job is answered as it should be at this address.
pub(super) fn is_served<R: Net<Stream = TcpStream> + Host>(
    rt: &R,
    address: &str,
    ask: &'static str,
    end: &'static str,
) -> bool {
    let welcome = ("HELLO 64 8\n", "WELCOME 64 8\n");
    let rows = [welcome, (ask, "JOB 1\n"), ("WAIT 1\n", end), LAST];
    match TcpStream::connect(rt, address) {
        Ok(stream) => are_told(&stream, &rows),
        Err(_) => false,
    }
}

/// The words for a server of eight nodes, the last of which is its grain.
const WORDS: [&str; 10] = [
    "othello",
    "serve",
    "--sessions",
    "1",
    "--segments",
    "64",
    "--nodes",
    "8",
    "--grain",
    "0",
];

/// Whether a server of eight nodes has the grain that it is asked for.
fn has_grain<R>(rt: &R, case: &Case) -> bool
where
    R: Net<Listener = TcpListener, Stream = TcpStream> + Host + Files + Sync,
{
    let (grain, ask, end) = *case;
    let mut words = WORDS;
    words[WORDS.len() - 1] = grain;
    let asker = Caller::Asker(ask, end);
    is_called(rt, words.as_slice(), asker, b"\nended 1\n")
}

/// Of a server's jobs with eight nodes: they suffice for depth 3 from grain 2 on, and for depth 7 at grain 6, but not
/// at the lower grains that are tried.
#[test]
fn a_server_has_the_grain_that_is_asked(rt: HostRuntime) {
    for case in &CASES {
        assert!(rt; has_grain(&rt, case), "{case:?}");
    }
}
