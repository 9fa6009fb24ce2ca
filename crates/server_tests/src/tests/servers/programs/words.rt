//! For tests of the program: words of the command line, how they are read, and what is said of those that are refused.
use super::{Words, memory};
use crate::tests::{holds, spell};
use commands::command_line::{Options, WordsFault};
use commands::words_of;
use std::alloc::Global;
use std::io::{Error, ErrorKind};
use std::string::String;

/// Reads words. It says nothing of what `Options::read` promises, so that a call is cheap to prove.
fn read(alloc: Global, words: &[&str]) -> Result<Options, WordsFault> {
    Options::read(alloc, words)
}

/// Whether these words of a command line ask for these options.
fn ask_for(alloc: Global, words: &[&str], wanted: Options) -> bool {
    matches!(read(alloc, words), Ok(options) if options == wanted)
}

/// The words of `solve` and `serve` are read as the options that they give.
#[test]
fn words_are_read(rt: HostRuntime) {
    let solve = Options::Solve {
        grain: 2,
        visited: true,
    };
    let words = ["othello", "solve", "--visited"];
    holds(&rt, ask_for(rt.alloc(), words.as_slice(), solve));
    let words = ["othello", "solve", "--ordered"];
    holds(
        &rt,
        ask_for(rt.alloc(), words.as_slice(), Options::SolveOrdered),
    );
    let serve = Options::Serve {
        sessions: 2,
        port: 80,
        workers: 4,
        segments: 4096,
        nodes: 65536,
        grain: 2,
    };
    let words = ["othello", "serve", "--sessions", "2", "--port=80"];
    holds(&rt, ask_for(rt.alloc(), words.as_slice(), serve));
}

/// Words that are refused, the exit status, how the text begins, and what stands in it.
type Refused = (Words, u8, &'static str, &'static str);

const REFUSED: [Refused; 6] = [
    (
        &["othello", "solve", "--grain", "7"],
        2,
        "error: --grain takes a number from 0 to 6\n",
        "Usage: othello solve [OPTIONS]",
    ),
    (
        &["othello", "solve", "--ordered", "--grain", "2"],
        2,
        "error: --ordered stands without --grain and --visited\n",
        "Usage: othello solve [OPTIONS]",
    ),
    (
        &["othello", "solve", "--visited", "--ordered"],
        2,
        "error: --ordered stands without --grain and --visited\n",
        "Usage: othello solve [OPTIONS]",
    ),
    (
        &["othello", "serve", "--sessions", "x"],
        2,
        "error: --sessions takes a number from 1 to 1000\n",
        "Usage: othello serve [OPTIONS] --sessions <k>",
    ),
    (
        &["othello", "serve"],
        2,
        "error: the following required arguments were not provided:\n  --sessions <k>\n",
        "Usage: othello serve --sessions <k>",
    ),
    (
        &["othello", "serve", "--help"],
        0,
        "serves sessions of many tenants",
        "Usage: othello serve [OPTIONS] --sessions <k>",
    ),
];

/// The text of a refusal; None where memory was wanting.
fn text_of(alloc: Global, fault: WordsFault) -> Option<String> {
    match fault {
        WordsFault::Refused(error) => format!(in alloc; "{error}").ok(),
        _ => None,
    }
}

/// Whether the text of a refusal begins so, and has this line of usage in it.
fn tells(text: &str, beginning: &str, usage: &str) -> bool {
    text.starts_with(beginning) && text.contains(usage)
}

/// Whether this command line is refused with this exit status and this text.
fn are_refused(alloc: Global, refused: &Refused) -> bool {
    let (words, status, beginning, usage) = *refused;
    let Err(fault) = read(alloc, words) else {
        return false;
    };
    let is_of_status = fault.status() == status;
    match text_of(alloc, fault) {
        Some(text) => is_of_status && tells(text.as_str(), beginning, usage),
        None => false,
    }
}

/// For each command line that is refused: the exit status, and the text that is told.
#[test]
fn refusals_are_told(rt: HostRuntime) {
    for refused in &REFUSED {
        assert!(rt; are_refused(rt.alloc(), refused), "{:?}", refused.0);
    }
}

/// Whether the program ends with this exit status, and says this, where the words of its command line can't be had for
/// this reason.
fn are_lost(alloc: Global, kind: ErrorKind, status: u8, said: &str) -> bool {
    let mut errors = memory(alloc);
    match words_of(alloc, Err(Error::from(kind)), &mut errors) {
        Err(found) => found == status && spell(&errors.writer, said),
        Ok(_) => false,
    }
}

/// A word that is no text in UTF-8 is told with status 2, and missing memory with status 1.
#[test]
fn words_that_are_no_text_are_refused(rt: HostRuntime) {
    let alloc = rt.alloc();
    let no_text = "othello: a word of the command line is no text in UTF-8\n";
    holds(&rt, are_lost(alloc, ErrorKind::InvalidData, 2, no_text));
    let no_memory = "othello: no memory to read the command line\n";
    holds(&rt, are_lost(alloc, ErrorKind::OutOfMemory, 1, no_memory));
}
