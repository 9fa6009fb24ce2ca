//! `othello`: answers Othello positions with their minimax value and the first move that attains it.
//!
//! `othello solve` reads lines `depth position` and writes for each a line `value move`, as soon as the line is
//! complete. `othello serve` serves sessions of many tenants over TCP. What is done with the words of the command line
//! and the streams is `run` of `commands`, whose contract says what is written of what is read.
//!
//! ```text
//! $ printf '1 ---------------------------OX------XO--------------------------- X\n' | othello solve
//! -3 d3
//! $ othello serve --sessions 2 --port 4711
//! listening 127.0.0.1:4711
//! ended 2
//! ```
#![tactic(auto)]

use commands::{Streams, Unaudited, run, words_of};
use std::env;
use std::process::ExitCode;

/// Runs the program by the words that it was started with, over the standard streams.
fn main(rt: HostRuntime) -> ExitCode {
    let mut streams = Streams::standard(&rt);
    let status = match words_of(rt.alloc(), env::args(&rt), &mut streams.errors) {
        Ok(words) => run(
            &rt,
            rt.alloc(),
            words.as_slice(),
            &mut streams,
            &mut Unaudited,
        ),
        Err(status) => status,
    };
    ExitCode::from(status)
}
