//! The commands of `othello`, over any streams: all that the program does with the words of its command line.
//!
//! The words are read by `command_line`; the lines of `solve` are the work of `solve_engine`, and sessions that of `tcp_server` and the
//! crates below it, whose contracts say what is written of what is read. Here is what is done with the words: [`run`] goes from them and
//! three streams to the exit status. [`words_of`] gets the words, [`answer`] answers the lines of `solve`, [`Explained`] says what their
//! faults mean, `serving` where a server listens and when it has ended, [`refuse`] why words are refused, and [`say`] what the program has to
//! say of itself. An [`Audit`] is given what a server's desk and its sessions leave: only then a server's status is 0.
//!
//! ```text
//! run(rt, alloc, &["othello", "solve", "--visited"], &mut streams, &mut Unaudited)    // "-4 d3 15\n", and status 0
//! run(rt, alloc, &["othello", "solved"], &mut streams, &mut Unaudited)                // status 2: no such command
//! run(rt, alloc, &["othello", "serve", "--sessions", "2", "--port", "4711"], &mut streams, &mut Unaudited)
//! // "listening 127.0.0.1:4711\n", after two sessions "ended 2\n", and status 0
//! ```
#![tactic(auto)]

mod answering;
mod audit;
pub mod command_line;
mod explaining;
mod running;
mod saying;
mod service;
mod serving;
mod streams;
mod words;

pub use answering::{answer, answer_ordered};
pub use audit::{Audit, Unaudited};
pub use explaining::Explained;
pub use running::run;
pub use saying::{refuse, say};
pub use serving::Unserved;
pub use streams::{ProgramInput, ProgramOutput, Streams};
pub use words::words_of;

/// The exit status where all went well.
pub const EXIT_OK: u8 = 0;

/// The exit status where the input or the output failed. `serve` has it where the server failed, and so have both where
/// there is no memory for the words of the command line.
pub const EXIT_FAILED: u8 = 1;

/// The exit status where the words of the command line are refused.
pub const EXIT_REFUSED: u8 = 2;
