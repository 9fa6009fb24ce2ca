//! Lines in, answers out: reads bytes in blocks, cuts them into lines, and writes the answer to each line
//! before it reads more. An answer is written with an LF, by one call, as soon as the line is complete. Nothing here takes
//! memory: a block and a line are held in arrays, and an answer in what the answerer has for it.
//!
//! A line ends with LF, and one CR directly before that LF is dropped. Bytes after the last LF, if there are
//! any, are a line too, and keep a CR at their end. A line of more than 128 bytes without its end is
//! `TooLong`: its bytes are skipped, and the next line is cut as usual.
//!
//! Values and what they stand for. A `LineCutter` is the bytes since the last LF, or `None` where they are too
//! many for a line; its invariant is that only beyond 128 kept bytes does it note a CR or more. A `Source`, a
//! `Sink` and a `LineAnswerer` are states, each with a relation of its own: what one read may give, what one write
//! may take, and which text may answer a line. What a run did is told by chains of these states
//! (`specs/Leads.antt`, `specs/Runs.antt`), so that no read, no write and no fault can be made up: each is that
//! of a call. Where each answer is a function of its line, what was written is a function of what was read
//! (`run_by_function`), and over std's readers and writers whose bytes are known so are the bytes
//! (`known_runs_are_exact`).
//!
//! Two calls go through an input. `answer_lines` waits for nobody, answers every line, and ends after 2^62 bytes
//! at the latest. `talk_lines` answers lines up to one that `Ends` the talk (`specs/Talks.antt`), and may go on
//! for ever.
//!
//! Why it is so:
//!
//! - `Source` and `Sink` are traits of this crate: std's `Read` and `Write` can't say that a call failed, so 'a
//!   fault comes only if a read failed' would hold of any body. `FromReader` and `FromWriter` adapt std's
//!   types; their failures are only tested.
//! - An interrupted read or write is tried 65,536 times, then counts as failed. `FromWriter` keeps the error,
//!   so that a closed pipe ends the program silently. `answer_lines` doesn't flush, as its sink is unbuffered;
//!   it waits for nobody and ends after 2^62 bytes. `talk_lines` may last for ever.
//! - A trait's const parameter can't size an array, so an answerer keeps its last answer itself, of any length.
//!
//! ```text
//! let mut source = FromReader { reader: b"one\r\ntwo".as_slice() };
//! let mut sink = FromWriter::new(Vec::new(alloc));
//! answer_lines(&mut source, &mut sink, &mut Echo::new())?;   // asks for `one`, writes, asks for `two`, writes
//! ```
#![tactic(auto)]

mod answering;
mod cutting;
mod faults;
mod input;
mod laws;
mod output;
pub mod rows;
mod talking;

pub use answering::{LineAnswerer, answer_lines};
pub use cutting::{LF, Line, LineCutter};
pub use faults::{LineFault, ReadFailed, WriteFailed};
pub use input::{FromReader, Source};
pub use laws::{known_bytes_are_read, known_contents_grow, known_runs_are_exact, run_by_function};
pub use output::{FromWriter, Sink, write_text};
pub use talking::{Ends, TalkEnd, talk_lines};
