//! Sessions: lines in, calls of an office and answers out.
//!
//! A session is a talk in lines of at most 128 bytes with one tenant of a desk. A line is a command of one word with
//! its arguments, parted by single spaces, and comes to a fault, to one call of the office, or to the end of the session:
//! `specs/Requests.antt` has the table of all. Each line is answered by one line, as soon as it is complete, before
//! more is read: a fault by `ERR` and its number, a call by what the office replied. `GET` and `TABLE` make one call, and tell of
//! its reply the value and the move, or what is known of each choice.
//!
//! What a session did is told by two functions of the lines that it read and of the office's replies in order
//! (`specs/Turns.antt`): the calls that it made, and the bytes that it wrote. [`serve_lines`] has them in its contract
//! (`Session`, `specs/Sessions.antt`), over any source of bytes, any sink and any [`Office`], of which a body learns
//! only by a call: so no call, no reply and no end can be made up. The invariant is whether a tenant is there: it comes by
//! a HELLO that was taken, and has left when the session is over, however it ended. Nothing here takes memory but the
//! office.
//!
//! For an office that keeps what its tenant asked for, and shows the values of just that (`specs/Asks.antt`), each
//! `DONE` line bears the minimax value and the best choice of what the `ASK` line of its number asked for, and each `TABLE`
//! line with entries its table: what is known of each choice, each entry true ([`each_done_line_is_true`]).
//!
//! Why it is so:
//!
//! - After a failed write the contract covers the lines up to the one whose answer wasn't written. If the
//!   replies end early, the next is a refusal by number 0, which no office makes, so missing replies can't
//!   stand for calls that weren't made.
//! - A session has one text of 1,115 bytes that each answer overwrites, as one returned by value would be
//!   zeroed and copied for every line. Zeroing the 800-byte answer about a job costs every caller that has it
//!   as a local, so it lives in functions of its own (`tell_job`, `tell_ended_job`, `tell_table`). TABLE makes
//!   the call of GET but is a request and a turn of its own (`Tabulates`, `Tabulated`), as its text depends on
//!   the line. An `Analysis` stays `Copy`: its table (`Bounds`) is 64 places and a count, unused ones of one
//!   value, so that the derived comparison compares entries.
//!
//! ```text
//! let lines = b"HELLO 4 8\nASK 0 ---------------------------OX------XO--------------------------- X\nWAIT 1\nQUOTA\n";
//! let mut source = FromReader { reader: lines.as_slice() };
//! let mut sink = FromWriter::new(Vec::new(alloc));
//! serve_lines(&rt, &mut source, &mut sink, &mut office)?;     // the writer has WELCOME 4 8, JOB 1, DONE 1 0 - and QUOTA 4 7 123
//! ```
#![tactic(auto)]

mod bounds;
mod faults;
mod laws;
mod office;
mod requests;
pub mod rows;
mod serving;
mod standings;
mod texts;
mod turns;

pub use bounds::Bounds;
pub use faults::{End, SessionFault};
pub use laws::each_done_line_is_true;
pub use office::Office;
pub use protocol::Question;
pub use requests::{Request, read_request};
pub use serving::{LineProtocol, ServerLines, serve_lines, serve_talk};
pub use standings::{Analysis, Live, Standing};
pub use texts::SessionText;
pub use turns::{answer_request, leave_if_seated};
