//! The protocol of lines: their words, what `depth position` asks for, the faults of lines with their numbers, and the texts
//! of numbers, values, moves and faults.
//!
//! A line is a list of bytes. Its first word is what stands before its first space, and a number is a word of 1 to 8
//! digits (`specs/Words.antt`). The words `depth position`, of a line of `solve` and of an `ASK`, stand for a
//! [`Question`], whose type keeps its depth from 0 to 12, or for their first fault (`specs/Questions.antt`). A line that
//! asks for nothing has one fault, a [`ProtocolFault`], which its answer tells by its number (`specs/Faults.antt`). A text
//! is a list of bytes in an array of any length: each function that writes appends to it what `specs/Texts.antt` says,
//! and asks for so many bytes of room, which the caller knows. Nothing takes memory.
//!
//! Why it is so:
//!
//! - `ProtocolFault` is one type for `solve` and sessions and doesn't say where a bad cell stands, as no answer
//!   does. `Question` limits its depth by its type.
//!
//! ```text
//! let (depth, position) = split_at_space(b"12 X-O")?;         // `12` and `X-O`
//! word_number(depth)                                          // Some(12)
//! read_question(depth, position)                              // Err(ProtocolFault::PositionLength), whose number is 24
//! push_value(&mut text, -3);                                  // -3
//! text.push(b' ');
//! push_move(&mut text, Some(Choice::Square(19)));             // -3 d3
//! ```
#![tactic(auto)]

mod asking;
mod faults;
mod questions;
pub mod rows;
mod words;
mod writing;

pub use asking::read_question;
pub use faults::ProtocolFault;
pub use questions::Question;
pub use words::{split_at_space, word_number};
pub use writing::{push_error, push_move, push_number, push_value};
