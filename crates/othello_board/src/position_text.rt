//! The text of an Othello position: 64 cells from a1 to h8 row by row, a space, and the side to move.
//!
//! A [`Position`] stands for a list of 64 cells, seen by the mover, and for the mover's side. A text
//! stands for a position by `Spells` of `specs/Spelling.antt`: it has 66 bytes, each of the first 64
//! spells the disc of its cell, or that there is none, then comes a space, then a disc of the side.
//! Read are `X`, `x` and `*` for black, `O` and `o` for white, `-` and `.` for empty; written are
//! `X`, `O` and `-` alone. While a text is read, its discs stand in two words, black and white. The
//! invariant that makes them a board is that the two words share no bit.
//!
//! ```text
//! let text = b"---------------------------OX------XO--------------------------- X";
//! let opening = read(text)?;          // Black to move
//! opening.board.own == 0x0000_0008_1000_0000
//! write(&opening) == *text
//! ```

mod discs;
mod faults;
mod laws;
mod marks;
mod positions;
mod reading;
pub mod rows;
mod writing;

pub use faults::TextFault;
pub use laws::{one_position, read_again, readings_of_texts, written_spells};
pub use positions::{Position, Side};
pub use reading::read;
pub use writing::write;
