//! The search and the rules of the game as functions of plain numbers, for a page that has no server.
//!
//! A board is two words, the mover's discs and the opponent's: bit `s` is square `s`, 0 to 63 from a1 row by row. A choice is
//! a number too: a square's own, or 64 for a pass. What each function gives is said by the definitions that the server's
//! promises stand on: `choices` and `after` of `othello_moves`, `minimax`, `best_choice` and `choice_value` of `othello_eval`.
//! Every number that a caller may give is answered or refused: two words that share a square, a depth above 12 and a choice
//! that the board doesn't have are refused by a number that no answer has ([`is_choice`] and [`turn`] say so beforehand).
//!
//! Built for WebAssembly by `clients/page/build`, the functions are the exports of a module without imports. They keep nothing
//! between two calls and take no memory.
//!
//! ```text
//! // the opening, with Black to move, two plies deep: -4 by d3 (square 19)
//! analyse(0x0000_0008_1000_0000, 0x0000_0010_0800_0000, 2) == -4 * 128 + 19
//! ```
#![tactic(auto)]

mod choosing;
mod codes;
mod exports;

pub use exports::{
    analyse, choice_value, choice_value_near, is_choice, legal_squares, opp_after, own_after, turn,
};
