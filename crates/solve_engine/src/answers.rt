//! The texts of the answers of `solve`, each without LF.
ghost use Rattle.std.specs.Prelude.{◌≡◌, ◌≤◌, length};
ghost use Rattle.protocol.specs.Texts.{value_text, visited_text, error_text};

use arrayvec::ArrayVec;
use othello_moves::Choice;
use protocol::{push_error, push_move, push_number, push_value};

/// The most bytes of an answer with its LF.
const ANSWER_BYTES: usize = 40;

/// An answer: of at most 37 bytes, and an LF.
pub(crate) type SolveText = ArrayVec<u8, ANSWER_BYTES>;

/// A value and a move, with a space between them; the move is `-` where there is none.
pub(crate) fn value_text(value: i32, choice: Option<Choice>) -> SolveText
    ensures text { result.items ≡ value_text value choice }
    ensures short { length result.items ≤ 16 }
{
    let mut text = SolveText::new();
    push_value(&mut text, value);
    text.push(b' ');
    push_move(&mut text, choice);
    text
}

/// A value, a move and the number of positions that the search entered, with spaces between them.
pub(crate) fn visited_text(value: i32, choice: Option<Choice>, visited: u64) -> SolveText
    ensures text { result.items ≡ visited_text value choice visited }
    ensures short { length result.items ≤ 37 }
{
    let mut text = value_text(value, choice);
    text.push(b' ');
    push_number(&mut text, visited);
    text
}

/// The answer `ERR` and this number, for a line that has a fault or was refused memory.
pub(crate) fn error_text(number: u8) -> SolveText
    ensures text { result.items ≡ error_text number }
    ensures short { length result.items ≤ 7 }
{
    let mut text = SolveText::new();
    push_error(&mut text, number);
    text
}
