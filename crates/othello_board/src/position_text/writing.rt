//! From an Othello position to its written text.
ghost use Rattle.std.specs.Prelude.{◌≡◌};
ghost use Rattle.othello_board.specs.position_text.Spelling.{Spells, written};

use super::marks::{Mark, byte_of, mark_of_cell};
use super::positions::Position;

/// The text of a position, written with `X`, `O` and `-` alone.
pub fn write(position: &Position) -> [u8; 66]
    ensures value { result ≡ written position.now }
    ensures spells { Spells result position.now }
{
    let Position { board, side } = *position;
    let mut text = [b' '; 66];
    for square in 0..64u8 {
        text[square as usize] = byte_of(mark_of_cell(side, board.cell(square)));
    }
    text[65] = byte_of(Mark::Disc(side));
    text
}
