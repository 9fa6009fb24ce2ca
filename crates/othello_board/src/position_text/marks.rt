//! What one byte of a position's text spells.
ghost use Rattle.std.specs.Prelude.{◌≡◌};
ghost use Rattle.othello_board.specs.position_text.Spelling.{spelled, side_spelled, mark_of_cell, byte_of, other_side};

use super::positions::Side;
use crate::Cell;

/// What stands on a cell, by colour, not by which side is to move.
#[derive(Clone, Copy, Debug, PartialEq, Eq)]
pub enum Mark {
    /// A disc of this side.
    Disc(Side),
    /// No disc.
    Blank,
}

/// What a byte spells; None where it spells no cell.
pub fn spelled(byte: u8) -> Option<Mark>
    ensures { result ≡ spelled byte }
{
    match byte {
        b'X' | b'x' | b'*' => Some(Mark::Disc(Side::Black)),
        b'O' | b'o' => Some(Mark::Disc(Side::White)),
        b'-' | b'.' => Some(Mark::Blank),
        _ => None,
    }
}

/// The side whose disc a byte spells; None where it spells no disc.
pub fn side_spelled(byte: u8) -> Option<Side>
    ensures { result ≡ side_spelled byte }
{
    match spelled(byte) {
        Some(Mark::Disc(side)) => Some(side),
        Some(Mark::Blank) | None => None,
    }
}

/// The byte that a mark is written as.
pub fn byte_of(mark: Mark) -> u8
    ensures { result ≡ byte_of mark }
{
    match mark {
        Mark::Disc(Side::Black) => b'X',
        Mark::Disc(Side::White) => b'O',
        Mark::Blank => b'-',
    }
}

/// The opponent's side: White for Black, Black for White.
fn other_side(side: Side) -> Side
    ensures { result ≡ other_side side }
{
    match side {
        Side::Black => Side::White,
        Side::White => Side::Black,
    }
}

/// The mark of a cell as this side sees it: an own disc has this side's colour, an opposing one that of the other.
pub fn mark_of_cell(side: Side, cell: Cell) -> Mark
    ensures { result ≡ mark_of_cell side cell }
{
    match cell {
        Cell::Own => Mark::Disc(side),
        Cell::Opp => Mark::Disc(other_side(side)),
        Cell::Empty => Mark::Blank,
    }
}
