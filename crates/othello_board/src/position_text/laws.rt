//! What follows of the spelling of positions: laws, each the contract of a function that is there to state it.
ghost use Rattle.std.specs.Prelude.{◌≡◌, ℕ, List, map, Ok, Some, None, IsSome};
ghost use Rattle.othello_board.specs.declared.cells.Cell.{Cell};
ghost use Rattle.othello_board.specs.Words.{cells};
ghost use Rattle.othello_board.specs.declared.position_text.positions.Position.{Position};
ghost use Rattle.othello_board.specs.declared.position_text.positions.Side.{Side};
ghost use Rattle.othello_board.specs.position_text.Readings.{marks_of, mover_of, seen_by};
ghost use Rattle.othello_board.specs.position_text.Spelling.{Spells, IsBadCell, IsBadSide, FitsWords, mark_of_cell, written};

use super::faults::TextFault;
use super::positions::Position;
use super::reading::read;
use super::writing::write;

/// A text spells at most one position.
#[tactic(auto, using(crate::proofs::PositionText::Readings::one_position))]
pub fn one_position(text: &[u8], first: Position, second: Position)
    requires first { Spells text.now first }
    requires second { Spells text.now second }
    ensures { first ≡ second }
{
    let _first = words(first);
    let _second = words(second);
}

/// The two words of a position's board; the contract says that both are below 2^64.
fn words(position: Position) -> (u64, u64)
    ensures { FitsWords position }
{
    (position.board.own, position.board.opp)
}

/// The text that is written for a position spells that position.
pub fn written_spells(position: Position)
    ensures { Spells (written position) position }
{}

/// The text that is written for a position is read as that position again.
pub fn read_again(position: &Position) -> Result<Position, TextFault>
    ensures { result ≡ Ok position.now }
{
    let _words = words(*position);
    read(&write(position))
}

/// Reading byte by byte (`marks_of`, `mover_of`) agrees with spelling. A text that spells a position gives the marks
/// of its board and its side, and the side sees the mark of a cell as that cell. With a bad cell there are no marks;
/// with a bad side there are marks but no side to move.
pub fn readings_of_texts()
    ensures marks { (text : List ℕ) (p : Position) → Spells text p → marks_of text ≡ Some (map (mark_of_cell p.side) (cells p.board)) }
    ensures mover { (text : List ℕ) (p : Position) → Spells text p → mover_of text ≡ Some p.side }
    ensures seen { (side : Side) (cell : Cell) → seen_by side (mark_of_cell side cell) ≡ cell }
    ensures bad_cell { (text : List ℕ) (at : ℕ) → IsBadCell text at → marks_of text ≡ None }
    ensures bad_side { (text : List ℕ) → IsBadSide text → mover_of text ≡ None }
    ensures cells_before_bad_side { (text : List ℕ) → IsBadSide text → IsSome (marks_of text) }
{}
