//! From a text to the Othello position that it spells.
ghost use Rattle.std.specs.Prelude.{◌≡◌, ◌≢◌, ◌↔◌, ℕ, length, Ok, Err, IfOk, IfErr};
ghost use Rattle.othello_board.specs.declared.position_text.positions.Position.{Position};
ghost use Rattle.othello_board.specs.position_text.Spelling.{Spells, FitsWords, IsBadCell, IsBadSide};
ghost use Rattle.othello_board.specs.position_text.Discs.{HoldsFirst};

use super::discs::Discs;
use super::faults::TextFault;
use super::marks::{side_spelled, spelled};
use super::positions::Position;

/// How many bytes a text has.
const LENGTH: usize = 66;

/// What stands between the cells and the side.
const SPACE: u8 = b' ';

/// The discs of a text's first 64 bytes, or the fault that names the first of them that spells no cell.
#[tactic(auto, using(crate::proofs::PositionText::ReadingLemmas::none_held, crate::proofs::PositionText::ReadingLemmas::held_at))]
fn cells(text: &[u8]) -> Result<Discs, TextFault>
    requires { length text.now ≡ 66 }
    ensures ok { IfOk result (λ discs. HoldsFirst discs.black discs.white text.now 64) }
    ensures err { IfErr result (λ fault. (at : ℕ) × (fault ≡ TextFault.BadCell at) × IsBadCell text.now at) }
{
    let mut discs = Discs::none();
    for square in 0..64u8 {
        let Some(mark) = spelled(text[square as usize]) else {
            return Err(TextFault::BadCell(square));
        };
        discs = discs.with(mark, square);
    }
    Ok(discs)
}

/// The position that a text spells, or the first fault that the text has.
pub fn read(text: &[u8]) -> Result<Position, TextFault>
    ensures ok { IfOk result (λ p. Spells text.now p) }
    ensures exact { (p : Position) → FitsWords p → (result ≡ Ok p) ↔ Spells text.now p }
    ensures length { (result ≡ Err TextFault.Length) ↔ (length text.now ≢ 66) }
    ensures cell { (at : ℕ) → (result ≡ Err (TextFault.BadCell at)) ↔ IsBadCell text.now at }
    ensures side { (result ≡ Err TextFault.BadSide) ↔ IsBadSide text.now }
{
    if text.len() != LENGTH {
        return Err(TextFault::Length);
    }
    let discs = cells(text)?;
    if text[64] != SPACE {
        return Err(TextFault::BadSide);
    }
    let Some(side) = side_spelled(text[65]) else {
        return Err(TextFault::BadSide);
    };
    let board = discs.seen_by(side);
    Ok(Position { board, side })
}
