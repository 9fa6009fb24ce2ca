//! The discs of a position's text while it is read: a word for each colour.
ghost use Rattle.std.specs.Prelude.{◌≡◌, ◌≢◌, ◌<◌, ◌^◌, ℕ, bit_and};
ghost use Rattle.std.specs.Int.{bit_at};

use super::marks::Mark;
use super::positions::Side;
use crate::Board;

/// The discs that were read so far, as two words.
#[derive(Clone, Copy)]
pub struct Discs {
    /// The black discs: bit `s` is square `s`, 0 to 63.
    pub black: u64,
    /// The white discs.
    pub white: u64,
    ghost disjoint: { bit_and black white ≡ 0 },
}

impl Discs {
    ghost use Rattle.othello_board.specs.position_text.Discs.{mark_at};

    /// The discs of a board without any: both words are 0.
    pub fn none() -> Discs
        ensures { (result.black ≡ 0) × (result.white ≡ 0) }
    {
        Discs { black: 0, white: 0 }
    }

    /// These discs with the disc of this mark added, on a square that has none. A blank adds nothing.
    pub fn with(self, mark: Mark, square: u8) -> Discs
        requires on_board { square < 64 }
        requires no_black { bit_at self.black square ≡ 0 }
        requires no_white { bit_at self.white square ≡ 0 }
        ensures here { mark_at result.black result.white square ≡ mark }
        ensures black { (s : ℕ) → s ≢ square → bit_at result.black s ≡ bit_at self.black s }
        ensures white { (s : ℕ) → s ≢ square → bit_at result.white s ≡ bit_at self.white s }
    {
        match mark {
            Mark::Disc(Side::Black) => Discs {
                black: with_bit(self.black, square),
                white: self.white,
            },
            Mark::Disc(Side::White) => Discs {
                black: self.black,
                white: with_bit(self.white, square),
            },
            Mark::Blank => self,
        }
    }

    /// The board of these discs, seen by a side.
    #[tactic(auto, using(crate::proofs::PositionText::ReadingLemmas::apart_other_way))]
    pub fn seen_by(self, side: Side) -> Board
        ensures black { side ≡ Side.Black → (result.own ≡ self.black) × (result.opp ≡ self.white) }
        ensures white { side ≡ Side.White → (result.own ≡ self.white) × (result.opp ≡ self.black) }
        ensures fits { (result.own < 2 ^ 64) × (result.opp < 2 ^ 64) }
    {
        match side {
            Side::Black => Board {
                own: self.black,
                opp: self.white,
            },
            Side::White => Board {
                own: self.white,
                opp: self.black,
            },
        }
    }
}

/// The word with the bit of this square set.
fn with_bit(word: u64, square: u8) -> u64
    requires { square < 64 }
    ensures here { bit_at result square ≡ 1 }
    ensures others { (s : ℕ) → s ≢ square → bit_at result s ≡ bit_at word s }
{
    word | 1 << square
}
