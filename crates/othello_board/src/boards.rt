//! The two words of an Othello board, and what they say of its 64 cells.
ghost use Rattle.std.specs.Prelude.{◌≡◌, ◌≢◌, ◌↔◌, ◌<◌, ◌==◌, IsSome, IfSome, IsTrue, bit_and, count_by};

use super::cells::Cell;
use super::rays::RAYS;
use super::runs::{falling, rising};
use std::simd::prelude::*;

/// A board, seen by the player to move.
#[derive(Clone, Copy, Debug, PartialEq, Eq)]
pub struct Board {
    /// The mover's discs: bit `s` is square `s`, 0 to 63.
    pub own: u64,
    /// The opponent's discs.
    pub opp: u64,
    ghost disjoint: { bit_and own opp ≡ 0 },
}

impl Board {
    ghost use Rattle.othello_board.specs.Rules.{cell_at, exchanged, flips, is_legal, played, is_own_cell, is_opp_cell};
    ghost use Rattle.othello_board.specs.Words.{cells, bits_of};

    /// The board of these discs; None where some bit is set in both words.
    pub fn new(own: u64, opp: u64) -> Option<Board>
        ensures disjoint { IsSome result ↔ (bit_and own opp ≡ 0) }
        ensures words { IfSome result (λ b. (b.own ≡ own) × (b.opp ≡ opp)) }
    {
        if own & opp == 0 {
            Some(Board { own, opp })
        } else {
            None
        }
    }

    /// What stands on a square (0 to 63) of the board.
    #[tactic(auto, using(crate::proofs::CellLemmas::reads_own, crate::proofs::CellLemmas::reads_opp, crate::proofs::CellLemmas::reads_empty))]
    pub fn cell(self, square: u8) -> Cell
        requires { square < 64 }
        ensures { result ≡ cell_at (cells self) square }
    {
        if self.own >> square & 1 == 1 {
            Cell::Own
        } else if self.opp >> square & 1 == 1 {
            Cell::Opp
        } else {
            Cell::Empty
        }
    }

    /// The board as the other player sees it: own and opposing discs exchanged.
    #[tactic(auto, using(std::proofs::lemmas::Nat::and_comm, crate::proofs::CellLemmas::word_rules))]
    pub fn swap(self) -> Board
        ensures words { (result.own ≡ self.opp) × (result.opp ≡ self.own) }
        ensures cells { cells result ≡ exchanged (cells self) }
    {
        Board {
            own: self.opp,
            opp: self.own,
        }
    }

    /// How many discs the mover has, and how many the opponent.
    #[tactic(auto, using(crate::proofs::CellLemmas::word_rules))]
    pub fn count(self) -> (u32, u32)
        ensures own { result.0 ≡ count_by is_own_cell (cells self) }
        ensures opp { result.1 ≡ count_by is_opp_cell (cells self) }
    {
        (self.own.count_ones(), self.opp.count_ones())
    }

    /// The discs that a disc of the mover on this square outflanks, as bits; 0 where none.
    #[inline(always)]
    pub fn flips(self, square: u8) -> u64
        requires { square < 64 }
        ensures { result ≡ bits_of (flips (cells self) square) }
    {
        let Board { own, opp, .. } = self;
        let rays = &RAYS[square as usize];
        let above = rising(own, opp, rays[0], rays[1], rays[2], rays[3]);
        let below = falling(own, opp, rays[4], rays[5], rays[6], rays[7]);
        let [first, second, third, fourth] = (above | below).to_array();
        first | second | (third | fourth)
    }

    /// The board after the mover sets a disc on this square, where that is legal, seen by the opponent.
    #[inline(always)]
    pub fn play(self, square: u8) -> Board
        requires on_board { square < 64 }
        requires legal { IsTrue (is_legal (cells self) square) }
        ensures { cells result ≡ played (cells self) square }
    {
        let discs = self.flips(square) | 1 << square;
        Board {
            own: self.opp & !discs,
            opp: self.own | discs,
        }
    }
}
