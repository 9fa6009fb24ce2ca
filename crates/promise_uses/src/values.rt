//! A use of the law on discs and evaluations: of a finished game that is won, or lost, by one disc.
ghost use Rattle.std.specs.Prelude.{◌≡◌, ◌+◌, ◌<ℤ◌, ℕ, List, count_by};
ghost use Rattle.othello_board.specs.declared.cells.Cell.{Cell};
ghost use Rattle.othello_board.specs.Rules.{is_own_cell, is_opp_cell};
ghost use Rattle.othello_eval.specs.Values.{eval, final_value};

use othello_eval::laws::a_disc_outranks_evaluations;

/// A finished game with one disc more than the opponent has is worth more than any evaluation, and one with one disc less is worth less.
/// Uses `othello_eval::a_disc_outranks_evaluations` (`won`, `lost`).
pub fn by_one_disc()
    ensures won { (board other : List Cell) (discs : ℕ) → count_by is_opp_cell board ≡ discs → count_by is_own_cell board ≡ discs + 1 → eval other <ℤ final_value board }
    ensures lost { (board other : List Cell) (discs : ℕ) → count_by is_own_cell board ≡ discs → count_by is_opp_cell board ≡ discs + 1 → final_value board <ℤ eval other }
{
    a_disc_outranks_evaluations();
}
