//! The definitions of Othello's rules, tried on boards: each contract is computed from the definitions alone. Squares
//! count from 0 (a1) row by row to 63 (h8).
#![tactic(auto, unfolding(crate::specs::Rules::squares, crate::specs::Rules::squares_beside))]

ghost use Rattle.std.specs.Prelude.{◌≡◌, [], ◌∷◌, false, true};
ghost use Rattle.othello_board.specs.declared.cells.Cell.TheVariants.{Empty, Own, Opp};
ghost use Rattle.othello_board.specs.declared.directions.Direction.TheVariants.{West, East, South};
ghost use Rattle.othello_board.specs.Rules.{run, flips, is_legal, played, exchanged};
ghost use Rattle.othello_board.specs.Rows.{opening, first_row};

/// In the opening d3 (19) outflanks d4 (27) alone, and is legal; d4 is taken, and e3 (20) outflanks nothing.
pub fn opening_flips()
    ensures d3 { flips opening 19 ≡ 27 ∷ [] }
    ensures d3_is_legal { is_legal opening 19 ≡ true }
    ensures d4_is_taken { is_legal opening 27 ≡ false }
    ensures e3_flips_nothing { flips opening 20 ≡ [] }
{}

/// A run that reaches the edge flips nothing: from c1 westward over two opposing discs to a1.
pub fn edge_run_flips_nothing()
    ensures run { run (first_row (Opp ∷ Opp ∷ Empty ∷ Empty ∷ Empty ∷ Empty ∷ Empty ∷ Empty ∷ [])) 2 West ≡ [] }
    ensures legal { is_legal (first_row (Opp ∷ Opp ∷ Empty ∷ Empty ∷ Empty ∷ Empty ∷ Empty ∷ Empty ∷ [])) 2 ≡ false }
{}

/// A run that reaches an empty square flips nothing: from e1 westward over d1 to the empty c1.
pub fn empty_run_flips_nothing()
    ensures run { run (first_row (Own ∷ Opp ∷ Empty ∷ Opp ∷ Empty ∷ Empty ∷ Empty ∷ Empty ∷ [])) 4 West ≡ [] }
    ensures legal { is_legal (first_row (Own ∷ Opp ∷ Empty ∷ Opp ∷ Empty ∷ Empty ∷ Empty ∷ Empty ∷ [])) 4 ≡ false }
{}

/// A run between two discs of the mover flips whole, nearest disc first, and a square beside it stays.
pub fn whole_run_flips()
    ensures run { run (first_row (Empty ∷ Opp ∷ Opp ∷ Opp ∷ Own ∷ Opp ∷ Empty ∷ Empty ∷ [])) 0 East ≡ 1 ∷ 2 ∷ 3 ∷ [] }
    ensures played { played (first_row (Empty ∷ Opp ∷ Opp ∷ Opp ∷ Own ∷ Opp ∷ Empty ∷ Empty ∷ [])) 0
        ≡ first_row (Opp ∷ Opp ∷ Opp ∷ Opp ∷ Opp ∷ Own ∷ Empty ∷ Empty ∷ []) }
{}
