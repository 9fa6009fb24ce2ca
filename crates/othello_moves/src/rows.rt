//! The definitions of an Othello board's choices, tried on boards: each contract is computed from the definitions
//! alone. Squares count from 0 (a1) row by row to 63 (h8).
#![tactic(auto, unfolding(othello_board::specs::Rules::squares, othello_board::specs::Rules::squares_beside, crate::specs::Choices::in_order))]

ghost use Rattle.std.specs.Prelude.{◌≡◌, [], ◌∷◌};
ghost use Rattle.othello_board.specs.Rows.{opening};
ghost use Rattle.othello_moves.specs.declared.choices.Choice.TheVariants.{Square, Pass};
ghost use Rattle.othello_moves.specs.Choices.{choices, after};
ghost use Rattle.othello_moves.specs.Rows.{two_discs, two_discs_from_there, corner_and_edge};

/// The opening has exactly four moves: d3 (19), c4 (26), f5 (37) and e6 (44), in this order.
pub fn opening_choices()
    ensures { choices opening ≡ Square 19 ∷ Square 26 ∷ Square 37 ∷ Square 44 ∷ [] }
{}

/// A legal corner comes before a legal square of lower index: h1 (7) before d1 (3).
pub fn corner_comes_first()
    ensures { choices corner_and_edge ≡ Square 7 ∷ Square 3 ∷ [] }
{}

/// A side that can't move passes where the other side can move, and may not pass where it can move.
pub fn pass_without_move()
    ensures moves { choices two_discs ≡ Square 2 ∷ [] }
    ensures passes { choices two_discs_from_there ≡ Pass ∷ [] }
    ensures exchanges { after two_discs_from_there Pass ≡ two_discs }
{}

/// The game is over where neither side can move, also with empty squares left: after c1 (2) there.
pub fn over_with_empty_squares()
    ensures { choices (after two_discs (Square 2)) ≡ [] }
{}
