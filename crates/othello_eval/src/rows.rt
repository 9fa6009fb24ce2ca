//! The definitions of a board's values, tried on boards: each contract is computed from the definitions alone. `minimax
//! 1` is to a depth of 1 ply; `negsuc 2` is -3; squares count from 0 (a1) row by row to 63 (h8).
#![tactic(auto, unfolding(othello_board::specs::Rules::squares, othello_board::specs::Rules::squares_beside, othello_moves::specs::Choices::in_order, crate::specs::Values::weights, crate::specs::Minimax::minimax, crate::specs::Minimax::best_choice))]

ghost use Rattle.std.specs.Prelude.{◌≡◌, pos, negsuc, Some, None, [], ◌∷◌};
ghost use Rattle.othello_board.specs.Rows.{opening};
ghost use Rattle.othello_moves.specs.declared.choices.Choice.TheVariants.{Square, Pass};
ghost use Rattle.othello_moves.specs.Choices.{choices, after};
ghost use Rattle.othello_moves.specs.Rows.{two_discs, two_discs_from_there};
ghost use Rattle.othello_eval.specs.Minimax.{minimax, choice_value, best_choice};
ghost use Rattle.othello_eval.specs.declared.bound.BoundKind.TheVariants.{Low, High, Exact};
ghost use Rattle.othello_eval.specs.Tables.{IsTrueBound, IsTable};
ghost use Rattle.othello_eval.specs.Rows.{all_opposing, no_discs, corner_or_edge, entry, equal_moves, corner_and_edge, to_pass};

/// The opening is worth 0, and to depth 0 there is no choice.
pub fn opening_at_depth_0()
    ensures value { minimax 0 opening ≡ pos 0 }
    ensures choice { best_choice 0 opening ≡ None }
{}

/// The opening to depth 1 is worth -3, by d3 (square 19): all four moves are worth that, and it comes first.
pub fn opening_at_depth_1()
    ensures value { minimax 1 opening ≡ negsuc 2 }
    ensures choice { best_choice 1 opening ≡ Some (Square 19) }
{}

/// Two plies deep White answers d3 best by c3, which is worth 4 to White; d3 still comes first: -4.
pub fn opening_at_depth_2()
    ensures value { minimax 2 opening ≡ negsuc 3 }
    ensures choice { best_choice 2 opening ≡ Some (Square 19) }
{}

/// What White's three answers to d3 are worth to White: c3 (18) 4, e3 (20) 0, c5 (34) -4.
pub fn answers_to_d3()
    ensures choices { choices (after opening (Square 19)) ≡ Square 18 ∷ Square 20 ∷ Square 34 ∷ [] }
    ensures c3 { choice_value 1 (after opening (Square 19)) (Square 18) ≡ pos 4 }
    ensures e3 { choice_value 1 (after opening (Square 19)) (Square 20) ≡ pos 0 }
    ensures c5 { choice_value 1 (after opening (Square 19)) (Square 34) ≡ negsuc 3 }
{}

/// Two discs in the corner: c1 (2) ends the game by 3 discs to none, worth 6,000, with empty squares left.
pub fn game_ends_with_empty_squares()
    ensures value { minimax 1 two_discs ≡ pos 6000 }
    ensures choice { best_choice 1 two_discs ≡ Some (Square 2) }
{}

/// The other side passes, which uses no ply: at depth 0 the weights of a1 and b1 and the one move
/// decide, -100 - 20 - 4; one ply deep the move after the pass ends the game.
pub fn pass_takes_no_ply()
    ensures leaf { minimax 0 two_discs_from_there ≡ negsuc 123 }
    ensures shallow { minimax 1 two_discs_from_there ≡ negsuc 5999 }
    ensures shallow_choice { best_choice 1 two_discs_from_there ≡ Some Pass }
    ensures deep { minimax 2 two_discs_from_there ≡ negsuc 5999 }
    ensures deep_choice { best_choice 2 two_discs_from_there ≡ Some Pass }
{}

/// A lost board is worth -128,000 at every depth, and an empty one nothing; neither has a choice.
pub fn finished_boards()
    ensures lost { minimax 12 all_opposing ≡ negsuc 127999 }
    ensures lost_choice { best_choice 12 all_opposing ≡ None }
    ensures empty { minimax 5 no_discs ≡ pos 0 }
    ensures empty_choice { best_choice 5 no_discs ≡ None }
{}

/// The corner a1 (0) is worth 89, and e1, which lies on an edge, only 40: so of these two moves the corner is
/// the best choice.
pub fn corner_outweighs_edge()
    ensures value { minimax 1 corner_or_edge ≡ pos 89 }
    ensures choice { best_choice 1 corner_or_edge ≡ Some (Square 0) }
{}

/// One ply from the opening all four moves are worth -3: d3 just that, and the others at most that. At
/// depth 0 and in a finished game no choice has an entry.
pub fn tables_of_equal_moves()
    ensures opening { IsTable 1 opening equal_moves }
    ensures leaf { IsTable 0 opening [] }
    ensures over { IsTable 12 all_opposing [] }
{}

/// Tables to depth 1: the corner is worth 89, and e1 at most 40; the one choice to pass is worth -6,000.
pub fn tables_of_a_best_move()
    ensures corner { IsTable 1 corner_or_edge corner_and_edge }
    ensures pass { IsTable 1 two_discs_from_there to_pass }
{}

/// No tables: an entry that isn't true, a best choice whose entry isn't exact, and a choice without an entry.
pub fn no_tables()
    ensures untrue { IsTrueBound 1 corner_or_edge (entry (Square 4) Low (pos 39)) → ⊥ }
    ensures vague { IsTable 1 corner_or_edge (entry (Square 0) High (pos 89) ∷ entry (Square 4) Low (pos 40) ∷ []) → ⊥ }
    ensures short { IsTable 1 corner_or_edge (entry (Square 0) Exact (pos 89) ∷ []) → ⊥ }
{}
