//! The definitions of positions' texts, tried on the opening: each contract is computed from the definitions alone.
#![tactic(auto, unfolding(crate::specs::Rules::squares))]

ghost use Rattle.std.specs.Prelude.{◌≡◌, ◌++◌, map, codes, Some, None};
ghost use Rattle.std.specs.Str.{byte};
ghost use Rattle.othello_board.specs.Words.{cells};
ghost use Rattle.othello_board.specs.declared.position_text.positions.Side.TheVariants.{Black, White};
ghost use Rattle.othello_board.specs.position_text.Spelling.{spelled, side_spelled, mark_of_cell, written};
ghost use Rattle.othello_board.specs.position_text.Rows.{opening, opening_cells, white_to_move};

/// The written text of the opening, and of the same discs with White to move.
pub fn opening_is_written()
    ensures black { written opening ≡ opening_cells ++ codes " X" }
    ensures white { written white_to_move ≡ opening_cells ++ codes " O" }
{}

/// Small letters, the star and the full stop spell the opening too.
pub fn opening_is_spelled()
    ensures cells { map spelled (codes "...........................oX......xO...........................")
        ≡ map (λ cell. Some (mark_of_cell Black cell)) (cells opening.board) }
    ensures side { side_spelled (byte "*") ≡ Some Black }
{}

/// No other byte spells a cell: neither a zero nor a space, and an empty cell is no side.
pub fn others_are_unspelled()
    ensures zero { spelled (byte "0") ≡ None }
    ensures space { spelled (byte " ") ≡ None }
    ensures side { side_spelled (byte "-") ≡ None }
{}
