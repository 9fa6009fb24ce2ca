//! The definitions of words and texts of the protocol, tried on small lines: each contract is computed from the
//! definitions alone. `negsuc 2` is -3; square 19 is d3, and 63 h8.
ghost use Rattle.std.specs.Prelude.{◌≡◌, codes, pos, negsuc, Some, None};
ghost use Rattle.othello_moves.specs.declared.choices.Choice.TheVariants.{Square, Pass};
ghost use Rattle.protocol.specs.Words.{split_at_space, word_number};
ghost use Rattle.protocol.specs.Texts.{value_text, visited_text, error_text};

/// `1 X O` is split at its first space into `1` and `X O`, ` X` into nothing and `X`, and `opening` isn't split.
pub fn lines_are_split()
    ensures two_words { split_at_space (codes "1 X O") ≡ Some (codes "1", codes "X O") }
    ensures first_space { split_at_space (codes " X") ≡ Some (codes "", codes "X") }
    ensures no_space { split_at_space (codes "opening") ≡ None }
{}

/// A number is 1 to 8 digits, whatever it begins with: 07 is 7; no digit, nine digits, a letter or a sign are none.
pub fn numbers_are_read()
    ensures small { word_number (codes "07") ≡ Some 7 }
    ensures greatest { word_number (codes "99999999") ≡ Some 99999999 }
    ensures no_digit { word_number (codes "") ≡ None }
    ensures nine_digits { word_number (codes "000000001") ≡ None }
    ensures letter { word_number (codes "1x") ≡ None }
    ensures sign { word_number (codes "-1") ≡ None }
{}

/// The answers -3 by d3, 89 by h8, -124 by a pass, 0 without a move, -4 by d3 after 15 positions, and fault 22, as
/// texts.
pub fn answers_are_written()
    ensures square { value_text (negsuc 2) (Some (Square 19)) ≡ codes "-3 d3" }
    ensures last_square { value_text (pos 89) (Some (Square 63)) ≡ codes "89 h8" }
    ensures passed { value_text (negsuc 123) (Some Pass) ≡ codes "-124 pass" }
    ensures none { value_text (pos 0) None ≡ codes "0 -" }
    ensures counted { visited_text (negsuc 3) (Some (Square 19)) 15 ≡ codes "-4 d3 15" }
    ensures fault { error_text 22 ≡ codes "ERR 22" }
{}
