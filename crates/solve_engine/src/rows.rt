//! The definitions of the lines and answers of `solve`, tried on small inputs: each contract is computed from the
//! definitions alone. A line is a depth and a position, an answer a value and a move.
#![tactic(auto, using(crate::proofs::RefusalLemmas::none_refused), unfolding(crate::proofs::Common::digits, crate::proofs::Common::squares, crate::proofs::Common::squares_beside, crate::proofs::Common::in_order, crate::proofs::Common::weights, crate::proofs::Common::minimax, crate::proofs::Common::best_choice))]

ghost use Rattle.std.specs.Prelude.{◌≡◌, ℕ, true, List, [], ◌∷◌, ◌++◌, codes};
ghost use Rattle.line_io.specs.Lines.{TooLong, Whole};
ghost use Rattle.solve_engine.specs.Solving.{solve_line, solve_out, solve_out_unless};

/// The opening two plies deep: `-4 d3`. White answers it best by c3.
pub fn opening_at_depth_2()
    ensures { solve_line (Whole (codes "2 ---------------------------OX------XO--------------------------- X")) ≡ codes "-4 d3" }
{}

/// A fault and an answer, each with LF (10). A CR (13) before an LF is dropped, and the last line needs no LF.
pub fn a_fault_and_an_answer()
    ensures { solve_out (codes "opening" ++ 13 ∷ 10 ∷ codes "1 XO-------------------------------------------------------------- O")
        ≡ codes "ERR 21" ++ 10 ∷ codes "-6000 pass" ++ 10 ∷ [] }
{}

/// Each line's first fault: the depth before the position, its length before a cell, the cells before the side.
pub fn faults_come_in_order()
    ensures too_long { solve_line TooLong ≡ codes "ERR 22" }
    ensures no_space { solve_line (Whole (codes "opening")) ≡ codes "ERR 21" }
    ensures no_number { solve_line (Whole (codes "x Z")) ≡ codes "ERR 23" }
    ensures too_deep { solve_line (Whole (codes "13 Z")) ≡ codes "ERR 27" }
    ensures length { solve_line (Whole (codes "1 Z")) ≡ codes "ERR 24" }
    ensures cell { solve_line (Whole (codes "1 ----------Z----------------OX------XO---------------------------,X")) ≡ codes "ERR 25" }
    ensures space { solve_line (Whole (codes "1 ---------------------------OX------XO---------------------------,X")) ≡ codes "ERR 26" }
    ensures side { solve_line (Whole (codes "1 ---------------------------OX------XO--------------------------- Q")) ≡ codes "ERR 26" }
{}

/// Where no memory was refused, what is written is `solve_out`. A line that was refused memory (true) is `ERR 19`, but
/// for one that has a fault of its own; lines after it are answered.
pub fn refused_growths()
    ensures none { (bytes : List ℕ) → solve_out_unless [] bytes ≡ solve_out bytes }
    ensures some { solve_out_unless (true ∷ true ∷ []) (codes "opening" ++ 10 ∷ codes "1 XO-------------------------------------------------------------- O" ++ 10 ∷ codes "1 XO-------------------------------------------------------------- O")
        ≡ codes "ERR 21" ++ 10 ∷ codes "ERR 19" ++ 10 ∷ codes "-6000 pass" ++ 10 ∷ [] }
{}
