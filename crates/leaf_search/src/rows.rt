//! The definition of a bound of a search, tried on scores of a window from 0 to 10. `IsBound` has alpha, beta, the
//! score and the value; `negsuc 3` is -4.
#![tactic(auto, using(std::proofs::lemmas::Int::ints))]

ghost use Rattle.std.specs.Prelude.{◌≡◌, ◌↔◌, ◌≤ℤ◌, ℤ, pos, negsuc};
ghost use Rattle.leaf_search.specs.Bounds.{IsBound};

/// Through a window from 0 to 10, a score of -4 says that the value is at most -4, and no more.
pub fn score_below_alpha()
    ensures { (m : ℤ) → IsBound (pos 0) (pos 10) (negsuc 3) m ↔ (m ≤ℤ negsuc 3) }
{}

/// Through a window from 0 to 10, a score of 0 says that the value is at most 0, and one of 10 that it is at least 10.
pub fn score_at_an_end()
    ensures alpha { (m : ℤ) → IsBound (pos 0) (pos 10) (pos 0) m ↔ (m ≤ℤ pos 0) }
    ensures beta { (m : ℤ) → IsBound (pos 0) (pos 10) (pos 10) m ↔ (pos 10 ≤ℤ m) }
{}

/// Through a window from 0 to 10, a score of 12 says that the value is at least 12, and no more.
pub fn score_above_beta()
    ensures { (m : ℤ) → IsBound (pos 0) (pos 10) (pos 12) m ↔ (pos 12 ≤ℤ m) }
{}

/// Through a window from 0 to 10, a score of 5 says that the value is 5.
pub fn score_inside()
    ensures { (m : ℤ) → IsBound (pos 0) (pos 10) (pos 5) m ↔ (m ≡ pos 5) }
{}
