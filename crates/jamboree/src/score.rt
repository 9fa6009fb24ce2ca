//! Scores as words of a search's frame: a score is stored as the score plus 1,000,000.
ghost use Rattle.std.specs.Prelude.{◌≡◌, ◌≤◌, ◌≤ℤ◌, pos, negsuc};
ghost use Rattle.jamboree_rules.specs.Places.{score_of, word_of};

/// What is added to a score to make a word of it, so that no word is negative.
const OFFSET: i32 = 1_000_000;

/// The word of the least score that a frame holds, -200,000.
pub(crate) const LEAST_WORD: u64 = 800_000;

/// The word of the greatest score that a frame holds, 200,000.
pub(crate) const GREATEST_WORD: u64 = 1_200_000;

/// The word of a score from -1,000,000 to 1,000,000.
pub(crate) fn word_of_score(score: i32) -> u64
    requires low { negsuc 999999 ≤ℤ score }
    requires high { score ≤ℤ pos 1000000 }
    ensures { result ≡ word_of score }
{
    (score + OFFSET) as u64
}

/// The score of a word of at most 2,000,000.
pub(crate) fn score_of_word(word: u64) -> i32
    requires { word ≤ 2000000 }
    ensures { result ≡ score_of word }
{
    word as i32 - OFFSET
}
