//! The entry of a choice in the words of a search's frame: how the choice stands, and what is known of its value.
//!
//! An entry is one word, `status + 8 * kind + 32 * word(score)`: the kind is 1 low, 2 high and 3
//! exact, and 0 where nothing is known, and then the score's part is 0 too. What stands above the
//! status, `kind + 4 * word(score)`, is the rest of the entry. No other module takes an entry apart.
ghost use Rattle.std.specs.Prelude.{◌≡◌, ◌≤◌, ◌≤ℤ◌, ◌==◌, ◌/◌, true, pos, negsuc};
ghost use Rattle.jamboree_rules.specs.Places.{status_of, entry_rest, entry_of, kind_number, rest_with, is_rest, is_entry};
ghost use Rattle.jamboree_rules.specs.Entries.{kind_numbered};
ghost use Rattle.jamboree.specs.Numbers.{status_number};
ghost use Rattle.jamboree.specs.Knowledge.{known_of};

use crate::phases::Status;
use crate::score::{GREATEST_WORD, LEAST_WORD, score_of_word, word_of_score};
use jamboree_rules::othello_eval::BoundKind;

/// What is known of a choice: a score, and what that says of the value of the choice.
#[derive(Clone, Copy, Debug, PartialEq, Eq)]
pub(crate) struct KnownBound {
    pub(crate) score: i32,
    pub(crate) kind: BoundKind,
}

/// An entry without its status, as a word: the kind and the score that are known of a choice, or 0 for nothing.
#[derive(Clone, Copy)]
pub(crate) struct PackedBound {
    word: u64,
    ghost fits: { word ≤ 2305843009213693951 },
}

impl PackedBound {
    /// The rest of this entry: all of it but its status.
    #[inline(always)]
    pub(crate) fn of(entry: u64) -> PackedBound
        ensures { result.word ≡ entry_rest entry }
    {
        PackedBound { word: entry / 8 }
    }

    /// The rest with this kind and this score.
    #[inline(always)]
    pub(crate) fn saying(known: KnownBound) -> PackedBound
        requires low { negsuc 999999 ≤ℤ known.score }
        requires high { known.score ≤ℤ pos 1000000 }
        ensures { result.word ≡ rest_with known.kind known.score }
    {
        PackedBound {
            word: kind_number(known.kind) + 4 * word_of_score(known.score),
        }
    }

    /// The kind and the score in a rest that is valid (`is_rest`). Where it is 0 nothing is known, and what is
    /// returned means nothing.
    pub(crate) fn known(self) -> KnownBound
        requires { is_rest self.word ≡ true }
        ensures { result ≡ known_of self.word }
    {
        KnownBound {
            score: score_of_word(self.word / 4),
            kind: kind_of_number(self.word % 4),
        }
    }

    /// The entry with this status and this rest.
    #[inline(always)]
    pub(crate) fn entry(self, status: Status) -> u64
        ensures { result ≡ entry_of (status_number status) self.word }
    {
        status.number() + 8 * self.word
    }

    /// Whether this word is one that an entry may have beside its status: 0, or a kind with a score from -200,000 to
    /// 200,000.
    fn is_rest(self) -> bool
        ensures { result ≡ is_rest self.word }
    {
        if self.word % 4 == 0 {
            return self.word == 0;
        }
        let word = self.word / 4;
        LEAST_WORD <= word && word <= GREATEST_WORD
    }
}

/// The number that stands for a kind in an entry: 1 low, 2 high, 3 exact.
#[inline(always)]
fn kind_number(kind: BoundKind) -> u64
    ensures value { result ≡ kind_number kind }
    ensures small { result ≤ 3 }
{
    match kind {
        BoundKind::Low => 1,
        BoundKind::High => 2,
        BoundKind::Exact => 3,
    }
}

/// The kind with this number: 1 low, 2 high, any other exact.
fn kind_of_number(number: u64) -> BoundKind
    ensures { result ≡ kind_numbered number }
{
    match number {
        1 => BoundKind::Low,
        2 => BoundKind::High,
        _ => BoundKind::Exact,
    }
}

/// Whether the choice's entry says that the choice has this status.
#[inline(always)]
pub(crate) fn is_entry_of(entry: u64, status: Status) -> bool
    ensures { result ≡ (status_of entry == status_number status) }
{
    entry % 8 == status.number()
}

/// Whether a word is a valid entry: a status from 0 to 4, and a valid rest.
pub(crate) fn is_entry(entry: u64) -> bool
    ensures { result ≡ is_entry entry }
{
    entry % 8 <= 4 && PackedBound::of(entry).is_rest()
}
