//! What a serial search of a position gives: score, choice, and how many positions were entered.
ghost use Rattle.std.specs.Prelude.{◌≡◌, ◌<ℤ◌, ◌≤ℤ◌, ◌+◌, ◌-◌, ◌^◌, ℤ, neg_ℤ, min};
ghost use Rattle.std.specs.Int.{int_max};
ghost use Rattle.othello_eval.specs.Values.{IsWithin};

use othello_eval::othello_moves::Choice;

/// What a search of a position gives, and while it runs, what it has so far.
#[derive(Clone, Copy, Debug, PartialEq, Eq)]
pub struct Scored {
    /// The score, seen by the player to move, from -128,000 to 128,000: a bound of the minimax value.
    pub score: i32,
    /// A choice of the board, or none: the best choice where the score lies inside the window, so none at
    /// depth 0 and in a finished game. Outside it no more is promised than that it is one of the board's.
    pub choice: Option<Choice>,
    /// How many positions were entered, the first included; the count stops at the greatest `u64`. The contract of
    /// `search` says how many; that of the ordered search doesn't.
    pub visited: u64,
}

impl Scored {
    /// The result of entering one position: this score, no choice, and one position visited.
    pub(crate) fn entered(score: i32) -> Scored
        ensures { result ≡ record { score = score; choice = None; visited = 1 } }
    {
        Scored {
            score,
            choice: None,
            visited: 1,
        }
    }

    /// The search's score and the number of positions entered, without the choice.
    #[inline(always)]
    pub(crate) fn counted(self) -> Counted
        ensures { result ≡ record { score = self.score; visited = self.visited } }
    {
        Counted {
            score: self.score,
            visited: self.visited,
        }
    }

    /// Adds the result of searching the position after `choice`, seen by the opponent. Where its negated score is
    /// above the score here, that and the choice replace the ones here. The counts of positions are added.
    pub(crate) fn take_in(&mut self, choice: Choice, child: Counted)
        requires { IsWithin 128000 child.score }
        ensures better { self.old.score <ℤ neg_ℤ child.score → (self.new.score ≡ neg_ℤ child.score) × (self.new.choice ≡ Some choice) }
        ensures kept { neg_ℤ child.score ≤ℤ self.old.score → (self.new.score ≡ self.old.score) × (self.new.choice ≡ self.old.choice) }
        ensures visited { self.new.visited ≡ min (self.old.visited + child.visited) (2 ^ 64 - 1) }
    {
        self.visited = self.visited.saturating_add(child.visited);
        if -child.score > self.score {
            self.score = -child.score;
            self.choice = Some(choice);
        }
    }
}

/// What a search of a position below the first one gives: nobody asks for its choice.
#[derive(Clone, Copy)]
pub(crate) struct Counted {
    /// The score, seen by the player to move.
    pub score: i32,
    /// How many positions were entered, the first included.
    pub visited: u64,
}

impl Counted {
    /// The result of entering one position: this score, and one position visited.
    #[inline(always)]
    pub(crate) fn entered(score: i32) -> Counted
        ensures { result ≡ record { score = score; visited = 1 } }
    {
        Counted { score, visited: 1 }
    }

    /// The score and the count so far, with the result of searching the position after one more choice, seen by the
    /// opponent: the greater score, and the sum of the counts.
    #[inline(always)]
    pub(crate) fn with(self, child: Counted) -> Counted
        requires { IsWithin 128000 child.score }
        ensures score { result.score ≡ int_max self.score (neg_ℤ child.score) }
        ensures visited { result.visited ≡ min (self.visited + child.visited) (2 ^ 64 - 1) }
    {
        Counted {
            score: self.score.max(-child.score),
            visited: self.visited.saturating_add(child.visited),
        }
    }

    /// The result of a search of a position that was tested before: this score, and the sum of the counts.
    #[inline(always)]
    pub(crate) fn after(self, test: Counted) -> Counted
        ensures score { result.score ≡ self.score }
        ensures visited { result.visited ≡ min (test.visited + self.visited) (2 ^ 64 - 1) }
    {
        Counted {
            score: self.score,
            visited: test.visited.saturating_add(self.visited),
        }
    }
}
