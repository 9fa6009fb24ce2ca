//! What an inlet (a frame's taking in of a returned child) does in the search, as a small value: the inlet's act, which
//! is large, is made of it once, at the end.
ghost use Rattle.std.specs.Prelude.{◌≤◌, ◌≤ℤ◌, pos, negsuc};

use crate::entry::KnownBound;

/// What a returned child tells its parent: the number of the choice that it searched, and what is known of that choice
/// by the child's score.
#[derive(Drop)]
pub(crate) struct ChildBound {
    pub(crate) number: usize,
    pub(crate) known: KnownBound,
    ghost few: { number ≤ 64 },
    ghost low: { negsuc 199999 ≤ℤ known.score },
    ghost high: { known.score ≤ℤ pos 1000000 },
}

/// What a returned child tells its parent of a choice that needs no more search, and the parent's best score from then
/// on.
#[derive(Drop)]
pub(crate) struct SettledChoice {
    pub(crate) best: i32,
    pub(crate) said: ChildBound,
    ghost low: { negsuc 199999 ≤ℤ best },
    ghost high: { best ≤ℤ pos 1000000 },
}

/// What a frame does about a returned child, by the child's score as the frame sees it (negated). The number in `Ended`
/// and `Raised` is the code of the choice that the child searched, which becomes the frame's best choice. "Settled"
/// means that the choice needs no more search.
#[derive(Drop)]
pub(crate) enum Verdict {
    /// Nothing: the words aren't those of a frame and of a child of it.
    Nothing,
    /// The score is at least the frame's beta: the frame is done.
    Ended(SettledChoice, u64),
    /// A test's score is at or below the lower end of its window: the choice is settled.
    Low(SettledChoice),
    /// A test's score is above the lower end of its window: the choice is to be searched again.
    Failed(ChildBound),
    /// A full search's score is above the floor, the greater of alpha and the best score: its choice is settled,
    /// and the best so far.
    Raised(SettledChoice, u64),
    /// A full search's score isn't above the floor: its choice is settled.
    Kept(SettledChoice),
}

/// What an inlet does: it stores what the verdict asks for, aborts all else below the frame where `abort` is
/// true, and wakes the frame in any case.
#[derive(Drop)]
pub(crate) struct InletPlan {
    pub(crate) verdict: Verdict,
    pub(crate) abort: bool,
}
