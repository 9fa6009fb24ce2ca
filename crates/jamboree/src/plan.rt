//! What a frame of the search does next, as a small value.
//!
//! An act is a large value. So the functions that decide return a plan, and the act is made of the plan once, at the
//! end.
ghost use Rattle.std.specs.Prelude.{◌≤◌, ◌≤ℤ◌, pos, negsuc};

use crate::entry::PackedBound;
use crate::frame::Goal;
use crate::phases::Role;
use othello_board::Board;

/// A child to open.
#[derive(Drop)]
pub(crate) struct NewChild {
    /// The remaining depth and the window of its search.
    pub(crate) goal: Goal,
    /// What it is to its parent.
    pub(crate) role: Role,
    /// The number of the choice that it searches, from 0, among its parent's.
    pub(crate) number: usize,
    ghost low: { negsuc 999999 ≤ℤ goal.alpha },
    ghost high: { goal.alpha ≤ℤ pos 1000000 },
    ghost low_too: { negsuc 999999 ≤ℤ goal.beta },
    ghost high_too: { goal.beta ≤ℤ pos 1000000 },
    ghost few: { number ≤ 128 },
}

/// What a frame does next. "Computed" means: searched by one worker without children, outside the scheduler's lock.
#[derive(Drop)]
pub(crate) enum FramePlan {
    /// It returns, and stores nothing.
    Returns,
    /// It waits for a child, and stores nothing.
    Waits,
    /// It is computed, and stores nothing.
    Computes,
    /// All its choices are settled: it stores that it is done, and returns.
    Ends,
    /// It stores this board, as its own, and is computed.
    Computed(Board),
    /// It stores this board, as its own, and grows by an entry for each of the board's choices, whose count is given.
    Counts(Board, usize),
    /// It opens this child, for the first search of a choice or its test. The choice's entry keeps its rest (what is
    /// known of the choice); its status is `Runs`.
    Starts(NewChild, PackedBound),
    /// It opens this child, to search a choice again. The choice's entry keeps its rest (what is known of the choice);
    /// its status is `RunsAgain`.
    Again(NewChild, PackedBound),
}
