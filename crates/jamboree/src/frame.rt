//! A frame of the search, typed. The statuses of its choices are read where they are asked for.
ghost use Rattle.std.specs.Prelude.{◌≡◌, ◌≤◌, ◌≤ℤ◌, ◌<ℤ◌, true, [], pos, negsuc};
ghost use Rattle.jamboree_rules.specs.Frames.{is_frame};
ghost use Rattle.jamboree.specs.Numbers.{frame_by};

use crate::phases::{Phase, Role};
use othello_board::Board;

/// How a board is searched: to which depth, and with which window.
#[derive(Clone, Copy)]
pub(crate) struct Goal {
    /// The remaining depth, in plies.
    pub(crate) depth: u8,
    /// The lower end of the window.
    pub(crate) alpha: i32,
    /// The upper end of the window.
    pub(crate) beta: i32,
}

/// A frame: what its first twelve words say.
#[derive(Drop)]
pub(crate) struct FrameView {
    /// The board, seen by the player to move. A child in phase `New` has none yet: both words are 0.
    pub(crate) board: Board,
    /// The remaining depth, and the window.
    pub(crate) goal: Goal,
    /// What the frame is to its parent.
    pub(crate) role: Role,
    /// The number of the choice that it searches, from 0, among its parent's. A root's isn't used.
    pub(crate) number: u64,
    /// How far it has come.
    pub(crate) phase: Phase,
    /// The best score so far: -1,000,000 in the phases `New` and `Computing`, and -200,000 in `First`.
    pub(crate) best: i32,
    /// The code of the best choice: 0 to 63 a square, 64 a pass, 65 none. It is the last choice whose child's score was
    /// above the floor (alpha and the best score before it), or that of a computation's answer. It means nothing in the
    /// phases `New` and `Computing`.
    pub(crate) choice: u64,
    /// How many entries of choices stand after the twelve words: one for each choice of the board in the phases `First`
    /// and `Tests`, none in `New` and `Computing`.
    pub(crate) count: usize,
    /// For how many of these choices, from the first on, a child was opened.
    pub(crate) spawned: usize,
    ghost form: { is_frame (frame_by board goal role number (record { phase = phase; best = best; choice = choice; count = count; spawned = spawned }) []) ≡ true },
    ghost few: { count ≤ 116 },
    ghost least: { negsuc 199999 ≤ℤ goal.alpha },
    ghost window: { goal.alpha <ℤ goal.beta },
    ghost greatest: { goal.beta ≤ℤ pos 200000 },
    ghost low: { negsuc 999999 ≤ℤ best },
    ghost high: { best ≤ℤ pos 200000 },
}
