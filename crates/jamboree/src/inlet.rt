//! What a frame of the search does about a child that has returned: by the child's score and role.
ghost use Rattle.std.specs.Prelude.{◌≡◌, ◌≢◌, ◌<◌, ◌≤◌, ◌≤ℤ◌, ◌<ℤ◌, neg_ℤ, pos, negsuc, Bool, true, false, length};
ghost use Rattle.std.specs.Int.{int_max};
ghost use Rattle.othello_board.specs.Words.{cells};
ghost use Rattle.othello_moves.specs.Choices.{choices};
ghost use Rattle.jamboree_rules.specs.Frames.{floor, may_be_child};
ghost use Rattle.jamboree_rules.specs.Places.{pairs_of};
ghost use Rattle.jamboree_rules.specs.Acts.{seen, kind_of, found_rest, changes_by, changes_of, wakes, inlet_of};
ghost use Rattle.jamboree.specs.InletPlans.{inlet_for, stores_for, rest_said};
ghost use Rattle.jamboree.specs.Views.{frame_in};

use crate::codes::code_at;
use crate::entry::KnownBound;
use crate::frame::FrameView;
use crate::inlet_plan::{ChildBound, InletPlan, SettledChoice, Verdict};
use crate::next::floor;
use crate::phases::Role;
use jamboree_rules::othello_eval::BoundKind;

/// The plan of an inlet that stores nothing and only wakes the frame.
#[inline(always)]
pub(crate) fn wakes() -> InletPlan
    ensures { inlet_for result ≡ wakes }
{
    InletPlan {
        verdict: Verdict::Nothing,
        abort: false,
    }
}

/// The score of a child, seen from the parent.
#[inline(always)]
fn seen(child: &FrameView) -> i32
    ensures value { result ≡ seen (frame_in child.now) }
    ensures low { negsuc 199999 ≤ℤ result }
    ensures high { result ≤ℤ pos 1000000 }
{
    -child.best
}

/// What a child's score says of the value of its choice. To the parent the child's window goes from -beta to
/// -alpha of the child. A score at or below that window is an upper bound of the value (`Low`), one at or above
/// it a lower bound (`High`), and one inside it is the value (`Exact`).
#[inline(always)]
fn kind_of(child: &FrameView) -> BoundKind
    ensures { result ≡ kind_of (neg_ℤ child.now.goal.beta) (neg_ℤ child.now.goal.alpha) (seen (frame_in child.now)) }
{
    let score = seen(child);
    if score <= -child.goal.beta {
        return BoundKind::Low;
    }
    if -child.goal.alpha <= score {
        return BoundKind::High;
    }
    BoundKind::Exact
}

/// The greater of the frame's best score and the child's score.
#[inline(always)]
fn best_of(frame: &FrameView, child: &FrameView) -> i32
    ensures value { result ≡ int_max frame.now.best (seen (frame_in child.now)) }
    ensures low { negsuc 199999 ≤ℤ result }
    ensures high { result ≤ℤ pos 1000000 }
{
    frame.best.max(seen(child))
}

/// The number of the child's choice among those of the frame.
#[inline(always)]
fn number_of(frame: &FrameView, child: &FrameView) -> usize
    requires { may_be_child (frame_in frame.now) (frame_in child.now) ≡ true }
    ensures value { result ≡ child.now.number }
    ensures inside { result < length (choices (cells frame.now.board)) }
    ensures small { result ≤ 64 }
{
    child.number as usize
}

/// What the inlet of `frame` does about a child that has returned. A score of at least beta ends the frame and
/// aborts all else below it.
#[inline(always)]
pub(crate) fn takes_in(frame: &FrameView, child: &FrameView) -> InletPlan
    requires { may_be_child (frame_in frame.now) (frame_in child.now) ≡ true }
    ensures { inlet_for result ≡ inlet_of (frame_in frame.now) (frame_in child.now) }
{
    InletPlan {
        verdict: verdict_of(frame, child),
        abort: frame.goal.beta <= seen(child),
    }
}

/// What the frame does about the child's score, by the child's role.
#[inline(always)]
fn verdict_of(frame: &FrameView, child: &FrameView) -> Verdict
    requires { may_be_child (frame_in frame.now) (frame_in child.now) ≡ true }
    ensures { stores_for result ≡ pairs_of (changes_of (frame_in frame.now) (frame_in child.now)) }
{
    let score = seen(child);
    if frame.goal.beta <= score {
        return ended(frame, child);
    }
    match child.role {
        Role::Test => {
            if score <= -child.goal.beta {
                low(frame, child)
            } else {
                failed(frame, child)
            }
        }
        _ => {
            if floor(frame) < score {
                raised(frame, child)
            } else {
                kept(frame, child)
            }
        }
    }
}

/// The verdict on a score of at least beta: it becomes the frame's best score, the child's choice becomes the
/// frame's, and the frame is done.
#[inline(always)]
fn ended(frame: &FrameView, child: &FrameView) -> Verdict
    requires { may_be_child (frame_in frame.now) (frame_in child.now) ≡ true }
    ensures { (test low higher : Bool) → stores_for result ≡ pairs_of (changes_by true test low higher (frame_in frame.now) (frame_in child.now)) }
{
    let said = said(frame, child);
    let code = code_at(frame.board, said.number);
    let best = seen(child);
    Verdict::Ended(SettledChoice { best, said }, code)
}

/// The number of the child's choice, and what the child's score says of it.
#[inline(always)]
fn said(frame: &FrameView, child: &FrameView) -> ChildBound
    requires { may_be_child (frame_in frame.now) (frame_in child.now) ≡ true }
    ensures number { result.number ≡ child.now.number }
    ensures inside { result.number < length (choices (cells frame.now.board)) }
    ensures rest { rest_said result ≡ found_rest (frame_in child.now) }
{
    let number = number_of(frame, child);
    let score = seen(child);
    let kind = kind_of(child);
    ChildBound {
        number,
        known: KnownBound { score, kind },
    }
}

/// What the child says of its choice, and the frame's best score from then on: the greater of its own and the
/// child's.
#[inline(always)]
fn told(frame: &FrameView, child: &FrameView) -> SettledChoice
    requires { may_be_child (frame_in frame.now) (frame_in child.now) ≡ true }
    ensures best { result.best ≡ int_max frame.now.best (seen (frame_in child.now)) }
    ensures number { result.said.number ≡ child.now.number }
    ensures inside { result.said.number < length (choices (cells frame.now.board)) }
    ensures rest { rest_said result.said ≡ found_rest (frame_in child.now) }
{
    let said = said(frame, child);
    let best = best_of(frame, child);
    SettledChoice { best, said }
}

/// The verdict on a test whose score isn't above its window: its choice is settled.
#[inline(always)]
fn low(frame: &FrameView, child: &FrameView) -> Verdict
    requires { may_be_child (frame_in frame.now) (frame_in child.now) ≡ true }
    ensures { (higher : Bool) → stores_for result ≡ pairs_of (changes_by false true true higher (frame_in frame.now) (frame_in child.now)) }
{
    Verdict::Low(told(frame, child))
}

/// The verdict on a test whose score is above its window: it has failed, as the choice is worth more.
#[inline(always)]
fn failed(frame: &FrameView, child: &FrameView) -> Verdict
    requires { may_be_child (frame_in frame.now) (frame_in child.now) ≡ true }
    ensures { (higher : Bool) → stores_for result ≡ pairs_of (changes_by false true false higher (frame_in frame.now) (frame_in child.now)) }
{
    Verdict::Failed(said(frame, child))
}

/// The verdict on a full search whose score is above the floor: that is the best score, and its choice the
/// frame's.
#[inline(always)]
fn raised(frame: &FrameView, child: &FrameView) -> Verdict
    requires { may_be_child (frame_in frame.now) (frame_in child.now) ≡ true }
    ensures { (low : Bool) → stores_for result ≡ pairs_of (changes_by false false low true (frame_in frame.now) (frame_in child.now)) }
{
    let told = told(frame, child);
    let code = code_at(frame.board, told.said.number);
    Verdict::Raised(told, code)
}

/// The verdict on a full search whose score isn't above the floor: its choice is settled, and the frame's choice
/// stays.
#[inline(always)]
fn kept(frame: &FrameView, child: &FrameView) -> Verdict
    requires { may_be_child (frame_in frame.now) (frame_in child.now) ≡ true }
    ensures { (low : Bool) → stores_for result ≡ pairs_of (changes_by false false low false (frame_in frame.now) (frame_in child.now)) }
{
    Verdict::Kept(told(frame, child))
}
