//! What a frame of the search does next, by its phase.
ghost use Rattle.std.specs.Prelude.{◌≡◌, ◌≢◌, ◌+◌, ◌<◌, ◌≤◌, ◌≤ℤ◌, pos, negsuc, ◌==◌, ℕ, Bool, true, false, Option, Some, None, List, [], ◌∷◌, length};
ghost use Rattle.othello_board.specs.Words.{cells};
ghost use Rattle.othello_moves.specs.Choices.{choices, plies};
ghost use Rattle.jamboree_rules.specs.Frames.{Frame, choice_at, rest_at, floor, may_be_child};
ghost use Rattle.jamboree_rules.specs.Places.{frame_size};
ghost use Rattle.jamboree_rules.specs.Acts.{spawns, opening_on, first_search, first_open, tests, tests_from, act_of};
ghost use Rattle.jamboree.specs.Numbers.{role_number};
ghost use Rattle.jamboree.specs.Plans.{act_for, spawn_of};
ghost use Rattle.jamboree.specs.Views.{frame_in, frame_with, entries_of, statuses_in};

use crate::entry::PackedBound;
use crate::frame::{FrameView, Goal};
use crate::phases::{Phase, Role};
use crate::plan::{FramePlan, NewChild};
use crate::statuses::{first_open, has_failed, rest_at};
use cactus_stack::Words;
use othello_board::Board;
use othello_moves::{after, choice, choice_count, plies};

/// What a new frame with this board does first. Where its depth is at most the grain, or the game is over, one
/// worker computes it by itself; else it gets an entry for each of its choices. At a depth within the grain its
/// choices aren't looked for.
#[inline(always)]
pub(crate) fn opening(grain: u8, frame: &FrameView, board: Board) -> FramePlan
    ensures { act_for result ≡ opening_on grain (frame_in frame.now) board.own board.opp }
{
    if frame.goal.depth <= grain {
        return FramePlan::Computed(board);
    }
    match choice_count(board) {
        0 => FramePlan::Computed(board),
        count => FramePlan::Counts(board, count),
    }
}

/// The greater of alpha and the best score: only a choice that is worth more still matters.
#[inline(always)]
pub(crate) fn floor(frame: &FrameView) -> i32
    ensures value { result ≡ floor (frame_in frame.now) }
    ensures low { negsuc 199999 ≤ℤ result }
    ensures high { result ≤ℤ pos 200000 }
{
    frame.goal.alpha.max(frame.best)
}

/// How many plies the choice of this number takes: 1 for a square, 0 for a pass. A pass is the only choice of its
/// board, so where there are more the choice isn't looked up.
#[inline(always)]
#[tactic(auto, using(crate::proofs::ActLemmas::square_of_more))]
fn plies_of(frame: &FrameView, number: usize) -> u8
    requires choices { frame.now.count ≡ length (choices (cells frame.now.board)) }
    requires inside { number < frame.now.count }
    ensures value { result ≡ plies (choice_at (frame_in frame.now) number) }
    ensures small { result ≤ 1 }
{
    if frame.count > 1 {
        return 1;
    }
    plies(choice(frame.board, number)) as u8
}

/// A new child that searches the choice of this number, in this role and with this window.
#[inline(always)]
fn child(frame: &FrameView, role: Role, number: usize, alpha: i32, beta: i32) -> NewChild
    requires deep { 0 < frame.now.goal.depth }
    requires choices { frame.now.count ≡ length (choices (cells frame.now.board)) }
    requires inside { number < frame.now.count }
    requires few { number ≤ 128 }
    requires low { negsuc 999999 ≤ℤ alpha }
    requires high { alpha ≤ℤ pos 1000000 }
    requires low_too { negsuc 999999 ≤ℤ beta }
    requires high_too { beta ≤ℤ pos 1000000 }
    ensures spawned { spawn_of result ≡ spawns (frame_in frame.now) (role_number role) number alpha beta }
    ensures number { result.number ≡ number }
{
    NewChild {
        goal: Goal {
            depth: frame.goal.depth - plies_of(frame, number),
            alpha,
            beta,
        },
        role,
        number,
    }
}

/// What a frame does while its first choice is searched: it opens the child for it, with the whole window, or
/// waits for that child.
#[inline(always)]
#[tactic(auto, using(crate::proofs::Rules::first_search_rules))]
fn first_search(frame: &FrameView, words: &Words) -> FramePlan
    requires deep { 0 < frame.now.goal.depth }
    requires choices { frame.now.count ≡ length (choices (cells frame.now.board)) }
    requires some { 0 < frame.now.count }
    ensures { act_for result ≡ first_search (frame.now.spawned == 0) (frame_with frame.now (entries_of words.now)) }
{
    if frame.spawned != 0 {
        return FramePlan::Waits;
    }
    let child = child(
        frame,
        Role::FirstChild,
        0,
        -frame.goal.beta,
        -frame.goal.alpha,
    );
    FramePlan::Starts(child, rest_at(words, 0))
}

/// What a frame does while its later choices are tested. Where the first choice that isn't settled has failed its
/// test, it is searched again; else the next choice is tested, if there is one; else the frame is done, or waits
/// for a child where a choice isn't settled.
#[inline(always)]
fn tests(frame: &FrameView, words: &Words) -> FramePlan
    requires deep { 0 < frame.now.goal.depth }
    requires choices { frame.now.count ≡ length (choices (cells frame.now.board)) }
    requires entries { length words.now ≡ frame_size + frame.now.count }
    ensures { act_for result ≡ tests_from (frame_with frame.now (entries_of words.now)) (first_open (statuses_in words.now)) }
{
    let open = first_open(words);
    if has_failed(words, open) {
        return search_again(frame, open, rest_at(words, open));
    }
    let choices = frame.count;
    if frame.spawned < choices {
        return test(frame, frame.spawned, rest_at(words, frame.spawned));
    }
    if frame.count <= open {
        return FramePlan::Ends;
    }
    FramePlan::Waits
}

/// Searches the choice of this number again, with the window from the floor to beta. What its entry says of its
/// value stays.
#[inline(always)]
fn search_again(frame: &FrameView, number: usize, rest: PackedBound) -> FramePlan
    requires deep { 0 < frame.now.goal.depth }
    requires choices { frame.now.count ≡ length (choices (cells frame.now.board)) }
    requires inside { number < frame.now.count }
    ensures { (more all : Bool) (entries : List ℕ) → rest.word ≡ rest_at (frame_with frame.now entries) number → act_for result ≡ tests true more all (frame_with frame.now entries) number }
{
    let child = child(frame, Role::Again, number, -frame.goal.beta, -floor(frame));
    FramePlan::Again(child, rest)
}

/// Tests the next choice, with the window of width one just above the floor. What its entry says of its value
/// stays.
#[inline(always)]
fn test(frame: &FrameView, number: usize, rest: PackedBound) -> FramePlan
    requires deep { 0 < frame.now.goal.depth }
    requires choices { frame.now.count ≡ length (choices (cells frame.now.board)) }
    requires next { number ≡ (frame_in frame.now).spawned }
    requires inside { number < frame.now.count }
    ensures { (all : Bool) (entries : List ℕ) (first : ℕ) → rest.word ≡ rest_at (frame_with frame.now entries) number → act_for result ≡ tests false true all (frame_with frame.now entries) first }
{
    let floor = floor(frame);
    let child = child(frame, Role::Test, number, -(floor + 1), -floor);
    FramePlan::Starts(child, rest)
}

/// What a frame that isn't new does next, by its phase. `words` are all of its words. One that is done returns.
#[inline(always)]
pub(crate) fn later(frame: &FrameView, words: &Words) -> FramePlan
    requires later { (frame_in frame.now).phase ≢ 0 }
    requires entries { length words.now ≡ frame_size + frame.now.count }
    ensures { (grain : ℕ) (parent : Option Frame) → act_for result ≡ act_of grain (frame_with frame.now (entries_of words.now)) parent }
{
    match frame.phase {
        Phase::Computing => FramePlan::Computes,
        Phase::First => first_search(frame, words),
        Phase::Tests => tests(frame, words),
        Phase::New | Phase::Done => FramePlan::Returns,
    }
}

/// What a root does next; `words` are all of its words. Whatever the grain, one worker computes it by itself only at
/// depth 0 or where the game is over; else it gets an entry for each choice at its first act.
#[inline(always)]
pub(crate) fn of_root(grain: u8, frame: &FrameView, words: &Words) -> FramePlan
    requires { length words.now ≡ frame_size + frame.now.count }
    ensures { act_for result ≡ act_of grain (frame_with frame.now (entries_of words.now)) None }
{
    match frame.phase {
        Phase::New => opening(0, frame, frame.board),
        _ => later(frame, words),
    }
}

/// The board of a new child of this parent: the parent's board after the child's choice.
#[inline(always)]
pub(crate) fn board_under(frame: &FrameView, parent: &FrameView) -> Board
    requires { may_be_child (frame_in parent.now) (frame_in frame.now) ≡ true }
    ensures { (grain : ℕ) (others entries : List ℕ) → (frame_in frame.now).phase ≡ 0 →
        opening_on grain (frame_with frame.now entries) result.own result.opp ≡ act_of grain (frame_with frame.now entries) (Some (frame_with parent.now others)) }
{
    let chosen = choice(parent.board, frame.number as usize);
    after(parent.board, chosen)
}
