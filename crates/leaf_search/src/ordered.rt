//! The serial search that takes the choices in the order of a key, and tests all but the first by windows of width one.
ghost use Rattle.std.specs.Prelude.{◌≡◌, ◌<◌, ◌≤◌, ◌<ℤ◌, ◌≤ℤ◌, ◌+ℤ◌, IfSome, IsTrue, Contains, None, Some, neg_ℤ, pos};
ghost use Rattle.std.specs.Int.{int_max};
ghost use Rattle.othello_board.specs.Words.{cells};
ghost use Rattle.othello_eval.specs.othello_moves.Choices.{choices};
ghost use Rattle.othello_eval.specs.Values.{IsWithin};
ghost use Rattle.othello_eval.specs.Minimax.{minimax, best_choice};
ghost use Rattle.leaf_search.specs.Bounds.{IsBound};

use super::classes::EdgesEarly;
use super::ranking::{Ranked, rank};
use super::scored::{Counted, Scored};
use super::tree::{search_below, search_by};
use super::window::{INF, Window};
use arrayvec::ArrayVec;
use othello_board::Board;
use othello_eval::othello_moves::{Choice, DEEPEST, plies};
use othello_eval::{Weighed, final_value};

/// The least depth at which the choices are ordered by keys: below it they are taken by classes of squares, as making the list
/// would take longer than it saves (at the first position in the rules' order).
const LEAST_ORDERED: u8 = 3;

/// Searches a board through a window, as [`search`] does, but takes the choices of each position in the order of a key,
/// by which far fewer positions are entered. Takes no memory and refuses nothing.
#[inline(always)]
pub fn search_ordered(board: Board, depth: u8, alpha: i32, beta: i32) -> Scored
    requires shallow { depth ≤ DEEPEST }
    requires least { neg_ℤ INF ≤ℤ alpha }
    requires open { alpha <ℤ beta }
    requires greatest { beta ≤ℤ INF }
    ensures bound { IsBound alpha beta result.score (minimax depth (cells board)) }
    ensures choice { alpha <ℤ result.score → result.score <ℤ beta → result.choice ≡ best_choice depth (cells board) }
    ensures within { IsWithin 128000 result.score }
    ensures chosen { IfSome result.choice (Contains (choices (cells board))) }
{
    let window = Window { alpha, beta };
    if depth < LEAST_ORDERED {
        return search_by::<EdgesEarly>(board, depth, window);
    }
    best_ranked(Weighed::of(board), depth, window, true)
}

/// Searches a board through the full window, as [`search_full`](super::search_full) does, by [`search_ordered`].
pub fn search_ordered_full(board: Board, depth: u8) -> Scored
    requires { depth ≤ DEEPEST }
    ensures score { result.score ≡ minimax depth (cells board) }
    ensures choice { result.choice ≡ best_choice depth (cells board) }
    ensures within { IsWithin 128000 result.score }
    ensures chosen { IfSome result.choice (Contains (choices (cells board))) }
{
    search_ordered(board, depth, -INF, INF)
}

/// The best so far of the choices that were searched.
#[derive(Clone, Copy)]
struct Best {
    /// The best score, the choice that has it, and how many positions were entered.
    found: Scored,
    /// The place of that choice in the rules' order.
    place: u16,
}

impl Best {
    /// Before the first choice: a score below all others, at a place behind all others.
    fn nothing() -> Best
        ensures { result ≡ record { found = record { score = neg_ℤ INF; choice = None; visited = 1 }; place = 255 } }
    {
        Best {
            found: Scored::entered(-INF),
            place: 255,
        }
    }

    /// The score that a choice at this place has to exceed to be the best: the best score, and where the first best choice is
    /// wanted and it comes earlier than the best so far, one less, so that a tie counts.
    #[inline(always)]
    fn floor(self, place: u16, first: bool) -> i32
        requires { neg_ℤ INF ≤ℤ self.found.score }
        ensures most { result ≤ℤ self.found.score }
        ensures least { self.found.score ≤ℤ (result +ℤ pos 1) }
        ensures earlier { IsTrue first → place < self.place → result <ℤ self.found.score }
        ensures only { result <ℤ self.found.score → IsTrue first × (place < self.place) }
    {
        if first && place < self.place {
            return self.found.score - 1;
        }
        self.found.score
    }

    /// Adds to what was found so far the result of searching the position after a choice, seen by the opponent, through
    /// this window. Where the negated score is above the score so far, or above what the window asked for, the choice
    /// takes the place of the one so far, and the score is the greater of both.
    #[inline(always)]
    fn take_in(&mut self, ranked: Ranked, child: Counted, window: Window)
        requires { IsWithin 128000 child.score }
        ensures score { self.new.found.score ≡ int_max self.old.found.score (neg_ℤ child.score) }
        ensures better { self.old.found.score <ℤ neg_ℤ child.score → (self.new.found.choice ≡ Some ranked.choice) × (self.new.place ≡ ranked.place) }
        ensures above { neg_ℤ window.beta <ℤ neg_ℤ child.score → (self.new.found.choice ≡ Some ranked.choice) × (self.new.place ≡ ranked.place) }
        ensures kept { neg_ℤ child.score ≤ℤ self.old.found.score → neg_ℤ child.score ≤ℤ neg_ℤ window.beta → (self.new.found.choice ≡ self.old.found.choice) × (self.new.place ≡ self.old.place) }
    {
        self.found.visited = self.found.visited.saturating_add(child.visited);
        let score = -child.score;
        if score > self.found.score.min(-window.beta) {
            self.found.score = self.found.score.max(score);
            self.found.choice = Some(ranked.choice);
            self.place = ranked.place;
        }
    }
}

/// Searches the positions after the choices of a board in the order of their keys, to a depth of 1 or more, until one has a
/// score of at least beta. Says which choice was best; where the first best choice is wanted, that one, else any or none.
#[cycle(ordered)]
fn best_ranked(weighed: Weighed, depth: u8, window: Window, first: bool) -> Scored
    requires { 0 < depth }
    ensures bound { IsBound window.alpha window.beta result.score (minimax depth (cells weighed.board)) }
    ensures choice { IsTrue first → window.alpha <ℤ result.score → result.score <ℤ window.beta → result.choice ≡ best_choice depth (cells weighed.board) }
    ensures within { IsWithin 128000 result.score }
    ensures chosen { IfSome result.choice (Contains (choices (cells weighed.board))) }
{
    let mut list = ArrayVec::new();
    rank(&mut list, weighed, depth);
    let all = list.as_slice();
    if all.is_empty() {
        return Scored::entered(final_value(weighed.board));
    }
    let mut best = Best::nothing();
    for ranked in all {
        let below = depth - plies(ranked.choice) as u8;
        let seen = window.of_child(best.floor(ranked.place, first));
        let after = weighed.after(ranked.choice);
        let child = score_after(after, below, seen, best.found.choice.is_some());
        best.take_in(*ranked, child, seen);
        if best.found.score >= window.beta {
            return best.found;
        }
    }
    best.found
}

/// The score of a position after a choice. Where it is to be tested, it is first searched through the last part of the
/// window, of width one: most choices turn out not to be better there, and only one whose score lies inside the window is
/// searched again through all of it.
#[cycle(ordered)]
fn score_after(weighed: Weighed, depth: u8, window: Window, tests: bool) -> Counted
    ensures bound { IsBound window.alpha window.beta result.score (minimax depth (cells weighed.board)) }
    ensures within { IsWithin 128000 result.score }
{
    if !tests || window.beta - window.alpha == 1 {
        return search_ranked(weighed, depth, window);
    }
    let test = search_ranked(weighed, depth, window.last());
    if test.score <= window.alpha {
        return test;
    }
    if test.score >= window.beta {
        return test;
    }
    search_ranked(weighed, depth, window).after(test)
}

/// Searches one position below the first, and what has to be entered below it.
#[cycle(ordered)]
fn search_ranked(weighed: Weighed, depth: u8, window: Window) -> Counted
    ensures bound { IsBound window.alpha window.beta result.score (minimax depth (cells weighed.board)) }
    ensures within { IsWithin 128000 result.score }
{
    if depth < LEAST_ORDERED {
        return search_below::<EdgesEarly>(weighed, depth, window);
    }
    best_ranked(weighed, depth, window, false).counted()
}
