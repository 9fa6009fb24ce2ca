//! The serial search of a position, and of all that is entered below it.
ghost use Rattle.std.specs.Prelude.{◌≡◌, ◌<◌, ◌≤◌, ◌<ℤ◌, ◌≤ℤ◌, IfSome, Contains, neg_ℤ};
ghost use Rattle.othello_board.specs.Words.{cells};
ghost use Rattle.othello_eval.specs.othello_moves.Choices.{choices};
ghost use Rattle.othello_eval.specs.Values.{IsWithin, discs_value, weights};
ghost use Rattle.othello_eval.specs.Minimax.{minimax, best_choice};
ghost use Rattle.leaf_search.specs.Bounds.{IsBound};
ghost use Rattle.leaf_search.specs.Serial.{searched, IsRulesOrder};

use super::classes::{ClassOrder, Specified};
use super::leaf::entered;
use super::scored::{Counted, Scored};
use super::window::{INF, Window};
use othello_board::Board;
use othello_eval::othello_moves::{Choices, DEEPEST, plies};
use othello_eval::{Weighed, final_value};

/// Searches a board to a depth of 0 to 12 plies through a window (fail-soft alpha-beta: Fishburn 1983).
///
/// The score is a bound of the minimax value: an upper bound where it is at most `alpha`, a lower bound
/// where it is at least `beta`, and between the two the value itself. There the choice is the best
/// choice, the first in order that attains the value, so none at depth 0 and in a finished game; a
/// choice outside the window is one of the board's choices, and no more is promised of it. Score and
/// count of positions are those of the specified search (`specs/Serial.antt`): the choices in the rules'
/// order, each through the window from `-beta` to `-max(alpha, best)`, until one has a score of at least
/// `beta`. Takes no memory and refuses nothing.
pub fn search(board: Board, depth: u8, alpha: i32, beta: i32) -> Scored
    requires shallow { depth ≤ DEEPEST }
    requires least { neg_ℤ INF ≤ℤ alpha }
    requires open { alpha <ℤ beta }
    requires greatest { beta ≤ℤ INF }
    ensures bound { IsBound alpha beta result.score (minimax depth (cells board)) }
    ensures choice { alpha <ℤ result.score → result.score <ℤ beta → result.choice ≡ best_choice depth (cells board) }
    ensures within { IsWithin 128000 result.score }
    ensures chosen { IfSome result.choice (Contains (choices (cells board))) }
    ensures score { result.score ≡ (searched depth (cells board) alpha beta).0 }
    ensures visited { result.visited ≡ (searched depth (cells board) alpha beta).1 }
{
    search_by::<Specified>(board, depth, Window { alpha, beta })
}

/// Searches a board as [`search`] does, and takes the choices below the first position in this order. In the rules' order it is the
/// specified search.
#[inline(always)]
pub(crate) fn search_by<O: ClassOrder>(board: Board, depth: u8, window: Window) -> Scored
    ensures bound { IsBound window.alpha window.beta result.score (minimax depth (cells board)) }
    ensures choice { window.alpha <ℤ result.score → result.score <ℤ window.beta → result.choice ≡ best_choice depth (cells board) }
    ensures within { IsWithin 128000 result.score }
    ensures chosen { IfSome result.choice (Contains (choices (cells board))) }
    ensures specified { IsRulesOrder O.IsTaken → searched depth (cells board) window.alpha window.beta ≡ (result.score, result.visited) }
{
    let weighed = Weighed::of(board);
    if depth > 0 {
        return best_of::<O>(weighed, depth, window);
    }
    Scored::entered(entered(weighed))
}

/// Searches a board to a depth of 0 to 12 plies through the full window, in which every value lies: the
/// score is the minimax value, and the choice the best choice.
pub fn search_full(board: Board, depth: u8) -> Scored
    requires { depth ≤ DEEPEST }
    ensures score { result.score ≡ minimax depth (cells board) }
    ensures choice { result.choice ≡ best_choice depth (cells board) }
    ensures within { IsWithin 128000 result.score }
    ensures chosen { IfSome result.choice (Contains (choices (cells board))) }
    ensures visited { result.visited ≡ (searched depth (cells board) (neg_ℤ INF) INF).1 }
{
    search(board, depth, -INF, INF)
}

/// Searches the positions after the choices of a board in the rules' order, to a depth of 1 or more, until one has
/// a score of at least beta, and says which choice was best.
fn best_of<O: ClassOrder>(weighed: Weighed, depth: u8, window: Window) -> Scored
    requires { 0 < depth }
    ensures bound { IsBound window.alpha window.beta result.score (minimax depth (cells weighed.board)) }
    ensures choice { window.alpha <ℤ result.score → result.score <ℤ window.beta → result.choice ≡ best_choice depth (cells weighed.board) }
    ensures within { IsWithin 128000 result.score }
    ensures chosen { IfSome result.choice (Contains (choices (cells weighed.board))) }
    ensures specified { IsRulesOrder O.IsTaken → searched depth (cells weighed.board) window.alpha window.beta ≡ (result.score, result.visited) }
{
    let mut left = Choices::new(weighed.board);
    if left.is_empty() {
        return Scored::entered(final_value(weighed.board));
    }
    let mut best = Scored::entered(-INF);
    while let Some(choice) = left.pop_first() {
        let rest = depth - plies(choice) as u8;
        let seen = window.of_child(best.score);
        let child = search_below::<O>(weighed.after(choice), rest, seen);
        best.take_in(choice, child);
        if best.score >= window.beta {
            return best;
        }
    }
    best
}

/// Searches one position below the first, and all that has to be entered below it. It is inlined in `score_of`, so that a
/// leaf costs no call: most positions are leaves, which have none below them. The order is a type, so that each search has
/// its own code.
#[cycle(search)]
#[inline(always)]
pub(crate) fn search_below<O: ClassOrder>(weighed: Weighed, depth: u8, window: Window) -> Counted
    ensures bound { IsBound window.alpha window.beta result.score (minimax depth (cells weighed.board)) }
    ensures within { IsWithin 128000 result.score }
    ensures specified { IsRulesOrder O.IsTaken → searched depth (cells weighed.board) window.alpha window.beta ≡ (result.score, result.visited) }
{
    if depth > 0 {
        return score_of::<O>(weighed.board, weighed.discs, depth, window);
    }
    Counted::entered(entered(weighed))
}

/// The score of a position below the first and how many positions were entered, as `best_of` finds them, without the
/// choice. The board and the value of its discs are handed on by themselves, in registers.
#[cycle(search)]
fn score_of<O: ClassOrder>(board: Board, discs: i32, depth: u8, window: Window) -> Counted
    requires weighed { discs ≡ discs_value (cells board) weights }
    requires deep { 0 < depth }
    ensures bound { IsBound window.alpha window.beta result.score (minimax depth (cells board)) }
    ensures within { IsWithin 128000 result.score }
    ensures specified { IsRulesOrder O.IsTaken → searched depth (cells board) window.alpha window.beta ≡ (result.score, result.visited) }
{
    let mut left = O::list(board);
    if left.is_empty() {
        return Counted::entered(final_value(board));
    }
    let weighed = Weighed { board, discs };
    let mut best = Counted::entered(-INF);
    while let Some(choice) = left.pop_first() {
        let below = depth - plies(choice) as u8;
        let seen = window.of_child(best.score);
        let child = search_below::<O>(weighed.after(choice), below, seen);
        best = best.with(child);
        if best.score >= window.beta {
            return best;
        }
    }
    best
}
