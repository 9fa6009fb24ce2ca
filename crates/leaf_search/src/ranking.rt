//! The choices of a board in the order in which the ordered serial search takes them.
ghost use Rattle.std.specs.Prelude.{◌≡◌, [], map};
ghost use Rattle.std.specs.List.Sorted.{IsPermutation};
ghost use Rattle.othello_board.specs.Words.{cells};
ghost use Rattle.othello_eval.specs.othello_moves.Choices.{choices};
ghost use Rattle.othello_eval.specs.Values.{IsWithin};
ghost use Rattle.leaf_search.specs.Ranking.{numbered, numbered_choice};

use arrayvec::ArrayVec;
use othello_board::Board;
use othello_eval::Weighed;
use othello_eval::othello_moves::laws::choices_are_few;
use othello_eval::othello_moves::{Choice, Choices, Mobility};

/// The most choices that a list has room for: no board has more.
pub(crate) const MOST_CHOICES: usize = 56;

/// The squares of column a, and those of column h.
const COLUMN_A: u64 = 0x0101_0101_0101_0101;

const COLUMN_H: u64 = 0x8080_8080_8080_8080;

/// A choice, and the key by which it is taken. The board after it isn't kept: with boards a list takes 2 kilobytes and not half of one,
/// and laying it out takes longer than to make the boards again that are searched.
#[derive(Clone, Copy, Drop)]
pub(crate) struct Ranked {
    /// The choice with the lowest key is searched first.
    pub key: i32,
    /// The choice.
    pub choice: Choice,
    /// Its place in the rules' order, counted from 0.
    pub place: u16,
}

/// What stands in the unused places of a list.
impl Default for Ranked {
    ghost is_default = { λ _. Unit {0} };

    /// A filler for the places of a list that aren't used.
    fn default() -> Self {
        Ranked {
            key: 0,
            choice: Choice::Square(0),
            place: 0,
        }
    }
}

/// The least depth at which a key counts the moves of both players: below it they would take longer to count than better keys save.
const LEAST_COUNTED: u8 = 4;

/// How many squares are set in a word.
#[inline(always)]
fn count(squares: u64) -> i32
    ensures { IsWithin 64 result }
{
    squares.count_ones() as i32
}

/// How many of these empty squares touch one of these discs by a side or a corner.
#[inline(always)]
fn beside(discs: u64, empty: u64) -> i32
    ensures { IsWithin 64 result }
{
    let right = (discs & !COLUMN_H) << 1;
    let left = (discs & !COLUMN_A) >> 1;
    let rows = discs | right | left;
    count((rows | rows << 8 | rows >> 8) & empty)
}

/// The key by which a choice that is made at this depth is ranked. It is made of the board after the choice, seen by the
/// opponent: what its discs are worth there less the mover's, and how many empty squares touch the mover's discs (the
/// opponent could come to move there) less those that touch its own; from a depth of 4 on also how many moves each side
/// has. No search is made for it, and no contract speaks of it.
#[inline(always)]
fn key_of(after: Weighed, depth: u8) -> i32 {
    let Board { own, opp, .. } = after.board;
    let empty = !(own | opp);
    let opponent = beside(opp, empty);
    let mover = beside(own, empty);
    if depth < LEAST_COUNTED {
        return after.discs + 4 * (opponent - mover);
    }
    let mobility = Mobility::of(after.board);
    let moves = 8 * count(mobility.own) - 4 * count(mobility.opp);
    after.discs + (moves + (3 * opponent - mover))
}

/// Fills an empty list with the choices of a board in the rules' order, each with its key at this depth.
#[inline(always)]
fn list(ranked: &mut ArrayVec<Ranked, MOST_CHOICES>, weighed: Weighed, depth: u8)
    requires { ranked.old.items ≡ [] }
    ensures { map numbered_choice ranked.new.items ≡ numbered 0 (choices (cells weighed.board)) }
{
    choices_are_few();
    let mut left = Choices::new(weighed.board);
    while let Some(choice) = left.pop_first() {
        let key = key_of(weighed.after(choice), depth);
        let place = ranked.len() as u16;
        ranked.push(Ranked { key, choice, place });
    }
}

/// Fills an empty list with the choices of a board by rising key at this depth: all of them, each once, with its place in the
/// rules' order. It is the caller's list: one that is handed out would be copied.
#[inline(always)]
pub(crate) fn rank(ranked: &mut ArrayVec<Ranked, MOST_CHOICES>, weighed: Weighed, depth: u8)
    requires { ranked.old.items ≡ [] }
    ensures { IsPermutation (numbered 0 (choices (cells weighed.board))) (map numbered_choice ranked.new.items) }
{
    list(ranked, weighed, depth);
    ranked
        .as_mut_slice()
        .sort_unstable_by_key(|ranked| ranked.key);
}
