//! Replies to searches: read from a job's words, and shown.
ghost use Rattle.std.specs.Prelude.{◌≡◌, ◌≤◌, ◌<◌, ◌↔◌, true, Some, IsSome, IfSome, length, map, slice_get, slice_index, take};
ghost use Rattle.othello_moves.specs.Depths.{greatest_depth};
ghost use Rattle.jamboree_rules.specs.Places.{frame_of, entry_rest, are_entries};
ghost use Rattle.jamboree_rules.specs.Entries.{bounds_of};
ghost use Rattle.jamboree.specs.Knowledge.{known_of, bound_by};

use crate::codes::decoded;
use crate::entry::{KnownBound, PackedBound};
use crate::reply::{MOST, Reply};
use crate::view::{kept_entries, kept_view};
use jamboree_rules::othello_eval::{Bound, BoundKind};
use othello_board::Board;
use othello_moves::{Choice, choice};

/// What is known of the choices with these entries, in their order; the places after them hold a filler.
fn known_in(entries: &[u64]) -> [KnownBound; MOST]
    requires few { length entries.now ≤ 64 }
    requires entries { are_entries entries.now ≡ true }
    ensures { take (length entries.now) result ≡ map known_of (map entry_rest entries.now) }
{
    let nothing = KnownBound {
        score: 0,
        kind: BoundKind::Low,
    };
    let mut known = [nothing; MOST];
    for (number, entry) in entries.iter().enumerate() {
        known[number] = PackedBound::of(*entry).known();
    }
    known
}

impl KnownBound {
    /// What is known of this choice, as an entry of a table.
    fn of(self, choice: Choice) -> Bound
        ensures { result ≡ bound_by choice self }
    {
        Bound {
            choice,
            score: self.score,
            kind: self.kind,
        }
    }
}

impl Reply {
    ghost use Rattle.othello_board.specs.Words.{cells};
    ghost use Rattle.othello_moves.specs.Choices.{choices};
    ghost use Rattle.jamboree_rules.specs.othello_eval.Minimax.{minimax, best_choice};
    ghost use Rattle.jamboree_rules.specs.othello_eval.Tables.{entered, IsTrueBound, IsExactIfBest, IsTable};
    ghost use Rattle.jamboree_rules.specs.Fits.{IsKeptRoot};
    ghost use Rattle.jamboree.specs.Replies.{board_of, depth_of, table_of};

    /// The reply in the words that a job kept of its returned root.
    pub fn read(words: &[u64]) -> Reply
        requires { IsKeptRoot words.now }
        ensures own { (board_of result).own ≡ slice_index words.now 0 }
        ensures opp { (board_of result).opp ≡ slice_index words.now 1 }
        ensures depth { depth_of result ≡ slice_index words.now 2 }
        ensures table { table_of result ≡ bounds_of (frame_of words.now) }
    {
        let root = kept_view(words);
        let entries = kept_entries(words);
        Reply {
            board: root.board,
            depth: root.goal.depth,
            value: root.best,
            choice: decoded(root.choice),
            count: entries.len(),
            known: known_in(entries),
        }
    }

    /// The board, seen by the player to move.
    pub fn board(&self) -> Board
        ensures { result ≡ board_of self.now }
    {
        self.board
    }

    /// The depth to which the position was searched, 0 to 12 plies.
    pub fn depth(&self) -> u8
        ensures value { result ≡ depth_of self.now }
        ensures shallow { result ≤ greatest_depth }
    {
        self.depth
    }

    /// The minimax value, from -128,000 to 128,000.
    pub fn value(&self) -> i32
        ensures { result ≡ minimax (depth_of self.now) (cells (board_of self.now)) }
    {
        self.value
    }

    /// The best choice, the first that attains the value; none at depth 0 and in a finished game.
    pub fn choice(&self) -> Option<Choice>
        ensures { result ≡ best_choice (depth_of self.now) (cells (board_of self.now)) }
    {
        self.choice
    }

    /// How many choices have an entry: none at depth 0, else all choices of the board, at most 64 (a finished
    /// game has none).
    pub fn bound_count(&self) -> usize
        ensures value { result ≡ length (entered (depth_of self.now) (cells (board_of self.now))) }
        ensures few { result ≤ 64 }
        ensures entries { result ≡ length (table_of self.now) }
        ensures table { IsTable (depth_of self.now) (cells (board_of self.now)) (table_of self.now) }
    {
        self.count
    }

    /// What is known of the choice with this number, from 0, in the order of the choices; None where the number
    /// is at least `bound_count`. It is true of the minimax value of the choice, and the best choice's is exact.
    pub fn bound(&self, number: usize) -> Option<Bound>
        ensures value { result ≡ slice_get (table_of self.now) number }
        ensures there { IsSome result ↔ (number < length (entered (depth_of self.now) (cells (board_of self.now)))) }
        ensures choice { IfSome result (λ bound. slice_get (choices (cells (board_of self.now))) number ≡ Some bound.choice) }
        ensures holds { IfSome result (IsTrueBound (depth_of self.now) (cells (board_of self.now))) }
        ensures best { IfSome result (IsExactIfBest (best_choice (depth_of self.now) (cells (board_of self.now)))) }
    {
        if self.count <= number {
            return None;
        }
        let known = self.known[number];
        Some(known.of(choice(self.board, number)))
    }
}
