//! The entries of a session's TABLE line.
ghost use Rattle.std.specs.Prelude.{◌≡◌, ◌≤◌, ◌<◌, [], ◌∷◌, ◌++◌, length};

use othello_eval::{Bound, BoundKind};
use othello_moves::Choice;
use std::marker::Model;

/// The most entries of a table: a board has at most 64 choices.
const MOST: usize = 64;

/// What fills the places after the last entry.
const NO_BOUND: Bound = Bound {
    choice: Choice::Pass,
    score: 0,
    kind: BoundKind::Exact,
};

/// What is known of the choices at a root: at most 64 entries, in the order of the choices.
#[derive(Clone, Copy, Debug, PartialEq, Eq)]
pub struct Bounds {
    places: [Bound; MOST],
    count: usize,
}

// Clauses see the list of entries. All places after them are filled alike, so that two tables of the same entries are
// equal.
impl Model for Bounds {
    ghost use Rattle.std.specs.Prelude.{List, take};
    ghost use Rattle.othello_eval.specs.declared.bound.Bound.{Bound};

    ghost Value = { List Bound };

    ghost use Rattle.session.specs.Places.{bounds_held, IsHeld};

    ghost view = { λ b. take b.count b.places };

    ghost invariant = { IsHeld };

    ghost inverse = { bounds_held };

    ghost inverse_ok = { λ b h. h.same };
}

impl Bounds {
    /// A table without entries.
    pub const NONE: Bounds = Bounds {
        places: [NO_BOUND; MOST],
        count: 0,
    };

    /// Appends an entry to the table.
    pub fn push(&mut self, bound: Bound)
        requires { length self.old < 64 }
        ensures { self.new ≡ self.old ++ bound ∷ [] }
    {
        self.places[self.count] = bound;
        self.count += 1;
    }

    /// The table's entries, in order.
    pub fn as_slice(&self) -> &[Bound]
        ensures entries { result.now ≡ self.now }
        ensures few { length result.now ≤ 64 }
    {
        &self.places[..self.count]
    }
}
