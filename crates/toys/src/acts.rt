//! What the frames of the toy procedures do next, for tests of a core.
ghost use Rattle.std.specs.Prelude.{◌≡◌, [], ◌∷◌, false};

use sched_rules::{Act, Continuation, InletAct, Stores};

/// A frame's act that stores nothing, and then does what `after` says.
pub(crate) fn plain(after: Continuation) -> Act
    ensures { result ≡ record { stores = []; after = after } }
{
    Act {
        stores: Stores::new(),
        after,
    }
}

/// An act that stores a count in word 1.
pub(crate) fn counted(count: u64, after: Continuation) -> Act
    ensures { result ≡ record { stores = (1, count) ∷ []; after = after } }
{
    Act {
        stores: Stores::new().then(1, count),
        after,
    }
}

/// An inlet that stores nothing, aborts nothing and wakes nobody.
pub(crate) fn idle_inlet() -> InletAct
    ensures { result ≡ record { stores = []; abort = false; wake = false } }
{
    InletAct {
        stores: Stores::new(),
        abort: false,
        wake: false,
    }
}
