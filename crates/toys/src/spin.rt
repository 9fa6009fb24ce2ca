//! For tests of a core, the toy procedure Spin: a frame that goes on for ever.
use crate::acts::{idle_inlet, plain};
use crate::toy::{Play, Toy};
use cactus_stack::Words;
use sched_rules::{Act, Continuation, InletAct};

/// The procedure Spin. A frame has one word. It never opens a child, computes or returns, so that each
/// of its steps does nothing but count.
pub type Spin = Toy<SpinPlay>;

/// What Spin's frames do.
#[derive(Clone, Copy, Debug)]
pub struct SpinPlay;

impl Play for SpinPlay {
    ghost use Rattle.std.specs.Prelude.{[], false};
    ghost use Rattle.sched_rules.specs.declared.act.Continuation.TheVariants.{Go};

    type Answer = u64;

    ghost acts = { λ count stage. record { stores = []; after = Go } };

    ghost takes_in = { λ own child. record { stores = []; abort = false; wake = false } };

    /// The frame goes on, without a store.
    fn act(_count: u64, _stage: u64) -> Act {
        plain(Continuation::Go)
    }

    /// Nothing is stored, nothing is aborted, and nobody is woken.
    fn inlet(_own: &Words, _child: &Words) -> InletAct {
        idle_inlet()
    }
}
