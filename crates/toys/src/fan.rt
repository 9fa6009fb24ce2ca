//! For tests of a core, the toy procedure Fan: a root opens children of two kinds, takes the first result and aborts
//! the others.
ghost use Rattle.std.specs.Prelude.{◌≡◌};
ghost use Rattle.toys.specs.Toys.{toy_spawns};

use crate::acts::{counted, idle_inlet, plain};
use crate::toy::{Play, Toy, ToyAnswer};
use crate::view::word;
use cactus_stack::Words;
use sched_rules::{Act, Continuation, GivenWords, InletAct, Stores};

/// An answer to a frame of Fan.
#[derive(Clone, Copy, Debug, PartialEq, Eq)]
pub struct FanAnswer {
    /// The input that it was computed from.
    pub asked: u64,
    /// What the frame stores in its word 2.
    pub value: u64,
}

impl ToyAnswer for FanAnswer {
    ghost use Rattle.toys.specs.Toys.{fan_stored};

    ghost asks_for = { λ answer. answer.asked };

    ghost stored = { fan_stored };

    /// The input from which this answer was computed.
    fn asked(&self) -> u64 {
        self.asked
    }

    /// What a frame stores of an answer: count 2 in word 1, and the value in word 2.
    fn stores(&self) -> Stores {
        Stores::new().then(1, 2).then(2, self.value)
    }
}

/// The procedure Fan. A frame has 4 words: word 0 is its kind, word 1 a count; a root is submitted
/// with `[0, 0]` and size 4.
pub type Fan = Toy<FanPlay>;

/// What Fan's frames do.
#[derive(Clone, Copy, Debug)]
pub struct FanPlay;

impl Play for FanPlay {
    ghost use Rattle.toys.specs.Toys.{fan_act, fan_table, fan_inlet};

    type Answer = FanAnswer;

    ghost acts = { fan_act fan_table };

    ghost takes_in = { fan_inlet };

    /// What the table says for the frame's kind and count, with the next count stored in word 1; where it has
    /// no line the frame returns.
    fn act(kind: u64, count: u64) -> Act {
        let after = match (kind, count) {
            (0, 0) => child(1),
            (0, 1) => child(2),
            (0, 2) => child(1),
            (0, 3) => Continuation::Wait,
            (0, 4) => child(1),
            (0, 5) => Continuation::Wait,
            (1, 0) => Continuation::Compute,
            (2, 0) => child(1),
            (2, 1) => Continuation::Wait,
            _ => return plain(Continuation::Return),
        };
        counted(count + 1, after)
    }

    /// A parent of kind 0 counts the child in word 2, and aborts all other frames below it; any other does
    /// nothing.
    fn inlet(own: &Words, _child: &Words) -> InletAct {
        if word(own, 0) == 0 {
            InletAct {
                stores: Stores::new().then(2, word(own, 2).wrapping_add(1)),
                abort: true,
                wake: false,
            }
        } else {
            idle_inlet()
        }
    }
}

/// Opening a child of this kind, with count 0.
fn child(kind: u64) -> Continuation
    ensures { result ≡ toy_spawns kind }
{
    Continuation::Spawn(GivenWords::two(kind, 0), 4)
}
