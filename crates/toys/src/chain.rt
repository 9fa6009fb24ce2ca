//! For tests of a core, the toy procedure Chain: each frame opens one child with a count of one less, and waits for it.
use crate::acts::{counted, plain};
use crate::toy::{Play, Toy};
use crate::view::word;
use cactus_stack::Words;
use sched_rules::{Act, Continuation, GivenWords, InletAct, Stores};

/// The procedure Chain. A frame has 20 words, of which word 0 is a count. It never computes.
pub type Chain = Toy<ChainPlay>;

/// What Chain's frames do.
#[derive(Clone, Copy, Debug)]
pub struct ChainPlay;

impl Play for ChainPlay {
    ghost use Rattle.toys.specs.Toys.{chain_act, chain_inlet};

    type Answer = u64;

    ghost acts = { chain_act };

    ghost takes_in = { chain_inlet };

    /// At count 0 the frame returns; else it opens a child, waits, and returns.
    fn act(count: u64, stage: u64) -> Act {
        if count == 0 {
            return plain(Continuation::Return);
        }
        match stage {
            0 => counted(1, Continuation::Spawn(GivenWords::two(count - 1, 0), 20)),
            1 => counted(2, Continuation::Wait),
            _ => plain(Continuation::Return),
        }
    }

    /// The child's count goes into word 2.
    fn inlet(_own: &Words, child: &Words) -> InletAct {
        InletAct {
            stores: Stores::new().then(2, word(child, 0)),
            abort: false,
            wake: false,
        }
    }
}
