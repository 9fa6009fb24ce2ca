//! The procedure Reader for played texts of steps: a frame does what its words say.
ghost use Rattle.std.specs.Prelude.{◌≡◌};
ghost use Rattle.transcripts.specs.Reading.{act_with_stores};

use cactus_stack::Words;
use sched_core::{Act, Continuation, GivenWords, InletAct, Stores};
use toys::{Play, Toy, ToyAnswer, word};

/// A place that no frame has: a store there can't be done.
const NOWHERE: usize = 128;

/// The procedure Reader. Word 0 of a frame has its acts as the digits of an octal number, the lowest
/// first: 0 returns, 1 goes on, 2 grows by a segment, 3 opens a child, 4 waits, 5 computes, 6 stores
/// nowhere, and 7 goes on for ever. Word 1 has the acts of its children. Word 2 is what was taken in
/// or accepted last. Word 3 says what its inlet does: 1 aborts, 2 wakes, 3 stores nowhere.
pub type Reader = Toy<ReaderPlay>;

/// An answer to a frame of Reader, which asks for itself.
#[derive(Clone, Copy)]
pub struct ReaderAnswer(pub u64);

impl ToyAnswer for ReaderAnswer {
    ghost use Rattle.transcripts.specs.Reading.{reader_stored};

    ghost asks_for = { λ answer. answer.0 };

    ghost stored = { reader_stored };

    /// The input from which this answer was computed.
    fn asked(&self) -> u64 {
        self.0
    }

    /// What a frame stores of an answer: the answer's number, in word 2.
    fn stores(&self) -> Stores {
        Stores::new().then(2, self.0)
    }
}

/// The act of a frame that makes these stores, and after them goes on so.
fn then_do(stores: Stores, after: Continuation) -> Act
    ensures { result ≡ act_with_stores stores after }
{
    Act { stores, after }
}

/// What Reader's frames do.
#[derive(Clone, Copy)]
pub struct ReaderPlay;

impl Play for ReaderPlay {
    ghost use Rattle.transcripts.specs.Reading.{reader_act, reader_inlet};

    type Answer = ReaderAnswer;

    ghost acts = { reader_act };

    ghost takes_in = { reader_inlet };

    /// The act of the lowest digit of the acts that are left, which is taken off.
    fn act(acts: u64, below: u64) -> Act {
        let rest = Stores::new().then(0, acts / 8);
        match acts % 8 {
            0 => then_do(Stores::new(), Continuation::Return),
            1 => then_do(rest, Continuation::Go),
            2 => then_do(rest, Continuation::Grow(16)),
            3 => then_do(rest, Continuation::Spawn(GivenWords::two(below, 0), 4)),
            4 => then_do(rest, Continuation::Wait),
            5 => then_do(rest, Continuation::Compute),
            6 => then_do(Stores::new().then(NOWHERE, acts), Continuation::Go),
            _ => then_do(Stores::new(), Continuation::Go),
        }
    }

    /// The child's word 2 goes into word 2, and word 3 says what else.
    fn inlet(own: &Words, child: &Words) -> InletAct {
        let kind = word(own, 3);
        let place = if kind == 3 { NOWHERE } else { 2 };
        InletAct {
            stores: Stores::new().then(place, word(child, 2)),
            abort: kind == 1,
            wake: kind == 2,
        }
    }
}
