//! What the toy procedures for tests of a core have in common.
ghost use Rattle.std.specs.Prelude.{◌≡◌, ℕ, List, []};

use crate::view::{own_word, word};
use cactus_stack::{Sight, Words};
use sched_rules::{Act, InletAct, Procedure, Stores};
use std::marker::PhantomData;

/// An answer to a frame of a toy procedure.
pub trait ToyAnswer {
    ghost asks_for: { Self → ℕ };

    ghost stored: { Self → List (ℕ × ℕ) };

    /// The input from which this answer was computed.
    fn asked(&self) -> u64
        ensures { result ≡ asks_for self.now };

    /// What a frame stores of an answer.
    fn stores(&self) -> Stores
        ensures { result ≡ stored self.now };
}

/// A number as an answer: it is the input that it was computed from, and nothing is stored of it.
impl ToyAnswer for u64 {
    ghost asks_for = { λ answer. answer };

    ghost stored = { λ answer. [] };

    /// The input from which this answer was computed: the answer is that number.
    fn asked(&self) -> u64 {
        *self
    }

    /// What a frame stores of an answer that is only a number: nothing.
    fn stores(&self) -> Stores {
        Stores::new()
    }
}

/// What makes one toy procedure differ from another: its acts, its inlets and its answers.
pub trait Play {
    ghost use Rattle.sched_rules.specs.declared.act.Act.{Act as ActOf};
    ghost use Rattle.sched_rules.specs.declared.act.InletAct.{InletAct as InletOf};

    /// What a computation gives.
    type Answer: ToyAnswer;

    ghost acts: { ℕ → ℕ → ActOf };

    ghost takes_in: { List ℕ → List ℕ → InletOf };

    /// The next act of a running frame, by its words 0 and 1.
    fn act(first: u64, second: u64) -> Act
        ensures { result ≡ acts first second };

    /// What a parent does about a child that has returned.
    fn inlet(own: &Words, child: &Words) -> InletAct
        ensures { result ≡ takes_in own.now child.now };
}

/// A toy procedure. A frame's acts follow from its words 0 and 1, and it is computed from its word 0.
#[derive(Clone, Copy, Debug)]
pub struct Toy<T> {
    play: PhantomData<T>,
}

impl<T> Toy<T> {
    /// The procedure, which holds no data.
    pub fn new() -> Toy<T> {
        Toy { play: PhantomData }
    }
}

impl<T: Play> Procedure for Toy<T> {
    ghost use Rattle.std.specs.Prelude.{refl};
    ghost use Rattle.toys.specs.Toys.{toy};
    ghost use Rattle.toys.specs.ToyLaws.{AlwaysFits, AlwaysRooted, same-number, next-keeps as toy_next_keeps, inlet-keeps as toy_inlet_keeps, accept-keeps as toy_accept_keeps};

    type Input = u64;

    type Answer = T::Answer;

    ghost functions = { λ procedure. toy T.acts T.takes_in T.Answer.asks_for T.Answer.stored };

    ghost fits = { λ procedure. AlwaysFits };

    ghost rooted = { λ procedure. AlwaysRooted };

    /// The act of a frame, by its first two words.
    fn next(&self, sight: &Sight) -> Act {
        T::act(own_word(sight, 0), own_word(sight, 1))
    }

    /// What a frame does about a returned child.
    fn inlet(&self, own: &Words, child: &Words) -> InletAct {
        T::inlet(own, child)
    }

    /// What is to be computed for a frame: its first word.
    fn input(&self, own: &Words) -> u64 {
        word(own, 0)
    }

    /// The input from which an answer was computed.
    fn asked(&self, answer: &T::Answer) -> u64 {
        answer.asked()
    }

    /// What a frame stores of an answer.
    fn accept(&self, _own: &Words, answer: &T::Answer) -> Stores {
        answer.stores()
    }

    ghost compares = { λ procedure. refl };

    ghost same_is_equal = { λ procedure one other same. same-number one other same };

    ghost next_keeps = { λ procedure. toy_next_keeps (toy T.acts T.takes_in T.Answer.asks_for T.Answer.stored) };

    ghost inlet_keeps = { λ procedure. toy_inlet_keeps (toy T.acts T.takes_in T.Answer.asks_for T.Answer.stored) };

    ghost accept_keeps = { λ procedure. toy_accept_keeps (toy T.acts T.takes_in T.Answer.asks_for T.Answer.stored) };
}
