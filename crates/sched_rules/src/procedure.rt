//! What a procedure is to the core: five functions that say what a frame does.
ghost use Rattle.std.specs.Prelude.{◌≡◌};

use crate::act::{Act, InletAct, Stores};
use cactus_stack::{Sight, Words};
use std::cmp::Eq;

/// A procedure that the core runs: each call's answer is a function of the words shown and of the
/// values passed, and nothing else.
pub trait Procedure {
    ghost use Rattle.std.specs.Prelude.{◌≡◌, ◌∷◌, [], true};
    ghost use Rattle.cactus_stack.specs.Nodes.{padded};
    ghost use Rattle.sched_rules.specs.Functions.{Functions};
    ghost use Rattle.sched_rules.specs.Laws.{Fitting, Rooting, Neither, AllFit, NextKeeps, InletKeeps, AcceptKeeps};

    /// What a frame gives out to be computed outside the core.
    type Input: Copy + Eq;
    /// What such a computation brings back.
    type Answer;

    // The five functions below as functions of lists of words, and when two inputs are the same.
    ghost functions: { Self → Functions Self.Input Self.Answer };

    // The procedure's invariant: when a frame fits, by its words, its children's words and its mark
    // (`Fitting`).
    ghost fits: { Self → Fitting };

    // That a root's words belong to the words that its job was submitted with.
    ghost rooted: { Self → Rooting };

    /// The next act of a running frame, by its own words and those of the frames above it.
    fn next(&self, sight: &Sight) -> Act
        ensures { result ≡ (functions self.now).next sight.now };

    /// What a parent with the words `own` does about a child that has returned with the words `child`.
    fn inlet(&self, own: &Words, child: &Words) -> InletAct
        ensures { result ≡ (functions self.now).inlet own.now child.now };

    /// The input that is to be computed for a frame with these words.
    fn input(&self, own: &Words) -> Self::Input
        ensures { result ≡ (functions self.now).input own.now };

    /// The input that an answer was computed from.
    fn asked(&self, answer: &Self::Answer) -> Self::Input
        ensures { result ≡ (functions self.now).asked answer.now };

    /// What a computing frame with these words stores of an answer.
    fn accept(&self, own: &Words, answer: &Self::Answer) -> Stores
        ensures { result ≡ (functions self.now).accept own.now answer.now };

    /// Whether a root of this size that begins with these words fits. False means that the procedure can't
    /// tell.
    fn is_fitting_root(&self, words: &[u64], size: usize) -> bool
        ensures { result ≡ true → fits self.now (padded words.now size) [] Neither × rooted self.now words.now (padded words.now size) }
    {
        let _ = words;
        let _ = size;
        false
    }

    /// The act that `next` gives. `fitting` says that the frame and all above it are known to fit, so that
    /// their words need not be tested.
    #[inline(always)]
    fn next_of(&self, fitting: bool, sight: &Sight) -> Act
        requires { fitting ≡ true → AllFit (fits self.now) sight.now }
        ensures { result ≡ (functions self.now).next sight.now }
    {
        let _ = fitting;
        self.next(sight)
    }

    /// What `inlet` gives. `fitting` says that both frames are known to fit, so that their words need not be
    /// tested.
    #[inline(always)]
    fn inlet_of(&self, fitting: bool, own: &Words, child: &Words) -> InletAct
        requires { fitting ≡ true → AllFit (fits self.now) (own.now ∷ child.now ∷ []) }
        ensures { result ≡ (functions self.now).inlet own.now child.now }
    {
        let _ = fitting;
        self.inlet(own, child)
    }

    /// What `accept` gives. `fitting` says that the frame is known to fit, so that its words need not be
    /// tested.
    #[inline(always)]
    fn accept_of(&self, fitting: bool, own: &Words, answer: &Self::Answer) -> Stores
        requires { fitting ≡ true → AllFit (fits self.now) (own.now ∷ []) }
        ensures { result ≡ (functions self.now).accept own.now answer.now }
    {
        let _ = fitting;
        self.accept(own, answer)
    }

    // `same` is the `==` of inputs, by which an Answer's input is compared with the frame's.
    ghost compares: { (p : Self) → (functions p).same ≡ Self.Input.PartialEq.eq };

    // Two inputs that compare as the same are equal, so that an answer to another input is never taken.
    ghost same_is_equal: { (p : Self) → (one other : Self.Input) → (functions p).same one other ≡ true → one ≡ other };

    // After an Advance frames that fitted still fit.
    ghost next_keeps: { (p : Self) → NextKeeps (functions p) (fits p) (rooted p) };

    // After an Inlet frames that fitted still fit, also where it aborts.
    ghost inlet_keeps: { (p : Self) → InletKeeps (functions p) (fits p) (rooted p) };

    // After an Answer frames that fitted still fit.
    ghost accept_keeps: { (p : Self) → AcceptKeeps (functions p) (fits p) (rooted p) };
}
