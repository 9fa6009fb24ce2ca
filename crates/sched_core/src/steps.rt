//! Any step of the core: each kind goes to its own function.
ghost use Rattle.std.specs.Prelude.{◌≡◌};
ghost use Rattle.sched_rules.specs.Cores.{shared_refusal};
ghost use Rattle.sched_rules.specs.Headline.{IsOneStep};
ghost use Rattle.sched_core.specs.Keeping.{IsKeptFitting};

use crate::engine::Engine;
use sched_rules::{Did, Procedure, Refusal, Step, StepOf};
use std::alloc::Allocator;

/// What a step did, or why it is refused.
pub(crate) type StepAnswer<P> = Result<Did<P>, Refusal>;

impl<P: Procedure, A: Allocator> Engine<P, A> {
    /// Does one step: what it did, or its refusal. `fitting` says that all frames are known to fit (the procedure's
    /// invariant holds of them); the result is the same without.
    #[inline(always)]
    #[tactic(auto, using(crate::proofs::Stepping::one_step))]
    pub(crate) fn step(&mut self, step: &Step<P>, fitting: bool) -> StepAnswer<P>
    where
        A: Clone,
        requires { IsKeptFitting (P.fits self.old.procedure) (P.rooted self.old.procedure) fitting self.old.store }
        ensures one { IsOneStep (P.functions self.old.procedure) self.old.store step.now result self.new.store }
        ensures procedure { self.new.procedure ≡ self.old.procedure }
    {
        match step {
            StepOf::Admit(number, reserve) => self.admit(*number, *reserve),
            StepOf::AdmitMore(number, reserve) => self.admit_more(*number, *reserve),
            StepOf::Submit(number, words, size) => self.submit(*number, words.as_slice(), *size),
            StepOf::Take(worker, name) => self.take(*worker, *name),
            StepOf::Steal(worker, from, name) => self.steal(*worker, *from, *name),
            StepOf::Advance(worker, name) => self.advance(*worker, *name, fitting),
            StepOf::Answer(worker, name, answer) => { self.answer(*worker, *name, answer, fitting) }
            StepOf::Inlet(worker, name) => self.inlet(*worker, *name, fitting),
            StepOf::Finish(worker, name) => self.finish(*worker, *name),
            StepOf::Spend(name) => self.spend(*name),
            StepOf::Cancel(number, job) => self.cancel(*number, *job),
            StepOf::Leave(number) => self.leave(*number),
        }
    }

    /// Why a step would be refused now; None where it would be taken, if an admission gets its memory. Nothing
    /// changes. The `false` for Answer: frames aren't assumed to fit, which changes no result.
    pub(crate) fn refusal(&self, step: &Step<P>) -> Option<Refusal>
        ensures { result ≡ shared_refusal (P.functions self.now.procedure) self.now.store step.now }
    {
        match step {
            StepOf::Admit(number, reserve) => self.may_admit(*number, *reserve).err(),
            StepOf::AdmitMore(number, reserve) => self.may_admit_more(*number, *reserve).err(),
            StepOf::Submit(number, words, size) => {
                self.may_submit(*number, words.as_slice(), *size).err()
            }
            StepOf::Take(worker, name) => self.may_take(*worker, *name).err(),
            StepOf::Steal(worker, from, name) => self.may_steal(*worker, *from, *name).err(),
            StepOf::Advance(worker, name) => self.may_advance(*worker, *name).err(),
            StepOf::Answer(worker, name, answer) => self
                .accepted(*worker, *name, answer, false)
                .err(),
            StepOf::Inlet(worker, name) => self.may_inlet(*worker, *name).err(),
            StepOf::Finish(worker, name) => self.may_finish(*worker, *name).err(),
            StepOf::Spend(name) => self.may_spend(*name).err(),
            StepOf::Cancel(number, job) => self.live_root(*number, *job).err(),
            StepOf::Leave(number) => self.may_leave(*number).err(),
        }
    }
}
