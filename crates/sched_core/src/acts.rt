//! The core's steps Advance, Answer and Inlet: what a procedure makes of a frame.
ghost use Rattle.std.specs.Prelude.{◌≡◌, ◌≢◌, ◌==◌, ◌||◌, ◌∷◌, false, true, IfOk, MatchResult, IsSome, Some, ℕ, List, [], not};
ghost use Rattle.frame_table.specs.Frames.{Frame, name_of, parent_of};
ghost use Rattle.sched_rules.specs.Cores.{shared_refusal};
ghost use Rattle.sched_rules.specs.Trees.{Tenant, left as left_for, has_child as has_child_in, is_outside as is_outside_of};
ghost use Rattle.sched_rules.specs.Lone.{unless, act_tests, refusal_in, is_spendable as is_spendable_of, is_bad_inlet as is_bad_inlet_of, is_bad_then as is_bad_then_of};
ghost use Rattle.sched_rules.specs.Views.{named, frame_in_core};
ghost use Rattle.sched_rules.specs.declared.refusal.Refusal.TheVariants.{BadAct, Busy};
ghost use Rattle.sched_rules.specs.declared.step.StepOf.TheVariants.{Advance as AdvanceStep, Answer as AnswerStep, Inlet as InletStep};
ghost use Rattle.sched_store.specs.Reads.{sight_of, words_under, frames_in_core, is_busy_among};
ghost use Rattle.sched_core.specs.Keeping.{IsFitting};
ghost use Rattle.sched_core.specs.Seeing.{IsSeen, IsRunning, IsReturnedUnder};

use crate::decide::{first_of_four, is_computed_by, is_outside, is_returned, is_run_by, may_act};
use crate::engine::{Engine, Found, Seen, known, look_in, own};
use cactus_stack::Words;
use frame_table::{FrameId, State};
use sched_rules::{Act, Continuation, InletAct, Procedure, Refusal, Stores, Worker};
use sched_store::Store;
use std::alloc::Allocator;
use tenant_quota::Left;

impl<P: Procedure, A: Allocator> Engine<P, A> {
    /// Looks up a frame for an Advance. Ok where this worker runs it and its tenant has a step left; else that
    /// Advance's refusal: NoTenant, NoFrame, NotRunning or NoSteps.
    #[inline(always)]
    pub(crate) fn running(&self, worker: Worker, name: FrameId) -> Result<Found<'_>, Refusal>
        ensures frame { MatchResult result
            (λ found. (tenant : Tenant) × (frame : Frame (List ℕ)) × IsRunning self.now.store name worker tenant frame found.seen)
            (λ refusal. shared_refusal (P.functions self.now.procedure) self.now.store (AdvanceStep worker name) ≡ Some refusal) }
        ensures words { IfOk result (λ found. found.words ≡ words_under self.now.store name) }
        ensures sight { IfOk result (λ found. found.sight ≡ sight_of self.now.store name) }
    {
        let found = look_in(&self.store, name)?;
        if !is_run_by(found.seen.state, worker.number()) {
            return Err(Refusal::NotRunning);
        }
        if found.seen.left.steps == 0 {
            return Err(Refusal::NoSteps);
        }
        Ok(found)
    }

    /// Ok where an Advance of this frame by this worker would be taken, else its refusal.
    pub(crate) fn may_advance(&self, worker: Worker, name: FrameId) -> Result<(), Refusal>
        ensures refusal { refusal_in result ≡ shared_refusal (P.functions self.now.procedure) self.now.store (AdvanceStep worker name) }
    {
        let found = self.running(worker, name)?;
        let act = self.procedure.next(&found.sight);
        may_do(&self.store, name, found.seen.left, &found.words, &act)
    }

    /// What the frame stores of an answer that this worker brings; else the Answer's refusal: NoTenant, NoFrame,
    /// NotComputing, Mismatch, NoSteps or BadAct. `fitting` says that all frames are known to fit (the procedure's
    /// invariant holds of them); the result is the same without.
    pub(crate) fn accepted(
        &self,
        worker: Worker,
        name: FrameId,
        answer: &P::Answer,
        fitting: bool,
    ) -> Result<Stores, Refusal>
        requires { fitting ≡ true → IsFitting (P.fits self.now.procedure) (P.rooted self.now.procedure) self.now.store }
        ensures refusal { refusal_in result ≡ shared_refusal (P.functions self.now.procedure) self.now.store (AnswerStep worker name answer.now) }
        ensures stores { IfOk result (λ stores. stores ≡ (P.functions self.now.procedure).accept (words_under self.now.store name) answer.now) }
    {
        let Found { seen, words, .. } = look_in(&self.store, name)?;
        let stores = self.procedure.accept_of(fitting, &words, answer);
        first_of_four(
            (
                !is_computed_by(seen.state, worker.number()),
                Refusal::NotComputing,
            ),
            (
                self.procedure.asked(answer) != self.procedure.input(&words),
                Refusal::Mismatch,
            ),
            (seen.left.steps == 0, Refusal::NoSteps),
            (is_outside(stores.as_slice(), &words), Refusal::BadAct),
        )?;
        Ok(stores)
    }

    /// The words and the parent's name of a frame that has returned, isn't a root, and whose tenant has a step left;
    /// else the Inlet's refusal: NoTenant, NoFrame, NotReturned or NoSteps. What the inlet stores, and whether the
    /// worker is free, is tested by `may_take_in`.
    #[inline(always)]
    pub(crate) fn returned(&self, name: FrameId) -> Result<(Words<'_>, FrameId), Refusal>
        ensures frame { MatchResult result
            (λ found. (tenant : Tenant) × (frame : Frame (List ℕ)) × (seen : Seen) × IsReturnedUnder self.now.store name found.1 tenant frame seen)
            (λ refusal. (worker : ℕ) → shared_refusal (P.functions self.now.procedure) self.now.store (InletStep worker name) ≡ Some refusal) }
        ensures words { IfOk result (λ found. found.0 ≡ words_under self.now.store name) }
    {
        let found = look_in(&self.store, name)?;
        let Some(parent) = found.seen.parent else {
            return Err(Refusal::NotReturned);
        };
        if !is_returned(found.seen.state) {
            return Err(Refusal::NotReturned);
        }
        if found.seen.left.steps == 0 {
            return Err(Refusal::NoSteps);
        }
        Ok((found.words, parent))
    }

    /// Ok where an Inlet of this frame by this worker would be taken, else its refusal.
    pub(crate) fn may_inlet(&self, worker: Worker, name: FrameId) -> Result<(), Refusal>
        ensures refusal { refusal_in result ≡ shared_refusal (P.functions self.now.procedure) self.now.store (InletStep worker name) }
    {
        let (own, parent) = self.returned(name)?;
        let (_, above) = known(&self.store, parent);
        let act = self.procedure.inlet(&above, &own);
        may_take_in(&self.store, worker, &above, &act)
    }

    /// Whether the job of a frame that was looked up may be given up: no step is left; or the frame runs and its next
    /// act can't be done, or needs more nodes or segments than are left; or it has returned and its inlet can't be
    /// done.
    pub(crate) fn is_spendable(&self, name: FrameId, seen: Seen) -> bool
        requires { (tenant : Tenant) × (frame : Frame (List ℕ)) × IsSeen self.now.store name tenant frame seen }
        ensures { (tenant : Tenant) (frame : Frame (List ℕ)) → IsSeen self.now.store name tenant frame seen
            → result ≡ is_spendable_of (P.functions self.now.procedure) tenant frame }
    {
        if seen.left.steps == 0 {
            return true;
        }
        match seen.state {
            State::Running(_) => {
                let act = self.procedure.next(&self.store.sight(name));
                let words = own(&self.store, name);
                let has_child = has_child_for(&self.store, name, &act.after);
                may_act(&words, has_child, seen.left, &act).is_err()
            }
            State::Returned => self.is_bad_inlet(name, seen),
            State::Ready(_) | State::Computing(_) | State::Waiting => false,
        }
    }

    /// Whether the inlet of this frame stores beyond its parent's words; false for a root.
    #[tactic(auto, using(crate::proofs::Parents::parent_there))]
    fn is_bad_inlet(&self, name: FrameId, seen: Seen) -> bool
        requires { (tenant : Tenant) × (frame : Frame (List ℕ)) × IsSeen self.now.store name tenant frame seen }
        ensures { (tenant : Tenant) (frame : Frame (List ℕ)) → IsSeen self.now.store name tenant frame seen
            → result ≡ is_bad_inlet_of (P.functions self.now.procedure) tenant frame (parent_of frame.path) }
    {
        match seen.parent {
            Some(parent) => {
                let above = own(&self.store, parent);
                let act = self.procedure.inlet(&above, &own(&self.store, name));
                is_outside(act.stores.as_slice(), &above)
            }
            None => false,
        }
    }
}

/// Whether a frame has a child. It is looked up for Compute alone, which needs a frame without one; for any
/// other act, where it doesn't matter, the answer is false.
#[inline(always)]
fn has_child_for<A: Allocator>(store: &Store<A>, name: FrameId, after: &Continuation) -> bool
    ensures { (words : ℕ) → is_bad_then_of words (has_child_in (frames_in_core store.now name.tenant) name.serial) after.now ≡ is_bad_then_of words result after.now }
{
    match after {
        Continuation::Compute => store.has_child(name),
        Continuation::Grow(_)
        | Continuation::Spawn(_, _)
        | Continuation::Go
        | Continuation::Wait
        | Continuation::Return => false,
    }
}

/// Ok where a frame of these words may do this act with what its tenant has left; else BadAct, NoNodes or
/// NoSegments.
#[inline(always)]
#[tactic(auto, using(crate::proofs::Deciding::seen_so))]
pub(crate) fn may_do<A: Allocator>(
    store: &Store<A>,
    name: FrameId,
    left: Left,
    words: &Words,
    act: &Act,
) -> Result<(), Refusal>
    ensures { (tenant : Tenant) (frame : Frame (List ℕ)) (seen : Seen) → IsSeen store.now name tenant frame seen → seen.left ≡ left → words.now ≡ words_under store.now name
        → result ≡ unless (act_tests tenant frame act.now) tt }
{
    let has_child = has_child_for(store, name, &act.after);
    may_act(words, has_child, left, act)
}

/// Ok where this worker may do this inlet on a parent of these words; BadAct where it stores beyond them, else
/// Busy where the worker isn't free.
#[inline(always)]
pub(crate) fn may_take_in<A: Allocator>(
    store: &Store<A>,
    worker: Worker,
    above: &Words,
    act: &InletAct,
) -> Result<(), Refusal>
    ensures { result ≡ unless ((is_outside_of act.now.stores above.now, BadAct) ∷ (is_busy_among worker store.now.tenants, Busy) ∷ []) tt }
{
    if is_outside(act.stores.as_slice(), above) {
        return Err(Refusal::BadAct);
    }
    if store.is_busy(worker) {
        return Err(Refusal::Busy);
    }
    Ok(())
}
