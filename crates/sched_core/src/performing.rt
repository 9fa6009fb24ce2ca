//! The core's steps Advance, Answer and Inlet, done: what a procedure makes of a frame is stored, and the frame goes
//! on.
//!
//! `fitting` says that all frames are known to fit (the procedure's invariant holds of them), so that the procedure
//! need not test their words (`Procedure::next_of`); the answers are the same either way.
ghost use Rattle.std.specs.Prelude.{◌≡◌, ◌||◌, ◌&&◌, not, true, ℕ, List, Some};
ghost use Rattle.frame_table.specs.Frames.{Frame, frame_at};
ghost use Rattle.sched_rules.specs.Trees.{Tenant, has_child as has_child_in, is_root as is_root_path};
ghost use Rattle.sched_rules.specs.Lone.{does_wait, then_done, aborted_beside};
ghost use Rattle.sched_rules.specs.Cores.{tenant_in};
ghost use Rattle.sched_rules.specs.Changes.{on_tenant};
ghost use Rattle.sched_rules.specs.declared.step.StepOf.TheVariants.{Advance as AdvanceStep, Answer as AnswerStep, Inlet as InletStep};
ghost use Rattle.sched_store.specs.Reads.{frames_in_core};
ghost use Rattle.sched_core.specs.Keeping.{IsFitting, IsKeptFitting};
ghost use Rattle.sched_core.specs.Seeing.{GoesOn, MayBeTakenIn};
ghost use Rattle.sched_core.specs.StepResults.{FollowsResult, IsCome, staying_with};

use crate::acts::{may_do, may_take_in};
use crate::decide::is_waiting;
use crate::engine::{Engine, Found, known, own};
use crate::steps::StepAnswer;
use frame_table::{FrameId, State};
use sched_rules::{Continuation, Did, DidOf, InletAct, Procedure, Worker};
use sched_store::Store;
use std::alloc::Allocator;

impl<P: Procedure, A: Allocator> Engine<P, A> {
    /// Answer: the worker brings the answer to the input of the frame that it computes; the frame stores what the
    /// procedure makes of it, and runs again. A step is counted.
    pub(crate) fn answer(
        &mut self,
        worker: Worker,
        name: FrameId,
        answer: &P::Answer,
        fitting: bool,
    ) -> StepAnswer<P>
        requires { fitting ≡ true → IsFitting (P.fits self.old.procedure) (P.rooted self.old.procedure) self.old.store }
        ensures step_result { FollowsResult (P.functions self.old.procedure) self.old.store (AnswerStep worker name answer.now) result self.new.store }
        ensures procedure { self.new.procedure ≡ self.old.procedure }
    {
        let stores = self.accepted(worker, name, answer, fitting)?;
        self.store.store_all(name, stores.as_slice());
        self.run(worker, name);
        Ok(DidOf::Answered)
    }

    /// Advance: a frame that this worker runs does its next act, the stores and then what comes after them. A step is
    /// counted.
    pub(crate) fn advance(&mut self, worker: Worker, name: FrameId, fitting: bool) -> StepAnswer<P>
        requires { IsKeptFitting (P.fits self.old.procedure) (P.rooted self.old.procedure) fitting self.old.store }
        ensures step_result { FollowsResult (P.functions self.old.procedure) self.old.store (AdvanceStep worker name) result self.new.store }
        ensures procedure { self.new.procedure ≡ self.old.procedure }
    {
        let Found { seen, words, sight } = self.running(worker, name)?;
        let act = self.procedure.next_of(fitting, &sight);
        may_do(&self.store, name, seen.left, &words, &act)?;
        let is_root = seen.parent.is_none();
        self.store.count_step(name.tenant);
        self.store.store_all(name, act.stores.as_slice());
        Ok(self.go_on(worker, name, is_root, &act.after))
    }

    /// Does what comes after the stores of an act, and tells what was done. `is_root` says whether the frame is a
    /// root.
    #[inline(always)]
    fn go_on(
        &mut self,
        worker: Worker,
        name: FrameId,
        is_root: bool,
        after: &Continuation,
    ) -> Did<P>
        requires { (tenant : Tenant) × (frame : Frame (List ℕ)) × GoesOn self.old.store name worker after.now tenant frame }
        ensures came { (tenant : Tenant) (frame : Frame (List ℕ)) → GoesOn self.old.store name worker after.now tenant frame → is_root ≡ is_root_path frame.path
            → IsCome name.tenant (then_done (P.functions self.old.procedure) tenant worker name frame after.now) self.old.store result self.new.store }
        ensures procedure { self.new.procedure ≡ self.old.procedure }
    {
        match after {
            Continuation::Grow(more) => {
                self.store.grow(name, *more);
                DidOf::Grew
            }
            Continuation::Spawn(words, size) => DidOf::Spawned(
                self.store.open(
                    name.tenant,
                    Some(name.serial),
                    words.as_slice(),
                    *size,
                    worker.number(),
                ),
            ),
            Continuation::Go => DidOf::Went,
            Continuation::Wait => {
                if !self.store.has_child(name) {
                    return DidOf::Went;
                }
                self.store.let_go(worker, name, State::Waiting);
                DidOf::Waited
            }
            Continuation::Compute => {
                let input = self.procedure.input(&own(&self.store, name));
                self.store
                    .hold(worker, name, State::Computing(worker.number()));
                DidOf::Computing(input)
            }
            Continuation::Return => {
                if self.store.has_child(name) {
                    self.store.let_go(worker, name, State::Waiting);
                    return DidOf::Waited;
                }
                self.store.let_go(worker, name, State::Returned);
                DidOf::Returned(is_root)
            }
        }
    }

    /// Inlet: a returned frame is taken in by its parent, which does the inlet's stores, and is removed, at an abort
    /// with all other frames below the parent. A parent that waits becomes ready at this worker at an abort, where
    /// the inlet says so, or where it has no child left. A step is counted. Tells the parent if it was woken, and how
    /// many other frames were removed.
    pub(crate) fn inlet(&mut self, worker: Worker, name: FrameId, fitting: bool) -> StepAnswer<P>
        requires { IsKeptFitting (P.fits self.old.procedure) (P.rooted self.old.procedure) fitting self.old.store }
        ensures step_result { FollowsResult (P.functions self.old.procedure) self.old.store (InletStep worker name) result self.new.store }
        ensures procedure { self.new.procedure ≡ self.old.procedure }
    {
        let (own, parent) = self.returned(name)?;
        let (state, above) = known(&self.store, parent);
        let act = self.procedure.inlet_of(fitting, &above, &own);
        may_take_in(&self.store, worker, &above, &act)?;
        let was_waiting = is_waiting(state);
        let aborted = take_out(&mut self.store, name, parent, act.abort);
        let is_woken = is_to_wake(&self.store, parent, was_waiting, &act);
        self.store.store_all(parent, act.stores.as_slice());
        self.store.count_step(name.tenant);
        if !is_woken {
            return Ok(DidOf::TakenIn(None, aborted));
        }
        self.store.set_state(parent, State::Ready(worker.number()));
        Ok(DidOf::TakenIn(Some(parent), aborted))
    }
}

/// Removes a returned frame, and at an abort all other frames below its parent. Returns how many these others were; 0
/// without an abort.
fn take_out<A: Allocator>(store: &mut Store<A>, child: FrameId, parent: FrameId, abort: bool) -> u64
    requires { (tenant : Tenant) × (frame : Frame (List ℕ)) × MayBeTakenIn store.old child parent tenant frame }
    ensures left { store.new ≡ on_tenant child.tenant (staying_with child.serial parent.serial abort) store.old }
    ensures count { (tenant : Tenant) → tenant_in store.old.tenants child.tenant ≡ Some tenant → result ≡ aborted_beside tenant.frames child.serial parent.serial abort }
{
    store.remove(child);
    if abort {
        return store.abort(parent) as u64;
    }
    0
}

/// Whether an inlet wakes this parent, after the child that it took in was removed: the parent waits, and the inlet
/// aborts or says so, or no child is left.
#[inline(always)]
fn is_to_wake<A: Allocator>(
    store: &Store<A>,
    name: FrameId,
    is_waiting: bool,
    act: &InletAct,
) -> bool
    ensures { result ≡ (is_waiting && (act.now.abort || act.now.wake || not (has_child_in (frames_in_core store.now name.tenant) name.serial))) }
{
    is_waiting && (act.abort || act.wake || !store.has_child(name))
}
