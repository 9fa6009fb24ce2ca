//! The turns of the one worker of `solve`, each one step of the core, or two where a leaf is computed between them.
//!
//! What a worker does next is decided by `pool_rules` ([`Holding`]); this one, a [`Searcher`], has the core to itself.
//! Without a frame it takes the tenant's ready frame of the greatest serial: one that its own steps made ready, or the
//! root, which stands ready in the hall; so it needs no list of its tasks. What its frame asks for it computes between
//! two steps. Where the quota is at its end it offers the job to be spent, once: nobody else can give anything back.
ghost use Rattle.std.specs.Prelude.{IfSome};
ghost use Rattle.solve_engine.specs.Asked.{IsWork, Keeps};

use crate::job::TENANT;
use frame_table::FrameId;
use jamboree_core::jamboree::{Jamboree, Leaf, LeafAnswer};
use jamboree_core::sched_core::Core;
use jamboree_core::step_search;
use jamboree_rules::pool_rules::{Action, Holding, Task};
use sched_rules::{Did, Refusal, Step, Worker};
use std::alloc::Allocator;

/// The worker's number.
const WORKER: u8 = 1;

/// What the worker does next. It is kept in place of a [`Holding`], which has room for a leaf and its answer and
/// would be copied at each turn.
#[derive(Clone, Copy)]
enum Ahead {
    /// To get the newest ready frame.
    Pick,
    /// To advance the frame that it runs.
    Run(FrameId),
    /// To have the returned frame taken in by its parent.
    TakeIn(FrameId),
}

/// The one worker, with the core that it has to itself. Its number is the constant `WORKER`, as a field would be
/// read at each step.
#[derive(Drop)]
struct Searcher<A: Allocator> {
    core: Core<Jamboree, A>,
}

/// Works until the core's job has ended or can't go on, for at most so many turns. Each turn but the last takes one of
/// the tenant's steps, or two where a leaf is computed.
pub(crate) fn work<A: Allocator + Clone>(core: Core<Jamboree, A>, turns: u32) -> Core<Jamboree, A>
    ensures { Keeps core result }
{
    let mut searcher = Searcher { core };
    let mut ahead = Ahead::Pick;
    for _turn in 0..turns {
        let Some(next) = searcher.turn(ahead) else {
            break;
        };
        ahead = next;
    }
    let Searcher { core } = searcher;
    core
}

impl<A: Allocator + Clone> Searcher<A> {
    /// One turn, and what the worker does after it; None where the job has ended or can't go on. Each arm makes
    /// the holding that it offers, so that the compiler knows which it is.
    #[inline(always)]
    fn turn(&mut self, ahead: Ahead) -> Option<Ahead>
        ensures { Keeps self.old.core self.new.core }
    {
        match ahead {
            Ahead::Pick => {
                let task = self.newest_task()?;
                self.offer_on(Holding::Next(Action::Get(task)))
            }
            Ahead::Run(frame) => self.offer_on(Holding::Next(Action::Run(frame))),
            Ahead::TakeIn(frame) => self.offer_on(Holding::Next(Action::TakeIn(frame))),
        }
    }

    /// The tenant's ready frame of the greatest serial, as a task; None where no frame is ready.
    #[inline(always)]
    fn newest_task(&self) -> Option<Task> {
        let (frame, home) = self.core.newest_ready(TENANT)?;
        Some(Task { frame, home })
    }

    /// Offers the step of what the worker holds, and does what follows up to its next step, which it returns;
    /// None where the job has ended or can't go on.
    #[inline(always)]
    fn offer_on(&mut self, held: Holding) -> Option<Ahead>
        ensures { Keeps self.old.core self.new.core }
    {
        let next = self.offer(held)?;
        self.go_on(next)
    }

    /// The worker's next step with what it holds now; None where the job has ended or can't go on. A leaf is
    /// computed and its answer brought at once; a job whose root has returned is ended, and one that is given up
    /// is spent.
    #[inline(always)]
    fn go_on(&mut self, held: Holding) -> Option<Ahead>
        ensures { Keeps self.old.core self.new.core }
    {
        match held {
            Holding::Nothing => Some(Ahead::Pick),
            Holding::Next(Action::Run(frame)) => Some(Ahead::Run(frame)),
            Holding::Next(Action::TakeIn(frame)) => Some(Ahead::TakeIn(frame)),
            Holding::Computing(frame, leaf) => self.bring(frame, leaf),
            Holding::Next(Action::Finish(frame)) => self.finish(frame),
            Holding::GivingUp(action) => self.spend(action.frame()),
            // No taken step leaves the worker with one of these.
            Holding::Next(Action::Get(_)) | Holding::Next(Action::Bring(_, _)) => None,
        }
    }

    /// Computes a leaf and brings its answer. It returns the next step, or None where the answer was refused.
    #[inline(always)]
    fn bring(&mut self, frame: FrameId, leaf: Leaf) -> Option<Ahead>
        ensures { Keeps self.old.core self.new.core }
    {
        let answer = LeafAnswer::compute(leaf);
        self.offer_and_run(Holding::Next(Action::Bring(frame, answer)))
    }

    /// Ends the job of the returned root. Nothing is left to do then, so it returns None.
    #[cold]
    #[inline(never)]
    fn finish(&mut self, root: FrameId) -> Option<Ahead>
        ensures { Keeps self.old.core self.new.core }
    {
        self.offer_and_run(Holding::Next(Action::Finish(root)))
    }

    /// Offers a step after which the worker either runs its frame, which is returned as its next step, or has no frame,
    /// for which None is returned. Where the step is refused for want of quota, the job is spent, and None is returned
    /// too.
    #[inline(always)]
    fn offer_and_run(&mut self, held: Holding) -> Option<Ahead>
        ensures { Keeps self.old.core self.new.core }
    {
        match self.offer(held)? {
            Holding::Next(Action::Run(frame)) => Some(Ahead::Run(frame)),
            Holding::GivingUp(action) => self.spend(action.frame()),
            // It holds no frame.
            _ => None,
        }
    }

    /// Offers to spend the job of a frame. Nothing is left to do then, whether or not it may be spent, so it
    /// returns None.
    #[cold]
    #[inline(never)]
    fn spend(&mut self, frame: FrameId) -> Option<Ahead>
        ensures { Keeps self.old.core self.new.core }
    {
        let _ = self.offer(Holding::GivingUp(Action::Run(frame)));
        None
    }

    /// Offers the step of what the worker holds, and returns what it holds after it; None where it has no step to
    /// offer, or can't go on (`goes_on`).
    #[inline(always)]
    fn offer(&mut self, held: Holding) -> Option<Holding>
        ensures { Keeps self.old.core self.new.core }
    {
        let worker = Worker::new(WORKER).unwrap();
        let step = own_step(worker, &held)?;
        let answer = self.take(&step);
        let refused = answer.is_err();
        goes_on(refused, held.turned(worker, answer).holding)
    }

    /// Offers a worker's step or a Spend to the core: what it did, or why it is refused.
    #[inline(always)]
    fn take(&mut self, step: &Step<Jamboree>) -> Result<Did<Jamboree>, Refusal>
        requires { IsWork step.now }
        ensures { Keeps self.old.core self.new.core }
    {
        step_search(&mut self.core, step)
    }
}

/// The step that the worker offers with what it holds, a worker's step or a Spend; None where it has none.
#[inline(always)]
fn own_step(worker: Worker, held: &Holding) -> Option<Step<Jamboree>>
    ensures { IfSome result (λ step. IsWork step) }
{
    held.step(worker)
}

/// What the worker holds after its turn, or None where it stops. After a refusal for want of quota it goes on, to
/// offer that the job be spent; after any other refusal it stops, also where the job may not be spent.
#[inline(always)]
fn goes_on(refused: bool, next: Holding) -> Option<Holding> {
    match next {
        Holding::GivingUp(_) => Some(next),
        _ if refused => None,
        _ => Some(next),
    }
}
