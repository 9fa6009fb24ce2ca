//! The table of a pool's worker and its turn (what it offers, what it holds after each answer), row by row.
ghost use Rattle.std.specs.Prelude.{◌≡◌, Ok, Err, Some};
ghost use Rattle.jamboree_rules.specs.declared.pool_rules.turn.Holding.TheVariants.{Next, GivingUp};
ghost use Rattle.jamboree_rules.specs.pool_rules.Turns.{holding_after, readied, task_at, is_short, turn, turn_after};

use crate::Leaf;
use crate::pool_rules::task::Task;
use crate::pool_rules::turn::{Action, Holding, Turn};
use frame_table::FrameId;
use sched_rules::{DidOf, Refusal, Worker};

/// The turn after which a worker holds this, where no frame became ready.
#[inline(always)]
pub(crate) fn without_task(holding: Holding) -> Turn
    ensures { result ≡ turn holding }
{
    Turn {
        holding,
        task: None,
    }
}

/// The turn after which a worker holds this, and that made this frame ready, whose home the worker is.
#[inline(always)]
fn with_task(holding: Holding, worker: Worker, frame: FrameId) -> Turn
    ensures { result ≡ record { holding = holding; task = task_at worker (Some frame) } }
{
    Turn {
        holding,
        task: Some(Task {
            frame,
            home: worker.number(),
        }),
    }
}

/// The turn of a worker after the answer to its action's step, which was taken or refused.
#[inline(always)]
pub(crate) fn done(worker: Worker, action: Action, answer: Result<DidOf<Leaf>, Refusal>) -> Turn
    ensures { result ≡ turn_after worker (Next action) answer }
{
    match answer {
        Ok(did) => after(worker, action.frame(), did),
        Err(refusal) => without_task(refused(action, refusal)),
    }
}

/// The turn of a worker after a step on this frame did this: what it holds, and the task of the frame that became
/// ready by the step, a child that was opened or a parent that was woken. It is one `match`, as what the step did would
/// be copied for another.
#[inline(always)]
fn after(worker: Worker, frame: FrameId, did: DidOf<Leaf>) -> Turn
    ensures { result ≡ record { holding = holding_after frame did; task = task_at worker (readied did) } }
{
    match did {
        DidOf::Took | DidOf::Went | DidOf::Grew | DidOf::Answered => {
            without_task(Holding::Next(Action::Run(frame)))
        }
        DidOf::Spawned(child) => with_task(Holding::Next(Action::Run(frame)), worker, child),
        DidOf::Computing(leaf) => without_task(Holding::Computing(frame, leaf)),
        DidOf::Returned(false) => without_task(Holding::Next(Action::TakeIn(frame))),
        DidOf::Returned(true) => without_task(Holding::Next(Action::Finish(frame))),
        DidOf::TakenIn(Some(parent), _) => with_task(Holding::Nothing, worker, parent),
        _ => without_task(Holding::Nothing),
    }
}

/// What a worker holds after its action was refused: where quota ran out, or the act can't be done, it is about
/// to give the job up; after any other refusal it holds nothing.
#[inline(always)]
fn refused(action: Action, refusal: Refusal) -> Holding
    ensures { turn result ≡ turn_after 0 (Next action) (Err refusal) }
{
    match refusal {
        Refusal::NoSegments | Refusal::NoNodes | Refusal::NoSteps | Refusal::BadAct => {
            Holding::GivingUp(action)
        }
        _ => Holding::Nothing,
    }
}

/// What a worker holds after the answer to its offer to spend a job: its action again, where the job may go on
/// (`NotSpent`), else nothing.
#[inline(always)]
pub(crate) fn spent(action: Action, answer: Result<DidOf<Leaf>, Refusal>) -> Holding
    ensures { turn result ≡ turn_after 0 (GivingUp action) answer }
{
    match answer {
        Err(Refusal::NotSpent) => Holding::Next(action),
        _ => Holding::Nothing,
    }
}
