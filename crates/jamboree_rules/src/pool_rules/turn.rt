//! The turn of a pool's worker: what it holds, and from what the hall answered to what it does next.
//!
//! The table is `specs/Turns.antt`: which step a worker offers for what it is about to do, what it
//! holds after each answer, and which frame became ready by its step.
ghost use Rattle.std.specs.Prelude.{◌≡◌};

use crate::pool_rules::table::{done, spent, without_task};
use crate::pool_rules::task::Task;
use crate::{Leaf, LeafAnswer};
use frame_table::FrameId;
use sched_rules::{DidOf, Refusal, StepOf, Worker};

/// What a worker does next with a frame, by one step of the hall.
#[derive(Clone, Copy, Debug, PartialEq, Eq)]
pub enum Action {
    /// To get the frame of a task: to take it where the task's home is this worker, else to steal it.
    Get(Task),
    /// To advance the frame that it runs.
    Run(FrameId),
    /// To bring the answer that it computed for the frame.
    Bring(FrameId, LeafAnswer),
    /// To have the returned frame taken in by its parent.
    TakeIn(FrameId),
    /// To end the job of the returned root.
    Finish(FrameId),
}

/// What a worker holds.
#[derive(Clone, Copy, Debug, PartialEq, Eq)]
pub enum Holding {
    /// No frame.
    Nothing,
    /// A frame, and what it does with it next.
    Next(Action),
    /// A frame that it computes outside the hall's lock, and the leaf that it computes.
    Computing(FrameId, Leaf),
    /// An action whose step was refused, as quota ran out or the act can't be done. The worker offers to spend
    /// the frame's job; where that is refused since the job may go on, it offers the action's step again.
    GivingUp(Action),
}

/// What a worker's turn comes to.
#[derive(Clone, Copy, Debug, PartialEq, Eq)]
pub struct Turn {
    /// What the worker holds after it.
    pub holding: Holding,
    /// The frame that became ready by its step, if one did.
    pub task: Option<Task>,
}

impl Action {
    ghost use Rattle.std.specs.Prelude.{◌≡◌};
    ghost use Rattle.jamboree_rules.specs.pool_rules.Turns.{frame_of_action, step_of};

    /// The frame that the worker's action is about.
    #[inline(always)]
    pub fn frame(&self) -> FrameId
        ensures { result ≡ frame_of_action self.now }
    {
        match self {
            Action::Get(task) => task.frame,
            Action::Run(frame) => *frame,
            Action::Bring(frame, _) => *frame,
            Action::TakeIn(frame) => *frame,
            Action::Finish(frame) => *frame,
        }
    }

    /// The core's step for the action. A task whose home is `worker` is taken, any other is stolen from its home.
    #[inline(always)]
    pub fn step(&self, worker: Worker) -> StepOf<LeafAnswer>
        ensures { result ≡ step_of worker self.now }
    {
        match self {
            Action::Get(task) => {
                if task.home == worker.number() {
                    StepOf::Take(worker, task.frame)
                } else {
                    StepOf::Steal(worker, task.home, task.frame)
                }
            }
            Action::Run(frame) => StepOf::Advance(worker, *frame),
            Action::Bring(frame, answer) => StepOf::Answer(worker, *frame, *answer),
            Action::TakeIn(frame) => StepOf::Inlet(worker, *frame),
            Action::Finish(frame) => StepOf::Finish(worker, *frame),
        }
    }
}

impl Holding {
    ghost use Rattle.std.specs.Prelude.{◌≡◌};
    ghost use Rattle.jamboree_rules.specs.pool_rules.Turns.{offered, turn_after};

    /// The step that a worker offers with what it holds; None where it holds nothing, or computes.
    #[inline(always)]
    pub fn step(&self, worker: Worker) -> Option<StepOf<LeafAnswer>>
        ensures { result ≡ offered worker self.now }
    {
        match self {
            Holding::Nothing => None,
            Holding::Next(action) => Some(action.step(worker)),
            Holding::Computing(_, _) => None,
            Holding::GivingUp(action) => Some(StepOf::Spend(action.frame())),
        }
    }

    /// What a worker holds after the answer to the step that it offered, and the task of the frame that the step
    /// made ready. One that offers no step keeps what it holds.
    #[inline(always)]
    pub fn turned(self, worker: Worker, answer: Result<DidOf<Leaf>, Refusal>) -> Turn
        ensures { result ≡ turn_after worker self answer }
    {
        match self {
            Holding::Nothing => without_task(Holding::Nothing),
            Holding::Next(action) => done(worker, action, answer),
            Holding::Computing(frame, leaf) => without_task(Holding::Computing(frame, leaf)),
            Holding::GivingUp(action) => without_task(spent(action, answer)),
        }
    }
}
