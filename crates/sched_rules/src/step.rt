//! The steps of the core, and what they did.
ghost use Rattle.std.specs.Prelude.{◌≡◌};
ghost use Rattle.sched_rules.specs.Runs.{tenant_of};

use crate::act::GivenWords;
use crate::procedure::Procedure;
use crate::worker::Worker;
use frame_table::FrameId;
use std::alloc::AllocError;
use tenant_quota::Reserve;

/// A step, for a procedure whose answers are of type A.
#[derive(Drop)]
pub enum StepOf<A> {
    /// A new tenant of this number is there from now on, with this reservation.
    Admit(u64, Reserve),
    /// The tenant's reservation is raised to this.
    AdmitMore(u64, Reserve),
    /// A new job of the tenant, whose root has this size and begins with these words.
    Submit(u64, GivenWords, usize),
    /// The worker runs a ready frame whose home it is.
    Take(Worker, FrameId),
    /// The worker runs a ready frame whose home is this other worker, or 0, the hall.
    Steal(Worker, u8, FrameId),
    /// A frame that the worker runs does its next act.
    Advance(Worker, FrameId),
    /// The worker brings the answer to the input of the frame that it computes; the frame runs again.
    Answer(Worker, FrameId, A),
    /// A frame that has returned is taken in by its parent; this worker does it.
    Inlet(Worker, FrameId),
    /// The worker ends the job of this root, which has returned: the job is done.
    Finish(Worker, FrameId),
    /// The job of this frame is given up, as the frame can't go on or the tenant has no step left.
    Spend(FrameId),
    /// The tenant's job of this number is cancelled. The tenant's number comes first.
    Cancel(u64, u64),
    /// The tenant leaves, with its jobs and frames.
    Leave(u64),
}

impl<A> StepOf<A> {
    /// The number of the tenant whose step it is.
    #[inline(always)]
    pub fn tenant(&self) -> u64
        ensures { result ≡ tenant_of self.now }
    {
        match self {
            StepOf::Take(_, name)
            | StepOf::Steal(_, _, name)
            | StepOf::Advance(_, name)
            | StepOf::Answer(_, name, _)
            | StepOf::Inlet(_, name)
            | StepOf::Finish(_, name)
            | StepOf::Spend(name) => name.tenant,
            StepOf::Admit(number, _)
            | StepOf::AdmitMore(number, _)
            | StepOf::Submit(number, _, _)
            | StepOf::Cancel(number, _)
            | StepOf::Leave(number) => *number,
        }
    }
}

/// What a taken step did, for a procedure whose inputs are of type I.
#[derive(Copy, Debug, PartialEq, Eq)]
pub enum DidOf<I> {
    /// The tenant is there.
    Admitted,
    /// The tenant has reserved more.
    AdmittedMore,
    /// A job was begun: its number, and its root.
    Submitted(u64, FrameId),
    /// The worker runs the frame (Take or Steal).
    Took,
    /// The frame did its stores and runs on.
    Went,
    /// The frame has more words and runs on.
    Grew,
    /// This child was opened, and the frame runs on.
    Spawned(FrameId),
    /// The frame waits for its children, after Wait, or after Return while it has one.
    Waited,
    /// The worker is to compute this input for the frame.
    Computing(I),
    /// The frame has returned; true where it is a root.
    Returned(bool),
    /// The frame took the answer and runs again.
    Answered,
    /// The child was taken in: the parent, if it was woken, and how many other frames were aborted.
    TakenIn(Option<FrameId>, u64),
    /// The job of this number is done.
    Finished(u64),
    /// The job of this number was given up.
    Spent(u64),
    /// The job was cancelled.
    Cancelled,
    /// The tenant is gone.
    Left,
}

impl<I: Copy> Clone for DidOf<I> {
    ghost use Rattle.std.specs.Prelude.{◌≡◌, ⊤};

    ghost is_clone = { λ did copy. copy ≡ did };

    ghost is_infallible = { λ did. ⊤ };

    /// A copy, as nothing in it takes memory.
    fn clone(&self) -> Result<DidOf<I>, AllocError> {
        Ok(*self)
    }
}

/// A step of a core that runs the procedure P.
pub type Step<P> = StepOf<<P as Procedure>::Answer>;

/// What a taken step of a core that runs the procedure P did.
pub type Did<P> = DidOf<<P as Procedure>::Input>;
