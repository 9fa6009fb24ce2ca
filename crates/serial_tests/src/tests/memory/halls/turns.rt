//! For tests of a hall: jobs that are driven step by step, and what a worker does next for one tenant.
ghost use Rattle.jamboree_core.specs.Replies.{IsSearch};

use super::*;
use frame_table::FrameId;
use hall::{LeafAnswer, Worker};

/// A worker's last step: its frame, and what was answered. None where the worker is to take a ready frame next.
type Last = Option<(FrameId, StepAnswer)>;

/// A worker offers this step for a frame, with which it then goes on, unless the frame waits or has ended.
fn go_on<A: Allocator + Clone>(hall: &mut Hall<A>, frame: FrameId, step: Step<Jamboree>) -> Last
    requires { IsSearch step }
{
    match offer(hall, &step) {
        Ok(DidOf::Waited | DidOf::Finished(_) | DidOf::TakenIn(_, _) | DidOf::Spent(_)) => None,
        answer => Some((frame, answer)),
    }
}

/// Takes the tenant's newest ready frame, by Take where it is the worker's own.
fn pick<A: Allocator + Clone>(hall: &mut Hall<A>, worker: Worker, tenant: u64) -> Last {
    let (frame, home) = hall.core().newest_ready(tenant)?;
    if home == worker.number() {
        go_on(hall, frame, StepOf::Take(worker, frame))
    } else {
        go_on(hall, frame, StepOf::Steal(worker, home, frame))
    }
}

/// What a worker does after this answer: it brings what the frame was to compute, ends the frame where that has returned,
/// gives the job up where it was refused something, and else lets the frame do its next act.
fn turn<A: Allocator + Clone>(
    hall: &mut Hall<A>,
    worker: Worker,
    frame: FrameId,
    answer: StepAnswer,
) -> Last {
    match answer {
        Ok(DidOf::Computing(leaf)) => {
            let computed = LeafAnswer::compute(leaf);
            go_on(hall, frame, StepOf::Answer(worker, frame, computed))
        }
        Ok(DidOf::Returned(true)) => go_on(hall, frame, StepOf::Finish(worker, frame)),
        Ok(DidOf::Returned(false)) => go_on(hall, frame, StepOf::Inlet(worker, frame)),
        Ok(_) => go_on(hall, frame, StepOf::Advance(worker, frame)),
        Err(_) => go_on(hall, frame, StepOf::Spend(frame)),
    }
}

/// The worker's next step for the tenant.
fn act<A: Allocator + Clone>(hall: &mut Hall<A>, worker: Worker, tenant: u64, last: Last) -> Last {
    match last {
        None => pick(hall, worker, tenant),
        Some((frame, answer)) => turn(hall, worker, frame, answer),
    }
}

/// The jobs of tenants 1 and 2 to their ends: worker 1 serves the one, worker 2 the other, a step each in
/// turns.
pub fn play<A: Allocator + Clone>(rt: &impl Abort, hall: &mut Hall<A>) {
    let one = Worker::new(1).expect(rt, "a worker's number");
    let two = Worker::new(2).expect(rt, "a worker's number");
    let (mut first, mut second) = (None, None);
    for _turn in 0..4096 {
        first = act(hall, one, 1, first);
        second = act(hall, two, 2, second);
    }
}
