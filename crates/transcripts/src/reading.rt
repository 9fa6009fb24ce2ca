//! The player of texts: a core's steps, read from texts.
use crate::values::FromWords;
use crate::words::LineWords;
use frame_table::FrameId;
use sched_core::{GivenWords, StepOf, Worker};
use tenant_quota::Reserve;

/// The step that a text says; None where it says none. Frames are written `TENANT.SERIAL`:
///
/// `Admit TENANT SEGMENTS NODES`, `AdmitMore TENANT SEGMENTS NODES`, `Submit TENANT SIZE WORDS..`, `Take WORKER FRAME`,
/// `Steal WORKER HOME FRAME`, `Advance WORKER FRAME`, `Answer WORKER FRAME ANSWER..`, `Inlet WORKER FRAME`,
/// `Finish WORKER FRAME`, `Spend FRAME`, `Cancel TENANT JOB`, `Leave TENANT`.
pub fn read_step<A: FromWords>(text: &str) -> Option<StepOf<A>> {
    let mut words = LineWords::of(text);
    let kind = words.word()?;
    let step = read_step_of_kind(kind, &mut words)?;
    if words.is_empty() { Some(step) } else { None }
}

/// Reads the rest of a step of this kind.
fn read_step_of_kind<A: FromWords>(kind: &str, words: &mut LineWords<'_>) -> Option<StepOf<A>> {
    match kind {
        "Admit" => Some(StepOf::Admit(words.number()?, read_reserve(words)?)),
        "AdmitMore" => Some(StepOf::AdmitMore(words.number()?, read_reserve(words)?)),
        "Submit" => read_submit(words),
        "Spend" => Some(StepOf::Spend(read_frame(words)?)),
        "Cancel" => Some(StepOf::Cancel(words.number()?, words.number()?)),
        "Leave" => Some(StepOf::Leave(words.number()?)),
        _ => {
            let worker = Worker::new(words.byte()?)?;
            read_work(kind, worker, words)
        }
    }
}

/// The tenant, the size, and at most eight words.
fn read_submit<A>(words: &mut LineWords<'_>) -> Option<StepOf<A>> {
    let tenant = words.number()?;
    let size = usize::try_from(words.number()?).ok()?;
    let mut given = [0u64; 8];
    let mut count = 0usize;
    for place in given.iter_mut() {
        if words.is_empty() {
            break;
        }
        *place = words.number()?;
        count = count.saturating_add(1);
    }
    let (given, _) = given.as_slice().split_at(count.min(8));
    Some(StepOf::Submit(tenant, GivenWords::new(given)?, size))
}

/// A reservation, read from two words of a line; None where they are no numbers within the limits.
fn read_reserve(words: &mut LineWords<'_>) -> Option<Reserve> {
    let segments = words.small()?;
    let nodes = words.small()?;
    Reserve::new(segments, nodes)
}

/// Reads the rest of a step by this worker.
fn read_work<A: FromWords>(
    kind: &str,
    worker: Worker,
    words: &mut LineWords<'_>,
) -> Option<StepOf<A>> {
    match kind {
        "Take" => Some(StepOf::Take(worker, read_frame(words)?)),
        "Steal" => Some(StepOf::Steal(worker, words.byte()?, read_frame(words)?)),
        "Advance" => Some(StepOf::Advance(worker, read_frame(words)?)),
        "Answer" => {
            let frame = read_frame(words)?;
            Some(StepOf::Answer(worker, frame, A::from_words(words)?))
        }
        "Inlet" => Some(StepOf::Inlet(worker, read_frame(words)?)),
        "Finish" => Some(StepOf::Finish(worker, read_frame(words)?)),
        _ => None,
    }
}

/// The frame that the next word names.
pub fn read_frame(words: &mut LineWords<'_>) -> Option<FrameId> {
    let (tenant, serial) = words.pair()?;
    Some(FrameId { tenant, serial })
}

/// Whether a step may call the allocator: an admission takes memory, and a Leave gives it back.
pub fn may_call_allocator<A>(step: &StepOf<A>) -> bool {
    matches!(
        step,
        StepOf::Admit(_, _) | StepOf::AdmitMore(_, _) | StepOf::Leave(_)
    )
}
