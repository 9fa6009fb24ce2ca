//! The player of texts: what a step of the core was answered, as a text.
use crate::agreement::Done;
use crate::values::DrawnInput;
use crate::words::push_number;
use frame_table::FrameId;
use sched_core::{DidOf, Refusal};

/// Appends an answer: what the step did, as `Spawned 1.5`, or why it was refused, as `Err 10 NoSegments`.
pub fn draw_answer<I: DrawnInput>(text: &mut String, answer: &Result<DidOf<I>, Refusal>) -> Done {
    match answer {
        Ok(did) => draw_did(text, did),
        Err(refusal) => {
            let number = refusal.number();
            write!(text, "Err {number} {refusal:?}")
        }
    }
}

/// Writes what a taken step did.
fn draw_did<I: DrawnInput>(text: &mut String, did: &DidOf<I>) -> Done {
    match did {
        DidOf::Submitted(job, root) => {
            write!(text, "Submitted {job} ")?;
            draw_frame(text, *root)
        }
        DidOf::Spawned(child) => {
            text.push_str("Spawned ")?;
            draw_frame(text, *child)
        }
        DidOf::Computing(input) => {
            text.push_str("Computing ")?;
            input.draw(text)
        }
        DidOf::TakenIn(woken, aborted) => draw_taken_in(text, *woken, *aborted),
        DidOf::Finished(job) => write!(text, "Finished {job}"),
        DidOf::Spent(job) => write!(text, "Spent {job}"),
        DidOf::Returned(true) => text.push_str("Returned root"),
        DidOf::Returned(false) => text.push_str("Returned"),
        other => write!(text, "{other:?}"),
    }
}

/// Appends what an Inlet did: the woken parent or `-`, and how many frames were aborted.
fn draw_taken_in(text: &mut String, woken: Option<FrameId>, aborted: u64) -> Done {
    text.push_str("TakenIn ")?;
    match woken {
        Some(parent) => draw_frame(text, parent)?,
        None => text.push_str("-")?,
    }
    push_number(text, aborted)
}

/// Writes a frame's name.
pub fn draw_frame(text: &mut String, name: FrameId) -> Done {
    let tenant = name.tenant;
    let serial = name.serial;
    write!(text, "{tenant}.{serial}")
}
