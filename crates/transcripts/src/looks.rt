//! The player of texts: what is read of a core, as texts.
use crate::agreement::Done;
use crate::answered::draw_frame;
use crate::plain_core::Counting;
use crate::reading::read_frame;
use crate::words::{LineWords, push_number, push_numbers};
use cactus_stack::Words as FrameWords;
use frame_table::{FrameId, State};
use sched_core::{Job, Procedure};

/// What is said where there is nothing.
const NONE: &str = "none";

/// What is read of a core.
#[derive(Clone, Copy)]
pub enum Look {
    /// How many segments are free.
    Free,
    /// Whether some frame is ready.
    Ready,
    /// A frame's parent, state and words.
    Frame(FrameId),
    /// A tenant's segments, nodes and steps that are left.
    Left(u64),
    /// How many frames and words a tenant has.
    Live(u64),
    /// A tenant's newest ready frame, and its home.
    Newest(u64),
    /// A tenant's job of this number.
    Job(u64, u64),
}

/// The look that a text asks for; None where it asks for none: `free`, `ready`, `frame FRAME`, `left TENANT`, `live TENANT`,
/// `newest TENANT`, `job TENANT NUMBER`.
pub fn read_look(asked: &str) -> Option<Look> {
    let mut words = LineWords::of(asked);
    let look = match words.word()? {
        "free" => Look::Free,
        "ready" => Look::Ready,
        "frame" => Look::Frame(read_frame(&mut words)?),
        "left" => Look::Left(words.number()?),
        "live" => Look::Live(words.number()?),
        "newest" => Look::Newest(words.number()?),
        "job" => Look::Job(words.number()?, words.number()?),
        _ => return None,
    };
    if words.is_empty() { Some(look) } else { None }
}

/// Writes what a look at the core sees.
pub fn draw_look<P: Procedure>(text: &mut String, core: &Counting<'_, P>, look: Look) -> Done {
    match look {
        Look::Free => draw_free(text, core),
        Look::Ready => draw_ready(text, core),
        Look::Frame(name) => draw_entry(text, core, name),
        Look::Left(tenant) => draw_left(text, core, tenant),
        Look::Live(tenant) => draw_live(text, core, tenant),
        Look::Newest(tenant) => draw_newest(text, core, tenant),
        Look::Job(tenant, number) => draw_job(text, core.job(tenant, number)),
    }
}

/// Writes how many segments are free.
fn draw_free<P: Procedure>(text: &mut String, core: &Counting<'_, P>) -> Done {
    let free = core.free_segments();
    write!(text, "{free}")
}

/// A frame that is named as ready must be so, at the home that is named.
fn draw_ready<P: Procedure>(text: &mut String, core: &Counting<'_, P>) -> Done {
    let said = match core.any_ready() {
        None => NONE,
        Some((name, home)) if is_ready(core, name, home) => "some",
        Some(_) => "one that is not",
    };
    text.push_str(said)
}

/// Whether a frame is ready at this home.
fn is_ready<P: Procedure>(core: &Counting<'_, P>, name: FrameId, home: u8) -> bool {
    match core.frame(name) {
        Some((_, state)) => state == State::Ready(home),
        None => false,
    }
}

/// Writes the segments, nodes and steps that a tenant has left.
fn draw_left<P: Procedure>(text: &mut String, core: &Counting<'_, P>, tenant: u64) -> Done {
    let Some(left) = core.left(tenant) else {
        return text.push_str(NONE);
    };
    let segments = left.segments;
    let nodes = left.nodes;
    let steps = left.steps;
    write!(text, "{segments} {nodes} {steps}")
}

/// Writes how many frames and words a tenant has.
fn draw_live<P: Procedure>(text: &mut String, core: &Counting<'_, P>, tenant: u64) -> Done {
    match core.live(tenant) {
        Some((frames, words)) => write!(text, "{frames} {words}"),
        None => text.push_str(NONE),
    }
}

/// Writes a tenant's newest ready frame, and its home.
fn draw_newest<P: Procedure>(text: &mut String, core: &Counting<'_, P>, tenant: u64) -> Done {
    let Some((name, home)) = core.newest_ready(tenant) else {
        return text.push_str(NONE);
    };
    draw_frame(text, name)?;
    write!(text, " at {home}")
}

/// Writes how a job stands, with its words where it is done.
fn draw_job(text: &mut String, job: Option<&Job>) -> Done {
    match job {
        None => text.push_str(NONE),
        Some(Job::Live(root)) => write!(text, "live under {root}"),
        Some(Job::Done(words)) => {
            text.push_str("done")?;
            push_numbers(text, words.as_slice())
        }
        Some(Job::Spent) => text.push_str("spent"),
        Some(Job::Cancelled) => text.push_str("cancelled"),
    }
}

/// Writes a frame's parent, its state and its words.
fn draw_entry<P: Procedure>(text: &mut String, core: &Counting<'_, P>, name: FrameId) -> Done {
    let Some((parent, state)) = core.frame(name) else {
        return text.push_str(NONE);
    };
    if let Some(above) = parent {
        text.push_str("under ")?;
        draw_frame(text, above)?;
        text.push_str(" ")?;
    }
    write!(text, "{state:?}:")?;
    match core.words(name) {
        Some(words) => draw_words(text, &words),
        None => text.push_str(" no words"),
    }
}

/// Writes a frame's words, one after another.
fn draw_words(text: &mut String, words: &FrameWords) -> Done {
    for at in 0..words.len() {
        if let Some(word) = words.get(at) {
            push_number(text, word)?;
        }
    }
    Ok(())
}

/// Appends all that is read of a tenant: of its frames and jobs those up to this serial and number.
pub fn draw_tenant<P: Procedure>(
    text: &mut String,
    core: &Counting<'_, P>,
    tenant: u64,
    last: u64,
) -> Done {
    draw_left(text, core, tenant)?;
    text.push_str(", ")?;
    draw_live(text, core, tenant)?;
    text.push_str(", ")?;
    draw_newest(text, core, tenant)?;
    draw_jobs(text, core, tenant, last)?;
    draw_frames(text, core, tenant, last)
}

/// Writes each job of a tenant up to this number, 257 at most.
fn draw_jobs<P: Procedure>(
    text: &mut String,
    core: &Counting<'_, P>,
    tenant: u64,
    last: u64,
) -> Done {
    for number in 0..=last.min(257) {
        let job = core.job(tenant, number);
        if job.is_some() {
            write!(text, ", job {number} ")?;
            draw_job(text, job)?;
        }
    }
    Ok(())
}

/// Writes each frame of a tenant up to this serial.
fn draw_frames<P: Procedure>(
    text: &mut String,
    core: &Counting<'_, P>,
    tenant: u64,
    last: u64,
) -> Done {
    for serial in 0..=last.min(1 << 32) {
        let name = FrameId { tenant, serial };
        if core.frame(name).is_some() {
            write!(text, ", frame {serial} ")?;
            draw_entry(text, core, name)?;
        }
    }
    Ok(())
}
