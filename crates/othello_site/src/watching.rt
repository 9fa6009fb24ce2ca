//! What a site does each second: it looks for sessions whose client is gone, and connections that are to be shut.
use crate::ending::Why;
use crate::shared::Shared;
use site_book::{Group, Present, Told, Whom};
use site_desk::SiteNaming;
use std::sync::Wait;
use std::thread;
use std::time::{Clock, Duration};

/// Milliseconds between two looks.
const BETWEEN: u64 = 1_000;

/// Looks each second at sessions and connections, and returns once the operator has let nobody come any more and all
/// have left.
pub(crate) fn watch_all<J: SiteNaming, R: Clock + Wait>(rt: &R, shared: &Shared<J>) {
    for _ in rt.forever() {
        thread::sleep(rt, Duration::from_millis(BETWEEN));
        end_gone(rt, shared);
        if is_drained(rt, shared) {
            shared.ending.tell(rt, Why::Drained);
            return;
        }
        shut_told(rt, shared);
    }
}

/// Ends the sessions whose client is gone while they wait for a job.
fn end_gone<J: SiteNaming, R: Clock + Wait>(rt: &R, shared: &Shared<J>) {
    let now = shared.now(rt);
    let many = shared.register(rt).links.len();
    for place in 0..many {
        let gone = shared.register(rt).look(place, now);
        if let Some((hall, session)) = gone {
            let mut register = shared.register(rt);
            register.counts.gone = register.counts.gone.saturating_add(1);
            // (its answer to the WAIT can't be written, and its log line says why)
            register.shut(hall, session, Told::Gone);
            drop(register);
            let _ = tell(rt, shared, hall, Whom::One(session), Told::Gone);
        }
    }
}

/// Tells sessions of a hall to end, and returns how many these are that weren't told before.
pub(crate) fn tell<J: SiteNaming, R: Wait>(
    rt: &R,
    shared: &Shared<J>,
    hall: usize,
    whom: Whom,
    why: Told,
) -> u64 {
    let Some(desk) = shared.desks.get(hall) else {
        return 0;
    };
    let roll = desk.roll(rt);
    desk.tell(rt, whom, why);
    let mut many: u64 = 0;
    for present in roll.as_slice() {
        if present.told.is_none() && is_meant(whom, present) {
            many = many.saturating_add(1);
        }
    }
    many
}

/// Whether a session is one of those that are meant.
fn is_meant(whom: Whom, present: &Present) -> bool {
    match whom {
        Whom::One(session) => present.session == session,
        Whom::Each(part) => part.has(present.who),
    }
}

/// Shuts the connections of all sessions that were told to end, and returns how many these are.
pub(crate) fn shut_told<J: SiteNaming, R: Wait>(rt: &R, shared: &Shared<J>) -> u64 {
    let mut many: u64 = 0;
    for (hall, desk) in shared.desks.iter().enumerate() {
        let roll = desk.roll(rt);
        for present in roll.as_slice() {
            if let Some(why) = present.told {
                many = many.saturating_add(1);
                shared.register(rt).shut(hall, present.session, why);
            }
        }
    }
    many
}

/// Whether all have left, where nobody else may come. Those who stay longer than they may are told to end.
fn is_drained<J: SiteNaming, R: Clock + Wait>(rt: &R, shared: &Shared<J>) -> bool {
    let draining = shared.register(rt).draining;
    let Some(until) = draining else {
        return false;
    };
    if are_empty(rt, shared) {
        return true;
    }
    if until <= shared.now(rt) {
        for hall in 0..shared.desks.len() {
            let _ = tell(rt, shared, hall, Whom::Each(Group::All), Told::ByOperator);
        }
    }
    false
}

/// Whether no session is in any hall of the site.
fn are_empty<J: SiteNaming, R: Wait>(rt: &R, shared: &Shared<J>) -> bool {
    for desk in &shared.desks {
        if !desk.roll(rt).is_empty() {
            return false;
        }
    }
    true
}
