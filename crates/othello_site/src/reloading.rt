//! A site's file read again while it runs.
use crate::paths::Paths;
use crate::shared::Shared;
use crate::watching::shut_told;
use site_book::Plan;
use site_desk::{BookTrace, SiteNaming};
use site_file::{FileFault, SiteConfig, amount_text, read_config_again};
use site_rules::{connections_within, plan_of_both};
use std::alloc::{AllocError, Global};
use std::fmt::Write;
use std::sync::{Arc, Wait};
use std::time::{Clock, Duration};
use std::{io, thread};

/// How often it is looked whether those have left who were told to end.
const TRIES: u32 = 20;

/// Milliseconds between two looks.
const BETWEEN: u64 = 100;

/// Why all stays as it is.
#[derive(Drop)]
pub(crate) enum Unread {
    /// There is no file.
    None,
    /// It can't be read.
    Unread(io::Error),
    /// It is wrong.
    Wrong(FileFault),
    /// Another hall's totals are in it.
    Totals,
    /// Somebody has more than it allows: who, and by how much.
    Beyond(String),
    /// There is no memory.
    Memory,
}

impl From<AllocError> for Unread {
    /// The fault of a file that couldn't be read for want of memory.
    fn from(_fault: AllocError) -> Unread {
        Unread::Memory
    }
}

/// Lowers the connections of a file to those that the process has descriptors for; false where there are none.
pub(crate) fn lower(config: &mut SiteConfig, descriptors: Option<u64>) -> bool {
    let Some(descriptors) = descriptors else {
        return true;
    };
    match connections_within(descriptors, config.limits.connections) {
        Some(most) => {
            config.limits.connections = most;
            true
        }
        None => false,
    }
}

/// Goes on by the file, as it is now, where all that is out is within it. At `ends` those who are beyond it are told to end first.
/// One at a time: who is new in a file gets the next number that nobody has, which two at once would both give.
pub(crate) fn reload<J: SiteNaming, R: Paths + AllocGlobal + Clock + Wait>(
    rt: &R,
    shared: &Shared<J>,
    ends: bool,
) -> Result<(), Unread> {
    if shared.path.is_empty() {
        return Err(Unread::None);
    }
    let _turn = shared.reloads.lock(rt);
    let text = match rt.text_of(shared.path.as_str()) {
        Ok(text) => text,
        Err(error) => return Err(Unread::Unread(error)),
    };
    let now = Arc::try_clone(&shared.register(rt).config)?;
    let mut config = match read_config_again(rt.alloc(), text.as_str(), &now) {
        Ok(config) => config,
        Err(fault) => return Err(Unread::Wrong(fault)),
    };
    let _ = lower(&mut config, shared.descriptors);
    let change = change_of(rt.alloc(), &now, &config)?;
    if ends {
        end_beyond(rt, shared, &config);
    }
    go_by(rt, shared, config, change)
}

/// What each hall goes by while a site changes from one file to another, from the first hall on.
#[derive(Drop)]
struct PlanChange {
    /// What both files allow.
    between: Vec<Plan>,
    /// What the second allows.
    then: Vec<Plan>,
    /// Where the plans are kept that halls went by before.
    was: Vec<Plan>,
}

/// All that a change from one file to another needs, with the memory for it: for each hall the plan that both files
/// allow, the new plan, and the place for the old one. It fails where a hall's totals differ.
fn change_of(alloc: Global, now: &SiteConfig, config: &SiteConfig) -> Result<PlanChange, Unread> {
    let many = u32::try_from(config.directory.customers.len()).unwrap_or(u32::MAX);
    let mut change = PlanChange {
        between: Vec::new(alloc),
        then: Vec::new(alloc),
        was: Vec::with_capacity(alloc, now.halls.len())?,
    };
    for (own, plan) in now.halls.iter().zip(config.halls.iter()) {
        if own.totals() != plan.totals() {
            return Err(Unread::Totals);
        }
        let both = plan_of_both(alloc, own, plan, many)?;
        let then = plan_of_both(alloc, plan, plan, many)?;
        match (both, then) {
            (Some(both), Some(then)) => {
                let is_kept = change.between.push(both).is_ok() && change.then.push(then).is_ok();
                if !is_kept {
                    return Err(Unread::Memory);
                }
            }
            _ => return Err(Unread::Memory),
        }
    }
    Ok(change)
}

/// Tells those sessions to end that couldn't stay under the new file, and waits a little until they have left.
fn end_beyond<J: SiteNaming, R: Clock + Wait>(rt: &R, shared: &Shared<J>, config: &SiteConfig) {
    for (hall, desk) in shared.desks.iter().enumerate() {
        if let Some(plan) = config.halls.get(hall) {
            desk.tell_by(rt, plan);
        }
    }
    for _ in 0..TRIES {
        if shut_told(rt, shared) == 0 {
            return;
        }
        thread::sleep(rt, Duration::from_millis(BETWEEN));
    }
}

/// Has all halls and the directory of customers go by another file; or none of them, and all stays as it was. Nobody is
/// met meanwhile: neither a new connection nor a HELLO.
fn go_by<J: SiteNaming, R: AllocGlobal + Wait>(
    rt: &R,
    shared: &Shared<J>,
    config: SiteConfig,
    change: PlanChange,
) -> Result<(), Unread> {
    let PlanChange { between, then, was } = change;
    let Ok(config) = Arc::new(rt.alloc(), config) else {
        return Err(Unread::Memory);
    };
    let theirs = Arc::try_clone(&config)?;
    let beyond = {
        let mut register = shared.register(rt);
        let beyond = go_between(rt, shared, between, was);
        if beyond.is_none() {
            go_all(rt, shared, then);
            register.config = theirs;
        }
        beyond
    };
    match beyond {
        None => Ok(()),
        Some(hall) => match config.halls.get(hall) {
            Some(plan) => Err(Unread::Beyond(over_text(rt, shared, hall, plan)?)),
            None => Err(Unread::Memory),
        },
    }
}

/// Has each hall go by what the old and the new file both allow. Where a hall has more out than that, the halls before
/// it go back to their old plans, and its number is returned.
fn go_between<J: SiteNaming, R: Wait>(
    rt: &R,
    shared: &Shared<J>,
    plans: Vec<Plan>,
    was: Vec<Plan>,
) -> Option<usize> {
    let mut was = was;
    let mut hall: usize = 0;
    for plan in plans {
        if let Some(desk) = shared.desks.get(hall) {
            let is_kept = match desk.reload(rt, plan) {
                Ok(came) => keep(&mut was, came),
                Err(_) => false,
            };
            if !is_kept {
                go_all(rt, shared, was);
                return Some(hall);
            }
        }
        hall = hall.saturating_add(1);
    }
    None
}

/// Keeps the plan that a hall went by until another came in; false where there is no memory.
fn keep<J: SiteNaming>(was: &mut Vec<Plan>, came: (Plan, BookTrace<J>)) -> bool {
    let (plan, _trace) = came;
    was.push(plan).is_ok()
}

/// Has the halls go by these plans, from the first on, within which all is that is out.
fn go_all<J: SiteNaming, R: Wait>(rt: &R, shared: &Shared<J>, plans: Vec<Plan>) {
    let mut hall: usize = 0;
    for plan in plans {
        if let Some(desk) = shared.desks.get(hall) {
            let _ = desk.reload(rt, plan);
        }
        hall = hall.saturating_add(1);
    }
}

/// Who has more than a plan allows, and by how much: a line for each session.
fn over_text<J: SiteNaming, R: AllocGlobal + Wait>(
    rt: &R,
    shared: &Shared<J>,
    hall: usize,
    plan: &Plan,
) -> Result<String, AllocError> {
    let alloc = rt.alloc();
    let mut out = String::new(alloc);
    let Some(desk) = shared.desks.get(hall) else {
        return Ok(out);
    };
    let overruns = desk.overruns(rt, plan);
    for found in overruns.as_slice() {
        if let Some(overrun) = found {
            let name = {
                let config = Arc::try_clone(&shared.register(rt).config)?;
                config.directory.name_of(alloc, overrun.who)?
            };
            let has = amount_text(alloc, overrun.has)?;
            let may = amount_text(alloc, overrun.may)?;
            let (number, session) = (hall.saturating_add(1), overrun.session);
            writeln!(
                out,
                "over hall={number} session={session} customer=\"{name}\" has=\"{has}\" may=\"{may}\""
            )?;
        }
    }
    Ok(out)
}
