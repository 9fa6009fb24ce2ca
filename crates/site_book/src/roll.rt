//! The roll of a site's hall: who is there, in the order in which they came.
ghost use Rattle.std.specs.Prelude.{◌≡◌, ◌+◌, ◌≤◌, ◌<◌, ◌++◌, ◌∷◌, [], length, if◌then◌else◌};
ghost use Rattle.site_book.specs.Comings.{told_by};
ghost use Rattle.site_book.specs.Rolls.{idler, idlest, marked_all, newcomer, remaining, without_present};

use crate::coming::told_by;
use crate::held::Grant;
use crate::plan::Plan;
use crate::present::{Leaver, Present, SessionMark, Whom};
use crate::who::Who;
use arrayvec::ArrayVec;
use std::marker::Model;

/// The most sessions of a hall.
pub const MOST: usize = 64;

/// Who is at a hall, in the order in which they came: at most 64.
#[derive(Drop)]
pub struct Roll {
    entries: ArrayVec<Present, MOST>,
}

// Clauses see the list.
impl Model for Roll {
    ghost use Rattle.std.specs.Prelude.{List};
    ghost use Rattle.site_book.specs.declared.present.Present.{Present};

    ghost Value = { List Present };

    ghost view = { λ r. r.entries.items };
}

impl Roll {
    /// The roll of a new hall: no session is there.
    pub fn new() -> Roll
        ensures { result ≡ [] }
    {
        Roll {
            entries: ArrayVec::new(),
        }
    }

    /// The entries of all sessions that are there, in the order in which they came.
    pub fn entries(&self) -> &[Present]
        ensures entries { result.now ≡ self.now }
        ensures few { length result.now ≤ 64 }
    {
        self.entries.as_slice()
    }

    /// Enters a session that comes now.
    pub fn enter(&mut self, who: Who, session: u64, now: u64)
        requires { length self.old < 64 }
        ensures { self.new ≡ self.old ++ newcomer who session now ∷ [] }
    {
        self.entries.push(Present::newcomer(who, session, now));
    }

    /// A customer's session of this number leaves, if it is there.
    pub fn leave(&mut self, who: Who, session: u64)
        ensures { self.new ≡ without_present who session self.old }
    {
        self.entries = others(self.entries.as_slice(), who, session);
    }

    /// Puts this mark (it spoke, it waits, it is told to end) at the sessions of the roll that are meant.
    pub fn mark(&mut self, whom: Whom, mark: SessionMark)
        ensures { self.new ≡ marked_all whom mark self.old }
    {
        self.entries = marked(self.entries.as_slice(), whom, mark);
    }

    /// Tells those sessions to end that couldn't stay under another plan; these are the grants of the sessions, in
    /// their order.
    pub fn tell_by(&mut self, plan: &Plan, grants: &[Grant])
        requires few { length grants.now ≤ 64 }
        requires alike { length grants.now ≡ length self.old }
        ensures { self.new ≡ told_by plan.now [] grants.now self.old }
    {
        self.entries = told_by(plan, grants, self.entries.as_slice());
    }
}

/// The sessions of a roll without the first one of this customer and number.
fn others(roll: &[Present], who: Who, session: u64) -> ArrayVec<Present, MOST>
    requires { length roll.now ≤ 64 }
    ensures { result.items ≡ without_present who session roll.now }
{
    let mut left = ArrayVec::new();
    let mut rest = roll;
    let mut found = false;
    while let Some((present, later)) = rest.split_first() {
        let is_it = !found && present.is(who, session);
        keep_unless(&mut left, is_it, present);
        found = found || is_it;
        rest = later;
    }
    left
}

/// Appends a session to the list of those that stay, unless it goes.
fn keep_unless(left: &mut ArrayVec<Present, MOST>, goes: bool, present: &Present)
    requires { length left.old.items < 64 }
    ensures { left.new.items ≡ (if goes then left.old.items else left.old.items ++ present.now ∷ []) }
{
    if !goes {
        left.push(*present);
    }
}

/// The sessions of a roll, with this mark at those that are meant.
fn marked(roll: &[Present], whom: Whom, mark: SessionMark) -> ArrayVec<Present, MOST>
    requires { length roll.now ≤ 64 }
    ensures { result.items ≡ marked_all whom mark roll.now }
{
    let mut made = ArrayVec::new();
    let mut rest = roll;
    while let Some((present, later)) = rest.split_first() {
        made.push(present.marked_if(whom, mark));
        rest = later;
    }
    made
}

/// The grants that stay when some sessions leave; the roll names the sessions of the grants in their order.
pub fn remaining(grants: &[Grant], roll: &[Present], leaver: Leaver) -> ArrayVec<Grant, MOST>
    requires few { length grants.now ≤ 64 }
    requires alike { length grants.now ≡ length roll.now }
    ensures { result.items ≡ remaining leaver grants.now roll.now }
{
    let mut left = ArrayVec::new();
    let mut rest = grants;
    let mut beside = roll;
    while let Some((held, later)) = rest.split_first() {
        let Some((present, others)) = beside.split_first() else {
            unreachable!()
        };
        hold_unless(&mut left, present.goes(leaver), held);
        rest = later;
        beside = others;
    }
    left
}

/// Appends a grant to the list of those that stay, unless its session goes.
fn hold_unless(left: &mut ArrayVec<Grant, MOST>, goes: bool, held: &Grant)
    requires { length left.old.items < 64 }
    ensures { left.new.items ≡ (if goes then left.old.items else left.old.items ++ held.now ∷ []) }
{
    if !goes {
        left.push(*held);
    }
}

/// The idle session of a roll that has said nothing for longest; None where none is idle.
pub fn idlest(roll: &[Present], now: u64, most: u64) -> Option<Present>
    ensures { result ≡ idlest now most roll.now }
{
    let mut best = None;
    for present in roll {
        if present.is_idle(now, most) {
            best = idler(best, *present);
        }
    }
    best
}

/// Of two sessions of a roll the one that has said nothing for longer; the first where both have for as long.
fn idler(best: Option<Present>, next: Present) -> Option<Present>
    ensures { result ≡ idler best (Some next) }
{
    match best {
        Some(present) if next.last >= present.last => best,
        _ => Some(next),
    }
}
