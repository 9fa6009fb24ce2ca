//! What comes of one who asks a site for a session, by the book of its customers and by who is there.
ghost use Rattle.std.specs.Prelude.{◌≡◌, ◌≤◌, ◌<◌, [], length};
ghost use Rattle.site_book.specs.Comings.{coming, unless_idle, stays, told_by, told_unless, with_staying};

use crate::book::why_over;
use crate::held::Grant;
use crate::plan::Plan;
use crate::present::{Leaver, Present, Told, first_told};
use crate::refusal::BookRefusal;
use crate::roll::{MOST, idlest, remaining};
use crate::who::Who;
use arrayvec::ArrayVec;
use tenant_quota::Reserve;

/// What comes of one who asks for a session.
#[derive(Clone, Copy, Debug, PartialEq, Eq)]
pub enum Coming {
    /// The book allows it.
    Enters,
    /// The book refuses it, but there is room once those have gone who were told to end.
    Waits(BookRefusal),
    /// The book refuses it, as all guests together have too much; the guest's session of this number is to end.
    Ends(u64, BookRefusal),
    /// The book refuses it.
    Refused(BookRefusal),
}

/// One who asks for a session.
#[derive(Clone, Copy, Debug)]
pub struct Comer {
    /// Whose the session is to be.
    pub who: Who,
    /// What it is to reserve.
    pub ask: Reserve,
    /// The time.
    pub at: u64,
    /// How long a guest may say nothing, where another comes.
    pub most: u64,
}

/// What comes of one who asks for a session at a hall that has these grants and sessions.
pub fn what_comes_of(plan: &Plan, grants: &[Grant], roll: &[Present], comer: &Comer) -> Coming
    requires few { length grants.now ≤ 64 }
    requires alike { length grants.now ≡ length roll.now }
    ensures { result ≡ coming plan.now grants.now roll.now comer.now }
{
    let Some(refusal) = why_over(plan, grants, comer.who, comer.ask) else {
        return Coming::Enters;
    };
    let staying = remaining(grants, roll, Leaver::Told);
    if why_over(plan, staying.as_slice(), comer.who, comer.ask).is_none() {
        return Coming::Waits(refusal);
    }
    let busy = remaining(
        grants,
        roll,
        Leaver::Idle {
            now: comer.at,
            most: comer.most,
        },
    );
    let why = why_over(plan, busy.as_slice(), comer.who, comer.ask);
    unless_idle(refusal, why, idlest(roll, comer.at, comer.most))
}

/// Whether the idlest guest is to end for one who is refused, by why it is refused though all idle ones have gone.
fn unless_idle(refusal: BookRefusal, why: Option<BookRefusal>, idle: Option<Present>) -> Coming
    ensures { result ≡ unless_idle refusal why idle }
{
    match refusal {
        BookRefusal::OverGuests => match (why, idle) {
            (None, Some(present)) => Coming::Ends(present.session, refusal),
            _ => Coming::Refused(refusal),
        },
        _ => Coming::Refused(refusal),
    }
}

/// The entry of a session under another plan: as it was, if it stays beside those before it that stay, and then its
/// grant is added to theirs; else told to end.
fn judged(
    plan: &Plan,
    before: &mut ArrayVec<Grant, MOST>,
    held: &Grant,
    present: &Present,
) -> Present
    requires { length before.old.items < 64 }
    ensures present { result ≡ told_unless (stays plan.now before.old.items held.now present.now) present.now }
    ensures before { before.new.items ≡ with_staying (stays plan.now before.old.items held.now present.now) before.old.items held.now }
{
    if stays(plan, before.as_slice(), held, present) {
        before.push(*held);
        *present
    } else {
        Present {
            told: first_told(present.told, Told::ByPlan),
            ..*present
        }
    }
}

/// Whether a session stays under another plan: it wasn't told to end, and the plan allows it beside those before it
/// that stay.
fn stays(plan: &Plan, before: &[Grant], held: &Grant, present: &Present) -> bool
    requires { length before.now ≤ 64 }
    ensures { result ≡ stays plan.now before.now held.now present.now }
{
    present.told.is_none() && why_over(plan, before, held.who, held.ask).is_none()
}

/// The entries of a hall's sessions, where those that don't stay under another plan are told to end.
pub fn told_by(plan: &Plan, grants: &[Grant], roll: &[Present]) -> ArrayVec<Present, MOST>
    requires few { length grants.now ≤ 64 }
    requires alike { length grants.now ≡ length roll.now }
    ensures { result.items ≡ told_by plan.now [] grants.now roll.now }
{
    let mut before = ArrayVec::new();
    let mut told = ArrayVec::new();
    let mut rest = grants;
    let mut beside = roll;
    while let Some((held, later)) = rest.split_first() {
        let Some((present, others)) = beside.split_first() else {
            unreachable!()
        };
        told.push(judged(plan, &mut before, held, present));
        rest = later;
        beside = others;
    }
    told
}
