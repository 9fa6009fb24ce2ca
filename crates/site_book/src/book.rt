//! The book of a site's customers: what each may have at once (its budget), and has (a grant for each session).
ghost use Rattle.std.specs.Prelude.{◌≡◌, [], ◌≤◌, None, length, is_some, IfOk, IfNone};
ghost use Rattle.site_book.specs.declared.held.Group.TheVariants.{All};
ghost use Rattle.site_book.specs.Amounts.{IsAmountWithin, of_one, plus};
ghost use Rattle.site_book.specs.Grants.{used, grant_of, grants_without};
ghost use Rattle.site_book.specs.Books.{new_book, is_beyond_part, why_beyond, why_over, why_no_raise, is_over, part_over, overrun_of, are_within, why_not_replan, taken};
ghost use Rattle.site_book.specs.declared.event.BookEvent.TheVariants.{Opens, Raises, Closes, Replans};

use crate::amount::Amount;
use crate::held::{
    Grant, Group, Overrun, is_lower, place_of, set_ask, take_out, used_besides, used_in,
};
use crate::plan::Plan;
use crate::refusal::BookRefusal;
use crate::who::Who;
use std::alloc::{AllocError, Global};
use std::marker::Model;
use std::mem;
use tenant_quota::Reserve;

/// The most grants of a hall.
const MOST: usize = 64;

/// The book of a hall: what its plan says, and the grants that are out.
#[derive(Drop)]
pub struct CustomerBook {
    plan: Plan,
    grants: Vec<Grant>,
}

// Clauses see the plan and the grants.
impl Model for CustomerBook {
    ghost use Rattle.site_book.specs.Books.{BookOf};
    ghost use Rattle.std.specs.Prelude.{◌≤◌, length};
    ghost use Rattle.std.specs.Vec.{vec_capacity};
    ghost use Rattle.site_book.specs.Keeping.{IsKept};

    ghost Value = { BookOf };

    ghost view = { λ book. record { plan = book.plan; grants = book.grants.items } };

    ghost invariant = { λ book. IsKept book.plan book.grants.items × (length book.grants.items ≤ 64) × (64 ≤ vec_capacity book.grants) };
}

impl CustomerBook {
    /// A book in which nothing has happened. It takes memory for all grants that there can be, and no other call takes any.
    /// Err where the allocator refuses it.
    pub fn new(alloc: Global, plan: Plan) -> Result<CustomerBook, AllocError>
        ensures { IfOk result (λ book. book ≡ new_book plan) }
    {
        let grants = Vec::with_capacity(alloc, MOST)?;
        Ok(CustomerBook { plan, grants })
    }

    /// The grants that are out, in the order in which they were opened.
    pub fn grants(&self) -> &[Grant]
        ensures grants { result.now ≡ self.now.grants }
        ensures few { length result.now ≤ 64 }
    {
        &self.grants
    }

    /// The plan by which the book grants sessions.
    pub fn plan(&self) -> &Plan
        ensures { result.now ≡ self.now.plan }
    {
        &self.plan
    }

    /// What some of the grants that are out have together.
    pub fn used(&self, part: Group) -> Amount
        ensures { result ≡ used part self.now.grants }
    {
        used_in(&self.grants, part)
    }

    /// Whether a customer's session of this number is there.
    #[tactic(auto, using(crate::proofs::Rules::has_rules))]
    pub fn has(&self, who: Who, session: u64) -> bool
        ensures { result ≡ is_some (grant_of who session self.now.grants) }
    {
        let grants = self.grants.as_slice();
        place_of(grants, who, session) < grants.len()
    }

    /// Why no session that reserves so much is opened for a customer now; None where nothing forbids it: then all sessions are
    /// within the hall's totals together with it.
    pub fn why_not_open(&self, who: Who, ask: Reserve) -> Option<BookRefusal>
        ensures why { result ≡ why_over self.now.plan who ask self.now.grants }
        ensures room { IfNone result (IsAmountWithin (plus (of_one ask) (used All self.now.grants)) self.now.plan.totals) }
        ensures few { self.now.plan.totals.sessions ≤ 64 }
    {
        let own = used_in(&self.grants, Group::Own(who));
        let network = used_in(&self.grants, Group::Network(who.network()));
        let guests = used_in(&self.grants, Group::Guests);
        why_beyond(&self.plan, who, ask, own, network, guests)
    }

    /// Opens a session of this number for a customer, where nothing forbids it.
    pub fn open(&mut self, who: Who, session: u64, ask: Reserve)
        requires { why_over self.old.plan who ask self.old.grants ≡ None }
        ensures { self.new ≡ taken self.old (Opens who session ask) }
    {
        self.grants.push(Grant { who, session, ask }).unwrap();
    }

    /// Why a customer's session of this number isn't raised to this now; None where nothing forbids it: then all sessions are
    /// within the hall's totals together with what it has then.
    pub fn why_not_raise(&self, who: Who, session: u64, ask: Reserve) -> Option<BookRefusal>
        ensures why { result ≡ why_no_raise self.now.plan who session ask self.now.grants (grant_of who session self.now.grants) }
        ensures room { IfNone result (IsAmountWithin (plus (of_one ask) (used All (grants_without who session self.now.grants))) self.now.plan.totals) }
    {
        why_no_raise(&self.plan, &self.grants, who, session, ask)
    }

    /// Raises a customer's session of this number to this, where nothing forbids it.
    pub fn raise(&mut self, who: Who, session: u64, ask: Reserve)
        requires { why_no_raise self.old.plan who session ask self.old.grants (grant_of who session self.old.grants) ≡ None }
        ensures { self.new ≡ taken self.old (Raises who session ask) }
    {
        set_ask(&mut self.grants, who, session, ask);
    }

    /// A customer's session of this number has ended: what it had is free again.
    pub fn close(&mut self, who: Who, session: u64)
        ensures { self.new ≡ taken self.old (Closes who session) }
    {
        take_out(&mut self.grants, who, session);
    }

    /// By how much a grant's customer, or all guests, have more than a plan allows; None where they don't.
    pub fn overrun(&self, plan: &Plan, held: &Grant) -> Option<Overrun>
        ensures { result ≡ overrun_of plan.now self.now.grants held.now }
    {
        let part = part_over(plan, &self.grants, held.who)?;
        Some(Overrun {
            who: held.who,
            session: held.session,
            part,
            has: used_in(&self.grants, part),
            may: plan.limit(part),
        })
    }

    /// Why another plan doesn't come in now; None where nothing forbids it: it is of a hall with the same totals, and all that is
    /// out is within it.
    pub fn why_not_replan(&self, plan: &Plan) -> Option<BookRefusal>
        ensures { result ≡ why_not_replan self.now plan.now }
    {
        if !plan.fits(self.plan.totals()) {
            return Some(BookRefusal::Unfit);
        }
        if !are_within(plan, &self.grants) {
            return Some(BookRefusal::Beyond);
        }
        None
    }

    /// Goes on by another plan, where nothing forbids it. Returns the plan that was there.
    pub fn replan(&mut self, plan: Plan) -> Plan
        requires { why_not_replan self.old plan ≡ None }
        ensures book { self.new ≡ taken self.old (Replans plan) }
        ensures plan { result ≡ self.old.plan }
    {
        mem::replace(&mut self.plan, plan)
    }
}

/// Whether so much more than what the part has is beyond what it may have, where the customer is one of it.
fn is_beyond(plan: &Plan, part: Group, who: Who, ask: Reserve, has: Amount) -> bool
    requires { IsAmountWithin has (record { sessions = 64; segments = 262144; nodes = 4194304 }) }
    ensures { result ≡ is_beyond_part plan.now part who ask has }
{
    part.has(who) && !has.with_one(ask).is_within(plan.limit(part))
}

/// Why so much more than what the customer, the guests of its wider network and all guests have isn't granted to it.
fn why_beyond(
    plan: &Plan,
    who: Who,
    ask: Reserve,
    own: Amount,
    network: Amount,
    guests: Amount,
) -> Option<BookRefusal>
    requires own { IsAmountWithin own (record { sessions = 64; segments = 262144; nodes = 4194304 }) }
    requires network { IsAmountWithin network (record { sessions = 64; segments = 262144; nodes = 4194304 }) }
    requires guests { IsAmountWithin guests (record { sessions = 64; segments = 262144; nodes = 4194304 }) }
    ensures { result ≡ why_beyond plan.now who ask own network guests }
{
    if is_beyond(plan, Group::Own(who), who, ask, own) {
        return Some(BookRefusal::OverBudget);
    }
    if is_beyond(plan, Group::Network(who.network()), who, ask, network) {
        return Some(BookRefusal::OverNetwork);
    }
    if is_beyond(plan, Group::Guests, who, ask, guests) {
        return Some(BookRefusal::OverGuests);
    }
    None
}

/// Why so much more than what these grants have isn't granted to a customer by a plan; None where nothing forbids it.
pub fn why_over(plan: &Plan, grants: &[Grant], who: Who, ask: Reserve) -> Option<BookRefusal>
    requires { length grants.now ≤ 64 }
    ensures { result ≡ why_over plan.now who ask grants.now }
{
    let own = used_in(grants, Group::Own(who));
    let network = used_in(grants, Group::Network(who.network()));
    let guests = used_in(grants, Group::Guests);
    why_beyond(plan, who, ask, own, network, guests)
}

/// Why a customer's session of this number isn't raised to this.
#[tactic(auto, using(crate::proofs::Rules::why_no_raise_rules))]
fn why_no_raise(
    plan: &Plan,
    grants: &[Grant],
    who: Who,
    session: u64,
    ask: Reserve,
) -> Option<BookRefusal>
    requires { length grants.now ≤ 64 }
    ensures { result ≡ why_no_raise plan.now who session ask grants.now (grant_of who session grants.now) }
{
    let place = place_of(grants, who, session);
    if place >= grants.len() {
        return Some(BookRefusal::Gone);
    }
    if is_lower(grants[place].ask, ask) {
        return Some(BookRefusal::Lower);
    }
    let own = used_besides(grants, place, Group::Own(who));
    let network = used_besides(grants, place, Group::Network(who.network()));
    let guests = used_besides(grants, place, Group::Guests);
    why_beyond(plan, who, ask, own, network, guests)
}

/// Whether the part has more than it may have, where the customer is one of it.
fn is_over(plan: &Plan, part: Group, who: Who, grants: &[Grant]) -> bool
    requires { length grants.now ≤ 64 }
    ensures { result ≡ is_over plan.now part who grants.now }
{
    part.has(who) && !used_in(grants, part).is_within(plan.limit(part))
}

/// The first part of which the customer is one that has more than it may have.
fn part_over(plan: &Plan, grants: &[Grant], who: Who) -> Option<Group>
    requires { length grants.now ≤ 64 }
    ensures { result ≡ part_over plan.now grants.now who }
{
    if is_over(plan, Group::Own(who), who, grants) {
        Some(Group::Own(who))
    } else if is_over(plan, Group::Network(who.network()), who, grants) {
        Some(Group::Network(who.network()))
    } else if is_over(plan, Group::Guests, who, grants) {
        Some(Group::Guests)
    } else {
        None
    }
}

/// Whether no part of any grant has more than the plan allows.
fn are_within(plan: &Plan, grants: &[Grant]) -> bool
    requires { length grants.now ≤ 64 }
    ensures { result ≡ are_within plan.now grants.now grants.now }
{
    for held in grants {
        if part_over(plan, grants, held.who).is_some() {
            return false;
        }
    }
    true
}
