//! How a site changes from one file to another: whole, or not at all.
//!
//! Each hall goes first by what both files allow ([`plan_of_both`]), and where one can't, since more is out there than that, those before
//! it go back. Both ways are always open: what is within such a plan is within either file's ([`what_both_allow_each_allows`]).
ghost use Rattle.std.specs.Prelude.{◌≡◌, ℕ, List, true, IfOk, IfSome};
ghost use Rattle.site_book.specs.declared.held.Grant.{Grant};
ghost use Rattle.site_book.specs.Plans.{PlanOf};
ghost use Rattle.site_book.specs.Books.{are_within};
ghost use Rattle.site_rules.specs.Reloads.{least_of_both, budgets_of_both, plan_of_both};

use site_book::{Amount, Group, Plan, Who};
use std::alloc::{AllocError, Global};

/// The lesser of both in sessions, segments and nodes.
fn least_of_both(a: Amount, b: Amount) -> Amount
    ensures { result ≡ least_of_both a b }
{
    Amount {
        sessions: a.sessions.min(b.sessions),
        segments: a.segments.min(b.segments),
        nodes: a.nodes.min(b.nodes),
    }
}

/// What both plans allow so many customers, of a hall with the totals of the first. `None` never, as the first one's sums fit.
pub fn plan_of_both(
    alloc: Global,
    a: &Plan,
    b: &Plan,
    customers: u32,
) -> Result<Option<Plan>, AllocError>
    ensures { IfOk result (λ plan. IfSome plan (λ own. own ≡ plan_of_both a.now b.now customers)) }
{
    let budgets = budgets_of_both(alloc, a, b, customers)?;
    let nobody = Who::V4(0);
    let network = Group::Network(nobody);
    Ok(Plan::new(
        a.totals(),
        budgets,
        least_of_both(a.budget(nobody), b.budget(nobody)),
        least_of_both(a.limit(network), b.limit(network)),
        least_of_both(a.limit(Group::Guests), b.limit(Group::Guests)),
    ))
}

/// The budgets of so many customers by both plans.
fn budgets_of_both(
    alloc: Global,
    a: &Plan,
    b: &Plan,
    customers: u32,
) -> Result<Vec<Amount>, AllocError>
    ensures { IfOk result (λ budgets. budgets.items ≡ budgets_of_both a.now b.now 0 customers) }
{
    let mut budgets = Vec::new(alloc);
    for number in 0..customers {
        let who = Who::Named(number);
        budgets.push(least_of_both(a.budget(who), b.budget(who)))?;
    }
    Ok(budgets)
}

/// A law: what is within what both plans allow is within either. So a hall that goes by it can go on by the second, and back to the first,
/// whatever came and went meanwhile.
pub fn what_both_allow_each_allows()
    ensures first { (a b : PlanOf) (many : ℕ) (grants : List Grant) → are_within (plan_of_both a b many) grants grants ≡ true → are_within a grants grants ≡ true }
    ensures second { (a b : PlanOf) (many : ℕ) (grants : List Grant) → are_within (plan_of_both a b many) grants grants ≡ true → are_within b grants grants ≡ true }
{}
