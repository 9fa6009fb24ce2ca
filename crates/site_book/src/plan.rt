//! The plan of a site's hall: what each named customer and the guests may have at once.
ghost use Rattle.std.specs.Prelude.{◌≡◌, ◌&&◌, IsTrue, IsSome, IfSome, ◌↔◌};
ghost use Rattle.site_book.specs.Amounts.{is_amount_within, is_same, sum_of, plus};
ghost use Rattle.site_book.specs.Plans.{limit_of, budget_of, sums_fit};

use crate::amount::Amount;
use crate::held::Group;
use crate::who::Who;
use std::marker::Model;

/// What a hall's customers may have at once. Its sums fit, so that the hall has room for whatever is within the budgets.
#[derive(Drop)]
pub struct Plan {
    totals: Amount,
    customers: Vec<Amount>,
    guest: Amount,
    network: Amount,
    guests: Amount,
}

// Clauses see the hall's totals and the budgets.
impl Model for Plan {
    ghost use Rattle.std.specs.Prelude.{◌≡◌, true};
    ghost use Rattle.site_book.specs.Plans.{PlanOf, sums_fit};

    ghost Value = { PlanOf };

    ghost view = { λ p. record { totals = p.totals; customers = p.customers.items; guest = p.guest; network = p.network; guests = p.guests } };

    ghost invariant = { λ p. sums_fit (record { totals = p.totals; customers = p.customers.items; guest = p.guest; network = p.network; guests = p.guests }) ≡ true };
}

impl Plan {
    /// The plan of a hall with these totals, whose named customers have these budgets, where each guest may have `guest`, the
    /// guests of one wider network `network` and all guests together `guests`. None exactly where the hall may have more than 64
    /// sessions, or the budgets of the customers and that of all guests are more together than the hall has.
    pub fn new(
        totals: Amount,
        customers: Vec<Amount>,
        guest: Amount,
        network: Amount,
        guests: Amount,
    ) -> Option<Plan>
        ensures fits { IsSome result ↔ IsTrue (sums_fit (record { totals = totals; customers = customers.items; guest = guest; network = network; guests = guests })) }
        ensures plan { IfSome result (λ plan. plan ≡ record { totals = totals; customers = customers.items; guest = guest; network = network; guests = guests }) }
    {
        if totals.sessions > 64 || !budgets_fit(totals, guests, &customers) {
            return None;
        }
        Some(Plan {
            totals,
            customers,
            guest,
            network,
            guests,
        })
    }

    /// What the hall has for all sessions.
    pub fn totals(&self) -> Amount
        ensures { result ≡ self.now.totals }
    {
        self.totals
    }

    /// What a customer may have: a guest what the plan allows each guest, and a named customer its own budget; nothing
    /// where the plan doesn't name it.
    pub fn budget(&self, who: Who) -> Amount
        ensures { result ≡ budget_of self.now who }
    {
        match who {
            Who::Named(number) => self
                .customers
                .get(number as usize)
                .copied()
                .unwrap_or(Amount::NOTHING),
            Who::V4(_) => self.guest,
            Who::V6(_) => self.guest,
        }
    }

    /// Whether this is the plan of a hall with these totals.
    pub(crate) fn fits(&self, totals: Amount) -> bool
        ensures { result ≡ (is_same self.now.totals totals && sums_fit self.now) }
    {
        self.totals.is_same(totals)
    }

    /// What some of the sessions may have together.
    pub fn limit(&self, part: Group) -> Amount
        ensures { result ≡ limit_of self.now part }
    {
        match part {
            Group::Own(who) => self.budget(who),
            Group::Network(_) => self.network,
            Group::Guests => self.guests,
            Group::All => self.totals,
        }
    }
}

/// Whether the budgets of the customers and of all guests are within the totals together.
fn budgets_fit(totals: Amount, guests: Amount, customers: &[Amount]) -> bool
    ensures { result ≡ is_amount_within (plus guests (sum_of customers.now)) totals }
{
    if !guests.is_within(totals) {
        return false;
    }
    let mut left = totals.less(guests);
    let mut rest = customers;
    while let Some((customer, others)) = rest.split_first() {
        if !customer.is_within(left) {
            return false;
        }
        left = left.less(*customer);
        rest = others;
    }
    true
}
