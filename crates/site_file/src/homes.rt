//! In which hall each customer is at home, and the plan of each hall.
ghost use Rattle.std.specs.Prelude.{◌≡◌, IfOk};
ghost use Rattle.site_file.specs.Homes.{budgets_at, first_budget, later_budgets, plans_from};

use crate::directory::Terms;
use crate::guests::Guests;
use site_book::{Amount, Plan};
use std::alloc::{AllocError, Global};

/// What is left of an amount without another.
fn less(whole: Amount, part: Amount) -> Amount {
    Amount {
        sessions: whole.sessions.saturating_sub(part.sessions),
        segments: whole.segments.saturating_sub(part.segments),
        nodes: whole.nodes.saturating_sub(part.nodes),
    }
}

/// Takes a budget off what a hall has left, if it has it all.
fn take(left: &mut [Amount], hall: usize, budget: Amount) -> bool {
    if hall < left.len() && budget.is_within(left[hall]) {
        left[hall] = less(left[hall], budget);
        true
    } else {
        false
    }
}

/// The first hall that has so much left, which is taken off it; `None` where no hall has.
fn first_with_room(left: &mut [Amount], budget: Amount) -> Option<usize> {
    for hall in 0..left.len() {
        if take(left, hall, budget) {
            return Some(hall);
        }
    }
    None
}

/// The hall that is asked for, or where nobody asks the first with room for the budget. Where there is none it is the first hall,
/// whose sums don't fit then.
fn home_of(left: &mut [Amount], wanted: Option<u32>, budget: Amount) -> u32 {
    match wanted {
        Some(hall) => hall,
        None => match first_with_room(left, budget) {
            Some(hall) => u32::try_from(hall).unwrap_or(0),
            None => 0,
        },
    }
}

/// What each of so many halls has left when the guests, and the customers whose home is asked for, have theirs.
fn left_in(
    alloc: Global,
    count: usize,
    guests: &Guests,
    budgets: &[Amount],
    wanted: &[Option<u32>],
) -> Result<Vec<Amount>, AllocError> {
    let mut left = vec![in alloc; less(guests.totals, guests.together); count]?;
    for (place, hall) in wanted.iter().enumerate() {
        if let (Some(hall), Some(budget)) = (hall, budgets.get(place)) {
            let _ = take(&mut left, *hall as usize, *budget);
        }
    }
    Ok(left)
}

/// Gives each customer its home in one of so many halls.
pub(crate) fn settle(
    alloc: Global,
    count: usize,
    guests: &Guests,
    budgets: &[Amount],
    wanted: &[Option<u32>],
    customers: &mut [Terms],
) -> Result<(), AllocError> {
    let mut left = left_in(alloc, count, guests, budgets, wanted)?;
    for (place, terms) in customers.iter_mut().enumerate() {
        if let (Some(hall), Some(budget)) = (wanted.get(place), budgets.get(place)) {
            terms.hall = home_of(&mut left, *hall, *budget);
        }
    }
    Ok(())
}

/// The first of these budgets, or nothing where there is none, and those behind it.
fn first_of(budgets: &[Amount]) -> (Amount, &[Amount])
    ensures first { result.0 ≡ first_budget budgets.now }
    ensures later { result.1.now ≡ later_budgets budgets.now }
{
    match budgets.split_first() {
        Some((budget, later)) => (*budget, later),
        None => (Amount::NOTHING, budgets),
    }
}

/// The budgets that customers have in a hall: nothing where it isn't their home.
fn budgets_at(
    alloc: Global,
    hall: u32,
    budgets: &[Amount],
    customers: &[Terms],
) -> Result<Vec<Amount>, AllocError>
    ensures { IfOk result (λ there. there.items ≡ budgets_at hall budgets.now customers.now) }
{
    let mut there = Vec::new(alloc);
    let mut rest = customers;
    let mut left = budgets;
    while let Some((terms, later)) = rest.split_first() {
        let (budget, others) = first_of(left);
        there.push(if terms.hall == hall {
            budget
        } else {
            Amount::NOTHING
        })?;
        rest = later;
        left = others;
    }
    Ok(there)
}

/// The plan of each of so many halls; at `Ok(Err(hall))` the sums of that hall don't fit.
pub(crate) fn plans_of(
    alloc: Global,
    count: u32,
    guests: &Guests,
    budgets: &[Amount],
    customers: &[Terms],
) -> Result<Result<Vec<Plan>, u32>, AllocError>
    ensures { IfOk result (λ found. IfOk found (λ plans. plans.items ≡ plans_from 0 count (record { totals = guests.now.totals; each = guests.now.each; network = guests.now.network; together = guests.now.together }) budgets.now customers.now)) }
{
    let mut plans = Vec::new(alloc);
    for hall in 0..count {
        let there = budgets_at(alloc, hall, budgets, customers)?;
        match Plan::new(
            guests.totals,
            there,
            guests.each,
            guests.network,
            guests.together,
        ) {
            Some(plan) => plans.push(plan)?,
            None => return Ok(Err(hall)),
        }
    }
    Ok(Ok(plans))
}

/// What the customers at home in a hall and its guests may have together.
pub(crate) fn given_at(
    hall: u32,
    guests: &Guests,
    budgets: &[Amount],
    customers: &[Terms],
) -> Amount {
    let mut given = guests.together;
    for (place, terms) in customers.iter().enumerate() {
        if terms.hall == hall {
            given = sum(
                given,
                budgets.get(place).copied().unwrap_or(Amount::NOTHING),
            );
        }
    }
    given
}

/// Both amounts together, in sessions, segments and nodes.
fn sum(a: Amount, b: Amount) -> Amount {
    Amount {
        sessions: a.sessions.saturating_add(b.sessions),
        segments: a.segments.saturating_add(b.segments),
        nodes: a.nodes.saturating_add(b.nodes),
    }
}
