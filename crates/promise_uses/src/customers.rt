//! Uses of the laws on the book of a site's customers: what it gives to any customer of the file, and to any guest of
//! IPv4 and of IPv6. (At one customer alone a use would let a law through that is narrowed to that one.)
ghost use Rattle.std.specs.Prelude.{◌≡◌, ◌+◌, ◌≤◌, ℕ, length, List, [], ◌∷◌, Option, Some, None, true, IsTrue};
ghost use Rattle.tenant_quota.specs.Reserves.{ReserveOf};
ghost use Rattle.site_book.specs.declared.held.Grant.{Grant};
ghost use Rattle.site_book.specs.declared.held.Group.TheVariants.{Own, Network, Guests, All};
ghost use Rattle.site_book.specs.declared.refusal.BookRefusal.{BookRefusal};
ghost use Rattle.site_book.specs.declared.who.Who.TheVariants.{Named, V4, V6};
ghost use Rattle.site_book.specs.Names.{same_who, is_guest, network_of};
ghost use Rattle.site_book.specs.Plans.{PlanOf, budget_of, sums_fit};
ghost use Rattle.site_book.specs.Grants.{used, grant_of, grants_without};
ghost use Rattle.site_book.specs.Books.{BookOf, new_book, why_over, why_no_raise, why_not_replan};
ghost use Rattle.site_book.specs.declared.event.BookEvent.{BookEvent};
ghost use Rattle.site_book.specs.declared.event.BookEvent.TheVariants.{Opens};
ghost use Rattle.site_book.specs.Events.{book_after_events, answers, only_events, answers_of, grants_of, still_open, names_granted};

use site_book::laws::{
    a_plan_comes_in, a_refusal_is_ones_own, all_comes_back, no_customer_is_disturbed,
    nobody_is_over_budget, the_hall_has_room,
};

/// A customer asks for a session, and one of its sessions for more, of each kind the last that its own budget has, and one more:
/// whatever others have. Uses `site_book::a_refusal_is_ones_own` (`opens`, `raises`).
pub fn a_customer_at_its_limits()
    ensures granted { (number : ℕ) (plan : PlanOf) (ask : ReserveOf) (grants : List Grant) → why_over plan (Named number) ask grants ≡ None →
        1 + (used (Own (Named number)) grants).sessions ≤ (budget_of plan (Named number)).sessions }
    ensures segments { (number : ℕ) (plan : PlanOf) (ask : ReserveOf) (grants : List Grant) → why_over plan (Named number) ask grants ≡ None →
        ask.segments + (used (Own (Named number)) grants).segments ≤ (budget_of plan (Named number)).segments }
    ensures nodes { (number : ℕ) (plan : PlanOf) (ask : ReserveOf) (grants : List Grant) → why_over plan (Named number) ask grants ≡ None →
        ask.nodes + (used (Own (Named number)) grants).nodes ≤ (budget_of plan (Named number)).nodes }
    ensures allowed { (number : ℕ) (plan : PlanOf) (ask : ReserveOf) (grants : List Grant) →
        1 + (used (Own (Named number)) grants).sessions ≤ (budget_of plan (Named number)).sessions →
        ask.segments + (used (Own (Named number)) grants).segments ≤ (budget_of plan (Named number)).segments →
        ask.nodes + (used (Own (Named number)) grants).nodes ≤ (budget_of plan (Named number)).nodes →
        why_over plan (Named number) ask grants ≡ None }
    ensures raised { (number session : ℕ) (plan : PlanOf) (ask : ReserveOf) (grants : List Grant) (held : Grant) → grant_of (Named number) session grants ≡ Some held →
        why_no_raise plan (Named number) session ask grants (grant_of (Named number) session grants) ≡ None →
        ask.nodes + (used (Own (Named number)) (grants_without (Named number) session grants)).nodes ≤ (budget_of plan (Named number)).nodes }
{
    a_refusal_is_ones_own()
}

/// A guest asks, and one of its sessions for more: its own budget, that of its wider network and that of all guests must have what it
/// asks for. Uses `site_book::a_refusal_is_ones_own` (`opens`, `raises`).
pub fn a_guest_at_its_limits()
    ensures own { (network : ℕ) (plan : PlanOf) (ask : ReserveOf) (grants : List Grant) → why_over plan (V6 network) ask grants ≡ None →
        ask.segments + (used (Own (V6 network)) grants).segments ≤ plan.guest.segments }
    ensures network { (network : ℕ) (plan : PlanOf) (ask : ReserveOf) (grants : List Grant) → why_over plan (V6 network) ask grants ≡ None →
        1 + (used (Network (network_of (V6 network))) grants).sessions ≤ plan.network.sessions }
    ensures together { (address : ℕ) (plan : PlanOf) (ask : ReserveOf) (grants : List Grant) → why_over plan (V4 address) ask grants ≡ None →
        ask.nodes + (used Guests grants).nodes ≤ plan.guests.nodes }
    ensures raised { (address session : ℕ) (plan : PlanOf) (ask : ReserveOf) (grants : List Grant) (held : Grant) → grant_of (V4 address) session grants ≡ Some held →
        why_no_raise plan (V4 address) session ask grants (grant_of (V4 address) session grants) ≡ None →
        ask.segments + (used Guests (grants_without (V4 address) session grants)).segments ≤ plan.guests.segments }
{
    a_refusal_is_ones_own()
}

/// After any events, a customer has no more sessions than its budget, a guest no more nodes than each may have, the guests together no
/// more segments than theirs, and all no more nodes than the hall, which has what it had; and there are 64 sessions at most. Uses
/// `site_book::nobody_is_over_budget` (`within`, `totals`, `few`).
pub fn within_all_budgets()
    ensures named { (number : ℕ) (plan : PlanOf) (events : List BookEvent) → sums_fit plan ≡ true →
        (used (Own (Named number)) (book_after_events (new_book plan) events).grants).sessions ≤ (budget_of (book_after_events (new_book plan) events).plan (Named number)).sessions }
    ensures guest { (network : ℕ) (plan : PlanOf) (events : List BookEvent) → sums_fit plan ≡ true →
        (used (Own (V6 network)) (book_after_events (new_book plan) events).grants).nodes ≤ (book_after_events (new_book plan) events).plan.guest.nodes }
    ensures guests { (plan : PlanOf) (events : List BookEvent) → sums_fit plan ≡ true →
        (used Guests (book_after_events (new_book plan) events).grants).segments ≤ (book_after_events (new_book plan) events).plan.guests.segments }
    ensures all { (plan : PlanOf) (events : List BookEvent) → sums_fit plan ≡ true →
        (used All (book_after_events (new_book plan) events).grants).nodes ≤ plan.totals.nodes }
    ensures few { (plan : PlanOf) (events : List BookEvent) → sums_fit plan ≡ true → length (book_after_events (new_book plan) events).grants ≤ 64 }
{
    nobody_is_over_budget()
}

/// After any events, a session that isn't refused to a customer, and one of a guest's that asks for more, have room in the hall. Uses
/// `site_book::the_hall_has_room` (`opens`, `raises`).
pub fn room_for_all()
    ensures opens { (number : ℕ) (plan : PlanOf) (events : List BookEvent) (ask : ReserveOf) → sums_fit plan ≡ true →
        why_over (book_after_events (new_book plan) events).plan (Named number) ask (book_after_events (new_book plan) events).grants ≡ None →
        ask.segments + (used All (book_after_events (new_book plan) events).grants).segments ≤ plan.totals.segments }
    ensures guest { (address : ℕ) (plan : PlanOf) (events : List BookEvent) (ask : ReserveOf) → sums_fit plan ≡ true →
        why_over (book_after_events (new_book plan) events).plan (V4 address) ask (book_after_events (new_book plan) events).grants ≡ None →
        1 + (used All (book_after_events (new_book plan) events).grants).sessions ≤ plan.totals.sessions }
    ensures raises { (number session : ℕ) (plan : PlanOf) (events : List BookEvent) (ask : ReserveOf) → sums_fit plan ≡ true →
        why_no_raise (book_after_events (new_book plan) events).plan (Named number) session ask (book_after_events (new_book plan) events).grants (grant_of (Named number) session (book_after_events (new_book plan) events).grants) ≡ None →
        ask.nodes + (used All (grants_without (Named number) session (book_after_events (new_book plan) events).grants)).nodes ≤ plan.totals.nodes }
{
    the_hall_has_room()
}

/// A plan that comes in is of the same hall, and leaves each customer and all guests what they have; one that does so to all comes in. Uses
/// `site_book::a_plan_comes_in`.
pub fn plans_that_come_in()
    ensures totals { (book : BookOf) (plan : PlanOf) → why_not_replan book plan ≡ None → plan.totals ≡ book.plan.totals }
    ensures fits { (book : BookOf) (plan : PlanOf) → why_not_replan book plan ≡ None → sums_fit plan ≡ true }
    ensures named { (number : ℕ) (book : BookOf) (plan : PlanOf) → why_not_replan book plan ≡ None →
        (used (Own (Named number)) book.grants).sessions ≤ (budget_of plan (Named number)).sessions }
    ensures guests { (book : BookOf) (plan : PlanOf) → why_not_replan book plan ≡ None → (used Guests book.grants).nodes ≤ plan.guests.nodes }
    ensures empty { (plan other : PlanOf) → plan.totals ≡ other.totals → sums_fit plan ≡ true → why_not_replan (new_book other) plan ≡ None }
{
    a_plan_comes_in()
}

/// A customer is told the same, and has the same, whatever other customers and the guests do; and a guest of IPv4 or IPv6 what all guests'
/// own events give. Uses `site_book::no_customer_is_disturbed` (`told`, `grants`, `guests_told`, `guests_grants`).
pub fn a_customer_and_the_guests()
    ensures told { (number : ℕ) (plan : PlanOf) (one other : List BookEvent) →
        only_events (same_who (Named number)) (new_book plan) one ≡ only_events (same_who (Named number)) (new_book plan) other →
        answers_of (same_who (Named number)) (new_book plan) one ≡ answers_of (same_who (Named number)) (new_book plan) other }
    ensures grants { (number : ℕ) (plan : PlanOf) (one other : List BookEvent) →
        only_events (same_who (Named number)) (new_book plan) one ≡ only_events (same_who (Named number)) (new_book plan) other →
        grants_of (same_who (Named number)) (book_after_events (new_book plan) one).grants ≡ grants_of (same_who (Named number)) (book_after_events (new_book plan) other).grants }
    ensures network { (network : ℕ) (plan : PlanOf) (one other : List BookEvent) →
        only_events is_guest (new_book plan) one ≡ only_events is_guest (new_book plan) other →
        answers_of (same_who (V6 network)) (new_book plan) one ≡ answers_of (same_who (V6 network)) (new_book plan) other }
    ensures address { (address : ℕ) (plan : PlanOf) (one other : List BookEvent) →
        only_events is_guest (new_book plan) one ≡ only_events is_guest (new_book plan) other →
        answers_of (same_who (V4 address)) (new_book plan) one ≡ answers_of (same_who (V4 address)) (new_book plan) other }
    ensures guests { (plan : PlanOf) (one other : List BookEvent) →
        only_events is_guest (new_book plan) one ≡ only_events is_guest (new_book plan) other →
        grants_of is_guest (book_after_events (new_book plan) one).grants ≡ grants_of is_guest (book_after_events (new_book plan) other).grants }
{
    no_customer_is_disturbed()
}

/// The grants that are out are the sessions that are open by the answers alone; where those are none, no customer and no guest has anything.
/// Uses `site_book::all_comes_back` (`out`, `none`).
pub fn nobody_is_left()
    ensures out { (plan : PlanOf) (events : List BookEvent) →
        names_granted (book_after_events (new_book plan) events).grants ≡ still_open [] events (answers (new_book plan) events) }
    ensures named { (number : ℕ) (plan : PlanOf) (events : List BookEvent) → still_open [] events (answers (new_book plan) events) ≡ [] →
        (used (Own (Named number)) (book_after_events (new_book plan) events).grants).nodes ≡ 0 }
    ensures guest { (address : ℕ) (plan : PlanOf) (events : List BookEvent) → still_open [] events (answers (new_book plan) events) ≡ [] →
        (used (Own (V4 address)) (book_after_events (new_book plan) events).grants).sessions ≡ 0 }
{
    all_comes_back()
}
