//! Laws on the book of a site's customers: what follows for every list of events on a new one, and of all grants and
//! sessions. A function here does nothing: its contract is the law.
ghost use Rattle.std.specs.Prelude.{◌≡◌, ◌+◌, ◌≤◌, ◌↔◌, ℕ, length, List, [], Some, None, Bool, true, IsTrue, ◌≢◌, ◌-◌, ◌<◌, false, Contains};
ghost use Rattle.tenant_quota.specs.Reserves.{ReserveOf};
ghost use Rattle.site_book.specs.declared.held.Grant.{Grant};
ghost use Rattle.site_book.specs.declared.held.Group.{Group};
ghost use Rattle.site_book.specs.declared.held.Group.TheVariants.{All};
ghost use Rattle.site_book.specs.declared.who.Who.{Who};
ghost use Rattle.site_book.specs.declared.who.Who.TheVariants.{Named};
ghost use Rattle.site_book.specs.Names.{same_who, is_guest};
ghost use Rattle.site_book.specs.Amounts.{IsAmountWithin, nothing, of_one, plus};
ghost use Rattle.site_book.specs.Plans.{PlanOf, sums_fit, limit_of};
ghost use Rattle.site_book.specs.Grants.{used, grant_of, grants_without};
ghost use Rattle.site_book.specs.Books.{BookOf, new_book, why_over, why_no_raise, why_not_replan};
ghost use Rattle.site_book.specs.declared.event.BookEvent.{BookEvent};
ghost use Rattle.site_book.specs.Allowed.{HasBudgetFor, MayGrow};
ghost use Rattle.site_book.specs.Events.{book_after_events, answers, only_events, answers_of, grants_of, still_open, names_granted};
ghost use Rattle.site_book.specs.declared.refusal.BookRefusal.{BookRefusal};
ghost use Rattle.site_book.specs.declared.refusal.BookRefusal.TheVariants.{OverGuests};
ghost use Rattle.site_book.specs.declared.coming.Coming.TheVariants.{Enters, Waits, Ends, Refused};
ghost use Rattle.site_book.specs.declared.present.Leaver.TheVariants.{Told as those_told, Idle as those_idle};
ghost use Rattle.site_book.specs.declared.present.Present.{Present};
ghost use Rattle.site_book.specs.Rolls.{goes, is_idle, remaining};
ghost use Rattle.site_book.specs.Comings.{coming, told_by, comer_of};

/// A refusal is a customer's own: a session and a raise are granted exactly where the customer's own budget and, of a guest, those
/// of its wider network and of all guests allow it.
#[tactic(auto, using(crate::proofs::Rules::a_refusal_is_ones_own_rules))]
pub fn a_refusal_is_ones_own()
    ensures opens { (plan : PlanOf) (who : Who) (ask : ReserveOf) (grants : List Grant) →
        ((why_over plan who ask grants ≡ None) ↔ HasBudgetFor plan who ask grants) }
    ensures raises { (plan : PlanOf) (who : Who) (session : ℕ) (ask : ReserveOf) (grants : List Grant) (held : Grant) → grant_of who session grants ≡ Some held →
        ((why_no_raise plan who session ask grants (grant_of who session grants) ≡ None) ↔ MayGrow plan who session ask grants held) }
{}

/// Nobody is over budget, and the hall isn't oversold: after every list of events, other plans among them, on a new book whose
/// sums fit, each customer, the guests of each wider network, all guests and all sessions together have no more than the plan allows
/// that the book has then; and there are 64 sessions at most.
pub fn nobody_is_over_budget()
    ensures within { (plan : PlanOf) (events : List BookEvent) → IsTrue (sums_fit plan) → (part : Group) →
        let book = book_after_events (new_book plan) events in IsAmountWithin (used part book.grants) (limit_of book.plan part) }
    ensures totals { (plan : PlanOf) (events : List BookEvent) → (book_after_events (new_book plan) events).plan.totals ≡ plan.totals }
    ensures few { (plan : PlanOf) (events : List BookEvent) → IsTrue (sums_fit plan) → length (book_after_events (new_book plan) events).grants ≤ 64 }
{}

/// What the book grants the hall has room for: after every list of events, where a session or a raise isn't refused, all sessions
/// with it are within the hall's totals.
#[tactic(auto, using(crate::proofs::Rules::the_hall_has_room_rules))]
pub fn the_hall_has_room()
    ensures opens { (plan : PlanOf) (events : List BookEvent) → IsTrue (sums_fit plan) → (who : Who) (ask : ReserveOf) →
        let book = book_after_events (new_book plan) events in
        why_over book.plan who ask book.grants ≡ None → IsAmountWithin (plus (of_one ask) (used All book.grants)) plan.totals }
    ensures raises { (plan : PlanOf) (events : List BookEvent) → IsTrue (sums_fit plan) → (who : Who) (session : ℕ) (ask : ReserveOf) →
        let book = book_after_events (new_book plan) events in
        why_no_raise book.plan who session ask book.grants (grant_of who session book.grants) ≡ None →
        IsAmountWithin (plus (of_one ask) (used All (grants_without who session book.grants))) plan.totals }
{}

/// Another plan comes in exactly where it is of a hall with the same totals, its sums fit, and all that is out is within it.
#[tactic(auto, using(crate::proofs::Rules::a_plan_comes_in_rules))]
pub fn a_plan_comes_in()
    ensures { (book : BookOf) (plan : PlanOf) → ((why_not_replan book plan ≡ None)
        ↔ ((plan.totals ≡ book.plan.totals) × IsTrue (sums_fit plan) × ((part : Group) → IsAmountWithin (used part book.grants) (limit_of plan part)))) }
{}

/// No customer is disturbed by another: after every list of events a named customer got the answers, and has the grants, of that
/// list with all others' events removed, and the plans that didn't come in. The same holds of all guests together, and so of each.
pub fn no_customer_is_disturbed()
    ensures told { (plan : PlanOf) (events : List BookEvent) (number : ℕ) →
        answers_of (same_who (Named number)) (new_book plan) events ≡ answers_of (same_who (Named number)) (new_book plan) (only_events (same_who (Named number)) (new_book plan) events) }
    ensures grants { (plan : PlanOf) (events : List BookEvent) (number : ℕ) →
        grants_of (same_who (Named number)) (book_after_events (new_book plan) events).grants ≡ (book_after_events (new_book plan) (only_events (same_who (Named number)) (new_book plan) events)).grants }
    ensures guests_told { (plan : PlanOf) (events : List BookEvent) (guest : Who) → IsTrue (is_guest guest) →
        answers_of (same_who guest) (new_book plan) events ≡ answers_of (same_who guest) (new_book plan) (only_events is_guest (new_book plan) events) }
    ensures guests_grants { (plan : PlanOf) (events : List BookEvent) →
        grants_of is_guest (book_after_events (new_book plan) events).grants ≡ (book_after_events (new_book plan) (only_events is_guest (new_book plan) events)).grants }
{}

/// All comes back: the grants that are out are those of the sessions that were opened and have not ended, and when every session
/// has ended nobody has anything.
pub fn all_comes_back()
    ensures out { (plan : PlanOf) (events : List BookEvent) →
        names_granted (book_after_events (new_book plan) events).grants ≡ still_open [] events (answers (new_book plan) events) }
    ensures none { (plan : PlanOf) (events : List BookEvent) → still_open [] events (answers (new_book plan) events) ≡ [] →
        (part : Group) → used part (book_after_events (new_book plan) events).grants ≡ nothing }
{}

/// Who comes enters exactly where the book allows it, whoever is idle.
#[tactic(auto, using(crate::proofs::ComingLemmas::only_enters))]
pub fn who_has_budget_enters()
    ensures enters { (plan : PlanOf) (grants : List Grant) (roll : List Present) (who : Who) (ask : ReserveOf) (now most : ℕ) →
        why_over plan who ask grants ≡ None → coming plan grants roll (comer_of who ask now most) ≡ Enters }
    ensures only { (plan : PlanOf) (grants : List Grant) (roll : List Present) (who : Who) (ask : ReserveOf) (now most : ℕ) →
        coming plan grants roll (comer_of who ask now most) ≡ Enters → why_over plan who ask grants ≡ None }
{}

/// No session of a named customer goes for another's, and no guest's that isn't idle: one that is to end for one who comes is a guest's,
/// waits for no job, wasn't told to end before and has said nothing for longer than a guest may.
pub fn only_idle_guests_go_for_another()
    ensures { (plan : PlanOf) (grants : List Grant) (roll : List Present) (who : Who) (ask : ReserveOf) (now most session : ℕ) (refusal : BookRefusal) →
        coming plan grants roll (comer_of who ask now most) ≡ Ends session refusal →
        (present : Present) × Contains roll present × (present.session ≡ session) × (is_guest present.who ≡ true) × (present.told ≡ None) × (present.waits ≡ false) × (most < now - present.last) }
{}

/// Who is refused has no room even when those have gone who were told to end; and where that is since all guests together have too
/// much, not even when all idle guests have gone as well.
pub fn who_is_refused_has_no_room()
    ensures now { (plan : PlanOf) (grants : List Grant) (roll : List Present) (who : Who) (ask : ReserveOf) (now most : ℕ) (refusal : BookRefusal) →
        coming plan grants roll (comer_of who ask now most) ≡ Refused refusal → why_over plan who ask grants ≡ Some refusal }
    ensures then { (plan : PlanOf) (grants : List Grant) (roll : List Present) (who : Who) (ask : ReserveOf) (now most : ℕ) (refusal : BookRefusal) →
        coming plan grants roll (comer_of who ask now most) ≡ Refused refusal → why_over plan who ask (remaining those_told grants roll) ≢ None }
    ensures idle { (plan : PlanOf) (grants : List Grant) (roll : List Present) (who : Who) (ask : ReserveOf) (now most : ℕ) →
        coming plan grants roll (comer_of who ask now most) ≡ Refused OverGuests → why_over plan who ask (remaining (those_idle now most) grants roll) ≢ None }
{}

/// Another plan of the same hall, whose sums fit, comes in once those have gone who were told to end for it.
pub fn a_plan_comes_in_once_they_have_gone()
    ensures { (book : BookOf) (plan : PlanOf) (roll : List Present) → length roll ≡ length book.grants → plan.totals ≡ book.plan.totals → IsTrue (sums_fit plan) →
        why_not_replan (record book { grants = remaining those_told book.grants (told_by plan [] book.grants roll) }) plan ≡ None }
{}
