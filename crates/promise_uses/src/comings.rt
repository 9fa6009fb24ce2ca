//! Uses of a site's laws, at any customer of its file and any guest of IPv4 and of IPv6: what comes of who asks for a
//! session, whoever is there; and of another plan once those have gone who were told to end for it.
ghost use Rattle.std.specs.Prelude.{◌≡◌, ◌≢◌, ◌-◌, ◌≤◌, ℕ, length, List, [], ◌∷◌, Some, None, true, false, All};
ghost use Rattle.tenant_quota.specs.Reserves.{ReserveOf};
ghost use Rattle.site_book.specs.declared.coming.Coming.TheVariants.{Enters, Ends, Refused};
ghost use Rattle.site_book.specs.declared.held.Grant.{Grant};
ghost use Rattle.site_book.specs.declared.held.Group.TheVariants.{Own, Guests};
ghost use Rattle.site_book.specs.declared.present.Leaver.TheVariants.{Told as those_told, Idle as those_idle};
ghost use Rattle.site_book.specs.declared.present.Present.{Present};
ghost use Rattle.site_book.specs.declared.present.Told.TheVariants.{ByPlan};
ghost use Rattle.site_book.specs.declared.refusal.BookRefusal.{BookRefusal};
ghost use Rattle.site_book.specs.declared.refusal.BookRefusal.TheVariants.{OverGuests};
ghost use Rattle.site_book.specs.declared.who.Who.{Who};
ghost use Rattle.site_book.specs.declared.who.Who.TheVariants.{Named, V4, V6};
ghost use Rattle.site_book.specs.Names.{is_guest};
ghost use Rattle.site_book.specs.Plans.{PlanOf, budget_of, sums_fit};
ghost use Rattle.site_book.specs.Grants.{used};
ghost use Rattle.site_book.specs.Books.{why_over, why_not_replan};
ghost use Rattle.site_book.specs.Rolls.{remaining};
ghost use Rattle.site_book.specs.Comings.{coming, told_by, comer_of};

use site_book::laws::{
    a_plan_comes_in, a_plan_comes_in_once_they_have_gone, only_idle_guests_go_for_another,
    who_has_budget_enters, who_is_refused_has_no_room,
};

/// A customer and a guest enter where the book allows it, and nowhere else. Uses `site_book::who_has_budget_enters` (`enters`, `only`).
pub fn who_enters()
    ensures named { (number : ℕ) (plan : PlanOf) (grants : List Grant) (roll : List Present) (ask : ReserveOf) (now most : ℕ) →
        why_over plan (Named number) ask grants ≡ None → coming plan grants roll (comer_of (Named number) ask now most) ≡ Enters }
    ensures guest { (network : ℕ) (plan : PlanOf) (grants : List Grant) (roll : List Present) (ask : ReserveOf) (now most : ℕ) →
        why_over plan (V6 network) ask grants ≡ None → coming plan grants roll (comer_of (V6 network) ask now most) ≡ Enters }
    ensures only_named { (number : ℕ) (plan : PlanOf) (grants : List Grant) (roll : List Present) (ask : ReserveOf) (now most : ℕ) →
        coming plan grants roll (comer_of (Named number) ask now most) ≡ Enters → why_over plan (Named number) ask grants ≡ None }
    ensures only_guest { (address : ℕ) (plan : PlanOf) (grants : List Grant) (roll : List Present) (ask : ReserveOf) (now most : ℕ) →
        coming plan grants roll (comer_of (V4 address) ask now most) ≡ Enters → why_over plan (V4 address) ask grants ≡ None }
{
    who_has_budget_enters()
}

/// Nobody is to end for another where nobody is a guest; nor where each waits for a job, was told before, or said something not too long
/// ago; and of one that is there it is that one's session. Uses `site_book::only_idle_guests_go_for_another`.
pub fn who_goes_for_another()
    ensures named { (plan : PlanOf) (grants : List Grant) (roll : List Present) (who : Who) (ask : ReserveOf) (now most session : ℕ) (refusal : BookRefusal) →
        coming plan grants roll (comer_of who ask now most) ≡ Ends session refusal → All (λ present. is_guest present.who ≡ false) roll → ⊥ }
    ensures waiting { (plan : PlanOf) (grants : List Grant) (roll : List Present) (who : Who) (ask : ReserveOf) (now most session : ℕ) (refusal : BookRefusal) →
        coming plan grants roll (comer_of who ask now most) ≡ Ends session refusal → All (λ present. present.waits ≡ true) roll → ⊥ }
    ensures told { (plan : PlanOf) (grants : List Grant) (roll : List Present) (who : Who) (ask : ReserveOf) (now most session : ℕ) (refusal : BookRefusal) →
        coming plan grants roll (comer_of who ask now most) ≡ Ends session refusal → All (λ present. present.told ≢ None) roll → ⊥ }
    ensures busy { (plan : PlanOf) (grants : List Grant) (roll : List Present) (who : Who) (ask : ReserveOf) (now most session : ℕ) (refusal : BookRefusal) →
        coming plan grants roll (comer_of who ask now most) ≡ Ends session refusal → All (λ present. now - present.last ≤ most) roll → ⊥ }
    ensures another { (plan : PlanOf) (grants : List Grant) (roll : List Present) (who : Who) (ask : ReserveOf) (now most session : ℕ) (refusal : BookRefusal) →
        coming plan grants roll (comer_of who ask now most) ≡ Ends session refusal → All (λ present. present.session ≢ session) roll → ⊥ }
{
    only_idle_guests_go_for_another()
}

/// Who is refused, a customer or a guest, is told by the book why, and has no room even without those who were told to end: a customer not
/// in an empty hall, where that was all who were there. A guest for whom guests have too much has none without the idle ones either.
/// Uses `site_book::who_is_refused_has_no_room` (`now`, `then`, `idle`).
pub fn who_has_no_room()
    ensures now { (number : ℕ) (plan : PlanOf) (grants : List Grant) (roll : List Present) (ask : ReserveOf) (now most : ℕ) (refusal : BookRefusal) →
        coming plan grants roll (comer_of (Named number) ask now most) ≡ Refused refusal → why_over plan (Named number) ask grants ≡ Some refusal }
    ensures guest_now { (network : ℕ) (plan : PlanOf) (grants : List Grant) (roll : List Present) (ask : ReserveOf) (now most : ℕ) (refusal : BookRefusal) →
        coming plan grants roll (comer_of (V6 network) ask now most) ≡ Refused refusal → why_over plan (V6 network) ask grants ≡ Some refusal }
    ensures then { (number : ℕ) (plan : PlanOf) (grants : List Grant) (roll : List Present) (ask : ReserveOf) (now most : ℕ) (refusal : BookRefusal) →
        coming plan grants roll (comer_of (Named number) ask now most) ≡ Refused refusal → why_over plan (Named number) ask (remaining those_told grants roll) ≡ None → ⊥ }
    ensures guest_then { (address : ℕ) (plan : PlanOf) (grants : List Grant) (roll : List Present) (ask : ReserveOf) (now most : ℕ) (refusal : BookRefusal) →
        coming plan grants roll (comer_of (V4 address) ask now most) ≡ Refused refusal → why_over plan (V4 address) ask (remaining those_told grants roll) ≡ None → ⊥ }
    ensures empty { (number : ℕ) (plan : PlanOf) (held : Grant) (present : Present) (ask : ReserveOf) (now most : ℕ) (refusal : BookRefusal) →
        coming plan (held ∷ []) (present ∷ []) (comer_of (Named number) ask now most) ≡ Refused refusal → present.told ≡ Some ByPlan → why_over plan (Named number) ask [] ≡ None → ⊥ }
    ensures idle { (network : ℕ) (plan : PlanOf) (grants : List Grant) (roll : List Present) (ask : ReserveOf) (now most : ℕ) →
        coming plan grants roll (comer_of (V6 network) ask now most) ≡ Refused OverGuests → why_over plan (V6 network) ask (remaining (those_idle now most) grants roll) ≡ None → ⊥ }
    ensures idle_address { (address : ℕ) (plan : PlanOf) (grants : List Grant) (roll : List Present) (ask : ReserveOf) (now most : ℕ) →
        coming plan grants roll (comer_of (V4 address) ask now most) ≡ Refused OverGuests → why_over plan (V4 address) ask (remaining (those_idle now most) grants roll) ≡ None → ⊥ }
{
    who_is_refused_has_no_room()
}

/// Another plan of the same hall comes in once those have gone who were told to end for it: then each customer and all guests have what it
/// allows them. Uses `site_book::a_plan_comes_in_once_they_have_gone`, `site_book::a_plan_comes_in`.
pub fn when_they_have_gone()
    ensures comes { (was plan : PlanOf) (grants : List Grant) (roll : List Present) → length roll ≡ length grants → plan.totals ≡ was.totals → sums_fit plan ≡ true →
        why_not_replan (record { plan = was; grants = remaining those_told grants (told_by plan [] grants roll) }) plan ≡ None }
    ensures named { (number : ℕ) (was plan : PlanOf) (grants : List Grant) (roll : List Present) → length roll ≡ length grants → plan.totals ≡ was.totals → sums_fit plan ≡ true →
        (used (Own (Named number)) (remaining those_told grants (told_by plan [] grants roll))).sessions ≤ (budget_of plan (Named number)).sessions }
    ensures guests { (was plan : PlanOf) (grants : List Grant) (roll : List Present) → length roll ≡ length grants → plan.totals ≡ was.totals → sums_fit plan ≡ true →
        (used Guests (remaining those_told grants (told_by plan [] grants roll))).nodes ≤ plan.guests.nodes }
{
    a_plan_comes_in_once_they_have_gone();
    a_plan_comes_in()
}
