//! The definitions of who is at a site's hall and who goes, tried on small halls: each contract is computed from the
//! definitions alone. `guest 1 5` is guest 1, who came at millisecond 5; `named_held 1 5` is the school's session 1
//! with 5 segments; `asks` has who is there, who comes, and the time.
ghost use Rattle.std.specs.Prelude.{◌≡◌, [], ◌∷◌, map, Some, None, true, false};
ghost use Rattle.site_book.specs.declared.refusal.BookRefusal.TheVariants.{OverBudget, OverGuests};
ghost use Rattle.site_book.specs.declared.held.Group.TheVariants.{Guests, Own};
ghost use Rattle.site_book.specs.declared.who.Who.TheVariants.{Named, V4};
ghost use Rattle.site_book.specs.Rows.{amount, ask, school, small, one_sided, even};
ghost use Rattle.site_book.specs.declared.coming.Coming.TheVariants.{Enters, Waits, Ends, Refused};
ghost use Rattle.site_book.specs.declared.present.Leaver.TheVariants.{Told as those_told, Idle as those_idle};
ghost use Rattle.site_book.specs.declared.present.SessionMark.TheVariants.{Spoke, Waits as waits, Told as told_to};
ghost use Rattle.site_book.specs.declared.present.Present.{Present};
ghost use Rattle.site_book.specs.declared.present.Told.TheVariants.{Gone, ByOperator, ByPlan};
ghost use Rattle.site_book.specs.declared.present.Whom.TheVariants.{One, Each};
ghost use Rattle.site_book.specs.Rolls.{idlest, marked_all, names_present, newcomer, remaining, without_present};
ghost use Rattle.site_book.specs.RollRows.{guest_held, named_held, guest, named_present, asks};
ghost use Rattle.site_book.specs.Comings.{coming, told_by, comer_of};

/// A mark (it spoke, it waits, it is told to end) changes just the sessions that it means; the first reason to end
/// stays.
pub fn marks_are_noted()
    ensures spoke { marked_all (One 2) (Spoke 9) (guest 1 5 ∷ guest 2 6 ∷ []) ≡ guest 1 5 ∷ record (guest 2 6) { last = 9 } ∷ [] }
    ensures waits { marked_all (One 1) (waits true 8) (guest 1 5 ∷ guest 2 6 ∷ []) ≡ record (guest 1 5) { waits = true; last = 8 } ∷ guest 2 6 ∷ [] }
    ensures told { marked_all (Each Guests) (told_to ByOperator) (guest 1 5 ∷ named_present 2 6 ∷ []) ≡ record (guest 1 5) { told = Some ByOperator } ∷ named_present 2 6 ∷ [] }
    ensures first { marked_all (Each (Own school)) (told_to ByPlan) (marked_all (One 2) (told_to Gone) (named_present 2 6 ∷ [])) ≡ record (named_present 2 6) { told = Some Gone } ∷ [] }
    ensures left { names_present (without_present school 2 (guest 1 5 ∷ named_present 2 6 ∷ named_present 3 7 ∷ [])) ≡ (V4 1, 1) ∷ (Named 0, 3) ∷ [] }
{}

/// Two guests have all that guests may have. A third waits for nobody who speaks or waits for a job, but the one goes that has been
/// idle for longest; while it hasn't left, the third waits; and a customer is never let in by a guest's going.
pub fn a_third_guest()
    ensures busy { asks (guest 1 5 ∷ guest 2 6 ∷ []) (V4 3) 60 ≡ Refused OverGuests }
    ensures idle { asks (guest 1 5 ∷ guest 2 6 ∷ []) (V4 3) 66 ≡ Ends 1 OverGuests }
    ensures later { asks (guest 1 8 ∷ guest 2 6 ∷ []) (V4 3) 77 ≡ Ends 2 OverGuests }
    ensures working { asks (record (guest 1 5) { waits = true } ∷ guest 2 6 ∷ []) (V4 3) 66 ≡ Refused OverGuests }
    ensures leaving { asks (record (guest 1 5) { told = Some Gone } ∷ guest 2 6 ∷ []) (V4 3) 99 ≡ Waits OverGuests }
    ensures again { asks (guest 1 5 ∷ guest 2 6 ∷ []) (V4 1) 99 ≡ Refused OverBudget }
    ensures customer { asks (guest 1 5 ∷ guest 2 6 ∷ []) school 99 ≡ Enters }
{}

/// Of a customer that has its two sessions none goes for its third, but the third waits for one that is leaving.
pub fn a_customers_third_session()
    ensures full { coming small (named_held 1 5 ∷ named_held 2 5 ∷ []) (named_present 1 5 ∷ named_present 2 6 ∷ []) (comer_of school (ask 5 5) 999999 60) ≡ Refused OverBudget }
    ensures leaving { coming small (named_held 1 5 ∷ named_held 2 5 ∷ []) (record (named_present 1 5) { told = Some Gone } ∷ named_present 2 6 ∷ []) (comer_of school (ask 5 5) 7 60) ≡ Waits OverBudget }
{}

/// Under a plan that gives the first customer half of what it has, its second session ends; the second customer's stays.
pub fn who_ends_for_a_plan()
    ensures told { told_by even [] (named_held 1 10 ∷ named_held 2 10 ∷ []) (named_present 1 5 ∷ named_present 2 6 ∷ []) ≡ named_present 1 5 ∷ record (named_present 2 6) { told = Some ByPlan } ∷ [] }
    ensures stays { told_by even [] (named_held 1 10 ∷ record (named_held 2 10) { who = Named 1 } ∷ []) (named_present 1 5 ∷ named_present 2 6 ∷ []) ≡ named_present 1 5 ∷ named_present 2 6 ∷ [] }
    ensures leaving { told_by even [] (named_held 1 10 ∷ named_held 2 10 ∷ []) (record (named_present 1 5) { told = Some Gone } ∷ named_present 2 6 ∷ []) ≡ record (named_present 1 5) { told = Some Gone } ∷ named_present 2 6 ∷ [] }
{}
