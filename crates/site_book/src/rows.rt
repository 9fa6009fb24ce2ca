//! The definitions of the book of a site's customers, tried on small halls: each contract is computed from the
//! definitions alone. An `amount` is of sessions, segments and nodes, an `ask` of segments and nodes; `Opens` and
//! `Raises` stand with whose the session is, and its number.
ghost use Rattle.std.specs.Prelude.{◌≡◌, [], ◌∷◌, Some, None, true, false, map};
ghost use Rattle.site_book.specs.declared.held.Grant.{Grant};
ghost use Rattle.site_book.specs.declared.held.Group.TheVariants.{Own, Network, Guests, All};
ghost use Rattle.site_book.specs.declared.refusal.BookRefusal.TheVariants.{OverBudget, OverNetwork, OverGuests, Gone, Lower, Unfit, Beyond};
ghost use Rattle.site_book.specs.declared.who.Who.TheVariants.{Named, V4, V6};
ghost use Rattle.site_book.specs.Names.{same_who, is_guest, network_of};
ghost use Rattle.site_book.specs.Plans.{sums_fit};
ghost use Rattle.site_book.specs.Grants.{used};
ghost use Rattle.site_book.specs.Books.{new_book, why_not_replan};
ghost use Rattle.site_book.specs.declared.event.BookEvent.TheVariants.{Opens, Raises, Closes, Replans};
ghost use Rattle.site_book.specs.Events.{book_after_events, answers, only_events, still_open};
ghost use Rattle.site_book.specs.Rows.{amount, ask, hall_for, small, school, answers_told, one_sided, even, sold, ended_in_time, told_one_sided, beyond_even};

/// The school's budget and the guests' fit a hall of 4 sessions, 40 segments and 400 nodes; with more sessions,
/// segments or nodes together than the hall has they don't; and no hall has 65 sessions.
pub fn sums_are_added()
    ensures fit { sums_fit small ≡ true }
    ensures sessions { sums_fit (hall_for (amount 3 20 200) (amount 2 9 100)) ≡ false }
    ensures segments { sums_fit (hall_for (amount 2 32 200) (amount 2 9 100)) ≡ false }
    ensures nodes { sums_fit (hall_for (amount 2 20 301) (amount 2 9 100)) ≡ false }
    ensures no_hall { sums_fit (record small { totals = amount 65 40 400 }) ≡ false }
{}

/// The school, which may have 2 sessions, 20 segments and 200 nodes, opens a session, raises it, opens a second, and
/// has no more.
pub fn a_school()
    ensures budget { answers_told (
        Opens school 1 (ask 5 100) ∷ Opens school 2 (ask 16 100) ∷ Opens school 3 (ask 15 100) ∷ Opens school 4 (ask 1 1) ∷ [])
        ≡ None ∷ Some OverBudget ∷ None ∷ Some OverBudget ∷ [] }
    ensures raised { answers_told (
        Opens school 1 (ask 5 90) ∷ Raises school 1 (ask 6 90) ∷ Raises school 1 (ask 6 90) ∷ Raises school 1 (ask 7 80) ∷ Raises school 1 (ask 21 90) ∷ Raises school 2 (ask 7 90) ∷ [])
        ≡ None ∷ None ∷ Some Lower ∷ Some Lower ∷ Some OverBudget ∷ Some Gone ∷ [] }
    ensures whole { answers_told (Opens school 1 (ask 5 100) ∷ Raises school 1 (ask 20 200) ∷ []) ≡ None ∷ None ∷ [] }
    ensures unknown { answers_told (Opens (Named 1) 1 (ask 1 1) ∷ []) ≡ Some OverBudget ∷ [] }
    ensures closed { used (Own school) (book_after_events (new_book small) (Opens school 1 (ask 5 100) ∷ Opens school 2 (ask 7 100) ∷ Closes school 1 ∷ [])).grants ≡ amount 1 7 100 }
    ensures all { used All (book_after_events (new_book small) (Opens school 1 (ask 5 100) ∷ Opens (V4 7) 2 (ask 4 50) ∷ [])).grants ≡ amount 2 9 150 }
{}

/// Each guest has one session (5 segments, 50 nodes), those of a wider network together two (8, 90), and all guests
/// together two (9, 100).
pub fn guests()
    ensures own { answers_told (Opens (V4 7) 1 (ask 4 50) ∷ Opens (V4 7) 2 (ask 1 1) ∷ Opens (V4 8) 3 (ask 4 50) ∷ []) ≡ None ∷ Some OverBudget ∷ None ∷ [] }
    ensures network { answers_told (Opens (V6 65536) 1 (ask 5 50) ∷ Opens (V6 65537) 2 (ask 4 40) ∷ Opens (V6 131072) 3 (ask 4 40) ∷ []) ≡ None ∷ Some OverNetwork ∷ None ∷ [] }
    ensures pool { answers_told (Opens (V4 7) 1 (ask 4 50) ∷ Opens (V4 8) 2 (ask 4 50) ∷ Opens (V4 9) 3 (ask 1 1) ∷ []) ≡ None ∷ None ∷ Some OverGuests ∷ [] }
    ensures wider { network_of (V6 65537) ≡ V6 1 }
    ensures addresses { network_of (V4 65537) ≡ V4 65537 }
    ensures apart { same_who (V4 7) (V6 7) ≡ false }
    ensures shared { used (Network (V6 1)) (book_after_events (new_book small) (Opens (V6 65536) 1 (ask 5 50) ∷ Opens (V6 131072) 2 (ask 4 50) ∷ Opens school 3 (ask 1 1) ∷ [])).grants ≡ amount 1 5 50 }
{}

/// A plan comes in where all that is out is within it: no hall is oversold while the file changes.
pub fn another_plan()
    ensures first_fits { sums_fit one_sided ≡ true }
    ensures then_fits { sums_fit even ≡ true }
    ensures beyond { told_one_sided sold ≡ None ∷ None ∷ Some Beyond ∷ Some OverBudget ∷ Some OverBudget ∷ [] }
    ensures over { beyond_even sold ≡
        Some (record { who = Named 0; session = 1; part = Own (Named 0); has = amount 2 20 200; may = amount 2 10 100 })
        ∷ Some (record { who = Named 0; session = 2; part = Own (Named 0); has = amount 2 20 200; may = amount 2 10 100 }) ∷ [] }
    ensures within { told_one_sided ended_in_time ≡ None ∷ None ∷ None ∷ None ∷ None ∷ [] }
    ensures other_hall { why_not_replan (new_book one_sided) small ≡ Some Unfit }
    ensures removed { only_events (same_who (Named 1)) (new_book one_sided) sold ≡ Opens (Named 1) 3 (ask 5 50) ∷ Opens (Named 1) 4 (ask 5 50) ∷ [] }
    ensures kept { only_events (same_who (Named 1)) (new_book one_sided) ended_in_time ≡ Replans even ∷ Opens (Named 1) 2 (ask 5 50) ∷ [] }
    ensures open { still_open [] ended_in_time (told_one_sided ended_in_time) ≡ (Named 1, 2) ∷ (Named 0, 3) ∷ [] }
{}
