//! The definitions of seats and of a book's history, tried on small values: each contract is computed from the definitions alone.
ghost use Rattle.std.specs.Prelude.{◌≡◌, [], ◌∷◌, true, false, ℕ, None, Some};
ghost use Rattle.desk.specs.Traces.{Known};
ghost use Rattle.sched_rules.specs.Trees.{admitted_with};
ghost use Rattle.sched_rules.specs.declared.refusal.Refusal.TheVariants.{OldTenant as NoNumber, OutOfMemory as NoMemory};
ghost use Rattle.sched_rules.specs.declared.step.StepOf.TheVariants.{Admit, AdmitMore, Cancel, Leave};
ghost use Rattle.site_book.specs.declared.event.BookEvent.{BookEvent};
ghost use Rattle.site_book.specs.declared.event.BookEvent.TheVariants.{Opens, Raises, Closes, Replans};
ghost use Rattle.site_book.specs.declared.held.Group.TheVariants.{Own};
ghost use Rattle.site_book.specs.declared.refusal.BookRefusal.TheVariants.{Beyond, OverBudget};
ghost use Rattle.site_book.specs.declared.who.Who.TheVariants.{Named, V4};
ghost use Rattle.site_book.specs.Books.{new_book};
ghost use Rattle.site_book.specs.Rows.{amount, ask, even, one_sided, school, small};
ghost use Rattle.site_desk.specs.Booked.{is_within_seat, turned_by};
ghost use Rattle.site_desk.specs.BookedSeats.{seats_in_book, seats_in_hall};
ghost use Rattle.site_desk.specs.Granted.{book_at, events_of, is_open_by, AreGranted, AreHeld, IsBookBy, IsBookLook, IsGrantedFrom, IsNotReplanned, IsOpened, IsPartOnce, IsReplannedBy};
ghost use Rattle.site_desk.specs.declared.turned.Turned.TheVariants.{OldTenant, OutOfMemory};

/// Of grants or of tenants: who is at the hall is a number and what it reserves, whosever it is and whatever its tenant
/// does.
pub fn seats_are_read()
    ensures book { seats_in_book (
        record { who = Named 0; session = 1; ask = record { segments = 4; nodes = 8 } } ∷ record { who = V4 7; session = 3; ask = record { segments = 5; nodes = 9 } } ∷ [])
        ≡ (1, record { segments = 4; nodes = 8 }) ∷ (3, record { segments = 5; nodes = 9 }) ∷ [] }
    ensures hall { seats_in_hall ((1, admitted_with (record { segments = 4; nodes = 8 })) ∷ (3, record (admitted_with (record { segments = 5; nodes = 9 })) { steps = 2 }) ∷ [])
        ≡ (1, record { segments = 4; nodes = 8 }) ∷ (3, record { segments = 5; nodes = 9 }) ∷ [] }
{}

/// Admit, AdmitMore and Leave change who is at the hall and what it reserves; a Cancel doesn't.
pub fn steps_within_seats()
    ensures admit { is_within_seat {A = ℕ} (Admit 1 (record { segments = 4; nodes = 8 })) ≡ false }
    ensures more { is_within_seat {A = ℕ} (AdmitMore 1 (record { segments = 4; nodes = 8 })) ≡ false }
    ensures leave { is_within_seat {A = ℕ} (Leave 1) ≡ false }
    ensures cancel { is_within_seat {A = ℕ} (Cancel 1 1) ≡ true }
{}

/// A customer is turned away by the hall for want of a tenant's number or of memory.
pub fn turned_by_the_hall()
    ensures numbers { turned_by NoNumber ≡ OldTenant }
    ensures memory { turned_by NoMemory ≡ OutOfMemory }
{}

/// What a book has at the end of a history, whoever made its events.
pub fn histories_of_a_book()
    ensures events { events_of ((0, Opens school 1 (ask 5 100)) ∷ (7, Closes school 1) ∷ []) ≡ Opens school 1 (ask 5 100) ∷ Closes school 1 ∷ [] }
    ensures grants { (book_at small ((0, Opens school 1 (ask 5 100)) ∷ (1, Opens (V4 7) 2 (ask 4 50)) ∷ (0, Raises school 1 (ask 6 100)) ∷ (1, Closes (V4 7) 2) ∷ [])).grants
        ≡ record { who = school; session = 1; ask = record { segments = 6; nodes = 100 } } ∷ [] }
    ensures plan { (book_at one_sided ((0, Replans even) ∷ [])).plan ≡ even }
    ensures by { IsBookBy one_sided ((0, Replans even) ∷ []) (new_book even) }
    ensures another_book { IsBookBy one_sided ((0, Replans even) ∷ []) (new_book one_sided) → ⊥ }
{}

/// Histories whose events were granted, and ones of which one wasn't.
pub fn events_are_granted()
    ensures all { IsGrantedFrom small ((0, Opens school 1 (ask 5 100)) ∷ (0, Raises school 1 (ask 6 100)) ∷ (0, Closes school 1) ∷ []) }
    ensures another_plan { IsGrantedFrom one_sided ((0, Opens (Named 0) 1 (ask 10 100)) ∷ (0, Closes (Named 0) 1) ∷ (1, Replans even) ∷ []) }
    ensures over { IsGrantedFrom small ((0, Opens school 1 (ask 5 100)) ∷ (1, Opens school 2 (ask 16 100)) ∷ []) → ⊥ }
    ensures nobody_raised { IsGrantedFrom small ((0, Raises school 1 (ask 6 100)) ∷ []) → ⊥ }
    ensures beyond { IsGrantedFrom one_sided ((0, Opens (Named 0) 1 (ask 10 100)) ∷ (1, Opens (Named 0) 2 (ask 10 100)) ∷ (2, Replans even) ∷ []) → ⊥ }
    ensures unfit { IsGrantedFrom (record small { totals = amount 65 40 400 }) [] → ⊥ }
    ensures later { AreGranted (new_book small) (Opens school 1 (ask 5 100) ∷ Raises school 1 (ask 5 100) ∷ Closes school 1 ∷ []) → ⊥ }
{}

/// What a new session's maker knows, and what it doesn't.
pub fn sessions_are_opened()
    ensures opened { IsOpened small school 2 (ask 5 100) (record { maker = 3; seen = (0, Opens (V4 7) 1 (ask 4 50)) ∷ (3, Opens school 2 (ask 5 100)) ∷ []; mine = Opens school 2 (ask 5 100) ∷ [] }) }
    ensures other_amount { IsOpened small school 2 (ask 6 100) (record { maker = 3; seen = (3, Opens school 2 (ask 5 100)) ∷ []; mine = Opens school 2 (ask 5 100) ∷ [] }) → ⊥ }
    ensures other_number { IsOpened small school 1 (ask 5 100) (record { maker = 3; seen = (3, Opens school 2 (ask 5 100)) ∷ []; mine = Opens school 2 (ask 5 100) ∷ [] }) → ⊥ }
    ensures unseen { IsOpened small school 2 (ask 5 100) (record { maker = 3; seen = []; mine = Opens school 2 (ask 5 100) ∷ [] }) → ⊥ }
    ensures refused { IsOpened small school 2 (ask 21 100) (record { maker = 3; seen = (3, Opens school 2 (ask 21 100)) ∷ []; mine = Opens school 2 (ask 21 100) ∷ [] }) → ⊥ }
    ensures made_before { IsOpened small school 2 (ask 5 100) (record { maker = 3; seen = (3, Opens (V4 7) 1 (ask 4 50)) ∷ (3, Opens school 2 (ask 5 100)) ∷ []; mine = Opens school 2 (ask 5 100) ∷ [] }) → ⊥ }
{}

/// A maker that looks has seen what others' sessions did, and nothing new of its own.
pub fn a_book_is_looked_at()
    ensures looked { IsBookLook small (record { maker = 3; seen = (3, Opens school 2 (ask 5 100)) ∷ []; mine = Opens school 2 (ask 5 100) ∷ [] })
        (record { maker = 3; seen = (3, Opens school 2 (ask 5 100)) ∷ (4, Opens (V4 7) 3 (ask 4 50)) ∷ []; mine = Opens school 2 (ask 5 100) ∷ [] }) }
    ensures own { IsBookLook small (record { maker = 3; seen = (3, Opens school 2 (ask 5 100)) ∷ []; mine = Opens school 2 (ask 5 100) ∷ [] })
        (record { maker = 3; seen = (3, Opens school 2 (ask 5 100)) ∷ (3, Closes school 2) ∷ []; mine = Opens school 2 (ask 5 100) ∷ [] }) → ⊥ }
    ensures refused { IsBookLook small (record { maker = 3; seen = []; mine = [] }) (record { maker = 3; seen = (4, Opens school 2 (ask 21 100)) ∷ []; mine = [] }) → ⊥ }
{}

/// A plan that came in, and ones that didn't.
pub fn plans_come_in()
    ensures came { IsReplannedBy one_sided even one_sided (record { maker = 5; seen = (5, Replans even) ∷ []; mine = Replans even ∷ [] }) }
    ensures other_plan { IsReplannedBy one_sided small one_sided (record { maker = 5; seen = (5, Replans even) ∷ []; mine = Replans even ∷ [] }) → ⊥ }
    ensures was_another { IsReplannedBy one_sided even even (record { maker = 5; seen = (5, Replans even) ∷ []; mine = Replans even ∷ [] }) → ⊥ }
    ensures beyond { IsNotReplanned one_sided even Beyond }
    ensures no_reason { IsNotReplanned one_sided even OverBudget → ⊥ }
{}

/// What a customer may have and has, at some time.
pub fn parts_at_a_time()
    ensures first { IsPartOnce small (Own school) (amount 2 20 200, amount 0 0 0) }
    ensures later { IsPartOnce small (Own school) (amount 2 20 200, amount 1 5 100) }
    ensures by_another_plan { IsPartOnce one_sided (Own (Named 1)) (amount 2 10 100, amount 0 0 0) }
{}

/// Which events are those of a session that is open.
pub fn sessions_that_are_open()
    ensures opened { is_open_by school 1 (Opens school 1 (ask 5 100) ∷ []) ≡ true }
    ensures raised { is_open_by school 1 (Opens school 1 (ask 5 100) ∷ Raises school 1 (ask 6 100) ∷ Raises school 1 (ask 7 100) ∷ []) ≡ true }
    ensures closed { is_open_by school 1 (Opens school 1 (ask 5 100) ∷ Closes school 1 ∷ []) ≡ false }
    ensures never { is_open_by school 1 [] ≡ false }
    ensures other_number { is_open_by school 2 (Opens school 1 (ask 5 100) ∷ []) ≡ false }
    ensures another { is_open_by (V4 7) 1 (Opens school 1 (ask 5 100) ∷ []) ≡ false }
    ensures other_raise { is_open_by school 1 (Opens school 1 (ask 5 100) ∷ Raises school 2 (ask 6 100) ∷ []) ≡ false }
    ensures raise_alone { is_open_by school 1 (Raises school 1 (ask 6 100) ∷ []) ≡ false }
    ensures opened_twice { is_open_by school 1 (Opens school 1 (ask 5 100) ∷ Opens school 1 (ask 5 100) ∷ []) ≡ false }
{}

/// Whose session is open has a grant, and no two makers have one session.
pub fn sessions_are_held()
    ensures nobody { AreHeld [] (new_book small) }
    ensures no_grant { AreHeld ((0, Opens school 1 (ask 5 100)) ∷ []) (new_book small) → ⊥ }
    ensures two_makers { AreHeld ((0, Opens school 1 (ask 5 100)) ∷ (1, Opens school 1 (ask 5 100)) ∷ []) (book_at small ((0, Opens school 1 (ask 5 100)) ∷ [])) → ⊥ }
    ensures closed_by_another { AreHeld ((0, Opens school 1 (ask 5 100)) ∷ (1, Closes school 1) ∷ []) (book_at small ((0, Opens school 1 (ask 5 100)) ∷ (1, Closes school 1) ∷ [])) → ⊥ }
{}
