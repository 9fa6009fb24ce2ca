//! Instances of what the laws presume: values that meet all premises of a clause together, in the clause's own words. A law whose premises
//! nothing meets says nothing. What stands in a call as `seat.old.asked` or `steps.now` is a value here, `seat_asked`, `steps`. The check of
//! the documents refuses a clause of a page whose premises have no instance.
ghost use Rattle.std.specs.Prelude.{◌≡◌, ◌≢◌, ◌+◌, ◌<◌, ◌≤◌, ℕ, length, List, [], None, Some, true, false, Result, IsTrue, count_by};
ghost use Rattle.tenant_quota.specs.Reserves.{ReserveOf};
ghost use Rattle.frame_table.specs.Frames.{Frame, frame_at};
ghost use Rattle.sched_rules.specs.declared.refusal.Refusal.{Refusal};
ghost use Rattle.sched_rules.specs.declared.step.StepOf.{StepOf};
ghost use Rattle.sched_rules.specs.declared.step.DidOf.{DidOf};
ghost use Rattle.sched_rules.specs.Trees.{Tenant};
ghost use Rattle.sched_rules.specs.Cores.{shared_by_nobody, tenant_in};
ghost use Rattle.sched_rules.specs.Headline.{AreAnswersTo, after_answers, is_admission, taken_steps};
ghost use Rattle.sched_laws.specs.Fitted.{submits};
ghost use Rattle.jamboree_rules.specs.declared.leaf.Leaf.{Leaf};
ghost use Rattle.jamboree_rules.specs.declared.leaf.LeafAnswer.{LeafAnswer};
ghost use Rattle.jamboree_rules.specs.Procedure.{jamboree};
ghost use Rattle.jamboree_core.specs.Replies.{AreSearches, IsSearch};
ghost use Rattle.jamboree_core.specs.Journals.{IsJournalOf};
ghost use Rattle.jamboree_core.specs.Enough.{EachFindsEnough};
ghost use Rattle.hall.specs.declared.desk_rules.asked.SeatAsked.{SeatAsked as SeatAskedOf};
ghost use Rattle.hall.specs.desk_rules.Asked.{seat_asked_at};
ghost use Rattle.hall.specs.Journals.{JournalOf, journal_in};
ghost use Rattle.promises.specs.Tenants.{own_steps, AreAdmissionsTaken};
ghost use Rattle.site_book.specs.declared.coming.Coming.TheVariants.{Enters, Ends, Refused};
ghost use Rattle.site_book.specs.declared.event.BookEvent.{BookEvent};
ghost use Rattle.site_book.specs.declared.held.Grant.{Grant};
ghost use Rattle.site_book.specs.declared.present.Present.{Present};
ghost use Rattle.site_book.specs.declared.refusal.BookRefusal.{BookRefusal};
ghost use Rattle.site_book.specs.declared.refusal.BookRefusal.TheVariants.{OverGuests};
ghost use Rattle.site_book.specs.declared.who.Who.{Who};
ghost use Rattle.site_book.specs.Names.{is_guest};
ghost use Rattle.site_book.specs.Plans.{PlanOf, sums_fit};
ghost use Rattle.site_book.specs.Grants.{grant_of};
ghost use Rattle.site_book.specs.Books.{BookOf, new_book, why_over, why_no_raise};
ghost use Rattle.site_book.specs.Events.{book_after_events, answers, still_open};
ghost use Rattle.site_book.specs.Comings.{coming, comer_of};
ghost use Rattle.site_file.specs.declared.directory.Terms.{Terms as TermsOf};
ghost use Rattle.site_file.specs.declared.keys.Keys.{Keys as KeysOf};
ghost use Rattle.site_file.specs.Checks.{fault_of};
ghost use Rattle.site_file.specs.Rates.{AreWithin};
ghost use Rattle.fair_share.specs.declared.account.ShareAccount.{ShareAccount};
ghost use Rattle.fair_share.specs.Accounts.{is_rival};
ghost use Rattle.fair_share.specs.Lines.{LineOf, IsNextAccount, account_at};
ghost use Rattle.fair_share.specs.Waits.{IsLeast, IsLed, IsWaiting, IsEach, IsEachLong, LineEvent, Waits, is_member, arrivals_in};

use site_file::{Keys, Rate, Terms};
use std::alloc::Global;

/// Of the laws on searches: tenant 9 comes and asks for the opening.
pub fn in_a_core()
    ensures sound { (grain : ℕ) × (totals : ReserveOf) × (steps : List (StepOf LeafAnswer)) × (answers : List (Result (DidOf Leaf) Refusal)) × (number : ℕ) × (tenant : Tenant)
        × AreAnswersTo (jamboree grain) (shared_by_nobody totals) steps answers × AreSearches (taken_steps steps answers)
        × (tenant_in (after_answers (jamboree grain) (shared_by_nobody totals) steps answers).tenants number ≡ Some tenant) }
    ensures enough { (grain : ℕ) × (journal : List (StepOf LeafAnswer)) × (tenant : Tenant) × (serial : ℕ) × (frame : Frame (List ℕ))
        × IsJournalOf (jamboree grain) journal tenant × AreSearches journal × EachFindsEnough grain None journal × (frame_at tenant.frames serial ≡ Some frame) }
{}

/// Of the calls on lists of steps, and of those at a hall and a desk: tenant 9 comes alone or after tenant 7, asks for the opening, cancels
/// its third job; and its seat knows one job that it asked for, and no third one.
pub fn at_calls()
    ensures same { (number : ℕ) × (steps : List (StepOf LeafAnswer)) × (other_steps : List (StepOf LeafAnswer)) × (runs_0_answers_items : List (Result (DidOf Leaf) Refusal)) × (runs_1_answers_items : List (Result (DidOf Leaf) Refusal))
        × (own_steps number steps runs_0_answers_items ≡ own_steps number other_steps runs_1_answers_items) }
    ensures alone { (number : ℕ) × (steps : List (StepOf LeafAnswer)) × (other_steps : List (StepOf LeafAnswer)) × (runs_0_answers_items : List (Result (DidOf Leaf) Refusal)) × (runs_1_answers_items : List (Result (DidOf Leaf) Refusal))
        × (other_steps ≡ own_steps number steps runs_0_answers_items) × AreAdmissionsTaken other_steps runs_1_answers_items }
    ensures searches { (steps : List (StepOf LeafAnswer)) × AreSearches steps }
    ensures journals { (number : ℕ) × (one_journals : List JournalOf) × (other_journals : List JournalOf) × (journal_in one_journals number ≡ journal_in other_journals number) }
    ensures search { (step : StepOf LeafAnswer) × IsSearch step × (is_admission step ≡ false) }
    ensures none_submitted { (step : StepOf LeafAnswer) × IsSearch step × (submits step ≡ []) }
    ensures unasked { (seat_asked : List SeatAskedOf) × (job : ℕ) × (seat_asked_at seat_asked job ≡ None) }
    ensures asked { (seat_asked : List SeatAskedOf) × (job : ℕ) × (seat_asked_at seat_asked job ≢ None) }
    ensures unasked_at_a_site { (seat_seat_asked : List SeatAskedOf) × (job : ℕ) × (seat_asked_at seat_seat_asked job ≡ None) }
    ensures asked_at_a_site { (seat_seat_asked : List SeatAskedOf) × (job : ℕ) × (seat_asked_at seat_seat_asked job ≢ None) }
{}

/// Of the laws on the book of a site's customers: guest 9's third session, a customer's beside it, and one that is closed again.
pub fn in_a_book()
    ensures raised { (who : Who) × (session : ℕ) × (grants : List Grant) × (held : Grant) × (grant_of who session grants ≡ Some held) }
    ensures opened { (plan : PlanOf) × (events : List BookEvent) × (who : Who) × (ask : ReserveOf) × IsTrue (sums_fit plan)
        × (let book = book_after_events (new_book plan) events in why_over book.plan who ask book.grants ≡ None) }
    ensures raised_in { (plan : PlanOf) × (events : List BookEvent) × (who : Who) × (session : ℕ) × (ask : ReserveOf) × IsTrue (sums_fit plan)
        × (let book = book_after_events (new_book plan) events in why_no_raise book.plan who session ask book.grants (grant_of who session book.grants) ≡ None) }
    ensures guest { (guest : Who) × IsTrue (is_guest guest) }
    ensures closed { (plan : PlanOf) × (events : List BookEvent) × (still_open [] events (answers (new_book plan) events) ≡ []) }
{}

/// Of the laws on who asks for a session beside two guests: it enters, an idle one is to end for it, it is refused; and another plan comes in.
pub fn at_a_door()
    ensures enters { (plan : PlanOf) × (grants : List Grant) × (roll : List Present) × (who : Who) × (ask : ReserveOf) × (now : ℕ) × (most : ℕ)
        × (why_over plan who ask grants ≡ None) × (coming plan grants roll (comer_of who ask now most) ≡ Enters) }
    ensures ends { (plan : PlanOf) × (grants : List Grant) × (roll : List Present) × (who : Who) × (ask : ReserveOf) × (now : ℕ) × (most : ℕ) × (session : ℕ) × (refusal : BookRefusal)
        × (coming plan grants roll (comer_of who ask now most) ≡ Ends session refusal) }
    ensures refused { (plan : PlanOf) × (grants : List Grant) × (roll : List Present) × (who : Who) × (ask : ReserveOf) × (now : ℕ) × (most : ℕ) × (refusal : BookRefusal)
        × (coming plan grants roll (comer_of who ask now most) ≡ Refused refusal) × (coming plan grants roll (comer_of who ask now most) ≡ Refused OverGuests) }
    ensures replanned { (book : BookOf) × (plan : PlanOf) × (roll : List Present) × (length roll ≡ length book.grants) × (plan.totals ≡ book.plan.totals) × IsTrue (sums_fit plan) }
{}

/// Of the law on a site's file: it names nobody, and a guest's line may pass.
pub fn in_a_file(alloc: Global) -> (Terms, Keys)
    ensures { (customers : List TermsOf) × (guest : TermsOf) × (keys : KeysOf) × (fault_of customers guest keys ≡ None) }
{
    let guest = Terms {
        name: String::new(alloc),
        connections: 1,
        rate: Rate {
            period: 1,
            burst: 1,
        },
        hall: 0,
    };
    let keys = Keys {
        tokens: Vec::new(alloc),
        certificates: Vec::new(alloc),
        networks: Vec::new(alloc),
    };
    (guest, keys)
}

/// Of the law on a customer's rate: three lines in a time.
pub fn in_a_time()
    ensures { (from : ℕ) × (to : ℕ) × (times : List ℕ) × (from ≤ to) × AreWithin from to times }
{}

/// Of the laws on whose turn it is: of two that were served as much one is picked while the other waits.
pub fn in_a_line()
    ensures least { (group : ℕ) × (place : ℕ) × (many : ℕ) × (line : LineOf) × (account : ShareAccount) × (events : List LineEvent)
        × IsLeast group place line account × Waits group place line events × (0 < many) × IsEach many 0 events }
    ensures led { (group : ℕ) × (place : ℕ) × (lead : ℕ) × (others : ℕ) × (many : ℕ) × (line : LineOf) × (account : ShareAccount) × (events : List LineEvent)
        × IsLed group place lead line account × Waits group place line events
        × (count_by (is_member group) line.accounts + arrivals_in group events ≡ others + 1) × (0 < many) × IsEach many 0 events }
    ensures next { (group : ℕ) × (place : ℕ) × (amount : ℕ) × (most : ℕ) × (other : ℕ) × (line : LineOf)
        × IsNextAccount group line.accounts place × (amount ≤ most) × (is_rival group (account_at line.accounts other) ≡ true) }
    ensures waiting { (group : ℕ) × (place : ℕ) × (many : ℕ) × (line : LineOf) × (account : ShareAccount) × (events : List LineEvent)
        × IsWaiting place line account × Waits group place line events × (0 < many) × IsEachLong many 0 events }
{}
