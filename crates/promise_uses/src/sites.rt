//! Uses of a site's calls: what a session of tenant 9 knows after each call at its desk.
ghost use Rattle.std.specs.Prelude.{◌≡◌, ◌≢◌, ◌≤◌, ◌++◌, ◌+◌, ◌∷◌, [], ℕ, List, length, Option, Some, None, Err, IfOk, OnOk, IfErr, IfSome, MatchResult, OnErr, Contains, true};
ghost use Rattle.sched_rules.specs.declared.refusal.Refusal.TheVariants.{NoJob, NoJobsLeft, NoNodes, NoSegments, NoTenant};
ghost use Rattle.sched_rules.specs.declared.step.StepOf.TheVariants.{Admit, AdmitMore, Submit, Cancel, Leave};
ghost use Rattle.sched_rules.specs.Runs.{alone, only};
ghost use Rattle.sched_rules.specs.Views.{left_in_core, live_of, job_of};
ghost use Rattle.sched_rules.specs.Headline.{IsAnswerTo};
ghost use Rattle.sched_rules.specs.Cores.{tenant_in};
ghost use Rattle.jamboree_rules.specs.Procedure.{jamboree};
ghost use Rattle.jamboree_rules.specs.Places.{root_words, frame_size};
ghost use Rattle.desk.specs.Traces.{own};
ghost use Rattle.jamboree_core.specs.declared.outcomes.Outcome.{Outcome as OutcomeOf};
ghost use Rattle.jamboree_core.specs.Outcomes.{IsOutcomeIn};
ghost use Rattle.hall.specs.declared.desk_rules.asked.SeatAsked.{SeatAsked as SeatAskedOf};
ghost use Rattle.hall.specs.desk_rules.Asked.{seat_asked_at, IsToldBy, found_or_no_tenant};
ghost use Rattle.desk.specs.Histories.{core_at, seat_steps, steps_of, AreTaken};
ghost use Rattle.site_book.specs.declared.event.BookEvent.{BookEvent};
ghost use Rattle.site_book.specs.declared.event.BookEvent.TheVariants.{Opens, Raises, Closes, Replans};
ghost use Rattle.site_book.specs.declared.who.Who.TheVariants.{Named};
ghost use Rattle.site_book.specs.Amounts.{IsAmountWithin};
ghost use Rattle.site_book.specs.Books.{new_book, why_not_replan};
ghost use Rattle.site_book.specs.Events.{answers, book_after_events, grants_of, names_granted, only_events, still_open};
ghost use Rattle.site_book.specs.Names.{same_who};
ghost use Rattle.site_book.specs.Plans.{budget_of};
ghost use Rattle.site_desk.specs.Granted.{AreGranted, book_at, events_of};
ghost use Rattle.site_desk.specs.declared.entry.SeatOutcome.TheVariants.{Seated};
ghost use Rattle.site_desk.specs.declared.turned.Turned.TheVariants.{ByBook, OldTenant};
ghost use Rattle.site_desk.specs.Seats.{SiteSeatOf};
ghost use mathlib.Core.List.{IsPrefix};
ghost use Rattle.promises.specs.Replies.{SearchStep};

use hall::{Outcome, Refusal};
use othello_board::position_text::Position;
use site_book::laws::{all_comes_back, no_customer_is_disturbed, nobody_is_over_budget};
use site_book::{Amount, BookRefusal, Comer, Plan};
use site_desk::{BookTrace, SeatOutcome, SiteDesk, SiteNaming, SiteSeat, SiteTrace, Turned};
use std::alloc::Allocator;
use std::sync::Wait;
use tenant_quota::{Left, Reserve};

/// Who is seated is whoever came, at this desk. The history that the seat has seen ends with its tenant's admission, which is all that it
/// made; the tenant wasn't in the hall that the desk was made with. What the book granted, as far as the seat has seen it, ends with its opening.
/// Uses `site_desk::SiteDesk::come`.
pub fn a_session_comes<J: SiteNaming, A: Allocator + Clone, R: Wait>(
    rt: &R,
    desk: &SiteDesk<J, A>,
    comer: &Comer,
) -> SeatOutcome<SiteSeat<J>>
    ensures whose { (came : SiteSeatOf) → result ≡ Seated came → (came.who ≡ comer.now.who) × (came.at ≡ desk.now) }
    ensures asked { (came : SiteSeatOf) → result ≡ Seated came → (came.seat.share ≡ 1) × (came.seat.asked ≡ []) }
    ensures seen { (came : SiteSeatOf) → result ≡ Seated came → (before : List (ℕ × SearchStep))
        × (came.seat.known.seen ≡ before ++ (came.seat.known.maker, Admit came.seat.tenant comer.now.ask) ∷ [])
        × (only came.seat.tenant (steps_of before) ≡ []) × (own came.seat.known.maker before ≡ [])
        × (came.seat.known.mine ≡ Admit came.seat.tenant comer.now.ask ∷ []) }
    ensures opened { (came : SiteSeatOf) → result ≡ Seated came → (before : List (ℕ × BookEvent))
        × (came.books.seen ≡ before ++ (came.books.maker, Opens comer.now.who came.seat.tenant comer.now.ask) ∷ [])
        × (own came.books.maker before ≡ []) × (came.books.mine ≡ Opens comer.now.who came.seat.tenant comer.now.ask ∷ []) }
    ensures granted { (came : SiteSeatOf) → result ≡ Seated came → AreGranted (new_book (J.plan desk.now)) (events_of came.books.seen) }
    ensures new { (came : SiteSeatOf) → result ≡ Seated came → tenant_in (J.begun desk.now).shared.tenants came.seat.tenant ≡ None }
{
    desk.come(rt, comer)
}

/// The session of tenant 9 asks for a search, as its fifth job, at its desk of a site. Where that is taken, the history
/// of the desk goes on from what the seat had seen, without a step of the seat's, and ends with just this Submit. Where
/// it is refused, the reason lies in the core at the end of the history that the seat has then seen. Uses
/// `site_desk::SiteDesk::ask` (`asked`, `told`, `refused`, `seat`).
pub fn a_session_asks<J: SiteNaming, A: Allocator + Clone, R: Wait>(
    rt: &R,
    desk: &SiteDesk<J, A>,
    seat: &mut SiteSeat<J>,
    position: &Position,
    depth: u8,
) -> Result<u64, Refusal>
    requires here { seat.old.at ≡ desk.now }
    requires nine { seat.old.seat.tenant ≡ 9 }
    requires shallow { depth ≤ 12 }
    requires four { length seat.old.seat.asked ≡ 4 }
    ensures number { IfOk result (λ job. job ≡ 5) }
    ensures taken { OnOk result ((between : List (ℕ × SearchStep))
        × (seat.new.seat.known.seen ≡ (seat.old.seat.known.seen ++ between) ++ (seat.old.seat.known.maker, Submit 9 (root_words position.now.board.own position.now.board.opp depth) frame_size) ∷ [])
        × (own seat.old.seat.known.maker (seat.old.seat.known.seen ++ between) ≡ seat.old.seat.known.mine)
        × (seat.new.seat.known.mine ≡ seat.old.seat.known.mine ++ Submit 9 (root_words position.now.board.own position.now.board.opp depth) frame_size ∷ [])
        × (seat.new.seat.known.maker ≡ seat.old.seat.known.maker)) }
    ensures refused { IfErr result (λ refusal. IsAnswerTo (jamboree (J.begun desk.now).grain) (core_at (J.begun desk.now) seat.new.seat.known.seen)
        (Submit 9 (root_words position.now.board.own position.now.board.opp depth) frame_size) (Err refusal)) }
    ensures listed { IfErr result (Contains (NoTenant ∷ NoJobsLeft ∷ NoNodes ∷ NoSegments ∷ [])) }
    ensures list { MatchResult result (λ job. seat.new.seat.asked ≡ seat.old.seat.asked ++ record { board = position.now.board; depth = depth } ∷ []) (λ refusal. seat.new.seat.asked ≡ seat.old.seat.asked) }
    ensures share { MatchResult result (λ job. seat.new.seat.share ≡ seat.old.seat.share + 1) (λ refusal. seat.new.seat.share ≡ seat.old.seat.share) }
    ensures kept { seat.new.seat.tenant ≡ 9 }
    ensures own { (seat.new.who ≡ seat.old.who) × (seat.new.at ≡ seat.old.at) }
{
    desk.ask(rt, seat, position, depth)
}

/// A session that has had its 256 jobs, and asks once more, is refused with NoJobsLeft, and nothing changes, at whatever desk.
/// Uses `site_desk::SiteDesk::ask` (`asked`, `full`).
pub fn a_session_asks_in_vain<J: SiteNaming, A: Allocator + Clone, R: Wait>(
    rt: &R,
    desk: &SiteDesk<J, A>,
    seat: &mut SiteSeat<J>,
    position: &Position,
) -> Result<u64, Refusal>
    requires { length seat.old.seat.asked ≡ 256 }
    ensures refused { result ≡ Err NoJobsLeft }
    ensures unchanged { seat.new ≡ seat.old }
{
    desk.ask(rt, seat, position, 12)
}

/// The session of tenant 9 reserves more: the history then ends with just this AdmitMore, or it is refused, by the book without a change.
/// Uses `site_desk::SiteDesk::reserve` (`told`, `granted`, `seat`, `refused`).
pub fn a_session_reserves<J: SiteNaming, A: Allocator + Clone, R: Wait>(
    rt: &R,
    desk: &SiteDesk<J, A>,
    seat: &mut SiteSeat<J>,
    ask: Reserve,
) -> Result<(), Turned>
    requires nine { seat.old.seat.tenant ≡ 9 }
    ensures taken { OnOk result ((between : List (ℕ × SearchStep))
        × (seat.new.seat.known.seen ≡ (seat.old.seat.known.seen ++ between) ++ (seat.old.seat.known.maker, AdmitMore 9 ask) ∷ [])
        × (own seat.old.seat.known.maker (seat.old.seat.known.seen ++ between) ≡ seat.old.seat.known.mine)
        × (seat.new.seat.known.mine ≡ seat.old.seat.known.mine ++ AdmitMore 9 ask ∷ [])
        × (seat.new.seat.known.maker ≡ seat.old.seat.known.maker)) }
    ensures granted { OnOk result ((between : List (ℕ × BookEvent))
        × (seat.new.books.seen ≡ (seat.old.books.seen ++ between) ++ (seat.old.books.maker, Raises seat.old.who 9 ask) ∷ [])
        × (own seat.old.books.maker (seat.old.books.seen ++ between) ≡ seat.old.books.mine)
        × (seat.new.books.mine ≡ seat.old.books.mine ++ Raises seat.old.who 9 ask ∷ []) × (seat.new.books.maker ≡ seat.old.books.maker)) }
    ensures refused { OnErr result (seat.new.books ≡ seat.old.books) }
    ensures by_book { (refusal : BookRefusal) → result ≡ Err (ByBook refusal) → seat.new ≡ seat.old }
    ensures numbers { result ≢ Err OldTenant }
    ensures kept { (seat.new.seat.asked ≡ seat.old.seat.asked) × (seat.new.seat.tenant ≡ 9) }
    ensures own { (seat.new.who ≡ seat.old.who) × (seat.new.at ≡ seat.old.at) }
{
    desk.reserve(rt, seat, ask)
}

/// The session of tenant 9 cancels a job: the history then ends with just this Cancel, or the core at its end refuses it; and where the seat
/// never asked for it, nothing changes. Uses `site_desk::SiteDesk::cancel` (`share`, `none`, `told`, `refused`, `seat`).
pub fn a_session_cancels<J: SiteNaming, A: Allocator + Clone, R: Wait>(
    rt: &R,
    desk: &SiteDesk<J, A>,
    seat: &mut SiteSeat<J>,
    job: u64,
) -> Result<(), Refusal>
    requires here { seat.old.at ≡ desk.now }
    requires nine { seat.old.seat.tenant ≡ 9 }
    ensures none { seat_asked_at seat.old.seat.asked job ≡ None → (result ≡ Err NoJob) × (seat.new ≡ seat.old) }
    ensures taken { seat_asked_at seat.old.seat.asked job ≢ None → OnOk result ((between : List (ℕ × SearchStep))
        × (seat.new.seat.known.seen ≡ (seat.old.seat.known.seen ++ between) ++ (seat.old.seat.known.maker, Cancel 9 job) ∷ [])
        × (own seat.old.seat.known.maker (seat.old.seat.known.seen ++ between) ≡ seat.old.seat.known.mine)
        × (seat.new.seat.known.mine ≡ seat.old.seat.known.mine ++ Cancel 9 job ∷ [])
        × (seat.new.seat.known.maker ≡ seat.old.seat.known.maker)) }
    ensures refused { seat_asked_at seat.old.seat.asked job ≢ None → IfErr result (λ refusal. IsAnswerTo (jamboree (J.begun desk.now).grain) (core_at (J.begun desk.now) seat.new.seat.known.seen) (Cancel 9 job) (Err refusal)) }
    ensures kept { (seat.new.seat.asked ≡ seat.old.seat.asked) × (seat.new.seat.tenant ≡ 9) }
    ensures share { MatchResult result (λ _. seat.new.seat.share ≡ seat.old.seat.share + 1) (λ _. seat.new.seat.share ≡ seat.old.seat.share) }
    ensures listed { IfErr result (Contains (NoTenant ∷ NoJob ∷ [])) }
    ensures own { (seat.new.who ≡ seat.old.who) × (seat.new.at ≡ seat.old.at) }
{
    desk.cancel(rt, seat, job)
}

/// What the session of tenant 9 is told that it has left is what it has at the end of the history that its seat has then seen. There the tenant
/// is what its own steps make of it alone, and those of them that workers didn't make are the seat's own, as they were before.
/// Uses `site_desk::SiteDesk::quota` (`look`, `left`, `refused`, `seat`).
pub fn quota_of_a_session<J: SiteNaming, A: Allocator + Clone, R: Wait>(
    rt: &R,
    desk: &SiteDesk<J, A>,
    seat: &mut SiteSeat<J>,
) -> Result<Left, Refusal>
    requires here { seat.old.at ≡ desk.now }
    requires nine { seat.old.seat.tenant ≡ 9 }
    ensures left { result ≡ found_or_no_tenant (left_in_core (core_at (J.begun desk.now) seat.new.seat.known.seen) 9) }
    ensures alone { tenant_in (core_at (J.begun desk.now) seat.new.seat.known.seen).tenants 9 ≡ alone (jamboree (J.begun desk.now).grain) (only 9 (steps_of seat.new.seat.known.seen)) }
    ensures own { seat_steps 9 (steps_of seat.new.seat.known.seen) ≡ seat.old.seat.known.mine }
    ensures refused { IfErr result (λ refusal. refusal ≡ NoTenant) }
    ensures kept { (seat.new.who ≡ seat.old.who) × (seat.new.at ≡ seat.old.at) × (seat.new.seat.asked ≡ seat.old.seat.asked) }
{
    desk.quota(rt, seat)
}

/// How many frames and words the session of tenant 9 is told that it has is what it has at the end of the history that
/// its seat has then seen. There the tenant is what its own steps make of it alone, and those of them that workers
/// didn't make are the seat's own. Uses `site_desk::SiteDesk::live` (`look`, `live`, `refused`, `seat`).
pub fn live_of_a_session<J: SiteNaming, A: Allocator + Clone, R: Wait>(
    rt: &R,
    desk: &SiteDesk<J, A>,
    seat: &mut SiteSeat<J>,
) -> Result<(usize, usize), Refusal>
    requires here { seat.old.at ≡ desk.now }
    requires nine { seat.old.seat.tenant ≡ 9 }
    ensures live { result ≡ found_or_no_tenant (live_of (core_at (J.begun desk.now) seat.new.seat.known.seen) 9) }
    ensures alone { tenant_in (core_at (J.begun desk.now) seat.new.seat.known.seen).tenants 9 ≡ alone (jamboree (J.begun desk.now).grain) (only 9 (steps_of seat.new.seat.known.seen)) }
    ensures own { seat_steps 9 (steps_of seat.new.seat.known.seen) ≡ seat.old.seat.known.mine }
    ensures refused { IfErr result (λ refusal. refusal ≡ NoTenant) }
    ensures kept { (seat.new.who ≡ seat.old.who) × (seat.new.at ≡ seat.old.at) × (seat.new.seat.asked ≡ seat.old.seat.asked) }
{
    desk.live(rt, seat)
}

/// What the session of tenant 9 is told of a job that it asked for: what that job has come to at the end of the history that its seat has then
/// seen. Uses `site_desk::SiteDesk::wait` (`look`, `shown`, `told`, `seat`).
pub fn job_of_a_session<J: SiteNaming, A: Allocator + Clone, R: Wait>(
    rt: &R,
    desk: &SiteDesk<J, A>,
    seat: &mut SiteSeat<J>,
    job: u64,
    now: u64,
) -> Result<Outcome, Refusal>
    requires here { seat.old.at ≡ desk.now }
    requires nine { seat.old.seat.tenant ≡ 9 }
    ensures told { (asked : SeatAskedOf) → seat_asked_at seat.old.seat.asked job ≡ Some asked → (told : Option OutcomeOf)
        × IsOutcomeIn (job_of (core_at (J.begun desk.now) seat.new.seat.known.seen) 9 job) told × IsToldBy (Some asked) told result }
    ensures none { seat_asked_at seat.old.seat.asked job ≡ None → result ≡ Err NoJob }
    ensures own { seat_steps 9 (steps_of seat.new.seat.known.seen) ≡ seat.old.seat.known.mine }
    ensures kept { (seat.new.who ≡ seat.old.who) × (seat.new.at ≡ seat.old.at) × (seat.new.seat.asked ≡ seat.old.seat.asked) }
{
    desk.wait(rt, seat, job, now)
}

/// The session of tenant 9 leaves: the history of its own desk then ends with just its Leave, which is the last of the seat's own steps, and all
/// seat steps of tenant 9 in it are the seat's own. What the book granted ends with its closing. At its own desk it always leaves, and at another
/// one never. Uses `site_desk::SiteDesk::leave` (`left`, `told`, `closed`).
pub fn a_session_leaves<J: SiteNaming, A: Allocator + Clone, R: Wait>(
    rt: &R,
    desk: &SiteDesk<J, A>,
    seat: SiteSeat<J>,
) -> Option<SiteTrace<J>>
    requires nine { seat.seat.tenant ≡ 9 }
    ensures here { seat.at ≡ desk.now → result ≢ None }
    ensures elsewhere { seat.at ≢ desk.now → result ≡ None }
    ensures told { IfSome result (λ trace. (between : List (ℕ × SearchStep))
        × (trace.known.seen ≡ (seat.seat.known.seen ++ between) ++ (seat.seat.known.maker, Leave 9) ∷ [])
        × (own seat.seat.known.maker (seat.seat.known.seen ++ between) ≡ seat.seat.known.mine)
        × (trace.known.mine ≡ seat.seat.known.mine ++ Leave 9 ∷ [])
        × (trace.known.maker ≡ seat.seat.known.maker)) }
    ensures closed { IfSome result (λ trace. (between : List (ℕ × BookEvent))
        × (trace.books.seen ≡ (seat.books.seen ++ between) ++ (seat.books.maker, Closes seat.who 9) ∷ [])
        × (own seat.books.maker (seat.books.seen ++ between) ≡ seat.books.mine) × (trace.books.mine ≡ seat.books.mine ++ Closes seat.who 9 ∷ [])
        × (trace.books.maker ≡ seat.books.maker)) }
    ensures granted { IfSome result (λ trace. AreGranted (new_book (J.plan seat.at)) (events_of trace.books.seen)) }
    ensures legal { IfSome result (λ trace. AreTaken (jamboree (J.begun seat.at).grain) (J.begun seat.at).shared (steps_of trace.known.seen)) }
    ensures own { IfSome result (λ trace. (trace.at ≡ seat.at) × (seat_steps 9 (steps_of trace.known.seen) ≡ trace.known.mine)) }
{
    desk.leave(rt, seat)
}

/// What the sessions of two customers know when they have left one desk of a site is of one history. What each has seen
/// is a beginning of it, all steps of each in it are those that it knows, and each step of it was taken. The same holds
/// of the history of what the book granted; and the book at its end has just the sessions that were opened and not
/// closed. Uses `site_desk::SiteDesk::compare` (`own`, `one`, `other`, `history`, `legal`, `books`) and
/// `site_book::all_comes_back` (`out`).
pub fn two_customers<J: SiteNaming, A: Allocator + Clone, R: Wait>(
    rt: &R,
    desk: &SiteDesk<J, A>,
    one: &mut SiteTrace<J>,
    other: &mut SiteTrace<J>,
) -> bool
    requires here { (one.old.at ≡ desk.now) × (other.old.at ≡ desk.now) }
    ensures same { result ≡ true }
    ensures kept { (one.new.at ≡ one.old.at) × (other.new.at ≡ other.old.at) }
    ensures begin { IsPrefix one.old.known.seen one.new.known.seen × IsPrefix other.old.known.seen one.new.known.seen }
    ensures own { (own one.old.known.maker one.new.known.seen ≡ one.old.known.mine) × (own other.old.known.maker one.new.known.seen ≡ other.old.known.mine) }
    ensures legal { AreTaken (jamboree (J.begun desk.now).grain) (J.begun desk.now).shared (steps_of one.new.known.seen) }
    ensures begin_of_book { IsPrefix one.old.books.seen one.new.books.seen × IsPrefix other.old.books.seen one.new.books.seen }
    ensures own_of_book { (own one.old.books.maker one.new.books.seen ≡ one.old.books.mine) × (own other.old.books.maker one.new.books.seen ≡ other.old.books.mine) }
    ensures out { names_granted (book_at (J.plan desk.now) one.new.books.seen).grants
        ≡ still_open [] (events_of one.new.books.seen) (answers (new_book (J.plan desk.now)) (events_of one.new.books.seen)) }
{
    all_comes_back();
    desk.compare(rt, one, other)
}

/// What customer 3 has is within what it may have, by the desk's own history of what its book granted; and its grants at the end of that are those
/// of its own events alone, with all others' removed. Uses `site_desk::SiteDesk::budget` (`look`, `may`, `has`, `seat`),
/// `site_book::nobody_is_over_budget` (`within`) and `site_book::no_customer_is_disturbed` (`grants`).
pub fn budget_of_a_customer<J: SiteNaming, A: Allocator + Clone, R: Wait>(
    rt: &R,
    desk: &SiteDesk<J, A>,
    seat: &mut SiteSeat<J>,
) -> (Amount, Amount)
    requires here { seat.old.at ≡ desk.now }
    requires three { seat.old.who ≡ Named 3 }
    ensures within { IsAmountWithin result.1 result.0 }
    ensures may { result.0 ≡ budget_of (book_at (J.plan desk.now) seat.new.books.seen).plan (Named 3) }
    ensures alone { grants_of (same_who (Named 3)) (book_at (J.plan desk.now) seat.new.books.seen).grants
        ≡ (book_after_events (new_book (J.plan desk.now)) (only_events (same_who (Named 3)) (new_book (J.plan desk.now)) (events_of seat.new.books.seen))).grants }
    ensures granted { AreGranted (new_book (J.plan desk.now)) (events_of seat.new.books.seen) }
    ensures seen { IsPrefix seat.old.books.seen seat.new.books.seen }
    ensures own { own seat.old.books.maker seat.new.books.seen ≡ seat.old.books.mine }
    ensures kept { (seat.new.seat ≡ seat.old.seat) × (seat.new.who ≡ seat.old.who) × (seat.new.at ≡ seat.old.at) }
{
    nobody_is_over_budget();
    no_customer_is_disturbed();
    desk.budget(rt, seat)
}

/// What a seat of another desk is told of customer 3 is what that customer may have and has at this one, so it is within that; and the seat has
/// seen nothing of it. Uses `site_desk::SiteDesk::budget` (`elsewhere`) and `site_book::nobody_is_over_budget` (`within`).
pub fn budget_at_another_desk<J: SiteNaming, A: Allocator + Clone, R: Wait>(
    rt: &R,
    desk: &SiteDesk<J, A>,
    seat: &mut SiteSeat<J>,
) -> (Amount, Amount)
    requires elsewhere { seat.old.at ≢ desk.now }
    requires three { seat.old.who ≡ Named 3 }
    ensures within { IsAmountWithin result.1 result.0 }
    ensures may { (history : List (ℕ × BookEvent)) × AreGranted (new_book (J.plan desk.now)) (events_of history)
        × (result.0 ≡ budget_of (book_at (J.plan desk.now) history).plan (Named 3)) }
    ensures unseen { seat.new ≡ seat.old }
{
    nobody_is_over_budget();
    desk.budget(rt, seat)
}

/// Another plan that comes in is the last event of the desk's history of what its book granted, and the only one of its maker; what was there is
/// the plan to which the events before it lead. One that doesn't come in is given back, with the reason of the book at the end of a history.
/// Uses `site_desk::SiteDesk::reload` (`came`, `refused`).
pub fn another_plan<J: SiteNaming, A: Allocator + Clone, R: Wait>(
    rt: &R,
    desk: &SiteDesk<J, A>,
    plan: Plan,
) -> Result<(Plan, BookTrace<J>), (Plan, BookRefusal)>
    ensures came { IfOk result (λ came. (before : List (ℕ × BookEvent))
        × (came.1.books.seen ≡ before ++ (came.1.books.maker, Replans plan) ∷ [])
        × (own came.1.books.maker before ≡ []) × (came.1.books.mine ≡ Replans plan ∷ [])
        × (came.0 ≡ (book_at (J.plan desk.now) before).plan)) }
    ensures granted { IfOk result (λ came. AreGranted (new_book (J.plan desk.now)) (events_of came.1.books.seen)) }
    ensures here { IfOk result (λ came. came.1.at ≡ desk.now) }
    ensures refused { IfErr result (λ refused. (refused.0 ≡ plan) × (history : List (ℕ × BookEvent))
        × AreGranted (new_book (J.plan desk.now)) (events_of history) × (why_not_replan (book_at (J.plan desk.now) history) plan ≡ Some refused.1)) }
{
    desk.reload(rt, plan)
}

/// The traces of two desks aren't compared: the answer is false, and neither changes. Uses `site_desk::SiteDesk::compare` (`own`, `elsewhere`).
pub fn customers_of_two_halls<J: SiteNaming, A: Allocator + Clone, R: Wait>(
    rt: &R,
    desk: &SiteDesk<J, A>,
    one: &mut SiteTrace<J>,
    other: &mut SiteTrace<J>,
) -> bool
    requires here { one.old.at ≢ desk.now }
    ensures same { result ≢ true }
    ensures one { one.new ≡ one.old }
    ensures other { other.new ≡ other.old }
{
    desk.compare(rt, one, other)
}
