//! Uses of the desk's calls: what a seat of tenant 9 knows after each.
ghost use Rattle.std.specs.Prelude.{◌≡◌, ◌≢◌, ◌≤◌, ◌++◌, ◌+◌, ◌∷◌, [], ℕ, List, length, Option, Some, None, Err, IfOk, OnOk, IfErr, IfSome, OnSome, MatchResult, Contains};
ghost use Rattle.sched_rules.specs.declared.refusal.Refusal.TheVariants.{Full, Lower, NoJob, NoJobsLeft, NoNodes, NoSegments, NoTenant, OldTenant, OutOfMemory};
ghost use Rattle.sched_rules.specs.declared.step.StepOf.TheVariants.{Admit, AdmitMore, Submit, Cancel, Leave};
ghost use Rattle.sched_rules.specs.Runs.{alone, only};
ghost use Rattle.sched_rules.specs.Views.{left_in_core, live_of, job_of};
ghost use Rattle.sched_rules.specs.Headline.{IsAnswerTo};
ghost use Rattle.sched_rules.specs.Cores.{tenant_in};
ghost use Rattle.jamboree_rules.specs.Procedure.{jamboree};
ghost use Rattle.jamboree_rules.specs.Places.{root_words, frame_size};
ghost use Rattle.hall.specs.Halls.{count_of};
ghost use Rattle.desk.specs.Traces.{own};
ghost use Rattle.jamboree_core.specs.declared.outcomes.Outcome.{Outcome as OutcomeOf};
ghost use Rattle.jamboree_core.specs.Outcomes.{IsOutcomeIn};
ghost use Rattle.hall.specs.declared.desk_rules.asked.SeatAsked.{SeatAsked as SeatAskedOf};
ghost use Rattle.hall.specs.desk_rules.Asked.{seat_asked_at, IsToldBy, found_or_no_tenant};
ghost use Rattle.desk.specs.Histories.{core_at, seat_steps, steps_of, AreTaken};
ghost use mathlib.Core.List.{IsPrefix};
ghost use Rattle.promises.specs.Replies.{SearchStep};

use desk::{Badge, Desk, DeskLedger, History, Seat, Trace};
use hall::{Hall, Jamboree, Outcome, Refusal, Step};
use othello_board::position_text::Position;
use std::alloc::Allocator;
use std::sync::Wait;
use std::sync::ledger::Share;
use tenant_quota::{Left, Reserve};

/// A seat that is new at a desk: the history that it has seen ends with its tenant's admission, which is all that it made.
/// Its tenant wasn't in the hall that the desk was made with.
/// Uses `desk::Desk::admit` (`seat`, `admitted`, `new`, `refused`).
pub fn a_new_seat<L: DeskLedger, A: Allocator + Clone, R: Wait>(
    rt: &R,
    desk: &Desk<L, A>,
    reserve: Reserve,
) -> Result<Seat<L>, Refusal>
    ensures asked { IfOk result (λ seat. (seat.share ≡ 1) × (seat.asked ≡ [])) }
    ensures seen { IfOk result (λ seat. (before : List (ℕ × SearchStep)) × (seat.known.seen ≡ before ++ (seat.known.maker, Admit seat.tenant reserve) ∷ [])
        × (only seat.tenant (steps_of before) ≡ []) × (own seat.known.maker before ≡ []) × (seat.known.mine ≡ Admit seat.tenant reserve ∷ [])) }
    ensures new { IfOk result (λ seat. tenant_in L.begun.shared.tenants seat.tenant ≡ None) }
    ensures refused { IfErr result (Contains (Full ∷ OldTenant ∷ OutOfMemory ∷ [])) }
{
    desk.admit(rt, reserve)
}

/// Tenant 9 asks for a search, as its fifth job. Where it is taken, the history goes on from what the seat had seen,
/// without a step of the seat's, and ends with just this Submit; where it is refused, it is for what the core at the end of what
/// the seat has then seen is. Uses `desk::Desk::ask` (`asked`, `told`, `refused`).
pub fn nine_asks<L: DeskLedger, A: Allocator + Clone, R: Wait>(
    rt: &R,
    desk: &Desk<L, A>,
    seat: &mut Seat<L>,
    position: &Position,
    depth: u8,
) -> Result<u64, Refusal>
    requires nine { seat.old.tenant ≡ 9 }
    requires shallow { depth ≤ 12 }
    requires four { length seat.old.asked ≡ 4 }
    ensures number { IfOk result (λ job. job ≡ 5) }
    ensures taken { OnOk result ((between : List (ℕ × SearchStep))
        × (seat.new.known.seen ≡ (seat.old.known.seen ++ between) ++ (seat.old.known.maker, Submit 9 (root_words position.now.board.own position.now.board.opp depth) frame_size) ∷ [])
        × (own seat.old.known.maker (seat.old.known.seen ++ between) ≡ seat.old.known.mine)
        × (seat.new.known.mine ≡ seat.old.known.mine ++ Submit 9 (root_words position.now.board.own position.now.board.opp depth) frame_size ∷ [])
        × (seat.new.known.maker ≡ seat.old.known.maker)) }
    ensures refused { IfErr result (λ refusal. IsAnswerTo (jamboree L.begun.grain) (core_at L.begun seat.new.known.seen)
        (Submit 9 (root_words position.now.board.own position.now.board.opp depth) frame_size) (Err refusal)) }
    ensures listed { IfErr result (Contains (NoTenant ∷ NoJobsLeft ∷ NoNodes ∷ NoSegments ∷ [])) }
    ensures list { MatchResult result (λ job. seat.new.asked ≡ seat.old.asked ++ record { board = position.now.board; depth = depth } ∷ []) (λ refusal. seat.new.asked ≡ seat.old.asked) }
    ensures share { MatchResult result (λ job. seat.new.share ≡ seat.old.share + 1) (λ refusal. seat.new.share ≡ seat.old.share) }
    ensures kept { seat.new.tenant ≡ 9 }
{
    desk.ask(rt, seat, position, depth)
}

/// Tenant 9 has had its 256 jobs, and asks once more: it is refused with NoJobsLeft, and nothing changes.
/// Uses `desk::Desk::ask` (`asked`, `full`).
pub fn nine_asks_in_vain<L: DeskLedger, A: Allocator + Clone, R: Wait>(
    rt: &R,
    desk: &Desk<L, A>,
    seat: &mut Seat<L>,
    position: &Position,
) -> Result<u64, Refusal>
    requires { length seat.old.asked ≡ 256 }
    ensures refused { result ≡ Err NoJobsLeft }
    ensures unchanged { seat.new ≡ seat.old }
{
    desk.ask(rt, seat, position, 12)
}

/// Tenant 9 reserves more: the history then ends with just this AdmitMore, or the core at its end refuses it.
/// Uses `desk::Desk::reserve` (`share`, `told`, `refused`).
pub fn nine_reserves<L: DeskLedger, A: Allocator + Clone, R: Wait>(
    rt: &R,
    desk: &Desk<L, A>,
    seat: &mut Seat<L>,
    reserve: Reserve,
) -> Result<(), Refusal>
    requires nine { seat.old.tenant ≡ 9 }
    ensures taken { OnOk result ((between : List (ℕ × SearchStep))
        × (seat.new.known.seen ≡ (seat.old.known.seen ++ between) ++ (seat.old.known.maker, AdmitMore 9 reserve) ∷ [])
        × (own seat.old.known.maker (seat.old.known.seen ++ between) ≡ seat.old.known.mine)
        × (seat.new.known.mine ≡ seat.old.known.mine ++ AdmitMore 9 reserve ∷ [])
        × (seat.new.known.maker ≡ seat.old.known.maker)) }
    ensures refused { IfErr result (λ refusal. IsAnswerTo (jamboree L.begun.grain) (core_at L.begun seat.new.known.seen) (AdmitMore 9 reserve) (Err refusal)) }
    ensures kept { (seat.new.asked ≡ seat.old.asked) × (seat.new.tenant ≡ 9) }
    ensures share { MatchResult result (λ _. seat.new.share ≡ seat.old.share + 1) (λ _. seat.new.share ≡ seat.old.share) }
    ensures listed { IfErr result (Contains (NoTenant ∷ Lower ∷ Full ∷ OutOfMemory ∷ [])) }
{
    desk.reserve(rt, seat, reserve)
}

/// Tenant 9 cancels a job: the history then ends with just this Cancel, or the core at its end refuses it; and where the seat
/// never asked for it, nothing changes. Uses `desk::Desk::cancel` (`share`, `none`, `told`, `refused`).
pub fn nine_cancels<L: DeskLedger, A: Allocator + Clone, R: Wait>(
    rt: &R,
    desk: &Desk<L, A>,
    seat: &mut Seat<L>,
    job: u64,
) -> Result<(), Refusal>
    requires nine { seat.old.tenant ≡ 9 }
    ensures none { seat_asked_at seat.old.asked job ≡ None → (result ≡ Err NoJob) × (seat.new ≡ seat.old) }
    ensures taken { seat_asked_at seat.old.asked job ≢ None → OnOk result ((between : List (ℕ × SearchStep))
        × (seat.new.known.seen ≡ (seat.old.known.seen ++ between) ++ (seat.old.known.maker, Cancel 9 job) ∷ [])
        × (own seat.old.known.maker (seat.old.known.seen ++ between) ≡ seat.old.known.mine)
        × (seat.new.known.mine ≡ seat.old.known.mine ++ Cancel 9 job ∷ [])
        × (seat.new.known.maker ≡ seat.old.known.maker)) }
    ensures refused { seat_asked_at seat.old.asked job ≢ None → IfErr result (λ refusal. IsAnswerTo (jamboree L.begun.grain) (core_at L.begun seat.new.known.seen) (Cancel 9 job) (Err refusal)) }
    ensures kept { (seat.new.asked ≡ seat.old.asked) × (seat.new.tenant ≡ 9) }
    ensures share { MatchResult result (λ _. seat.new.share ≡ seat.old.share + 1) (λ _. seat.new.share ≡ seat.old.share) }
    ensures listed { IfErr result (Contains (NoTenant ∷ NoJob ∷ [])) }
{
    desk.cancel(rt, seat, job)
}

/// What tenant 9 is told that it has left is what it has at the end of the history that its seat has then seen. There the tenant
/// is what its own steps make of it alone, and those of them that workers didn't make are the seat's own, as they were before.
/// Uses `desk::Desk::quota_seen` (`look`, `left`).
pub fn quota_of_nine<L: DeskLedger, A: Allocator + Clone, R: Wait>(
    rt: &R,
    desk: &Desk<L, A>,
    seat: &mut Seat<L>,
) -> Result<Left, Refusal>
    requires nine { seat.old.tenant ≡ 9 }
    ensures left { result ≡ found_or_no_tenant (left_in_core (core_at L.begun seat.new.known.seen) 9) }
    ensures alone { tenant_in (core_at L.begun seat.new.known.seen).tenants 9 ≡ alone (jamboree L.begun.grain) (only 9 (steps_of seat.new.known.seen)) }
    ensures own { seat_steps 9 (steps_of seat.new.known.seen) ≡ seat.old.known.mine }
{
    desk.quota_seen(rt, seat)
}

/// How many frames and words tenant 9 is told that it has is what it has at the end of the history that its seat has
/// then seen. There the tenant is what its own steps make of it alone, and those of them that workers didn't make are
/// the seat's own. Uses `desk::Desk::live_seen` (`look`, `live`).
pub fn live_of_nine<L: DeskLedger, A: Allocator + Clone, R: Wait>(
    rt: &R,
    desk: &Desk<L, A>,
    seat: &mut Seat<L>,
) -> Result<(usize, usize), Refusal>
    requires nine { seat.old.tenant ≡ 9 }
    ensures live { result ≡ found_or_no_tenant (live_of (core_at L.begun seat.new.known.seen) 9) }
    ensures alone { tenant_in (core_at L.begun seat.new.known.seen).tenants 9 ≡ alone (jamboree L.begun.grain) (only 9 (steps_of seat.new.known.seen)) }
    ensures own { seat_steps 9 (steps_of seat.new.known.seen) ≡ seat.old.known.mine }
{
    desk.live_seen(rt, seat)
}

/// What tenant 9 is told of a job that it asked for: what that job has come to at the end of the history that its seat has
/// then seen. Uses `desk::Desk::wait_seen` (`look`, `shown`, `told`).
pub fn job_of_nine<L: DeskLedger, A: Allocator + Clone, R: Wait>(
    rt: &R,
    desk: &Desk<L, A>,
    seat: &mut Seat<L>,
    job: u64,
) -> Result<Outcome, Refusal>
    requires nine { seat.old.tenant ≡ 9 }
    ensures told { (asked : SeatAskedOf) → seat_asked_at seat.old.asked job ≡ Some asked → (told : Option OutcomeOf)
        × IsOutcomeIn (job_of (core_at L.begun seat.new.known.seen) 9 job) told × IsToldBy (Some asked) told result }
    ensures none { seat_asked_at seat.old.asked job ≡ None → result ≡ Err NoJob }
    ensures own { seat_steps 9 (steps_of seat.new.known.seen) ≡ seat.old.known.mine }
{
    desk.wait_seen(rt, seat, job)
}

/// Tenant 9 leaves: the history then ends with just its Leave, which is the last of the seat's own steps, and all seat steps of
/// tenant 9 in it are the seat's own. Uses `desk::Desk::leave_seen` (`told`, `true_to`).
pub fn nine_leaves<L: DeskLedger, A: Allocator + Clone, R: Wait>(
    rt: &R,
    desk: &Desk<L, A>,
    seat: Seat<L>,
) -> Trace<Step<Jamboree>, L>
    requires parts { L.all ≡ L.parts }
    requires nine { seat.tenant ≡ 9 }
    ensures told { (between : List (ℕ × SearchStep))
        × (result.seen ≡ (seat.known.seen ++ between) ++ (seat.known.maker, Leave 9) ∷ [])
        × (own seat.known.maker (seat.known.seen ++ between) ≡ seat.known.mine)
        × (result.mine ≡ seat.known.mine ++ Leave 9 ∷ [])
        × (result.maker ≡ seat.known.maker) }
    ensures legal { AreTaken (jamboree L.begun.grain) L.begun.shared (steps_of result.seen) }
    ensures own { seat_steps 9 (steps_of result.seen) ≡ result.mine }
{
    desk.leave_seen(rt, seat)
}

/// What two sessions of one server know is of one history: what each has seen is a beginning of it, all steps of each in it are
/// those that it knows, and each step of it was taken. Uses `desk::Desk::compare` (`one`, `other`, `history`, `legal`).
pub fn two_sessions<L: DeskLedger, A: Allocator + Clone, R: Wait>(
    rt: &R,
    desk: &Desk<L, A>,
    one: &mut Trace<Step<Jamboree>, L>,
    other: &mut Trace<Step<Jamboree>, L>,
)
    ensures begin { IsPrefix one.old.seen one.new.seen × IsPrefix other.old.seen one.new.seen }
    ensures own { (own one.old.maker one.new.seen ≡ one.old.mine) × (own other.old.maker one.new.seen ≡ other.old.mine) }
    ensures legal { AreTaken (jamboree L.begun.grain) L.begun.shared (steps_of one.new.seen) }
{
    desk.compare(rt, one, other)
}

/// A desk's end, and what a seat knew when it left: the hall's core is the one to which the steps of one history lead, and each of these
/// was taken. The history goes on from what the seat had seen, and the seat's steps in it are those that it knew. Where all shares are
/// there, the hall's count is that of the first hall and the whole share: nobody counted a step that nobody made.
/// Uses `desk::Desk::into_hall_seen` (`come`, `parts`, `count`, `whole`).
pub fn the_end_of_a_desk<L: DeskLedger, A: Allocator + Clone>(
    desk: Desk<L, A>,
    badge: Badge<L>,
    trace: &mut Trace<Step<Jamboree>, L>,
) -> (Hall<A>, Option<Share<L>>, History<Step<Jamboree>, L>)
    requires { L.all ≡ L.parts }
    ensures grain { result.0.grain ≡ L.begun.grain }
    ensures core { result.0.shared ≡ core_at L.begun result.2 }
    ensures legal { AreTaken (jamboree L.begun.grain) L.begun.shared (steps_of result.2) }
    ensures seen { IsPrefix trace.old.seen result.2 }
    ensures own { own trace.old.maker result.2 ≡ trace.old.mine }
    ensures parts { IfSome result.1 (λ whole. whole.parts ≡ L.parts) }
    ensures kept { OnSome result.1 (count_of result.0 ≡ result.0.kept + badge) }
    ensures whole { IfSome result.1 (λ whole. count_of result.0 ≡ count_of L.begun + whole.amount) }
{
    let (hall, whole, mut history) = desk.into_hall_seen(badge);
    history.show(trace);
    (hall, whole, history)
}
