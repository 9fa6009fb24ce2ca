//! What lies under a desk's lock: the hall with the history of its steps, and the book of the shares.
ghost use Rattle.std.specs.Prelude.{◌≡◌, ◌≢◌, ◌+◌, ◌^◌, ◌<◌, ◌≤◌, [], true, length, Err, None, Contains, IfErr, IfNone, IfOk, IfSome, OnSome, Option, MatchResult};
ghost use Rattle.sched_rules.specs.declared.refusal.Refusal.TheVariants.{NoJob, OutOfMemory};
ghost use Rattle.sched_rules.specs.declared.step.StepOf.TheVariants.{Admit, AdmitMore, Submit, Cancel, Leave};
ghost use Rattle.hall.specs.jamboree_rules.Places.{root_words, frame_size};
ghost use Rattle.hall.specs.jamboree_rules.Procedure.{jamboree};
ghost use Rattle.hall.specs.jamboree_rules.othello_eval.othello_moves.declared.choices.TheConstants.{DEEPEST};
ghost use Rattle.hall.specs.Journals.{is_worker_step};
ghost use Rattle.hall.specs.Halls.{count_of, IsDecided};
ghost use Rattle.sched_rules.specs.Cores.{tenant_in};
ghost use Rattle.sched_rules.specs.Views.{left_in_core, live_of, job_of};
ghost use Rattle.hall.specs.jamboree_core.declared.outcomes.Outcome.{Outcome as OutcomeOf};
ghost use Rattle.hall.specs.jamboree_core.Outcomes.{IsOutcomeIn};
ghost use Rattle.desk.specs.Seats.{admit_refusals, reserve_refusals, seeing, stepped, IsAsked};
ghost use Rattle.hall.specs.desk_rules.Asked.{ask_refusals, cancel_refusals, seat_asked_at, IsShown, IsToldBy, found_or_no_tenant};
ghost use Rattle.desk.specs.Histories.{core_at, steps_of, AreTaken, IsAtEndOf, IsSeated, IsLook, IsShownAt, IsToldOf, IsTrueTo, Saw, Took};
ghost use Rattle.desk.specs.Counts.{IsLeft, with_kept};
ghost use Rattle.desk.specs.Noted.{IsDone};

use crate::history::{History, Opened, Trace};
use crate::noted_hall::NotedHall;
use crate::reading::{has_ready, is_awaited, next_ready};
use crate::seat::Seat;
use crate::shares::{Badge, DeskLedger, PARTS};
use crate::under_lock::UnderLock;
use hall::desk_rules::Backoff;
use hall::{Hall, Jamboree, Outcome, Refusal, Step, StepAnswer};
use jamboree_rules::pool_rules::Task;
use othello_board::position_text::Position;
use std::alloc::{Allocator, Global};
use std::marker::{Model, PhantomData};
use std::sync::ledger::{Blank, Book, Share};
use tenant_quota::{Left, Reserve};

/// The most badges that one desk ever gives.
const BADGES: u64 = 1 << 62;

/// What lies under the desk's lock: the hall with the history of the steps taken since the desk was made, and the ledger that
/// counts them.
#[derive(Drop)]
pub struct LockedHall<L: DeskLedger, A: Allocator = Global> {
    noted: NotedHall<A>,
    /// Its total is the number of steps taken since the desk was made.
    book: Book<L>,
    /// The share that no seat and no badge has: parts that can be given, and the steps of seats that have left.
    spare: Share<L>,
    /// How many parts the spare share has.
    parts: u64,
    /// How many badges were given.
    badges: u64,
    /// How many steps the hall had taken before the desk was made.
    before: u128,
}

// Clauses see the hall, how many badges were given, and the history.
impl<L: DeskLedger, A: Allocator> Model for LockedHall<L, A> {
    ghost use Rattle.std.specs.Prelude.{◌≡◌, ◌+◌, ◌^◌, ◌≤◌};
    ghost use Rattle.hall.specs.Halls.{count_of};
    ghost use Rattle.desk.specs.Counts.{LockedHallOf};
    ghost use Rattle.desk.specs.Parts.{ledger_parts};
    ghost use Rattle.desk.specs.Noted.{HasCome};

    ghost Value = { LockedHallOf };

    ghost view = { λ k. record { hall = k.noted.hall; badges = k.badges; history = k.noted.history } };

    ghost invariant = { λ k. (count_of k.noted.hall ≡ k.before + k.book.total) × (k.noted.hall.kept ≡ k.before + k.spare.amount) × (k.spare.parts ≡ k.parts)
        × (L.all ≡ ledger_parts) × (k.parts ≤ ledger_parts) × (ledger_parts ≤ k.parts + k.badges + k.noted.hall.shared.newest) × (k.badges ≤ 2 ^ 62)
        × HasCome L.begun k.noted × (k.before ≡ count_of L.begun) × (k.noted.id ≡ L.table) };
}

impl<L: DeskLedger, A: Allocator + Clone> LockedHall<L, A> {
    /// A hall with a new ledger. The number of steps that it has taken so far is stored in the hall as its number
    /// `kept` (`Hall::keep`).
    pub(crate) fn new(
        hall: Hall<A>,
        blank: Blank,
        opened: Opened<Step<Jamboree>>,
    ) -> LockedHall<L, A>
        requires name { blank.name ≡ L.name }
        requires parts { (blank.parts ≡ L.parts) × (L.all ≡ L.parts) × (L.all ≡ PARTS) }
        requires history { opened ≡ L.table }
        requires begun { hall ≡ L.begun }
        ensures hall { result.hall ≡ record hall { kept = count_of hall } }
        ensures no_badges { result.badges ≡ 0 }
        ensures no_steps { result.history ≡ [] }
    {
        let (book, spare) = blank.open::<L>();
        let before = hall.count();
        let mut noted = NotedHall::new(hall, opened);
        noted.keep(before);
        LockedHall {
            noted,
            book,
            spare,
            parts: PARTS,
            badges: 0,
            before,
        }
    }

    /// Admits a tenant under the number after the greatest so far, and returns its seat. The seat's share, with one
    /// part of the spare one, is 1: it counts the admission. The refusals are the hall's: `Full`, `OldTenant`,
    /// `OutOfMemory`.
    pub(crate) fn admit(&mut self, reserve: Reserve) -> Result<Seat<L>, Refusal>
        ensures seat { IfOk result (λ seat. (seat.tenant ≡ self.old.hall.shared.newest + 1) × (seat.share ≡ 1) × (seat.asked ≡ [])) }
        ensures admitted { IfOk result (IsSeated reserve) }
        ensures new { IfOk result (λ seat. tenant_in L.begun.shared.tenants seat.tenant ≡ None) }
        ensures step { IsDone self.old.hall (Admit (self.old.hall.shared.newest + 1) reserve) result self.new.hall }
        ensures refused { IfErr result (Contains admit_refusals) }
        ensures others { self.new.badges ≡ self.old.badges }
    {
        let core = self.noted.admit(reserve)?;
        let mut mine = self.spare.split_off(1, 0);
        self.parts -= 1;
        self.book.add(&mut mine, 1);
        Ok(Seat {
            core,
            mine,
            steps: 1,
        })
    }

    /// Raises the reservation of a seat's tenant to this one. The refusals are the hall's: `NoTenant`, `Lower`, `Full`,
    /// `OutOfMemory`; then nothing changes.
    pub(crate) fn reserve(&mut self, seat: &mut Seat<L>, reserve: Reserve) -> Result<(), Refusal>
        ensures share { MatchResult result (λ _. seat.new ≡ stepped seat.new.known seat.old) (λ _. seat.new ≡ seeing seat.new.known seat.old) }
        ensures told { IsToldOf L.begun seat.old.known (AdmitMore seat.old.tenant reserve) result seat.new.known }
        ensures step { IsDone self.old.hall (AdmitMore seat.old.tenant reserve) result self.new.hall }
        ensures refused { IfErr result (Contains reserve_refusals) }
        ensures others { self.new.badges ≡ self.old.badges }
    {
        let answer = self.noted.reserve(&mut seat.core, reserve);
        tally(&mut self.book, &mut seat.mine, &mut seat.steps, &answer);
        answer
    }

    /// Submits the search of a position for a seat, adds it to the seat's list, and returns the job's number, the
    /// list's new length. Where the list has 256 entries the hall isn't asked, and the refusal is `NoJobsLeft`. At any
    /// refusal nothing changes.
    pub(crate) fn ask(
        &mut self,
        seat: &mut Seat<L>,
        position: &Position,
        depth: u8,
    ) -> Result<u64, Refusal>
        requires { depth ≤ DEEPEST }
        ensures others { self.new.badges ≡ self.old.badges }
        ensures asked { IsAsked (record { board = position.now.board; depth = depth }) seat.old result seat.new }
        ensures refused { IfErr result (Contains ask_refusals) }
        ensures full { length seat.old.asked ≡ 256 → (self.new ≡ self.old) × (seat.new ≡ seat.old) }
        ensures told { length seat.old.asked ≢ 256 → IsToldOf L.begun seat.old.known (Submit seat.old.tenant (root_words position.now.board.own position.now.board.opp depth) frame_size) result seat.new.known }
        ensures step { length seat.old.asked ≢ 256 → IsDone self.old.hall (Submit seat.old.tenant (root_words position.now.board.own position.now.board.opp depth) frame_size) result self.new.hall }
    {
        let answer = self.noted.ask(&mut seat.core, position, depth);
        tally(&mut self.book, &mut seat.mine, &mut seat.steps, &answer);
        answer
    }

    /// Cancels a seat's job. Where the seat asked for no job of this number the hall isn't asked, and the refusal is
    /// `NoJob`; the hall refuses with `NoJob` where the job has ended, and with `NoTenant`.
    pub(crate) fn cancel(&mut self, seat: &mut Seat<L>, job: u64) -> Result<(), Refusal>
        ensures share { MatchResult result (λ _. seat.new ≡ stepped seat.new.known seat.old) (λ _. seat.new ≡ seeing seat.new.known seat.old) }
        ensures none { seat_asked_at seat.old.asked job ≡ None → (result ≡ Err NoJob) × (self.new ≡ self.old) × (seat.new ≡ seat.old) }
        ensures told { seat_asked_at seat.old.asked job ≢ None → IsToldOf L.begun seat.old.known (Cancel seat.old.tenant job) result seat.new.known }
        ensures step { seat_asked_at seat.old.asked job ≢ None → IsDone self.old.hall (Cancel seat.old.tenant job) result self.new.hall }
        ensures others { self.new.badges ≡ self.old.badges }
        ensures refused { IfErr result (Contains cancel_refusals) }
    {
        let answer = self.noted.cancel(&mut seat.core, job);
        tally(&mut self.book, &mut seat.mine, &mut seat.steps, &answer);
        answer
    }

    /// Offers a worker's step to the hall; the badge's share counts it if the hall took it.
    pub(crate) fn offer(&mut self, badge: &mut Badge<L>, step: &Step<Jamboree>) -> StepAnswer
        requires worker { is_worker_step step.now ≡ true }
        requires few { badge.old + 1 < 2 ^ 64 }
        ensures share { MatchResult result (λ _. badge.new ≡ badge.old + 1) (λ _. badge.new ≡ badge.old) }
        ensures step { IsDecided self.old.hall step.now result self.new.hall }
        ensures others { self.new.badges ≡ self.old.badges }
        ensures memory { result ≢ Err OutOfMemory }
    {
        let answer = self.noted.offer(&mut badge.token, step);
        tally(&mut self.book, &mut badge.mine, &mut badge.steps, &answer);
        answer
    }

    /// How a seat's job stands, as `shown` tells it; `NoJob` where the seat asked for no job of this number.
    pub(crate) fn get(&self, seat: &Seat<L>, job: u64) -> Result<Outcome, Refusal>
        ensures shown { IsShown (seat_asked_at seat.now.asked job) result }
        ensures told { (told : Option OutcomeOf) × IsOutcomeIn (job_of self.now.hall.shared seat.now.tenant job) told × IsToldBy (seat_asked_at seat.now.asked job) told result }
    {
        self.noted.get(&seat.core, job)
    }

    /// Lets a seat see the history so far.
    fn show(&mut self, seat: &mut Seat<L>)
        ensures same { self.new ≡ self.old }
        ensures look { IsLook L.begun seat.old seat.new }
        ensures core { self.old.hall.shared ≡ core_at L.begun seat.new.known.seen }
    {
        self.noted.show(&mut seat.core);
    }

    /// Lets two makers see the history so far.
    pub(crate) fn compare(
        &mut self,
        one: &mut Trace<Step<Jamboree>, L>,
        other: &mut Trace<Step<Jamboree>, L>,
    )
        ensures same { self.new ≡ self.old }
        ensures one { Saw one.old one.new }
        ensures other { Saw other.old other.new }
        ensures history { one.new.seen ≡ other.new.seen }
        ensures legal { AreTaken (jamboree L.begun.grain) L.begun.shared (steps_of one.new.seen) }
    {
        self.noted.compare(&mut one.token, &mut other.token);
    }

    /// How a seat's job stands now, as `get` tells it; and the seat has then seen the history so far.
    pub(crate) fn get_seen(&mut self, seat: &mut Seat<L>, job: u64) -> Result<Outcome, Refusal>
        ensures look { IsLook L.begun seat.old seat.new }
        ensures shown { IsShown (seat_asked_at seat.new.asked job) result }
        ensures told { IsShownAt L.begun seat.new job result }
    {
        self.show(seat);
        self.get(seat, job)
    }

    /// What the seat's tenant has left; and the seat has then seen the history so far.
    pub(crate) fn quota_seen(&mut self, seat: &mut Seat<L>) -> Result<Left, Refusal>
        ensures look { IsLook L.begun seat.old seat.new }
        ensures left { result ≡ found_or_no_tenant (left_in_core (core_at L.begun seat.new.known.seen) seat.new.tenant) }
    {
        self.show(seat);
        self.quota(seat.tenant())
    }

    /// How many frames and words the seat's tenant has; and the seat has then seen the history so far.
    pub(crate) fn live_seen(&mut self, seat: &mut Seat<L>) -> Result<(usize, usize), Refusal>
        ensures look { IsLook L.begun seat.old seat.new }
        ensures live { result ≡ found_or_no_tenant (live_of (core_at L.begun seat.new.known.seen) seat.new.tenant) }
    {
        self.show(seat);
        self.live(seat.tenant())
    }

    /// How many steps the hall has taken since it was made, those before the desk included.
    pub(crate) fn count(&self) -> u128
        ensures { result ≡ count_of self.now.hall }
    {
        self.noted.hall().count()
    }

    /// The segments, nodes and steps that a tenant has left; `NoTenant` where it isn't there.
    pub(crate) fn quota(&self, tenant: u64) -> Result<Left, Refusal>
        ensures { result ≡ found_or_no_tenant (left_in_core self.now.hall.shared tenant) }
    {
        self.noted.quota(tenant)
    }

    /// How many frames a tenant has, and how many words these have together; `NoTenant` where it isn't there.
    pub(crate) fn live(&self, tenant: u64) -> Result<(usize, usize), Refusal>
        ensures { result ≡ found_or_no_tenant (live_of self.now.hall.shared tenant) }
    {
        self.noted.live(tenant)
    }

    /// A new badge with a share of 0, which has one part of the spare share. `None` only after 2^62 badges.
    pub(crate) fn badge(&mut self) -> Option<Badge<L>>
        ensures share { IfSome result (λ badge. badge ≡ 0) }
        ensures given { OnSome result (self.new ≡ record self.old { badges = self.old.badges + 1 }) }
        ensures none { IfNone result (self.old.badges ≡ 2 ^ 62) }
        ensures same { IfNone result (self.new ≡ self.old) }
    {
        if self.badges == BADGES {
            return None;
        }
        // This call tells the prover what `IsExplained` says of the tenants' numbers.
        let _next = self.noted.hall().next_tenant();
        let mine = self.spare.split_off(1, 0);
        let token = self.noted.begin();
        self.parts -= 1;
        self.badges += 1;
        Some(Badge {
            mine,
            token,
            steps: 0,
            parts: 1,
            backoff: Backoff::new(),
        })
    }

    /// A seat's tenant leaves: its jobs, frames and reservation are removed. The seat's steps and this one are added to the
    /// hall's number `kept`, and the seat's share to the spare one. What the seat then knows of the history is given back.
    /// The hall never refuses: the tenant is there, as its seat made its Admit and no Leave.
    pub(crate) fn leave(&mut self, seat: Seat<L>) -> Trace<Step<Jamboree>, L>
        requires { L.all ≡ L.parts }
        ensures told { Took seat.known (Leave seat.tenant) result }
        ensures true_to { IsTrueTo L.begun seat.tenant result }
        ensures step { IsLeft self.old.hall seat self.new.hall }
        ensures others { self.new.badges ≡ self.old.badges }
    {
        let Seat {
            core,
            mut mine,
            steps,
        } = seat;
        let token = self.noted.leave(core);
        self.book.add(&mut mine, 1);
        self.keep_share(mine, steps + 1);
        Trace {
            token,
            of: PhantomData,
        }
    }

    /// Adds the share of a seat that has left to the spare one, and its number of steps to the hall's number `kept`.
    fn keep_share(&mut self, mine: Share<L>, steps: u128)
        requires all { L.all ≡ L.parts }
        requires amount { mine.amount ≡ steps }
        requires part { mine.parts ≡ 1 }
        ensures { self.new ≡ with_kept steps self.old }
    {
        self.spare.merge(mine);
        self.book.audit(&mut self.spare);
        self.parts += 1;
        // This call tells the prover what `IsExplained` says of the counts.
        let _count = self.noted.hall().count();
        let kept = self.noted.hall().kept();
        self.noted.keep(kept + steps);
    }

    /// Takes the hall and its history out at the desk's end. Where this badge and the spare share have all parts of the
    /// ledger together, the share that has all parts comes too. Then the hall's count of steps is its number `kept`
    /// plus the badge's share, and that of the first hall plus the amount of the whole share. The hall has come by the
    /// history from the one that the desk was made with.
    pub(crate) fn closed(
        self,
        badge: Badge<L>,
    ) -> (Hall<A>, Option<Share<L>>, History<Step<Jamboree>, L>)
        requires { L.all ≡ L.parts }
        ensures same { result.0 ≡ self.hall }
        ensures history { result.2 ≡ self.history }
        ensures come { IsAtEndOf L.begun result.2 result.0 }
        ensures parts { IfSome result.1 (λ whole. whole.parts ≡ L.parts) }
        ensures count { OnSome result.1 (count_of result.0 ≡ result.0.kept + badge) }
        ensures whole { IfSome result.1 (λ whole. count_of result.0 ≡ count_of L.begun + whole.amount) }
    {
        let LockedHall {
            noted,
            mut book,
            mut spare,
            parts,
            ..
        } = self;
        let (hall, log) = noted.into_parts();
        let history = History {
            log,
            of: PhantomData,
        };
        let Badge {
            mine,
            parts: out,
            ..
        } = badge;
        if PARTS - parts != out {
            return (hall, None, history);
        }
        spare.merge(mine);
        book.audit(&mut spare);
        (hall, Some(spare), history)
    }
}

impl<L: DeskLedger, A: Allocator + Clone> UnderLock for LockedHall<L, A> {
    ghost use Rattle.hall.specs.Halls.{IsDecided};
    ghost use Rattle.desk.specs.Counts.{IsNextReady, has_ready, is_awaited};

    type Badge = Badge<L>;

    ghost is_offered = { λ before step answer after. IsDecided before.hall step answer after.hall };

    ghost has_ready = { λ kept. has_ready kept.hall.shared };

    ghost waits_on = { λ kept tenant job. is_awaited kept.hall.shared tenant job };

    ghost is_next = { λ before task after. (after ≡ before) × IsNextReady before.hall.shared task };

    // Nobody shares a desk's hall, so nothing that was picked would be fair, and nobody is charged.
    ghost is_fair = { λ _ _. ⊥ };

    /// Offers a worker's step to the hall, and counts it in the badge's share where it is taken.
    fn offer(&mut self, badge: &mut Badge<L>, step: &Step<Jamboree>) -> StepAnswer {
        self.offer(badge, step)
    }

    /// Whether some tenant has a ready frame.
    fn has_ready(&self) -> bool {
        has_ready(self.noted.hall())
    }

    /// Whether there is a job of this number of the tenant that hasn't ended, so that a seat waits on for it.
    fn waits_on(&self, tenant: u64, job: u64) -> bool {
        is_awaited(self.noted.hall(), tenant, job)
    }

    /// A ready frame of some tenant with its home, as a task; None where none is ready. The frame isn't taken.
    fn next_task(&mut self) -> Option<Task> {
        next_ready(self.noted.hall())
    }

    /// None: nobody shares the hall of this desk, so it has no picks.
    fn pick(&mut self) -> Option<Task> {
        None
    }

    /// Does nothing: this desk keeps no account of what its tenants were served.
    fn charge(&mut self, _tenant: u64, _amount: u64) {}
}

/// Counts a step with this answer where it was taken: in the share of who made it, in the number beside that, and in the book.
fn tally<L: DeskLedger, X>(
    book: &mut Book<L>,
    mine: &mut Share<L>,
    steps: &mut u128,
    answer: &Result<X, Refusal>,
)
    requires part { 0 < mine.old.parts }
    requires amount { mine.old.amount ≡ steps.old }
    requires few { steps.old < 2 ^ 100 }
    ensures steps { MatchResult answer.now (λ _. steps.new ≡ steps.old + 1) (λ _. steps.new ≡ steps.old) }
    ensures total { MatchResult answer.now (λ _. book.new.total ≡ book.old.total + 1) (λ _. book.new.total ≡ book.old.total) }
    ensures amount { mine.new.amount ≡ steps.new }
    ensures parts { mine.new.parts ≡ mine.old.parts }
    ensures bound { mine.new.amount ≤ book.new.total }
{
    if answer.is_ok() {
        book.add(mine, 1);
        *steps += 1;
    }
    book.audit(mine);
}
