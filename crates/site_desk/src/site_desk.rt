//! The desk.
ghost use Rattle.std.specs.Prelude.{◌≡◌, ◌≢◌, ◌≤◌, length, Err, None, Contains, IfErr, IfOk, IfSome, MatchResult, is_some, true, false, ◌==◌, ◌&&◌};
ghost use Rattle.std.specs.Sync.Mutex.{mutex_guard_value};
ghost use Rattle.sched_rules.specs.declared.refusal.Refusal.TheVariants.{NoJob, NoTenant};
ghost use Rattle.sched_rules.specs.declared.step.StepOf.TheVariants.{Submit, Cancel, Leave};
ghost use Rattle.sched_rules.specs.Views.{left_in_core, live_of as live_in_core};
ghost use Rattle.site_desk.specs.declared.turned.Turned.TheVariants.{OldTenant as NumbersOut};
ghost use Rattle.hall.specs.jamboree_rules.Places.{root_words, frame_size};
ghost use Rattle.hall.specs.jamboree_rules.Procedure.{jamboree};
ghost use Rattle.hall.specs.jamboree_rules.othello_eval.othello_moves.declared.choices.TheConstants.{DEEPEST};
ghost use Rattle.hall.specs.desk_rules.Asked.{found_or_no_tenant, ask_refusals, cancel_refusals, seat_asked_at, IsShown};
ghost use Rattle.desk.specs.Seats.{seeing, stepped, IsAsked};
ghost use Rattle.desk.specs.Histories.{core_at, steps_of, AreTaken, IsLook, IsShownAt, IsToldOf, IsTrueTo, Saw, Took};
ghost use Rattle.site_book.specs.declared.event.BookEvent.TheVariants.{Closes, Raises};
ghost use Rattle.site_book.specs.declared.held.Group.TheVariants.{Own};
ghost use Rattle.site_book.specs.Grants.{used};
ghost use Rattle.site_book.specs.Plans.{limit_of};
ghost use Rattle.site_desk.specs.Entries.{IsEntry};
ghost use Rattle.site_desk.specs.Granted.{book_at, IsBookLook, IsGrantedFrom, IsNotReplanned, IsPartOnce, IsReplannedBy};
ghost use Rattle.site_desk.specs.Seats.{IsRaiseTold};

use crate::badge::SiteBadge;
use crate::entry::SeatOutcome;
use crate::locked_site::LockedSite;
use crate::naming::SiteNaming;
use crate::seat::{BookTrace, SiteSeat, SiteTrace};
use crate::stock::SiteStock;
use crate::turned::Turned;
use arrayvec::ArrayVec;
use desk::reading::{left_of, live_of};
use desk::{DeskGuard, DeskLock, Kept};
use hall::{Outcome, Refusal};
use jamboree_rules::pool_rules::{Holding, Task};
use othello_board::position_text::Position;
use site_book::{
    Amount, BookRefusal, Comer, Group, MOST, Overrun, Plan, Present, SessionMark, Told, Whom,
};
use std::alloc::{Allocator, Global};
use std::marker::Model;
use std::sync::{Condvar, MutexGuard, Wait};
use std::time::Duration;
use steal_pool::{Gate, Round, Tasks, Workplace, steps};
use tenant_quota::{Left, Reserve};

/// A hall with its book and its roll under a lock, and the conditions that workers, seats and comers wait for. `A` is the hall's
/// allocator.
pub struct SiteDesk<J: SiteNaming, A: Allocator = Global> {
    /// Its number.
    at: u64,
    lock: DeskLock<LockedSite<J, A>>,
    /// Where who comes waits until a session has left.
    left: Condvar,
}

// Clauses see its number.
impl<J: SiteNaming, A: Allocator> Model for SiteDesk<J, A> {
    ghost use Rattle.std.specs.Prelude.{ℕ};

    ghost Value = { ℕ };

    ghost view = { λ d. d.at };
}

// By hand: were it derived, each crate that holds a desk would have to prove again that all its parts are dropped.
impl<J: SiteNaming, A: Allocator> Drop for SiteDesk<J, A> {
    /// Drops the lock with what lies under it.
    fn drop(self) {
        let SiteDesk {
            at: _,
            lock: _lock,
            left: _left,
        } = self;
    }
}

impl<J: SiteNaming, A: Allocator + Clone> SiteDesk<J, A> {
    /// Puts a hall with its book, where nobody is, under a lock. The desk has this number.
    pub fn new(at: u64, stock: SiteStock<A>) -> SiteDesk<J, A>
        requires history { stock.opened ≡ J.table at }
        requires begun { stock.hall ≡ J.begun at }
        requires granted { stock.granted ≡ J.granted at }
        requires plan { stock.book.plan ≡ J.plan at }
        ensures { result ≡ at }
    {
        SiteDesk {
            at,
            lock: DeskLock::new(LockedSite::new(at, stock)),
            left: Condvar::new(),
        }
    }

    /// What a lock gave, which is this desk's: it has this one's number, as it was made with it. What lies behind a lock is known by its type
    /// alone, and all desks of a site have one, so it is looked at; were it another's the call would never return.
    fn own<'d, R: Wait>(
        &self,
        rt: &R,
        kept: MutexGuard<'d, Kept<LockedSite<J, A>>>,
    ) -> MutexGuard<'d, Kept<LockedSite<J, A>>>
        ensures { (mutex_guard_value result).value.at ≡ self.now }
    {
        if kept.value.at() != self.at {
            for _ in rt.forever() {}
            unreachable!()
        }
        kept
    }

    /// Takes the desk's lock, and gives what lies under it.
    fn enter<R: Wait>(&self, rt: &R) -> MutexGuard<'_, Kept<LockedSite<J, A>>>
        ensures { (mutex_guard_value result).value.at ≡ self.now }
    {
        self.own(rt, self.lock.enter(rt))
    }

    /// One asks for a session: where the book allows it the tenant is admitted, the grant entered and the session listed, under one
    /// lock. `Later` where it is refused now, but there is room once those have left who were told to end; the idlest guest is one of
    /// them from now on where it is refused as all guests together have too much, and that helps. `Turned` away else; then nothing
    /// has changed. Who was told to end is woken, if it waits for a job.
    pub fn come<R: Wait>(&self, rt: &R, comer: &Comer) -> SeatOutcome<SiteSeat<J>>
        ensures { IsEntry (J.begun self.now) (J.plan self.now) self.now comer.now.who comer.now.ask result }
    {
        let came = self.enter(rt).value.come(comer);
        if let SeatOutcome::Later {
            ending: Some(session),
            ..
        } = &came
        {
            self.lock.ring(*session);
        }
        came
    }

    /// Waits until another number of sessions has left than `seen`, at most so long; now and then for no reason.
    pub fn await_left<R: Wait>(&self, rt: &R, seen: u64, most: Duration) {
        let rung = self.left.notifications();
        let left = self.lock.enter(rt).value.left();
        if left == seen {
            self.left.sleep(rt, rung, most);
        }
    }

    /// Raises what the session reserves to `ask`, where the book allows it: in the hall and in the book, or in neither. Turned away
    /// only by the book (a seat of another desk as one that is gone), or for want of memory.
    pub fn reserve<R: Wait>(
        &self,
        rt: &R,
        seat: &mut SiteSeat<J>,
        ask: Reserve,
    ) -> Result<(), Turned>
        ensures told { IsRaiseTold (J.begun self.now) seat.old.seat ask result seat.new.seat }
        ensures granted { MatchResult result (λ _. Took seat.old.books (Raises seat.old.who seat.old.seat.tenant ask) seat.new.books) (λ _. seat.new.books ≡ seat.old.books) }
        ensures seat { seat.new ≡ record seat.old { seat = seat.new.seat; books = seat.new.books } }
        ensures refused { result ≢ Err NumbersOut }
    {
        if seat.at != self.at {
            return Err(Turned::ByBook(BookRefusal::Gone));
        }
        self.enter(rt).value.raise(seat, ask)
    }

    /// Submits a search of this position to a depth of 0 to 12 plies, and returns the job's number without waiting for the job. The
    /// number is the new length of the seat's list. Wakes one worker that waits for a frame. Refused with `NoJobsLeft` where that
    /// list has 256 entries, else only with `NoNodes`, `NoSegments` or `NoTenant` (a seat of another desk always); then the hall is
    /// unchanged, and the seat but for what it has seen.
    pub fn ask<R: Wait>(
        &self,
        rt: &R,
        seat: &mut SiteSeat<J>,
        position: &Position,
        depth: u8,
    ) -> Result<u64, Refusal>
        requires { depth ≤ DEEPEST }
        ensures asked { IsAsked (record { board = position.now.board; depth = depth }) seat.old.seat result seat.new.seat }
        ensures full { length seat.old.seat.asked ≡ 256 → seat.new ≡ seat.old }
        ensures told { seat.old.at ≡ self.now → length seat.old.seat.asked ≢ 256 → IsToldOf (J.begun self.now) seat.old.seat.known (Submit seat.old.seat.tenant (root_words position.now.board.own position.now.board.opp depth) frame_size) result seat.new.seat.known }
        ensures refused { IfErr result (Contains ask_refusals) }
        ensures seat { seat.new ≡ record seat.old { seat = seat.new.seat } }
    {
        if seat.at != self.at {
            return Err(seat.ask_elsewhere());
        }
        let job = self.enter(rt).value.ask(seat, position, depth)?;
        self.lock.wake_worker();
        Ok(job)
    }

    /// How a job stands now, without waiting for it. `NoJob` exactly where its number is 0 or above the length of the seat's list;
    /// there is no other refusal. It is `Done` only with a reply to the board and the depth at its place in that list. The seat has then
    /// seen the history so far, and the answer is what its end tells of the job; a seat of another desk is told that it is pending.
    pub fn get<R: Wait>(&self, rt: &R, seat: &mut SiteSeat<J>, job: u64) -> Result<Outcome, Refusal>
        ensures shown { IsShown (seat_asked_at seat.new.seat.asked job) result }
        ensures look { seat.old.at ≡ self.now → IsLook (J.begun self.now) seat.old.seat seat.new.seat }
        ensures told { seat.old.at ≡ self.now → IsShownAt (J.begun self.now) seat.new.seat job result }
        ensures seat { seat.new ≡ record seat.old { seat = seeing seat.new.seat.known seat.old.seat } }
    {
        if seat.at != self.at {
            return seat.told_elsewhere(job);
        }
        self.enter(rt).value.get(seat, job)
    }

    /// Waits until a job has ended, the session is told to end, or the desk is closed, and answers as `get` does then. The session
    /// counts as waiting from `now` on: `mark` says when it doesn't any more. Where the hall has no such job it answers at once.
    pub fn wait<R: Wait>(
        &self,
        rt: &R,
        seat: &mut SiteSeat<J>,
        job: u64,
        now: u64,
    ) -> Result<Outcome, Refusal>
        ensures shown { IsShown (seat_asked_at seat.new.seat.asked job) result }
        ensures look { seat.old.at ≡ self.now → IsLook (J.begun self.now) seat.old.seat seat.new.seat }
        ensures told { seat.old.at ≡ self.now → IsShownAt (J.begun self.now) seat.new.seat job result }
        ensures seat { seat.new ≡ record seat.old { seat = seeing seat.new.seat.known seat.old.seat } }
    {
        if seat.at != self.at {
            return seat.told_elsewhere(job);
        }
        let number = seat.number();
        let mut kept = self.lock.enter(rt);
        kept.value
            .mark(Whom::One(number), SessionMark::Waits(true, now));
        let mut kept = self.own(rt, self.lock.await_job(rt, kept, number, job));
        kept.value.get(seat, job)
    }

    /// Cancels a job that hasn't ended: its frames are removed, and who waits for it is woken. `NoJob` where its number is 0 or above the
    /// length of the seat's list, or it has ended; the only other refusal is `NoTenant`, as of a seat of another desk.
    pub fn cancel<R: Wait>(&self, rt: &R, seat: &mut SiteSeat<J>, job: u64) -> Result<(), Refusal>
        ensures share { MatchResult result (λ _. seat.new.seat ≡ stepped seat.new.seat.known seat.old.seat) (λ _. seat.new.seat ≡ seeing seat.new.seat.known seat.old.seat) }
        ensures none { seat_asked_at seat.old.seat.asked job ≡ None → (result ≡ Err NoJob) × (seat.new ≡ seat.old) }
        ensures told { seat.old.at ≡ self.now → seat_asked_at seat.old.seat.asked job ≢ None → IsToldOf (J.begun self.now) seat.old.seat.known (Cancel seat.old.seat.tenant job) result seat.new.seat.known }
        ensures refused { IfErr result (Contains cancel_refusals) }
        ensures seat { seat.new ≡ record seat.old { seat = seat.new.seat } }
    {
        if seat.at != self.at {
            return Err(seat.cancel_elsewhere(job));
        }
        self.enter(rt).value.cancel(seat, job)?;
        self.lock.ring(seat.number());
        Ok(())
    }

    /// The segments, nodes and steps that the session has left when the lock is taken. The seat has then seen the history so far, and the
    /// numbers are its tenant's at its end. The only refusal is `NoTenant`, as of a seat of another desk.
    pub fn quota<R: Wait>(&self, rt: &R, seat: &mut SiteSeat<J>) -> Result<Left, Refusal>
        ensures look { seat.old.at ≡ self.now → IsLook (J.begun self.now) seat.old.seat seat.new.seat }
        ensures left { seat.old.at ≡ self.now → result ≡ found_or_no_tenant (left_in_core (core_at (J.begun self.now) seat.new.seat.known.seen) seat.new.seat.tenant) }
        ensures refused { IfErr result (λ refusal. refusal ≡ NoTenant) }
        ensures seat { seat.new ≡ record seat.old { seat = seeing seat.new.seat.known seat.old.seat } }
    {
        if seat.at != self.at {
            return Err(Refusal::NoTenant);
        }
        let mut kept = self.enter(rt);
        kept.value.show(seat);
        left_of(kept.value.hall(), seat.number())
    }

    /// How many frames the session has, and how many words these have together. The seat has then seen the history so far, and the numbers
    /// are its tenant's at its end. The only refusal is `NoTenant`, as of a seat of another desk.
    pub fn live<R: Wait>(&self, rt: &R, seat: &mut SiteSeat<J>) -> Result<(usize, usize), Refusal>
        ensures look { seat.old.at ≡ self.now → IsLook (J.begun self.now) seat.old.seat seat.new.seat }
        ensures live { seat.old.at ≡ self.now → result ≡ found_or_no_tenant (live_in_core (core_at (J.begun self.now) seat.new.seat.known.seen) seat.new.seat.tenant) }
        ensures refused { IfErr result (λ refusal. refusal ≡ NoTenant) }
        ensures seat { seat.new ≡ record seat.old { seat = seeing seat.new.seat.known seat.old.seat } }
    {
        if seat.at != self.at {
            return Err(Refusal::NoTenant);
        }
        let mut kept = self.enter(rt);
        kept.value.show(seat);
        live_of(kept.value.hall(), seat.number())
    }

    /// What the seat's customer may have at this desk, and what it has there. Where the seat is one of this desk it has then seen what the book
    /// granted so far, and the amounts are its customer's at the end of that. A seat of another desk sees nothing, and the amounts are as `part`
    /// tells them.
    pub fn budget<R: Wait>(&self, rt: &R, seat: &mut SiteSeat<J>) -> (Amount, Amount)
        ensures look { seat.old.at ≡ self.now → IsBookLook (J.plan self.now) seat.old.books seat.new.books }
        ensures may { seat.old.at ≡ self.now → result.0 ≡ limit_of (book_at (J.plan self.now) seat.new.books.seen).plan (Own seat.old.who) }
        ensures has { seat.old.at ≡ self.now → result.1 ≡ used (Own seat.old.who) (book_at (J.plan self.now) seat.new.books.seen).grants }
        ensures elsewhere { seat.old.at ≢ self.now → (seat.new ≡ seat.old) × IsPartOnce (J.plan self.now) (Own seat.old.who) result }
        ensures seat { seat.new ≡ record seat.old { books = seat.new.books } }
    {
        let part = Group::Own(seat.who());
        if seat.at != self.at {
            return self.part(rt, part);
        }
        let mut kept = self.enter(rt);
        kept.value.show_book(seat);
        kept.value.part(part)
    }

    /// What some of the sessions may have together, and what they have: as at the end of a history of what this desk's book granted, which
    /// no seat has seen.
    pub fn part<R: Wait>(&self, rt: &R, part: Group) -> (Amount, Amount)
        ensures { IsPartOnce (J.plan self.now) part result }
    {
        self.enter(rt).value.part(part)
    }

    /// The session leaves, and the seat is used up: its tenant with its jobs and frames is gone, its grant is taken back, and it is
    /// listed no more. All who wait for one to leave are woken. Gives back what the seat then knows of the history, which ends with its
    /// tenant's Leave, the last step of its own: each step of it was taken, and those of the tenant that workers didn't make are just its
    /// own. `None` exactly where the seat is another desk's: then it leaves nothing.
    pub fn leave<R: Wait>(&self, rt: &R, seat: SiteSeat<J>) -> Option<SiteTrace<J>>
        ensures left { is_some result ≡ (seat.at == self.now) }
        ensures told { IfSome result (λ trace. (trace.at ≡ seat.at) × Took seat.seat.known (Leave seat.seat.tenant) trace.known × IsTrueTo (J.begun seat.at) seat.seat.tenant trace.known) }
        ensures closed { IfSome result (λ trace. Took seat.books (Closes seat.who seat.seat.tenant) trace.books × IsGrantedFrom (J.plan seat.at) trace.books.seen) }
    {
        if seat.at != self.at {
            return None;
        }
        let trace = self.enter(rt).value.leave(seat);
        self.left.notify_all();
        Some(trace)
    }

    /// Lets two makers see the history so far, as what two sessions knew when they left this desk: both speak of one history. What each
    /// had seen is a beginning of it, its own steps are all its steps in it, and each step of it was taken. False where one is of another
    /// desk; then nothing changes. The same of what the book granted.
    pub fn compare<R: Wait>(&self, rt: &R, one: &mut SiteTrace<J>, other: &mut SiteTrace<J>) -> bool
        ensures own { result ≡ (one.old.at == self.now && (other.old.at == self.now)) }
        ensures one { result ≡ true → (one.new.at ≡ one.old.at) × Saw one.old.known one.new.known }
        ensures other { result ≡ true → (other.new.at ≡ other.old.at) × Saw other.old.known other.new.known }
        ensures history { result ≡ true → one.new.known.seen ≡ other.new.known.seen }
        ensures legal { result ≡ true → AreTaken (jamboree (J.begun self.now).grain) (J.begun self.now).shared (steps_of one.new.known.seen) }
        ensures books { result ≡ true → IsBookLook (J.plan self.now) one.old.books one.new.books × IsBookLook (J.plan self.now) other.old.books other.new.books × (one.new.books.seen ≡ other.new.books.seen) }
        ensures elsewhere { result ≡ false → (one.new ≡ one.old) × (other.new ≡ other.old) }
    {
        if one.at != self.at || other.at != self.at {
            return false;
        }
        self.enter(rt).value.compare(one, other);
        true
    }

    /// Puts this mark (it spoke, or doesn't wait any more) at the sessions of the desk that are meant.
    pub fn mark<R: Wait>(&self, rt: &R, whom: Whom, mark: SessionMark) {
        self.lock.enter(rt).value.mark(whom, mark);
    }

    /// Tells these sessions to end, and wakes those of them that wait for a job. Their own threads leave.
    pub fn tell<R: Wait>(&self, rt: &R, whom: Whom, why: Told) {
        self.lock.enter(rt).value.mark(whom, SessionMark::Told(why));
        self.lock.ring_all();
    }

    /// Tells those to end that don't stay under another plan, as `tell` does.
    pub fn tell_by<R: Wait>(&self, rt: &R, plan: &Plan) {
        self.lock.enter(rt).value.tell_by(plan);
        self.lock.ring_all();
    }

    /// Whether the session is there and wasn't told to end.
    pub fn stays<R: Wait>(&self, rt: &R, seat: &SiteSeat<J>) -> bool {
        seat.at == self.at && self.lock.enter(rt).value.stays(seat.number())
    }

    /// Goes on by another plan where nothing forbids it, and returns the one that was there, with what is then known of what the book granted:
    /// the history so far, each event of which was granted, and this plan, which is its last event and the only one of its maker. Else returns
    /// the plan, and why it doesn't come in: that is why the book at the end of the history so far refuses it. No plan is dropped under the
    /// lock.
    pub fn reload<R: Wait>(
        &self,
        rt: &R,
        plan: Plan,
    ) -> Result<(Plan, BookTrace<J>), (Plan, BookRefusal)>
        ensures came { IfOk result (λ came. (came.1.at ≡ self.now) × IsReplannedBy (J.plan self.now) plan came.0 came.1.books) }
        ensures refused { IfErr result (λ refused. (refused.0 ≡ plan) × IsNotReplanned (J.plan self.now) plan refused.1) }
    {
        self.enter(rt).value.replan(plan)
    }

    /// By how much each session's customer has more than a plan allows, in the order of the sessions; `None` where it hasn't.
    pub fn overruns<R: Wait>(&self, rt: &R, plan: &Plan) -> ArrayVec<Option<Overrun>, MOST> {
        self.lock.enter(rt).value.overruns(plan)
    }

    /// The entries of all sessions that are there, in the order in which they came.
    pub fn roll<R: Wait>(&self, rt: &R) -> ArrayVec<Present, MOST> {
        self.lock.enter(rt).value.listed()
    }

    /// A new badge, with which a worker offers steps. Its share is 0.
    pub fn badge(&self) -> SiteBadge
        ensures { result ≡ 0 }
    {
        SiteBadge::new()
    }

    /// Locks the desk for several steps of the worker with this badge: until [`DeskGuard::release`] all other threads wait. If the
    /// lock is free at the first try, the badge's backoff gets a little shorter; else it is doubled, up to what the last leaf's depth
    /// makes worth it, and the worker waits that long before each further try.
    pub fn hold<R: Wait>(&self, rt: &R, badge: &mut SiteBadge) -> DeskGuard<'_, LockedSite<J, A>>
        ensures { badge.new ≡ badge.old }
    {
        self.lock.hold(rt, badge)
    }

    /// Closes the desk for good, and wakes all who wait. From then on no worker and no seat waits: `next_task` returns `None`, and
    /// `wait` what `get` does. All other calls work as before, and no job or session is ended by this.
    pub fn close<R: Wait>(&self, rt: &R) {
        self.lock.close(rt);
    }

    /// How many steps the hall has taken since it was made.
    pub fn count<R: Wait>(&self, rt: &R) -> u128 {
        self.lock.enter(rt).value.hall().count()
    }
}

// Its users share the hall: a worker's picks are by who was served least or has waited longest.
impl<J: SiteNaming, A: Allocator + Clone> Workplace for SiteDesk<J, A> {
    type Badge = SiteBadge;

    /// A new worker's badge.
    fn badge<R: Wait>(&self, _rt: &R) -> Option<SiteBadge> {
        Some(self.badge())
    }

    /// Closes the desk: who waits there goes on.
    fn close<R: Wait>(&self, rt: &R) {
        self.close(rt);
    }

    /// Takes the desk's lock, lets the worker take its steps under it, lets the lock go, and wakes who waits for what
    /// became of them. Returns what the worker holds then.
    fn work<G: Gate, R: Wait>(
        &self,
        rt: &R,
        badge: &mut SiteBadge,
        tasks: &mut Tasks<'_>,
        gate: &G,
        round: Round,
    ) -> Holding {
        steps(rt, self.hold(rt, badge), badge, tasks, gate, round)
    }

    /// The task that comes next: the newest ready frame of the tenant that was served least, or, each fourth time, has
    /// waited longest; None where that tenant has none, or there is no such tenant. The frame isn't taken.
    fn pick<R: Wait>(&self, rt: &R) -> Option<Task> {
        self.lock.enter(rt).value.pick()
    }

    /// Waits until a frame is ready or the desk is closed, and returns the task that comes next: a pick, else any ready
    /// frame. None only where the desk is closed.
    fn next_task<R: Wait>(&self, rt: &R) -> Option<Task> {
        self.lock.next_task(rt)
    }
}
