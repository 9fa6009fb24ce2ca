//! The desk: a hall under a lock, with a seat for each tenant and a badge for each worker.
ghost use Rattle.std.specs.Prelude.{◌≡◌, ◌≢◌, ℕ, ◌+◌, ◌≤◌, List, [], true, length, Err, Some, None, Contains, IfErr, IfOk, IfSome, OnSome, MatchResult};
ghost use Rattle.sched_rules.specs.declared.refusal.Refusal.TheVariants.{NoJob, NoTenant, OutOfMemory};
ghost use Rattle.hall.specs.Journals.{is_worker_step};
ghost use Rattle.hall.specs.Halls.{count_of};
ghost use Rattle.hall.specs.jamboree_rules.declared.leaf.LeafAnswer.{LeafAnswer};
ghost use Rattle.hall.specs.jamboree_rules.Places.{root_words, frame_size};
ghost use Rattle.hall.specs.jamboree_rules.Procedure.{jamboree};
ghost use Rattle.hall.specs.jamboree_rules.othello_eval.othello_moves.declared.choices.TheConstants.{DEEPEST};
ghost use Rattle.sched_rules.specs.declared.step.StepOf.{StepOf};
ghost use Rattle.sched_rules.specs.declared.step.StepOf.TheVariants.{AdmitMore, Submit, Cancel, Leave};
ghost use Rattle.sched_rules.specs.Cores.{tenant_in};
ghost use Rattle.sched_rules.specs.Views.{left_in_core, live_of};
ghost use Rattle.hall.specs.desk_rules.Asked.{found_or_no_tenant, ask_refusals, cancel_refusals, seat_asked_at, IsShown};
ghost use Rattle.desk.specs.Seats.{admit_refusals, reserve_refusals, seeing, stepped, IsAsked};
ghost use Rattle.desk.specs.Histories.{core_at, steps_of, AreTaken, IsAtEndOf, IsSeated, IsLook, IsShownAt, IsToldOf, IsTrueTo, Saw, Took};

use crate::desk_guard::DeskGuard;
use crate::history::{History, Opened, Trace};
use crate::lock::DeskLock;
use crate::locked_hall::LockedHall;
use crate::seat::Seat;
use crate::shares::{Badge, DeskLedger, PARTS};
use frame_table::FrameId;
use hall::{Hall, Jamboree, Outcome, Refusal, Step, StepAnswer};
use othello_board::position_text::Position;
use std::alloc::{Allocator, Global};
use std::sync::Wait;
use std::sync::ledger::{Blank, Share};
use tenant_quota::{Left, Reserve};

/// The hall under a lock at which workers and seats wait. `A` is the hall's allocator.
pub struct Desk<L: DeskLedger, A: Allocator = Global> {
    lock: DeskLock<LockedHall<L, A>>,
}

// By hand: were it derived, each crate that holds a desk would have to prove again that all its parts are dropped.
impl<L: DeskLedger, A: Allocator> Drop for Desk<L, A> {
    /// Drops the lock with the hall in it.
    fn drop(self) {
        let Desk { lock: _lock } = self;
    }
}

impl<L: DeskLedger, A: Allocator + Clone> Desk<L, A> {
    /// Puts a hall under a lock, with a new ledger that counts the steps from now on, and a new history
    /// ([`Opened::new`]) that they are written to.
    pub fn new(hall: Hall<A>, blank: Blank, opened: Opened<Step<Jamboree>>) -> Desk<L, A>
        requires name { blank.name ≡ L.name }
        requires parts { (blank.parts ≡ L.parts) × (L.all ≡ L.parts) × (L.all ≡ PARTS) }
        requires history { opened ≡ L.table }
        requires begun { hall ≡ L.begun }
    {
        Desk {
            lock: DeskLock::new(LockedHall::new(hall, blank, opened)),
        }
    }

    /// Admits a tenant under the number after the greatest so far, and returns its seat. The seat's share is 1, as its
    /// admission was a step. The hall that the desk was made with had no such tenant. The only refusals are `Full`, `OutOfMemory`, and `OldTenant` after 2^62 tenants.
    pub fn admit<R: Wait>(&self, rt: &R, reserve: Reserve) -> Result<Seat<L>, Refusal>
        ensures seat { IfOk result (λ seat. (seat.share ≡ 1) × (seat.asked ≡ [])) }
        ensures admitted { IfOk result (IsSeated reserve) }
        ensures new { IfOk result (λ seat. tenant_in L.begun.shared.tenants seat.tenant ≡ None) }
        ensures refused { IfErr result (Contains admit_refusals) }
    {
        self.lock.enter(rt).value.admit(reserve)
    }

    /// Raises the reservation of the seat's tenant to `reserve`, which has at least as many segments and nodes as it
    /// reserves now, and more of one of them. What it used stays used. The only refusals are `NoTenant`, `Lower` (no
    /// raise), `Full` and `OutOfMemory`; then the hall is unchanged, and the seat but for what it has seen.
    pub fn reserve<R: Wait>(
        &self,
        rt: &R,
        seat: &mut Seat<L>,
        reserve: Reserve,
    ) -> Result<(), Refusal>
        ensures share { MatchResult result (λ _. seat.new ≡ stepped seat.new.known seat.old) (λ _. seat.new ≡ seeing seat.new.known seat.old) }
        ensures told { IsToldOf L.begun seat.old.known (AdmitMore seat.old.tenant reserve) result seat.new.known }
        ensures refused { IfErr result (Contains reserve_refusals) }
    {
        self.lock.enter(rt).value.reserve(seat, reserve)
    }

    /// Submits a search of this position to a depth of 0 to 12 plies, and returns the job's number without waiting for
    /// the job. The number is the new length of the seat's list. Wakes one worker that waits for a frame. Refused with
    /// `NoJobsLeft` where that list has 256 entries, else only with `NoNodes`, `NoSegments` or `NoTenant`; then the hall
    /// is unchanged, and the seat but for what it has seen.
    pub fn ask<R: Wait>(
        &self,
        rt: &R,
        seat: &mut Seat<L>,
        position: &Position,
        depth: u8,
    ) -> Result<u64, Refusal>
        requires { depth ≤ DEEPEST }
        ensures asked { IsAsked (record { board = position.now.board; depth = depth }) seat.old result seat.new }
        ensures full { length seat.old.asked ≡ 256 → seat.new ≡ seat.old }
        ensures told { length seat.old.asked ≢ 256 → IsToldOf L.begun seat.old.known (Submit seat.old.tenant (root_words position.now.board.own position.now.board.opp depth) frame_size) result seat.new.known }
        ensures refused { IfErr result (Contains ask_refusals) }
    {
        let job = self.lock.enter(rt).value.ask(seat, position, depth)?;
        self.lock.wake_worker();
        Ok(job)
    }

    /// How a job stands now, without waiting for it. `NoJob` exactly where its number is 0 or above the length of the
    /// seat's list; there is no other refusal. It is `Done` only with a reply to the board and the depth at its place
    /// in that list.
    pub fn get<R: Wait>(&self, rt: &R, seat: &Seat<L>, job: u64) -> Result<Outcome, Refusal>
        ensures { IsShown (seat_asked_at seat.now.asked job) result }
    {
        self.lock.enter(rt).value.get(seat, job)
    }

    /// How a job stands now, as [`Desk::get`] tells it; and the seat has then seen the history so far: the answer is
    /// what its end tells of the job.
    pub fn get_seen<R: Wait>(
        &self,
        rt: &R,
        seat: &mut Seat<L>,
        job: u64,
    ) -> Result<Outcome, Refusal>
        ensures look { IsLook L.begun seat.old seat.new }
        ensures shown { IsShown (seat_asked_at seat.new.asked job) result }
        ensures told { IsShownAt L.begun seat.new job result }
    {
        self.lock.enter(rt).value.get_seen(seat, job)
    }

    /// Waits until a job has ended or the desk is closed, and answers as `get` does then: `Pending` where the desk was
    /// closed first. Where the hall has no such job it answers at once.
    pub fn wait<R: Wait>(&self, rt: &R, seat: &Seat<L>, job: u64) -> Result<Outcome, Refusal>
        ensures { IsShown (seat_asked_at seat.now.asked job) result }
    {
        let kept = self
            .lock
            .await_job(rt, self.lock.enter(rt), seat.tenant(), job);
        kept.value.get(seat, job)
    }

    /// Waits for a job of the seat, as [`Desk::wait`] does, and returns how it stands then. The seat has then seen the
    /// history so far, and the answer is what the end of that history tells of the job.
    pub fn wait_seen<R: Wait>(
        &self,
        rt: &R,
        seat: &mut Seat<L>,
        job: u64,
    ) -> Result<Outcome, Refusal>
        ensures look { IsLook L.begun seat.old seat.new }
        ensures shown { IsShown (seat_asked_at seat.new.asked job) result }
        ensures told { IsShownAt L.begun seat.new job result }
    {
        let mut kept = self
            .lock
            .await_job(rt, self.lock.enter(rt), seat.tenant(), job);
        kept.value.get_seen(seat, job)
    }

    /// Cancels a job that hasn't ended: its frames are removed, and who waits for it is woken. `NoJob` where its number
    /// is 0 or above the length of the seat's list, or it has ended; the only other refusal is `NoTenant`.
    pub fn cancel<R: Wait>(&self, rt: &R, seat: &mut Seat<L>, job: u64) -> Result<(), Refusal>
        ensures share { MatchResult result (λ _. seat.new ≡ stepped seat.new.known seat.old) (λ _. seat.new ≡ seeing seat.new.known seat.old) }
        ensures none { seat_asked_at seat.old.asked job ≡ None → (result ≡ Err NoJob) × (seat.new ≡ seat.old) }
        ensures told { seat_asked_at seat.old.asked job ≢ None → IsToldOf L.begun seat.old.known (Cancel seat.old.tenant job) result seat.new.known }
        ensures refused { IfErr result (Contains cancel_refusals) }
    {
        self.lock.enter(rt).value.cancel(seat, job)?;
        self.lock.ring(seat.tenant());
        Ok(())
    }

    /// The segments, nodes and steps that the seat's tenant has left when the lock is taken. The only refusal is
    /// `NoTenant`. The contract says nothing of the numbers; that of [`Desk::quota_seen`] does.
    pub fn quota<R: Wait>(&self, rt: &R, seat: &Seat<L>) -> Result<Left, Refusal>
        ensures { IfErr result (λ refusal. refusal ≡ NoTenant) }
    {
        self.lock.enter(rt).value.quota(seat.tenant())
    }

    /// The segments, nodes and steps that the seat's tenant has left, as [`Desk::quota`] tells them. The seat has then
    /// seen the history so far, and the numbers are the tenant's at its end.
    pub fn quota_seen<R: Wait>(&self, rt: &R, seat: &mut Seat<L>) -> Result<Left, Refusal>
        ensures look { IsLook L.begun seat.old seat.new }
        ensures left { result ≡ found_or_no_tenant (left_in_core (core_at L.begun seat.new.known.seen) seat.new.tenant) }
    {
        self.lock.enter(rt).value.quota_seen(seat)
    }

    /// How many frames the seat's tenant has, and how many words these have together. The only refusal is `NoTenant`.
    /// The contract says nothing of the numbers; that of [`Desk::live_seen`] does.
    pub fn live<R: Wait>(&self, rt: &R, seat: &Seat<L>) -> Result<(usize, usize), Refusal>
        ensures { IfErr result (λ refusal. refusal ≡ NoTenant) }
    {
        self.lock.enter(rt).value.live(seat.tenant())
    }

    /// How many frames the seat's tenant has, and how many words, as [`Desk::live`] tells them. The seat has then seen
    /// the history so far, and the numbers are the tenant's at its end.
    pub fn live_seen<R: Wait>(&self, rt: &R, seat: &mut Seat<L>) -> Result<(usize, usize), Refusal>
        ensures look { IsLook L.begun seat.old seat.new }
        ensures live { result ≡ found_or_no_tenant (live_of (core_at L.begun seat.new.known.seen) seat.new.tenant) }
    {
        self.lock.enter(rt).value.live_seen(seat)
    }

    /// The seat's tenant leaves: its jobs, ended or not, its frames and its reservation are gone, and the seat is used
    /// up. The seat's share is added to the spare one, so its steps stay counted.
    pub fn leave<R: Wait>(&self, rt: &R, seat: Seat<L>)
        requires { L.all ≡ L.parts }
    {
        let _trace = self.leave_seen(rt, seat);
    }

    /// The seat's tenant leaves, as by [`Desk::leave`]. Gives back what the seat then knows of the history, which ends
    /// with the tenant's Leave, the last step of the seat's own. Each step of the history was taken, and those of the
    /// tenant that workers didn't make are just the seat's own.
    pub fn leave_seen<R: Wait>(&self, rt: &R, seat: Seat<L>) -> Trace<Step<Jamboree>, L>
        requires { L.all ≡ L.parts }
        ensures told { Took seat.known (Leave seat.tenant) result }
        ensures true_to { IsTrueTo L.begun seat.tenant result }
    {
        self.lock.enter(rt).value.leave(seat)
    }

    /// Lets two makers see the history so far, as what two seats knew when they left: both speak of one history. What each
    /// had seen is a beginning of it, its own steps are all its steps in it, and each step of it was taken.
    pub fn compare<R: Wait>(
        &self,
        rt: &R,
        one: &mut Trace<Step<Jamboree>, L>,
        other: &mut Trace<Step<Jamboree>, L>,
    )
        ensures one { Saw one.old one.new }
        ensures other { Saw other.old other.new }
        ensures history { one.new.seen ≡ other.new.seen }
        ensures legal { AreTaken (jamboree L.begun.grain) L.begun.shared (steps_of one.new.seen) }
    {
        self.lock.enter(rt).value.compare(one, other)
    }

    /// A new badge, with which a worker offers steps. Its share is 0. `None` only after 2^62 badges.
    pub fn badge<R: Wait>(&self, rt: &R) -> Option<Badge<L>>
        ensures { IfSome result (λ badge. badge ≡ 0) }
    {
        self.lock.enter(rt).value.badge()
    }

    /// Locks the desk and offers a worker's step to the hall. Returns what the step did or why it is refused, which is
    /// never `OutOfMemory`. The badge's share is raised by 1 exactly where the step was taken. A frame that became
    /// ready wakes a worker that sleeps, if one does, and the end of a job the seat that waits for it.
    pub fn offer<R: Wait>(&self, rt: &R, badge: &mut Badge<L>, step: &Step<Jamboree>) -> StepAnswer
        requires { is_worker_step step.now ≡ true }
        ensures share { MatchResult result (λ _. badge.new ≡ badge.old + 1) (λ _. badge.new ≡ badge.old) }
        ensures memory { result ≢ Err OutOfMemory }
    {
        let mut held = self.hold(rt, badge);
        let answer = held.offer(rt, badge, step);
        held.release();
        answer
    }

    /// Locks the desk for several steps of the worker with this badge: until [`DeskGuard::release`] all other threads
    /// wait. If the lock is free at the first try, the badge's backoff gets a little shorter; else it is doubled, up to
    /// what the last leaf's depth makes worth it, and the worker waits that long before each further try.
    pub fn hold<R: Wait>(&self, rt: &R, badge: &mut Badge<L>) -> DeskGuard<'_, LockedHall<L, A>>
        ensures share { badge.new ≡ badge.old }
    {
        self.lock.hold(rt, badge)
    }

    /// Waits until a frame is ready or the desk is closed, and returns a ready frame with its home (a worker's number,
    /// or 0 for the hall); `None` only where the desk is closed. The frame isn't taken: by the time that this worker
    /// offers to take it, another may have it.
    pub fn next_ready<R: Wait>(&self, rt: &R) -> Option<(FrameId, u8)> {
        let task = self.lock.next_task(rt)?;
        Some((task.frame, task.home))
    }

    /// Closes the desk for good, and wakes all who wait. From then on nobody waits: `next_ready` returns `None`, and
    /// `wait` what `get` does. All other calls work as before, and no job or tenant is ended by this.
    pub fn close<R: Wait>(&self, rt: &R) {
        self.lock.close(rt);
    }

    /// How many steps the hall has taken since it was made, those before the desk included.
    pub fn count<R: Wait>(&self, rt: &R) -> u128 {
        self.lock.enter(rt).value.count()
    }

    /// Takes the hall out of the desk at its end. Where every seat has left and every other badge was joined to this
    /// one, this badge has all parts of the ledger that are out. Then the share that has all parts comes too, and the
    /// hall's count of steps is its number `kept` (the steps before the desk and those of the seats that have left)
    /// plus the badge's share. Else `None` comes in its place: a share with all parts can't be made up. The hall has
    /// come from the one that the desk was made with by the steps of some history, each of which was taken
    /// ([`Desk::into_hall_seen`] gives that history).
    pub fn into_hall(self, badge: Badge<L>) -> (Hall<A>, Option<Share<L>>)
        requires { L.all ≡ L.parts }
        ensures come { (history : List (ℕ × StepOf LeafAnswer)) × IsAtEndOf L.begun history result.0 }
        ensures parts { IfSome result.1 (λ whole. whole.parts ≡ L.parts) }
        ensures count { OnSome result.1 (count_of result.0 ≡ result.0.kept + badge) }
        ensures whole { IfSome result.1 (λ whole. count_of result.0 ≡ count_of L.begun + whole.amount) }
    {
        let (hall, whole, _history) = self.into_hall_seen(badge);
        (hall, whole)
    }

    /// Takes the hall out of the desk at its end, as [`Desk::into_hall`] does, and gives the desk's history too, by
    /// which the hall has come from the one that the desk was made with. The history can be shown to each trace that a
    /// seat left with ([`History::show`]): it goes on from what the seat had seen, and all steps of the seat in it are
    /// those that it knew.
    pub fn into_hall_seen(
        self,
        badge: Badge<L>,
    ) -> (Hall<A>, Option<Share<L>>, History<Step<Jamboree>, L>)
        requires { L.all ≡ L.parts }
        ensures come { IsAtEndOf L.begun result.2 result.0 }
        ensures parts { IfSome result.1 (λ whole. whole.parts ≡ L.parts) }
        ensures count { OnSome result.1 (count_of result.0 ≡ result.0.kept + badge) }
        ensures whole { IfSome result.1 (λ whole. count_of result.0 ≡ count_of L.begun + whole.amount) }
    {
        let Desk { lock } = self;
        lock.into_value().closed(badge)
    }
}
