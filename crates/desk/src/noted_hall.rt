//! A hall with the history of its steps: what the calls of seats and workers do to both, at a server's desk or a
//! site's.
//!
//! A clause that speaks of the history is told for each hall from which this one has come by it (`Since` of `specs/Noted.antt`). So a
//! desk, whose invariant is that its hall has come from the one that it was made with, knows it of that.
ghost use Rattle.std.specs.Prelude.{◌≡◌, ◌≢◌, ◌+◌, ◌<◌, ◌≤◌, [], true, false, length, Ok, Err, None, Contains, IfErr, IfOk, OnErr, OnOk, Option, MatchResult};
ghost use Rattle.sched_rules.specs.declared.step.DidOf.{DidOf};
ghost use Rattle.sched_rules.specs.declared.step.DidOf.TheVariants.{Left as HasLeft};
ghost use Rattle.sched_rules.specs.declared.refusal.Refusal.TheVariants.{NoJob, OutOfMemory};
ghost use Rattle.sched_rules.specs.declared.step.StepOf.TheVariants.{Admit, AdmitMore, Submit, Cancel, Leave};
ghost use Rattle.hall.specs.jamboree_rules.declared.leaf.Leaf.{Leaf as LeafOf};
ghost use Rattle.hall.specs.jamboree_rules.Places.{root_words, frame_size};
ghost use Rattle.hall.specs.jamboree_rules.othello_eval.othello_moves.declared.choices.TheConstants.{DEEPEST};
ghost use Rattle.hall.specs.Halls.{HallOf, IsDecided};
ghost use Rattle.hall.specs.Journals.{is_worker_step};
ghost use Rattle.sched_rules.specs.Headline.{is_admission};
ghost use Rattle.sched_rules.specs.Cores.{tenant_in};
ghost use Rattle.sched_rules.specs.Views.{left_in_core, live_of, job_of};
ghost use Rattle.hall.specs.jamboree_core.Replies.{IsSearch};
ghost use Rattle.hall.specs.jamboree_core.declared.outcomes.Outcome.{Outcome as OutcomeOf};
ghost use Rattle.hall.specs.jamboree_core.Outcomes.{IsOutcomeIn};
ghost use mathlib.Core.List.{IsPrefix};
ghost use Rattle.sched_rules.specs.Runs.{tenant_of};
ghost use Rattle.hall.specs.desk_rules.Asked.{ask_refusals, cancel_refusals, seat_asked_at, IsShown, IsToldBy, found_or_no_tenant};
ghost use Rattle.desk.specs.Traces.{own};
ghost use Rattle.desk.specs.Seats.{admit_refusals, reserve_refusals, seeing, stepped, IsAsked};
ghost use Rattle.desk.specs.Histories.{core_at, is_admit, is_leave, is_seat_step, with_taken, AreStepsOfSeat, HasNoLeave, IsSeated, IsLook, IsToldOf, IsTrueTo, Saw, Took};
ghost use Rattle.desk.specs.Noted.{HasCome, IsDone, IsMoved, Since};

use crate::history::{Opened, StepLog, Token};
use crate::reading::{left_of, live_of, told_of};
use crate::seat::SeatCore;
use arrayvec::ArrayVec;
use hall::desk_rules::{JOBS, SeatAsked, seat_asked_at};
use hall::{Hall, Jamboree, Outcome, Refusal, Step, StepAnswer, StepOf, submit};
use othello_board::position_text::Position;
use sched_rules::laws::{each_step_has_a_right_answer, no_tenant_is_disturbed};
use std::alloc::{Allocator, Global};
use std::marker::Model;
use tenant_quota::{Left, Reserve};

/// A hall, and the history of the steps that it has taken since.
#[derive(Drop)]
pub struct NotedHall<A: Allocator = Global> {
    hall: Hall<A>,
    /// The steps taken. It exists in proofs alone, but for one word.
    log: StepLog<Step<Jamboree>>,
}

// Clauses see the hall, which history it has, and the entries of that.
impl<A: Allocator> Model for NotedHall<A> {
    ghost use Rattle.desk.specs.Noted.{NotedOf};

    ghost Value = { NotedOf };

    ghost view = { λ n. record { id = n.log.id; hall = n.hall; history = n.log.entries } };
}

impl<A: Allocator + Clone> NotedHall<A> {
    /// A hall, with a new history of what it takes from now on.
    pub fn new(hall: Hall<A>, opened: Opened<Step<Jamboree>>) -> NotedHall<A>
        ensures noted { result ≡ record { id = opened; hall = hall; history = [] } }
        ensures come { HasCome hall result }
    {
        // This call tells the prover what `IsExplained` says of the hall.
        let _count = hall.count();
        NotedHall {
            hall,
            log: opened.into_log(),
        }
    }

    /// The hall without its history, for reading.
    pub fn hall(&self) -> &Hall<A>
        ensures { result.now ≡ self.now.hall }
    {
        &self.hall
    }

    /// Stores a number for the caller in the hall ([`Hall::keep`]).
    pub fn keep(&mut self, kept: u128)
        ensures { self.new ≡ record self.old { hall = record self.old.hall { kept = kept } } }
    {
        self.hall.keep(kept);
    }

    /// Takes the hall and its history apart.
    pub fn into_parts(self) -> (Hall<A>, StepLog<Step<Jamboree>>)
        ensures hall { result.0 ≡ self.hall }
        ensures log { result.1 ≡ record { id = self.id; entries = self.history } }
    {
        let NotedHall { hall, log } = self;
        (hall, log)
    }

    /// The token of a new maker, of whom the history has no step. It has seen all of it.
    pub fn begin(&mut self) -> Token<Step<Jamboree>>
        ensures same { self.new ≡ self.old }
        ensures id { result.id ≡ self.old.id }
    {
        self.log.begin()
    }

    /// Offers a step of this maker to the hall. If the hall takes it, the history ends with it. A seat step is by the maker who
    /// admitted its tenant.
    fn take(&mut self, token: &mut Token<Step<Jamboree>>, step: &Step<Jamboree>) -> StepAnswer
        requires search { IsSearch step.now }
        requires same { token.old.id ≡ self.old.id }
        requires admitted { is_admit step.now ≡ false }
        requires owner { is_seat_step step.now ≡ true → AreStepsOfSeat (tenant_of step.now) token.old.known.mine }
        ensures id { (self.new.id ≡ self.old.id) × (token.new.id ≡ self.old.id) }
        ensures come { (begun : HallOf) → HasCome begun self.old → HasCome begun self.new }
        ensures told { (begun : HallOf) → HasCome begun self.old → IsToldOf begun token.old.known step.now result token.new.known }
        ensures seen { token.new.known.seen ≡ self.new.history }
        ensures mine { token.new.known.mine ≡ with_taken token.old.known.mine step.now result }
        ensures true_to { (begun : HallOf) → HasCome begun self.old → is_seat_step step.now ≡ true → IsTrueTo begun (tenant_of step.now) token.new.known }
        ensures owner { is_seat_step step.now ≡ true → AreStepsOfSeat (tenant_of step.now) token.new.known.mine }
        ensures stays { is_leave step.now ≡ false → HasNoLeave token.old.known.mine → HasNoLeave token.new.known.mine }
        ensures left { (begun : HallOf) → HasCome begun self.old → is_leave step.now ≡ true → HasNoLeave token.old.known.mine → result ≡ Ok HasLeft }
        ensures step { IsDecided self.old.hall step.now result self.new.hall }
        ensures moved { IsMoved self.old.hall result self.new.hall }
        ensures same { OnErr result (self.new ≡ self.old) }
        ensures memory { is_admission step.now ≡ false → result ≢ Err OutOfMemory }
    {
        let NotedHall { hall, log } = self;
        let answer = hall.offer(step);
        note(log, token, step, &answer);
        token.recall();
        answer
    }

    /// Offers the hall a step of a seat's tenant; where it is taken, it is the history's new end and counts in the
    /// seat's share.
    fn take_for(&mut self, seat: &mut SeatCore, step: &Step<Jamboree>) -> StepAnswer
        requires search { IsSearch step.now }
        requires same { seat.old.id ≡ self.old.id }
        requires own { (is_seat_step step.now ≡ true) × (is_admit step.now ≡ false) × (is_leave step.now ≡ false) × (tenant_of step.now ≡ seat.old.seat.tenant) }
        ensures id { (self.new.id ≡ self.old.id) × (seat.new.id ≡ self.old.id) }
        ensures share { MatchResult result (λ _. seat.new.seat ≡ stepped seat.new.seat.known seat.old.seat) (λ _. seat.new.seat ≡ seeing seat.new.seat.known seat.old.seat) }
        ensures come { (begun : HallOf) → HasCome begun self.old → HasCome begun self.new }
        ensures told { (begun : HallOf) → HasCome begun self.old → IsToldOf begun seat.old.seat.known step.now result seat.new.seat.known }
        ensures step { IsDecided self.old.hall step.now result self.new.hall }
        ensures moved { IsMoved self.old.hall result self.new.hall }
        ensures same { OnErr result (self.new ≡ self.old) }
    {
        self.take(&mut seat.token, step)
    }

    /// Admits a tenant under the number after the greatest so far, and returns its seat. The refusals are the hall's: `Full`,
    /// `OldTenant`, `OutOfMemory`.
    pub fn admit(&mut self, reserve: Reserve) -> Result<SeatCore, Refusal>
        ensures id { self.new.id ≡ self.old.id }
        ensures seat { IfOk result (λ core. (core.id ≡ self.old.id) × (core.seat.tenant ≡ self.old.hall.shared.newest + 1) × (core.seat.share ≡ 1) × (core.seat.asked ≡ [])) }
        ensures come { (begun : HallOf) → HasCome begun self.old → HasCome begun self.new }
        ensures told { (begun : HallOf) → HasCome begun self.old → IfOk result (λ core. IsSeated reserve core.seat × (begun.shared.newest < core.seat.tenant) × (tenant_in begun.shared.tenants core.seat.tenant ≡ None)) }
        ensures step { IsDone self.old.hall (Admit (self.old.hall.shared.newest + 1) reserve) result self.new.hall }
        ensures moved { IsMoved self.old.hall result self.new.hall }
        ensures same { OnErr result (self.new ≡ self.old) }
        ensures newest { OnOk result (self.new.hall.shared.newest ≡ self.old.hall.shared.newest + 1) }
        ensures refused { IfErr result (Contains admit_refusals) }
    {
        let NotedHall { hall, log } = self;
        let tenant = hall.next_tenant();
        let step = StepOf::Admit(tenant, reserve);
        hall.offer(&step)?;
        let mut token = log.begin();
        log.add(&mut token, &step);
        Ok(SeatCore {
            tenant,
            token,
            asked: ArrayVec::new(),
        })
    }

    /// Raises the reservation of a seat's tenant to this one. The refusals are the hall's: `NoTenant`, `Lower`, `Full`,
    /// `OutOfMemory`; then nothing changes.
    pub fn reserve(&mut self, seat: &mut SeatCore, reserve: Reserve) -> Result<(), Refusal>
        requires { seat.old.id ≡ self.old.id }
        ensures id { (self.new.id ≡ self.old.id) × (seat.new.id ≡ self.old.id) }
        ensures share { MatchResult result (λ _. seat.new.seat ≡ stepped seat.new.seat.known seat.old.seat) (λ _. seat.new.seat ≡ seeing seat.new.seat.known seat.old.seat) }
        ensures come { (begun : HallOf) → HasCome begun self.old → HasCome begun self.new }
        ensures told { (begun : HallOf) → HasCome begun self.old → IsToldOf begun seat.old.seat.known (AdmitMore seat.old.seat.tenant reserve) result seat.new.seat.known }
        ensures step { IsDone self.old.hall (AdmitMore seat.old.seat.tenant reserve) result self.new.hall }
        ensures moved { IsMoved self.old.hall result self.new.hall }
        ensures same { OnErr result (self.new ≡ self.old) }
        ensures refused { IfErr result (Contains reserve_refusals) }
    {
        let step = StepOf::AdmitMore(seat.tenant, reserve);
        self.take_for(seat, &step)?;
        Ok(())
    }

    /// Submits the search of a position for a seat, adds it to the seat's list, and returns the job's number, the
    /// list's new length. Where the list has 256 entries the hall isn't asked, and the refusal is `NoJobsLeft`. At any
    /// refusal nothing changes.
    pub fn ask(
        &mut self,
        seat: &mut SeatCore,
        position: &Position,
        depth: u8,
    ) -> Result<u64, Refusal>
        requires same { seat.old.id ≡ self.old.id }
        requires deep { depth ≤ DEEPEST }
        ensures id { (self.new.id ≡ self.old.id) × (seat.new.id ≡ self.old.id) }
        ensures asked { IsAsked (record { board = position.now.board; depth = depth }) seat.old.seat result seat.new.seat }
        ensures refused { IfErr result (Contains ask_refusals) }
        ensures full { length seat.old.seat.asked ≡ 256 → (self.new ≡ self.old) × (seat.new ≡ seat.old) }
        ensures come { (begun : HallOf) → HasCome begun self.old → HasCome begun self.new }
        ensures told { (begun : HallOf) → HasCome begun self.old → length seat.old.seat.asked ≢ 256 → IsToldOf begun seat.old.seat.known (Submit seat.old.seat.tenant (root_words position.now.board.own position.now.board.opp depth) frame_size) result seat.new.seat.known }
        ensures step { length seat.old.seat.asked ≢ 256 → IsDone self.old.hall (Submit seat.old.seat.tenant (root_words position.now.board.own position.now.board.opp depth) frame_size) result self.new.hall }
        ensures moved { IsMoved self.old.hall result self.new.hall }
        ensures same { OnErr result (self.new ≡ self.old) }
    {
        if seat.asked.len() == JOBS {
            // This call tells the prover what `IsExplained` says of the hall.
            let _count = self.hall.count();
            return Err(Refusal::NoJobsLeft);
        }
        let search = submit(seat.tenant, position, depth);
        self.take_for(seat, &search)?;
        seat.asked.push(SeatAsked {
            board: position.board,
            depth,
        });
        Ok(seat.asked.len() as u64)
    }

    /// Cancels a seat's job. Where the seat asked for no job of this number the hall isn't asked, and the refusal is
    /// `NoJob`; the hall refuses with `NoJob` where the job has ended, and with `NoTenant`.
    pub fn cancel(&mut self, seat: &mut SeatCore, job: u64) -> Result<(), Refusal>
        requires { seat.old.id ≡ self.old.id }
        ensures id { (self.new.id ≡ self.old.id) × (seat.new.id ≡ self.old.id) }
        ensures share { MatchResult result (λ _. seat.new.seat ≡ stepped seat.new.seat.known seat.old.seat) (λ _. seat.new.seat ≡ seeing seat.new.seat.known seat.old.seat) }
        ensures none { seat_asked_at seat.old.seat.asked job ≡ None → (result ≡ Err NoJob) × (self.new ≡ self.old) × (seat.new ≡ seat.old) }
        ensures come { (begun : HallOf) → HasCome begun self.old → HasCome begun self.new }
        ensures told { (begun : HallOf) → HasCome begun self.old → seat_asked_at seat.old.seat.asked job ≢ None → IsToldOf begun seat.old.seat.known (Cancel seat.old.seat.tenant job) result seat.new.seat.known }
        ensures step { seat_asked_at seat.old.seat.asked job ≢ None → IsDone self.old.hall (Cancel seat.old.seat.tenant job) result self.new.hall }
        ensures moved { IsMoved self.old.hall result self.new.hall }
        ensures same { OnErr result (self.new ≡ self.old) }
        ensures refused { IfErr result (Contains cancel_refusals) }
    {
        if seat_asked_at(seat.asked.as_slice(), job).is_none() {
            // This call tells the prover what `IsExplained` says of the hall.
            let _count = self.hall.count();
            return Err(Refusal::NoJob);
        }
        let step = StepOf::Cancel(seat.tenant, job);
        self.take_for(seat, &step)?;
        Ok(())
    }

    /// Offers a worker's step to the hall.
    pub fn offer(&mut self, token: &mut Token<Step<Jamboree>>, step: &Step<Jamboree>) -> StepAnswer
        requires same { token.old.id ≡ self.old.id }
        requires worker { is_worker_step step.now ≡ true }
        ensures id { (self.new.id ≡ self.old.id) × (token.new.id ≡ self.old.id) }
        ensures come { (begun : HallOf) → HasCome begun self.old → HasCome begun self.new }
        ensures step { IsDecided self.old.hall step.now result self.new.hall }
        ensures moved { IsMoved self.old.hall result self.new.hall }
        ensures same { OnErr result (self.new ≡ self.old) }
        ensures memory { result ≢ Err OutOfMemory }
    {
        self.take(token, step)
    }

    /// A seat's tenant leaves: its jobs, frames and reservation are removed. What the seat then knows of the history is given
    /// back. The hall never refuses: the tenant is there, as its seat made its Admit and no Leave.
    pub fn leave(&mut self, seat: SeatCore) -> Token<Step<Jamboree>>
        requires { seat.id ≡ self.old.id }
        ensures id { (self.new.id ≡ self.old.id) × (result.id ≡ self.old.id) }
        ensures come { (begun : HallOf) → HasCome begun self.old → HasCome begun self.new }
        ensures told { (begun : HallOf) → HasCome begun self.old → Took seat.seat.known (Leave seat.seat.tenant) result.known × IsTrueTo begun seat.seat.tenant result.known }
        ensures step { (begun : HallOf) → HasCome begun self.old → IsDecided self.old.hall (Leave seat.seat.tenant) (Ok HasLeft) self.new.hall }
        ensures moved { (begun : HallOf) → HasCome begun self.old → IsMoved {X = DidOf LeafOf} self.old.hall (Ok HasLeft) self.new.hall }
    {
        let SeatCore {
            tenant,
            mut token,
            ..
        } = seat;
        let _left = self.take(&mut token, &StepOf::Leave(tenant));
        token
    }

    /// Lets a seat see the history so far.
    pub fn show(&mut self, seat: &mut SeatCore)
        requires { seat.old.id ≡ self.old.id }
        ensures same { self.new ≡ self.old }
        ensures id { seat.new.id ≡ self.old.id }
        ensures look { (begun : HallOf) → HasCome begun self.old → begun.shared.newest < seat.old.seat.tenant → IsLook begun seat.old.seat seat.new.seat }
        ensures kept { seat.new.seat ≡ seeing seat.new.seat.known seat.old.seat }
        ensures core { (begun : HallOf) → HasCome begun self.old → self.old.hall.shared ≡ core_at begun seat.new.seat.known.seen }
    {
        no_tenant_is_disturbed::<Jamboree>();
        each_step_has_a_right_answer::<Jamboree>();
        // Its contract gives the prover a procedure of the hall's grain, for which these laws are told.
        let _core = self.hall.core();
        self.log.show(&mut seat.token);
    }

    /// Lets two makers see the history so far.
    pub fn compare(&mut self, one: &mut Token<Step<Jamboree>>, other: &mut Token<Step<Jamboree>>)
        requires { (one.old.id ≡ self.old.id) × (other.old.id ≡ self.old.id) }
        ensures same { self.new ≡ self.old }
        ensures id { (one.new.id ≡ self.old.id) × (other.new.id ≡ self.old.id) }
        ensures one { Saw one.old.known one.new.known }
        ensures other { Saw other.old.known other.new.known }
        ensures history { (one.new.known.seen ≡ self.old.history) × (other.new.known.seen ≡ self.old.history) }
    {
        self.log.show(one);
        self.log.show(other);
    }

    /// How a seat's job stands, as `shown` tells it; `NoJob` where the seat asked for no job of this number.
    pub fn get(&self, seat: &SeatCore, job: u64) -> Result<Outcome, Refusal>
        ensures shown { IsShown (seat_asked_at seat.now.seat.asked job) result }
        ensures told { (told : Option OutcomeOf) × IsOutcomeIn (job_of self.now.hall.shared seat.now.seat.tenant job) told × IsToldBy (seat_asked_at seat.now.seat.asked job) told result }
    {
        told_of(&self.hall, seat.tenant(), seat.asked(), job)
    }

    /// The segments, nodes and steps that a tenant has left; `NoTenant` where it isn't there.
    pub fn quota(&self, tenant: u64) -> Result<Left, Refusal>
        ensures { result ≡ found_or_no_tenant (left_in_core self.now.hall.shared tenant) }
    {
        left_of(&self.hall, tenant)
    }

    /// How many frames a tenant has, and how many words these have together; `NoTenant` where it isn't there.
    pub fn live(&self, tenant: u64) -> Result<(usize, usize), Refusal>
        ensures { result ≡ found_or_no_tenant (live_of self.now.hall.shared tenant) }
    {
        live_of(&self.hall, tenant)
    }
}

/// Adds a step with this answer to the history where it was taken, and lets its maker see all of it.
fn note(
    log: &mut StepLog<Step<Jamboree>>,
    token: &mut Token<Step<Jamboree>>,
    step: &Step<Jamboree>,
    answer: &StepAnswer,
)
    requires { token.old.id ≡ log.old.id }
    ensures id { (log.new.id ≡ log.old.id) × (token.new.id ≡ log.old.id) }
    ensures history { log.new.entries ≡ with_taken log.old.entries (token.old.known.maker, step.now) answer.now }
    ensures token { token.new.known ≡ record { maker = token.old.known.maker; seen = log.new.entries; mine = with_taken token.old.known.mine step.now answer.now } }
    ensures seen { IsPrefix token.old.known.seen log.old.entries }
    ensures own { own token.old.known.maker log.old.entries ≡ token.old.known.mine }
{
    match answer {
        Ok(_) => log.add(token, step),
        Err(_) => log.show(token),
    }
}
