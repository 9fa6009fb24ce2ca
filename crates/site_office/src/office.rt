//! The office of one connection at a site's desk: what its sessions ask of.
ghost use Rattle.std.specs.Prelude.{◌≡◌, IfOk, IfErr, Contains};
ghost use Rattle.sched_rules.specs.declared.step.StepOf.TheVariants.{Leave};
ghost use Rattle.desk.specs.Histories.{IsTrueTo, Took};
ghost use Rattle.session.specs.Calls.{Get, Wait as to_wait, Cancel, Told, Ended, reply_of};
ghost use Rattle.site_desk.specs.Entries.{IsNewSeat};
ghost use Rattle.site_office.specs.Offices.{at_site, owner_of, place_of, IsSameSeat};
ghost use Rattle.site_office.specs.Moments.{IsSiteTurn, Stays};
ghost use Rattle.site_office.specs.Refusing.{comer_refusal, comer_refusals};

use crate::access::{AccessControl, Greeted, Info};
use crate::entering::{cause_of, comer_refusal, live_answer, raise_refusal};
use crate::environment::{Cause, Environment, Identity, Note};
use desk_office::told_answer;
use hall::Refusal;
use session::{Live, Office, Question, Standing};
use site_book::{Amount, BookRefusal, Comer, SessionMark, Who, Whom};
use site_desk::{SeatOutcome, SiteDesk, SiteNaming, SiteSeat, SiteTrace, Turned};
use std::alloc::{Allocator, Global};
use std::sync::Wait;
use std::time::{Clock, Duration};
use tenant_quota::{Left, Reserve};

/// Milliseconds that a HELLO waits for sessions that are to leave.
const PATIENCE: u64 = 2_000;

/// How often it asks again meanwhile.
const MOST_TRIES: u32 = 256;

/// Milliseconds between two notes that a session said something.
const BETWEEN_NOTES: u64 = 1_000;

/// The office of one connection at a site's desk. It has a seat from a HELLO that was welcomed until the tenant leaves; without a seat all
/// calls but `hello` and `leave` are refused.
pub(crate) struct SiteOffice<
    'a,
    J: SiteNaming,
    H: Environment,
    R: Wait + Clock,
    A: Allocator = Global,
> {
    rt: &'a R,
    /// The desks of all halls.
    desks: &'a [SiteDesk<J, A>],
    /// The desk of the session, or of the next.
    desk: &'a SiteDesk<J, A>,
    environment: H,
    /// Whose the next session is to be; the seat's customer where one is there.
    who: Who,
    /// Whose the connection is.
    own: Who,
    /// The session's seat; `None` where no tenant is there.
    seat: Option<SiteSeat<J>>,
    /// What the seat knew of its desk's history when its tenant left.
    knew: Option<SiteTrace<J>>,
    /// When it was last noted that the session said something.
    noted: u64,
    /// The depth of the leaves that workers compute.
    grain: u8,
    ghost seated: { owner_of who seat ≡ who },
    ghost placed: { place_of desk.now seat ≡ desk.now },
}

impl<'a, J: SiteNaming, H: Environment, R: Wait + Clock, A: Allocator + Clone> SiteOffice<
    'a,
    J,
    H,
    R,
    A,
> {
    ghost use Rattle.std.specs.Prelude.{None};

    /// The office of a connection that is this customer's, at one of these desks, where no tenant is there.
    pub(crate) fn new(
        rt: &'a R,
        desks: &'a [SiteDesk<J, A>],
        desk: &'a SiteDesk<J, A>,
        environment: H,
        own: Who,
        grain: u8,
    ) -> SiteOffice<'a, J, H, R, A>
        ensures seat { result.seat ≡ None }
        ensures knew { result.knew ≡ None }
        ensures who { result.who ≡ own }
    {
        SiteOffice {
            rt,
            desks,
            desk,
            environment,
            who: own,
            own,
            seat: None,
            knew: None,
            noted: 0,
            grain,
        }
    }

    /// Ends the office, and gives back what its seat knew when its tenant left, and the environment. Where a tenant is still there its seat is
    /// dropped, and the tenant doesn't leave.
    pub(crate) fn close(self) -> (Option<SiteTrace<J>>, H)
        ensures { result.0 ≡ self.entry.knew }
    {
        let SiteOffice {
            rt: _,
            desks: _,
            desk: _,
            environment,
            who: _,
            own: _,
            seat: _seat,
            knew,
            noted: _,
            grain: _,
        } = self;
        (knew, environment)
    }

    /// A seat for a session of the customer, for which it waits while others are to leave.
    fn come(&mut self, reserve: Reserve) -> Result<SiteSeat<J>, Refusal>
        ensures seat { IfOk result (IsNewSeat (J.begun self.old.desk.now) (J.plan self.old.desk.now) self.old.desk.now self.old.who reserve) }
        ensures refused { IfErr result (Contains comer_refusals) }
        ensures same_seat { self.new.seat ≡ self.old.seat }
        ensures same_who { self.new.who ≡ self.old.who }
        ensures same_desk { (self.new.desk ≡ self.old.desk) × (self.new.knew ≡ self.old.knew) }
    {
        let start = self.environment.now();
        for _ in 0..MOST_TRIES {
            let now = self.environment.now();
            let comer = Comer {
                who: self.who,
                ask: reserve,
                at: now,
                most: self.environment.guest_idle(),
            };
            match self.desk.come(self.rt, &comer) {
                SeatOutcome::Seated(seat) => return Ok(seat),
                SeatOutcome::Turned(turned) => return Err(self.turned_away(turned)),
                SeatOutcome::Later {
                    refusal,
                    ending,
                    left,
                } => {
                    if !self.has_waited(start, ending, left) {
                        return Err(self.turned_away(Turned::ByBook(refusal)));
                    }
                }
            }
        }
        Err(self.turned_away(Turned::ByBook(BookRefusal::OverGuests)))
    }

    /// Waits for a session to leave after so many had, within the time that one who began to wait then has; false once that is over. A
    /// session that was told to end for this one is shut.
    fn has_waited(&mut self, start: u64, ending: Option<u64>, left: u64) -> bool
        ensures same_seat { self.new.seat ≡ self.old.seat }
        ensures same_who { self.new.who ≡ self.old.who }
        ensures same_desk { (self.new.desk ≡ self.old.desk) × (self.new.knew ≡ self.old.knew) }
    {
        if let Some(session) = ending {
            self.environment.note(Note::Tells(session));
        }
        let past = self.environment.now().saturating_sub(start);
        if past >= PATIENCE {
            return false;
        }
        let most = Duration::from_millis(PATIENCE - past);
        self.desk.await_left(self.rt, left, most);
        true
    }

    /// Has the site count that the desk turned the session's customer away, and returns the refusal for that.
    fn turned_away(&mut self, turned: Turned) -> Refusal
        ensures refusal { result ≡ comer_refusal turned }
        ensures same_seat { self.new.seat ≡ self.old.seat }
        ensures same_who { self.new.who ≡ self.old.who }
        ensures same_desk { (self.new.desk ≡ self.old.desk) × (self.new.knew ≡ self.old.knew) }
    {
        self.count(cause_of(turned));
        comer_refusal(turned)
    }

    /// Has the site count a refusal by its cause, if it is one that is counted.
    fn count(&mut self, cause: Option<Cause>)
        ensures same_seat { self.new.seat ≡ self.old.seat }
        ensures same_who { self.new.who ≡ self.old.who }
        ensures same_desk { (self.new.desk ≡ self.old.desk) × (self.new.knew ≡ self.old.knew) }
    {
        if let Some(cause) = cause {
            self.environment.note(Note::Refused(cause));
        }
    }

    /// Notes at the desk that the session of this number said something, unless that was noted within the last second.
    fn hear(&mut self, number: u64)
        ensures same_seat { self.new.seat ≡ self.old.seat }
        ensures same_who { self.new.who ≡ self.old.who }
        ensures same_desk { (self.new.desk ≡ self.old.desk) × (self.new.knew ≡ self.old.knew) }
    {
        let now = self.environment.now();
        if now.saturating_sub(self.noted) >= BETWEEN_NOTES {
            self.noted = now;
            self.desk
                .mark(self.rt, Whom::One(number), SessionMark::Spoke(now));
        }
    }

    /// Notes at the desk that the session said something, as `hear` does, if there is a session.
    fn hear_any(&mut self)
        ensures same_seat { self.new.seat ≡ self.old.seat }
        ensures same_who { self.new.who ≡ self.old.who }
        ensures same_desk { (self.new.desk ≡ self.old.desk) × (self.new.knew ≡ self.old.knew) }
    {
        if let Some(number) = self.number() {
            self.hear(number);
        }
    }

    /// How the session's job stands now; `NoJob` where there is no session.
    fn got(&mut self, job: u64) -> Result<Standing, Refusal>
        ensures turn { IsSiteTurn J.begun (at_site self.old.desk.now self.old.seat self.old.knew) (Get job) (reply_of (Told job) result) (at_site self.new.desk.now self.new.seat self.new.knew) }
        ensures who { self.new.who ≡ self.old.who }
    {
        match &mut self.seat {
            Some(seat) => told_answer(self.desk.get(self.rt, seat, job)),
            None => Err(Refusal::NoJob),
        }
    }

    /// How the session's job stands once it has ended, the session is told to end, or the desk is closed; `NoJob` where there is no session.
    fn waited(&mut self, job: u64, now: u64) -> Result<Standing, Refusal>
        ensures turn { IsSiteTurn J.begun (at_site self.old.desk.now self.old.seat self.old.knew) (to_wait job) (reply_of (Told job) result) (at_site self.new.desk.now self.new.seat self.new.knew) }
        ensures who { self.new.who ≡ self.old.who }
    {
        match &mut self.seat {
            Some(seat) => told_answer(self.desk.wait(self.rt, seat, job, now)),
            None => Err(Refusal::NoJob),
        }
    }

    /// Cancels the session's job; `NoJob` where there is no session.
    fn cancelled(&mut self, job: u64) -> Result<(), Refusal>
        ensures turn { IsSiteTurn J.begun (at_site self.old.desk.now self.old.seat self.old.knew) (Cancel job) (reply_of (λ _. Ended job) result) (at_site self.new.desk.now self.new.seat self.new.knew) }
        ensures who { self.new.who ≡ self.old.who }
    {
        match &mut self.seat {
            Some(seat) => self.desk.cancel(self.rt, seat, job),
            None => Err(Refusal::NoJob),
        }
    }

    /// Tells the site that the session waits for a job from now on. Returns the time.
    fn begin_wait(&mut self) -> u64
        ensures same_seat { self.new.seat ≡ self.old.seat }
        ensures same_who { self.new.who ≡ self.old.who }
        ensures same_desk { (self.new.desk ≡ self.old.desk) × (self.new.knew ≡ self.old.knew) }
    {
        self.environment.note(Note::Waits(true));
        self.environment.now()
    }

    /// Tells the site and the desk that the session doesn't wait for its job any more, as it was told this.
    fn end_wait(&mut self, answer: &Result<Standing, Refusal>)
        ensures same_seat { self.new.seat ≡ self.old.seat }
        ensures same_who { self.new.who ≡ self.old.who }
        ensures same_desk { (self.new.desk ≡ self.old.desk) × (self.new.knew ≡ self.old.knew) }
    {
        self.environment.note(Note::Waits(false));
        if let Ok(Standing::Done(_)) = answer {
            self.environment.note(Note::Value);
        }
        self.noted = self.environment.now();
        if let Some(number) = self.number() {
            self.desk.mark(
                self.rt,
                Whom::One(number),
                SessionMark::Waits(false, self.noted),
            );
        }
    }

    /// The tenant of a seat at the office's desk leaves. Gives back what the seat then knows of the history, which ends with that.
    fn left(&self, seat: SiteSeat<J>) -> SiteTrace<J>
        requires { seat.at ≡ self.now.desk.now }
        ensures { (result.at ≡ seat.at) × Took seat.seat.known (Leave seat.seat.tenant) result.known × IsTrueTo (J.begun seat.at) seat.seat.tenant result.known }
    {
        self.desk.leave(self.rt, seat).unwrap()
    }

    /// What the session's customer may have, and what it has; nothing of both where there is no session.
    fn amounts(&mut self) -> (Amount, Amount)
        ensures seat { IsSameSeat self.old.seat self.new.seat }
        ensures same_who { self.new.who ≡ self.old.who }
        ensures same_desk { (self.new.desk ≡ self.old.desk) × (self.new.knew ≡ self.old.knew) }
    {
        match &mut self.seat {
            Some(seat) => self.desk.budget(self.rt, seat),
            None => (Amount::NOTHING, Amount::NOTHING),
        }
    }

    /// The number of the session, if there is one.
    fn number(&self) -> Option<u64> {
        match &self.seat {
            Some(seat) => Some(seat.number()),
            None => None,
        }
    }
}

impl<J: SiteNaming, H: Environment, R: Wait + Clock, A: Allocator + Clone> Office
    for SiteOffice<'_, J, H, R, A> {
    ghost does = { λ from call reply to. IsSiteTurn J.begun (at_site from.desk.now from.seat from.knew) call reply (at_site to.desk.now to.seat to.knew) };

    /// Takes a seat at the desk for a new tenant of the customer that was greeted. `OldTenant` where a tenant is there already, or all
    /// numbers were given; `Full` where its budget has no room, or for a guest that of all guests; `OutOfMemory`.
    fn hello(&mut self, reserve: Reserve) -> Result<(), Refusal> {
        if self.seat.is_some() {
            return Err(Refusal::OldTenant);
        }
        let seat = self.come(reserve)?;
        let (number, now) = (seat.number(), self.environment.now());
        self.seat = Some(seat);
        self.noted = now;
        self.environment.note(Note::Begins(number, self.who));
        Ok(())
    }

    /// Raises the reservation. `NoTenant` where no tenant is there; `Lower`, `Full` and `OutOfMemory`.
    fn reserve(&mut self, reserve: Reserve) -> Result<(), Refusal> {
        self.hear_any();
        match &mut self.seat {
            Some(seat) => match self.desk.reserve(self.rt, seat, reserve) {
                Ok(()) => Ok(()),
                Err(turned) => {
                    self.count(cause_of(turned));
                    Err(raise_refusal(turned))
                }
            },
            None => Err(Refusal::NoTenant),
        }
    }

    /// Submits the question's search and returns the job's number, without waiting for it.
    fn ask(&mut self, question: &Question) -> Result<u64, Refusal> {
        self.hear_any();
        match &mut self.seat {
            Some(seat) => self
                .desk
                .ask(self.rt, seat, &question.position, question.depth),
            None => Err(Refusal::NoTenant),
        }
    }

    /// How the job stands now, without waiting for it.
    fn get(&mut self, job: u64) -> Result<Standing, Refusal> {
        self.hear_any();
        self.got(job)
    }

    /// How the job stands once it has ended, the session is told to end, or the desk is closed.
    fn wait(&mut self, job: u64) -> Result<Standing, Refusal> {
        let now = self.begin_wait();
        let answer = self.waited(job, now);
        self.end_wait(&answer);
        answer
    }

    /// Cancels the job and removes its frames.
    fn cancel(&mut self, job: u64) -> Result<(), Refusal> {
        self.hear_any();
        self.cancelled(job)
    }

    /// What the tenant has left of its reservation now.
    fn quota(&mut self) -> Result<Left, Refusal> {
        self.hear_any();
        match &mut self.seat {
            Some(seat) => self.desk.quota(self.rt, seat),
            None => Err(Refusal::NoTenant),
        }
    }

    /// How many frames and words the tenant has now.
    fn live(&mut self) -> Result<Live, Refusal> {
        self.hear_any();
        match &mut self.seat {
            Some(seat) => live_answer(self.desk.live(self.rt, seat)),
            None => Err(Refusal::NoTenant),
        }
    }

    /// The tenant leaves the desk, with its jobs, frames and reservation, and the office has no seat then.
    fn leave(&mut self) {
        if let Some(seat) = self.seat.take() {
            let number = seat.number();
            self.knew = Some(self.left(seat));
            self.environment.note(Note::Ended(number));
        }
    }
}

impl<J: SiteNaming, H: Environment, R: Wait + Clock, A: Allocator + Clone> AccessControl
    for SiteOffice<'_, J, H, R, A> {
    ghost greets = { λ from token greeted to. Stays (at_site from.desk.now from.seat from.knew) (at_site to.desk.now to.seat to.knew) };

    ghost pays = { λ from paid to. Stays (at_site from.desk.now from.seat from.knew) (at_site to.desk.now to.seat to.knew) × (to.who ≡ from.who) };

    ghost informs = { λ from info to. IsSameSeat from.seat to.seat × (to.who ≡ from.who) × (to.desk ≡ from.desk) × (to.knew ≡ from.knew) };

    /// Says whose the next session is to be, by the token of its HELLO. Nothing is asked while a session is there.
    fn greet(&mut self, token: Option<&[u8]>) -> Greeted {
        if self.seat.is_some() {
            return Greeted::Known;
        }
        self.who = self.own;
        match self.environment.identify(token) {
            Identity::Is(who, hall) => {
                self.who = who;
                if let Some(desk) = self.desks.get(hall) {
                    self.desk = desk;
                }
                Greeted::Known
            }
            Identity::Nobody => {
                self.count(Some(Cause::Token));
                Greeted::Unknown
            }
            Identity::Crowded => {
                self.count(Some(Cause::Connections));
                Greeted::Crowded
            }
        }
    }

    /// Whether a line of the session passes by its customer's rate, to which it is charged.
    fn pay(&mut self) -> bool {
        let passes = self.environment.pay(self.who);
        if !passes {
            self.count(Some(Cause::Rate));
        }
        passes
    }

    /// Tells what the session's customer may have and what it has, in segments and nodes, and the grain.
    fn inform(&mut self) -> Info {
        self.hear_any();
        let (may, has) = self.amounts();
        Info {
            grain: self.grain,
            may_segments: may.segments,
            may_nodes: may.nodes,
            has_segments: has.segments,
            has_nodes: has.nodes,
        }
    }
}
