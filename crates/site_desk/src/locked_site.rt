//! What lies under the lock of a site's desk: the hall with the history of its steps, the book of its customers, the
//! roll of who is there, and who shares the workers. The seat is the grant.
//!
//! A session is a tenant and a grant of the same number. It begins by [`LockedSite::come`], may be raised, and ends by
//! [`LockedSite::leave`]; each of these does both or neither. All other steps of the hall neither begin nor end a tenant, nor raise what it
//! reserves.
//!
//! The invariant is that the book's grants are the hall's tenants, one for one and in their order, with the same reservations
//! (`IsBooked` of `specs/Booked.antt`), and that those listed are those who have a grant, in the same order (`IsListed`). So nothing can
//! leak: no tenant is there without a grant, no grant without a tenant, and what a session gives back is given back in both. And the hall
//! never refuses for room what the book grants: a customer is turned away by the book, or since all 2^62 numbers were given, or for want of
//! memory ([`Turned`]), and for nothing else.
//!
//! - The plan's totals are within the hall's, and whatever the book doesn't refuse is within the plan's totals. Both sums are of
//!   the same seats, so the hall's own test for room can't fail.
//! - The hall is asked between the book's two calls, since it alone may run out of memory: the book has nothing to undo then.
//! - The numbers of tenants rise, so a number means one seat, though the hall removes by number and the book by customer and number.
//! - A session's end is never refused. A seat's events in the book's history are its opening and raises, which its type says; and whose
//!   events are those has a grant, and nobody else has the same one (`AreHeld` of `specs/Granted.antt`).
//!
//! All halls of a site are of one type. So the type names the histories of all of them, and a number says which one is this hall's
//! ([`SiteNaming`]): the hall has come from the one that its desk was made with by the steps of that one (`HasCome`).
ghost use Rattle.std.specs.Prelude.{◌≡◌, ◌≢◌, ◌≤◌, ◌++◌, ◌∷◌, [], ℕ, if◌then◌else◌, is_ok, length, Err, Some, None, Contains, IfErr, IfOk, MatchResult};
ghost use Rattle.sched_rules.specs.declared.refusal.Refusal.TheVariants.{NoJob};
ghost use Rattle.sched_rules.specs.declared.step.StepOf.TheVariants.{Submit, Cancel, Leave};
ghost use Rattle.site_desk.specs.Booked.{IsRaise};
ghost use Rattle.hall.specs.jamboree_rules.Places.{root_words, frame_size};
ghost use Rattle.hall.specs.jamboree_rules.Procedure.{jamboree};
ghost use Rattle.hall.specs.jamboree_rules.othello_eval.othello_moves.declared.choices.TheConstants.{DEEPEST};
ghost use Rattle.hall.specs.desk_rules.Asked.{ask_refusals, cancel_refusals, seat_asked_at, IsShown};
ghost use Rattle.desk.specs.Seats.{seeing, stepped, IsAsked};
ghost use Rattle.desk.specs.Histories.{core_at, steps_of, AreTaken, IsLook, IsShownAt, IsToldOf, IsTrueTo, Saw, Took};
ghost use Rattle.site_book.specs.Books.{taken, why_not_replan};
ghost use Rattle.site_book.specs.declared.event.BookEvent.TheVariants.{Closes, Raises, Replans};
ghost use Rattle.site_book.specs.Comings.{told_by};
ghost use Rattle.site_book.specs.declared.coming.Coming.TheVariants.{Enters};
ghost use Rattle.site_book.specs.Rolls.{marked_all};
ghost use Rattle.fair_share.specs.Picks.{charged_to};
ghost use Rattle.site_desk.specs.Entries.{IsEntry};
ghost use Rattle.site_book.specs.Grants.{used};
ghost use Rattle.site_book.specs.Plans.{limit_of};
ghost use Rattle.site_desk.specs.Granted.{book_at, AreHeld, IsBookBy, IsBookLook, IsGrantedFrom, IsNotReplanned, IsPartOnce, IsReplannedBy};
ghost use Rattle.site_desk.specs.Seats.{IsRaiseTold};
ghost use Rattle.site_desk.specs.Sites.{IsCame, IsSeatStep, IsSessionGone, IsSitePick, met, overruns_of, stays_in};

use crate::badge::SiteBadge;
use crate::entry::SeatOutcome;
use crate::naming::SiteNaming;
use crate::seat::{BookTrace, SiteSeat, SiteTrace};
use crate::sharing::{share, unshare};
use crate::stock::SiteStock;
use crate::turned::{Turned, turned_by};
use arrayvec::ArrayVec;
use desk::reading::{has_ready, is_awaited, next_ready, told_of};
use desk::{NotedHall, Opened, StepLog, Token, UnderLock};
use fair_share::{FairShare, charge, fair_task};
use hall::{Hall, Jamboree, Outcome, Refusal, Step, StepAnswer};
use jamboree_rules::pool_rules::Task;
use othello_board::position_text::Position;
use site_book::{
    Amount, BookEvent, BookRefusal, Comer, Coming, CustomerBook, Group, MOST, Overrun, Plan,
    Present, Roll, SessionMark, Told, Whom, what_comes_of,
};
use std::alloc::{Allocator, Global};
use std::marker::{Model, PhantomData};
use tenant_quota::Reserve;
/// What lies under a site's lock.
#[derive(Drop)]
pub struct LockedSite<J: SiteNaming, A: Allocator = Global> {
    /// The number of the desk.
    at: u64,
    noted: NotedHall<A>,
    /// What all workers make their steps with. It takes no bytes.
    workers: Token<Step<Jamboree>>,
    book: CustomerBook,
    /// What the book granted since it was made. It takes a word.
    events: StepLog<BookEvent>,
    roll: Roll,
    /// Who shares the workers, and what each was served.
    shares: FairShare,
    /// How many sessions have left.
    left: u64,
    of: PhantomData<J>,
}

// Clauses see the desk's number, the hall with its book, what the book granted, who is there, who shares the workers, and how many sessions
// have left.
impl<J: SiteNaming, A: Allocator> Model for LockedSite<J, A> {
    ghost use Rattle.std.specs.Prelude.{◌≡◌};
    ghost use Rattle.desk.specs.Noted.{HasCome};
    ghost use Rattle.site_desk.specs.Booked.{IsBooked};
    ghost use Rattle.site_desk.specs.Granted.{AreHeld, IsBookBy};
    ghost use Rattle.site_desk.specs.Sites.{SiteOf, IsListed};

    ghost Value = { SiteOf };

    ghost view = { λ k. record { at = k.at; booked = record { hall = k.noted.hall; book = k.book }; events = k.events.entries; roll = k.roll; shares = k.shares; left = k.left } };

    ghost invariant = { λ k. IsBooked k.noted.hall k.book × IsListed k.book k.roll × HasCome (J.begun k.at) k.noted × (k.noted.id ≡ J.table k.at) × (k.workers.id ≡ J.table k.at) × IsBookBy (J.plan k.at) k.events.entries k.book × (k.events.id ≡ J.granted k.at) × AreHeld k.events.entries k.book };
}

impl<J: SiteNaming, A: Allocator + Clone> LockedSite<J, A> {
    /// A hall with its book, where nobody is, for the desk of this number.
    pub(crate) fn new(at: u64, stock: SiteStock<A>) -> LockedSite<J, A>
        requires history { stock.opened ≡ J.table at }
        requires begun { stock.hall ≡ J.begun at }
        requires granted { stock.granted ≡ J.granted at }
        requires plan { stock.book.plan ≡ J.plan at }
        ensures { result ≡ record { at = at; booked = record { hall = stock.hall; book = stock.book }; events = []; roll = []; shares = stock.shares; left = 0 } }
    {
        let SiteStock {
            hall,
            book,
            shares,
            opened,
            granted,
        } = stock;
        let mut noted = NotedHall::new(hall, opened);
        let workers = noted.begin();
        let events = first_events(granted, &book);
        LockedSite {
            at,
            noted,
            workers,
            book,
            events,
            roll: Roll::new(),
            shares,
            left: 0,
            of: PhantomData,
        }
    }

    /// What comes of one who asks for a session: it enters where the book allows it. Turned away `ByBook` exactly where the book refuses
    /// it and nobody's going would help; never for room, since the hall has room for what the book grants; else only where all 2^62
    /// numbers were given, or memory ran out. Then nothing has changed.
    #[tactic(auto, using(crate::proofs::Lists::names_marked))]
    pub fn come(&mut self, comer: &Comer) -> SeatOutcome<SiteSeat<J>>
        ensures came { IsCame self.old comer.now result self.new }
        ensures entry { IsEntry (J.begun self.old.at) (J.plan self.old.at) self.old.at comer.now.who comer.now.ask result }
    {
        match self.met(comer) {
            Coming::Enters => self.let_in(comer),
            Coming::Waits(refusal) => SeatOutcome::Later {
                refusal,
                ending: None,
                left: self.left,
            },
            Coming::Ends(session, refusal) => {
                self.mark(Whom::One(session), SessionMark::Told(Told::ForAnother));
                SeatOutcome::Later {
                    refusal,
                    ending: Some(session),
                    left: self.left,
                }
            }
            Coming::Refused(refusal) => SeatOutcome::Turned(Turned::ByBook(refusal)),
        }
    }

    /// What is to come of one who asks for a session.
    #[tactic(auto, using(crate::proofs::Lists::alike))]
    fn met(&self, comer: &Comer) -> Coming
        ensures { result ≡ met self.now comer.now }
    {
        let grants = self.book.grants();
        what_comes_of(self.book.plan(), grants, self.roll.entries(), comer)
    }

    /// Lets one in whom the book allows it: its tenant is admitted under the number after the greatest so far, its grant entered, itself
    /// listed, and its share begun.
    fn let_in(&mut self, comer: &Comer) -> SeatOutcome<SiteSeat<J>>
        requires { met self.old comer.now ≡ Enters }
        ensures came { IsCame self.old comer.now result self.new }
        ensures entry { IsEntry (J.begun self.old.at) (J.plan self.old.at) self.old.at comer.now.who comer.now.ask result }
    {
        if let Some(refusal) = self.book.why_not_open(comer.who, comer.ask) {
            return SeatOutcome::Turned(Turned::ByBook(refusal));
        }
        match self.noted.admit(comer.ask) {
            Ok(core) => {
                let number = core.tenant();
                self.book.open(comer.who, number, comer.ask);
                let mut books = self.events.begin();
                self.events.add(&mut books, &BookEvent::Opens(comer.who, number, comer.ask));
                // This read says that there is a place left in the roll.
                let _grants = self.book.grants();
                self.roll.enter(comer.who, number, comer.at);
                share(&mut self.shares, comer.who, number);
                SeatOutcome::Seated(SiteSeat {
                    who: comer.who,
                    at: self.at,
                    core,
                    books,
                    of: PhantomData,
                })
            }
            Err(refusal) => SeatOutcome::Turned(turned_by(refusal)),
        }
    }

    /// Raises what a session reserves where the book allows it: in the hall and in the book, or in neither. Turned away `ByBook` exactly
    /// where the book refuses it (among others as there is no such session), else only where memory ran out. Then nothing has changed.
    pub fn raise(&mut self, seat: &mut SiteSeat<J>, ask: Reserve) -> Result<(), Turned>
        requires { seat.old.at ≡ self.old.at }
        ensures raise { IsRaise self.old.booked seat.old.who seat.old.seat.tenant ask result self.new.booked }
        ensures events { self.new.events ≡ if is_ok result then self.old.events ++ (seat.old.books.maker, Raises seat.old.who seat.old.seat.tenant ask) ∷ [] else self.old.events }
        ensures others { self.new ≡ record self.old { booked = self.new.booked; events = self.new.events } }
        ensures told { IsRaiseTold (J.begun self.old.at) seat.old.seat ask result seat.new.seat }
        ensures granted { MatchResult result (λ _. Took seat.old.books (Raises seat.old.who seat.old.seat.tenant ask) seat.new.books) (λ _. seat.new.books ≡ seat.old.books) }
        ensures seat { seat.new ≡ record seat.old { seat = seat.new.seat; books = seat.new.books } }
    {
        let number = seat.core.tenant();
        if let Some(refusal) = self.book.why_not_raise(seat.who, number, ask) {
            return Err(Turned::ByBook(refusal));
        }
        match self.noted.reserve(&mut seat.core, ask) {
            Ok(()) => {
                self.book.raise(seat.who, number, ask);
                let who = seat.who;
                self.events
                    .add(&mut seat.books, &BookEvent::Raises(who, number, ask));
                Ok(())
            }
            Err(refusal) => Err(turned_by(refusal)),
        }
    }

    /// A session leaves: its tenant leaves the hall, its grant is taken back, it is listed no more, and shares no more. Gives back what
    /// its seat then knows of the history, which ends with the tenant's Leave. The book always has the session, as its seat opened it and
    /// hasn't closed it.
    pub fn leave(&mut self, seat: SiteSeat<J>) -> SiteTrace<J>
        requires { seat.at ≡ self.old.at }
        ensures gone { IsSessionGone self.old seat self.new }
        ensures told { (result.at ≡ seat.at) × Took seat.seat.known (Leave seat.seat.tenant) result.known × IsTrueTo (J.begun seat.at) seat.seat.tenant result.known }
        ensures closed { Took seat.books (Closes seat.who seat.seat.tenant) result.books × IsGrantedFrom (J.plan seat.at) result.books.seen }
    {
        let SiteSeat {
            who,
            at,
            core,
            books,
            ..
        } = seat;
        let mut books = books;
        let number = core.tenant();
        let token = self.noted.leave(core);
        self.book.close(who, number);
        self.events.add(&mut books, &BookEvent::Closes(who, number));
        self.roll.leave(who, number);
        unshare(&mut self.shares, number);
        self.left = self.left.wrapping_add(1);
        SiteTrace {
            at,
            token,
            books,
            of: PhantomData,
        }
    }

    /// Puts this mark (it spoke, it waits, it is told to end) at the sessions of the roll that are meant.
    #[tactic(auto, using(crate::proofs::Lists::names_marked))]
    pub(crate) fn mark(&mut self, whom: Whom, mark: SessionMark)
        ensures { self.new ≡ record self.old { roll = marked_all whom mark self.old.roll } }
    {
        self.roll.mark(whom, mark);
    }

    /// Tells those to end that don't stay under another plan.
    #[tactic(auto, using(crate::proofs::Lists::alike, crate::proofs::Lists::names_told))]
    pub(crate) fn tell_by(&mut self, plan: &Plan)
        ensures { self.new ≡ record self.old { roll = told_by plan.now [] self.old.booked.book.grants self.old.roll } }
    {
        let grants = self.book.grants();
        self.roll.tell_by(plan, grants);
    }

    /// Goes on by another plan where nothing forbids it, and returns the one that was there, and what is then known of what the book granted,
    /// which ends with this; else returns the plan and why it doesn't come in.
    pub fn replan(&mut self, plan: Plan) -> Result<(Plan, BookTrace<J>), (Plan, BookRefusal)>
        ensures plan { MatchResult result
            (λ came. (why_not_replan self.old.booked.book plan ≡ None) × (came.0 ≡ self.old.booked.book.plan) × (self.new ≡ record self.old { booked = record self.old.booked { book = taken self.old.booked.book (Replans plan) }; events = self.old.events ++ (came.1.books.maker, Replans plan) ∷ [] }))
            (λ refused. (why_not_replan self.old.booked.book plan ≡ Some refused.1) × (refused.0 ≡ plan) × (self.new ≡ self.old)) }
        ensures came { IfOk result (λ came. (came.1.at ≡ self.old.at) × IsReplannedBy (J.plan self.old.at) plan came.0 came.1.books) }
        ensures refused { IfErr result (λ refused. (refused.0 ≡ plan) × IsNotReplanned (J.plan self.old.at) plan refused.1) }
    {
        match self.book.why_not_replan(&plan) {
            None => Ok(self.go_by(plan)),
            Some(refusal) => Err((plan, refusal)),
        }
    }

    /// Goes on by another plan, which nothing forbids, and returns the one that was there, and what is then known of what the book granted.
    fn go_by(&mut self, plan: Plan) -> (Plan, BookTrace<J>)
        requires { why_not_replan self.old.booked.book plan ≡ None }
        ensures was { result.0 ≡ self.old.booked.book.plan }
        ensures taken { self.new ≡ record self.old { booked = record self.old.booked { book = taken self.old.booked.book (Replans plan) }; events = self.old.events ++ (result.1.books.maker, Replans plan) ∷ [] } }
        ensures told { (result.1.at ≡ self.old.at) × IsReplannedBy (J.plan self.old.at) plan result.0 result.1.books }
    {
        let mut books = self.events.begin();
        let event = BookEvent::Replans(plan);
        self.events.add(&mut books, &event);
        let trace = BookTrace {
            at: self.at,
            books,
            of: PhantomData,
        };
        match event {
            BookEvent::Replans(plan) => (self.book.replan(plan), trace),
            _ => unreachable!(),
        }
    }

    /// Submits the search of a position for a seat, adds it to the seat's list, and returns the job's number, the list's new length.
    /// Where the list has 256 entries the hall isn't asked, and the refusal is `NoJobsLeft`. At any refusal nothing changes.
    pub(crate) fn ask(
        &mut self,
        seat: &mut SiteSeat<J>,
        position: &Position,
        depth: u8,
    ) -> Result<u64, Refusal>
        requires own { seat.old.at ≡ self.old.at }
        requires deep { depth ≤ DEEPEST }
        ensures asked { IsAsked (record { board = position.now.board; depth = depth }) seat.old.seat result seat.new.seat }
        ensures refused { IfErr result (Contains ask_refusals) }
        ensures full { length seat.old.seat.asked ≡ 256 → (self.new ≡ self.old) × (seat.new ≡ seat.old) }
        ensures told { length seat.old.seat.asked ≢ 256 → IsToldOf (J.begun self.old.at) seat.old.seat.known (Submit seat.old.seat.tenant (root_words position.now.board.own position.now.board.opp depth) frame_size) result seat.new.seat.known }
        ensures step { length seat.old.seat.asked ≢ 256 → IsSeatStep self.old (Submit seat.old.seat.tenant (root_words position.now.board.own position.now.board.opp depth) frame_size) result self.new }
        ensures seat { seat.new ≡ record seat.old { seat = seat.new.seat } }
    {
        self.noted.ask(&mut seat.core, position, depth)
    }

    /// Cancels a seat's job. Where the seat asked for no job of this number the hall isn't asked, and the refusal is `NoJob`; the
    /// hall refuses with `NoJob` where the job has ended, and with `NoTenant`.
    pub(crate) fn cancel(&mut self, seat: &mut SiteSeat<J>, job: u64) -> Result<(), Refusal>
        requires { seat.old.at ≡ self.old.at }
        ensures share { MatchResult result (λ _. seat.new.seat ≡ stepped seat.new.seat.known seat.old.seat) (λ _. seat.new.seat ≡ seeing seat.new.seat.known seat.old.seat) }
        ensures none { seat_asked_at seat.old.seat.asked job ≡ None → (result ≡ Err NoJob) × (self.new ≡ self.old) × (seat.new ≡ seat.old) }
        ensures told { seat_asked_at seat.old.seat.asked job ≢ None → IsToldOf (J.begun self.old.at) seat.old.seat.known (Cancel seat.old.seat.tenant job) result seat.new.seat.known }
        ensures step { seat_asked_at seat.old.seat.asked job ≢ None → IsSeatStep self.old (Cancel seat.old.seat.tenant job) result self.new }
        ensures refused { IfErr result (Contains cancel_refusals) }
        ensures seat { seat.new ≡ record seat.old { seat = seat.new.seat } }
    {
        self.noted.cancel(&mut seat.core, job)
    }

    /// Lets a seat see the history so far.
    pub(crate) fn show(&mut self, seat: &mut SiteSeat<J>)
        requires { seat.old.at ≡ self.old.at }
        ensures same { self.new ≡ self.old }
        ensures look { IsLook (J.begun self.old.at) seat.old.seat seat.new.seat }
        ensures core { self.old.booked.hall.shared ≡ core_at (J.begun self.old.at) seat.new.seat.known.seen }
        ensures seat { seat.new ≡ record seat.old { seat = seat.new.seat } }
    {
        self.noted.show(&mut seat.core);
    }

    /// How a seat's job stands, as `shown` tells it; `NoJob` where the seat asked for no job of this number. The seat has then seen the
    /// history so far.
    pub(crate) fn get(&mut self, seat: &mut SiteSeat<J>, job: u64) -> Result<Outcome, Refusal>
        requires { seat.old.at ≡ self.old.at }
        ensures look { IsLook (J.begun self.old.at) seat.old.seat seat.new.seat }
        ensures shown { IsShown (seat_asked_at seat.new.seat.asked job) result }
        ensures told { IsShownAt (J.begun self.old.at) seat.new.seat job result }
        ensures seat { seat.new ≡ record seat.old { seat = seat.new.seat } }
    {
        self.show(seat);
        told_of(self.hall(), seat.number(), seat.asked(), job)
    }

    /// Lets two makers see the history so far.
    pub(crate) fn compare(&mut self, one: &mut SiteTrace<J>, other: &mut SiteTrace<J>)
        requires { (one.old.at ≡ self.old.at) × (other.old.at ≡ self.old.at) }
        ensures same { self.new ≡ self.old }
        ensures one { (one.new.at ≡ one.old.at) × Saw one.old.known one.new.known }
        ensures other { (other.new.at ≡ other.old.at) × Saw other.old.known other.new.known }
        ensures history { one.new.known.seen ≡ other.new.known.seen }
        ensures legal { AreTaken (jamboree (J.begun self.old.at).grain) (J.begun self.old.at).shared (steps_of one.new.known.seen) }
        ensures books { IsBookLook (J.plan self.old.at) one.old.books one.new.books × IsBookLook (J.plan self.old.at) other.old.books other.new.books × (one.new.books.seen ≡ other.new.books.seen) }
    {
        self.noted.compare(&mut one.token, &mut other.token);
        self.events.show(&mut one.books);
        self.events.show(&mut other.books);
    }

    /// Lets a seat see what the book granted so far.
    pub(crate) fn show_book(&mut self, seat: &mut SiteSeat<J>)
        requires { seat.old.at ≡ self.old.at }
        ensures same { self.new ≡ self.old }
        ensures look { IsBookLook (J.plan self.old.at) seat.old.books seat.new.books }
        ensures book { self.old.booked.book ≡ book_at (J.plan self.old.at) seat.new.books.seen }
        ensures seat { seat.new ≡ record seat.old { books = seat.new.books } }
    {
        self.events.show(&mut seat.books);
    }

    /// The desk's hall, for reading.
    pub(crate) fn hall(&self) -> &Hall<A>
        ensures { result.now ≡ self.now.booked.hall }
    {
        self.noted.hall()
    }

    /// The number of the desk among those of the site.
    pub(crate) fn at(&self) -> u64
        ensures { result ≡ self.now.at }
    {
        self.at
    }

    /// Whether a session is there and wasn't told to end.
    pub(crate) fn stays(&self, number: u64) -> bool
        ensures { result ≡ stays_in number self.now.roll }
    {
        stays_in(self.roll.entries(), number)
    }

    /// The task that comes next: the newest ready frame of the tenant that was served least, or, each fourth time, has
    /// waited longest; None where that tenant has none, or there is no such tenant. The frame isn't taken, and nobody
    /// is charged.
    pub(crate) fn pick(&mut self) -> Option<Task>
        ensures { IsSitePick self.old result self.new }
    {
        let hall = self.noted.hall();
        fair_task(hall, &mut self.shares)
    }

    /// Notes that a tenant was served so much more, if it is one that shares the workers.
    fn charge(&mut self, tenant: u64, amount: u64)
        ensures { self.new ≡ record self.old { shares = charged_to tenant amount self.old.shares } }
    {
        charge(&mut self.shares, tenant, amount);
    }

    /// How many sessions have left, modulo 2^64.
    pub(crate) fn left(&self) -> u64
        ensures { result ≡ self.now.left }
    {
        self.left
    }

    /// The book of the desk's customers, for reading.
    pub(crate) fn book(&self) -> &CustomerBook
        ensures book { result.now ≡ self.now.booked.book }
        ensures by { IsBookBy (J.plan self.now.at) self.now.events result.now }
    {
        &self.book
    }

    /// What some of the sessions may have together, and what they have.
    #[tactic(auto, using(crate::proofs::Granting::part_once))]
    pub(crate) fn part(&self, part: Group) -> (Amount, Amount)
        ensures amounts { (result.0 ≡ limit_of self.now.booked.book.plan part) × (result.1 ≡ used part self.now.booked.book.grants) }
        ensures once { IsPartOnce (J.plan self.now.at) part result }
    {
        let book = self.book();
        (book.plan().limit(part), book.used(part))
    }

    /// By how much each grant's part has more than a plan allows, in the order of the grants.
    pub(crate) fn overruns(&self, plan: &Plan) -> ArrayVec<Option<Overrun>, MOST>
        ensures { result.items ≡ overruns_of plan.now self.now.booked.book.grants self.now.booked.book.grants }
    {
        let book = &self.book;
        let mut overruns = ArrayVec::new();
        let mut rest = book.grants();
        while let Some((held, later)) = rest.split_first() {
            overruns.push(book.overrun(plan, held));
            rest = later;
        }
        overruns
    }

    /// The entries of all sessions that are there, in the order in which they came.
    pub(crate) fn listed(&self) -> ArrayVec<Present, MOST>
        ensures { result.items ≡ self.now.roll }
    {
        let mut listed = ArrayVec::new();
        listed.try_extend_from_slice(self.roll.entries()).unwrap();
        listed
    }
}

impl<J: SiteNaming, A: Allocator + Clone> UnderLock for LockedSite<J, A> {
    ghost use Rattle.desk.specs.Counts.{has_ready};
    ghost use Rattle.fair_share.specs.Picks.{IsFairTask};
    ghost use Rattle.site_desk.specs.Sites.{IsSiteStep, IsNextTask, site_waits_on};

    type Badge = SiteBadge;

    ghost is_offered = { IsSiteStep };

    ghost has_ready = { λ site. has_ready site.booked.hall.shared };

    ghost waits_on = { site_waits_on };

    ghost is_next = { IsNextTask };

    // What is said of a pick is that it is a fair one at the hall as it is then.
    ghost is_fair = { λ site task. IsFairTask site.booked.hall.shared site.shares task };

    /// Offers a worker's step to the hall, and counts it in the badge where it is taken.
    fn offer(&mut self, badge: &mut SiteBadge, step: &Step<Jamboree>) -> StepAnswer {
        let answer = self.noted.offer(&mut self.workers, step);
        if answer.is_ok() {
            badge.steps += 1;
        }
        answer
    }

    /// Whether some tenant has a ready frame.
    fn has_ready(&self) -> bool {
        has_ready(self.noted.hall())
    }

    /// Whether who waits for this job waits on: its session wasn't told to end, and the job hasn't ended.
    fn waits_on(&self, tenant: u64, job: u64) -> bool {
        self.stays(tenant) && is_awaited(self.noted.hall(), tenant, job)
    }

    /// The task that comes next, by who was served least or has waited longest; else any ready frame. None where none
    /// is ready.
    fn next_task(&mut self) -> Option<Task> {
        match self.pick() {
            Some(task) => Some(task),
            None => next_ready(self.noted.hall()),
        }
    }

    /// The task that comes next, by who was served least or has waited longest; None where that tenant has no ready
    /// frame, or there is no such tenant.
    fn pick(&mut self) -> Option<Task> {
        self.pick()
    }

    /// Notes that a session's tenant, and so its network and its customer, were served so much more.
    fn charge(&mut self, tenant: u64, amount: u64) {
        self.charge(tenant, amount);
    }
}

/// The history of what a book granted, where that is nothing so far.
#[tactic(auto, using(crate::proofs::Holding::none_held))]
fn first_events(granted: Opened<BookEvent>, book: &CustomerBook) -> StepLog<BookEvent>
    ensures log { result ≡ record { id = granted; entries = [] } }
    ensures held { AreHeld result.entries book.now }
{
    let _book = book;
    granted.into_log()
}

/// Whether one of these sessions has this number and wasn't told to end.
fn stays_in(roll: &[Present], number: u64) -> bool
    ensures { result ≡ stays_in number roll.now }
{
    for present in roll {
        if number == present.session && present.told.is_none() {
            return true;
        }
    }
    false
}
