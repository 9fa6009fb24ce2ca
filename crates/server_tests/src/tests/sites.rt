//! Tests of a site's sessions over a desk without workers: bytes in, bytes out, and a clock that goes on by a step at
//! each look.
ghost use Rattle.std.specs.Prelude.{◌≡◌};

use super::trials::{Trial, try_out};
use crate::tests::{holds, spell};
use fair_share::FairShare;
use hall::{Config, Hall};
use line_io::{FromReader, FromWriter};
use site_book::{Amount, Comer, CustomerBook, Plan, Who};
use site_desk::{SeatOutcome, SiteDesk, SiteNaming, SiteSeat, SiteStock};
use site_office::{Cause, Connection, Environment, Identity, Note, serve_connection};
use std::alloc::Global;
use std::process::Abort;
use std::sync::Wait;
use std::time::Clock;
use steal_pool::desk::Opened;
use tenant_quota::Reserve;

/// Three guests of IPv4.
const GUEST: Who = Who::V4(1);

const OTHER: Who = Who::V4(2);

const THIRD: Who = Who::V4(3);

/// The named customer, and its token.
const SCHOOL: Who = Who::Named(0);

const TOKEN: &[u8] = b"sesame";

/// An amount of so many sessions, segments and nodes.
pub(super) fn amount(sessions: u32, segments: u64, nodes: u64) -> Amount
    ensures { result ≡ record { sessions = sessions; segments = segments; nodes = nodes } }
{
    Amount {
        sessions,
        segments,
        nodes,
    }
}

/// What the desk of a hall for so many sessions is made of, with so many segments and nodes; its customers' budgets, and what a guest, a
/// network and all guests may have. None where memory is refused.
pub(super) fn stock_of(
    alloc: Global,
    all: (u32, u32, u32),
    customers: Vec<Amount>,
    guests: (Amount, Amount, Amount),
) -> Option<SiteStock> {
    let (sessions, segments, nodes) = all;
    let totals = amount(sessions, u64::from(segments), u64::from(nodes));
    let (guest, network, guests) = guests;
    let plan = Plan::new(totals, customers, guest, network, guests)?;
    let config = Config::new(segments, nodes)?;
    let (Ok(book), Ok(hall), Ok(shares), Ok(opened), Ok(granted)) = (
        CustomerBook::new(alloc, plan),
        Hall::new(alloc, config, 4),
        FairShare::new(alloc, 8),
        Opened::new(alloc),
        Opened::new(alloc),
    ) else {
        return None;
    };
    Some(SiteStock::new(hall, book, shares, opened, granted))
}

/// A list of this one element.
pub(super) fn only<T: Drop>(rt: &impl Abort, alloc: Global, one: T) -> Vec<T> {
    let mut all = Vec::new(alloc);
    holds(rt, all.push(one).is_ok());
    all
}

/// The desk of a hall where the school may have two sessions, and two guests one each.
fn stock_of_school(rt: &impl Abort, alloc: Global) -> SiteStock {
    let customers = only(rt, alloc, amount(2, 16, 160));
    let guests = (amount(1, 8, 80), amount(1, 8, 80), amount(2, 16, 160));
    stock_of(alloc, (4, 32, 320), customers, guests).expect(rt, "a desk")
}

/// An environment whose clock goes on at each look, and in which one other session may be that leaves when it is told.
#[derive(Drop)]
struct TestEnvironment<'a, J: SiteNaming, R> {
    rt: &'a R,
    desk: &'a SiteDesk<J>,
    own: Who,
    /// The time, and how far it goes on.
    now: std::cell::Cell<u64>,
    step: u64,
    /// How many lines are paid.
    paid: u32,
    is_crowded: bool,
    other: Option<SiteSeat<J>>,
    /// What it was told, a letter each.
    told: Vec<u8>,
}

/// The letter that a test writes for a note that the office makes in its environment.
fn letter(note: Note) -> u8 {
    match note {
        Note::Begins(_, Who::Named(_)) => b'N',
        Note::Begins(_, _) => b'B',
        Note::Ended(_) => b'E',
        Note::Waits(true) => b'W',
        Note::Waits(false) => b'w',
        Note::Value => b'v',
        Note::Refused(Cause::Budget) => b'b',
        Note::Refused(Cause::Guests) => b'g',
        Note::Refused(Cause::Rate) => b'r',
        Note::Refused(Cause::Token) => b't',
        Note::Refused(Cause::Connections) => b'c',
        Note::Refused(Cause::Memory) => b'm',
        Note::Tells(_) => b'T',
    }
}

impl<J: SiteNaming, R: Wait> Environment for TestEnvironment<'_, J, R> {
    /// The clock goes on by a step at each look.
    fn now(&self) -> u64 {
        self.now.set(self.now.get().saturating_add(self.step));
        self.now.get()
    }

    /// A guest may say nothing for a minute (60,000 milliseconds).
    fn guest_idle(&self) -> u64 {
        60_000
    }

    /// The connection's own customer without a token, the school by its token, and nobody by any other; crowded where
    /// the test says so.
    fn identify(&mut self, token: Option<&[u8]>) -> Identity {
        if self.is_crowded {
            return Identity::Crowded;
        }
        match token {
            None => Identity::Is(self.own, 0),
            Some(word) if word == TOKEN => Identity::Is(SCHOOL, 0),
            Some(_) => Identity::Nobody,
        }
    }

    /// Whether a line is left of those that are paid for.
    fn pay(&mut self, _who: Who) -> bool {
        let passes = self.paid > 0;
        self.paid = self.paid.saturating_sub(1);
        passes
    }

    /// Keeps a letter for what it is told; where it is to tell others to end, the other session leaves.
    fn note(&mut self, note: Note) {
        let _ = self.told.push(letter(note));
        if let Note::Tells(_) = note {
            if let Some(seat) = self.other.take() {
                let _trace = self.desk.leave(self.rt, seat);
            }
        }
    }
}

/// What an office in a test asks of the site around it, where its connection is a guest's.
fn environment<'a, J: SiteNaming, R: AllocGlobal>(
    rt: &'a R,
    desk: &'a SiteDesk<J>,
) -> TestEnvironment<'a, J, R> {
    TestEnvironment {
        rt,
        desk,
        own: GUEST,
        now: std::cell::Cell::new(100_000),
        step: 10,
        paid: 99,
        is_crowded: false,
        other: None,
        told: Vec::new(rt.alloc()),
    }
}

/// What is said in a session, what is answered, and what its environment is told.
type Talk = (&'static str, &'static str, &'static str);

/// Plays a session, and fails the test unless it is answered so and its environment is told so.
fn plays<J: SiteNaming, R: Wait + Clock + Abort + AllocGlobal>(
    rt: &R,
    desks: &[SiteDesk<J>],
    environment: TestEnvironment<'_, J, R>,
    talk: Talk,
) {
    let (said, answered, told) = talk;
    let (desk, own) = (environment.desk, environment.own);
    let mut source = FromReader {
        reader: said.as_bytes(),
    };
    let mut sink = FromWriter::new(Vec::new(rt.alloc()));
    let connection = Connection {
        desks,
        desk,
        environment,
        own,
        grain: 4,
    };
    let (end, _knew, environment) = serve_connection(rt, &mut source, &mut sink, connection);
    holds(rt, end.is_ok());
    let TestEnvironment { told: noted, .. } = environment;
    holds(rt, spell(&sink.writer, answered));
    holds(rt, spell(&noted, told));
}

/// Plays a session over a guest's connection, and compares what is said with what should be.
fn guest_plays<J: SiteNaming, R: Wait + Clock + Abort + AllocGlobal>(
    rt: &R,
    desks: &[SiteDesk<J>],
    desk: &SiteDesk<J>,
    talk: Talk,
) {
    plays(rt, desks, environment(rt, desk), talk);
}

/// The seat at a site's desk of a customer that came at this time.
pub(super) fn seat_of<J: SiteNaming, R: Wait + Abort>(
    rt: &R,
    desk: &SiteDesk<J>,
    who: Who,
    at: u64,
) -> Option<SiteSeat<J>> {
    let ask = Reserve::new(8, 80)?;
    let comer = Comer {
        who,
        ask,
        at,
        most: 60_000,
    };
    match desk.come(rt, &comer) {
        SeatOutcome::Seated(seat) => Some(seat),
        _ => None,
    }
}

/// The session that has this seat leaves the desk.
fn leaves<J: SiteNaming, R: Wait + Abort>(rt: &R, desk: &SiteDesk<J>, seat: Option<SiteSeat<J>>) {
    let _trace = desk.leave(rt, seat.expect(rt, "a seat"));
}

/// A session of a guest, from its first line to its last.
const WHOLE: Talk = (
    "INFO\nPING\nPING now\nHELLO 9 8\nHELLO 4 8\nINFO\nPING\nRESERVE 4 8\nRESERVE 8 81\r\r\nRESERVE 8 81\nRESERVE 8 80\nINFO\nQUOTA\nHELLO 1 1\nBYE\nQUOTA\n",
    "ERR 28\nPONG\nERR 21\nERR 14\nWELCOME 4 8\nINFO 4 8 80 4 8 1.0.0\nPONG\nERR 20\nERR 23\nERR 14\nRESERVED 8 80\nINFO 4 8 80 8 80 1.0.0\nQUOTA 8 80 1280\nERR 29\nBYE\n",
    "bBbE",
);

/// Plays one guest's session, behind which nobody is there.
pub(super) fn a_guest_plays<J: SiteNaming, R: Wait + Clock + Abort + AllocGlobal>(
    rt: &R,
    desks: &[SiteDesk<J>],
    desk: &SiteDesk<J>,
) {
    guest_plays(rt, desks, desk, WHOLE);
    holds(rt, desk.roll(rt).is_empty());
}

/// A guest's session from its first line to BYE, by its bytes.
#[test]
fn a_guests_session(rt: HostRuntime) {
    try_out(&rt, stock_of_school(&rt, rt.alloc()), Trial::GuestsSession);
}

/// The school's token, behind one that nobody has.
const SCHOOLS: Talk = (
    "HELLO 16 160 sesam\nHELLO 16 160 sesame\nINFO\n",
    "ERR 30\nWELCOME 16 160\nINFO 4 16 160 16 160 1.0.0\n",
    "tNE",
);

/// A guest's session, behind two tokens.
const OWN_AGAIN: Talk = (
    "HELLO 17 160 sesame\nHELLO 9 80 sesam\nHELLO 9 80\nHELLO 8 80\nINFO\n",
    "ERR 14\nERR 30\nERR 14\nWELCOME 8 80\nINFO 4 8 80 8 80 1.0.0\n",
    "btbBE",
);

/// Two sessions over a guest's connection: the first says the school's token, and the second is a guest's again.
pub(super) fn tokens_are_said<J: SiteNaming, R: Wait + Clock + Abort + AllocGlobal>(
    rt: &R,
    desks: &[SiteDesk<J>],
    desk: &SiteDesk<J>,
) {
    guest_plays(rt, desks, desk, SCHOOLS);
    guest_plays(rt, desks, desk, OWN_AGAIN);
}

/// A token in HELLO says whose a session is. One that nobody has is refused, and then the connection counts for itself
/// again.
#[test]
fn whose_a_session_is(rt: HostRuntime) {
    try_out(&rt, stock_of_school(&rt, rt.alloc()), Trial::Tokens);
}

/// A guest that can pay for two lines.
const POOR: Talk = (
    "HELLO 9 8\nQUOTA\nHELLO 4 8\nQUOTA\nINFO\nRESERVE 5 8\nLIVE\n",
    "ERR 14\nERR 28\nWELCOME 4 8\nQUOTA 4 8 128\nINFO 4 8 80 4 8 1.0.0\nERR 31\nLIVE 0 0\n",
    "bBrE",
);

/// A guest that can pay for one line, where all connections are taken.
const CROWDED: Talk = ("HELLO 4 8\nHELLO 4 8\n", "ERR 14\nERR 31\n", "ccr");

/// The session of a guest that can pay for two lines, and of one that finds all connections taken.
pub(super) fn lines_are_paid<J: SiteNaming, R: Wait + Clock + Abort + AllocGlobal>(
    rt: &R,
    desks: &[SiteDesk<J>],
    desk: &SiteDesk<J>,
) {
    let mut poor = environment(rt, desk);
    poor.paid = 2;
    plays(rt, desks, poor, POOR);
    let mut crowded = environment(rt, desk);
    crowded.is_crowded = true;
    crowded.paid = 1;
    plays(rt, desks, crowded, CROWDED);
}

/// HELLO and RESERVE, which ask for a reservation, are charged to the customer's rate of lines, and no other lines are.
#[test]
fn lines_that_are_paid_for(rt: HostRuntime) {
    try_out(&rt, stock_of_school(&rt, rt.alloc()), Trial::PaidLines);
}

/// A guest has its place once another one has left.
const SEATED: Talk = ("HELLO 8 80\nBYE\n", "WELCOME 8 80\nBYE\n", "TBE");

/// Of two guests at a site's desk one is idle, and leaves once it is told to end for a third.
pub(super) fn one_goes<J: SiteNaming, R: Wait + Clock + Abort + AllocGlobal>(
    rt: &R,
    desks: &[SiteDesk<J>],
    desk: &SiteDesk<J>,
) {
    let idle = seat_of(rt, desk, OTHER, 1_000);
    let busy = seat_of(rt, desk, THIRD, 99_000);
    holds(rt, idle.is_some() && busy.is_some());
    let mut waiting = environment(rt, desk);
    waiting.other = idle;
    plays(rt, desks, waiting, SEATED);
    holds(rt, desk.roll(rt).len() == 1);
    leaves(rt, desk, busy);
}

/// Where all places of guests are taken, the guest that has been idle for longest is told to end for one that comes,
/// who has its place once that guest has left.
#[test]
fn a_guest_goes_for_another(rt: HostRuntime) {
    try_out(&rt, stock_of_school(&rt, rt.alloc()), Trial::OneGoes);
}

/// A guest gives up, after it was told that another one was told to end; and where none is.
const GIVES_UP: Talk = ("HELLO 8 80\n", "ERR 14\n", "Tg");

const FINDS_NO_PLACE: Talk = ("HELLO 8 80\n", "ERR 14\n", "g");

/// Two guests are there, of whom one is idle and doesn't leave; and then two of whom none is idle.
pub(super) fn nobody_goes<J: SiteNaming, R: Wait + Clock + Abort + AllocGlobal>(
    rt: &R,
    desks: &[SiteDesk<J>],
    desk: &SiteDesk<J>,
) {
    let idle = seat_of(rt, desk, OTHER, 1_000);
    let busy = seat_of(rt, desk, THIRD, 99_000);
    let mut waiting = environment(rt, desk);
    waiting.step = 950;
    plays(rt, desks, waiting, GIVES_UP);
    holds(rt, desk.roll(rt).len() == 2);
    leaves(rt, desk, idle);
    let other = seat_of(rt, desk, OTHER, 99_000);
    guest_plays(rt, desks, desk, FINDS_NO_PLACE);
    leaves(rt, desk, busy);
    leaves(rt, desk, other);
    holds(rt, desk.roll(rt).is_empty());
}

/// One that waits for a guest which doesn't leave gives up after 2 seconds of the clock; and no guest is told to end
/// where none is idle.
#[test]
fn a_guest_that_does_not_leave(rt: HostRuntime) {
    try_out(&rt, stock_of_school(&rt, rt.alloc()), Trial::NobodyGoes);
}
