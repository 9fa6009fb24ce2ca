//! Tests of a site's desk with several sessions: each call is made for its own session's tenant, and changes no
//! neighbour's.
use super::bells::{OPENING, stock_for_all};
use super::holds;
use super::sites::{amount, seat_of, stock_of};
use super::trials::{Trial, try_all, try_out};
use hall::{Outcome, Refusal};
use site_book::{Amount, BookRefusal, Group, Plan, Told, Who, Whom};
use site_desk::{SiteDesk, SiteNaming, SiteSeat, SiteStock, Turned};
use std::alloc::Global;
use std::process::Abort;
use std::sync::Wait;
use tenant_quota::{Left, Reserve};

/// The seat of a guest of this number at the desk.
fn guest<J: SiteNaming, R: Wait + Abort>(rt: &R, desk: &SiteDesk<J>, number: u32) -> SiteSeat<J> {
    seat_of(rt, desk, Who::V4(number), 1_000).expect(rt, "there is room")
}

/// Whether a session's tenant has this left of its reservation, and so many frames.
fn has_left<J: SiteNaming, R: Wait>(
    rt: &R,
    desk: &SiteDesk<J>,
    seat: &mut SiteSeat<J>,
    left: Left,
    frames: usize,
) -> bool {
    desk.quota(rt, seat) == Ok(left)
        && match desk.live(rt, seat) {
            Ok((many, _words)) => many == frames,
            Err(_) => false,
        }
}

/// What is left of eight segments and eighty nodes behind so many jobs of one frame, of which so many go on.
fn left_of(jobs: u32, live: u32) -> Left {
    Left {
        segments: 8 - live.min(8),
        nodes: 80 - jobs.min(80),
        steps: 1_280,
    }
}

/// Of three sessions the second asks, and the third asks twice and cancels the first of these jobs: each is told of its own.
pub(super) fn told_of_their_own<J: SiteNaming, R: Wait + Abort>(rt: &R, desk: &SiteDesk<J>) {
    let mut first = guest(rt, desk, 1);
    let mut second = guest(rt, desk, 2);
    let mut third = guest(rt, desk, 3);
    holds(rt, desk.ask(rt, &mut second, &OPENING, 3) == Ok(1));
    for job in 1..3u64 {
        holds(rt, desk.ask(rt, &mut third, &OPENING, 2) == Ok(job));
    }
    holds(rt, desk.cancel(rt, &mut third, 1).is_ok());
    holds(rt, has_left(rt, desk, &mut first, left_of(0, 0), 0));
    holds(rt, has_left(rt, desk, &mut second, left_of(1, 1), 1));
    holds(rt, has_left(rt, desk, &mut third, left_of(2, 1), 1));
}

/// Of three sessions, one asks nothing, one asks once and one asks twice and cancels once: each is told of its own
/// quota and frames.
#[test]
fn each_session_is_told_of_its_own(rt: HostRuntime) {
    try_out(&rt, stock_for_all(&rt, rt.alloc()), Trial::ToldTheirOwn);
}

/// The desk of a hall where two guests may have a session each, of twice what they begin with.
fn stock_for_two(rt: &impl Abort, alloc: Global) -> SiteStock {
    let all = amount(2, 24, 240);
    let guests = (amount(1, 16, 160), all, all);
    stock_of(alloc, (2, 24, 240), Vec::new(alloc), guests).expect(rt, "a desk")
}

/// The second of two sessions raises what it reserves, and then the first leaves: the second has what it raised, and the first's is free.
pub(super) fn one_raises<J: SiteNaming, R: Wait + Abort>(rt: &R, desk: &SiteDesk<J>) {
    let mut first = guest(rt, desk, 1);
    let mut second = guest(rt, desk, 2);
    let more = Reserve::new(16, 160).expect(rt, "within the limits");
    holds(rt, desk.reserve(rt, &mut second, more).is_ok());
    let raised = Left {
        segments: 16,
        nodes: 160,
        steps: 2_560,
    };
    holds(
        rt,
        has_left(rt, desk, &mut first, left_of(0, 0), 0)
            && has_left(rt, desk, &mut second, raised, 0),
    );
    let _trace = desk.leave(rt, first);
    holds(rt, has_left(rt, desk, &mut second, raised, 0));
    let (_may, has) = desk.part(rt, Group::All);
    holds(rt, has == amount(1, 16, 160));
}

/// A session's raise and Leave change nothing for its neighbour.
#[test]
fn a_raise_and_a_leave_are_ones_own(rt: HostRuntime) {
    try_out(&rt, stock_for_two(&rt, rt.alloc()), Trial::OneRaises);
}

/// 64 sessions have come and gone; the one that comes then, beside another, is a session of its own.
pub(super) fn sixty_six_come<J: SiteNaming, R: Wait + Abort>(rt: &R, desk: &SiteDesk<J>) {
    for number in 1..65u32 {
        let seat = guest(rt, desk, number);
        let _trace = desk.leave(rt, seat);
    }
    let mut neighbour = guest(rt, desk, 65);
    let mut own = guest(rt, desk, 66);
    holds(rt, neighbour.number() == 65 && own.number() == 66);
    holds(rt, desk.ask(rt, &mut own, &OPENING, 2) == Ok(1));
    holds(rt, has_left(rt, desk, &mut neighbour, left_of(0, 0), 0));
    holds(rt, desk.ask(rt, &mut neighbour, &OPENING, 2) == Ok(1));
    holds(rt, has_left(rt, desk, &mut own, left_of(1, 1), 1));
}

/// 64 sessions came and left; of the two that come then, each is told of its own.
#[test]
fn the_sixty_sixth_session_is_its_own(rt: HostRuntime) {
    try_out(&rt, stock_for_all(&rt, rt.alloc()), Trial::SixtySixCome);
}

/// The budgets of so many named customers that may have a session each.
fn named(rt: &impl Abort, alloc: Global, many: u32, each: Amount) -> Vec<Amount> {
    let mut customers = Vec::new(alloc);
    for _ in 0..many {
        holds(rt, customers.push(each).is_ok());
    }
    customers
}

/// The plan of a hall where so many named customers may have this each, and guests a session each.
fn plan_of(rt: &impl Abort, alloc: Global, many: u32, each: Amount) -> Plan {
    let all = amount(64, 512, 5_120);
    let guests = amount(52, 416, 4_160);
    Plan::new(
        all,
        named(rt, alloc, many, each),
        amount(1, 8, 80),
        guests,
        guests,
    )
    .expect(rt, "a plan")
}

/// The desk of a hall where twelve named customers may have a session each, and guests too.
fn stock_for_twelve(rt: &impl Abort, alloc: Global) -> SiteStock {
    let guests = amount(52, 416, 4_160);
    let customers = named(rt, alloc, 12, amount(1, 8, 80));
    let each = (amount(1, 8, 80), guests, guests);
    stock_of(alloc, (64, 512, 5_120), customers, each).expect(rt, "a desk")
}

/// Each of twelve named customers has its own budget, comes, and gives back all when it leaves.
pub(super) fn twelve_give_back<J: SiteNaming, R: Wait + Abort>(rt: &R, desk: &SiteDesk<J>) {
    for number in 0..12u32 {
        let mut seat = seat_of(rt, desk, Who::Named(number), 1_000).expect(rt, "there is room");
        holds(
            rt,
            desk.budget(rt, &mut seat) == (amount(1, 8, 80), amount(1, 8, 80)),
        );
        let _trace = desk.leave(rt, seat);
        let (_may, has) = desk.part(rt, Group::All);
        holds(rt, has == amount(0, 0, 0));
    }
}

/// Twelve named customers come in turn, each by its own budget, and give back all as they leave.
#[test]
fn twelve_customers_give_back_all(rt: HostRuntime) {
    try_out(
        &rt,
        stock_for_twelve(&rt, rt.alloc()),
        Trial::TwelveGiveBack,
    );
}

/// A plan that gives named customers less comes in once those have left who have more: who has more is said, they are told, and then the
/// new budgets hold and the old plan is given back.
pub(super) fn a_plan_comes<J: SiteNaming, R: Wait + Abort + AllocGlobal>(
    rt: &R,
    desk: &SiteDesk<J>,
) {
    let tenth = seat_of(rt, desk, Who::Named(9), 1_000).expect(rt, "there is room");
    let other = guest(rt, desk, 1);
    let plan = plan_of(rt, rt.alloc(), 12, amount(1, 4, 40));
    let over = desk.overruns(rt, &plan);
    holds(
        rt,
        over.len() == 2 && over[0].is_some() && over[1].is_none(),
    );
    desk.tell_by(rt, &plan);
    holds(rt, !desk.stays(rt, &tenth) && desk.stays(rt, &other));
    let Err((plan, _refusal)) = desk.reload(rt, plan) else {
        return holds(rt, false);
    };
    let _trace = desk.leave(rt, tenth);
    let Ok((old, _known)) = desk.reload(rt, plan) else {
        return holds(rt, false);
    };
    holds(rt, old.budget(Who::Named(9)) == amount(1, 8, 80));
    holds(rt, seat_of(rt, desk, Who::Named(9), 1_000).is_none());
    let (may, _has) = desk.part(rt, Group::Own(Who::Named(9)));
    holds(rt, may == amount(1, 4, 40));
}

/// A plan that gives twelve customers less is refused while the tenth has more, and comes in once its session has left.
#[test]
fn a_plan_comes_in_whole(rt: HostRuntime) {
    try_out(&rt, stock_for_twelve(&rt, rt.alloc()), Trial::PlanComes);
}

/// Who is told to end is just who was named.
pub(super) fn one_is_told<J: SiteNaming, R: Wait + Abort>(rt: &R, desk: &SiteDesk<J>) {
    let first = guest(rt, desk, 1);
    let second = guest(rt, desk, 2);
    let third = guest(rt, desk, 3);
    desk.tell(rt, Whom::One(second.number()), Told::ByOperator);
    holds(
        rt,
        desk.stays(rt, &first) && !desk.stays(rt, &second) && desk.stays(rt, &third),
    );
}

/// The operator tells the second of three sessions to end: that one alone doesn't stay.
#[test]
fn one_of_three_is_told(rt: HostRuntime) {
    try_out(&rt, stock_for_all(&rt, rt.alloc()), Trial::OneIsTold);
}

/// What the desks of two halls of a site are made of.
fn stocks_of_two(rt: &impl Abort, alloc: Global) -> Vec<SiteStock> {
    let mut stocks = Vec::new(alloc);
    for _ in 0..2u8 {
        holds(rt, stocks.push(stock_for_all(rt, alloc)).is_ok());
    }
    stocks
}

/// A seat of the first desk is at the second as one that isn't there, though that has a session of its number.
pub(super) fn strangers_are_refused<J: SiteNaming, R: Wait + Abort>(rt: &R, desks: &[SiteDesk<J>]) {
    let (Some(own), Some(other)) = (desks.get(0), desks.get(1)) else {
        return holds(rt, false);
    };
    let mut seat = guest(rt, own, 1);
    let mut theirs = guest(rt, other, 1);
    holds(rt, seat.number() == theirs.number());
    holds(rt, own.ask(rt, &mut seat, &OPENING, 2) == Ok(1));
    holds(rt, other.ask(rt, &mut theirs, &OPENING, 2) == Ok(1));
    holds(
        rt,
        other.ask(rt, &mut seat, &OPENING, 2) == Err(Refusal::NoTenant),
    );
    holds(rt, other.get(rt, &mut seat, 1) == Ok(Outcome::Pending));
    holds(
        rt,
        other.wait(rt, &mut seat, 1, 1_000) == Ok(Outcome::Pending),
    );
    holds(rt, other.get(rt, &mut seat, 2) == Err(Refusal::NoJob));
    holds(rt, other.cancel(rt, &mut seat, 1) == Err(Refusal::NoTenant));
    holds(rt, other.cancel(rt, &mut seat, 2) == Err(Refusal::NoJob));
    holds(rt, other.quota(rt, &mut seat) == Err(Refusal::NoTenant));
    holds(rt, other.live(rt, &mut seat).is_err());
    let more = Reserve::new(8, 81).expect(rt, "within the limits");
    let gone = Turned::ByBook(BookRefusal::Gone);
    holds(rt, other.reserve(rt, &mut seat, more) == Err(gone));
    holds(rt, !other.stays(rt, &seat) && own.stays(rt, &seat));
    holds(rt, other.leave(rt, seat).is_none());
    holds(rt, has_left(rt, other, &mut theirs, left_of(1, 1), 1));
    holds(rt, own.roll(rt).len() == 1 && other.roll(rt).len() == 1);
}

/// A seat of one desk of a site is nobody's at another desk, though that has a session of its number.
#[test]
fn a_seat_is_its_own_desks(rt: HostRuntime) {
    try_all(&rt, stocks_of_two(&rt, rt.alloc()), Trial::Strangers);
}

/// Two sessions of a desk leave, and one of another: the two can be compared, and neither with the third.
pub(super) fn two_leave<J: SiteNaming, R: Wait + Abort>(rt: &R, desks: &[SiteDesk<J>]) {
    let (Some(own), Some(other)) = (desks.get(0), desks.get(1)) else {
        return holds(rt, false);
    };
    let (first, second) = (guest(rt, own, 1), guest(rt, own, 2));
    let third = guest(rt, other, 1);
    let (Some(mut one), Some(mut two), Some(mut three)) = (
        own.leave(rt, first),
        own.leave(rt, second),
        other.leave(rt, third),
    ) else {
        return holds(rt, false);
    };
    holds(rt, own.compare(rt, &mut one, &mut two));
    holds(
        rt,
        !own.compare(rt, &mut one, &mut three) && !other.compare(rt, &mut one, &mut two),
    );
}

/// Two sessions that left one desk can be compared, and neither with one that left another desk.
#[test]
fn two_that_left_are_compared(rt: HostRuntime) {
    try_all(&rt, stocks_of_two(&rt, rt.alloc()), Trial::TwoLeave);
}
