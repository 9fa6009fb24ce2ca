//! Tests of a hall in one thread, driven step by step.
ghost use Rattle.std.specs.Prelude.{◌≤◌};
ghost use Rattle.jamboree_core.specs.Replies.{IsSearch};

use crate::tests::memory::growths::{ALL, Made, are_refused};
use crate::tests::memory::plain_core::{free_segments, left};
use crate::tests::memory::{config_of, reserve_of};
use crate::tests::{heap_of, holds, left_of, opening};
use hall::{
    Config, Did, DidOf, Hall, Jamboree, Outcome, Refusal, Step, StepAnswer, StepOf, submit,
};
use linked_list_allocator::LocalHeap;
use othello_moves::Choice;
use std::alloc::{AllocError, Allocator};
use std::process::Abort;
use std::test::Fail;
use tenant_quota::{Left, Reserve};
use turns::play;

mod memory;
mod turns;

/// A hall of these totals, whose searches have this grain.
fn made<A: Allocator + Clone>(alloc: A, config: Config, grain: u8) -> Result<Hall<A>, AllocError>
    requires { grain ≤ 6 }
{
    Hall::new(alloc, config, grain)
}

/// Offers a step. What the contract says of it no test needs, and a function that knows it is dear to prove; so are
/// those below it.
fn offer<A: Allocator + Clone>(hall: &mut Hall<A>, step: &Step<Jamboree>) -> StepAnswer
    requires { IsSearch step.now }
{
    hall.offer(step)
}

/// What became of a tenant's job in the hall.
fn outcome<A: Allocator>(hall: &Hall<A>, tenant: u64, job: u64) -> Option<Outcome> {
    hall.outcome(tenant, job)
}

/// How many steps were taken, and how many of them are in no journal.
fn counts<A: Allocator>(hall: &Hall<A>) -> (u128, u128) {
    (hall.count(), hall.gone())
}

/// Offers the hall a step, which must be taken and do this.
fn does<A: Allocator + Clone>(
    rt: &impl Abort,
    hall: &mut Hall<A>,
    step: &Step<Jamboree>,
    did: Did<Jamboree>,
)
    requires { IsSearch step.now }
{
    holds(rt, offer(hall, step) == Ok(did));
}

/// A tenant is admitted with this reservation.
fn admit<A: Allocator + Clone>(rt: &impl Abort, hall: &mut Hall<A>, tenant: u64, reserve: Reserve) {
    let admission = StepOf::Admit(tenant, reserve);
    does(rt, hall, &admission, DidOf::Admitted);
}

/// A tenant asks for the opening to this depth, at most 12, as a job of this number, which is pending.
fn asks<A: Allocator + Clone>(
    rt: &impl Abort,
    hall: &mut Hall<A>,
    tenant: u64,
    depth: u8,
    job: u64,
) {
    let answer = offer(hall, &submit(tenant, &opening(), depth.min(12)));
    let is_asked = matches!(answer, Ok(DidOf::Submitted(number, _)) if number == job);
    holds(rt, is_asked);
    has_become(rt, hall, tenant, job, Outcome::Pending);
}

/// Fails the test unless this became of a tenant's job.
fn has_become<A: Allocator>(
    rt: &impl Abort,
    hall: &Hall<A>,
    tenant: u64,
    job: u64,
    wanted: Outcome,
) {
    holds(rt, outcome(hall, tenant, job) == Some(wanted));
}

/// A tenant's first job is done, with this value and this choice.
fn is_done<A: Allocator>(
    rt: &impl Abort,
    hall: &Hall<A>,
    tenant: u64,
    value: i32,
    choice: Option<Choice>,
) {
    match outcome(hall, tenant, 1) {
        Some(Outcome::Done(reply)) => {
            holds(rt, reply.value() == value && reply.choice() == choice);
        }
        _ => panic!(rt; "not done"),
    }
}

/// A tenant leaves, and then no journal is kept.
fn leave<A: Allocator + Clone>(rt: &impl Abort, hall: &mut Hall<A>, tenant: u64, count: u128) {
    does(rt, hall, &StepOf::Leave(tenant), DidOf::Left);
    holds(rt, counts(hall) == (count, count));
}

/// In a hall of 8 segments and 32 nodes, at grain 2, tenant 1's job of the opening to depth 0, from the admission to
/// the Leave: seven steps are taken before the Leave.
#[test]
fn a_job_is_done(rt: HostRuntime) -> Result<(), Fail> {
    let mut hall = made(rt.alloc(), config_of(&rt, 8, 32), 2)?;
    let tenant = hall.next_tenant();
    admit(&rt, &mut hall, tenant, reserve_of(&rt, 4, 8));
    asks(&rt, &mut hall, tenant, 0, 1);
    play(&rt, &mut hall);
    is_done(&rt, &hall, tenant, 0, None);
    holds(&rt, counts(&hall) == (7, 0) && hall.kept() == 0);
    leave(&rt, &mut hall, tenant, 8);
    holds(&rt, hall.next_tenant() == 2);
    holds(&rt, outcome(&hall, tenant, 1) == None);
    Ok(())
}

/// How many bytes are taken before the hall is made, and given back once an admission or a raise was refused.
pub const BALLAST: usize = 262_144;

/// How many bytes more the next heap has.
pub const UNIT: u32 = 32;

/// How many bytes a place of a journal takes, and one for a long entry.
const PLACE: u32 = 8;

const LONG_PLACE: u32 = 48;

/// The places of a journal beside those for nodes, and those of long steps, as in hall/src/journal.rt.
const BESIDE_NODES: u32 = 770;

const LONGS_BESIDE_NODES: u32 = 513;

/// What the hall shows of its first tenant and of its storage.
fn look_at<A: Allocator>(hall: &Hall<A>) -> (Option<Left>, usize, u128, u64) {
    (
        left(hall.core(), 1),
        free_segments(hall.core()),
        counts(hall).0,
        hall.next_tenant(),
    )
}

/// Takes an admission or a raise, or answers that memory is wanting; and then nothing has changed.
fn is_taken<A: Allocator + Clone>(
    rt: &impl Abort,
    hall: &mut Hall<A>,
    step: &Step<Jamboree>,
    did: Did<Jamboree>,
) -> bool
    requires { IsSearch step.now }
{
    let before = look_at(hall);
    let answer = offer(hall, step);
    if answer == Err(Refusal::OutOfMemory) {
        holds(rt, look_at(hall) == before);
        return false;
    }
    holds(rt, answer == Ok(did));
    true
}

/// Admits tenant 1, or answers that memory is wanting.
fn is_admitted<A: Allocator + Clone>(rt: &impl Abort, hall: &mut Hall<A>) -> bool {
    let admission = StepOf::Admit(1, reserve_of(rt, 1, 1));
    let is = is_taken(rt, hall, &admission, DidOf::Admitted);
    is
}

/// Raises what tenant 1 reserves, or answers that memory is wanting; its job is pending either way.
fn is_raised<A: Allocator + Clone>(rt: &impl Abort, hall: &mut Hall<A>) -> bool {
    let raise = StepOf::AdmitMore(1, reserve_of(rt, 2, 3));
    let is = is_taken(rt, hall, &raise, DidOf::AdmittedMore);
    has_become(rt, hall, 1, 1, Outcome::Pending);
    is
}

/// Admits tenant 1, or raises what it reserves; false where memory is wanting.
fn is_last_taken<A: Allocator + Clone>(rt: &impl Abort, hall: &mut Hall<A>, raises: bool) -> bool {
    if raises {
        is_raised(rt, hall)
    } else {
        is_admitted(rt, hall)
    }
}

/// Whether tenant 1 is admitted and has a job, where there is memory for that.
fn has_a_job<A: Allocator + Clone>(rt: &impl Abort, hall: &mut Hall<A>) -> bool {
    let is = is_admitted(rt, hall);
    if is {
        asks(rt, hall, 1, 0, 1);
    }
    is
}

/// Tenant 1 has this left of what was raised once, which isn't raised to the same again; and it leaves.
fn is_left<A: Allocator + Clone>(rt: &impl Abort, hall: &mut Hall<A>) {
    holds(rt, left(hall.core(), 1) == Some(left_of(1, 2, 48)));
    let again = StepOf::AdmitMore(1, reserve_of(rt, 2, 3));
    holds(rt, offer(hall, &again) == Err(Refusal::Lower));
    leave(rt, hall, 1, 4);
}

/// How many steps are taken in this heap by a hall's admission, or by the raise of a tenant with a job: 0 where not
/// even what comes before it is had; 1 where it is refused for want of memory, and then taken once a block that the
/// test held (`ballast`) was given back; else all.
pub fn steps<A: Allocator + Copy>(rt: &impl Abort, alloc: A, raises: bool) -> usize {
    let Ok(ballast) = Vec::<u8, A>::with_capacity(alloc, BALLAST) else {
        return 0;
    };
    match made(alloc, config_of(rt, 8, 32), 0) {
        Err(_) => 0,
        Ok(mut hall) => last_steps(rt, ballast, &mut hall, raises),
    }
}

/// How many steps of the admission or the raise are taken in a hall that was made: 0 where what comes before it isn't
/// had, 1 where it is taken only once the block that the test held (`ballast`) was given back, else all.
fn last_steps<A: Allocator + Copy>(
    rt: &impl Abort,
    ballast: Vec<u8, A>,
    hall: &mut Hall<A>,
    raises: bool,
) -> usize {
    if raises && !has_a_job(rt, hall) {
        return 0;
    }
    let is_first = is_last_taken(rt, hall, raises);
    drop(ballast);
    holds(rt, is_first || is_last_taken(rt, hall, raises));
    if raises {
        is_left(rt, hall);
    }
    if is_first { ALL } else { 1 }
}

/// In heaps with 32 bytes more each time, an admission (the second of three steps) is refused at least as often as the
/// journal's two lists take such units: places of 8 bytes and long ones of 48.
#[test]
fn each_growth_of_an_admission_is_refused(rt: HostRuntime) {
    let journal = (16 + BESIDE_NODES) * PLACE + (1 + LONGS_BESIDE_NODES) * LONG_PLACE;
    let least = [0, journal / UNIT + 1, 0];
    are_refused(&rt, rt.alloc(), Made::Admission, least);
}

/// In heaps with 32 bytes more each time, a raise to 3 nodes (the second of three steps) is refused at least as often
/// as the journal's long places, of 48 bytes, take such units.
#[test]
fn each_growth_of_a_raise_is_refused(rt: HostRuntime) {
    let longs = (3 + LONGS_BESIDE_NODES + 1) * LONG_PLACE;
    are_refused(&rt, rt.alloc(), Made::Raise, [0, longs / UNIT + 1, 0]);
}

/// How many bytes of the heap a raise of one node takes beyond those that the journal gave back.
fn bytes_of_a_raise<A: Allocator + Copy>(rt: &impl Abort, alloc: A, heap: &LocalHeap) -> usize {
    let hall = made(alloc, config_of(rt, 8, 4096), 0);
    let mut hall = hall.expect(rt, "there is room");
    admit(rt, &mut hall, 1, reserve_of(rt, 8, 1000));
    let before = heap.used();
    let more = StepOf::AdmitMore(1, reserve_of(rt, 8, 1001));
    does(rt, &mut hall, &more, DidOf::AdmittedMore);
    heap.used().saturating_sub(before)
}

/// A journal gets just the places of the nodes that came, and isn't doubled: 16 places of 8 bytes and a long one of 48
/// for a node, and one of each for the raise, less than 512 bytes. (Doubled, it would take more than 100,000 bytes.)
#[test]
fn one_node_more_takes_one_node(rt: HostRuntime) {
    let heap = heap_of(&rt, rt.alloc(), 1 << 23);
    let node = (16 * PLACE + LONG_PLACE) as usize;
    let raise = (PLACE + LONG_PLACE) as usize;
    let bytes = bytes_of_a_raise(&rt, &heap, &heap);
    holds(&rt, bytes >= node + raise && bytes < 512);
}
