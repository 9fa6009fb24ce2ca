//! Tests of what a hall asks of its allocator: nothing but at an admission, and there what is to be had.
use super::*;
use othello_eval::Valued;
use promises::{entry_in, value_in};
use std::alloc::Global;
use toys::CountedAlloc;

/// A second job of the second tenant is cancelled, and what can't be taken is refused.
fn cancel<A: Allocator + Clone>(rt: &impl Abort, hall: &mut Hall<A>) {
    let second = StepOf::Cancel(2, 2);
    asks(rt, hall, 2, 2, 2);
    does(rt, hall, &second, DidOf::Cancelled);
    holds(rt, offer(hall, &second) == Err(Refusal::NoJob));
    holds(rt, offer(hall, &StepOf::Leave(3)) == Err(Refusal::NoTenant));
}

/// A tenant has so many segments left.
fn has_segments<A: Allocator>(rt: &impl Abort, hall: &Hall<A>, tenant: u64, segments: u32) {
    let left = left(hall.core(), tenant);
    holds(rt, matches!(left, Some(left) if left.segments == segments));
}

/// What the law of values tells of a tenant's first job.
fn told<A: Allocator>(hall: &Hall<A>, tenant: u64) -> Option<Valued> {
    value_in(hall, tenant, 1)
}

/// The laws of values and of entries tell of a job that is done, and the first of no other: where they told of none, they
/// would promise nothing.
fn laws_tell<A: Allocator>(rt: &impl Abort, hall: &Hall<A>) {
    let best = Valued {
        value: -4,
        choice: Some(Choice::Square(19)),
    };
    holds(rt, told(hall, 2) == Some(best) && told(hall, 1) == None);
    let first = entry_in(hall, 2, 1, 0);
    holds(rt, matches!(first, Some(entry) if entry.score == -4));
}

/// One job is done, by a root that is stolen and children that are taken, computed and taken in; another is
/// spent, and the third is cancelled. All segments of both tenants are back.
fn have_ended<A: Allocator>(rt: &impl Abort, hall: &Hall<A>) {
    is_done(rt, hall, 2, -4, Some(Choice::Square(19)));
    laws_tell(rt, hall);
    has_become(rt, hall, 1, 1, Outcome::Spent);
    has_become(rt, hall, 2, 2, Outcome::Cancelled);
    has_segments(rt, hall, 1, 4);
    has_segments(rt, hall, 2, 16);
}

/// The allocator is called at the admissions of two tenants, one with few nodes and one with enough, and not after
/// them: both ask for the opening to depth 2, and each job is driven to its end.
fn takes_no_more<A: Allocator + Clone>(rt: &impl Abort, alloc: A, counted: &CountedAlloc<Global>) {
    let hall = made(alloc, config_of(rt, 24, 96), 0);
    let mut hall = hall.expect(rt, "there is room");
    let alone = counted.calls();
    admit(rt, &mut hall, 1, reserve_of(rt, 4, 4));
    admit(rt, &mut hall, 2, reserve_of(rt, 16, 64));
    let admitted = counted.calls();
    holds(rt, admitted > alone);
    asks(rt, &mut hall, 1, 2, 1);
    asks(rt, &mut hall, 2, 2, 1);
    play(rt, &mut hall);
    cancel(rt, &mut hall);
    have_ended(rt, &hall);
    holds(rt, counted.calls() == admitted);
}

/// Between the admissions to a hall and a Leave no step calls the allocator.
#[test]
fn no_step_but_an_admission_takes_memory(rt: HostRuntime) {
    let counted = CountedAlloc::new(rt.alloc());
    takes_no_more(&rt, &counted, &counted);
}

/// Segments of a hall, from the least to the most.
const SEGMENTS: [u32; 8] = [1, 500, 501, 4_095, 5_001, 32_769, 65_535, 65_536];

/// Nodes of a hall, from the least to the most.
const NODES: [u32; 8] = [1, 501, 4_095, 32_769, 65_535, 70_002, 1_000_000, 4_194_304];

/// A tenant is admitted that reserves as much of a new hall as a tenant may, and no segment is taken. Another comes after it with
/// the least there is, and reserves as much, where that is more.
fn is_used<A: Allocator + Clone>(rt: &impl Abort, alloc: A, segments: u32, nodes: u32) {
    let hall = made(alloc, config_of(rt, segments, nodes), 6);
    let mut hall = hall.expect(rt, "there is room");
    let nodes = nodes.min(Reserve::MAX_NODES);
    let most = reserve_of(rt, segments.min(Reserve::MAX_SEGMENTS), nodes);
    admit(rt, &mut hall, 1, most);
    holds(rt, free_segments(hall.core()) == segments as usize);
    does(rt, &mut hall, &StepOf::Leave(1), DidOf::Left);
    let least = reserve_of(rt, 1, 1);
    admit(rt, &mut hall, 2, least);
    if most != least {
        does(
            rt,
            &mut hall,
            &StepOf::AdmitMore(2, most),
            DidOf::AdmittedMore,
        );
    }
}

/// Where there is room no memory is refused: halls of all sizes are made, and tenants of all sizes
/// admitted.
#[test]
fn halls_and_tenants_of_all_sizes(rt: HostRuntime) {
    for segments in SEGMENTS {
        for nodes in NODES {
            is_used(&rt, rt.alloc(), segments, nodes);
        }
    }
}
