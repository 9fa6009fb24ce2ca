//! Tests of the memory of a pool's task deques: each request for memory of a deal, and of the room for ends that come
//! back, is refused in turn.
ghost use Rattle.std.specs.Prelude.{◌<◌};

use super::*;
use crate::tests::{holds, holds_of};
use linked_list_allocator::LocalHeap;
use std::process::Abort;
use toys::CountedAlloc;

/// What is refused memory.
#[derive(Clone, Copy)]
enum Growing {
    /// A deal to three workers.
    Deal,
    /// The room for their ends.
    Return,
}

/// How many bytes are more than a deal to three workers takes.
const AMPLE: usize = 65_536;

/// Whether, of two tasks that worker 1 pushed, it takes the newer, and worker 3 steals the older.
fn do_work<A: Allocator>(all: Vec<DequeEnds<A>, A>) -> bool {
    let mut all = all;
    pushes(&mut all, worker(1), 1)
        && pushes(&mut all, worker(1), 2)
        && takes(&mut all, worker(1)) == 2
        && takes(&mut all, worker(3)) == 1
        && takes(&mut all, worker(3)) == 0
}

/// Whether a deal to three workers is made; then the ends work.
fn is_dealt<A: Allocator + Clone>(rt: &impl Abort, alloc: A) -> bool {
    match deal(alloc, worker(3), 8) {
        Ok(all) => {
            holds(rt, do_work(all));
            true
        }
        Err(AllocError) => false,
    }
}

/// Whether there is room from one allocator for three workers' ends, which are another's; then they come back with a
/// task that is left.
fn is_returned<A: Allocator + Clone>(rt: &impl Abort, others: A, alloc: A) -> bool {
    let three = worker(3);
    let mut all = deal(others, three, 8).expect(rt, "there is memory");
    holds(rt, pushes(&mut all, worker(1), 1));
    match sums(alloc, three, all) {
        Ok(sums) => {
            holds(rt, sums.pushed == 1 && sums.taken == 0 && sums.left == 1);
            true
        }
        Err(AllocError) => false,
    }
}

/// The number, from 1 on, of the request for memory that fails in this heap while deques are dealt or their ends come
/// back; 0 where none fails. What was had before it was given back, so that the calls of the allocator are one less
/// than twice this number.
fn refused_at(rt: &impl Abort, ample: &LocalHeap, heap: &LocalHeap, growing: Growing) -> u64 {
    let others = CountedAlloc::new(ample);
    let counted = CountedAlloc::new(heap);
    let is_made = match growing {
        Growing::Deal => is_dealt(rt, &counted),
        Growing::Return => is_returned(rt, &others, &counted),
    };
    if is_made { 0 } else { counted.calls() / 2 + 1 }
}

/// At which request for memory a deal or a return fails in a heap with room for so many units of 16 bytes; the heaps
/// have then got all back.
fn refused(rt: &impl Abort, alloc: Global, units: usize, growing: Growing) -> u64
    requires { units < 4096 }
{
    let ample = LocalHeap::new(alloc, AMPLE).expect(rt, "there is memory");
    let heap = LocalHeap::new(alloc, units * 16).expect(rt, "there is memory");
    let number = refused_at(rt, &ample, &heap, growing);
    holds(rt, heap.used() == 0 && ample.used() == 0);
    number
}

/// Each of so many requests for memory is refused once, in heaps that grow by one unit of 16 bytes each time.
fn are_refused(rt: &impl Abort, alloc: Global, growing: Growing, many: u64) {
    let mut last = 0u64;
    for units in 0..4096usize {
        let number = refused(rt, alloc, units, growing);
        if number == 0 {
            holds_of(rt, last == many, "refused but", last);
            return;
        }
        holds(rt, number == last || number == last.saturating_add(1));
        last = number;
    }
    panic!(rt; "more is wanting")
}

/// Each request for memory of a deal of deques to three workers is refused in turn, 15 in all: that of the list of
/// owners, the three of each deque, those of the list of rows and of each row, and that of the list of ends.
#[test]
fn each_growth_of_a_deal_is_refused(rt: HostRuntime) {
    are_refused(&rt, rt.alloc(), Growing::Deal, 1 + 3 * 3 + 1 + 3 + 1);
}

/// Each request for memory of the room for deques' ends that come back is refused in turn, 2 in all: that for owners,
/// and that for rows.
#[test]
fn each_growth_of_a_return_is_refused(rt: HostRuntime) {
    are_refused(&rt, rt.alloc(), Growing::Return, 2);
}
