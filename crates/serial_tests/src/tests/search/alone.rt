//! Tests of searches whose core has little memory, and of how far a core goes.
ghost use Rattle.std.specs.Prelude.{◌≤◌};

use super::{heap_of, holds, holds_at, left_of, opening};
use frame_table::FrameId;
use jamboree_rules::pool_rules::{Action, Holding};
use othello_board::position_text::{Position, read};
use othello_moves::{Choice, DEEPEST};
use sched_rules::{DidOf, Worker};
use solve_engine::{Searched, Way, search_within, solve_by_core};
use std::alloc::{AllocError, Allocator, Global};
use std::process::Abort;
use tenant_quota::Reserve;
use toys::CountedAlloc;

/// Five squares are empty, White to move. It takes a corner, and wins by 26 discs.
const NEAR_THE_END: &[u8; 66] =
    b"-XO-X-XOXX-XXXOOXXXXOOXXXXXOOXXXXXXXXXXXOXOXOOXO-XXOOOOOOXOOOOOO O";

/// Searches by a core. It says nothing of what `solve_by_core` promises, so that a call is cheap to prove.
fn solved<A: Allocator + Copy>(
    alloc: A,
    position: &Position,
    depth: u8,
    grain: u8,
) -> Result<Searched, AllocError>
    requires depth { depth ≤ DEEPEST }
    requires grain { grain ≤ 6 }
{
    solve_by_core(alloc, position, depth, grain)
}

/// The nodes of that core, and the steps that it may take.
const NODES: u32 = 65_536;

const STEPS: u32 = 16 * NODES;

/// Whether the search was done by its core.
fn is_done(found: &Searched) -> bool {
    matches!(found.way, Way::Done)
}

/// Whether a core of 4,096 segments did the search, and its tenant had all of them left, and so many nodes and steps.
fn is_done_with(found: &Searched, nodes: u32, steps: u32) -> bool {
    is_done(found) && found.left == left_of(4096, nodes, steps)
}

/// The frame of tenant 1 of this serial.
fn frame(serial: u64) -> FrameId {
    FrameId { tenant: 1, serial }
}

/// Worker 2's frame opens a child: the frame goes on, and the child is a task of the worker's.
#[test]
fn a_child_is_a_task(rt: HostRuntime) {
    let root = Holding::Next(Action::Run(frame(1)));
    let turn = root.turned(Worker::new(2).unwrap(), Ok(DidOf::Spawned(frame(2))));
    let is_task = matches!(turn.task, Some(task) if task.frame == frame(2) && task.home == 2);
    holds(&rt, turn.holding == root && is_task);
}

/// Whether the opening is searched with a node for each of its four moves to one ply more than the grain, and with more
/// to two plies more.
fn has_grain(alloc: Global, grain: u8) -> Result<bool, AllocError>
    requires { grain ≤ 6 }
{
    let near = solved(alloc, &opening(), grain + 1, grain)?;
    let shared = solved(alloc, &opening(), grain + 2, grain)?;
    let has_more = is_done(&shared) && shared.left.nodes < NODES - 5;
    Ok(has_more && is_done_with(&near, NODES - 5, STEPS - 32))
}

/// At grains 0 to 6: to one ply more than the grain each of the opening's four moves, which are equal, is computed by
/// itself, which takes five nodes and 32 steps; to two plies more the moves have nodes of their own.
#[test]
fn the_grain_is_the_one_that_is_asked(rt: HostRuntime) {
    for grain in 0..7 {
        let has_it = has_grain(rt.alloc(), grain);
        holds_at(&rt, grain as usize, has_it == Ok(true));
    }
}

/// Whether a core of 4,096 segments found the corner and its value, in fewer than 5,536 nodes, and at grain 0 in more than 16.
fn is_deep(found: &Searched, grain: u8) -> bool {
    let nodes = found.left.nodes;
    is_done(found)
        && found.answer.value == 52_000
        && matches!(found.answer.choice, Some(Choice::Square(0)))
        && found.left.segments == 4096
        && nodes > NODES - 5_536
        && (grain > 0 || nodes < NODES - 16)
}

/// Whether such a core does the search of that position to this depth, at this grain.
fn is_done_deep(alloc: Global, depth: u8, grain: u8) -> bool
    requires depth { depth ≤ DEEPEST }
    requires grain { grain ≤ 6 }
{
    let Ok(position) = read(NEAR_THE_END) else {
        return false;
    };
    match solved(alloc, &position, depth, grain) {
        Ok(found) => is_deep(&found, grain),
        Err(AllocError) => false,
    }
}

/// Searches to depth 7 to 12 are done by a core of 4,096 segments and 65,536 nodes, at each grain from 0 to 6; a failed
/// case is the depth times ten and the grain.
#[test]
fn deep_searches_are_done_by_a_core(rt: HostRuntime) {
    for depth in 7..13 {
        for grain in 0..7 {
            // Case 75 is depth 7 at grain 5.
            let case = depth * 10 + grain;
            holds_at(&rt, case as usize, is_done_deep(rt.alloc(), depth, grain));
        }
    }
}

/// The search of the opening to 11 plies at grain 0 needs more nodes than there are: it goes on until none of 65,536 is
/// left, and gives its 4,096 segments back.
#[test]
fn a_search_goes_on_to_its_last_node(rt: HostRuntime) {
    let found = solved(rt.alloc(), &opening(), 11, 0).expect(&rt, "there is memory");
    holds(&rt, matches!(found.way, Way::Spent));
    holds(&rt, found.left.segments == 4096 && found.left.nodes == 0);
}

/// Whether a small search is done in a heap of so many kilobytes, to which all is given back; None where memory was
/// wanting.
fn is_done_within(rt: &impl Abort, alloc: Global, units: usize) -> Option<bool>
    requires { units ≤ 320 }
{
    let heap = heap_of(rt, alloc, units * 1024);
    let reserve = Reserve::new(2, 4).unwrap();
    let is_done = match search_within(&heap, &opening(), 0, 0, reserve) {
        Ok(found) => Some(is_done(&found)),
        Err(AllocError) => None,
    };
    holds(rt, heap.used() == 0);
    is_done
}

/// In 320 heaps with more and more room each request for memory of the core and of the admission is refused in turn,
/// more than 16 in all, and all that was taken is given back. What is found is found by the core.
#[test]
fn each_growth_is_refused_in_turn(rt: HostRuntime) {
    let (mut refused, mut done) = (0u32, 0u32);
    for units in 0..320usize {
        match is_done_within(&rt, rt.alloc(), units) {
            None => refused = refused.saturating_add(1),
            Some(is_by_the_core) => {
                holds(&rt, is_by_the_core);
                done = done.saturating_add(1);
            }
        }
    }
    holds(&rt, refused > 16 && done > 0);
}

/// How often a search that is done by its core calls its allocator; 0 where it isn't.
fn calls_of(counted: &CountedAlloc<Global>, depth: u8) -> u64
    requires { depth ≤ DEEPEST }
{
    let before = counted.calls();
    match solved(counted, &opening(), depth, 0) {
        Ok(found) if is_done(&found) => counted.calls().wrapping_sub(before),
        _ => 0,
    }
}

/// How often a search calls its allocator is the same to depths 0 to 4: the core takes its memory when it is made.
#[test]
fn searches_take_no_memory(rt: HostRuntime) {
    let counted = CountedAlloc::new(rt.alloc());
    let once = calls_of(&counted, 0);
    holds(&rt, once > 0);
    for depth in 1..5u8 {
        holds_at(&rt, depth as usize, calls_of(&counted, depth) == once);
    }
}
