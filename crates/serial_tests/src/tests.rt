//! What all tests in one thread use: a test's failure, and heaps of few bytes.
ghost use Rattle.std.specs.Prelude.{◌≡◌, true};

mod memory;
mod search;

use linked_list_allocator::LocalHeap;
use othello_board::Board;
use othello_board::position_text::{Position, Side};
use std::alloc::Global;
use std::process::Abort;
use tenant_quota::Left;

/// Fails the test unless this is true. An `assert!` in its place takes the prover twice as long.
fn holds(rt: &impl Abort, is: bool)
    ensures { is ≡ true }
{
    assert!(rt; is);
}

/// A heap that can give so many bytes and no more.
fn heap_of(rt: &impl Abort, alloc: Global, bytes: usize) -> LocalHeap {
    LocalHeap::new(alloc, bytes).expect(rt, "room for a heap")
}

/// What a tenant has left, of these numbers: segments, nodes and steps.
fn left_of(segments: u32, nodes: u32, steps: u32) -> Left {
    Left {
        segments,
        nodes,
        steps,
    }
}

/// The opening, seen by the player to move.
const OPENING: Board = Board {
    own: 1 << 28 | 1 << 35,
    opp: 1 << 27 | 1 << 36,
};

/// The opening position of Othello, Black to move.
fn opening() -> Position {
    Position {
        board: OPENING,
        side: Side::Black,
    }
}
