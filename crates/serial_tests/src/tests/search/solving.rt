//! Tests of `solve` where memory is wanting.
ghost use Rattle.std.specs.Prelude.{◌≤◌};

use super::{given, heap_of, holds};
use line_io::{FromReader, FromWriter, LineFault, ReadFailed, Sink, Source};
use linked_list_allocator::LocalHeap;
use promises::solve;
use solve_engine::solve_bytes;
use std::alloc::{Allocator, Global};

/// Solves lines, at this grain, by the law that calls `solve` of `solve_engine` alone.
fn solves<A: Allocator + Copy, S: Source, K: Sink>(
    alloc: A,
    source: &mut S,
    sink: &mut K,
    grain: u8,
) -> Result<(), LineFault>
    requires { grain ≤ 6 }
{
    solve(alloc, source, sink, grain)
}

/// The bytes of a heap in which a core has room.
const ROOM: usize = 1 << 22;

/// The bytes that somebody else takes of it, so that a core has none.
const CROWD: usize = ROOM - 4096;

/// Gives the opening at depth 1 three times, a line a call. Before the first and the third somebody takes nearly all of
/// the heap, and before the second gives it back.
#[derive(Drop)]
struct Crowded<'a> {
    heap: &'a LocalHeap,
    crowd: Option<Vec<u8, &'a LocalHeap>>,
    calls: usize,
}

impl Source for Crowded<'_> {
    ghost gives = { λ _ _ _. Unit {0} };

    /// Gives the opening to depth 1 three times; while the first and the third are answered, most of the heap is taken.
    fn fill(&mut self, block: &mut [u8]) -> Result<usize, ReadFailed> {
        self.crowd = match self.calls {
            0 | 2 => Vec::with_capacity(self.heap, CROWD).ok(),
            _ => None,
        };
        if self.calls >= 3 {
            return Ok(0);
        }
        self.calls += 1;
        let line = b"1 ---------------------------OX------XO--------------------------- X\n";
        Ok(given(block, line))
    }
}

/// Whether `solve` answers the three lines by these answers in this heap.
fn are_answered(alloc: Global, heap: &LocalHeap, answers: &[u8]) -> bool {
    let mut source = Crowded {
        heap,
        crowd: None,
        calls: 0,
    };
    let mut sink = FromWriter::new(Vec::new(alloc));
    solves(heap, &mut source, &mut sink, 2).is_ok() && sink.writer.as_slice() == answers
}

/// Of three lines of `solve` the first and the third are refused memory, and answered by ERR 19; the second is answered
/// -3 d3, and at the end all of the heap is free.
#[test]
fn refused_growths_are_told(rt: HostRuntime) {
    let heap = heap_of(&rt, rt.alloc(), ROOM);
    let answers = b"ERR 19\n-3 d3\nERR 19\n";
    holds(&rt, are_answered(rt.alloc(), &heap, answers));
    holds(&rt, heap.used() == 0);
}

/// Lines with a fault, and one that has none.
const FAULTY: &[u8] =
    b"x Z\n13 Z\n1 Z\n5 ---------------------------------------------------------------- X\n";

/// Whether `solve` answers the four lines, three of which have a fault, by these answers in this heap.
fn are_faults_told(alloc: Global, heap: &LocalHeap, answers: &[u8]) -> bool {
    let mut source = FromReader { reader: FAULTY };
    let mut sink = FromWriter::new(Vec::new(alloc));
    solve_bytes(heap, &mut source, &mut sink, 2).is_ok() && sink.writer.as_slice() == answers
}

/// In a heap of no byte, `solve` answers lines by their faults (23 a depth that is no number, 27 one over 12, 24 a
/// short position) before it asks for a search's memory, for which the last line has ERR 19.
#[test]
fn faults_ask_for_no_memory(rt: HostRuntime) {
    let heap = heap_of(&rt, rt.alloc(), 0);
    let answers = b"ERR 23\nERR 27\nERR 24\nERR 19\n";
    holds(&rt, are_faults_told(rt.alloc(), &heap, answers));
}
