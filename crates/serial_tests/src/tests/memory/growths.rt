//! For tests of memory: heaps with room for one unit more each time, from none on: each request for memory is refused in turn.
ghost use Rattle.std.specs.Prelude.{◌<◌};

use crate::tests::memory::halls::{self, BALLAST, UNIT};
use crate::tests::memory::{config_of, frames, plain_core, storage};
use crate::tests::{heap_of, holds};
use linked_list_allocator::LocalHeap;
use std::alloc::{AllocError, Global};
use std::process::Abort;
use toys::Fan;

/// What is made in such a heap, in three steps at most.
#[derive(Clone, Copy)]
pub enum Made {
    Region,
    Stack,
    Guesses,
    Book,
    Table,
    MorePlaces,
    Core,
    Admission,
    Raise,
}

/// The number of steps where nothing is refused.
pub const ALL: usize = 3;

/// How many steps were taken: all, or none where the first was refused.
fn all_where(made: bool) -> usize {
    if made { ALL } else { 0 }
}

/// Makes a core in this heap; an error where its memory was refused.
fn make_core(rt: &impl Abort, heap: &LocalHeap) -> Result<(), AllocError> {
    let _core = plain_core::made(heap, config_of(rt, 64, 64), Fan::new())?;
    Ok(())
}

/// How many steps are taken before one is refused.
fn steps(rt: &impl Abort, heap: &LocalHeap, what: Made) -> usize {
    match what {
        Made::Region => all_where(storage::make_region(rt, heap).is_ok()),
        Made::Stack => all_where(storage::make_stack(rt, heap).is_ok()),
        Made::Guesses => all_where(storage::make_guesses(rt, heap).is_ok()),
        Made::Book => all_where(storage::make_book(rt, heap).is_ok()),
        Made::Table => frames::steps(rt, heap, false),
        Made::MorePlaces => frames::steps(rt, heap, true),
        Made::Core => all_where(make_core(rt, heap).is_ok()),
        Made::Admission => halls::steps(rt, heap, false),
        Made::Raise => halls::steps(rt, heap, true),
    }
}

/// The bytes of a heap with room for so many units, which are of 16 bytes but in a hall's.
fn bytes_of(what: Made, units: usize) -> usize
    requires { units < 65536 }
{
    match what {
        Made::Admission | Made::Raise => BALLAST + units * UNIT as usize,
        _ => units * 16,
    }
}

/// How many steps are taken in a heap with room for so many units, to which all is given back.
fn steps_in(rt: &impl Abort, alloc: Global, units: usize, what: Made) -> usize
    requires { units < 65536 }
{
    let heap = heap_of(rt, alloc, bytes_of(what, units));
    let taken = steps(rt, &heap, what);
    holds(rt, heap.used() == 0);
    taken
}

/// How often each step was refused in a heap of growing size before all steps were taken; never, where that didn't
/// come.
fn refusals(rt: &impl Abort, alloc: Global, what: Made) -> [u32; ALL] {
    let mut refused = [0u32; ALL];
    for units in 0..65536usize {
        let taken = steps_in(rt, alloc, units, what);
        if taken >= ALL {
            return refused;
        }
        refused[taken] = refused[taken].saturating_add(1);
    }
    [0; ALL]
}

/// Fails the test unless each step was refused so often at least.
pub fn are_refused(rt: &impl Abort, alloc: Global, what: Made, least: [u32; ALL]) {
    let refused = refusals(rt, alloc, what);
    holds(rt, refused[0] >= least[0]);
    holds(rt, refused[1] >= least[1] && refused[2] >= least[2]);
}

/// In heaps with 16 bytes more each time, each step of making something is refused so often at least. A region and a
/// stack have two blocks of 17 words (17 units of 16 bytes), the guesses of 16 places 64 bytes (4 units), and a book
/// has more than 16 bytes for each of 64 accounts. A tenant's first places are five requests: the removed values, the
/// slots, their keys, their serials, the ready frames. More places, here 100, are six: the guesses too.
#[test]
fn each_growth_is_refused_in_turn(rt: HostRuntime) {
    are_refused(&rt, rt.alloc(), Made::Region, [17, 0, 0]);
    are_refused(&rt, rt.alloc(), Made::Stack, [17, 0, 0]);
    are_refused(&rt, rt.alloc(), Made::Guesses, [4, 0, 0]);
    are_refused(&rt, rt.alloc(), Made::Book, [64 + 1, 0, 0]);
    are_refused(&rt, rt.alloc(), Made::Table, [1, 5, 5]);
    are_refused(&rt, rt.alloc(), Made::MorePlaces, [1, 101, 0]);
}

/// In heaps with 16 bytes more each time, a new core is refused memory more than 192 times: it has places for 64
/// tenants in three lists.
#[test]
fn each_growth_of_a_core_is_refused(rt: HostRuntime) {
    are_refused(&rt, rt.alloc(), Made::Core, [64 * 3 + 1, 0, 0]);
}
