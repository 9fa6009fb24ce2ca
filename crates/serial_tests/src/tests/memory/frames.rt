//! Tests of the frame table (each tenant's tree of open frames): its memory, and the example at its crate's head.
ghost use Rattle.std.specs.Prelude.{◌≤◌, ◌<◌};

use crate::tests::{heap_of, holds};
use frame_table::{Entry, FrameId, FrameTable, State};
use linked_list_allocator::LocalHeap;
use std::alloc::{AllocError, Allocator};
use std::process::Abort;

/// The name of the frame with this serial of this tenant.
pub fn name(tenant: u64, serial: u64) -> FrameId {
    FrameId { tenant, serial }
}

/// Makes so many places for a tenant in the frame table, after a look that the table allows it; an error where memory
/// was refused.
fn reserve<T: Copy, A: Allocator + Copy>(
    rt: &impl Abort,
    table: &mut FrameTable<T, A>,
    tenant: u64,
    places: usize,
) -> Result<(), AllocError> {
    holds(
        rt,
        table.places(tenant) <= places && table.tenant_count() < 64,
    );
    holds(rt, places >= 1 && places <= 4096);
    table.reserve(tenant, places)
}

/// Adds a frame to the frame table, after a look that the table allows it.
fn put<T: Copy, A: Allocator>(
    rt: &impl Abort,
    table: &mut FrameTable<T, A>,
    f: FrameId,
    parent: Option<FrameId>,
    home: u8,
    value: T,
) {
    holds(rt, table.can_add(f, parent));
    table.add(f, parent, home, value);
}

/// Adds a frame at home 0 to the frame table, after a look that the table allows it. Its value is ten times its serial.
pub fn add<A: Allocator>(
    rt: &impl Abort,
    table: &mut FrameTable<u64, A>,
    f: FrameId,
    parent: Option<FrameId>,
) {
    put(rt, table, f, parent, 0, f.serial.wrapping_mul(10));
}

/// Makes so many places for a tenant in the frame table, for which there must be memory.
pub fn make_places<T: Copy, A: Allocator + Copy>(
    rt: &impl Abort,
    table: &mut FrameTable<T, A>,
    tenant: u64,
    places: usize,
) {
    reserve(rt, table, tenant, places).expect(rt, "room for places");
}

/// A new frame table in which this tenant has so many places.
pub fn table_of<T: Copy, A: Allocator + Copy>(
    rt: &impl Abort,
    alloc: A,
    tenant: u64,
    places: usize,
) -> FrameTable<T, A> {
    let mut table = FrameTable::new(alloc).expect(rt, "room for a table");
    make_places(rt, &mut table, tenant, places);
    table
}

/// What the frame table keeps of a frame with this parent and this value, which is ready at this home.
fn ready_under<T>(parent: FrameId, home: u8, value: T) -> Option<Entry<T>> {
    Some(Entry {
        parent: Some(parent),
        state: State::Ready(home),
        value,
    })
}

/// An abort at the root takes the value of its child, and the root stays.
fn abort_the_example(rt: &impl Abort, table: &mut FrameTable<char>, root: FrameId) {
    holds(rt, table.contains(root));
    holds(rt, table.remove_under(root) == ['b'].as_slice());
    holds(rt, table.contains(root));
}

/// The example at the crate's head: a root and a ready child of tenant 7, and an abort below the root.
#[test]
fn example_of_the_crate(rt: HostRuntime) {
    let (root, child) = (name(7, 1), name(7, 2));
    let mut table: FrameTable<char> = table_of(&rt, rt.alloc(), 7, 4);
    put(&rt, &mut table, root, None, 0, 'a');
    put(&rt, &mut table, child, Some(root), 3, 'b');
    holds(&rt, table.find(child) == ready_under(root, 3, 'b'));
    abort_the_example(&rt, &mut table, root);
}

/// Frames 2, 3 and 4 under frame 1, and frame 5 under 3.
fn add_five(rt: &impl Abort, table: &mut FrameTable<u64>) {
    for (serial, parent) in [(2u64, 1u64), (3, 1), (4, 1), (5, 3)] {
        add(rt, table, name(7, serial), Some(name(7, parent)));
    }
}

/// Whether an abort at a frame, which must be there, takes just these values.
fn takes(rt: &impl Abort, table: &mut FrameTable<u64>, f: FrameId, values: &[u64]) -> bool {
    holds(rt, table.contains(f));
    table.remove_under(f) == values
}

/// Whether of five frames the first alone is there, without a child.
fn is_alone(table: &FrameTable<u64>) -> bool {
    let gone = !table.contains(name(7, 2)) && !table.contains(name(7, 5));
    gone && table.frame_count(7) == 1 && table.contains(name(7, 1)) && !table.has_child(name(7, 1))
}

/// Of five frames of tenant 7, each kept with ten times its number: an abort at the root takes the values of the four
/// below, 20 to 50, and the root stays; one at frame 4, which has no child, takes nothing.
#[test]
fn an_abort_at_the_root_of_five_leaves_it(rt: HostRuntime) {
    let mut table: FrameTable<u64> = table_of(&rt, rt.alloc(), 7, 5);
    add(&rt, &mut table, name(7, 1), None);
    add_five(&rt, &mut table);
    holds(&rt, takes(&rt, &mut table, name(7, 4), &[]));
    holds(&rt, takes(&rt, &mut table, name(7, 1), &[20, 30, 40, 50]));
    holds(&rt, is_alone(&table));
}

/// A leaf goes that has ten times its serial as its value.
fn remove_leaf<A: Allocator>(rt: &impl Abort, table: &mut FrameTable<u64, A>, f: FrameId) {
    holds(rt, table.contains(f) && !table.has_child(f));
    holds(rt, table.remove(f) == f.serial.wrapping_mul(10));
}

/// Two tenants that share a guess have a frame more each; of the first the frame before the last goes,
/// and of the second the newest.
fn come_and_go<A: Allocator>(rt: &impl Abort, table: &mut FrameTable<u64, A>, serial: u64)
    requires { (2 ≤ serial) × (serial < 400) }
{
    add(rt, table, name(300, serial), Some(name(300, 1)));
    add(rt, table, name(44, serial), Some(name(44, 1)));
    if serial > 3 {
        remove_leaf(rt, table, name(300, serial - 2));
        remove_leaf(rt, table, name(44, serial));
    }
}

/// After a round of coming and going the frames of tenants 300 and 44 that should be there are found, and so is the
/// newest ready frame of tenant 300.
fn found_after<A: Allocator>(rt: &impl Abort, table: &FrameTable<u64, A>, serial: u64) {
    holds(
        rt,
        table.contains(name(300, serial)) && table.contains(name(300, 1)),
    );
    holds(rt, table.contains(name(44, 2)));
    holds(rt, table.contains(name(44, serial)) == (serial < 4));
    holds(rt, table.newest_ready(300) == Some((name(300, serial), 0)));
}

/// Frames of tenants 300 and 44 come and go 398 times, far more often than there are places.
fn many_come_and_go<A: Allocator>(rt: &impl Abort, table: &mut FrameTable<u64, A>) {
    add(rt, table, name(300, 1), None);
    add(rt, table, name(44, 1), None);
    for serial in 2u64..400 {
        come_and_go(rt, table, serial);
        found_after(rt, table, serial);
    }
    holds(
        rt,
        (table.frame_count(300), table.frame_count(44)) == (3, 3),
    );
}

/// Frames of two tenants, 300 and 44, come and go in a table where each has four places; no list grows.
fn come_and_go_within_places<A: Allocator + Copy>(rt: &impl Abort, alloc: A, heap: &LocalHeap) {
    let mut table: FrameTable<u64, A> = table_of(rt, alloc, 300, 4);
    make_places(rt, &mut table, 44, 4);
    let used = heap.used();
    many_come_and_go(rt, &mut table);
    holds(rt, heap.used() == used);
}

/// Of tenant 300 the oldest frames go first and of tenant 44, which shares its guess, the newest, so that lists move
/// and guesses are wrong: all are found, in a heap of 65,536 bytes of which no more is taken.
#[test]
fn names_are_found_while_many_come_and_go(rt: HostRuntime) {
    let heap = heap_of(&rt, rt.alloc(), 1 << 16);
    come_and_go_within_places(&rt, &heap, &heap);
}

/// How many of three steps are taken in this heap: a table, and two reservations, or two reservations and a raise of
/// the first. Nothing changes where one is refused.
pub fn steps<A: Allocator + Copy>(rt: &impl Abort, alloc: A, raises: bool) -> usize {
    match FrameTable::new(alloc) {
        Err(_) => 0,
        Ok(mut table) => {
            if raises {
                raise_after_both(rt, &mut table)
            } else {
                reserve_both(rt, &mut table)
            }
        }
    }
}

/// How many places two tenants have, and how many tenants have any.
fn places<A: Allocator>(table: &FrameTable<u64, A>, one: u64, other: u64) -> (usize, usize, usize) {
    (table.places(one), table.places(other), table.tenant_count())
}

/// How many of three steps are taken: the making of a frame table, which is done, and the reservations of tenants 7 and
/// 3; a refused one changes nothing.
fn reserve_both<A: Allocator + Copy>(rt: &impl Abort, table: &mut FrameTable<u64, A>) -> usize {
    if reserve(rt, table, 7, 4).is_err() {
        holds(rt, places(table, 7, 3) == (0, 0, 0));
        return 1;
    }
    if reserve(rt, table, 3, 8).is_err() {
        holds(rt, places(table, 7, 3) == (4, 0, 1));
        return 2;
    }
    holds(rt, places(table, 7, 3) == (4, 8, 2));
    3
}

/// The raise of a tenant with two frames to 100 places: 0 where no two tenants find places, 1 where the raise is
/// refused, and 3 where it is taken, and the places that came with it are filled.
fn raise_after_both<A: Allocator + Copy>(rt: &impl Abort, table: &mut FrameTable<u64, A>) -> usize {
    if reserve(rt, table, 1, 2).is_err() || reserve(rt, table, 2, 1).is_err() {
        return 0;
    }
    add(rt, table, name(1, 1), None);
    add(rt, table, name(1, 2), Some(name(1, 1)));
    let is_raised = reserve(rt, table, 1, 100).is_ok();
    both_stay(rt, table);
    holds(rt, table.can_add(name(1, 3), None) == is_raised);
    if !is_raised {
        holds(rt, places(table, 1, 2) == (2, 1, 2));
        return 1;
    }
    holds(rt, places(table, 1, 2) == (100, 1, 2));
    fill(rt, table);
    3
}

/// Both frames of tenant 1 are still there, whether or not its raise was taken.
fn both_stay<A: Allocator>(rt: &impl Abort, table: &FrameTable<u64, A>) {
    let (root, child) = (name(1, 1), name(1, 2));
    holds(rt, table.frame_count(1) == 2 && table.has_child(root));
    holds(rt, table.newest_ready(1) == Some((child, 0)));
    holds(rt, table.find(child) == ready_under(root, 0, 20));
}

/// The 98 free places of tenant 1, after its raise to 100, are filled with frames; one more finds no place.
fn fill<A: Allocator>(rt: &impl Abort, table: &mut FrameTable<u64, A>) {
    for serial in 3u64..101 {
        add(rt, table, name(1, serial), Some(name(1, 2)));
    }
    holds(rt, !table.can_add(name(1, 101), None));
    holds(
        rt,
        table.frame_count(1) == 100 && table.contains(name(1, 1)),
    );
}
