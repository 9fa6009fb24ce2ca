//! Tests of memory: where there is room no memory is refused, whatever the size that is asked for.
ghost use Rattle.std.specs.Prelude.{◌≤◌};

use crate::tests::memory::frames::{add, make_places, name, table_of};
use crate::tests::{heap_of, holds};
use frame_table::{FrameTable, PLACES};
use linked_list_allocator::LocalHeap;
use segment_region::Region;
use std::alloc::Global;
use std::process::Abort;
use tenant_quota::Book;

/// Up to so many places a raise to 4,096 takes just what 4,096 take at once.
const MOST_RAISED_EXACTLY: usize = 2032;

/// Makes a region of so many segments, all of them free.
fn make_region(rt: &impl Abort, alloc: Global, count: usize)
    requires { (1 ≤ count) × (count ≤ 65536) }
{
    let region = Region::new(alloc, count).expect(rt, "room for a region");
    holds(rt, region.free_count() == count);
}

/// Regions of 1 to 4,096 segments, as many as a tenant may have, and of 16 times as many, up to 65,536, can be made.
#[test]
fn regions_of_all_sizes(rt: HostRuntime) {
    for count in 1usize..4097 {
        make_region(&rt, rt.alloc(), count);
        make_region(&rt, rt.alloc(), 16 * count);
    }
}

/// Makes a book of reservations of these totals, for which there must be memory.
fn make_book(rt: &impl Abort, alloc: Global, segments: u32, nodes: u32)
    requires segments { (1 ≤ segments) × (segments ≤ 65536) }
    requires nodes { (1 ≤ nodes) × (nodes ≤ 4194304) }
{
    let _book = Book::new(alloc, segments, nodes).expect(rt, "room for a book");
}

/// Books of 1 to 65,536 nodes, as many as a tenant may have, and of 64 times as many, up to the greatest, can be made.
#[test]
fn books_of_all_sizes(rt: HostRuntime) {
    for count in 1u32..65537 {
        make_book(&rt, rt.alloc(), 65537 - count, count);
        make_book(&rt, rt.alloc(), count, 64 * count);
    }
}

/// How much memory a table takes whose tenant has so many places at first, and then as many as can be, if they are more.
fn used_after_a_raise(rt: &impl Abort, heap: &LocalHeap, places: usize) -> usize {
    let mut table: FrameTable<u64, &LocalHeap> = table_of(rt, heap, 7, places);
    if places < PLACES {
        make_places(rt, &mut table, 7, PLACES);
    }
    heap.used()
}

/// A frame table with 1 to 4,095 places for a tenant is raised to 4,096 places, in a heap of 2 MiB. It then takes as
/// many bytes as one made with 4,096 at once, its guesses where frames stand included (64 guesses would do for none of
/// 4,096 frames); from 2,033 places on a list may grow to twice its length, and so take more.
#[test]
fn tables_of_all_sizes(rt: HostRuntime) {
    let heap = heap_of(&rt, rt.alloc(), 1 << 21);
    let at_once = used_after_a_raise(&rt, &heap, PLACES);
    for places in 1..PLACES {
        let used = used_after_a_raise(&rt, &heap, places);
        holds(
            &rt,
            used == at_once || places > MOST_RAISED_EXACTLY && used > at_once,
        );
    }
}

/// Fills a tenant's places with frames, all but the first under that.
fn fill(rt: &impl Abort, table: &mut FrameTable<u64, &LocalHeap>, tenant: u64, places: u64) {
    add(rt, table, name(tenant, 1), None);
    for serial in 2..places.saturating_add(1) {
        add(rt, table, name(tenant, serial), Some(name(tenant, 1)));
    }
}

/// How many bytes a table takes after its one tenant, all of whose places have frames, got more places.
fn used_after_a_raise_of_frames(rt: &impl Abort, heap: &LocalHeap, places: usize) -> usize {
    let mut table: FrameTable<u64, &LocalHeap> = table_of(rt, heap, 7, places);
    fill(rt, &mut table, 7, places as u64);
    make_places(rt, &mut table, 7, PLACES);
    heap.used()
}

/// A frame table whose places (eight sizes from 1 to 2,032) all have frames, raised to 4,096 places, takes just as many
/// bytes as one made with 4,096 at once.
#[test]
fn full_tables_of_all_sizes(rt: HostRuntime) {
    let heap = heap_of(&rt, rt.alloc(), 1 << 21);
    let at_once = used_after_a_raise(&rt, &heap, PLACES);
    for places in [1, 2, 63, 64, 65, 500, 1000, MOST_RAISED_EXACTLY] {
        let used = used_after_a_raise_of_frames(&rt, &heap, places);
        holds(&rt, used == at_once);
    }
}
