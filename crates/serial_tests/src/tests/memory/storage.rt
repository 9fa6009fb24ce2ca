//! Tests of what a core's store stands on: the examples at the heads of its crates, and what is made where an allocator
//! gives.
ghost use Rattle.numbered_list.specs.Places.{AreRising};

use crate::tests::memory::reserve_of;
use crate::tests::{holds, left_of};
use cactus_stack::{Sight, Stack};
use numbered_list::{Guesses, NumberedList};
use segment_region::Region;
use std::alloc::{AllocError, Allocator};
use std::process::Abort;
use std::test::Fail;
use tenant_quota::{Book, QuotaRefusal};

/// In a region of 4 segments one is taken, its word 3 is written and read as 7, and it is given back: 4 are free.
#[test]
fn segments_are_taken_written_and_given_back(rt: HostRuntime) -> Result<(), Fail> {
    let mut region = Region::new(rt.alloc(), 4)?;
    let first = region.take().expect(&rt, "four are free");
    region.words_mut(first)[3] = 7;
    holds(&rt, region.words(first)[3] == 7);
    region.give(first);
    holds(&rt, region.free_count() == 4);
    Ok(())
}

/// Makes a region of two segments, which lends one.
pub fn make_region<A: Allocator>(rt: &impl Abort, alloc: A) -> Result<(), AllocError> {
    let mut region = Region::new(alloc, 2)?;
    holds(rt, region.free_count() == 2);
    holds(rt, region.take().is_some());
    Ok(())
}

/// The child's words and the root's, some of each.
fn has_both(sight: &Sight<'_>) -> bool {
    match (sight.up(0), sight.up(1)) {
        (Some(child), Some(root)) => {
            child.len() == 16
                && (child.get(0), child.get(15), child.get(16)) == (Some(7), Some(9), None)
                && root.len() == 20
                && (root.get(1), root.get(19), root.get(20)) == (Some(2), Some(0), None)
        }
        _ => false,
    }
}

/// Of a stack of four segments the root takes two (20 words) and the child one (16). The child's words are seen, and
/// then the root's, which a write to the child leaves.
#[test]
fn a_child_sees_its_root(rt: HostRuntime) -> Result<(), Fail> {
    let mut stack = Stack::new(rt.alloc(), 4)?;
    let root = stack.open(None, &[1, 2], 20).expect(&rt, "four are free");
    let child = stack.open(Some(root), &[7], 16).expect(&rt, "two are free");
    stack.store(child, 15, 9);
    holds(&rt, has_both(&stack.sight(child)));
    Ok(())
}

/// Takes only what may cross threads: a call of it is a test that compiles or doesn't.
fn may_cross_threads<T: Send + Sync>(_value: &T) {}

/// A stack of 1 segment may be sent to another thread and be seen there.
#[test]
fn a_stack_may_cross_threads(rt: HostRuntime) -> Result<(), Fail> {
    may_cross_threads(&Stack::new(rt.alloc(), 1)?);
    Ok(())
}

/// Makes a stack with room for a node.
pub fn make_stack<A: Allocator + Clone>(rt: &impl Abort, alloc: A) -> Result<(), AllocError> {
    let mut stack = Stack::new(alloc, 2)?;
    let node = stack.open(None, &[7], 20).expect(rt, "two are free");
    holds(rt, stack.own(node).get(0) == Some(7));
    Ok(())
}

/// Whether the thing of a number has this value; 0 where there is none.
fn is_kept(list: &NumberedList<(u64, u32)>, number: u64, value: u32) -> bool
    requires { AreRising (λ pair. pair.0) list.now }
{
    let found = match list.get(number) {
        Some(pair) => pair.1,
        None => 0,
    };
    found == value
}

/// Each of three things is found, and one that isn't there isn't.
fn are_kept(rt: &impl Abort, list: &NumberedList<(u64, u32)>)
    requires { AreRising (λ pair. pair.0) list.now }
{
    for (number, value) in [(3, 30), (7, 71), (263, 2630), (8, 0)] {
        holds(rt, is_kept(list, number, value));
    }
}

/// In a list by number, 7 and 263 share a guess, as they differ by 256: both are found.
#[test]
fn a_tenant_is_found_whatever_is_guessed(rt: HostRuntime) -> Result<(), Fail> {
    let mut list = NumberedList::new(rt.alloc())?;
    list.insert((7u64, 70u32));
    list.insert((263, 2630));
    list.insert((3, 30));
    list.get_mut(7).1 += 1;
    are_kept(&rt, &list);
    Ok(())
}

/// Makes a table with room for 16 places, 64 bytes.
pub fn make_guesses<A: Allocator>(rt: &impl Abort, alloc: A) -> Result<(), AllocError> {
    let guesses = Guesses::new(alloc, 16)?;
    holds(rt, guesses.guess(5) == 0);
    Ok(())
}

/// A tenant that isn't there reserves so many segments, and eight nodes.
fn reserves(
    rt: &impl Abort,
    book: &mut Book,
    tenant: u64,
    segments: u32,
) -> Result<(), QuotaRefusal> {
    holds(rt, book.left(tenant).is_none());
    book.reserve(tenant, reserve_of(rt, segments, 8))
}

/// A tenant that isn't there reserves a segment and a node.
fn reserves_one(rt: &impl Abort, book: &mut Book, tenant: u64) -> Result<(), QuotaRefusal> {
    holds(rt, book.left(tenant).is_none());
    book.reserve(tenant, reserve_of(rt, 1, 1))
}

/// A tenant that is there is charged so many segments and nodes.
fn charges(
    rt: &impl Abort,
    book: &mut Book,
    tenant: u64,
    segments: u32,
    nodes: u32,
) -> Result<(), QuotaRefusal> {
    holds(rt, book.left(tenant).is_some());
    book.charge(tenant, segments, nodes)
}

/// A tenant that is there takes a step.
fn ticks(rt: &impl Abort, book: &mut Book, tenant: u64) -> Result<(), QuotaRefusal> {
    holds(rt, book.left(tenant).is_some());
    book.tick(tenant)
}

/// A tenant of the book gives back so many of the segments that it was charged.
fn gives_back(rt: &impl Abort, book: &mut Book, tenant: u64, segments: u32) {
    let left = book.left(tenant).expect(rt, "the tenant is there");
    let reserved = book.reserved(tenant).expect(rt, "the tenant is there");
    holds(rt, left.segments <= reserved.segments());
    holds(rt, segments <= reserved.segments() - left.segments);
    book.give_back(tenant, segments);
}

/// A tenant that is there leaves the book.
fn releases(rt: &impl Abort, book: &mut Book, tenant: u64) {
    holds(rt, book.left(tenant).is_some());
    book.release(tenant);
}

/// Two tenants reserve all segments, and a third none, which is refused by 1.
fn share(rt: &impl Abort, book: &mut Book) {
    holds(rt, reserves(rt, book, 1, 5) == Ok(()));
    holds(rt, reserves(rt, book, 2, 3) == Ok(()));
    holds(rt, reserves_one(rt, book, 3) == Err(QuotaRefusal::Full));
    holds(rt, QuotaRefusal::Full.number() == 1);
}

/// The first is charged no more than it has, which is refused by 2, and takes a step; its segments come back.
fn use_up(rt: &impl Abort, book: &mut Book) {
    holds(rt, charges(rt, book, 1, 6, 0) == Err(QuotaRefusal::Short));
    holds(rt, QuotaRefusal::Short.number() == 2);
    holds(rt, charges(rt, book, 1, 5, 1) == Ok(()));
    holds(rt, book.left(1) == Some(left_of(0, 7, 128)));
    holds(rt, ticks(rt, book, 1) == Ok(()));
    holds(rt, book.left(1) == Some(left_of(0, 7, 127)));
    gives_back(rt, book, 1, 5);
    holds(rt, book.left(1) == Some(left_of(5, 7, 127)));
}

/// In a book of 8 segments and 32 nodes two tenants reserve 5 and 3 segments: what the first is charged leaves the
/// second all it reserved (3 segments, 8 nodes, 128 steps). Once the second has left, there is room for a third.
#[test]
fn two_tenants_share_a_book(rt: HostRuntime) -> Result<(), Fail> {
    let mut book = Book::new(rt.alloc(), 8, 32)?;
    share(&rt, &mut book);
    use_up(&rt, &mut book);
    holds(&rt, book.left(2) == Some(left_of(3, 8, 128)));
    releases(&rt, &mut book, 2);
    holds(&rt, reserves_one(&rt, &mut book, 3) == Ok(()));
    Ok(())
}

/// Makes a book with places for 64 tenants, of which none is there.
pub fn make_book<A: Allocator>(rt: &impl Abort, alloc: A) -> Result<(), AllocError> {
    let book = Book::new(alloc, 8, 32)?;
    holds(rt, book.rest().tenants == 64 && book.left(1).is_none());
    Ok(())
}
