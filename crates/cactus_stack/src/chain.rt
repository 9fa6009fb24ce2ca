//! The chains of segments that hold the words of a stack's nodes: made, followed, made longer and given back.
ghost use Rattle.std.specs.Prelude.{◌≡◌, ◌+◌, ◌-◌, ◌*◌, ◌<◌, ◌≤◌, ℕ, suc, [], ◌++◌, length, drop, replicate, Option, Some, None, slice_index, IsSome};
ghost use Rattle.segment_region.specs.Segments.{Segments, IsFree, IsTaken, with_entry, taken_count, segment_count};
ghost use Rattle.cactus_stack.specs.Chains.{chain, filled, IsChain, IsFreshChain, IsGrownChain, IsGivenBack};

use segment_region::{Region, RegionView, SegNo};
use std::alloc::Allocator;

/// Writes words to the front of a segment.
fn fill(block: &mut [u64; 16], words: &[u64])
    requires { length words.now ≤ 16 }
    ensures { block.new ≡ words.now ++ drop (length words.now) block.old }
{
    for i in 0..words.len() {
        block[i] = words[i];
    }
}

/// Takes a segment that holds these words, then zeros, and links it to the segment given, or to none.
fn fresh_segment<A: Allocator>(region: &mut Region<A>, words: &[u64], link: Option<SegNo>) -> SegNo
    requires short { length words.now ≤ 16 }
    requires some_free { taken_count region.old < segment_count region.old }
    ensures was_free { IsFree region.old result }
    ensures after { region.new ≡ with_entry region.old result (Some (filled words.now link)) }
{
    match region.take() {
        Some(segment) => {
            fill(region.words_mut(segment), words);
            region.set_link(segment, link);
            segment
        }
        None => unreachable!(),
    }
}

/// Takes a chain of `count` segments that holds these words, then zeros, and returns the first; None where `count` is
/// 0. Most nodes have one segment: no call is made for these.
#[inline(always)]
pub fn fresh_chain<A: Allocator>(
    region: &mut Region<A>,
    words: &[u64],
    count: usize,
) -> Option<SegNo>
    requires room { length words.now ≤ 16 * count }
    requires some_free { taken_count region.old + count ≤ segment_count region.old }
    ensures { IsFreshChain region.old region.new (chain count region.new result) words.now count }
{
    if count == 1 {
        return Some(fresh_segment(region, words, None));
    }
    fresh_segments(region, words, count)
}

/// Takes a chain as [`fresh_chain`] does, from its end to its front.
fn fresh_segments<A: Allocator>(
    region: &mut Region<A>,
    words: &[u64],
    count: usize,
) -> Option<SegNo>
    requires room { length words.now ≤ 16 * count }
    requires some_free { taken_count region.old + count ≤ segment_count region.old }
    ensures { IsFreshChain region.old region.new (chain count region.new result) words.now count }
{
    if count == 0 {
        return None;
    }
    let (front, back) = words.split_at(words.len().min(16));
    let rest = fresh_segments(region, back, count - 1);
    Some(fresh_segment(region, front, rest))
}

/// The segment to which `links` links lead from `first`.
pub fn segment_after(region: &RegionView<'_>, first: SegNo, links: usize) -> SegNo
    requires { IsChain region.now (chain (suc links) region.now (Some first)) (suc links) }
    ensures { result ≡ slice_index (chain (suc links) region.now (Some first)) links }
{
    if links == 0 {
        return first;
    }
    match region.link(first) {
        Some(next) => segment_after(region, next, links - 1),
        None => unreachable!(),
    }
}

/// Makes a chain of `count` segments longer by `more` segments of zeros.
pub fn grow_chain<A: Allocator>(region: &mut Region<A>, first: SegNo, count: usize, more: usize)
    requires some { 0 < count }
    requires is_chain { IsChain region.old (chain count region.old (Some first)) count }
    requires some_free { taken_count region.old + more ≤ segment_count region.old }
    ensures { IsGrownChain region.old region.new (chain count region.old (Some first)) (chain (count + more) region.new (Some first)) more }
{
    if more == 0 {
        return;
    }
    let last = segment_after(&region.view(), first, count - 1);
    let fresh = fresh_chain(region, &[], more);
    region.set_link(last, fresh);
}

/// Gives a chain of `count` segments back.
pub fn give_chain<A: Allocator>(region: &mut Region<A>, first: Option<SegNo>, count: usize)
    requires { IsChain region.old (chain count region.old first) count }
    ensures { IsGivenBack region.old region.new (chain count region.old first) }
{
    if count == 0 {
        return;
    }
    match first {
        Some(segment) => {
            let next = region.link(segment);
            region.give(segment);
            give_chain(region, next, count - 1);
        }
        // Not reached: the chain has `count` segments (`IsChain.whole`), and `count` isn't 0.
        None => {}
    }
}
