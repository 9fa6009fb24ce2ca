//! The region of segments (16 words each): what may be taken, given back, read and written.
ghost use Rattle.std.specs.Prelude.{◌≡◌, ◌+◌, ◌<◌, ◌≤◌, ◌↔◌, ℕ, length, replicate, None, Some, IfOk, IfSome, IfNone, IsNone};
ghost use Rattle.std.specs.Borrow.{sem};
ghost use Rattle.segment_region.specs.Segments.{Segments, Segment, IsTaken, IsFree, words_at, link_at, with_entry, with_link, blank, taken_count, segment_count};
ghost use Rattle.segment_region.specs.Lending.{LendsWords};
ghost use Rattle.segment_region.specs.Blocks.{segments_of_blocks, IsWhole};

use crate::block::{Link, WordBlock, zeros};
use crate::cells::{Base, Cells, Title, allocate, deallocate};
use crate::slot::SegNo;
use crate::view::RegionView;
use std::alloc::{AllocError, Allocator, Global};
use std::marker::Model;

/// Segments of sixteen words, of which some are taken.
pub struct Region<A: Allocator = Global> {
    // One allocation of `count` blocks from `base` on: its owner, the right to free it, and by whom.
    base: Base<WordBlock>,
    count: usize,
    cells: Cells<WordBlock>,
    title: Title<WordBlock, A>,
    alloc: A,
    // The blocks from the mark on are free, and nothing is read of them.
    mark: usize,
    // The list of the free blocks below the mark: its link leads to the first of them. It becomes the link word of the
    // next block that is given back below the mark.
    free: Link,
    // How many blocks are on that list.
    listed: usize,
}

impl<A: Allocator> Model for Region<A> {
    ghost use Rattle.segment_region.specs.Segments.{Segments};

    ghost Value = { Segments };

    ghost use Rattle.segment_region.specs.Blocks.{segments_of_blocks, IsWhole, IsOneAllocation};

    ghost view = { λ region. segments_of_blocks region.mark region.cells.slots };

    ghost invariant = { λ region. IsOneAllocation region.base region.cells region.title region.count region.alloc × IsWhole region.cells.slots region.count region.mark region.free region.listed };
}

// Gives the allocation back, with the blocks in it.
impl<A: Allocator> Drop for Region<A> {
    /// Gives the region's memory back to its allocator.
    fn drop(self) {
        let Region {
            base,
            count,
            cells,
            title,
            alloc,
            mark: _,
            free: _,
            listed: _,
        } = self;
        deallocate(&alloc, base, count, cells, title);
    }
}

impl<A: Allocator> Region<A> {
    /// A region of `count` segments, 1 to 65,536, all free. It fails only for want of memory.
    pub fn new(alloc: A, count: usize) -> Result<Region<A>, AllocError>
        requires some { 1 ≤ count }
        requires in_limits { count ≤ 65536 }
        ensures { IfOk result (λ region. region ≡ replicate count None) }
    {
        let (base, cells, title) = allocate(&alloc, count)?;
        Ok(Region {
            base,
            count,
            cells,
            title,
            alloc,
            mark: 0,
            free: Link::end(false),
            listed: 0,
        })
    }

    /// Takes a free segment, and returns its number; its words are sixteen zeros then, and it has no link. None only
    /// where no segment is free.
    pub fn take(&mut self) -> Option<SegNo>
        ensures fresh { IfSome result (IsFree self.old) }
        ensures taken { IfSome result (λ number. self.new ≡ with_entry self.old number (Some blank)) }
        ensures none_free { IsNone result ↔ (taken_count self.old ≡ segment_count self.old) }
        ensures unchanged { IfNone result (self.new ≡ self.old) }
    {
        let link = Link::end(true);
        match self.free.next() {
            Some(segment) => {
                let at = segment.index();
                self.free = self.cells.get(self.base, at).link;
                self.listed -= 1;
                self.cells.write(self.base, at, zeros(link));
                Some(segment)
            }
            None if self.mark < self.count => {
                let number = self.mark as u32;
                self.cells.write(self.base, self.mark, zeros(link));
                self.mark += 1;
                Some(SegNo::from_number(number))
            }
            None => None,
        }
    }

    /// Gives a taken segment back: it is free then.
    pub fn give(&mut self, segment: SegNo)
        requires { IsTaken self.old segment }
        ensures { self.new ≡ with_entry self.old segment None }
    {
        let at = segment.index();
        if at + 1 == self.mark {
            self.mark = at;
        } else {
            self.cells.get_mut(self.base, at).link = self.free;
            self.free = Link::before(false, segment);
            self.listed += 1;
        }
    }

    /// Borrows the region for reading only.
    pub fn view(&self) -> RegionView<'_>
        ensures { result ≡ self.now }
    {
        RegionView::of(self.base, self.mark, &self.cells)
    }

    /// The sixteen words of a taken segment.
    pub fn words(&self, segment: SegNo) -> &[u64]
        requires { IsTaken self.now segment }
        ensures value { result.now ≡ words_at self.now segment }
        ensures sixteen { length result.now ≡ 16 }
    {
        self.view().words(segment)
    }

    /// The sixteen words of a taken segment, to be written. No link and no other segment changes.
    pub fn words_mut(&mut self, segment: SegNo) -> &mut [u64; 16]
        requires { IsTaken self.old segment }
        ensures* lends { sem 𝓛 (LendsWords A.row A.Allocator self.entry segment result) }
        ensures value { result.now ≡ words_at self.old segment }
    {
        let at = segment.index();
        let base = self.base;
        self.cells.get_mut(base, at).words_mut()
    }

    /// The segment that a taken one is chained to; None where it is chained to none.
    pub fn link(&self, segment: SegNo) -> Option<SegNo>
        requires { IsTaken self.now segment }
        ensures { result ≡ link_at self.now segment }
    {
        self.view().link(segment)
    }

    /// Chains a taken segment to another, or to none. No words and no other link change.
    pub fn set_link(&mut self, segment: SegNo, link: Option<SegNo>)
        requires { IsTaken self.old segment }
        ensures { self.new ≡ with_link self.old segment link }
    {
        let at = segment.index();
        self.cells.get_mut(self.base, at).link = Link::taken(link);
    }

    /// How many segments are free: all but the taken ones.
    pub fn free_count(&self) -> usize
        ensures { result + taken_count self.now ≡ segment_count self.now }
    {
        let Region {
            count,
            mark,
            listed,
            ..
        } = self;
        *listed + (*count - *mark)
    }
}
