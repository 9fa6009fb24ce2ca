//! A region of segments that is read: what may be seen through a `&` to it, whatever allocator it has.
ghost use Rattle.std.specs.Prelude.{◌≡◌, length};
ghost use Rattle.segment_region.specs.Segments.{IsTaken, words_at, link_at};
ghost use Rattle.segment_region.specs.Blocks.{segments_of_blocks, IsReadable};

use crate::block::WordBlock;
use crate::cells::{Base, Cells};
use crate::slot::SegNo;
use std::marker::Model;

/// A region that is borrowed for reading only. Contracts see it as they see the region: as the list of its entries.
#[derive(Drop)]
pub struct RegionView<'a> {
    base: Base<WordBlock>,
    mark: usize,
    cells: &'a Cells<WordBlock>,
}

impl<'a> Model for RegionView<'a> {
    ghost use Rattle.segment_region.specs.Segments.{Segments};

    ghost Value = { Segments };

    ghost use Rattle.segment_region.specs.Blocks.{segments_of_blocks, IsReadable};

    ghost view = { λ region. segments_of_blocks region.mark region.cells.now.slots };

    ghost invariant = { λ region. IsReadable region.base region.cells.now region.mark };
}

impl<'a> RegionView<'a> {
    /// The region of these blocks, of which those from the mark on are free.
    pub(crate) fn of(
        base: Base<WordBlock>,
        mark: usize,
        cells: &'a Cells<WordBlock>,
    ) -> RegionView<'a>
        requires { IsReadable base cells.now mark }
        ensures { result ≡ segments_of_blocks mark cells.now.slots }
    {
        RegionView { base, mark, cells }
    }

    /// One more view of the same region, for reading.
    pub fn view(&self) -> RegionView<'a>
        ensures { result ≡ self.now }
    {
        RegionView {
            base: self.base,
            mark: self.mark,
            cells: self.cells,
        }
    }

    /// The sixteen words of a taken segment.
    pub fn words(&self, segment: SegNo) -> &'a [u64]
        requires { IsTaken self.now segment }
        ensures value { result.now ≡ words_at self.now segment }
        ensures sixteen { length result.now ≡ 16 }
    {
        let at = segment.index();
        let cells: &'a Cells<WordBlock> = self.cells;
        &cells.get(self.base, at).words
    }

    /// The segment that a taken one is chained to; None where it is chained to none.
    pub fn link(&self, segment: SegNo) -> Option<SegNo>
        requires { IsTaken self.now segment }
        ensures { result ≡ link_at self.now segment }
    {
        let at = segment.index();
        self.cells.get(self.base, at).link.next()
    }
}
