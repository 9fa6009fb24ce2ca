//! A block of a region's memory: the sixteen words of a segment, and one link word.
ghost use Rattle.std.specs.Prelude.{◌≡◌, replicate};

use crate::slot::SegNo;

/// The link word of a block: whether the block is taken, and which comes after it, in the list of the
/// free blocks where it is free, and in its owner's chain where it is taken. Its parts are read with no
/// branch, which an enum of the cases would need.
#[derive(Clone, Copy, Drop)]
pub struct Link {
    taken: bool,
    chained: bool,
    // Where the block is chained, the one after it.
    next: SegNo,
}

impl Link {
    ghost use Rattle.std.specs.Prelude.{◌≡◌, true, None, Some};
    ghost use Rattle.segment_region.specs.Blocks.{IsLink, next_of};

    /// The link word of a block that has none after it.
    pub(crate) fn end(taken: bool) -> Link
        ensures { IsLink result taken None }
    {
        Link {
            taken,
            chained: false,
            next: SegNo::from_number(0),
        }
    }

    /// The link word of a block, taken or free, that leads to this next block.
    pub(crate) fn before(taken: bool, next: SegNo) -> Link
        ensures { IsLink result taken (Some next) }
    {
        Link {
            taken,
            chained: true,
            next,
        }
    }

    /// The link word of a taken block that has this block after it, or none.
    pub(crate) fn taken(next: Option<SegNo>) -> Link
        ensures { IsLink result true next }
    {
        match next {
            None => Link::end(true),
            Some(next) => Link::before(true, next),
        }
    }

    /// The block that this link word leads to; None where it leads to none.
    pub(crate) fn next(self) -> Option<SegNo>
        ensures { result ≡ next_of self }
    {
        if self.chained { Some(self.next) } else { None }
    }
}

/// A block: its words, and its link word. The words' type is a parameter since a `&mut` to a field that is an array is
/// followed back to its struct only where the array's type is one.
#[derive(Clone, Copy, Drop)]
pub struct Block<W> {
    pub(crate) words: W,
    pub(crate) link: Link,
}

/// A block of sixteen words.
pub(crate) type WordBlock = Block<[u64; 16]>;

impl<W> Block<W> {
    ghost use Rattle.std.specs.Prelude.{◌≡◌};
    ghost use Rattle.std.specs.Borrow.{sem};
    ghost use Rattle.segment_region.specs.Words.{LendsBlockWords};

    /// The sixteen words of the segment, to be written.
    pub(crate) fn words_mut(&mut self) -> &mut W
        ensures* lends { sem 𝓛 (LendsBlockWords W.row self.entry result) }
        ensures value { result.now ≡ self.old.words }
    {
        &mut self.words
    }
}

/// A block of sixteen zeros with this link word.
pub(crate) fn zeros(link: Link) -> WordBlock
    ensures { result ≡ record { words = replicate 16 0; link = link } }
{
    Block {
        words: [0; 16],
        link,
    }
}
