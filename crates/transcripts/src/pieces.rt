//! The player of texts: a reader that gives its bytes in pieces.
use line_io::{ReadFailed, Source};

/// Gives these bytes, at most so many a call, and then ends.
#[derive(Drop)]
pub struct Pieces<'b> {
    /// What is left.
    pub bytes: &'b [u8],
    /// The most bytes of a piece; 0 is taken as 1.
    pub most: usize,
}

impl Source for Pieces<'_> {
    ghost gives = { λ _ _ _. Unit {0} };

    /// Gives the next bytes, so many at a time at most.
    fn fill(&mut self, block: &mut [u8]) -> Result<usize, ReadFailed> {
        let bytes = self.bytes;
        let count = self.most.max(1).min(block.len()).min(bytes.len());
        let (piece, others) = bytes.split_at(count);
        block[..count].copy_from_slice(piece);
        self.bytes = others;
        Ok(count)
    }
}
