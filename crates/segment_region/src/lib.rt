//! A region of segments: memory in pieces of sixteen words, each lent out and given back as a whole.
//!
//! Whoever keeps lists of words of many owners in one piece of memory, as a cactus stack does, takes
//! a segment for each sixteen words, chains the segments of one owner by their links, and gives them
//! back one by one. What is done to one segment never shows in another.
//!
//! **What a `Region` stands for.** A finite map from the numbers of the taken segments to their words
//! and links, and the count of all segments. Contracts see it as a list of that many entries: at place
//! `n` stands the segment of number `n` where it is taken, and nothing where it is free. They name
//! nothing of what the region is made of.
//!
//! **Why it holds.** A region is one allocation of as many blocks, each of sixteen words and one link
//! word. Blocks are taken from the first on, and a mark says how far: below it each place holds a
//! block; from it on all are free, nothing is written in them by [`Region::new`] and nothing is read
//! of them. A block that is given
//! back right below the mark lowers it. Any other keeps its place, and its link word says that it is
//! free and which free block comes after it; that of a taken block says what follows it in its
//! owner's chain. The links of the free blocks below the mark lead through as many as are not taken
//! there, and end. So none of them comes twice, the first is always free, none lies from the mark on
//! too, and no block is ever lost.
//!
//! Only [`Region::new`] takes memory, once; every call takes constant time. Five short functions
//! hold pointers: those of the module `cells`.
//!
//! Why it is so:
//!
//! - `Region::words_mut` lends `&mut [u64; 16]`, as an array can't be lent as a slice (`docs/DECISIONS.md`). No
//!   mutant changes a function that holds a pointer, as its proof walks its very code; mutants change its
//!   callers. Proofs cite lemmas of the kit's `core` and `std_alloc`: a move to another kit starts here.
//!
//! ```text
//! let mut region = Region::new(alloc, 4)?;
//! if let Some(first) = region.take() {
//!     region.words_mut(first)[3] = 7; // no other segment changes
//!     region.give(first);             // and all four are free again
//! }
//! ```
#![tactic(auto)]

mod block;
mod cells;
pub mod laws;
mod region;
mod slot;
mod view;

pub use region::Region;
pub use slot::SegNo;
pub use view::RegionView;
