//! The words of one node of a cactus stack, read in place.
ghost use Rattle.std.specs.Prelude.{◌≡◌, ◌≤◌, ◌*◌, drop, length, slice_get, take};

use crate::chain::segment_after;
use crate::charges::charge;
use segment_region::{RegionView, SegNo};
use std::marker::Model;

/// The words of a node. Contracts see them as a list.
#[derive(Drop)]
pub struct Words<'a> {
    region: RegionView<'a>,
    first: SegNo,
    len: usize,
}

impl<'a> Model for Words<'a> {
    ghost use Rattle.std.specs.Prelude.{List, ℕ};

    ghost Value = { List ℕ };

    ghost use Rattle.cactus_stack.specs.Places.{words_in_chain, IsSoundList};

    ghost view = { λ words. words_in_chain words.region words.first words.len };

    ghost invariant = { λ words. IsSoundList words.region words.first words.len };
}

impl<'a> Words<'a> {
    ghost use Rattle.cactus_stack.specs.Places.{words_in_chain, IsSoundList};

    /// The words of one node, read in place: so many words, from this segment of the region on.
    pub(crate) fn of(region: RegionView<'a>, first: SegNo, len: usize) -> Words<'a>
        requires { IsSoundList region first len }
        ensures { result ≡ words_in_chain region.entry first len }
    {
        Words { region, first, len }
    }

    /// How many words there are, at most 128.
    pub fn len(&self) -> usize
        ensures value { result ≡ length self.now }
        ensures in_limits { result ≤ 128 }
    {
        let Words { len, .. } = self;
        *len
    }

    /// The word at a place, counted from 0, or None where there is no such place. It follows
    /// a link for each sixteen places before it.
    #[inline(always)]
    pub fn get(&self, at: usize) -> Option<u64>
        ensures { result ≡ slice_get self.now at }
    {
        if at >= self.len {
            return None;
        }
        let segment = segment_after(&self.region, self.first, at / 16);
        Some(self.region.words(segment)[at % 16])
    }

    /// The words of a segment, in place: the sixteen from place `16 * number` on, or as many as are
    /// left from there. It follows a link for each segment before it.
    pub fn segment(&self, number: usize) -> &'a [u64]
        ensures { result.now ≡ take 16 (drop (16 * number) self.now) }
    {
        if charge(self.len) <= number {
            return &[];
        }
        let segment = segment_after(&self.region, self.first, number);
        let words = self.region.words(segment);
        &words[..(self.len - 16 * number).min(16)]
    }
}
