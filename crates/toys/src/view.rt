//! Words of a frame, read by the toy procedures.
ghost use Rattle.std.specs.Prelude.{◌≡◌};
ghost use Rattle.toys.specs.Toys.{nearest, word_at};

use cactus_stack::{Sight, Words};

/// The word at a place in a frame's words, counted from 0; 0 where there is none.
pub fn word(words: &Words, place: usize) -> u64
    ensures { result ≡ word_at words.now place }
{
    words.get(place).unwrap_or(0)
}

/// The word at a place of the frame's own words, which it sees first; 0 where there is none.
pub(crate) fn own_word(sight: &Sight, place: usize) -> u64
    ensures { result ≡ word_at (nearest sight.now) place }
{
    match sight.up(0) {
        Some(own) => word(&own, place),
        None => 0,
    }
}
