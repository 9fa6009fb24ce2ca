//! How the choices of a search's frame stand: the entries after its first twelve words, segment (16 words) by segment.
ghost use Rattle.std.specs.Prelude.{◌≡◌, ◌≤◌, ◌==◌, ◌&&◌, nat_lt, drop, length, map, slice_index};
ghost use Rattle.jamboree_rules.specs.Frames.{status_failed};
ghost use Rattle.jamboree_rules.specs.Places.{status_of, are_entries, frame_size};
ghost use Rattle.jamboree_rules.specs.Acts.{first_open};
ghost use Rattle.jamboree.specs.Views.{statuses_in, rests_in};

use crate::entry::{PackedBound, is_entry, is_entry_of};
use crate::phases::Status;
use crate::view::{SIZE, entries, entry, first_number};
use cactus_stack::{Words, charge};

/// Whether each of these words is a valid entry.
fn all_are_entries(entries: &[u64]) -> bool
    ensures { result ≡ are_entries entries.now }
{
    for entry in entries {
        if !is_entry(*entry) {
            return false;
        }
    }
    true
}

/// Whether each word after the first twelve of a frame is a valid entry.
#[tactic(auto, using(crate::proofs::Rules::are_entries_rules))]
pub(crate) fn are_entries(words: &Words) -> bool
    requires { frame_size ≤ length words.now }
    ensures { result ≡ are_entries (drop frame_size words.now) }
{
    for number in 0..charge(words.len()) {
        if !all_are_entries(entries(words, number)) {
            return false;
        }
    }
    true
}

/// The place of the first of these entries whose choice isn't settled, or their number where all are.
#[tactic(auto, using(crate::proofs::Rules::open_in_rules))]
fn open_in(entries: &[u64]) -> usize
    ensures { result ≡ first_open (map status_of entries.now) }
{
    for (number, entry) in entries.iter().enumerate() {
        if !is_entry_of(*entry, Status::Settled) {
            return number;
        }
    }
    entries.len()
}

/// The number of the first choice that isn't settled, or the number of choices where all are.
#[inline(always)]
#[tactic(auto, using(crate::proofs::Rules::first_open_rules))]
pub(crate) fn first_open(words: &Words) -> usize
    requires { frame_size ≤ length words.now }
    ensures value { result ≡ first_open (statuses_in words.now) }
    ensures small { result ≤ 116 }
{
    for number in 0..charge(words.len()) {
        let entries = entries(words, number);
        let open = open_in(entries);
        if open < entries.len() {
            return first_number(number) + open;
        }
    }
    words.len() - SIZE
}

/// Whether the test of the choice of this number has failed; false where there is no such choice.
#[inline(always)]
pub(crate) fn has_failed(words: &Words, number: usize) -> bool
    requires { number ≤ 128 }
    ensures { result ≡ (nat_lt number (length (statuses_in words.now)) && (slice_index (statuses_in words.now) number == status_failed)) }
{
    match entry(words, number) {
        Some(entry) => is_entry_of(entry, Status::Failed),
        None => false,
    }
}

/// What is known of the choice of this number, as its entry without the status; 0 where nothing is known or there is no
/// such choice.
#[inline(always)]
#[tactic(auto, using(crate::proofs::Rules::rest_rules))]
pub(crate) fn rest_at(words: &Words, number: usize) -> PackedBound
    requires { number ≤ 128 }
    ensures { result.word ≡ slice_index (rests_in words.now) number }
{
    PackedBound::of(entry(words, number).unwrap_or(0))
}
