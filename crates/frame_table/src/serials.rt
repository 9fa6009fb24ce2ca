//! The serials of one tenant's frames in the frame table, in rising order: the index by which a frame is found.
//!
//! A place is mostly asked for to remove the newest frame, or the oldest child of a single root: those are
//! looked at before a binary search, which reads nothing but serials.
ghost use Rattle.std.specs.Prelude.{◌≡◌, ◌<◌, true, false, length, slice_index, IfSome, IfNone};
ghost use Rattle.numbered_list.specs.Places.{AreRising};
ghost use Rattle.frame_table.specs.Places.{has_number};

use crate::window::ListWindow;
use std::alloc::Allocator;

/// The serials of one tenant's frames, by rising number.
pub(crate) type Serials<A> = ListWindow<u64, A>;

/// The place of a serial in the list; None where it isn't there. The last and the second place are tried before
/// a binary search.
#[inline(always)]
pub(crate) fn place_of<A: Allocator>(serials: &Serials<A>, serial: u64) -> Option<usize>
    requires { AreRising (λ n. n) serials.now.list }
    ensures found { IfSome result (λ at. (at < length serials.now.list) × (slice_index serials.now.list at ≡ serial)) }
    ensures none { IfNone result (has_number serials.now.list serial ≡ false) }
{
    let list = serials.as_slice();
    let count = list.len();
    if count > 0 && list[count - 1] == serial {
        return Some(count - 1);
    }
    if count > 1 && list[1] == serial {
        return Some(1);
    }
    search(serials, serial)
}

/// The place of a serial in the list, by binary search; None where it isn't there.
#[cold]
#[inline(never)]
pub(crate) fn search<A: Allocator>(serials: &Serials<A>, serial: u64) -> Option<usize>
    requires { AreRising (λ n. n) serials.now.list }
    ensures found { IfSome result (λ at. (at < length serials.now.list) × (slice_index serials.now.list at ≡ serial)) }
    ensures none { IfNone result (has_number serials.now.list serial ≡ false) }
{
    match serials.as_slice().binary_search(&serial) {
        Ok(at) => Some(at),
        Err(_) => None,
    }
}

/// The place of a serial that is in the list.
#[inline(always)]
pub(crate) fn known_place<A: Allocator>(serials: &Serials<A>, serial: u64) -> usize
    requires rise { AreRising (λ n. n) serials.now.list }
    requires there { has_number serials.now.list serial ≡ true }
    ensures within { result < length serials.now.list }
    ensures found { slice_index serials.now.list result ≡ serial }
{
    match place_of(serials, serial) {
        Some(at) => at,
        None => unreachable!(),
    }
}
