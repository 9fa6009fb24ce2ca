//! The ready frames of one tenant in the frame table, each with its home (the worker that may take it, or 0 for
//! the hall).
//!
//! They stand by rising serial, so that the last is the newest ready frame. The place of a frame that
//! becomes ready, or no longer is, is mostly at one of the ends: those are looked at before a binary search.
ghost use Rattle.std.specs.Prelude.{◌≡◌, ◌<◌, ◌≤◌, length, filter, not, ◌==◌, nat_lt};
ghost use Rattle.numbered_list.specs.Places.{AreRising, inserted};
ghost use Rattle.frame_table.specs.Places.{IsPlaceFor};
ghost use Rattle.frame_table.specs.Readies.{last_ready, without_ready, put_ready};

use crate::names::State;
use crate::window::ListWindow;
use std::alloc::Allocator;

/// A ready frame: its serial, and its home.
#[derive(Clone, Copy)]
pub(crate) struct ReadyFrame {
    pub(crate) serial: u64,
    pub(crate) home: u8,
}

/// The ready frames of one tenant.
pub(crate) type ReadyFrames<A> = ListWindow<ReadyFrame, A>;

/// The ready frame of the greatest serial; None where none is ready.
#[tactic(auto, using(crate::proofs::Readies::ready_laws))]
pub(crate) fn newest<A: Allocator>(ready: &ReadyFrames<A>) -> Option<ReadyFrame>
    ensures { result ≡ last_ready ready.now.list }
{
    ready.as_slice().last().copied()
}

/// The place of the frame with this serial, or the place to insert it at.
fn place_for<A: Allocator>(ready: &ReadyFrames<A>, serial: u64) -> usize
    requires { AreRising (λ frame. frame.serial) ready.now.list }
    ensures within { result ≤ length ready.now.list }
    ensures place { IsPlaceFor (λ frame. frame.serial) ready.now.list serial result }
{
    place_in(ready.as_slice(), serial)
}

/// Adds a ready frame, which isn't in the list yet, at its place by serial.
#[tactic(auto, using(crate::proofs::Places::place_laws))]
fn put<A: Allocator>(ready: &mut ReadyFrames<A>, serial: u64, home: u8)
    requires rise { AreRising (λ frame. frame.serial) ready.old.list }
    requires room { length ready.old.list < ready.old.places }
    ensures { ready.new ≡ record ready.old { list = inserted (λ frame. frame.serial) (record { serial = serial; home = home }) ready.old.list } }
{
    let at = place_for(ready, serial);
    ready.insert(at, ReadyFrame { serial, home });
}

/// Removes the frame with this serial from the list, if it is there.
#[inline(always)]
fn forget<A: Allocator>(ready: &mut ReadyFrames<A>, serial: u64)
    requires { AreRising (λ frame. frame.serial) ready.old.list }
    ensures { ready.new ≡ record ready.old { list = filter (λ frame. not (frame.serial == serial)) ready.old.list } }
{
    let at = place_for(ready, serial);
    if at < ready.len() && ready.at(at).serial == serial {
        ready.remove(at);
    }
}

/// Removes a frame from the list if the state that it leaves, `was`, is Ready; else nothing changes.
#[inline(always)]
pub(crate) fn leave<A: Allocator>(ready: &mut ReadyFrames<A>, serial: u64, was: State)
    requires { AreRising (λ frame. frame.serial) ready.old.list }
    ensures { ready.new ≡ record ready.old { list = without_ready serial was ready.old.list } }
{
    if was.is_ready() {
        forget(ready, serial);
    }
}

/// Updates the list for a frame that goes from state `was` to `now`: it is removed if it was ready, and added
/// if it is ready now.
#[inline(always)]
#[tactic(auto, using(crate::proofs::Readies::ready_laws))]
pub(crate) fn follow<A: Allocator>(ready: &mut ReadyFrames<A>, serial: u64, was: State, now: State)
    requires rise { AreRising (λ frame. frame.serial) ready.old.list }
    requires room { length (put_ready serial now (without_ready serial was ready.old.list)) ≤ ready.old.places }
    ensures { ready.new ≡ record ready.old { list = put_ready serial now (without_ready serial was ready.old.list) } }
{
    leave(ready, serial, was);
    if let State::Ready(home) = now {
        put(ready, serial, home);
    }
}

/// Removes the ready frames of this serial and above.
#[tactic(auto, using(crate::proofs::Places::place_laws))]
pub(crate) fn forget_from<A: Allocator>(ready: &mut ReadyFrames<A>, serial: u64)
    requires { AreRising (λ frame. frame.serial) ready.old.list }
    ensures { ready.new ≡ record ready.old { list = filter (λ frame. nat_lt frame.serial serial) ready.old.list } }
{
    let at = place_for(ready, serial);
    ready.truncate(at);
}

/// The place of the frame with this serial among these, or the place to insert it at. Both ends are tried
/// before a binary search.
#[inline(always)]
fn place_in(frames: &[ReadyFrame], serial: u64) -> usize
    requires { AreRising (λ frame. frame.serial) frames.now }
    ensures within { result ≤ length frames.now }
    ensures place { IsPlaceFor (λ frame. frame.serial) frames.now serial result }
{
    let count = frames.len();
    if count == 0 {
        return 0;
    }
    let last = frames[count - 1].serial;
    if last < serial {
        return count;
    }
    if last == serial {
        return count - 1;
    }
    if serial <= frames[0].serial {
        return 0;
    }
    frames.partition_point(|frame| frame.serial < serial)
}
