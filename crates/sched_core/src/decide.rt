//! The tests that decide a step of the core, as functions over values: each gives what the definition of the same name
//! in `specs/Lone.antt` of `sched_rules` gives, where there is one.
ghost use Rattle.std.specs.Prelude.{◌≡◌, ◌+◌, ◌≤◌, ◌==◌, ◌||◌, ◌∷◌, [], not, ℕ, false, List, length};
ghost use Rattle.cactus_stack.specs.Nodes.{charge as charge_for};
ghost use Rattle.frame_table.specs.Frames.{Frame};
ghost use Rattle.sched_rules.specs.Trees.{Tenant, left as left_of, has_child as has_child_of, is_outside as is_outside_of};
ghost use Rattle.sched_rules.specs.Lone.{unless, is_frame_size as is_frame_size_of, is_ready_at as is_ready_at_of, is_run_by as is_run_by_of, is_computed_by as is_computed_by_of, is_returned as is_returned_of, is_waiting as is_waiting_of, is_bad_then as is_bad_then_of, is_bad_act as is_bad_act_of, is_spawn as is_spawn_of, segments_for as segments_for_of, act_tests};

use cactus_stack::Words;
use frame_table::State;
use sched_rules::{Act, Continuation, Refusal};
use tenant_quota::Left;

/// The most words of a frame.
pub const MOST_WORDS: usize = 128;

/// Err with the refusal of the first test that is true; Ok where none is.
#[inline(always)]
pub fn first_of(tests: &[(bool, Refusal)]) -> Result<(), Refusal>
    ensures { result ≡ unless tests.now tt }
{
    for test in tests {
        if test.0 {
            return Err(test.1);
        }
    }
    Ok(())
}

/// Err with the refusal of the first of these four tests that is true; Ok where none is.
#[inline(always)]
pub fn first_of_four(
    first: (bool, Refusal),
    second: (bool, Refusal),
    third: (bool, Refusal),
    fourth: (bool, Refusal),
) -> Result<(), Refusal>
    ensures { result ≡ unless (first ∷ second ∷ third ∷ fourth ∷ []) tt }
{
    if first.0 {
        return Err(first.1);
    }
    if second.0 {
        return Err(second.1);
    }
    if third.0 {
        return Err(third.1);
    }
    if fourth.0 {
        return Err(fourth.1);
    }
    Ok(())
}

/// Whether a frame of this size can be opened with these words: the size is 1 to 128, and no less than the
/// words.
pub fn is_frame_size(words: &[u64], size: usize) -> bool
    ensures { result ≡ is_frame_size_of words.now size }
{
    1 <= size && size <= MOST_WORDS && words.len() <= size
}

/// Whether some store is at a place beyond the words.
#[inline(always)]
pub fn is_outside(stores: &[(usize, u64)], words: &Words) -> bool
    ensures { result ≡ is_outside_of stores.now words.now }
{
    let places = words.len();
    for store in stores {
        if places <= store.0 {
            return true;
        }
    }
    false
}

/// Whether a frame in this state is ready at this home.
pub fn is_ready_at(state: State, home: u8) -> bool
    ensures { result ≡ is_ready_at_of home state }
{
    match state {
        State::Ready(at) => at == home,
        State::Running(_) | State::Computing(_) | State::Waiting | State::Returned => false,
    }
}

/// Whether this worker can't steal a frame in this state from home `from`: it isn't ready there, or that home
/// is the worker's own.
pub fn is_out_of_reach(state: State, from: u8, worker: u8) -> bool
    ensures { result ≡ (not (is_ready_at_of from state) || (from == worker)) }
{
    !is_ready_at(state, from) || from == worker
}

/// Whether this worker runs a frame in this state.
pub fn is_run_by(state: State, worker: u8) -> bool
    ensures { result ≡ is_run_by_of worker state }
{
    match state {
        State::Running(holder) => holder == worker,
        State::Ready(_) | State::Computing(_) | State::Waiting | State::Returned => false,
    }
}

/// Whether this worker computes a frame in this state.
pub fn is_computed_by(state: State, worker: u8) -> bool
    ensures { result ≡ is_computed_by_of worker state }
{
    match state {
        State::Computing(holder) => holder == worker,
        State::Ready(_) | State::Running(_) | State::Waiting | State::Returned => false,
    }
}

/// Whether a frame in this state has returned.
pub fn is_returned(state: State) -> bool
    ensures { result ≡ is_returned_of state }
{
    matches!(state, State::Returned)
}

/// Whether a frame in this state, a root or not, can't end its job: it hasn't returned, or it is no root.
pub fn is_unfinished(state: State, is_root: bool) -> bool
    ensures { result ≡ (not (is_returned_of state) || not is_root) }
{
    !is_returned(state) || !is_root
}

/// Whether a frame in this state waits.
pub fn is_waiting(state: State) -> bool
    ensures { result ≡ is_waiting_of state }
{
    matches!(state, State::Waiting)
}

/// Whether what comes after the stores can't be done by a frame of so many words: a growth by 0 or beyond 128 words,
/// a child of an invalid size, or Compute where `has_child`. What the tenant has left isn't asked.
pub fn is_bad_then(words: usize, has_child: bool, after: &Continuation) -> bool
    ensures { result ≡ is_bad_then_of words has_child after.now }
{
    match after {
        Continuation::Grow(more) => *more == 0 || *more > MOST_WORDS.saturating_sub(words),
        Continuation::Spawn(given, size) => !is_frame_size(given.as_slice(), *size),
        Continuation::Compute => has_child,
        Continuation::Go | Continuation::Wait | Continuation::Return => false,
    }
}

/// Whether an act can't be done by a frame of these words, with a child where `has_child`: a store is beyond the
/// words, or what comes after the stores can't be done. What the tenant has left isn't asked.
pub fn is_bad_act(words: &Words, has_child: bool, act: &Act) -> bool
    ensures { result ≡ is_bad_act_of words.now has_child act.now }
{
    is_outside(act.stores.as_slice(), words) || is_bad_then(words.len(), has_child, &act.after)
}

/// Whether a frame's act opens a child after its stores (Spawn).
pub fn is_spawn(after: &Continuation) -> bool
    ensures { result ≡ is_spawn_of after.now }
{
    matches!(after, Continuation::Spawn(_, _))
}

/// The segments that so many words take: a sixteenth, rounded up.
pub fn charge(words: usize) -> usize
    requires { words ≤ 128 }
    ensures { result ≡ charge_for words }
{
    (words + 15) / 16
}

/// How many more segments an act that can be done takes, of a frame with so many words. Whether the frame has a child
/// doesn't matter here (only Compute asks), so the requirement has `false`.
pub fn segments_for(words: usize, after: &Continuation) -> usize
    requires { is_bad_then_of words false after.now ≡ false }
    ensures { (frame : Frame (List ℕ)) → length frame.value ≡ words → result ≡ segments_for_of frame after.now }
{
    match after {
        Continuation::Grow(more) => charge(words + *more) - charge(words),
        Continuation::Spawn(_, size) => charge(*size),
        Continuation::Go | Continuation::Wait | Continuation::Compute | Continuation::Return => 0,
    }
}

/// Ok where a frame of these words may do this act with what its tenant has left; else BadAct, NoNodes or
/// NoSegments. `has_child` says whether the frame has a child, and matters for Compute alone.
#[inline(always)]
pub fn may_act(words: &Words, has_child: bool, left: Left, act: &Act) -> Result<(), Refusal>
    ensures { (tenant : Tenant) (frame : Frame (List ℕ)) → frame.value ≡ words.now
        → is_bad_then_of (length words.now) (has_child_of tenant.frames frame.serial) act.now.after ≡ is_bad_then_of (length words.now) has_child act.now.after → left_of tenant ≡ left
        → result ≡ unless (act_tests tenant frame act.now) tt }
{
    if is_bad_act(words, has_child, act) {
        return Err(Refusal::BadAct);
    }
    if is_spawn(&act.after) && left.nodes == 0 {
        return Err(Refusal::NoNodes);
    }
    if (left.segments as usize) < segments_for(words.len(), &act.after) {
        return Err(Refusal::NoSegments);
    }
    Ok(())
}
