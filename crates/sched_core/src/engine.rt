//! The core's engine: a procedure and a store, and what each step reads before it is decided.
ghost use Rattle.std.specs.Prelude.{◌≡◌, ℕ, List, Some, None, IsSome, IfOk, MatchResult};
ghost use Rattle.frame_table.specs.Frames.{Frame};
ghost use Rattle.sched_rules.specs.Trees.{Tenant};
ghost use Rattle.sched_rules.specs.Views.{named};
ghost use Rattle.sched_store.specs.Reads.{words_under, sight_of, AreTenantsRising};
ghost use Rattle.sched_core.specs.Seeing.{IsSeen, missing};

use cactus_stack::{Sight, Words};
use frame_table::{FrameId, State};
use sched_rules::Refusal;
use sched_store::{Sighted, Store};
use std::alloc::{Allocator, Global};
use tenant_quota::Left;

/// The procedure and the store of a core, without the core's invariant.
#[derive(Drop)]
pub(crate) struct Engine<P, A: Allocator = Global> {
    pub(crate) procedure: P,
    pub(crate) store: Store<A>,
}

/// What a step reads of the frame that it names.
#[derive(Clone, Copy, Drop)]
pub(crate) struct Seen {
    /// The parent's name; a root has none.
    pub(crate) parent: Option<FrameId>,
    /// What the frame is doing.
    pub(crate) state: State,
    /// What its tenant has left.
    pub(crate) left: Left,
}

/// What a step reads of a frame about which it asks the procedure.
#[derive(Drop)]
pub(crate) struct Found<'a> {
    /// What any step reads of the frame that it names.
    pub(crate) seen: Seen,
    /// Its words.
    pub(crate) words: Words<'a>,
    /// Its own words, its parent's, and so on to its root's.
    pub(crate) sight: Sight<'a>,
}

/// Looks a frame up: its parent, its state, and what its tenant has left. NoTenant or NoFrame where it isn't
/// there.
#[inline(always)]
#[tactic(auto, using(crate::proofs::Showing::no_frame))]
pub(crate) fn look<A: Allocator>(store: &Store<A>, name: FrameId) -> Result<Seen, Refusal>
    ensures { MatchResult result
        (λ seen. (tenant : Tenant) × (frame : Frame (List ℕ)) × IsSeen store.now name tenant frame seen)
        (λ refusal. missing store.now name ≡ Some refusal) }
{
    let Some(left) = store.left(name.tenant) else {
        return Err(Refusal::NoTenant);
    };
    let Some((parent, state)) = store.find(name) else {
        return Err(Refusal::NoFrame);
    };
    Ok(Seen {
        parent,
        state,
        left,
    })
}

/// Looks a frame up as `look` does, with its words and what it sees, by one look-up. NoTenant or NoFrame where
/// it isn't there.
#[inline(always)]
#[tactic(auto, using(crate::proofs::Showing::no_frame))]
pub(crate) fn look_in<A: Allocator>(store: &Store<A>, name: FrameId) -> Result<Found<'_>, Refusal>
    ensures frame { MatchResult result
        (λ found. (tenant : Tenant) × (frame : Frame (List ℕ)) × IsSeen store.now name tenant frame found.seen)
        (λ refusal. missing store.now name ≡ Some refusal) }
    ensures words { IfOk result (λ found. found.words ≡ words_under store.now name) }
    ensures sight { IfOk result (λ found. found.sight ≡ sight_of store.now name) }
{
    let Some(left) = store.left(name.tenant) else {
        return Err(Refusal::NoTenant);
    };
    let Some(sighted) = store.look_up(name) else {
        return Err(Refusal::NoFrame);
    };
    let Sighted {
        parent,
        state,
        words,
        sight,
    } = sighted;
    let seen = Seen {
        parent,
        state,
        left,
    };
    Ok(Found { seen, words, sight })
}

/// The words of a frame that is there.
#[inline(always)]
pub(crate) fn own<A: Allocator>(store: &Store<A>, name: FrameId) -> Words<'_>
    requires { IsSome (named store.now name) }
    ensures { result ≡ words_under store.now name }
{
    match store.words(name) {
        Some(words) => words,
        None => unreachable!(),
    }
}

/// The state and the words of a frame that is there, by one look-up.
#[inline(always)]
pub(crate) fn known<A: Allocator>(store: &Store<A>, name: FrameId) -> (State, Words<'_>)
    requires { IsSome (named store.now name) }
    ensures state { (frame : Frame (List ℕ)) → named store.now name ≡ Some frame → result.0 ≡ frame.state }
    ensures words { result.1 ≡ words_under store.now name }
    ensures rising { AreTenantsRising store.now.tenants }
{
    match store.look_up(name) {
        Some(sighted) => (sighted.state, sighted.words),
        None => unreachable!(),
    }
}
