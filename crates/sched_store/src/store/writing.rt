//! Frames of the core's store are written, made longer, and put into other states.
ghost use Rattle.std.specs.Prelude.{◌≡◌, ◌+◌, ◌≤◌, ◌++◌, ℕ, true, false, length, replicate, IsSome};
ghost use Rattle.cactus_stack.specs.Nodes.{IsOpen, node_words, with_node_words, growth_charge as growth_of_words};
ghost use Rattle.sched_rules.specs.Trees.{stored, is_outside, is_held_by};
ghost use Rattle.sched_rules.specs.Lone.{holding, in_state};
ghost use Rattle.sched_rules.specs.Changes.{on_tenant};
ghost use Rattle.sched_rules.specs.Views.{named};
ghost use Rattle.sched_store.specs.Reads.{words_under, is_held, holds, may_hold, TenantHasLeft};

use crate::store::{Store, node_of};
use cactus_stack::{NodeNo, Stack, growth_charge};
use frame_table::{FrameId, State};
use sched_rules::Worker;
use std::alloc::Allocator;

impl<A: Allocator> Store<A> {
    /// Stores words in a frame that is there, each at its place, in order; the frame has all these places. Without
    /// stores the frame isn't looked up.
    #[inline(always)]
    pub fn store_all(&mut self, name: FrameId, stores: &[(usize, u64)])
        requires there { IsSome (named self.old name) }
        requires inside { is_outside stores.now (words_under self.old name) ≡ false }
        ensures { self.new ≡ on_tenant name.tenant (holding name.serial (stored stores.now (words_under self.old name))) self.old }
    {
        // This read makes the invariant of the store known to the prover.
        let _ = &self.table;
        if stores.is_empty() {
            return;
        }
        self.store_some(name, stores);
    }

    /// Stores words in a frame that is there, as `store_all` does, but looks the frame up even where the list is empty.
    #[inline(always)]
    fn store_some(&mut self, name: FrameId, stores: &[(usize, u64)])
        requires there { IsSome (named self.old name) }
        requires inside { is_outside stores.now (words_under self.old name) ≡ false }
        ensures { self.new ≡ on_tenant name.tenant (holding name.serial (stored stores.now (words_under self.old name))) self.old }
    {
        let node = node_of(&self.table, name);
        store_words(&mut self.stack, node, stores);
    }

    /// Appends so many words, each 0, to a frame, up to 128 in all. The tenant is charged the segments that this
    /// takes; it has as many left.
    pub fn grow(&mut self, name: FrameId, more: usize)
        requires there { IsSome (named self.old name) }
        requires size { length (words_under self.old name) + more ≤ 128 }
        requires left { TenantHasLeft self.old name.tenant (growth_of_words (length (words_under self.old name)) more) 0 }
        ensures { self.new ≡ on_tenant name.tenant (holding name.serial (words_under self.old name ++ replicate more 0)) self.old }
    {
        let node = node_of(&self.table, name);
        let added = growth_charge(self.stack.own(node).len(), more);
        self.stack.grow(node, more).unwrap();
        self.book.charge(name.tenant, added as u32, 0).unwrap();
    }

    /// Puts a frame into a state in which no worker runs or computes it: Ready, Waiting or Returned.
    #[inline(always)]
    pub fn set_state(&mut self, name: FrameId, state: State)
        requires there { IsSome (named self.old name) }
        requires nobody { is_held state ≡ false }
        ensures { self.new ≡ on_tenant name.tenant (in_state name.serial state) self.old }
    {
        self.table.set_state(name, state);
    }

    /// Puts a frame that this worker runs or computes into a state in which no worker does: Ready, Waiting or
    /// Returned. The worker's entry in `places` becomes None, so that `is_busy` needs no look-up of a frame.
    #[inline(always)]
    pub fn let_go(&mut self, worker: Worker, name: FrameId, state: State)
        requires there { IsSome (named self.old name) }
        requires held { holds worker (named self.old name) ≡ true }
        requires nobody { is_held state ≡ false }
        ensures { self.new ≡ on_tenant name.tenant (in_state name.serial state) self.old }
    {
        let number = worker.number();
        self.places[number as usize] = None;
        let table = &mut self.table;
        table.set_state(name, state);
    }

    /// Puts a frame into Running or Computing by this worker, and notes it in `places` as the worker's. Before, the
    /// worker ran or computed no frame, or this one.
    #[inline(always)]
    pub fn hold(&mut self, worker: Worker, name: FrameId, state: State)
        requires there { IsSome (named self.old name) }
        requires free { may_hold self.old worker name ≡ true }
        requires names { is_held_by worker state ≡ true }
        ensures { self.new ≡ on_tenant name.tenant (in_state name.serial state) self.old }
    {
        let number = worker.number();
        self.places[number as usize] = Some(name);
        self.table.set_state(name, state);
    }
}

/// Stores words in an open node, each at its place, in order; the node has all these places.
fn store_words<A: Allocator>(stack: &mut Stack<A>, node: NodeNo, stores: &[(usize, u64)])
    requires is_open { IsOpen stack.old node }
    requires inside { is_outside stores.now (node_words stack.old node) ≡ false }
    ensures { stack.new ≡ with_node_words stack.old node (stored stores.now (node_words stack.old node)) }
{
    for (at, word) in stores {
        stack.store(node, *at, *word);
    }
}
