//! Frames are removed from the core's store, and give their segments back.
ghost use Rattle.std.specs.Prelude.{◌≡◌, false, length, IsSome};
ghost use Rattle.frame_table.specs.Frames.{frames_under};
ghost use Rattle.sched_rules.specs.Trees.{has_child as has_child_in};
ghost use Rattle.sched_rules.specs.Changes.{on_tenant, without_frame, without_under};
ghost use Rattle.sched_rules.specs.Views.{named};
ghost use Rattle.sched_store.specs.Reads.{frames_in_core};

use crate::store::Store;
use frame_table::FrameId;
use std::alloc::Allocator;

impl<A: Allocator> Store<A> {
    /// Removes a frame that has no child. Its tenant has the frame's segments left again, but not its node.
    pub fn remove(&mut self, name: FrameId)
        requires there { IsSome (named self.old name) }
        requires leaf { has_child_in (frames_in_core self.old name.tenant) name.serial ≡ false }
        ensures { self.new ≡ on_tenant name.tenant (without_frame name.serial) self.old }
    {
        let before = self.stack.free_count();
        let node = self.table.remove(name);
        self.stack.close(node);
        let freed = self.stack.free_count() - before;
        self.book.give_back(name.tenant, freed as u32);
    }

    /// Removes all frames below this one, which itself stays. Their tenant has the frames' segments left again, but
    /// not their nodes. Returns how many frames were removed.
    pub fn abort(&mut self, name: FrameId) -> usize
        requires { IsSome (named self.old name) }
        ensures aborted { self.new ≡ on_tenant name.tenant (without_under name.serial) self.old }
        ensures count { result ≡ length (frames_under name.serial (frames_in_core self.old name.tenant)) }
    {
        let before = self.stack.free_count();
        let nodes = self.table.remove_under(name);
        let count = nodes.len();
        self.stack.close_all(nodes);
        let freed = self.stack.free_count() - before;
        self.book.give_back(name.tenant, freed as u32);
        count
    }
}
