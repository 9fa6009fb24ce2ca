//! Frames are opened in the core's store.
ghost use Rattle.std.specs.Prelude.{◌≡◌, ◌+◌, ℕ, true, length, IsSome};
ghost use Rattle.cactus_stack.specs.Nodes.{charge as charge_of_words};
ghost use Rattle.frame_table.specs.Frames.{has_parent, name_of};
ghost use Rattle.frame_table.specs.Tables.{frames_of};
ghost use Rattle.sched_rules.specs.Lone.{opened, is_frame_size};
ghost use Rattle.sched_rules.specs.Changes.{on_tenant};
ghost use Rattle.sched_store.specs.Stored.{node_above};
ghost use Rattle.sched_store.specs.Reads.{frames_in_core, serials_in, TenantHasLeft};

use crate::store::{Store, node_of};
use cactus_stack::{NodeNo, charge};
use frame_table::{FrameId, FrameTable};
use std::alloc::Allocator;

impl<A: Allocator> Store<A> {
    /// Opens the tenant's next frame, under a parent or as a root, and returns its name. It has `size` words, 1 to
    /// 128, the given ones first and then zeros, and is ready at this home (0 is the hall). The tenant is charged one
    /// node and the segments of the words; it has as many left.
    pub fn open(
        &mut self,
        tenant: u64,
        parent: Option<u64>,
        words: &[u64],
        size: usize,
        home: u8,
    ) -> FrameId
        requires left { TenantHasLeft self.old tenant (charge_of_words size) 1 }
        requires parent { has_parent (frames_in_core self.old tenant) parent ≡ true }
        requires size { is_frame_size words.now size ≡ true }
        ensures name { result ≡ record { tenant = tenant; serial = serials_in self.old tenant + 1 } }
        ensures opened { self.new ≡ on_tenant tenant (opened parent words.now size home) self.old }
    {
        // So each frame is charged a segment, and there are no more frames than segments that they are charged.
        self.stack.sizes_are_in_limits();
        let above = parent_node(&self.table, tenant, parent);
        let before = self.book.open(tenant, charge(size) as u32).unwrap();
        let serial = before as u64 + 1;
        let name = FrameId { tenant, serial };
        let node = self.stack.open(above, words, size).unwrap();
        self.table
            .add(name, parent_name(tenant, parent), home, node);
        name
    }
}

/// The name of a parent, by its serial; None for a root.
fn parent_name(tenant: u64, parent: Option<u64>) -> Option<FrameId>
    ensures { result ≡ name_of tenant parent }
{
    match parent {
        Some(serial) => Some(FrameId { tenant, serial }),
        None => None,
    }
}

/// The node of a parent, by its serial; None for a root.
fn parent_node<A: Allocator>(
    table: &FrameTable<NodeNo, A>,
    tenant: u64,
    parent: Option<u64>,
) -> Option<NodeNo>
    requires { has_parent (frames_of table.now tenant) parent ≡ true }
    ensures { result ≡ node_above (frames_of table.now tenant) parent }
{
    match parent {
        Some(serial) => Some(node_of(table, FrameId { tenant, serial })),
        None => None,
    }
}
