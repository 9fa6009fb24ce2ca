//! The storage of the scheduling core: one finite map of tenants.
//!
//! A [`Store`] stands for a `CoreState` (`Rattle.sched_rules.specs.Cores`): the totals, the greatest
//! number of a tenant so far, and the tenants by rising number, each with what it reserved, the
//! serials it was given, the steps that it took, its jobs and its frames. The crate above decides
//! steps over this map alone and sees no node, account or slot. Each call that changes the store says
//! its whole effect as one equation: `on_tenant number CHANGE` of the map before, so that no other
//! tenant changes. No call is refused; each `requires` what makes it possible, and those that read
//! offer the tests.
//!
//! What makes it true (`specs/Stored.antt`): the book of reservations, the table of frames and the
//! lists of jobs have the same tenants. Each frame of the table keeps the number of a node of the
//! stack; each open node is the node of exactly one frame, and its parent is the node of the frame's
//! parent. A tenant is charged for its frames, so what it has left is there; it has as many places for
//! frames as segments, and each frame takes a segment at least, so there is a place for a frame
//! wherever a segment is left. A worker that holds a frame has that frame's name at its place: whether
//! a worker is busy is one look at its place.
//!
//! Only [`Store::new`], [`Store::admit`] and [`Store::raise`] take memory.
//!
//! Why it is so:
//!
//! - No handle outlives a change: each changing call looks its frame up by name. A worker's place may hold a
//!   stale name; it is busy only if that frame is still its own.
//!
//! ```text
//! let mut store = Store::new(alloc, config)?;
//! store.admit(1, reserve)?;
//! let root = store.open(1, None, &[7], 4, 0);      // ready at the hall
//! let child = store.open(1, Some(root.serial), &[8], 20, 3);
//! store.store_all(child, &[(19, 5)]);
//! store.abort(root) == 1                           // its two segments are free again
//! ```
#![tactic(auto)]

mod job_list;
mod store;

pub use store::Store;
pub use store::reading::Sighted;
