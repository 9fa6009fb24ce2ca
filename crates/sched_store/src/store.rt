//! The core's store: tenants with their accounts, frames, words and jobs, and what it keeps true of them.
ghost use Rattle.std.specs.Prelude.{◌≡◌, IfOk, IsTrue};
ghost use Rattle.frame_table.specs.Frames.{frame_at, has_frame, HasValue};
ghost use Rattle.frame_table.specs.Tables.{frames_of};
ghost use Rattle.sched_rules.specs.Cores.{shared_by_nobody};

mod opening;
pub(crate) mod reading;
mod removing;
mod tenants;
mod writing;

use crate::job_list::JobList;
use cactus_stack::{NodeNo, Stack};
use frame_table::{FrameId, FrameTable};
use numbered_list::NumberedList;
use sched_rules::Config;
use std::alloc::{AllocError, Allocator, Global};
use std::marker::Model;
use tenant_quota::Book;

/// How many workers there are, and one place more: workers are numbered from 1.
const PLACES: usize = 33;

/// The tenants of a core, with their frames, jobs and what they have left. `job_lists` has the jobs of each tenant
/// of the book, by rising number; `places` has, by a worker's number, the frame that the worker held last;
/// `newest` is the greatest number of a tenant so far.
pub struct Store<A: Allocator = Global> {
    alloc: A,
    stack: Stack<A>,
    book: Book<A>,
    table: FrameTable<NodeNo, A>,
    job_lists: NumberedList<JobList<A>, A>,
    places: [Option<FrameId>; PLACES],
    newest: u64,
}

// Clauses see the core that the parts stand for.
impl<A: Allocator> Model for Store<A> {
    ghost use Rattle.sched_rules.specs.Cores.{CoreState};

    ghost Value = { CoreState };

    ghost use Rattle.sched_store.specs.Parts.{shared_of};
    ghost use Rattle.sched_store.specs.Stored.{IsStored};
    ghost use Rattle.sched_store.specs.Inside.{parts_of};

    ghost view = { λ s. shared_of (parts_of s) };

    ghost invariant = { λ s. IsStored (parts_of s) };
}

// By hand: were it derived, each crate that holds a store would have to prove again that all its parts are dropped.
impl<A: Allocator> Drop for Store<A> {
    /// Drops all parts of the store.
    fn drop(self) {
        let Store {
            alloc: _alloc,
            stack: _stack,
            book: _book,
            table: _table,
            job_lists: _job_lists,
            places: _,
            newest: _,
        } = self;
    }
}

impl<A: Allocator> Store<A> {
    /// A store of these totals with no tenant. Takes memory: `AllocError` only where memory was
    /// refused.
    pub fn new(alloc: A, config: Config) -> Result<Store<A>, AllocError>
    where
        A: Clone,
        ensures { IfOk result (λ store. store ≡ shared_by_nobody config) }
    {
        let segments = config.segments();
        let stack = Stack::new(alloc.clone()?, segments as usize)?;
        let book = Book::new(alloc.clone()?, segments, config.nodes())?;
        let table = FrameTable::new(alloc.clone()?)?;
        let job_lists = NumberedList::new(alloc.clone()?)?;
        Ok(Store {
            alloc,
            stack,
            book,
            table,
            job_lists,
            places: [None; PLACES],
            newest: 0,
        })
    }
}

/// The node of the stack that holds the words of a frame that is there.
#[inline(always)]
fn node_of<A: Allocator>(table: &FrameTable<NodeNo, A>, name: FrameId) -> NodeNo
    requires { IsTrue (has_frame (frames_of table.now name.tenant) name.serial) }
    ensures { HasValue (frame_at (frames_of table.now name.tenant) name.serial) result }
{
    match table.find(name) {
        Some(entry) => entry.value,
        None => unreachable!(),
    }
}
