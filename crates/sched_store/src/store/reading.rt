//! The calls of the core's store that only read: the tests by which steps are decided, and what a core shows. They may
//! be called at any time, except those for a frame that must be there. None takes memory.
ghost use Rattle.std.specs.Prelude.{◌≡◌, ◌↔◌, ◌+◌, ◌≤◌, ◌^◌, ℕ, [], length, not, is_some, IfSome, IfNone, IsSome, IsNone, Some, option_copied, option_map};
ghost use Rattle.frame_table.specs.declared.names.State.TheVariants.{Ready};
ghost use Rattle.frame_table.specs.Frames.{root_of, IsTree};
ghost use Rattle.sched_rules.specs.Trees.{is_held_by, has_child as has_child_in, is_root as is_root_path, job_under as number_under};
ghost use Rattle.sched_rules.specs.Cores.{tenant_in, reservations_in, is_full as is_full_for, is_beyond as is_beyond_for};
ghost use Rattle.sched_rules.specs.Headline.{AreNumbersGiven};
ghost use Rattle.sched_rules.specs.Views.{left_in_core, job_of, named, frame_in_core, words_of_frame, live_of, newest_ready_in, ready_count, free_in};
ghost use Rattle.sched_store.specs.Reads.{frames_in_core, jobs_in, serials_in, path_of, words_under, sight_of, is_busy_among, holds, AreTenantsRising, IsReadyIn};

use crate::job_list::JobList;
use crate::store::Store;
use cactus_stack::{Sight, Words};
use frame_table::{FrameId, State};
use sched_rules::{Job, Worker};
use std::alloc::Allocator;
use tenant_quota::{Left, Reserve};

/// A frame that was looked up: what it is doing, its words, and what it sees.
#[derive(Drop)]
pub struct Sighted<'a> {
    /// The parent's name; a root has none.
    pub parent: Option<FrameId>,
    /// What the frame is doing.
    pub state: State,
    /// Its words.
    pub words: Words<'a>,
    /// Its own words, its parent's, and so on to its root's.
    pub sight: Sight<'a>,
}

impl<A: Allocator> Store<A> {
    /// Whether a tenant of this number is there.
    #[inline(always)]
    pub fn has_tenant(&self, number: u64) -> bool
        ensures there { result ≡ is_some (tenant_in self.now.tenants number) }
        ensures known { AreNumbersGiven self.now }
        ensures rising { AreTenantsRising self.now.tenants }
    {
        self.book.left(number).is_some()
    }

    /// The greatest number of all tenants so far, also of those that left: at most 2^62, and 0 where none came yet.
    pub fn newest(&self) -> u64
        ensures newest { result ≡ self.now.newest }
        ensures within { result ≤ 2 ^ 62 }
        ensures known { AreNumbersGiven self.now }
        ensures rising { AreTenantsRising self.now.tenants }
    {
        self.newest
    }

    /// Whether an admission has no room: 64 tenants are there, or a total doesn't allow this reservation.
    pub fn is_full(&self, reserve: Reserve) -> bool
        ensures { result ≡ is_full_for (reservations_in self.now) reserve }
    {
        let rest = self.book.rest();
        let segments = reserve.segments();
        let nodes = reserve.nodes();
        if rest.tenants == 0 {
            return true;
        }
        if rest.segments < segments {
            return true;
        }
        rest.nodes < nodes
    }

    /// What a tenant has reserved; `None` where it isn't there.
    pub fn reserve_of(&self, tenant: u64) -> Option<Reserve>
        ensures { result ≡ option_map (λ owner. owner.reserve) (tenant_in self.now.tenants tenant) }
    {
        self.book.reserved(tenant)
    }

    /// Whether a total would be passed if `reserve` took the place of `now`, which a tenant has reserved.
    pub fn is_beyond(&self, now: Reserve, reserve: Reserve) -> bool
        ensures { result ≡ is_beyond_for (reservations_in self.now) now reserve }
    {
        let rest = self.book.rest();
        if rest.segments + now.segments() < reserve.segments() {
            return true;
        }
        rest.nodes + now.nodes() < reserve.nodes()
    }

    /// What a tenant has left; `None` where it isn't there.
    #[inline(always)]
    pub fn left(&self, tenant: u64) -> Option<Left>
        ensures left { result ≡ left_in_core self.now tenant }

        // As many segments as the tenant has left are free, however many others use.
        ensures free { IfSome result (λ left. left.segments ≤ free_in self.now) }
    {
        self.book.left(tenant)
    }

    /// The parent and the state of a frame; `None` where it isn't there. A root has no parent.
    #[inline(always)]
    pub fn find(&self, name: FrameId) -> Option<(Option<FrameId>, State)>
        ensures frame { result ≡ frame_in_core self.now name }
        ensures root { IfSome result (λ found. is_some found.0 ≡ not (is_root_path (path_of (named self.now name)))) }
        ensures tree { IsTree (frames_in_core self.now name.tenant) }
    {
        match self.table.find(name) {
            Some(entry) => Some((entry.parent, entry.state)),
            None => None,
        }
    }

    /// A frame with its words and its sight, by one look-up; `None` where it isn't there.
    #[inline(always)]
    pub fn look_up(&self, name: FrameId) -> Option<Sighted<'_>>
        ensures frame { option_map (λ found. (found.parent, found.state)) result ≡ frame_in_core self.now name }
        ensures root { IfSome result (λ found. is_some found.parent ≡ not (is_root_path (path_of (named self.now name)))) }
        ensures words { IfSome result (λ found. found.words ≡ words_under self.now name) }
        ensures sight { IfSome result (λ found. found.sight ≡ sight_of self.now name) }
        ensures tree { IsTree (frames_in_core self.now name.tenant) }
        ensures rising { AreTenantsRising self.now.tenants }
    {
        match self.table.find(name) {
            Some(entry) => Some(Sighted {
                parent: entry.parent,
                state: entry.state,
                words: self.stack.own(entry.value),
                sight: self.stack.sight(entry.value),
            }),
            None => None,
        }
    }

    /// The words of a frame; `None` where it isn't there.
    #[inline(always)]
    pub fn words(&self, name: FrameId) -> Option<Words<'_>>
        ensures { result ≡ words_of_frame self.now name }
    {
        match self.table.find(name) {
            Some(entry) => Some(self.stack.own(entry.value)),
            None => None,
        }
    }

    /// What a frame that is there sees: its own words, its parent's, and so on to its root's.
    #[inline(always)]
    pub fn sight(&self, name: FrameId) -> Sight<'_>
        requires { IsSome (named self.now name) }
        ensures { result ≡ sight_of self.now name }
    {
        match self.table.find(name) {
            Some(entry) => self.stack.sight(entry.value),
            None => unreachable!(),
        }
    }

    /// The root above a frame that is there; the frame itself where it is a root.
    pub fn root(&self, name: FrameId) -> FrameId
        requires { IsSome (named self.now name) }
        ensures { result ≡ record { tenant = name.tenant; serial = root_of (path_of (named self.now name)) } }
    {
        self.table.root(name)
    }

    /// Whether a frame has a child, by its count of children; false also where there is no such frame.
    #[inline(always)]
    pub fn has_child(&self, name: FrameId) -> bool
        ensures { result ≡ has_child_in (frames_in_core self.now name.tenant) name.serial }
    {
        self.table.has_child(name)
    }

    /// Whether a worker runs or computes a frame of some tenant. Only the last frame that it ran or computed is
    /// looked up.
    #[inline(always)]
    pub fn is_busy(&self, worker: Worker) -> bool
        ensures busy { result ≡ is_busy_among worker self.now.tenants }
        ensures rising { AreTenantsRising self.now.tenants }
    {
        let number = worker.number();
        match self.places[number as usize] {
            Some(name) => self.is_held_by(name, worker),
            None => false,
        }
    }

    /// A tenant's job by its number, from 1 on; `None` where there is none.
    #[tactic(auto, using(crate::proofs::Lookups::job_reads))]
    pub fn job(&self, tenant: u64, number: u64) -> Option<&Job>
        ensures { option_copied result ≡ job_of self.now tenant number }
    {
        match self.job_list(tenant) {
            Some(job_list) => job_list.job(number),
            None => None,
        }
    }

    /// How many jobs a tenant has had, at most 256; 0 where it isn't there.
    pub fn job_count(&self, tenant: u64) -> usize
        ensures count { result ≡ length (jobs_in self.now tenant) }
        ensures few { result ≤ 256 }
    {
        match self.job_list(tenant) {
            Some(job_list) => job_list.len(),
            None => 0,
        }
    }

    /// The number of a tenant's job that lives under this root; 0 where there is none.
    pub fn job_under(&self, tenant: u64, root: u64) -> usize
        ensures { result ≡ number_under root (jobs_in self.now tenant) }
    {
        match self.job_list(tenant) {
            Some(job_list) => job_list.under(root),
            None => 0,
        }
    }

    /// How many frames a tenant has, and how many words they have; `None` where it isn't there. It looks at
    /// each frame.
    pub fn live(&self, tenant: u64) -> Option<(usize, usize)>
        ensures { result ≡ live_of self.now tenant }
    {
        if !self.has_tenant(tenant) {
            return None;
        }
        let mut words = 0;
        for name in self.table.frames(tenant) {
            words += self.word_count(name);
        }
        Some((self.table.frame_count(tenant), words))
    }

    /// A tenant's ready frame of the greatest serial, with its home; `None` where none is ready.
    pub fn newest_ready(&self, tenant: u64) -> Option<(FrameId, u8)>
        ensures { result ≡ newest_ready_in self.now tenant }
    {
        self.table.newest_ready(tenant)
    }

    /// A ready frame of some tenant, with its home; `None` exactly where none is ready.
    pub fn any_ready(&self) -> Option<(FrameId, u8)>
        ensures found { IfSome result (λ ready. IsReadyIn self.now ready.0 ready.1) }
        ensures none { IsNone result ↔ (ready_count self.now.tenants ≡ 0) }
    {
        self.table.any_ready()
    }

    /// How many segments are free: all but those that the frames of all tenants take.
    pub fn free_segments(&self) -> usize
        ensures { result ≡ free_in self.now }
    {
        self.stack.free_count()
    }

    /// A tenant's jobs; None where it isn't there.
    fn job_list(&self, tenant: u64) -> Option<&JobList<A>>
        ensures found { IfSome result (λ job_list. jobs_in self.now tenant ≡ job_list.now.1) }
        ensures none { IfNone result (jobs_in self.now tenant ≡ []) }
    {
        self.job_lists.get(tenant)
    }

    /// Whether this frame is there, and this worker runs or computes it.
    #[inline(always)]
    fn is_held_by(&self, name: FrameId, worker: Worker) -> bool
        ensures { result ≡ holds worker (named self.now name) }
    {
        match self.table.find(name) {
            Some(entry) => holds_frame(entry.state, worker),
            None => false,
        }
    }

    /// How many words a frame has; 0 where it isn't there.
    fn word_count(&self, name: FrameId) -> usize
        ensures { result ≡ length (words_under self.now name) }
    {
        match self.words(name) {
            Some(words) => words.len(),
            None => 0,
        }
    }
}

/// Whether a frame in this state is run or computed by this worker.
fn holds_frame(state: State, worker: Worker) -> bool
    ensures { result ≡ is_held_by worker state }
{
    match state {
        State::Running(holder) => holder == worker.number(),
        State::Computing(holder) => holder == worker.number(),
        State::Ready(_) => false,
        State::Waiting => false,
        State::Returned => false,
    }
}
