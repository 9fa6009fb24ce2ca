//! Tenants of the core's store come and go, take steps, and have jobs.
ghost use Rattle.std.specs.Prelude.{◌≡◌, ◌<◌, ◌≤◌, ◌^◌, ℕ, false, length, IsSome, OnOk, OnErr};
ghost use Rattle.sched_rules.specs.Trees.{job_under as number_under};
ghost use Rattle.sched_rules.specs.Lone.{counted};
ghost use Rattle.sched_rules.specs.Cores.{tenant_in, reservations_in, reserved_by, is_beyond, is_full as is_full_for};
ghost use Rattle.sched_rules.specs.Changes.{on_tenant, with_reserve, with_job, ending_job};
ghost use Rattle.sched_store.specs.Changes.{with_admitted, with_departed};
ghost use Rattle.sched_store.specs.JobLists.{is_live};
ghost use Rattle.sched_store.specs.Reads.{jobs_in, TenantHasStepLeft, IsAboveOwn};

use crate::job_list::JobList;
use crate::store::Store;
use sched_rules::Job;
use std::alloc::{AllocError, Allocator};
use tenant_quota::Reserve;

impl<A: Allocator> Store<A> {
    /// Adds a tenant whose number is above all so far, with this reservation and no job. Takes memory for its
    /// frames and for 256 jobs: `AllocError` only where that is refused, and then nothing has changed.
    pub fn admit(&mut self, number: u64, reserve: Reserve) -> Result<(), AllocError>
    where
        A: Clone,
        requires above { self.old.newest < number }
        requires within { number ≤ 2 ^ 62 }
        requires room { is_full_for (reservations_in self.old) reserve ≡ false }
        ensures ok { OnOk result (self.new ≡ with_admitted number reserve self.old) }
        ensures err { OnErr result (self.new ≡ self.old) }
    {
        let job_list = JobList::new(self.alloc.clone()?, number)?;
        self.table.reserve(number, reserve.segments() as usize)?;
        self.job_lists.insert(job_list);
        self.newest = number;
        self.book.reserve(number, reserve).unwrap();
        Ok(())
    }

    /// Raises a tenant's reservation to this: no fewer segments and nodes than before, and more of one or both. Takes
    /// memory for more frames: `AllocError` only where that is refused, and then nothing has changed.
    pub fn raise(&mut self, tenant: u64, reserve: Reserve) -> Result<(), AllocError>
    where
        A: Clone,
        requires above { IsAboveOwn (tenant_in self.old.tenants tenant) reserve }
        requires room { is_beyond (reservations_in self.old) (reserved_by (tenant_in self.old.tenants tenant)) reserve ≡ false }
        ensures ok { OnOk result (self.new ≡ on_tenant tenant (with_reserve reserve) self.old) }
        ensures err { OnErr result (self.new ≡ self.old) }
    {
        self.table.reserve(tenant, reserve.segments() as usize)?;
        self.book.raise(tenant, reserve).unwrap();
        Ok(())
    }

    /// Removes a tenant with its reservation, its jobs and its frames, whose segments are free then.
    pub fn leave(&mut self, tenant: u64)
        requires { IsSome (tenant_in self.old.tenants tenant) }
        ensures { self.new ≡ with_departed tenant self.old }
    {
        let nodes = self.table.remove_all(tenant);
        self.stack.close_all(nodes);
        self.table.release(tenant);
        self.job_lists.remove(tenant);
        self.book.release(tenant);
    }

    /// Counts one more step of a tenant that has one left.
    #[inline(always)]
    pub fn count_step(&mut self, tenant: u64)
        requires { TenantHasStepLeft self.old tenant }
        ensures { self.new ≡ on_tenant tenant counted self.old }
    {
        self.book.tick(tenant).unwrap();
    }

    /// Adds a live job of a tenant, with the root of this serial; no other live job of the tenant has this root, and
    /// the tenant has had fewer than 256 jobs.
    pub fn begin_job(&mut self, tenant: u64, root: u64)
        requires there { IsSome (tenant_in self.old.tenants tenant) }
        requires room { length (jobs_in self.old tenant) < 256 }
        requires fresh { number_under root (jobs_in self.old tenant) ≡ 0 }
        ensures { self.new ≡ on_tenant tenant (with_job (Job.Live root)) self.old }
    {
        let job_list = self.job_lists.get_mut(tenant);
        job_list.begin(root);
    }

    /// Replaces the tenant's live job with this root, if there is one, by `ended`, which says how it ended. The
    /// frames aren't removed.
    pub fn end_job(&mut self, tenant: u64, root: u64, ended: Job)
        requires there { IsSome (tenant_in self.old.tenants tenant) }
        requires ended { is_live ended ≡ false }
        ensures { self.new ≡ on_tenant tenant (ending_job root ended) self.old }
    {
        let job_list = self.job_lists.get_mut(tenant);
        job_list.end(root, ended);
    }
}
