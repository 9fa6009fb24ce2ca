//! The jobs of one tenant in the core's store.
ghost use Rattle.std.specs.Prelude.{◌≡◌, ◌+◌, ◌<◌, ◌≤◌, ℕ, List, [], ◌∷◌, ◌++◌, false, length, IfOk, option_copied};
ghost use Rattle.sched_rules.specs.Trees.{is_live_at, job_at, job_under, with_ended};
ghost use Rattle.sched_store.specs.JobLists.{is_live};

use numbered_list::Numbered;
use sched_rules::Job;
use std::alloc::{AllocError, Allocator, Global};
use std::marker::Model;

/// How many jobs a tenant can have.
pub(crate) const JOBS: usize = 256;

/// A tenant's number and its jobs, job 1 first. Memory for all 256 was taken when it was made.
#[derive(Drop)]
pub(crate) struct JobList<A: Allocator = Global> {
    number: u64,
    jobs: Vec<Job, A>,
}

// Clauses see the tenant's number and the list of its jobs.
impl<A: Allocator> Model for JobList<A> {
    ghost use Rattle.std.specs.Prelude.{ℕ, ◌≤◌, List, length};
    ghost use Rattle.std.specs.Vec.{vec_capacity};
    ghost use Rattle.sched_rules.specs.declared.job.Job.{Job as JobOf};
    ghost use Rattle.sched_store.specs.JobLists.{AreLiveOnce};

    ghost Value = { ℕ × List JobOf };

    ghost view = { λ l. (l.number, l.jobs.items) };

    ghost invariant = { λ l. (256 ≤ vec_capacity l.jobs) × (length l.jobs.items ≤ 256) × AreLiveOnce l.jobs.items };
}

impl<A: Allocator> Numbered for JobList<A> {
    ghost use Rattle.sched_store.specs.JobLists.{owner_of_jobs};

    ghost number_of = { owner_of_jobs };

    /// The number by which the store lists these jobs: their tenant's.
    #[inline(always)]
    fn number(&self) -> u64 {
        self.number
    }
}

impl<A: Allocator> JobList<A> {
    /// The list of jobs of a tenant that has no job yet. Takes memory for 256 jobs: `AllocError` only where it is
    /// refused.
    pub(crate) fn new(alloc: A, number: u64) -> Result<JobList<A>, AllocError>
        ensures { IfOk result (λ job_list. job_list ≡ (number, [])) }
    {
        let jobs = Vec::with_capacity(alloc, JOBS)?;
        Ok(JobList { number, jobs })
    }

    /// How many jobs the tenant has had.
    pub(crate) fn len(&self) -> usize
        ensures count { result ≡ length self.now.1 }
        ensures few { result ≤ 256 }
    {
        self.jobs.len()
    }

    /// The job of this number, the first being 1; None where there is none.
    #[tactic(auto, using(crate::proofs::Jobs::job_laws))]
    pub(crate) fn job(&self, number: u64) -> Option<&Job>
        ensures { option_copied result ≡ job_at self.now.1 number }
    {
        if number == 0 {
            return None;
        }
        let at = number as usize - 1;
        if at < self.jobs.len() {
            Some(&self.jobs[at])
        } else {
            None
        }
    }

    /// The number of the job that lives under this root; 0 where there is none. It looks from the
    /// newest on, as most jobs that live are new.
    #[tactic(auto, using(crate::proofs::Jobs::under_laws))]
    pub(crate) fn under(&self, root: u64) -> usize
        ensures number { result ≡ job_under root self.now.1 }
        ensures within { result ≤ length self.now.1 }
    {
        for at in (0..self.jobs.len()).rev() {
            if lives_under(&self.jobs[at], root) {
                return at + 1;
            }
        }
        0
    }

    /// Adds a job, which lives under this root, as no other does.
    #[tactic(auto, using(crate::proofs::Jobs::begun_laws))]
    pub(crate) fn begin(&mut self, root: u64)
        requires room { length self.old.1 < JOBS }
        requires fresh { job_under root self.old.1 ≡ 0 }
        ensures { self.new ≡ (self.old.0, self.old.1 ++ Job.Live root ∷ []) }
    {
        self.jobs.push_reserved(Job::Live(root));
    }

    /// Ends the job that lives under this root, if there is one: `ended` takes its place.
    pub(crate) fn end(&mut self, root: u64, ended: Job)
        requires { is_live ended ≡ false }
        ensures { self.new ≡ (self.old.0, with_ended root ended self.old.1) }
    {
        let number = self.under(root);
        if number > 0 {
            self.jobs[number - 1] = ended;
        }
    }
}

/// Whether a job lives under this root.
fn lives_under(job: &Job, root: u64) -> bool
    ensures { result ≡ is_live_at root job.now }
{
    match job {
        Job::Live(serial) => *serial == root,
        Job::Done(_) => false,
        Job::Spent => false,
        Job::Cancelled => false,
    }
}
