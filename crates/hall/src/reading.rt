//! What a hall tells of a tenant and of its jobs.
ghost use Rattle.std.specs.Prelude.{◌≡◌, ◌+◌};
ghost use Rattle.sched_rules.specs.Views.{job_of};
ghost use Rattle.jamboree_core.specs.sched_laws.Fitted.{origins_of};
ghost use Rattle.jamboree_core.specs.Searching.{origin_at};
ghost use Rattle.jamboree_core.specs.Outcomes.{IsOutcomeIn, AnswersTo};
ghost use Rattle.hall.specs.Journals.{journal_in};
ghost use Rattle.hall.specs.Halls.{count_of, IsExplained};

use crate::hall::Hall;
use jamboree_core::jamboree::Jamboree;
use jamboree_core::sched_core::Core;
use jamboree_core::{Outcome, outcome_of};
use std::alloc::Allocator;

impl<A: Allocator> Hall<A> {
    /// What became of a tenant's job, by its number from 1 on; None where there is no such tenant or job. A job
    /// that is done has a reply, to the board and the depth that its Submit asked for.
    pub fn outcome(&self, tenant: u64, job: u64) -> Option<Outcome>
        ensures is { IsOutcomeIn (job_of self.now.shared tenant job) result }
        ensures asked { AnswersTo (origin_at (origins_of (journal_in self.now.journals tenant)) job) result }
    {
        outcome_of(&self.core, tenant, job)
    }

    /// The hall's core, for reading.
    pub fn core(&self) -> &Core<Jamboree, A>
        ensures shared { result.now.shared ≡ self.now.shared }
        ensures grain { result.now.procedure.grain ≡ self.now.grain }
    {
        &self.core
    }

    /// How many steps were taken since the hall was made.
    pub fn count(&self) -> u128
        ensures value { result ≡ count_of self.now }
        ensures explained { IsExplained self.now }
    {
        self.count
    }

    /// How many of the taken steps are in no journal: those of tenants that left, with their Leaves.
    pub fn gone(&self) -> u128
        ensures { result ≡ self.now.gone }
    {
        self.gone
    }

    /// The number that [`Hall::keep`] was last given; 0 where it wasn't called yet.
    pub fn kept(&self) -> u128
        ensures { result ≡ self.now.kept }
    {
        self.kept
    }

    /// One more than the greatest number that a tenant was admitted with; 1 where none was.
    pub fn next_tenant(&self) -> u64
        ensures value { result ≡ self.now.shared.newest + 1 }
        ensures explained { IsExplained self.now }
    {
        self.newest + 1
    }
}
