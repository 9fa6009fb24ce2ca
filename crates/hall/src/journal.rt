//! The journal of one tenant of the hall (the list of its taken steps), and where it stands among all.
ghost use Rattle.std.specs.Prelude.{◌≡◌, ◌+◌, ◌++◌, ◌∷◌, ◌<◌, ◌≤◌, ◌^◌, [], true, None, length, IfOk, OnOk, OnErr};
ghost use Rattle.tenant_quota.specs.Reserves.{IsWithinLimits};
ghost use Rattle.sched_rules.specs.Headline.{IsOneStep, AreNumbersGiven};
ghost use Rattle.jamboree_core.specs.jamboree_rules.Procedure.{jamboree};
ghost use Rattle.jamboree_core.specs.Replies.{IsSearch};
ghost use Rattle.sched_rules.specs.Cores.{shared_refusal};
ghost use Rattle.sched_rules.specs.Runs.{tenant_of};
ghost use Rattle.numbered_list.specs.Places.{AreRising};
ghost use Rattle.hall.specs.Entries.{is_long_step, long_steps, serial_in};
ghost use Rattle.hall.specs.Journals.{IsWritable, admitted_journal, is_appended, has_journal, journal_in, longer, longs_for, longs_in, owner_of_journal, places_for, places_in, raise_count, raise_in, with_step};

use crate::entry::{JournalEntry, LongEntry};
use jamboree_core::jamboree::Jamboree;
use jamboree_core::sched_core::Core;
use numbered_list::{Numbered, NumberedList};
use sched_rules::{Did, Refusal, Step, StepOf};
use std::alloc::{AllocError, Allocator, Global};
use std::marker::Model;
use tenant_quota::Reserve;

/// How many places a journal has beside 16 for each node and one for each AdmitMore: one for the Admit, one for
/// the Leave, and 256 each for the Submits, the Spends and the Cancels of its tenant's jobs. At least 257 of them
/// stay free: the Leave isn't written, as the journal goes with it, and a job is spent or cancelled but once.
const BESIDE_NODES: usize = 770;

/// How many long entries a journal has places for beside one for each node, as a frame is given at most one Answer,
/// and one for each AdmitMore: one for the Admit, and 256 each for the Submits and the Cancels of its tenant's jobs.
const LONGS_BESIDE_NODES: usize = 513;

/// The taken steps of one tenant, in order. All places for what it reserves are made beforehand. `longs` has the
/// steps that `entries` only mark as long, in their order; `raises` counts the AdmitMores.
#[derive(Drop)]
pub(crate) struct Journal<A: Allocator = Global> {
    tenant: u64,
    places: usize,
    long_places: usize,
    raises: usize,
    entries: Vec<JournalEntry, A>,
    longs: Vec<LongEntry, A>,
}

// Clauses see the tenant's number, the numbers of places, and the steps.
impl<A: Allocator> Model for Journal<A> {
    ghost use Rattle.std.specs.Prelude.{◌≡◌, ◌≤◌, length, vec_capacity};
    ghost use Rattle.hall.specs.Entries.{steps_in, long_count};
    ghost use Rattle.hall.specs.Journals.{JournalOf, raise_count};

    ghost Value = { JournalOf };

    ghost view = { λ j. record { tenant = j.tenant; places = j.places; longs = j.long_places; steps = steps_in j.tenant j.entries.items j.longs.items } };

    ghost invariant = { λ j. (j.places ≤ vec_capacity j.entries) × (j.long_places ≤ vec_capacity j.longs) × (long_count j.entries.items ≡ length j.longs.items) × (j.raises ≡ raise_count (steps_in j.tenant j.entries.items j.longs.items)) };
}

impl<A: Allocator> Journal<A> {
    /// The journal of a tenant that is admitted with this reservation; its Admit is the first step. Memory for
    /// all places is taken here, and an error means that it was refused.
    pub(crate) fn new(alloc: &A, tenant: u64, reserve: Reserve) -> Result<Journal<A>, AllocError>
    where
        A: Clone,
        ensures journal { IfOk result (λ journal. journal ≡ admitted_journal tenant reserve) }
        ensures limits { IsWithinLimits reserve }
    {
        let places = 16 * reserve.nodes() as usize + BESIDE_NODES;
        let mut entries = Vec::with_capacity(alloc.clone()?, places)?;
        let long_places = reserve.nodes() as usize + LONGS_BESIDE_NODES;
        let mut longs = Vec::with_capacity(alloc.clone()?, long_places)?;
        entries.push_reserved(JournalEntry::Long);
        longs.push_reserved(LongEntry::Admitted(reserve));
        Ok(Journal {
            tenant,
            places,
            long_places,
            raises: 0,
            entries,
            longs,
        })
    }

    /// How many taken steps the journal has.
    #[tactic(auto, using(crate::proofs::Rules::len_rules))]
    pub(crate) fn len(&self) -> usize
        ensures { result ≡ length self.now.steps }
    {
        self.entries.len()
    }

    /// Adds a step of its tenant, other than an AdmitMore, in a place that is reserved: it takes no memory.
    #[inline(always)]
    pub(crate) fn write(&mut self, step: &Step<Jamboree>)
        requires { IsWritable step.now self.old }
        ensures { self.new ≡ record self.old { steps = self.old.steps ++ step.now ∷ [] } }
    {
        let entry = JournalEntry::of(step);
        if entry.is_long() {
            return self.write_long(step);
        }
        self.entries.push_reserved(entry);
    }

    /// Adds a step that is kept in a long entry, and marks its place in `entries`. It takes no memory.
    fn write_long(&mut self, step: &Step<Jamboree>)
        requires writable { IsWritable step.now self.old }
        requires long { is_long_step step.now ≡ true }
        ensures { self.new ≡ record self.old { steps = self.old.steps ++ step.now ∷ [] } }
    {
        self.entries.push_reserved(JournalEntry::Long);
        self.longs.push_reserved(LongEntry::of(step));
    }

    /// Has the core do its tenant's AdmitMore, and writes that step. The memory for the places that the journal
    /// then has is taken first. Where that or the core refuses, neither the journal nor the core has changed.
    pub(crate) fn raise(
        &mut self,
        core: &mut Core<Jamboree, A>,
        reserve: Reserve,
    ) -> Result<Did<Jamboree>, Refusal>
    where
        A: Clone,
        requires few { raise_count self.old.steps ≤ 69632 }
        requires place { length self.old.steps < places_for reserve + (raise_count self.old.steps + 1) }
        requires long { long_steps self.old.steps < longs_for reserve + (raise_count self.old.steps + 1) }
        requires taken { shared_refusal (jamboree core.old.procedure.grain) core.old.shared (StepOf.AdmitMore self.old.tenant reserve) ≡ None }
        ensures one { IsOneStep (jamboree core.old.procedure.grain) core.old.shared (StepOf.AdmitMore self.old.tenant reserve) result core.new.shared }
        ensures written { OnOk result (self.new ≡ longer (StepOf.AdmitMore self.old.tenant reserve) self.old) }
        ensures refused { OnErr result (self.new ≡ self.old) }
        ensures core_refused { OnErr result (core.new.shared ≡ core.old.shared) }
        ensures procedure { core.new.procedure ≡ core.old.procedure }
        ensures known { OnOk result (AreNumbersGiven core.new.shared) }
        ensures limits { IsWithinLimits reserve }
    {
        let raises = self.raises + 1;
        let places = 16 * reserve.nodes() as usize + BESIDE_NODES + raises;
        let entries = self.entries.len();
        if self.entries.reserve_exact(places - entries).is_err() {
            return Err(Refusal::OutOfMemory);
        }
        let long_places = reserve.nodes() as usize + LONGS_BESIDE_NODES + raises;
        let longs = self.longs.len();
        if self.longs.reserve_exact(long_places - longs).is_err() {
            return Err(Refusal::OutOfMemory);
        }
        let did = core.step(&StepOf::AdmitMore(self.tenant, reserve))?;
        self.entries.push_reserved(JournalEntry::Long);
        self.longs.push_reserved(LongEntry::Raised(reserve));
        self.places = places;
        self.long_places = long_places;
        self.raises = raises;
        Ok(did)
    }
}

// A journal is found by its tenant's number.
impl<A: Allocator> Numbered for Journal<A> {
    ghost use Rattle.hall.specs.Journals.{owner_of_journal};

    ghost number_of = { owner_of_journal };

    /// The number by which the hall lists this journal: its tenant's.
    #[inline(always)]
    fn number(&self) -> u64 {
        self.tenant
    }
}

/// Adds a step, other than an AdmitMore, to the journal of its tenant, which has one with a free place.
#[inline(always)]
pub(crate) fn write<A: Allocator>(
    journals: &mut NumberedList<Journal<A>, A>,
    tenant: u64,
    step: &Step<Jamboree>,
)
    requires rising { AreRising owner_of_journal journals.old }
    requires own { tenant_of step.now ≡ tenant }
    requires serial { serial_in step.now < 2 ^ 32 }
    requires there { has_journal tenant journals.old ≡ true }
    requires place { length (journal_in journals.old tenant) < places_in journals.old tenant }
    requires long { is_long_step step.now ≡ true → long_steps (journal_in journals.old tenant) < longs_in journals.old tenant }
    requires is_appended { is_appended step.now ≡ true }
    requires search { IsSearch step.now }
    requires raises_not { raise_in step.now ≡ None }
    ensures { journals.new ≡ with_step tenant step.now journals.old }
{
    let journal = journals.get_mut(tenant);
    journal.write(step);
}

/// Has the core do a tenant's AdmitMore, and writes that step in the tenant's journal, which is there. Where
/// memory or the core refuses, neither the journals nor the core have changed.
pub(crate) fn raise<A: Allocator + Clone>(
    journals: &mut NumberedList<Journal<A>, A>,
    core: &mut Core<Jamboree, A>,
    tenant: u64,
    reserve: Reserve,
) -> Result<Did<Jamboree>, Refusal>
    requires rising { AreRising owner_of_journal journals.old }
    requires there { has_journal tenant journals.old ≡ true }
    requires few { raise_count (journal_in journals.old tenant) ≤ 69632 }
    requires place { length (journal_in journals.old tenant) < places_for reserve + (raise_count (journal_in journals.old tenant) + 1) }
    requires long { long_steps (journal_in journals.old tenant) < longs_for reserve + (raise_count (journal_in journals.old tenant) + 1) }
    requires taken { shared_refusal (jamboree core.old.procedure.grain) core.old.shared (StepOf.AdmitMore tenant reserve) ≡ None }
    ensures one { IsOneStep (jamboree core.old.procedure.grain) core.old.shared (StepOf.AdmitMore tenant reserve) result core.new.shared }
    ensures written { OnOk result (journals.new ≡ with_step tenant (StepOf.AdmitMore tenant reserve) journals.old) }
    ensures refused { OnErr result (journals.new ≡ journals.old) }
    ensures core_refused { OnErr result (core.new.shared ≡ core.old.shared) }
    ensures procedure { core.new.procedure ≡ core.old.procedure }
    ensures known { OnOk result (AreNumbersGiven core.new.shared) }
    ensures limits { IsWithinLimits reserve }
{
    let journal = journals.get_mut(tenant);
    journal.raise(core, reserve)
}
