//! The hall: the core that searches, with each tenant's journal, as it lies under a desk's lock.
ghost use Rattle.std.specs.Prelude.{◌≡◌, ◌≢◌, ◌≤◌, ◌+◌, true, false, [], Err, None, IfOk, OnErr, OnOk};
ghost use Rattle.sched_rules.specs.declared.refusal.Refusal.TheVariants.{BadAct, OutOfMemory};
ghost use Rattle.sched_rules.specs.Cores.{newest_after, shared_refusal};
ghost use Rattle.sched_rules.specs.Headline.{IsOneStep, is_admission};
ghost use Rattle.jamboree_core.specs.sched_laws.Fitted.{submits};
ghost use Rattle.jamboree_core.specs.jamboree_rules.Procedure.{jamboree};
ghost use Rattle.jamboree_core.specs.Replies.{IsSearch};
ghost use Rattle.sched_rules.specs.Runs.{tenant_of};
ghost use Rattle.hall.specs.Journals.{is_appended, raise_in};
ghost use Rattle.hall.specs.Halls.{empty_hall, hall_after, count_of, IsExplained, IsDecided, KeepsEndedJobs};

use crate::journal::{Journal, raise, write};
use jamboree_core::jamboree::Jamboree;
use jamboree_core::sched_core::Core;
use numbered_list::NumberedList;
use sched_rules::{Config, Did, Refusal, Step, StepOf};
use std::alloc::{AllocError, Allocator, Global};
use std::marker::Model;
use tenant_quota::Reserve;

/// What a hall answers to a step: what it did, or why it is refused.
pub type StepAnswer = Result<Did<Jamboree>, Refusal>;

/// A core that searches, and the journals of the tenants that are there.
pub struct Hall<A: Allocator = Global> {
    alloc: A,
    pub(crate) core: Core<Jamboree, A>,
    journals: NumberedList<Journal<A>, A>,
    /// The greatest number that a tenant was admitted with, 0 where none was.
    pub(crate) newest: u64,
    /// How many steps were taken.
    pub(crate) count: u128,
    /// How many of them are in no journal, as their tenants have left.
    pub(crate) gone: u128,
    /// The number that `keep` was last given.
    pub(crate) kept: u128,
}

// Clauses see the grain, what the tenants share, the journals, and the numbers `gone` and `kept`.
impl<A: Allocator> Model for Hall<A> {
    ghost use Rattle.hall.specs.Halls.{HallOf, IsHall};

    ghost Value = { HallOf };

    ghost view = { λ h. record { grain = h.core.procedure.grain; shared = h.core.shared; journals = h.journals; gone = h.gone; kept = h.kept } };

    ghost invariant = { λ h. IsHall (record { grain = h.core.procedure.grain; shared = h.core.shared; journals = h.journals; gone = h.gone; kept = h.kept }) h.newest h.count };
}

// Written by hand: if it were derived, each crate that holds a hall would have to prove again that all its parts
// can be dropped.
impl<A: Allocator> Drop for Hall<A> {
    /// Drops the core and the journals.
    fn drop(self) {
        let Hall {
            alloc: _alloc,
            core: _core,
            journals: _journals,
            newest: _,
            count: _,
            gone: _,
            kept: _,
        } = self;
    }
}

impl<A: Allocator> Hall<A> {
    /// A hall with no tenant and these totals, whose searches have this grain (0 to 6). An error means that memory was
    /// refused.
    pub fn new(alloc: A, config: Config, grain: u8) -> Result<Hall<A>, AllocError>
    where
        A: Clone,
        requires { grain ≤ 6 }
        ensures { IfOk result (λ hall. hall ≡ empty_hall grain config) }
    {
        let core = Core::new(alloc.clone()?, config, Jamboree { grain })?;
        let journals = NumberedList::new(alloc.clone()?)?;
        Ok(Hall {
            alloc,
            core,
            journals,
            newest: 0,
            count: 0,
            gone: 0,
            kept: 0,
        })
    }

    /// Takes the step and adds it to its tenant's journal, or refuses it, and then nothing changes. A Leave
    /// removes the tenant and its journal. Only an Admit or an AdmitMore takes memory, and only a Submit can be
    /// refused with BadAct.
    ///
    /// A Submit has to ask for a search, with the root words of a position.
    pub fn offer(&mut self, step: &Step<Jamboree>) -> StepAnswer
    where
        A: Clone,
        requires { IsSearch step.now }
        ensures one { IsOneStep (jamboree self.old.grain) self.old.shared step.now result self.new.shared }
        ensures taken { OnOk result (self.new ≡ hall_after self.old step.now self.new.shared) }
        ensures refused { OnErr result (self.new ≡ self.old) }
        ensures memory { is_admission step.now ≡ false → result ≢ Err OutOfMemory }
        ensures bad_act { submits step.now ≡ [] → result ≢ Err BadAct }
        ensures count { OnOk result (count_of self.new ≡ count_of self.old + 1) }
        ensures newest { OnOk result (self.new.shared.newest ≡ newest_after self.old.shared.newest step.now) }
        ensures explained { IsExplained self.new }
        ensures ended { KeepsEndedJobs self.old.shared step.now self.new.shared }
    {
        let answer = self.decide(step);
        // This read makes the invariant of the hall known to the prover.
        let _ = &self.core;
        answer
    }

    /// Stores a number for the caller, which [`Hall::kept`] gives back; the hall itself doesn't use it. The desk
    /// stores how many steps were taken before it was made or by seats that have left since.
    pub fn keep(&mut self, kept: u128)
        ensures { self.new ≡ record self.old { kept = kept } }
    {
        self.kept = kept;
    }
}

impl<A: Allocator + Clone> Hall<A> {
    /// Takes the step or refuses it, by its kind.
    fn decide(&mut self, step: &Step<Jamboree>) -> StepAnswer
        requires { IsSearch step.now }
        ensures decided { IsDecided self.old step.now result self.new }
        ensures memory { is_admission step.now ≡ false → result ≢ Err OutOfMemory }
        ensures explained { IsExplained self.old }
    {
        // This read makes the invariant of the hall known to the prover.
        let _ = &self.core;
        match step {
            StepOf::Admit(_, _) | StepOf::AdmitMore(_, _) => self.admit(step),
            StepOf::Leave(number) => self.leave(*number),
            _ => self.go_on(step.tenant(), step),
        }
    }

    /// Takes an Admit or an AdmitMore, or says why not. The core is asked before anything grows.
    fn admit(&mut self, step: &Step<Jamboree>) -> StepAnswer
        requires { is_admission step.now ≡ true }
        ensures { IsDecided self.old step.now result self.new }
    {
        if let Some(why) = self.core.refusal(step) {
            return Err(why);
        }
        match step {
            StepOf::Admit(number, reserve) => self.let_in(*number, *reserve),
            StepOf::AdmitMore(number, reserve) => self.raise(*number, *reserve),
            _ => unreachable!(),
        }
    }

    /// Admits a tenant that the core doesn't refuse. The journal's memory is taken first, and then the core's;
    /// where either is refused, nothing has changed.
    fn let_in(&mut self, number: u64, reserve: Reserve) -> StepAnswer
        requires { shared_refusal (jamboree self.old.grain) self.old.shared (StepOf.Admit number reserve) ≡ None }
        ensures { IsDecided self.old (StepOf.Admit number reserve) result self.new }
    {
        match Journal::new(&self.alloc, number, reserve) {
            Ok(journal) => match self.core.step(&StepOf::Admit(number, reserve)) {
                Ok(did) => {
                    self.journals.insert(journal);
                    self.newest = number;
                    self.count += 1;
                    Ok(did)
                }
                Err(refusal) => Err(refusal),
            },
            Err(_) => Err(Refusal::OutOfMemory),
        }
    }

    /// Does an AdmitMore that the core doesn't refuse. The journal's memory is taken first, and then the core's;
    /// where either is refused, nothing has changed.
    fn raise(&mut self, number: u64, reserve: Reserve) -> StepAnswer
        requires { shared_refusal (jamboree self.old.grain) self.old.shared (StepOf.AdmitMore number reserve) ≡ None }
        ensures { IsDecided self.old (StepOf.AdmitMore number reserve) result self.new }
    {
        let answer = raise(&mut self.journals, &mut self.core, number, reserve);
        if answer.is_ok() {
            self.count += 1;
        }
        answer
    }

    /// Offers the core a step other than an Admit, an AdmitMore or a Leave. Where it is taken, it is written in
    /// its tenant's journal.
    #[inline(always)]
    fn go_on(&mut self, number: u64, step: &Step<Jamboree>) -> StepAnswer
        requires search { IsSearch step.now }
        requires is_appended { is_appended step.now ≡ true }
        requires raises_not { raise_in step.now ≡ None }
        requires own { tenant_of step.now ≡ number }
        ensures decided { IsDecided self.old step.now result self.new }
        ensures memory { result ≢ Err OutOfMemory }
    {
        let answer = self.core.step(step);
        if answer.is_ok() {
            write(&mut self.journals, number, step);
            self.count += 1;
        }
        answer
    }

    /// Offers the core a tenant's Leave. Where it is taken, the tenant's journal is removed.
    fn leave(&mut self, number: u64) -> StepAnswer
        ensures decided { IsDecided self.old (StepOf.Leave number) result self.new }
        ensures memory { result ≢ Err OutOfMemory }
    {
        match self.core.step(&StepOf::Leave(number)) {
            Ok(did) => {
                let journal = self.journals.remove(number);
                self.gone += journal.len() as u128 + 1;
                self.count += 1;
                Ok(did)
            }
            Err(refusal) => Err(refusal),
        }
    }
}
