//! The core: all tenants' frames, words, reservations and jobs, and one step after another on them.
ghost use Rattle.std.specs.Prelude.{◌≡◌, ◌≢◌, ◌↔◌, ◌+◌, ◌++◌, ℕ, List, Result, Err, IfOk, IfSome, IsNone, OnErr, OnOk, is_ok, option_copied, true, false};
ghost use Rattle.sched_rules.specs.declared.refusal.Refusal.{Refusal as RefusalOf};
ghost use Rattle.sched_rules.specs.declared.refusal.Refusal.TheVariants.{OutOfMemory};
ghost use Rattle.sched_rules.specs.declared.step.DidOf.{DidOf};
ghost use Rattle.sched_rules.specs.Cores.{shared_by_nobody, shared_refusal, tenant_in, charged_in};
ghost use Rattle.sched_rules.specs.Headline.{IsOneStep, IsHeadline, AreNumbersGiven, is_admission, taken_steps};
ghost use Rattle.sched_rules.specs.Runs.{only};
ghost use Rattle.sched_laws.specs.Fitted.{CoreFits, RootFits, RootsFit, origins_of, origins_after};
ghost use Rattle.sched_rules.specs.Views.{left_in_core, job_of, frame_in_core, words_of_frame, live_of, newest_ready_in, ready_count, free_in};
ghost use Rattle.sched_store.specs.Reads.{IsReadyIn};
ghost use Rattle.sched_core.specs.Keeping.{IsKeptCore, IsRestOf, IsNewestReadyOf};

use crate::asking::stays_fitting;
use crate::engine::Engine;
use cactus_stack::Words;
use frame_table::{FrameId, State};
use sched_rules::{Config, Did, Job, Procedure, Refusal, Step};
use sched_store::Store;
use std::alloc::{AllocError, Allocator, Global};
use std::marker::Model;
use tenant_quota::Left;

/// A scheduling core: a procedure, and the tenants that are there.
#[derive(Drop)]
pub struct Core<P: Procedure, A: Allocator = Global> {
    pub(crate) engine: Engine<P, A>,
    // Whether all frames are known to fit (the procedure's invariant holds of them): so far the procedure said that
    // the root of each Submit fits, also of those that were refused.
    fitting: bool,
}

// Clauses see the procedure, and what the tenants share.
impl<P: Procedure, A: Allocator> Model for Core<P, A> {
    ghost use Rattle.sched_rules.specs.Cores.{CoreOf};
    ghost use Rattle.sched_core.specs.Keeping.{IsKeptFitting};

    ghost Value = { CoreOf P };

    ghost view = { λ c. record { procedure = c.engine.procedure; shared = c.engine.store } };

    ghost invariant = { λ c. IsKeptFitting (P.fits c.engine.procedure) (P.rooted c.engine.procedure) c.fitting c.engine.store };
}

impl<P: Procedure, A: Allocator> Core<P, A> {
    /// A core of these totals that runs the procedure, with no tenant. Takes memory for its nodes and tenants:
    /// `AllocError` only where memory was refused.
    pub fn new(alloc: A, config: Config, procedure: P) -> Result<Core<P, A>, AllocError>
    where
        P: Drop,
        A: Clone,
        ensures empty { IfOk result (λ core. core.shared ≡ shared_by_nobody config) }
        ensures procedure { IfOk result (λ core. core.procedure ≡ procedure) }
    {
        let store = Store::new(alloc, config)?;
        Ok(Core {
            engine: Engine { procedure, store },
            fitting: true,
        })
    }

    /// Does one step: what it did, or why it is refused, and then nothing changes. Only an admission, of a
    /// tenant or of more for it, takes memory.
    pub fn step(&mut self, step: &Step<P>) -> Result<Did<P>, Refusal>
    where
        A: Clone,
        ensures one { IsOneStep (P.functions self.old.procedure) self.old.shared step.now result self.new.shared }
        ensures refused { OnErr result (self.new.shared ≡ self.old.shared) }
        ensures procedure { self.new.procedure ≡ self.old.procedure }
        ensures memory { is_admission step.now ≡ false → result ≢ Err OutOfMemory }
        ensures known_before { AreNumbersGiven self.old.shared }
        ensures known { AreNumbersGiven self.new.shared }
        ensures kept_before { IsKeptCore self.old.shared }
        ensures kept { IsKeptCore self.new.shared }

        // If all frames fit before the step, and so does the new root of a taken Submit, then all fit after it. The
        // same holds of jobs: each live root, and what each done job keeps, belongs to the words that the job was
        // submitted with (`Procedure::rooted`).
        ensures fitting { (origins : ℕ → List (List ℕ)) → CoreFits (P.fits self.old.procedure) (P.rooted self.old.procedure) origins self.old.shared
            → (is_ok result ≡ true → RootFits (P.fits self.old.procedure) (P.rooted self.old.procedure) step.now)
            → CoreFits (P.fits self.old.procedure) (P.rooted self.old.procedure) (origins_after origins step.now result) self.new.shared }
    {
        let fitting = self.fitting;
        self.fitting = stays_fitting(&self.engine.procedure, fitting, step);
        self.engine.step(step, fitting)
    }

    /// Why a step would be refused now; None where it would be taken, unless it is an admission that gets no
    /// memory. Nothing changes.
    pub fn refusal(&self, step: &Step<P>) -> Option<Refusal>
        ensures { result ≡ shared_refusal (P.functions self.now.procedure) self.now.shared step.now }
    {
        self.engine.refusal(step)
    }

    /// Does a list of steps, one after the other, and appends the answer to each to `answers`. That grows
    /// first: `AllocError` where memory for them is refused, and then no step was tried.
    pub fn run(
        &mut self,
        steps: &[Step<P>],
        answers: &mut Vec<Result<Did<P>, Refusal>, A>,
    ) -> Result<(), AllocError>
    where
        A: Clone,
        ensures headline { OnOk result ((answered : List (Result (DidOf P.Input) RefusalOf)) × (answers.new.items ≡ answers.old.items ++ answered)
            × IsHeadline (P.functions self.old.procedure) self.old.shared steps.now answered self.new.shared) }
        ensures fitting { OnOk result ((answered : List (Result (DidOf P.Input) RefusalOf)) → answers.new.items ≡ answers.old.items ++ answered
            → (origins : ℕ → List (List ℕ)) → CoreFits (P.fits self.old.procedure) (P.rooted self.old.procedure) origins self.old.shared
            → RootsFit (P.fits self.old.procedure) (P.rooted self.old.procedure) (taken_steps steps.now answered)
            → CoreFits (P.fits self.old.procedure) (P.rooted self.old.procedure) (λ number. origins number ++ origins_of (only number (taken_steps steps.now answered))) self.new.shared) }
        ensures untried { OnErr result ((self.new.shared ≡ self.old.shared) × (answers.new.items ≡ answers.old.items)) }
        ensures procedure { self.new.procedure ≡ self.old.procedure }
    {
        // This read makes the invariant of the core known to the prover.
        let _ = &self.engine;
        answers.reserve(steps.len())?;
        for step in steps {
            let answer = self.step(step);
            answers.push_reserved(answer);
        }
        Ok(())
    }

    /// What a tenant has left, which with what it used is what it reserved; `None` where it isn't there.
    #[tactic(auto, using(crate::proofs::Showing::shown))]
    pub fn left(&self, tenant: u64) -> Option<Left>
        ensures is { result ≡ left_in_core self.now.shared tenant }
        ensures whole { IfSome result (λ left. IsRestOf (tenant_in self.now.shared.tenants tenant) left) }
    {
        self.engine.store.left(tenant)
    }

    /// A tenant's job by its number, from 1 on; `None` where there is none.
    pub fn job(&self, tenant: u64, number: u64) -> Option<&Job>
        ensures { option_copied result ≡ job_of self.now.shared tenant number }
    {
        self.engine.store.job(tenant, number)
    }

    /// The parent and the state of a frame; `None` where it isn't there. A root has no parent.
    pub fn frame(&self, name: FrameId) -> Option<(Option<FrameId>, State)>
        ensures { result ≡ frame_in_core self.now.shared name }
    {
        self.engine.store.find(name)
    }

    /// The words of a frame; `None` where it isn't there.
    pub fn words(&self, name: FrameId) -> Option<Words<'_>>
        ensures { result ≡ words_of_frame self.now.shared name }
    {
        self.engine.store.words(name)
    }

    /// How many frames a tenant has, and how many words they have; `None` where it isn't there. It looks at
    /// each frame.
    pub fn live(&self, tenant: u64) -> Option<(usize, usize)>
        ensures { result ≡ live_of self.now.shared tenant }
    {
        self.engine.store.live(tenant)
    }

    /// A tenant's ready frame of the greatest serial, with its home; `None` where none is ready.
    pub fn newest_ready(&self, tenant: u64) -> Option<(FrameId, u8)>
        ensures is { result ≡ newest_ready_in self.now.shared tenant }
        ensures newest { IfSome result (λ ready. IsNewestReadyOf (tenant_in self.now.shared.tenants tenant) tenant ready.0 ready.1) }
    {
        self.engine.store.newest_ready(tenant)
    }

    /// A ready frame of some tenant, with its home; `None` exactly where none is ready.
    pub fn any_ready(&self) -> Option<(FrameId, u8)>
        ensures found { IfSome result (λ ready. IsReadyIn self.now.shared ready.0 ready.1) }
        ensures none { IsNone result ↔ (ready_count self.now.shared.tenants ≡ 0) }
    {
        self.engine.store.any_ready()
    }

    /// How many segments are free: the total less those that all frames are charged for.
    #[tactic(auto, using(crate::proofs::Showing::shown))]
    pub fn free_segments(&self) -> usize
        ensures is { result ≡ free_in self.now.shared }
        ensures whole { result + charged_in self.now.shared.tenants ≡ self.now.shared.totals.segments }
    {
        self.engine.store.free_segments()
    }
}
