//! What every step of a core keeps, for every procedure: laws.
ghost use Rattle.std.specs.Prelude.{◌≡◌, ℕ, ◌≤◌, List, [], ◌∷◌, ◌++◌, Some, Result, length, true};
ghost use Rattle.tenant_quota.specs.Reserves.{ReserveOf, IsWithinLimits};
ghost use Rattle.tenant_quota.specs.Accounts.{IsWithinReserve};
ghost use Rattle.frame_table.specs.declared.names.State.TheVariants.{Computing, Returned};
ghost use Rattle.frame_table.specs.Frames.{Frame, frame_at, path_in, root_of, children_of};
ghost use Rattle.sched_rules.specs.declared.job.Job.TheVariants.{Live};
ghost use Rattle.sched_rules.specs.declared.refusal.Refusal.{Refusal};
ghost use Rattle.sched_rules.specs.declared.step.StepOf.{StepOf};
ghost use Rattle.sched_rules.specs.declared.step.DidOf.{DidOf};
ghost use Rattle.sched_rules.specs.Trees.{Tenant, account_in, is_root, job_at, job_under};
ghost use Rattle.sched_rules.specs.Runs.{only};
ghost use Rattle.sched_rules.specs.Cores.{CoreState, shared_by_nobody, tenant_in};
ghost use Rattle.sched_rules.specs.Headline.{IsAnswerTo, AreAnswersTo, AreNumbersGiven, after_answer, after_answers, taken_steps};
ghost use Rattle.sched_laws.specs.Shapes.{IsShaped, AreShaped};
ghost use Rattle.sched_laws.specs.Fitted.{TenantFits, CoreFits, RootsFit, StaysFitting, origins_of};

use sched_rules::Procedure;

/// If each tenant has its shape (`IsShaped`), each has it after any step, whatever the answer, and after any
/// list of steps.
#[tactic(auto, using(crate::proofs::Consequences::shaped_answer, crate::proofs::Consequences::shaped_answers))]
pub fn every_tenant_keeps_its_shape<P: Procedure>()
    ensures step { (procedure : P) (before : CoreState) (step : StepOf P.Answer) (answer : Result (DidOf P.Input) Refusal) →
        AreShaped before.tenants → AreShaped (after_answer (P.functions procedure) before step answer).tenants }
    ensures run { (procedure : P) (before : CoreState) (steps : List (StepOf P.Answer)) (answers : List (Result (DidOf P.Input) Refusal)) →
        AreShaped before.tenants → AreShaped (after_answers (P.functions procedure) before steps answers).tenants }
{}

/// What follows from a tenant's shape (`IsShaped`): a frame that has returned, or is computed, has no child;
/// the root of a live job is there; a root frame's job is found by its serial, and lives; above each frame
/// there is its root; and neither the charges nor the number of frames are beyond what is reserved.
#[tactic(auto, using(crate::proofs::Consequences::given_by_shape))]
pub fn what_the_shape_gives()
    ensures returned { (tenant : Tenant) (s : ℕ) (frame : Frame (List ℕ)) → IsShaped tenant → frame_at tenant.frames s ≡ Some frame → frame.state ≡ Returned → children_of tenant.frames s ≡ [] }
    ensures computing { (tenant : Tenant) (s worker : ℕ) (frame : Frame (List ℕ)) → IsShaped tenant → frame_at tenant.frames s ≡ Some frame → frame.state ≡ Computing worker → children_of tenant.frames s ≡ [] }
    ensures root { (tenant : Tenant) (number root : ℕ) → IsShaped tenant → job_at tenant.jobs number ≡ Some (Live root) → path_in tenant.frames root ≡ root ∷ [] }
    ensures job { (tenant : Tenant) (s : ℕ) (frame : Frame (List ℕ)) → IsShaped tenant → frame_at tenant.frames s ≡ Some frame → is_root frame.path ≡ true → job_at tenant.jobs (job_under s tenant.jobs) ≡ Some (Live s) }
    ensures above { (tenant : Tenant) (s : ℕ) (frame : Frame (List ℕ)) → IsShaped tenant → frame_at tenant.frames s ≡ Some frame → path_in tenant.frames (root_of frame.path) ≡ root_of frame.path ∷ [] }
    ensures within { (tenant : Tenant) → IsWithinLimits tenant.reserve → IsShaped tenant → IsWithinReserve (account_in tenant) }
    ensures few { (tenant : Tenant) → IsShaped tenant → length tenant.frames ≤ tenant.reserve.segments }
{}

/// If no tenant has a number above the greatest so far (`AreNumbersGiven`), none has one after any step with a right
/// answer.
pub fn every_number_stays_taken<P: Procedure>()
    ensures { (procedure : P) (before : CoreState) (step : StepOf P.Answer) (answer : Result (DidOf P.Input) Refusal) →
        AreNumbersGiven before → IsAnswerTo (P.functions procedure) before step answer → AreNumbersGiven (after_answer (P.functions procedure) before step answer) }
{}

/// A core fits (`CoreFits`) where every frame fits and each job holds what it was asked. A core that fits still
/// does after each step of a list, with the words of taken Submits added to the origins, as long as the new
/// root of each taken Submit fits and belongs to the words submitted. A core with no tenant fits.
pub fn every_frame_fits<P: Procedure>()
    ensures each_step { (procedure : P) (origins : ℕ → List (List ℕ)) (before : CoreState) (steps : List (StepOf P.Answer)) (answers : List (Result (DidOf P.Input) Refusal)) →
        AreNumbersGiven before → AreShaped before.tenants → CoreFits (P.fits procedure) (P.rooted procedure) origins before → AreAnswersTo (P.functions procedure) before steps answers →
        StaysFitting (P.functions procedure) (P.fits procedure) (P.rooted procedure) (origins, before) steps answers }
    ensures at_end { (procedure : P) (origins : ℕ → List (List ℕ)) (before : CoreState) (steps : List (StepOf P.Answer)) (answers : List (Result (DidOf P.Input) Refusal)) →
        AreNumbersGiven before → AreShaped before.tenants → CoreFits (P.fits procedure) (P.rooted procedure) origins before → AreAnswersTo (P.functions procedure) before steps answers →
        RootsFit (P.fits procedure) (P.rooted procedure) (taken_steps steps answers) →
        CoreFits (P.fits procedure) (P.rooted procedure) (λ number. origins number ++ origins_of (only number (taken_steps steps answers))) (after_answers (P.functions procedure) before steps answers) }
    ensures nobody { (procedure : P) (totals : ReserveOf) → CoreFits (P.fits procedure) (P.rooted procedure) (λ number. []) (shared_by_nobody totals) }
{}

/// After any list of steps on a new core whose taken Submits have roots that fit: every frame of a tenant fits,
/// and its jobs are one to one with its taken Submits, in order. The root of a live job still belongs to the
/// words of its Submit, and a job that is done kept the first words of a root that had returned, had no child,
/// fitted, and belonged to them.
pub fn each_job_holds_what_it_was_asked<P: Procedure>()
    ensures { (procedure : P) (totals : ReserveOf) (steps : List (StepOf P.Answer)) (answers : List (Result (DidOf P.Input) Refusal)) (number : ℕ) (tenant : Tenant) →
        AreAnswersTo (P.functions procedure) (shared_by_nobody totals) steps answers →
        RootsFit (P.fits procedure) (P.rooted procedure) (taken_steps steps answers) →
        tenant_in (after_answers (P.functions procedure) (shared_by_nobody totals) steps answers).tenants number ≡ Some tenant →
        TenantFits (P.fits procedure) (P.rooted procedure) (origins_of (only number (taken_steps steps answers))) tenant }
{}
