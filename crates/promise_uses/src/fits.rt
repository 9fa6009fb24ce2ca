//! Uses of the laws on what each run of a core keeps, whatever the procedure, and on what a search's root holds that has returned: of the
//! frames and the fifth job of tenant 9, and of the third job of tenant 7.
ghost use Rattle.std.specs.Prelude.{◌≡◌, ℕ, true, List, [], ◌∷◌, ◌++◌, Some, Result, is_ok};
ghost use Rattle.tenant_quota.specs.Reserves.{ReserveOf};
ghost use Rattle.othello_board.specs.Words.{cells_of};
ghost use Rattle.othello_eval.specs.Minimax.{minimax, best_choice};
ghost use Rattle.sched_rules.specs.declared.job.Job.TheVariants.{Live, Done};
ghost use Rattle.sched_rules.specs.declared.refusal.Refusal.{Refusal};
ghost use Rattle.sched_rules.specs.declared.step.DidOf.{DidOf};
ghost use Rattle.sched_rules.specs.declared.step.StepOf.{StepOf};
ghost use Rattle.sched_rules.specs.Trees.{Tenant, job_at, kept_words, words_in};
ghost use Rattle.sched_rules.specs.Laws.{EveryFrameFits, HasReturned};
ghost use Rattle.sched_rules.specs.Runs.{only};
ghost use Rattle.sched_rules.specs.Cores.{CoreState, shared_by_nobody, tenant_in};
ghost use Rattle.sched_rules.specs.Headline.{AreAnswersTo, AreNumbersGiven, after_answer, after_answers, taken_steps};
ghost use Rattle.sched_laws.specs.Shapes.{AreShaped};
ghost use Rattle.sched_laws.specs.Fitted.{CoreFits, JobsFit, RootFits, RootsFit, origins_after, origins_of};
ghost use Rattle.jamboree_rules.specs.Fits.{AreFitting, IsRoot};
ghost use Rattle.jamboree_rules.specs.Frames.{coded};
ghost use Rattle.jamboree_rules.specs.Places.{frame_of, root_words};
ghost use Rattle.jamboree_core.specs.Searching.{origin_at};

use jamboree_rules::laws::a_returned_root_holds_value_and_choice;
use sched_laws::laws::{each_job_holds_what_it_was_asked, every_frame_fits};
use sched_rules::Procedure;

/// After any list of steps on a new core, whose taken Submits have roots that fit, each frame of tenant 9 fits, and each of its jobs holds
/// what its Submit asked. After the first two steps of a list on a core that fits, with right answers, each frame of tenant 7 fits, where the
/// roots of those that were taken do.
/// Uses `sched_laws::every_frame_fits` (`each_step`, `at_end`, `nobody`).
pub fn frames_of_seven_and_nine<P: Procedure>()
    ensures nine { (procedure : P) (totals : ReserveOf) (steps : List (StepOf P.Answer)) (answers : List (Result (DidOf P.Input) Refusal)) (tenant : Tenant) →
        AreAnswersTo (P.functions procedure) (shared_by_nobody totals) steps answers → RootsFit (P.fits procedure) (P.rooted procedure) (taken_steps steps answers) →
        tenant_in (after_answers (P.functions procedure) (shared_by_nobody totals) steps answers).tenants 9 ≡ Some tenant →
        EveryFrameFits (P.fits procedure) tenant.frames × JobsFit (P.fits procedure) (P.rooted procedure) tenant.frames (origins_of (only 9 (taken_steps steps answers))) tenant.jobs }
    ensures seven { (procedure : P) (origins : ℕ → List (List ℕ)) (before : CoreState) (first second : StepOf P.Answer) (later : List (StepOf P.Answer)) (one two : Result (DidOf P.Input) Refusal)
        (more : List (Result (DidOf P.Input) Refusal)) (tenant : Tenant) →
        AreNumbersGiven before → AreShaped before.tenants → CoreFits (P.fits procedure) (P.rooted procedure) origins before →
        AreAnswersTo (P.functions procedure) before (first ∷ second ∷ later) (one ∷ two ∷ more) →
        (is_ok one ≡ true → RootFits (P.fits procedure) (P.rooted procedure) first) → (is_ok two ≡ true → RootFits (P.fits procedure) (P.rooted procedure) second) →
        tenant_in (after_answer (P.functions procedure) (after_answer (P.functions procedure) before first one) second two).tenants 7 ≡ Some tenant →
        EveryFrameFits (P.fits procedure) tenant.frames }
{
    every_frame_fits::<P>();
}

/// After any such list, tenant 9's fifth job, where it is done, kept the first words of a root that had returned, fitted, and belonged to the
/// words of the tenant's fifth taken Submit; the root of tenant 7's third job, where it lives, belongs to those of its third.
/// Uses `sched_laws::each_job_holds_what_it_was_asked`.
pub fn jobs_of_seven_and_nine<P: Procedure>()
    ensures nine { (procedure : P) (totals : ReserveOf) (steps : List (StepOf P.Answer)) (answers : List (Result (DidOf P.Input) Refusal)) (tenant : Tenant) (words : List ℕ) →
        AreAnswersTo (P.functions procedure) (shared_by_nobody totals) steps answers → RootsFit (P.fits procedure) (P.rooted procedure) (taken_steps steps answers) →
        tenant_in (after_answers (P.functions procedure) (shared_by_nobody totals) steps answers).tenants 9 ≡ Some tenant → job_at tenant.jobs 5 ≡ Some (Done words) →
        (origin : List ℕ) × (origin_at (origins_of (only 9 (taken_steps steps answers))) 5 ≡ Some origin)
        × ((all : List ℕ) × (kept_words all ≡ words) × P.fits procedure all [] HasReturned × P.rooted procedure origin all) }
    ensures seven { (procedure : P) (totals : ReserveOf) (steps : List (StepOf P.Answer)) (answers : List (Result (DidOf P.Input) Refusal)) (tenant : Tenant) (root : ℕ) →
        AreAnswersTo (P.functions procedure) (shared_by_nobody totals) steps answers → RootsFit (P.fits procedure) (P.rooted procedure) (taken_steps steps answers) →
        tenant_in (after_answers (P.functions procedure) (shared_by_nobody totals) steps answers).tenants 7 ≡ Some tenant → job_at tenant.jobs 3 ≡ Some (Live root) →
        (origin : List ℕ) × (origin_at (origins_of (only 7 (taken_steps steps answers))) 3 ≡ Some origin) × P.rooted procedure origin (words_in tenant.frames root) }
{
    each_job_holds_what_it_was_asked::<P>();
}

/// The root of a search of any position to depth 8, once it has returned, holds the minimax value of the position to that depth, and the code
/// of the best choice.
/// Uses `jamboree_rules::a_returned_root_holds_value_and_choice` (`value`, `choice`).
pub fn a_root_to_depth_eight()
    ensures { (own opp : ℕ) (words : List ℕ) → AreFitting words [] HasReturned → IsRoot (root_words own opp 8) words →
        ((frame_of words).best ≡ minimax 8 (cells_of own opp)) × ((frame_of words).choice ≡ coded (best_choice 8 (cells_of own opp))) }
{
    a_returned_root_holds_value_and_choice();
}
