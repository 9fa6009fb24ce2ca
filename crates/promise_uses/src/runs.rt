//! Uses of the promises on lists of steps: what comes of them for tenants 7 and 9, their jobs 3 and 5 and worker 5.
ghost use Rattle.std.specs.Prelude.{◌≡◌, ◌≢◌, ◌⊎◌, ◌++◌, ◌+◌, ◌∷◌, ℕ, List, true, Some, None, Result, Err, IfOk, All, length, map, slice_index};
ghost use Rattle.othello_board.specs.Words.{cells_of};
ghost use Rattle.othello_eval.specs.Minimax.{minimax, best_choice};
ghost use Rattle.othello_eval.specs.Tables.{entered, IsTable, IsTrueBound, IsExactIfBest};
ghost use Rattle.frame_table.specs.declared.names.FrameId.{FrameId};
ghost use Rattle.sched_rules.specs.declared.job.Job.TheVariants.{Done};
ghost use Rattle.sched_rules.specs.declared.refusal.Refusal.{Refusal};
ghost use Rattle.sched_rules.specs.declared.refusal.Refusal.TheVariants.{Busy};
ghost use Rattle.sched_rules.specs.declared.step.DidOf.{DidOf};
ghost use Rattle.sched_rules.specs.declared.step.StepOf.TheVariants.{Steal, Spend};
ghost use Rattle.sched_rules.specs.Trees.{Tenant, job_at, is_busy_in};
ghost use Rattle.sched_rules.specs.Cores.{shared_by_nobody, tenant_in};
ghost use Rattle.sched_rules.specs.Lone.{lone_refusal};
ghost use Rattle.sched_rules.specs.Runs.{alone, answers_from};
ghost use Rattle.sched_rules.specs.Headline.{after_answer, after_answers, IsAnswerTo, own_answers};
ghost use Rattle.jamboree_rules.specs.declared.leaf.Leaf.{Leaf};
ghost use Rattle.jamboree_rules.specs.Entries.{bounds_of};
ghost use Rattle.jamboree_rules.specs.Frames.{coded};
ghost use Rattle.jamboree_rules.specs.Places.{frame_of, score_of};
ghost use Rattle.jamboree_rules.specs.Procedure.{jamboree};
ghost use Rattle.jamboree_core.specs.NewRuns.{submitted_by};
ghost use Rattle.jamboree_core.specs.Replies.{AreAllSound, AreReplies, AreSearches};
ghost use Rattle.jamboree_core.specs.Searching.{origin_at};
ghost use Rattle.promises.specs.Replies.{SearchStep};
ghost use Rattle.promises.specs.Tenants.{own_steps, AreAdmissionsTaken};

use jamboree_core::jamboree::Jamboree;
use jamboree_core::laws::{every_completed_reply_is_the_minimax_value, every_frame_is_sound};
use promises::{After, run, run_any, run_two};
use sched_rules::{Config, Step};
use std::alloc::{AllocError, Allocator};

/// After any list: tenant 7's job 3, where it is done, has in its words the board (two words) and the depth that the
/// tenant's third Submit carried, their minimax value, their best choice and their table.
/// Uses `promises::run` (`headline`).
pub fn words_of_seven<A: Allocator + Clone>(
    alloc: A,
    procedure: Jamboree,
    config: Config,
    steps: &[Step<Jamboree>],
) -> Result<After<Jamboree, A>, AllocError>
    requires { AreSearches steps.now }
    ensures { IfOk result (λ run. (tenant : Tenant) (words : List ℕ) →
        tenant_in run.core.shared.tenants 7 ≡ Some tenant → job_at tenant.jobs 3 ≡ Some (Done words) →
        (origin : List ℕ) × (origin_at (submitted_by steps.now run.answers.items 7) 3 ≡ Some origin)
        × (slice_index words 0 ≡ slice_index origin 0) × (slice_index words 1 ≡ slice_index origin 1) × (slice_index words 2 ≡ slice_index origin 2)
        × (score_of (slice_index words 8) ≡ minimax (slice_index origin 2) (cells_of (slice_index origin 0) (slice_index origin 1)))
        × (slice_index words 9 ≡ coded (best_choice (slice_index origin 2) (cells_of (slice_index origin 0) (slice_index origin 1))))
        × IsTable (slice_index origin 2) (cells_of (slice_index origin 0) (slice_index origin 1)) (bounds_of (frame_of words))) }
{
    run(alloc, procedure, config, steps)
}

/// After any list: tenant 9's job 5, where it is done, has in its words a table of the board and the depth that the
/// tenant's fifth Submit carried: an entry for each choice, in order, each true of it, and the best choice's exact.
/// Uses `promises::run` (`headline`).
pub fn table_of_nine<A: Allocator + Clone>(
    alloc: A,
    procedure: Jamboree,
    config: Config,
    steps: &[Step<Jamboree>],
) -> Result<After<Jamboree, A>, AllocError>
    requires { AreSearches steps.now }
    ensures { IfOk result (λ run. (tenant : Tenant) (words : List ℕ) →
        tenant_in run.core.shared.tenants 9 ≡ Some tenant → job_at tenant.jobs 5 ≡ Some (Done words) →
        (origin : List ℕ) × (origin_at (submitted_by steps.now run.answers.items 9) 5 ≡ Some origin)
        × (map (λ b. b.choice) (bounds_of (frame_of words)) ≡ entered (slice_index origin 2) (cells_of (slice_index origin 0) (slice_index origin 1)))
        × All (IsTrueBound (slice_index origin 2) (cells_of (slice_index origin 0) (slice_index origin 1))) (bounds_of (frame_of words))
        × All (IsExactIfBest (best_choice (slice_index origin 2) (cells_of (slice_index origin 0) (slice_index origin 1)))) (bounds_of (frame_of words))) }
{
    run(alloc, procedure, config, steps)
}

/// After any list of searches tenant 9 is what its own taken steps make of it alone, and was told what they give; the core is the one that all
/// answers lead to; and each of the tenant's frames is sound.
/// Uses `promises::run` (`headline`).
pub fn nine_among_searches<A: Allocator + Clone>(
    alloc: A,
    procedure: Jamboree,
    config: Config,
    steps: &[Step<Jamboree>],
) -> Result<After<Jamboree, A>, AllocError>
    requires { AreSearches steps.now }
    ensures state { IfOk result (λ run. tenant_in run.core.shared.tenants 9 ≡ alone (jamboree procedure.grain) (own_steps 9 steps.now run.answers.items)) }
    ensures told { IfOk result (λ run. own_answers 9 steps.now run.answers.items ≡ answers_from (jamboree procedure.grain) None (own_steps 9 steps.now run.answers.items)) }
    ensures left { IfOk result (λ run. run.core.shared ≡ after_answers (jamboree procedure.grain) (shared_by_nobody config) steps.now run.answers.items) }
    ensures frames { IfOk result (λ run. (tenant : Tenant) → tenant_in run.core.shared.tenants 9 ≡ Some tenant → AreAllSound tenant.frames tenant.frames) }
{
    run(alloc, procedure, config, steps)
}

/// A list of eight steps of searches has eight answers, and one of some length has as many.
/// Uses `promises::run` (`answered`).
pub fn eight_answers<A: Allocator + Clone>(
    alloc: A,
    procedure: Jamboree,
    config: Config,
    steps: &[Step<Jamboree>],
) -> Result<After<Jamboree, A>, AllocError>
    requires { AreSearches steps.now }
    ensures { IfOk result (λ run. (count : ℕ) → length steps.now ≡ count + 8 → length run.answers.items ≡ count + 8) }
{
    run(alloc, procedure, config, steps)
}

/// In a list of searches worker 5's Steal for tenant 7 is refused as tenant 7 alone would refuse it; or with Busy, and
/// then there is another tenant for which worker 5 runs or computes a frame.
/// Uses `promises::run` (`refused`).
pub fn refused_among_searches<A: Allocator + Clone>(
    alloc: A,
    procedure: Jamboree,
    config: Config,
    steps: &[Step<Jamboree>],
) -> Result<After<Jamboree, A>, AllocError>
    requires { AreSearches steps.now }
    ensures { IfOk result (λ run. (before later : List SearchStep) (said more : List (Result (DidOf Leaf) Refusal)) (home serial : ℕ) (refusal : Refusal) →
        steps.now ≡ before ++ Steal 5 home (record { tenant = 7; serial = serial }) ∷ later → run.answers.items ≡ said ++ Err refusal ∷ more → length said ≡ length before →
        (lone_refusal (jamboree procedure.grain) (alone (jamboree procedure.grain) (own_steps 7 before said)) (Steal 5 home (record { tenant = 7; serial = serial })) ≡ Some refusal)
        ⊎ ((refusal ≡ Busy) × (another : ℕ) × (another ≢ 7) × (tenant : Tenant) × (alone (jamboree procedure.grain) (own_steps another before said) ≡ Some tenant) × (is_busy_in 5 tenant.frames ≡ true))) }
{
    run(alloc, procedure, config, steps)
}

/// A list of three steps has three answers, and one of some length has as many.
/// Uses `promises::run_any` (`answered`).
pub fn three_answers<A: Allocator + Clone>(
    alloc: A,
    procedure: Jamboree,
    config: Config,
    steps: &[Step<Jamboree>],
) -> Result<After<Jamboree, A>, AllocError>
    ensures { IfOk result (λ run. (count : ℕ) → length steps.now ≡ count + 3 → length run.answers.items ≡ count + 3) }
{
    run_any(alloc, procedure, config, steps)
}

/// Runs any list of steps. Where worker 5's Steal for tenant 7 in it is refused, tenant 7 alone, after its own steps
/// before that, would refuse it in the same way; or it is Busy, and worker 5 runs or computes a frame of another
/// tenant. Where a Spend of tenant 9 is refused, tenant 9 alone would refuse it in the same way. Uses
/// `promises::run_any` (`refused`).
pub fn refusals<A: Allocator + Clone>(
    alloc: A,
    procedure: Jamboree,
    config: Config,
    steps: &[Step<Jamboree>],
) -> Result<After<Jamboree, A>, AllocError>
    ensures seven { IfOk result (λ run. (before later : List SearchStep) (said more : List (Result (DidOf Leaf) Refusal)) (home serial : ℕ) (refusal : Refusal) →
        steps.now ≡ before ++ Steal 5 home (record { tenant = 7; serial = serial }) ∷ later → run.answers.items ≡ said ++ Err refusal ∷ more → length said ≡ length before →
        (lone_refusal (jamboree procedure.grain) (alone (jamboree procedure.grain) (own_steps 7 before said)) (Steal 5 home (record { tenant = 7; serial = serial })) ≡ Some refusal)
        ⊎ ((refusal ≡ Busy) × (another : ℕ) × (another ≢ 7) × (tenant : Tenant) × (alone (jamboree procedure.grain) (own_steps another before said) ≡ Some tenant) × (is_busy_in 5 tenant.frames ≡ true))) }
    ensures nine { IfOk result (λ run. (before later : List SearchStep) (said more : List (Result (DidOf Leaf) Refusal)) (serial : ℕ) (refusal : Refusal) →
        steps.now ≡ before ++ Spend (record { tenant = 9; serial = serial }) ∷ later → run.answers.items ≡ said ++ Err refusal ∷ more → length said ≡ length before →
        lone_refusal (jamboree procedure.grain) (alone (jamboree procedure.grain) (own_steps 9 before said)) (Spend (record { tenant = 9; serial = serial })) ≡ Some refusal) }
{
    run_any(alloc, procedure, config, steps)
}

/// Tenant 9 after two lists in which its own taken steps are the same: it is there after both, in the
/// same state, or after neither; and it was told the same. So was tenant 7, where its are.
/// Uses `promises::run_two` (`undisturbed`).
pub fn nine_is_undisturbed<A: Allocator + Clone>(
    alloc: A,
    procedure: Jamboree,
    config: Config,
    steps: &[Step<Jamboree>],
    other_config: Config,
    other_steps: &[Step<Jamboree>],
) -> Result<(After<Jamboree, A>, After<Jamboree, A>), AllocError>
    ensures same { IfOk result (λ runs. own_steps 9 steps.now runs.0.answers.items ≡ own_steps 9 other_steps.now runs.1.answers.items →
        (tenant : Tenant) → tenant_in runs.0.core.shared.tenants 9 ≡ Some tenant →
        tenant_in runs.1.core.shared.tenants 9 ≡ Some tenant) }
    ensures nobody { IfOk result (λ runs. own_steps 9 steps.now runs.0.answers.items ≡ own_steps 9 other_steps.now runs.1.answers.items →
        tenant_in runs.0.core.shared.tenants 9 ≡ None → tenant_in runs.1.core.shared.tenants 9 ≡ None) }
    ensures answers { IfOk result (λ runs. own_steps 9 steps.now runs.0.answers.items ≡ own_steps 9 other_steps.now runs.1.answers.items →
        own_answers 9 steps.now runs.0.answers.items ≡ own_answers 9 other_steps.now runs.1.answers.items) }
    ensures seven { IfOk result (λ runs. own_steps 7 steps.now runs.0.answers.items ≡ own_steps 7 other_steps.now runs.1.answers.items →
        own_answers 7 steps.now runs.0.answers.items ≡ own_answers 7 other_steps.now runs.1.answers.items) }
{
    run_two(alloc, procedure, config, steps, other_config, other_steps)
}

/// Runs any list of steps, and tenant 7's own taken steps of it alone; the admissions of the second list are taken
/// there. Where tenant 7 is there after the first list, it is in the same state after the second (`same`), and it was
/// told the same in both (`answers`). So was tenant 9, where the second list is its own (`nine`). Uses
/// `promises::run_two` (`alone`).
pub fn seven_alone<A: Allocator + Clone>(
    alloc: A,
    procedure: Jamboree,
    config: Config,
    steps: &[Step<Jamboree>],
    own: &[Step<Jamboree>],
) -> Result<(After<Jamboree, A>, After<Jamboree, A>), AllocError>
    ensures same { IfOk result (λ runs. own.now ≡ own_steps 7 steps.now runs.0.answers.items → AreAdmissionsTaken own.now runs.1.answers.items →
        (tenant : Tenant) → tenant_in runs.0.core.shared.tenants 7 ≡ Some tenant →
        tenant_in runs.1.core.shared.tenants 7 ≡ Some tenant) }
    ensures answers { IfOk result (λ runs. own.now ≡ own_steps 7 steps.now runs.0.answers.items → AreAdmissionsTaken own.now runs.1.answers.items →
        own_answers 7 steps.now runs.0.answers.items ≡ runs.1.answers.items) }
    ensures nine { IfOk result (λ runs. own.now ≡ own_steps 9 steps.now runs.0.answers.items → AreAdmissionsTaken own.now runs.1.answers.items →
        own_answers 9 steps.now runs.0.answers.items ≡ runs.1.answers.items) }
{
    run_two(alloc, procedure, config, steps, config, own)
}

/// After any list tenant 9 is what its own taken steps make of it alone, and was told what they give; the second step is answered as the
/// core after the first asks for; and the core is the one that all answers lead to.
/// Uses `promises::run_any` (`headline`).
pub fn nine_by_its_own_steps<A: Allocator + Clone>(
    alloc: A,
    procedure: Jamboree,
    config: Config,
    steps: &[Step<Jamboree>],
) -> Result<After<Jamboree, A>, AllocError>
    ensures state { IfOk result (λ run. tenant_in run.core.shared.tenants 9 ≡ alone (jamboree procedure.grain) (own_steps 9 steps.now run.answers.items)) }
    ensures told { IfOk result (λ run. own_answers 9 steps.now run.answers.items ≡ answers_from (jamboree procedure.grain) None (own_steps 9 steps.now run.answers.items)) }
    ensures second { IfOk result (λ run. (first second : SearchStep) (later : List SearchStep) (one two : Result (DidOf Leaf) Refusal) (more : List (Result (DidOf Leaf) Refusal)) →
        steps.now ≡ first ∷ second ∷ later → run.answers.items ≡ one ∷ two ∷ more →
        IsAnswerTo (jamboree procedure.grain) (after_answer (jamboree procedure.grain) (shared_by_nobody config) first one) second two) }
    ensures left { IfOk result (λ run. run.core.shared ≡ after_answers (jamboree procedure.grain) (shared_by_nobody config) steps.now run.answers.items) }
{
    run_any(alloc, procedure, config, steps)
}

/// Tenant 7 is after each of two lists what its own taken steps of that list make of it alone, and was told what they give. Where each
/// Submit of the first list asks for a search, each of its jobs that is done after that list holds the reply to what its Submit asked for.
/// Uses `promises::run_two` (`headline`), `jamboree_core::every_frame_is_sound`.
pub fn seven_in_both<A: Allocator + Clone>(
    alloc: A,
    procedure: Jamboree,
    config: Config,
    steps: &[Step<Jamboree>],
    other_config: Config,
    other_steps: &[Step<Jamboree>],
) -> Result<(After<Jamboree, A>, After<Jamboree, A>), AllocError>
    ensures one { IfOk result (λ runs. tenant_in runs.0.core.shared.tenants 7 ≡ alone (jamboree procedure.grain) (own_steps 7 steps.now runs.0.answers.items)) }
    ensures other { IfOk result (λ runs. tenant_in runs.1.core.shared.tenants 7 ≡ alone (jamboree procedure.grain) (own_steps 7 other_steps.now runs.1.answers.items)) }
    ensures told { IfOk result (λ runs. own_answers 7 other_steps.now runs.1.answers.items ≡ answers_from (jamboree procedure.grain) None (own_steps 7 other_steps.now runs.1.answers.items)) }
    ensures replies { AreSearches steps.now → IfOk result (λ runs. (tenant : Tenant) → tenant_in runs.0.core.shared.tenants 7 ≡ Some tenant →
        AreReplies (submitted_by steps.now runs.0.answers.items 7) tenant.jobs × AreAllSound tenant.frames tenant.frames) }
{
    every_completed_reply_is_the_minimax_value();
    every_frame_is_sound();
    run_two(alloc, procedure, config, steps, other_config, other_steps)
}
