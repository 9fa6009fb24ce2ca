//! Steps of a core of searches, one by one and in lists.
ghost use Rattle.std.specs.Prelude.{◌≡◌, ◌≢◌, ◌++◌, ℕ, List, [], Result, Err, IfErr, IfOk, OnErr, OnOk, is_ok, true, false};
ghost use Rattle.sched_rules.specs.declared.refusal.Refusal.{Refusal as RefusalOf};
ghost use Rattle.sched_rules.specs.declared.refusal.Refusal.TheVariants.{BadAct, OutOfMemory};
ghost use Rattle.sched_rules.specs.declared.step.DidOf.{DidOf};
ghost use Rattle.sched_rules.specs.Cores.{tenant_in};
ghost use Rattle.sched_rules.specs.Headline.{IsOneStep, AreNumbersGiven, is_admission};
ghost use Rattle.sched_laws.specs.Fitted.{origins_after, submits};
ghost use Rattle.jamboree_rules.specs.declared.leaf.Leaf.{Leaf};
ghost use Rattle.jamboree_rules.specs.Procedure.{jamboree};
ghost use Rattle.jamboree_core.specs.Replies.{AreSearches, IsSearch};
ghost use Rattle.jamboree_core.specs.NewRuns.{IsHeadlineFromNew, submitted_by};
ghost use Rattle.jamboree_core.specs.Searching.{CoreSearches, ServesSearches, IsHeadlineInFull};

use jamboree::Jamboree;
use sched_core::{Config, Core};
use sched_rules::{Did, Refusal, Step};
use std::alloc::{AllocError, Allocator};

/// Offers one step to a core of searches. It gives what the step did, or why it is refused, and then nothing
/// changes. Only an admission takes memory. Where a taken Submit asks for a search, the core's jobs stay
/// searches.
#[inline(always)]
pub fn step_search<A: Allocator + Clone>(
    core: &mut Core<Jamboree, A>,
    step: &Step<Jamboree>,
) -> Result<Did<Jamboree>, Refusal>
    ensures one { IsOneStep (jamboree core.old.procedure.grain) core.old.shared step.now result core.new.shared }
    ensures refused { OnErr result (core.new.shared ≡ core.old.shared) }
    ensures procedure { core.new.procedure ≡ core.old.procedure }
    ensures memory { is_admission step.now ≡ false → result ≢ Err OutOfMemory }
    ensures known_before { AreNumbersGiven core.old.shared }
    ensures known { AreNumbersGiven core.new.shared }
    ensures searching { (origins : ℕ → List (List ℕ)) → CoreSearches origins core.old.shared → (is_ok result ≡ true → IsSearch step.now)
        → CoreSearches (origins_after origins step.now result) core.new.shared }

    // Where the core's jobs are searches, only a Submit can be refused with BadAct.
    ensures bad_act { (origins : ℕ → List (List ℕ)) → CoreSearches origins core.old.shared → submits step.now ≡ [] → result ≢ Err BadAct }
{
    core.step(step)
}

/// Offers a list of steps to a core of searches, one after the other, and appends one answer for each. The vector
/// of answers grows first: where that is refused (the error), no step is tried.
pub fn run_searches<A: Allocator + Clone>(
    core: &mut Core<Jamboree, A>,
    steps: &[Step<Jamboree>],
    answers: &mut Vec<Result<Did<Jamboree>, Refusal>, A>,
) -> Result<(), AllocError>
    ensures headline { OnOk result ((answered : List (Result (DidOf Leaf) RefusalOf)) × (answers.new.items ≡ answers.old.items ++ answered)
        × IsHeadlineInFull core.old.procedure.grain core.old.shared steps.now answered core.new.shared) }
    ensures untried { OnErr result ((core.new.shared ≡ core.old.shared) × (answers.new.items ≡ answers.old.items)) }
    ensures procedure { core.new.procedure ≡ core.old.procedure }
{
    core.run(steps, answers)
}

/// Makes a core of these totals and offers it a list of steps, in which each Submit asks for a search; one answer
/// for each is appended. The core's jobs are then searches, those that the taken steps submitted, so that
/// [`outcome_of`](crate::outcome_of) and further steps may follow. It fails only where memory for the core or the
/// answers was refused, and then no answer is appended and no core is left.
pub fn run_from_new<A: Allocator + Clone>(
    alloc: A,
    config: Config,
    procedure: Jamboree,
    steps: &[Step<Jamboree>],
    answers: &mut Vec<Result<Did<Jamboree>, Refusal>, A>,
) -> Result<Core<Jamboree, A>, AllocError>
    requires { AreSearches steps.now }
    ensures headline { IfOk result (λ core. (answered : List (Result (DidOf Leaf) RefusalOf)) × (answers.new.items ≡ answers.old.items ++ answered)
        × IsHeadlineFromNew procedure.grain config steps.now answered core.shared
        × CoreSearches (submitted_by steps.now answered) core.shared) }
    ensures serves { IfOk result (λ core. (number : ℕ) → ServesSearches (tenant_in core.shared.tenants number)) }
    ensures procedure { IfOk result (λ core. core.procedure ≡ procedure) }
    ensures untried { IfErr result (λ error. answers.new.items ≡ answers.old.items) }
{
    let mut core = Core::new(alloc, config, procedure)?;
    run_searches(&mut core, steps, answers)?;
    Ok(core)
}
