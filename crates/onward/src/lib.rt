//! No state is stuck: whatever steps were offered to a core or a hall, while a job lives a worker can go on with it.
//!
//! `sched_laws` says it of the definitions of `sched_rules`, for every procedure (`specs/Onward.antt` there): a frame
//! waits only where it has a child; each frame that doesn't wait can go on, by a step that is taken; so while a job lives
//! a worker can go on with a frame of it (one of the 32 that is free, or the one that holds the frame), or none of the 32
//! is free, and each can go on with a frame that it holds. Here the same is said of the calls that take steps:
//! [`run`] and [`step`] of a core, [`offer`] of a hall. A frame that is computed can go on only where there is an answer
//! that it can take: a premise for procedures in general, and [`a_computed_frame_has_an_answer`] for searches.
//!
//! What it doesn't say: that a worker comes, or when. It speaks of what the state allows.
//!
//! ```text
//! // whatever was offered before: where tenant 7's third job lives, there is a step that the hall would take
//! offer(&mut hall, &step);
//! ```
#![tactic(auto)]

ghost use Rattle.std.specs.Prelude.{◌≡◌, ℕ, List, IfOk, None, Some, is_ok, true, false};
ghost use Rattle.sched_rules.specs.declared.job.Job.TheVariants.{Live};
ghost use Rattle.sched_rules.specs.Trees.{Tenant};
ghost use Rattle.sched_rules.specs.Cores.{shared_refusal};
ghost use Rattle.sched_rules.specs.Cores.{CoreState};
ghost use Rattle.sched_rules.specs.Headline.{IsOneStep, is_admission};
ghost use Rattle.sched_rules.specs.Views.{job_of};
ghost use Rattle.sched_laws.specs.Shapes.{AreShaped};
ghost use Rattle.sched_laws.specs.Fitted.{CoreFits};
ghost use Rattle.sched_laws.specs.Onward.{EachHasAnswer, EachWaitsForChildren, IsNotStuck};
ghost use Rattle.jamboree_rules.specs.declared.leaf.Leaf.{Leaf as LeafOf};
ghost use Rattle.jamboree_rules.specs.declared.leaf.LeafAnswer.{LeafAnswer as AnswerOf};
ghost use Rattle.jamboree_rules.specs.Leaves.{leaf_of_answer};
ghost use Rattle.jamboree_rules.specs.Fits.{AreFitting, IsRoot};
ghost use Rattle.jamboree_rules.specs.Procedure.{jamboree};
ghost use Rattle.jamboree_core.specs.Replies.{IsSearch};

use hall::{Hall, Jamboree, StepAnswer};
use sched_core::Core;
use sched_laws::onward::a_frame_waits_only_for_children;
use sched_rules::{Config, Did, Procedure, Refusal, Step};
use std::alloc::{AllocError, Allocator};

/// Every leaf of a search has an answer that was computed for just that leaf (`leaf`), as
/// `jamboree_rules::LeafAnswer::compute` gives one. So on a core whose jobs are searches each frame that is computed has
/// an answer that it can take: to its own leaf, and stored inside its words (`frames`).
pub fn a_computed_frame_has_an_answer()
    ensures leaf { (leaf : LeafOf) → (answer : AnswerOf) × (leaf_of_answer answer ≡ leaf) }
    ensures frames { (grain : ℕ) (origins : ℕ → List (List ℕ)) (shared : CoreState) →
        AreShaped shared.tenants → CoreFits AreFitting IsRoot origins shared → EachHasAnswer (jamboree grain) shared }
{}

/// Offers a list of steps, by any workers for any tenants, to a new core with these totals that runs this procedure. In
/// the core that is left each frame that waits has a child (`waits`); and where each frame that is computed has an answer
/// that it can take, no job that lives is stuck (`going`). Nothing is promised of an `AllocError`.
pub fn run<P, A>(
    alloc: A,
    procedure: P,
    config: Config,
    steps: &[Step<P>],
) -> Result<Core<P, A>, AllocError>
where
    P: Procedure + Drop,
    A: Allocator + Clone,
    ensures waits { IfOk result (λ core. EachWaitsForChildren core.shared) }
    ensures going { IfOk result (λ core. EachHasAnswer (P.functions core.procedure) core.shared →
        (number job root : ℕ) → job_of core.shared number job ≡ Some (Live root) → IsNotStuck (P.functions core.procedure) core.shared number root) }
{
    let mut answers = Vec::new(alloc.clone()?);
    let mut core = Core::new(alloc, config, procedure)?;
    core.run(steps, &mut answers)?;
    a_frame_waits_only_for_children::<P>();
    core.no_job_is_stuck();
    Ok(core)
}

/// Offers a step to a core. Where each frame that waited had a child, it is so after the step too (`waits`), and, where
/// each frame that was computed had an answer that it could take, no job that lived was stuck (`going`): a step of one
/// of its frames would have been taken, or none of the 32 workers was free, and then a step of a frame of each of these
/// would have been. A step that the core says that it wouldn't refuse is taken (`taken`).
pub fn step<P: Procedure, A: Allocator + Clone>(
    core: &mut Core<P, A>,
    step: &Step<P>,
) -> Result<Did<P>, Refusal>
    ensures waits { EachWaitsForChildren core.old.shared → EachWaitsForChildren core.new.shared }
    ensures going { EachWaitsForChildren core.old.shared → EachHasAnswer (P.functions core.old.procedure) core.old.shared →
        (number job root : ℕ) → job_of core.old.shared number job ≡ Some (Live root) → IsNotStuck (P.functions core.old.procedure) core.old.shared number root }
    ensures taken { is_admission step.now ≡ false → shared_refusal (P.functions core.old.procedure) core.old.shared step.now ≡ None → is_ok result ≡ true }
{
    core.no_job_is_stuck();
    a_frame_waits_only_for_children::<P>();
    core.step(step)
}

/// Offers a step to a hall, whatever was offered to it before. No search that lived was stuck (`going`): a step of one of
/// its frames would have been taken, or none of the 32 workers was free, and then a step of a frame of each of these would
/// have been. A step that the hall's core wouldn't refuse is taken (`taken`).
pub fn offer<A: Allocator + Clone>(hall: &mut Hall<A>, step: &Step<Jamboree>) -> StepAnswer
    requires { IsSearch step.now }
    ensures going { (number job root : ℕ) → job_of hall.old.shared number job ≡ Some (Live root) → IsNotStuck (jamboree hall.old.grain) hall.old.shared number root }
    ensures taken { is_admission step.now ≡ false → shared_refusal (jamboree hall.old.grain) hall.old.shared step.now ≡ None → is_ok result ≡ true }
{
    let _count = hall.count();
    hall.core().no_job_is_stuck();
    hall.offer(step)
}
