//! Tests of lists of steps on a core of searches, and of the calls of the promises that run such lists.
ghost use Rattle.std.specs.Prelude.{IfOk};
ghost use Rattle.jamboree_core.specs.Replies.{AreSearches, IsSearch};
ghost use Rattle.jamboree_rules.specs.declared.leaf.LeafAnswer.{LeafAnswer};

use super::{OPENING, holds, opening};
use frame_table::FrameId;
use jamboree::{Jamboree, Leaf, LeafAnswer};
use jamboree_core::{run_searches, submit};
use jamboree_rules::leaf_search::INF;
use promises::{After, run, run_any, run_two};
use sched_core::Core;
use sched_rules::{Config, Did, Job, Refusal, Step, StepOf, Worker};
use std::alloc::{AllocError, Global};
use tenant_quota::Reserve;

/// Whether a job is done with these as its words 8 and 9.
fn is_done_with(job: Option<&Job>, value: u64, choice: u64) -> bool {
    let Some(Job::Done(words)) = job else {
        return false;
    };
    let words = words.as_slice();
    words.len() > 9 && words[8] == value && words[9] == choice
}

/// The totals of a core: 64 segments and 64 nodes.
fn totals() -> Config {
    Config::new(64, 64).unwrap()
}

/// The search procedure with grain 2: frames with at most 2 plies left are computed at once.
fn grain_2() -> Jamboree {
    Jamboree::new(2).unwrap()
}

/// What the root of the opening at depth 0 is computed from.
fn opening_leaf() -> Leaf {
    Leaf {
        board: OPENING,
        depth: 0,
        alpha: -INF,
        beta: INF,
    }
}

/// One of 127 steps: tenant 7 comes in and asks for the opening to depth 0 by 121 Submits, and then a worker computes the
/// first of these jobs by five steps.
fn step_at(at: usize) -> Step<Jamboree>
    ensures { IsSearch {A = LeafAnswer} result }
{
    let worker = Worker::new(3).unwrap();
    let root = FrameId {
        tenant: 7,
        serial: 1,
    };
    match at {
        0 => StepOf::Admit(7, Reserve::new(4, 8).unwrap()),
        122 => StepOf::Steal(worker, 0, root),
        124 => StepOf::Answer(worker, root, LeafAnswer::compute(opening_leaf())),
        123 | 125 => StepOf::Advance(worker, root),
        126 => StepOf::Finish(worker, root),
        _ => submit(7, &opening(), 0),
    }
}

/// How many of these answers are that a step was taken.
fn taken(answers: &[Result<Did<Jamboree>, Refusal>]) -> u32 {
    let mut count = 0u32;
    for answer in answers {
        if answer.is_ok() {
            count = count.wrapping_add(1);
        }
    }
    count
}

/// The admission, the first Submit, the five steps of the worker, and 655 Submits more.
fn many_steps(alloc: Global) -> Result<Vec<Step<Jamboree>>, AllocError> {
    let mut steps = Vec::new(alloc);
    for number in 0..662usize {
        let at = match number {
            2..=6 => number + 120,
            _ => number.min(1),
        };
        steps.push(step_at(at))?;
    }
    Ok(steps)
}

/// Whether a list of 662 steps as one call has as many answers, of which 11 are that a step was taken.
fn is_list_run(alloc: Global, core: &mut Core<Jamboree>) -> Result<bool, AllocError> {
    let steps = many_steps(alloc)?;
    let mut answers = Vec::new(alloc);
    run_searches(core, &steps, &mut answers)?;
    Ok(answers.len() == 662 && taken(&answers) == 11)
}

/// A core of 64 segments and nodes is offered the admission of tenant 7, a Submit of the opening to depth 0, the five
/// steps that do it, and 655 Submits more: one answer each. The first seven are taken, and then four Submits, for which
/// the tenant has segments; job 1 is worth 0 (1,000,000) without a choice (65).
#[test]
fn a_list_of_steps(rt: HostRuntime) {
    let mut core = Core::new(rt.alloc(), totals(), grain_2()).expect(&rt, "there is memory");
    holds(&rt, is_list_run(rt.alloc(), &mut core) == Ok(true));
    holds(&rt, is_done_with(core.job(7, 1), 1_000_000, 65));
}

/// All 127 steps. The fifth Submit is refused, as are those after it, and the last five steps do the first job.
#[tactic(auto, using(crate::proofs::Searches::searches_pushed))]
fn long_list(alloc: Global) -> Result<Vec<Step<Jamboree>>, AllocError>
    ensures { IfOk result (λ steps. AreSearches steps.items) }
{
    let mut steps = Vec::new(alloc);
    for at in 0..127usize {
        steps.push(step_at(at))?;
    }
    Ok(steps)
}

/// What the law of one list comes to. It says nothing of what `run` promises, so that a call is cheap to prove.
fn ran(alloc: Global, steps: &[Step<Jamboree>]) -> Option<After<Jamboree, Global>>
    requires { AreSearches steps.now }
{
    run(alloc, grain_2(), totals(), steps).ok()
}

/// What the promise on one list of any steps comes to, by the search with grain 2.
fn ran_any(alloc: Global, steps: &[Step<Jamboree>]) -> Option<After<Jamboree, Global>> {
    run_any(alloc, grain_2(), totals(), steps).ok()
}

/// What the law of two lists comes to, with this list as both.
fn ran_twice(
    alloc: Global,
    steps: &[Step<Jamboree>],
) -> Option<(After<Jamboree, Global>, After<Jamboree, Global>)> {
    run_two(alloc, grain_2(), totals(), steps, totals(), steps).ok()
}

/// Whether the 127 steps were answered, ten of them taken, and the first job is done.
fn is_run(after: &After<Jamboree, Global>) -> bool {
    after.answers.len() == 127
        && taken(&after.answers) == 10
        && is_done_with(after.core.job(7, 1), 1_000_000, 65)
}

/// Whether the laws run the 127 steps.
fn are_run(alloc: Global) -> Option<bool> {
    let steps = long_list(alloc).ok()?;
    let after = ran(alloc, &steps)?;
    let any = ran_any(alloc, &steps)?;
    let (one, other) = ran_twice(alloc, &steps)?;
    Some(is_run(&after) && is_run(&any) && is_run(&one) && is_run(&other))
}

/// The calls that promise laws of lists of steps do run a list of 127 steps to its end. If they always answered that
/// memory is wanting, they would promise nothing.
#[test]
fn laws_of_lists_are_run(rt: HostRuntime) {
    holds(&rt, are_run(rt.alloc()) == Some(true));
}
