//! Tests of a core's memory: a list of steps is run, or it isn't for want of memory.
use crate::tests::memory::plain_core::{left, made, run};
use crate::tests::memory::{config_of, reserve_of};
use crate::tests::{holds, left_of};
use sched_core::{Core, Step, StepOf};
use std::alloc::{Allocator, Global};
use std::process::Abort;
use tenant_quota::Left;
use toys::{CountedAlloc, Fan};

/// An admission is run or not, which gives so many answers and leaves this of the tenant.
fn runs<A: Allocator + Copy>(
    rt: &impl Abort,
    alloc: A,
    core: &mut Core<Fan, A>,
    came_to: (bool, usize),
    has_left: Option<Left>,
) {
    let admission: [Step<Fan>; 1] = [StepOf::Admit(1, reserve_of(rt, 4, 16))];
    let mut answers = Vec::new(alloc);
    let is_run = run(core, &admission, &mut answers).is_ok();
    holds(rt, (is_run, answers.len()) == came_to);
    holds(rt, left(core, 1) == has_left);
}

/// An admission isn't run where memory for its answer is refused, and the next time it is.
fn runs_the_next_time<A: Allocator + Copy>(
    rt: &impl Abort,
    alloc: A,
    counted: &CountedAlloc<Global>,
) {
    let core = made(alloc, config_of(rt, 64, 64), Fan::new());
    let mut core = core.expect(rt, "there is room");
    counted.refuse(1);
    runs(rt, alloc, &mut core, (false, 0), None);
    runs(rt, alloc, &mut core, (true, 1), Some(left_of(4, 16, 256)));
}

/// Where a core is refused memory for the answers to a list of steps, it tries no step of it; the next time it does.
#[test]
fn a_run_without_memory_for_its_answers(rt: HostRuntime) {
    let counted = CountedAlloc::new(rt.alloc());
    runs_the_next_time(&rt, &counted, &counted);
}
