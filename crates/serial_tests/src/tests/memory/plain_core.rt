//! For tests of a core: its calls without what their contracts say: no test needs it, and a function that knows it is
//! dear to prove, the more so where it knows the procedure.
use sched_core::{Config, Core, Did, Procedure, Refusal, Step};
use std::alloc::{AllocError, Allocator};
use tenant_quota::Left;

/// A core of these totals of segments and nodes that runs this procedure.
pub fn made<P: Procedure + Drop, A: Allocator + Clone>(
    alloc: A,
    config: Config,
    procedure: P,
) -> Result<Core<P, A>, AllocError> {
    Core::new(alloc, config, procedure)
}

/// Offers a list of steps to the core.
pub fn run<P: Procedure, A: Allocator + Clone>(
    core: &mut Core<P, A>,
    steps: &[Step<P>],
    answers: &mut Vec<Result<Did<P>, Refusal>, A>,
) -> Result<(), AllocError> {
    core.run(steps, answers)
}

/// The segments, nodes and steps that a tenant of the core has left.
pub fn left<P: Procedure, A: Allocator>(core: &Core<P, A>, tenant: u64) -> Option<Left> {
    core.left(tenant)
}

/// How many segments of the core are free.
pub fn free_segments<P: Procedure, A: Allocator>(core: &Core<P, A>) -> usize {
    core.free_segments()
}
