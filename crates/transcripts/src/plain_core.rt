//! The player of texts: a core's calls without what their contracts say: no player needs it, and a function that knows
//! it is dear to prove.
use crate::agreement::Done;
use sched_core::{Config, Core, Did, Procedure, Refusal, Step};
use std::alloc::{AllocError, Global};
use toys::CountedAlloc;

/// A core whose allocator is counted.
pub type Counting<'c, P> = Core<P, &'c CountedAlloc<Global>>;

/// A core of these totals of segments and nodes that runs this procedure.
pub fn made<P: Procedure + Drop>(
    counted: &CountedAlloc<Global>,
    config: Config,
    procedure: P,
) -> Result<Counting<'_, P>, AllocError> {
    Core::new(counted, config, procedure)
}

/// Offers the core one step.
pub fn step<P: Procedure>(core: &mut Counting<'_, P>, step: &Step<P>) -> Result<Did<P>, Refusal> {
    core.step(step)
}

/// Why the core would refuse a step now; None where it would be taken.
pub fn foretell<P: Procedure>(core: &Counting<'_, P>, step: &Step<P>) -> Option<Refusal> {
    core.refusal(step)
}

/// Offers the core a list of steps in one run.
pub fn run<'c, P: Procedure>(
    core: &mut Counting<'c, P>,
    steps: &[Step<P>],
    answers: &mut Vec<Result<Did<P>, Refusal>, &'c CountedAlloc<Global>>,
) -> Done {
    core.run(steps, answers)
}
