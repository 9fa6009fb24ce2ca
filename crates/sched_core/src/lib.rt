//! The scheduling core: every step of every tenant, for every lawful procedure.
//!
//! A [`Core`] runs a [`Procedure`] for up to 64 tenants. All that happens to it is one [`Step`] after
//! the other, by [`Core::step`] or a list of them by [`Core::run`]; each is taken, and then [`Did`]
//! says what it did, or refused by a [`Refusal`], and then nothing changes. [`Core::refusal`] tells
//! beforehand. A core waits for nobody, holds no pointer into what it keeps, and takes memory only
//! where it admits a tenant, or more for one that is there.
//!
//! A core stands for a `CoreOf` (`Rattle.sched_rules.specs.Cores`): its procedure, and what its
//! tenants share: the totals, the greatest number of a tenant so far, and the tenants by rising
//! number, each with what it reserved, the serials it was given, its steps, its jobs and its frames.
//! The contract of a step is the definition of one (`IsOneStep`), and that of a list of steps is the
//! headline (`IsHeadline`): each tenant is what its own taken steps give with all other tenants'
//! steps removed, and a step is refused only for its own tenant's state or a busy worker. Where the
//! new roots of taken Submits fit, every frame fits after every step, for every lawful procedure.
//!
//! What makes it true: `sched_store` keeps the tenants as one finite map, and each of its calls says
//! its effect as one equation. `engine` has the procedure beside that store. Each kind of step has two
//! functions there: one decides, by the tests of the definitions in their order, and `refusal` asks
//! it; the other decides by the same tests and does the change, which can't be refused any more
//! (`moves`: Take and Steal; `acts` and `performing`: Advance, Answer and Inlet; `begins`: Admit,
//! AdmitMore and Submit; `ends`: Finish, Spend, Cancel and Leave). The function that asks the procedure for an act
//! also does it: an act is large, and returning it would copy it. The invariant
//! (`specs/Keeping.antt`) is that each tenant has its shape, which every step keeps: a tree by rising
//! serial, no frame under one that computes or has returned, live jobs and roots one to one, nothing
//! used beyond what is reserved. Besides, a core knows that all its frames fit (that the procedure's own
//! invariant holds of them) as long as `Procedure::is_fitting_root` was true of each Submit so far, taken or
//! refused (`asking`). The procedure is told this, so that it need not test words; no contract of a [`Core`]
//! speaks of it, and the answers are the same either way.
//!
//! How a step is proved. Each test of `specs/Lone.antt` of `sched_rules` is a small function over values that
//! the store was asked for, and the chain of them is `unless`. A segment that a tenant has left is free, since
//! the reservations together are within the totals, so that no call of the store fails after the tests: that is
//! the only place where totals are looked at outside an admission. What a step does to its own tenant is one or
//! two equations of the store, whose shape says that no other tenant changes. Along a list,
//! `no_tenant_is_disturbed` turns the right answers into the headline; the laws of fitting go by cases on the
//! step, since a step changes the words of one frame and the children of one.
//!
//! What a step costs: one look-up for all that it decides by, one more for each change of the frame, and one
//! call of the procedure. Frames, accounts and jobs are looked for at a guessed place, and else searched for. An
//! abort goes over the tenant's frames from its frame on, [`Core::live`] and the end of a job over all of them.
//!
//! Why it is so:
//!
//! - Each test of a step is computed, and the first that applies answers: `accept` is also asked of an answer
//!   that is then refused. `Core::new` requires `P: Drop`; `run` takes a `Vec` over the core's allocator, so
//!   that a test can refuse it memory.
//! - A call that isn't inlined zeroes and copies its result, and so is a value made in a `match` arm and used
//!   after it. So a step's look-ups and tests are `#[inline(always)]`, and functions that answer an act return
//!   from the arms of a closing `match`.
//!
//! ```text
//! let mut core = Core::new(alloc, config, Fan)?;
//! core.step(&Step::<Fan>::Admit(1, reserve))?;
//! core.step(&Step::<Fan>::Submit(1, GivenWords::two(0, 0), 4))?;
//! core.step(&Step::<Fan>::Steal(worker, 0, root)) == Ok(DidOf::Took)
//! core.step(&Step::<Fan>::Take(worker, root)) == Err(Refusal::NotReady)
//! ```
#![tactic(auto)]

mod acts;
mod asking;
mod begins;
mod decide;
mod ends;
mod engine;
mod moves;
mod onward;
mod performing;
mod scheduler;
mod steps;

pub use sched_rules::{
    Act, Config, Continuation, Did, DidOf, GivenWords, InletAct, Job, JobWords, Procedure, Refusal,
    Step, StepOf, Stores, Worker,
};
pub use scheduler::Core;
