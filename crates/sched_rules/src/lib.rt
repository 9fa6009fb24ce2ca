//! What one step of a tenant is: the types, the definitions and the laws that a scheduling core answers to.
//!
//! Tenants submit jobs. A job is a tree of frames, each a list of words; a [`Procedure`] says from a
//! frame's words and those above it what the frame does next: grow, open a child, wait, compute,
//! return. Workers run frames, steal them from one another, and bring answers that were computed
//! outside. All that happens is a list of [`Step`]s, each of one tenant; each is taken, and then
//! [`Did`] says what it did, or refused by a [`Refusal`], and then nothing changes.
//!
//! The definitions (`specs/`) speak of one tenant at a time, as if it had the core to itself: its
//! tree of frames is a finite map from serials to paths, words and states (`specs/Trees.antt`), and
//! `lone` (`specs/Lone.antt`) says of each step which refusal comes first, or what the step does.
//! Several tenants (`specs/Cores.antt`) add two things: an admission that finds no room, and a worker
//! that is busy with another tenant's frame. What holds of any list of steps by any workers for any
//! tenants stands in `specs/Headline.antt`: each tenant is what its own steps give, and a step is
//! refused only for its own tenant's state or a busy worker. [`laws`] proves it of the definitions,
//! for every procedure. What a run keeps besides is proved in `sched_laws`; worked examples of all
//! these definitions are in `toys`.
//!
//! What a procedure is to the core is one ghost member, `functions`: five functions of the words
//! shown and of the values passed alone. Its invariant is `fits`: where a frame, its parent and its
//! children fit, each taken step leaves them fitting (`specs/Laws.antt`); `rooted` says whose words a
//! root's are.
//!
//! Why it is so:
//!
//! - `StepOf<A>` and `DidOf<I>` are over a procedure's answers and inputs, so the definitions need no
//!   procedure, whose five functions are one ghost member. Inputs that a procedure calls the same are equal
//!   (`same_is_equal`), or an answer to another could be taken.
//! - `Procedure` has four more methods (`is_fitting_root`, `next_of`, `inlet_of`, `accept_of`), with defaults,
//!   for speed alone: the five test whether words are a frame's, which they always are in a core whose roots
//!   fit. Three answer as their namesakes and are told whether frames fit; `is_fitting_root` may always say no.
//! - `lone` refuses a second Admit by OldTenant, as the rule among several tenants does. NoTenant and Lower of
//!   an AdmitMore are the tenant's own; Full needs all tenants, and is tested where the tenant alone would take
//!   the step, by sums (`is_beyond`), as a difference would be cut off at 0. The text of `Refusal` is by hand,
//!   as what `thiserror` writes costs too much proof.
//!
//! ```text
//! // a finished job keeps the first 76 words of its root: of a root of 12 words, all
//! let node = stack.open(None, &[2, 2, 1], 12)?;
//! JobWords::of(&stack.own(node)).as_slice() == [2, 2, 1, 0, 0, 0, 0, 0, 0, 0, 0, 0]
//! ```
#![tactic(auto)]

mod act;
mod config;
mod job;
pub mod laws;
mod procedure;
mod refusal;
mod step;
mod worker;

pub use act::{Act, Continuation, GivenWords, InletAct, Stores};
pub use config::Config;
pub use job::{Job, JobWords};
pub use procedure::Procedure;
pub use refusal::Refusal;
pub use step::{Did, DidOf, Step, StepOf};
pub use worker::Worker;
