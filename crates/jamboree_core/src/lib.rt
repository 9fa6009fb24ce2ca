//! Searches on a scheduling core: isolation and minimax values in one theorem.
//!
//! `sched_laws` says of every procedure that its frames keep fitting and that each job holds what it
//! was asked; `jamboree_rules` says what fits in a Jamboree search and what a returned root then
//! holds. Here the two are joined: whatever the order of spawns, steals, inlets and aborts, where each
//! Submit that was taken asks for the search of a board to a depth (`AreSearches` of
//! `specs/Replies.antt`), each job that is done holds the minimax value, the best choice and a table
//! of just that board to just that depth, in the order of the Submits (`AreReplies`), and every frame
//! is sound.
//!
//! A core that runs [`Jamboree`](jamboree::Jamboree) serves many tenants, each of whom asks for
//! searches ([`submit`]). `sched_core` says of every list of steps, for every procedure, that no
//! tenant is disturbed. Both are said of one call: after [`run_searches`], or [`step_search`] by
//! [`step_search`], each tenant is what its own taken steps give, a step is refused only for its own
//! tenant's state or a busy worker, and every completed reply is the minimax value to its depth,
//! whatever was spawned, stolen, aborted or answered too late. [`outcome_of`] reads what has become
//! of a job; where it is done, its [`Reply`](jamboree::Reply) is to the board and the depth that the
//! job's own Submit asked for.
//! [`run_from_new`] makes the core too: of any list of searches it says the headline and every reply,
//! and names no invariant (`specs/NewRuns.antt`).
//!
//! What is carried from call to call is that a core's jobs are searches (`CoreSearches` of
//! `specs/Searching.antt`): its frames fit, and job k of a tenant holds what the k-th of the words
//! submitted under its number asked. A new core's are, since it has none; and where each Submit asks
//! for a search, a step keeps it. [`laws`] has what holds of every list of searches, what follows from
//! that fact, and the same for one tenant by its journal, the list of its own steps that were taken
//! (`specs/Journals.antt`). The laws are public functions that do nothing.
//!
//! [`reserves`] says what a tenant has to reserve so that none of its jobs is ever spent, whatever the
//! order of steps. What a frame may still open is a weight that its steps use up (`specs/Weights.antt`,
//! `specs/Needs.antt`); the segments of a frame and of all under it are within its size
//! (`specs/Sizes.antt`); and sixteen steps a node suffice, as a frame waits only for a child
//! (`specs/Paces.antt`, `specs/Turns.antt`). [`enough`] says how much that is for a position
//! (`specs/Enough.antt`); for several searches that live it is the sums (`specs/Sums.antt`).
//!
//! Why it is so:
//!
//! - Functions over a core say the headline in full (`run_searches`, `step_search`), as `Core` is generic and
//!   can't name searches.
//!
//! ```text
//! // the opening to depth 0, computed by worker 3: seven steps, all taken, and word 8 is that of 0
//! let steps = [
//!     StepOf::Admit(7, reserve),
//!     submit(7, &position, 0),
//!     StepOf::Steal(worker, 0, root),
//!     StepOf::Advance(worker, root),
//!     StepOf::Answer(worker, root, LeafAnswer::compute(leaf)),
//!     StepOf::Advance(worker, root),
//!     StepOf::Finish(worker, root),
//! ];
//! run_searches(&mut core, &steps, &mut answers)?;
//! outcome_of(&core, 7, 1) == Some(Outcome::Done(reply))
//! ```
#![tactic(auto)]

pub use jamboree;
pub use jamboree_rules::leaf_search;
pub use sched_core;

mod amounts;
mod asking;
pub mod laws;
mod outcomes;
pub mod reserves;
pub mod rows;
mod running;

pub use amounts::enough;
pub use asking::submit;
pub use outcomes::{Outcome, outcome_of};
pub use running::{run_from_new, run_searches, step_search};
