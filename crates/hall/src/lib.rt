//! The value under the lock: a core that searches, and the journal of each tenant.
//!
//! A [`Hall`] takes one [`Step`] after the other by [`Hall::offer`]: the core decides it, and a step
//! that was taken is added to its tenant's journal. So whatever is in the hall is explained: each
//! tenant that is there is what the steps of its journal give it alone (`IsExplained` of
//! `specs/Halls.antt`), and a tenant's journal goes with it. [`Hall::outcome`] tells what became of a
//! job; where it is done, it is a [`Reply`] to just the board and the depth that its Submit carried.
//!
//! A hall stands for a `HallOf`: the grain of its searches, what the tenants share, their journals by
//! rising number, how many steps went with tenants that left, and how many steps are kept. What makes
//! its contract true (`IsHall`): the core's own contract for each step, which says of the step's tenant
//! what `alone` says, and of every other tenant that nothing changed; and that a tenant uses up
//! (`specs/Uses.antt`) one of what it may do with each step, so that the places which its admission
//! reserved for its journal suffice. Only [`Hall::new`] and an admission take memory. An entry of a
//! journal takes 8 bytes: its tenant is the journal's, and its frame's serial is at most 65,536. Steps
//! that say more (`LongEntry`) take 48 bytes in a list of their own. A step is written under the lock, so what
//! it writes first is kept small: each page that the system has to give holds up all workers.
//!
//! An admission asks the core first whether it would be taken, then takes the journal's memory, and lets the core
//! grow last; so does an AdmitMore, whose entry is written after the core's step.
//! So where memory or the core is refused, nothing has changed. A journal has 16 places for each node that its
//! tenant reserves, 770 more, and one for each AdmitMore: each counted step takes a sixteenth of a node, and
//! the rest are the admission and what 256 jobs can need. The journals are a list by number
//! (`NumberedList` of `numbered_list`) in memory for 64, which `Hall::new` takes: the core admits no more.
//!
//! Why it is so:
//!
//! - `Hall::offer` takes its step by reference: a refused one is offered again, and the journal's entry is made
//!   of it. A journal keeps a Submit as board and depth, since `offer` requires a search. Long steps have a
//!   list of their own (`LongEntry`, 48 bytes), so that others take 8.
//! - Long entries have a place for each node, since a frame is given at most one Answer, and for the steps of the
//!   tenant's own that need one. So a journal takes 176 bytes for each node, and 11.6 MB for 65,536 nodes.
//! - A journal grows by exactly what an AdmitMore adds: doubling could take twice as much. There are at most 69,632
//!   AdmitMores, as each adds a segment or a node, so no journal is longer than 1,118,978 steps.
//!
//! ```text
//! let mut hall = Hall::new(alloc, config, 2)?;
//! hall.offer(&StepOf::Admit(1, reserve))? == DidOf::Admitted
//! hall.offer(&submit(1, &opening, 0))? == DidOf::Submitted(1, root)
//! // .. and once its five worker steps were taken
//! hall.outcome(1, 1) == Some(Outcome::Done(reply))
//! hall.count() == 7
//! ```
#![tactic(auto)]

pub use jamboree_core::jamboree;

pub mod desk_rules;
mod entry;
mod hall;
mod journal;
mod reading;
pub mod rows;

pub use hall::{Hall, StepAnswer};
pub use jamboree_core::jamboree::{Jamboree, Leaf, LeafAnswer, Reply};
pub use jamboree_core::sched_core::{Config, Core, Did, DidOf, Refusal, Step, StepOf, Worker};
pub use jamboree_core::{Outcome, submit};
