//! What every list of right answers keeps, proved of the definitions of `sched_rules` for every
//! procedure.
//!
//! `sched_rules` says what one step of a tenant is, and which answer to it is right. This crate says
//! what follows for runs, so that a core owes nothing but each single step. A law is a public function
//! without a body: its contract is the law, for every procedure, core and list of steps, and a caller
//! that calls it knows it.
//!
//! - [`laws`]: each tenant keeps its shape (`specs/Shapes.antt`): its frames are a tree of serials that
//!   were given, no child stands under a frame that computes or has returned, live jobs and root frames
//!   are one to one, and nothing is used beyond what is reserved. Every frame fits after every step, and
//!   each job holds what it was asked (`specs/Fitted.antt`).
//! - [`totals`]: reservations stay within the totals, so that nothing is cut off where what is left or
//!   free is worked out by subtraction.
//! - [`runs`]: lists of steps in parts, jobs numbered by their Submits, the newest ready frame
//!   (`specs/Newest.antt`).
//! - [`spends`]: a job may be given up exactly where its frame's Advance or Inlet would be refused by
//!   what can't be done, or no step is left (`specs/Spends.antt`).
//!
//! Why it is so:
//!
//! - `IsShaped` compares use with reservation, not with limits, which belong to the reservation's type. 'Inlet
//!   would be BadAct' is said of every worker, as that test comes before Busy.
//!
//! ```text
//! // the core's contract: core.new.shared ≡ after_answer functions core.old.shared step answer
//! core.step(&step)?;
//! // so each tenant that had its shape has it still
//! every_tenant_keeps_its_shape::<P>();
//! ```
#![tactic(auto)]

pub mod laws;
pub mod onward;
pub mod runs;
pub mod spends;
pub mod totals;
