//! Who comes next, where many share a hall's workers: the least served, and each fourth time who has waited longest.
//!
//! A worker of `steal_pool` begins a new job only when all deques are empty, so a short job may wait as long as its neighbours have
//! work. Where each 128th task that a worker begins is a pick (`steal_pool::Order::WithPicks`), nobody waits for a neighbour: a pick is
//! the newest ready frame of a tenant of a customer that none with a ready frame was served less than, and each fourth time that of the
//! tenant that has waited longest ([`fair_task`], by a [`FairShare`]). What a tenant was served is charged to it, to its network and to its customer ([`charge`]).
//!
//! What is proved is that a pick is a fair one at the hall as it is (`specs/Picks.antt`), what a charge changes, and the laws of
//! [`laws`], which follow from the definitions alone: for how many tasks whoever is active waits for its next pick.
//!
//! Why it is so:
//!
//! - A tenant's activity is seen at picks alone, and not at each step: a step would pay for what a pick uses.
//! - A pick leaves its task behind in the deque where it lies; whoever comes to that later is refused its frame and goes on.
//!
//! ```text
//! let mut shares = FairShare::new(alloc, 40)?;                  // customers 0 to 39
//! shares.enter(7, 0, network)?;                                 // tenant 7 of customer 0
//! let task = fair_task(&hall, &mut shares)?;                    // its newest ready frame
//! charge(&mut shares, task.frame.tenant, 1);                    // and that was begun
//! ```
#![tactic(auto)]

mod account;
pub mod laws;
mod line;
mod picks;
pub mod rows;
mod shares;

pub use account::ShareAccount;
pub use picks::{charge, fair_task};
pub use shares::FairShare;
