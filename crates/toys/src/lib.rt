//! What tests are made of: three toy procedures whose every step can be followed by hand, with the definitions of scheduling
//! tried on them, and an allocator that counts.
//!
//! [`Fan`] opens children of two kinds, takes the first result and aborts the others: word 0 of its
//! frames is a kind, word 1 a count, and a line of its table for a kind and a count stores the next
//! count and opens a child, waits or computes; at any other it returns. [`Chain`] opens one child with
//! a count of one less, waits for it and stores its count in word 2; at count 0 a frame returns.
//! [`Spin`] goes on for ever. Each is a table (`specs/Toys.antt`), and all frames of all three always fit
//! (`specs/ToyLaws.antt`). [`rows`],
//! [`effect_rows`], [`refusal_rows`], [`going_rows`] and [`law_rows`] are worked examples of the definitions in
//! `sched_rules` and `sched_laws`: each contract there is computed from the definitions alone, so that
//! a wrong definition can't pass.
//!
//! ```text
//! // a root of Fan that has opened three children waits next
//! let node = stack.open(None, &[0, 3], 4)?;
//! let act = Fan::new().next(&stack.sight(node));
//! act.stores.as_slice() == [(1, 4)];
//! matches!(act.after, Continuation::Wait);
//! ```
//!
//! That no memory is taken can't be said by a clause: an allocation that is given back at once leaves nothing to be seen.
//! A [`CountedAlloc`] stands for the allocator that it was made of, passes each call on, and counts it, for tests that something
//! takes no memory; it refuses a request for memory where it is told to, for tests of what is left then.
//!
//! ```text
//! let counted = CountedAlloc::new(alloc);
//! let mut core = Core::new(&counted, config, procedure)?;
//! let before = counted.calls();
//! core.step(&step)?;
//! counted.calls() == before
//! ```
#![tactic(auto)]

mod acts;
mod chain;
mod counting;
pub mod effect_rows;
mod fan;
pub mod going_rows;
pub mod law_rows;
pub mod refusal_rows;
pub mod rows;
mod spin;
mod toy;
mod view;

pub use chain::{Chain, ChainPlay};
pub use counting::CountedAlloc;
pub use fan::{Fan, FanAnswer, FanPlay};
pub use spin::{Spin, SpinPlay};
pub use toy::{Play, Toy, ToyAnswer};
pub use view::word;
