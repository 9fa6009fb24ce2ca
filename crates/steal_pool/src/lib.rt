//! A pool of workers, each in a thread of its own, that do the jobs of a desk.
//!
//! Tenants ask for searches at a [`Workplace`], which is a hall under a lock: a [`desk::Desk`], or a site's desk. [`run_pool`] starts
//! workers, and they do them until the workplace is closed. [`run_pool_announced`] also tells an [`Announce`] that the pool has begun,
//! once all workers were started; where one can't be had it tells it nothing. A worker looks for a frame that is ready: the newest task of
//! its own deque, else the oldest of another's (`task_deques`), else one that the workplace knows of, for which it sleeps
//! there. That is the specified [`Order`]; in the other one each 128th task that a worker begins is a pick, where there is one: a task that
//! the workplace chooses by who was served least or has waited longest, so that nobody waits for a neighbour.
//!
//! With a frame a worker does turn after turn (`pool_rules`): each turn is one step, offered to the hall under its
//! lock by [`desk::DeskGuard::offer`] and by nothing else (steps that follow each other under one lock, [`steps`]), or one
//! computation outside all locks. A frame that becomes ready by its step is pushed on the worker's deque; where there
//! is no room it stays ready in the hall, where it is found again. A worker that is without a frame while it has the
//! lock goes on with a pick where one is due, or with the newest task of its own deque, under the same lock, up to 32 steps in all.
//! Where users share the hall by what each was served, each task that is begun is charged to its tenant as 1, and each leaf as 4 to the
//! power of its depth; what follows under one lock for one tenant is charged at once.
//!
//! What is proved of a worker is that each of its turns is the table's, that no task but that of its
//! turn is pushed (`specs/Works.antt`), that between turns under one lock it begins a fair pick, only where one is due, or its own newest
//! task, which is counted, and nothing else, that it offers workers' steps alone, that it brings an answer that
//! was computed from just the leaf it was given, that its badge counts the steps that were taken, and
//! that its ends of the deques come back at the same deques. Of a pool it is that there is a deque for
//! each worker, that what was pushed is what was taken and what is left, on each deque and of all
//! together, that these are the sums it ends with (`tasks`), and that it had as many workers as were asked for. That
//! the badge it ends with is that of all its workers, so that [`desk::Desk::into_hall`] can tell whether
//! every step in the hall is one that somebody took, is tested. That a pick comes first where one is due outside the lock, and that a
//! worker waits only where it found nothing, is read. No order between threads is promised, nor
//! that a job ends, nor that no task is left where none is found.
//!
//! Why it is so:
//!
//! - `run_pool` returns OutOfMemory before any thread starts. `PoolSizes` lets tests refuse each request for memory, and
//!   each thread by a stack that can't be had (`spawn_scoped_with`). `worker::computed` gets no lock, tasks or
//!   means to wait: a body that locks around the search alone fails `a_short_search_is_over_before_a_long_one`.
//!   A pick that is due and finds nothing stays due, and the worker takes a task of the deques.
//!   A caller has no deque left to name, so `PoolEnd` has the ends as a snapshot, of which the clause `tasks`
//!   speaks; which deques they are it can't say.
//!
//! ```text
//! // four workers, beside whoever speaks at the desk, until it is closed
//! let end = run_pool(rt, alloc, &desk, Worker::new(4)?, &OpenGate)?;
//! end.pushed == end.taken + end.left
//! ```
#![tactic(auto)]

pub use desk;
pub use jamboree_rules;
pub use jamboree_rules::leaf_search;

mod announce;
mod gate;
mod held;
mod order;
mod pool;
pub mod rows;
pub mod task_deques;
mod tasks;
mod threads;
mod worker;
mod workplace;

pub use announce::{Announce, Quiet};
pub use gate::{Gate, OpenGate};
pub use held::{Round, steps};
pub use jamboree_rules::pool_rules::Task;
pub use order::{Order, Rhythm};
pub use pool::{
    BeginFault, NotRun, PoolConfig, PoolEnd, PoolFault, PoolSizes, run_pool, run_pool_announced,
    run_pool_sized,
};
pub use tasks::{SharedComputations, Tasks};
pub use worker::run_worker;
pub use workplace::Workplace;
