//! What a pool's worker does next, as values: no thread, no deque, no hall.
//!
//! The workers of a pool are driven by it, and so is the one worker of a search that has a core to itself
//! (`solve_engine`). A worker has a frame or is without one. What it holds is a [`Holding`]; from that follows
//! the step that it offers to the hall, and from the hall's answer what it holds next and whether its
//! step made a frame ready, which is then a [`Task`] of its own ([`Holding::turned`]). The table of
//! that is `specs/Turns.antt`, read aloud: a task is taken or stolen, a running frame advances, one
//! that computes is computed outside the hall's lock and its answer brought, one that has returned is
//! taken in by its parent or, as a root, finished. A step that is refused for want of quota is followed
//! by the offer to give its job up, and where the job may go on, by the same step; any other refusal
//! leaves the worker without a frame, as its frame was aborted, spent, cancelled or left. [`laws`] ties
//! the table to what steps do: each frame that a worker's step makes ready is the task of its turn, so
//! that no ready frame is forgotten.
//!
//! A [`Computations`] counts the computations of a pool. [`rows`] computes worked examples.
//!
//! ```text
//! // worker 2's frame opened a child: the frame goes on, and the child is a task
//! let turn = Holding::Next(Action::Run(root)).turned(worker, Ok(DidOf::Spawned(child)));
//! turn == Turn { holding: Holding::Next(Action::Run(root)), task: Some(Task { frame: child, home: 2 }) }
//! ```

mod count;
pub mod laws;
pub mod rows;
mod table;
mod task;
mod turn;

pub use count::Computations;
pub use task::Task;
pub use turn::{Action, Holding, Turn};
