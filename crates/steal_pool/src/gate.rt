//! The gate of a pool, which looks on while the pool's workers work: a worker calls it before each task, and at the start
//! and the end of each computation.
use jamboree_rules::pool_rules::Task;
use sched_rules::Worker;

/// Hooks that workers call while they work, to watch them or to hold them up. The calls are made outside all locks, so
/// one that waits holds up only its own worker; but for `before` where the gate says that it is brief.
pub trait Gate {
    /// Called when a worker has found a task, before it asks the hall for the task's frame. The hall may refuse that.
    fn before(&self, worker: Worker, task: &Task);

    /// Whether `before` returns at once, so that a worker may call it while it has the desk locked, and go on with its
    /// newest task under the same lock. It may not unless a gate says otherwise.
    fn is_brief(&self) -> bool {
        false
    }

    /// Whether `inside` and `after` are told which of the pool's computations it is. Where they aren't, the pool doesn't count
    /// them, which takes a lock that all workers share, and the number is 0. They are told unless a gate says otherwise.
    fn is_numbered(&self) -> bool {
        true
    }

    /// Called at the start of a computation, before its search. `number` is that of the computation among those of the
    /// pool, from 1 on; it doesn't rise beyond 2^64 - 1. It is 0 where `is_numbered` says no.
    fn inside(&self, worker: Worker, number: u64);

    /// Called at the end of a computation, after its search, with the same number. Does nothing unless a gate says
    /// otherwise.
    fn after(&self, _worker: Worker, _number: u64) {}
}

/// A gate that does nothing at any call.
#[derive(Clone, Copy, Debug, PartialEq, Eq)]
pub struct OpenGate;

impl Gate for OpenGate {
    /// Does nothing before a task.
    fn before(&self, _worker: Worker, _task: &Task) {}

    /// Says that `before` returns at once, so that a worker may call it while it has the desk locked.
    fn is_brief(&self) -> bool {
        true
    }

    /// Says that no computation need be counted.
    fn is_numbered(&self) -> bool {
        false
    }

    /// Does nothing at a computation.
    fn inside(&self, _worker: Worker, _number: u64) {}
}
