//! Why a TCP server failed.
use std::io;
use steal_pool::{BeginFault, PoolFault};
use thiserror::Error;

/// Why a server failed. The sessions that it had taken have ended then, and its desk is closed.
#[derive(Debug, Drop, Error)]
pub enum ServeFault {
    /// The listener has failed: no more connections can be taken, or its address can't be had.
    #[error("no connection could be taken: {0}")]
    Listener(io::Error),
    /// There was no memory for the pool's deques, for its threads' handles, or for what passes on the connections.
    #[error("no memory for the workers")]
    OutOfMemory,
    /// A thread couldn't be had, for a worker or for taking the connections, or a badge for a worker.
    #[error("no thread for a worker")]
    NoThread,
    /// The pool had begun, but `announce` returned false.
    #[error("what is said at the beginning could not be said")]
    Unsaid,
}

impl From<PoolFault> for ServeFault {
    /// A pool that couldn't begin, for want of memory or threads, ends the server.
    fn from(fault: PoolFault) -> ServeFault {
        match fault {
            PoolFault::OutOfMemory => ServeFault::OutOfMemory,
            PoolFault::NoThread => ServeFault::NoThread,
        }
    }
}

impl From<BeginFault> for ServeFault {
    /// A pool's fault, or an announcement that couldn't be written, ends the server.
    fn from(fault: BeginFault) -> ServeFault {
        match fault {
            BeginFault::Pool(fault) => ServeFault::from(fault),
            BeginFault::Unsaid => ServeFault::Unsaid,
        }
    }
}
