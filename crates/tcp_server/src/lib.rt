//! Sessions over TCP: a server of lines for many tenants, with one pool of workers.
//!
//! [`serve`] is handed a listener that is bound, and a desk. It takes so many connections and no more, each in a
//! thread of its own, in which `desk_office` answers its lines; the pool of `steal_pool` works beside them. When all
//! sessions have ended it closes the desk, joins all, and gives what the pool ended with and what passed on all connections.
//!
//! A connection that is lost is a session that ended: its tenant leaves. A connection for which no thread, no
//! descriptor or no memory can be had is closed, and counts too. The listener is closed with the last connection that is taken, so
//! that a client that comes later is refused at once and can try another server.
//!
//! Who runs where: one thread takes the connections and starts one for each in a scope of their own, so that it goes on
//! when all have ended, and closes the desk then; the thread that called [`serve`] runs the pool, with a thread for
//! each worker, and joins the other. So there are workers + sessions + 2 threads at most. What is to be said at the
//! beginning ([`serve_announced`]) is said in that thread once all workers were started, and never where the pool can't
//! begin: then a flag is set and one connection of the server's own wakes the listener; the sessions that were there
//! end, and the fault is answered. A connection's Nagle delay is switched off, and each answer is one write with its
//! LF, so a line is answered at once. A session that waits for a job doesn't read, so that its peer is gone is noticed
//! when it writes the job's end.
//!
//! What a session answers is the contract of `desk_office::serve_desk_seen`, whatever the threads do: a socket is a source
//! and a sink of bytes. What a socket gives no contract can say beforehand; a session's thread reads and writes it with a tape of
//! each direction ([`TapedSource`], [`TapedSink`]), a list in proofs alone of what each call did. So [`converse`] can say that what
//! passed on its connection is a session in the desk's history, and the type of what it returns, [`Passed`], carries that out of
//! its thread: once the desk gives its whole history, [`show_all`] says that each session's part is in that one. Nothing is proved of
//! when a thread runs, or that a session's thread leaves what passed: that is tested.
//!
//! Why it is so:
//!
//! - What a server is given is one struct (`ServerConfig`: its `Sessions` and a `PoolConfig`), with the stacks'
//!   sizes, for tests of threads that can't be had, and of a pool that can't begin. `Announce` goes in by value and comes back: a `&mut` captured by a scope's closure
//!   has no value after it. A failed announcement is `BeginFault::Unsaid`.
//! - A listener keeps a spare descriptor (`Door`): an `accept` without a descriptor fails at once and leaves
//!   the connection in the queue for ever. The door gives up its spare to take the connection, which is served
//!   if another descriptor is free by then, else closed. A door is generic in its listener, so that a test can
//!   hand it one whose connections are lost; one lost before it was taken (`ConnectionAborted`) isn't counted.
//!
//! ```text
//! let listener = TcpListener::bind(&rt, "127.0.0.1:0")?;
//! let config = ServerConfig::new(2, Worker::new(4)?);
//! let served = serve(&rt, alloc, &desk, listener, config, &OpenGate)?;    // after two sessions
//! let (hall, whole, mut history) = desk.into_hall_seen(served.end.badge);
//! let sessions = show_all(&mut history, served.sessions);             // the parts of both are in one history
//! ```
#![tactic(auto)]

pub use steal_pool;
pub use steal_pool::desk;

mod faults;
mod passed;
mod server;
mod taped;
pub mod tcp_door;

pub use faults::ServeFault;
pub use passed::{Passed, Taped, show_all};
pub use server::{Served, ServerConfig, Sessions, converse, serve, serve_announced, serve_taped};
pub use taped::{
    ClosedTape, MOST_AHEAD, Tape, TapedReader, TapedSink, TapedSource, TapedWriter,
    calls_are_taped, calls_move_their_bytes, each_byte_is_handed_on, each_call_is_on_its_tape,
};
