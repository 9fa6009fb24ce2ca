//! Where a site runs.
use crate::paths::Paths;
use std::net::{Net, TcpListener, TcpStream};
use std::sync::Wait;
use std::thread::Threads;
use std::time::Clock;

/// All that a site needs of where it runs: sockets, threads, a clock, files by their paths, and the streams of its log.
pub(crate) trait Host: Net<Listener = TcpListener, Stream = TcpStream>
    + Threads
    + Wait
    + Clock
    + Paths
    + Print
    + Eprint
    + AllocGlobal
    + Copy
    + Send
    + Sync
    + 'static {}

impl<R> Host for R
where
    R: Net<Listener = TcpListener, Stream = TcpStream>
        + Threads
        + Wait
        + Clock
        + Paths
        + Print
        + Eprint
        + AllocGlobal
        + Copy
        + Send
        + Sync
        + 'static,
{}
