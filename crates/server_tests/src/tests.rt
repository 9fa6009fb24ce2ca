//! What all tests of servers and of sites use: a runtime, a test's failure, readers and writers.
ghost use Rattle.std.specs.Prelude.{◌≡◌, true};

mod bells;
mod charges;
mod neighbours;
mod servers;
mod sites;
mod trials;

use std::alloc::Global;
use std::fmt::Display;
use std::process::Abort;
use std::sync::Wait;
use std::thread::Threads;

/// What a server and its clients need of a runtime beside the net, and a test to fail.
pub(crate) trait Host: AllocGlobal + Threads + Wait + Abort {}

impl<R: AllocGlobal + Threads + Wait + Abort> Host for R {}

/// Fails the test unless this is true. An `assert!` in its place takes the prover twice as long.
pub(crate) fn holds(rt: &impl Abort, is: bool)
    ensures { is ≡ true }
{
    assert!(rt; is);
}

/// Whether these bytes spell this text.
pub(crate) fn spell(bytes: &[u8], text: &str) -> bool {
    bytes == text.as_bytes()
}

/// Whether the words for this fault are this text.
pub(crate) fn says(alloc: Global, fault: impl Display + Drop, text: &str) -> bool {
    matches!(format!(in alloc; "{fault}"), Ok(told) if told.as_str() == text)
}
