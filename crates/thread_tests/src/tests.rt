//! What all tests with threads use: a test's failure, and what it says.
ghost use Rattle.std.specs.Prelude.{◌≡◌, true};

mod calls;
mod deques;
mod desks;
mod pools;
mod signs;

use std::alloc::Global;
use std::fmt::Display;
use std::process::Abort;

/// Fails the test unless this is true. An `assert!` in its place takes the prover twice as long.
pub(crate) fn holds(rt: &impl Abort, is: bool)
    ensures { is ≡ true }
{
    assert!(rt; is);
}

/// Fails the test unless this is true, and says of what it should be, as `run 3`.
pub(crate) fn holds_of(rt: &impl Abort, is: bool, what: &str, number: u64) {
    assert!(rt; is, "{what} {number}");
}

/// Fails the test unless this is true, and says what should be.
pub(crate) fn holds_that(rt: &impl Abort, is: bool, what: &str) {
    assert!(rt; is, "{what}");
}

/// Whether the words for this fault are this text.
pub(crate) fn says(alloc: Global, fault: impl Display + Drop, text: &str) -> bool {
    matches!(format!(in alloc; "{fault}"), Ok(told) if told.as_str() == text)
}
