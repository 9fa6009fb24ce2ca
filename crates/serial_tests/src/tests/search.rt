//! What the tests of boards, lines, searches and sessions use.
mod alone;
mod cores;
mod entered;
mod examples;
mod lines;
mod sessions;
mod solving;
mod strangers;

ghost use Rattle.std.specs.Prelude.{◌≤◌, length};

use super::{OPENING, heap_of, holds, left_of, opening};
use std::alloc::{AllocError, Global};
use std::process::Abort;

/// Fails the test unless this is true of one of several cases, and tells which case it is.
fn holds_at(rt: &impl Abort, case: usize, is: bool) {
    assert!(rt; is, "case {case}");
}

/// Puts bytes at the start of a block, and answers how many they are; 0 where they have no room in it.
fn given(block: &mut [u8], bytes: &[u8]) -> usize
    ensures { result ≤ length block.new }
{
    if bytes.len() > block.len() {
        return 0;
    }
    block[..bytes.len()].copy_from_slice(bytes);
    bytes.len()
}

/// These texts, one after another, as one text.
fn joined(alloc: Global, texts: &[&[u8]]) -> Result<Vec<u8>, AllocError> {
    texts.concat(alloc)
}
