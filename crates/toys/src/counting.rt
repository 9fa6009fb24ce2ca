//! For tests of memory: an allocator that counts the calls of another, and can refuse one.

ghost use Rattle.std.specs.Prelude.{◌≡◌, IfSome};

use std::alloc::{AllocError, Allocator};
use std::cell::Cell;

/// An allocator that passes each call on to another one, and counts it. It can be told to refuse a request for memory.
pub struct CountedAlloc<B> {
    /// The allocator that does the calls.
    inner: B,
    /// How many calls there were, modulo 2^64.
    calls: Cell<u64>,
    /// Which of the next requests for memory is refused, 1 for the next; 0 for none.
    refused: Cell<u64>,
}

impl<B> CountedAlloc<B> {
    /// Counts a request for memory, and returns the allocator that it is passed on to; `None` where it is the one that is refused.
    fn asked(&self) -> Option<&B>
        ensures { IfSome result (λ inner. inner.now ≡ self.now.inner) }
    {
        tick(&self.calls);
        if is_refused(&self.refused) {
            None
        } else {
            Some(&self.inner)
        }
    }
}

impl<B: Allocator> CountedAlloc<B> {
    /// Passes calls on to `inner`; none is counted yet, and none is refused.
    pub fn new(inner: B) -> CountedAlloc<B> {
        CountedAlloc {
            inner,
            calls: Cell::new(0),
            refused: Cell::new(0),
        }
    }

    /// Refuses the request for memory of this number, counted from the next on: 1 for the next, 0 for none. Only that one is refused.
    pub fn refuse(&self, number: u64) {
        self.refused.set(number);
    }

    /// How often memory was asked for or given back, modulo 2^64.
    pub fn calls(&self) -> u64 {
        self.calls.get()
    }
}

impl<B: Drop> Drop for CountedAlloc<B> {
    /// Drops the allocator that it counts for.
    fn drop(self) {
        let Self {
            inner: _,
            calls: _,
            refused: _,
        } = self;
    }
}

/// Counts one call of the allocator more.
fn tick(calls: &Cell<u64>) {
    calls.set(calls.get().wrapping_add(1));
}

/// Whether this request for memory is the one that the test lets fail; each request before it counts down to it.
fn is_refused(refused: &Cell<u64>) -> bool {
    let number = refused.get();
    refused.set(number.saturating_sub(1));
    number == 1
}

unsafe impl<B: Allocator> Allocator for CountedAlloc<B> {
    ghost dealloc_token = { λ heap ty ptr. B.dealloc_token heap.inner ty ptr };

    /// Counts the call, and asks the inner allocator, or refuses where it is to.
    fn allocate(&self, size: usize, align: usize) -> Result<*mut u8, AllocError> {
        match self.asked() {
            Some(inner) => inner.allocate(size, align),
            None => Err(AllocError),
        }
    }

    /// Counts the call, and gives the memory back to the inner allocator.
    unsafe fn deallocate(&self, ptr: *mut u8, size: usize, align: usize) {
        tick(&self.calls);
        self.inner.deallocate(ptr, size, align);
    }
}
