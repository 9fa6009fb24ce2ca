//! The table of guesses where a number's thing stands in a list.
//!
//! Seen as the list of the places that were put down. Its length is a power of two, and the mask is
//! that less one, so that the lowest bits of a number are its remainder.
ghost use Rattle.std.specs.Prelude.{◌≡◌, ◌<◌, ◌≤◌, ◌^◌, length, replicate, IfOk};
ghost use Rattle.std.specs.Int.{IsNextPowerOfTwo};
ghost use Rattle.numbered_list.specs.Guesses.{guess_of, with_guess};

use std::alloc::{AllocError, Allocator, Global};
use std::marker::Model;

/// The most places that a table can be asked for.
pub const MOST: usize = 1 << 16;

/// A table of guesses of where numbers stand.
#[derive(Drop)]
pub struct Guesses<A: Allocator = Global> {
    mask: u64,
    places: Vec<u32, A>,
}

impl<A: Allocator> Model for Guesses<A> {
    ghost use Rattle.std.specs.Prelude.{List, ℕ, ◌≡◌, ◌+◌, length};
    ghost use Rattle.std.specs.Int.{IsPowerOfTwo};

    ghost Value = { List ℕ };

    ghost view = { λ g. g.places.items };

    ghost invariant = { λ g. (g.mask + 1 ≡ length g.places.items) × IsPowerOfTwo (length g.places.items) };
}

impl<A: Allocator> Guesses<A> {
    /// A table whose guesses are all 0, with `size` places, rounded up to a power of two. Takes memory: Err only where
    /// the allocator refused it.
    pub fn new(alloc: A, size: usize) -> Result<Self, AllocError>
        requires { size ≤ MOST }
        ensures places { IfOk result (λ g. IsNextPowerOfTwo size (length g)) }
        ensures none { IfOk result (λ g. g ≡ replicate (length g) 0) }
    {
        let count = size.next_power_of_two();
        let places = Vec::from_elem(alloc, 0u32, count)?;
        Ok(Guesses {
            mask: (count - 1) as u64,
            places,
        })
    }

    /// Where a number may stand: the place that was put down last for it, or for another number that shares its entry;
    /// 0 where none was.
    #[inline(always)]
    pub fn guess(&self, number: u64) -> usize
        ensures { result ≡ guess_of self.now number }
    {
        self.places[(number & self.mask) as usize] as usize
    }

    /// Puts down where a number stands. Of a place from 2^32 on only the lowest 32 bits are kept, and the guess is
    /// wrong then.
    pub fn put(&mut self, number: u64, place: usize)
        ensures put { self.new ≡ with_guess self.old number place }
        ensures found { place < 2 ^ 32 → guess_of self.new number ≡ place }
    {
        self.places[(number & self.mask) as usize] = (place & 0xffff_ffff) as u32;
    }
}
