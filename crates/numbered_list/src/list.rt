//! A list of things that rise by number, such as accounts by tenant, in memory for 64.
//!
//! Seen as that list. That it rises is asked of each call, since a thing that is lent may come back under another
//! number: who keeps such a list has it in the invariant.
ghost use Rattle.std.specs.Prelude.{◌≡◌, ◌<◌, [], true, length, option_copied, IfOk, IfSome, Some};
ghost use Rattle.std.specs.Borrow.{sem};
ghost use Rattle.numbered_list.specs.Places.{change_by_number, find_by_number, has_by_number, remove_by_number, inserted, AreRising};

use crate::index::TenantIndex;
use crate::numbered::Numbered;
use std::alloc::{AllocError, Allocator, Global};
use std::marker::Model;

/// How many things a list has memory for.
const PLACES: usize = 64;

/// Up to 64 things by rising number, each found where it is guessed to stand, or searched for by halves.
#[derive(Debug, Drop)]
pub struct NumberedList<T, A: Allocator = Global> {
    things: Vec<T, A>,
    index: TenantIndex,
}

// Clauses see the things.
impl<T, A: Allocator> Model for NumberedList<T, A> {
    ghost use Rattle.std.specs.Prelude.{List, ◌≤◌, vec_capacity};

    ghost Value = { List T };

    ghost view = { λ list. list.things.items };

    ghost invariant = { λ list. 64 ≤ vec_capacity list.things };
}

impl<T: Numbered, A: Allocator> NumberedList<T, A> {
    ghost use Rattle.numbered_list.specs.Lends.{lends_thing};

    /// No thing. Takes memory for 64: `AllocError` only where it is refused.
    pub fn new(alloc: A) -> Result<Self, AllocError>
        ensures { IfOk result (λ list. list ≡ []) }
    {
        let things = Vec::with_capacity(alloc, PLACES)?;
        Ok(NumberedList {
            things,
            index: TenantIndex::new(),
        })
    }

    /// How many things the list has.
    pub fn len(&self) -> usize
        ensures { result ≡ length self.now }
    {
        self.things.len()
    }

    /// The list's things, by rising number.
    #[inline(always)]
    pub fn as_slice(&self) -> &[T]
        ensures { result.now ≡ self.now }
    {
        self.things.as_slice()
    }

    /// The thing of this number, if it stands where it is guessed to; None says nothing.
    #[inline(always)]
    pub fn guessed(&self, number: u64) -> Option<&T>
        requires { AreRising T.number_of self.now }
        ensures { IfSome result (λ thing. find_by_number T.number_of number self.now ≡ Some thing.now) }
    {
        match self.index.guessed(self.things.as_slice(), number) {
            Some(at) => Some(&self.things[at]),
            None => None,
        }
    }

    /// The thing of this number; None where there is none.
    #[inline(always)]
    pub fn get(&self, number: u64) -> Option<&T>
        requires { AreRising T.number_of self.now }
        ensures { option_copied result ≡ find_by_number T.number_of number self.now }
    {
        self.index.find(self.things.as_slice(), number)
    }

    /// The thing of this number, which is there, for writing.
    #[inline(always)]
    pub fn get_mut(&mut self, number: u64) -> &mut T
        requires rising { AreRising T.number_of self.old }
        requires there { has_by_number T.number_of number self.old ≡ true }
        ensures* writes_back { sem 𝓛 (lends_thing T.row A.row A.Allocator self.entry result (λ last. change_by_number T.number_of number (λ was. last) self.old)) }
        ensures value { find_by_number T.number_of number self.old ≡ Some result.now }
    {
        let at = self.index.place_of(self.things.as_slice(), number);
        &mut self.things[at]
    }

    /// Adds a thing at its place, in memory that is there.
    pub fn insert(&mut self, thing: T)
    where
        T: Drop,
        requires rising { AreRising T.number_of self.old }
        requires room { length self.old < PLACES }
        ensures { self.new ≡ inserted T.number_of thing self.old }
    {
        let at = self.index.place_of(self.things.as_slice(), thing.number());
        if self.things.insert(at, thing).is_err() {
            unreachable!()
        }
        self.index.guess_anew(self.things.as_slice());
    }

    /// Takes out the thing of this number, which is there.
    pub fn remove(&mut self, number: u64) -> T
        requires rising { AreRising T.number_of self.old }
        requires there { has_by_number T.number_of number self.old ≡ true }
        ensures list { self.new ≡ remove_by_number T.number_of number self.old }
        ensures value { find_by_number T.number_of number self.old ≡ Some result }
    {
        let at = self.index.place_of(self.things.as_slice(), number);
        let thing = self.things.remove(at);
        self.index.guess_anew(self.things.as_slice());
        thing
    }
}
