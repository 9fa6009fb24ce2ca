//! The frame table's list in reserved places, whose removals move the shorter end.
//!
//! Seen as the list of its elements, and a number of places. The elements stand together in a `Vec`
//! with room for more than twice as many: those before the start are no part of the list. So a removal
//! near the front moves only what is before it, and a push that finds no room at the end first moves
//! the list to the front, for which at least as many removals near the front have paid.
ghost use Rattle.std.specs.Prelude.{◌≡◌, ◌<◌, ◌≤◌, ◌++◌, [], ◌∷◌, length, take, drop, set, get_or, vec_len, vec_capacity, IfOk, OnOk};
ghost use Rattle.std.specs.List.{insert, remove};

use std::alloc::{AllocError, Allocator, Global};
use std::marker::Model;

/// Room beyond twice the places, so that a list of few places is seldom moved to the front of its memory.
const SPARE: usize = 64;

/// A list of at most `places` elements: those in `items` from `start` on. What is before `start` was removed.
#[derive(Drop)]
pub(crate) struct ListWindow<T, A: Allocator = Global> {
    places: usize,
    start: usize,
    items: Vec<T, A>,
}

impl<T, A: Allocator> Model for ListWindow<T, A> {
    ghost use Rattle.std.specs.Prelude.{drop, vec_capacity};
    ghost use Rattle.frame_table.specs.Windows.{PlacedList, IsWindow};

    ghost Value = { PlacedList T };

    ghost view = { λ w. record { places = w.places; list = drop w.start w.items.items } };

    ghost invariant = { λ w. IsWindow w.items.items w.start w.places (vec_capacity w.items) };
}

impl<T: Copy, A: Allocator> ListWindow<T, A> {
    /// An empty list with this many places. `AllocError` only where memory is refused.
    pub(crate) fn new(alloc: A, places: usize) -> Result<Self, AllocError>
        requires { places ≤ 4096 }
        ensures { IfOk result (λ w. w ≡ record { places = places; list = [] }) }
    {
        let items = Vec::with_capacity(alloc, 2 * places + SPARE)?;
        Ok(ListWindow {
            places,
            start: 0,
            items,
        })
    }

    /// Raises the places to this many, if there are fewer. Where memory is refused there are as many as before.
    /// The elements stay.
    pub(crate) fn raise(&mut self, places: usize) -> Result<(), AllocError>
        requires { places ≤ 4096 }
        ensures list { self.new.list ≡ self.old.list }
        ensures more { OnOk result (places ≤ self.new.places) }
        ensures kept { self.old.places ≤ self.new.places }
    {
        if places <= self.places {
            return Ok(());
        }
        let room = 2 * places + SPARE - self.items.len();
        self.items.reserve(room)?;
        self.places = places;
        Ok(())
    }

    /// How many elements the list has.
    #[inline(always)]
    pub(crate) fn len(&self) -> usize
        ensures { result ≡ length self.now.list }
    {
        self.items.len() - self.start
    }

    /// The element at a place of the list.
    #[inline(always)]
    pub(crate) fn at(&self, at: usize) -> T
        requires { at < length self.now.list }
        ensures { result ≡ get_or self.now.list at result }
    {
        self.items[self.start + at]
    }

    /// The list's elements, in order.
    #[inline(always)]
    pub(crate) fn as_slice(&self) -> &[T]
        ensures value { result.now ≡ self.now.list }
    {
        &self.items[self.start..]
    }

    /// Replaces the element at a place of the list.
    #[tactic(auto, using(crate::proofs::Places::window_laws))]
    pub(crate) fn put(&mut self, at: usize, element: T)
        requires { at < length self.old.list }
        ensures { self.new ≡ record self.old { list = set self.old.list at element } }
    {
        self.items[self.start + at] = element;
    }

    /// Adds an element at the end. Where no room is left there, the list is first moved to the front of its
    /// memory.
    #[inline(always)]
    pub(crate) fn push(&mut self, element: T)
        requires { length self.old.list < self.old.places }
        ensures { self.new ≡ record self.old { list = self.old.list ++ element ∷ [] } }
    {
        if self.items.len() >= 2 * self.places + SPARE {
            return self.push_from_front(element);
        }
        self.items.push_reserved(element);
    }

    /// Moves the list to the front of its memory, and adds an element at the end.
    #[cold]
    #[inline(never)]
    fn push_from_front(&mut self, element: T)
        requires { length self.old.list < self.old.places }
        ensures { self.new ≡ record self.old { list = self.old.list ++ element ∷ [] } }
    {
        move_to_front(&mut self.items, self.start);
        self.start = 0;
        self.items.push_reserved(element);
    }

    /// Removes the element at a place and returns it. Either those before it or those after it move, whichever
    /// are fewer.
    #[inline(always)]
    #[tactic(auto, using(crate::proofs::Places::window_laws))]
    pub(crate) fn remove(&mut self, at: usize) -> T
        requires { at < length self.old.list }
        ensures left { self.new ≡ record self.old { list = remove self.old.list at } }
        ensures value { result ≡ get_or self.old.list at result }
    {
        let gone = self.at(at);
        let behind = self.len() - at - 1;
        if behind == 0 {
            self.truncate(at);
            return gone;
        }
        if at == 0 {
            self.start += 1;
            return gone;
        }
        if at < behind {
            self.remove_near_front(at);
            return gone;
        }
        self.items.remove(self.start + at)
    }

    /// Removes the element at a place by moving those before it one place on.
    fn remove_near_front(&mut self, at: usize)
        requires { at < length self.old.list }
        ensures { self.new ≡ record self.old { list = remove self.old.list at } }
    {
        self.items
            .copy_within(self.start..self.start + at, self.start + 1);
        self.start += 1;
    }

    /// Inserts an element so that it stands at this place: before the one there, or at the end.
    pub(crate) fn insert(&mut self, at: usize, element: T)
        requires within { at ≤ length self.old.list }
        requires room { length self.old.list < self.old.places }
        ensures { self.new ≡ record self.old { list = insert self.old.list at element } }
    {
        if self.items.len() >= 2 * self.places + SPARE {
            return self.insert_from_front(at, element);
        }
        if self.items.insert(self.start + at, element).is_err() {
            unreachable!()
        }
    }

    /// Moves the list to the front of its memory, and inserts an element at this place.
    fn insert_from_front(&mut self, at: usize, element: T)
        requires within { at ≤ length self.old.list }
        requires room { length self.old.list < self.old.places }
        ensures { self.new ≡ record self.old { list = insert self.old.list at element } }
    {
        move_to_front(&mut self.items, self.start);
        self.start = 0;
        if self.items.insert(at, element).is_err() {
            unreachable!()
        }
    }

    /// Removes the elements from a place on; none where the list is shorter.
    #[tactic(auto, using(crate::proofs::Places::window_laws))]
    pub(crate) fn truncate(&mut self, at: usize)
        ensures { self.new ≡ record self.old { list = take at self.old.list } }
    {
        if at < self.len() {
            self.items.truncate(self.start + at);
        }
    }

    /// Removes all elements of the list; its places stay.
    pub(crate) fn clear(&mut self)
        ensures { self.new ≡ record self.old { list = [] } }
    {
        self.items.clear();
        self.start = 0;
    }
}

/// Moves the elements from place `start` on to the front, over those before them.
fn move_to_front<T: Copy, A: Allocator>(items: &mut Vec<T, A>, start: usize)
    requires { start ≤ vec_len items.old }
    ensures moved { items.new.items ≡ drop start items.old.items }
    ensures capacity { vec_capacity items.new ≡ vec_capacity items.old }
{
    let len = items.len();
    items.copy_within(start..len, 0);
    items.truncate(len - start);
}
