//! The frame table's slots of one tenant: the slots in a slab, and the keys of those slots by rising serial.
//!
//! Seen as the list of slots by rising serial, and a number of places. What makes that true: each key
//! of the index is of a slot of its own, each slot of the slab has its key in the index, a slot
//! that has a parent keeps the key of the parent's slot, which stands before it.
//! A slot is looked for first under the key that its serial is guessed to have, which stays its key while
//! it is there: else by a search of the serials. It is found by its serial alone, so one that is used
//! again never answers for an old name.
ghost use Rattle.std.specs.Prelude.{◌≡◌, ℕ, ◌+◌, ◌<◌, ◌≤◌, ◌++◌, not, filter, vec_len, vec_capacity, [], ◌∷◌, true, false, Some, length, IfOk, OnOk, OnErr, IfSome, IfNone, get_or, set, slice_index, take, drop, ◌-◌};
ghost use Rattle.slab.specs.Slab.{get, slab_len, ContainsKey, Updates};
ghost use Rattle.frame_table.specs.declared.slot_store.StoredSlot.{StoredSlot};
ghost use Rattle.frame_table.specs.declared.slot.Slot.{Slot};
ghost use Rattle.std.specs.List.{remove};
ghost use Rattle.frame_table.specs.Slots.{serials_of, IsCutAt, kept_slots, gone_values, slot_values, child_slots, Rises, has_slot, has_parent_slot, AllCountsBelow, with_child, restated, root_in, slot_at, root_under, without_child, CountsAtParent};
ghost use Rattle.frame_table.specs.Readies.{ready_in};
ghost use Rattle.numbered_list.specs.Places.{AreRising};
ghost use Rattle.frame_table.specs.Places.{has_number};
ghost use Rattle.frame_table.specs.SlotStores.{slots_in, AllHere, AreApartKeys, AreKeys, IsKeyAt, IsSeenAt, ChangesSlot, KnowsParent, new_slot, is_taken_in, Leaves, gone_among, has_slot_under};

use crate::names::State;
use crate::ready::{ReadyFrame, ReadyFrames};
use crate::serials::{Serials, known_place, search};
use crate::slot::Slot;
use crate::window::ListWindow;
use numbered_list::Guesses;
use slab::Slab;
use std::alloc::{AllocError, Allocator, Global};
use std::marker::Model;

/// The least size of the table of guesses. Else it has one entry for each place: a frame loses its entry to another only
/// once as many frames were opened after it as there are places, and then a look for it is a binary search. A larger
/// table is seldom worth it, as it is zeroed at each admission.
const FEWEST: usize = 64;

/// One slot as the slab keeps it.
#[derive(Clone, Copy)]
pub(crate) struct StoredSlot<T> {
    pub(crate) slot: Slot<T>,
    /// The key of the parent's slot; None for a root.
    pub(crate) above: Option<usize>,
}

/// The slots of one tenant, in a slab: `order` has their keys by rising serial, and `guesses` the key that a
/// serial probably has.
#[derive(Drop)]
pub(crate) struct SlotStore<T, A: Allocator = Global> {
    places: usize,
    slab: Slab<StoredSlot<T>, A>,
    order: ListWindow<usize, A>,
    guesses: Guesses<A>,
}

impl<T, A: Allocator> Model for SlotStore<T, A> {
    ghost use Rattle.frame_table.specs.SlotStores.{SlotStoreOf, slots_in, IsSlotStore};

    ghost Value = { SlotStoreOf T };

    ghost view = { λ s. record { places = s.places; slots = slots_in s.slab s.order.list } };

    ghost invariant = { λ s. IsSlotStore s.slab s.order.list s.order.places s.places };
}

impl<T: Copy, A: Allocator> SlotStore<T, A> {
    /// An empty slot store with this many places. `AllocError` only where memory is refused.
    pub(crate) fn new(alloc: A, places: usize) -> Result<Self, AllocError>
    where
        A: Clone,
        requires { places ≤ 4096 }
        ensures { IfOk result (λ s. s ≡ record { places = places; slots = [] }) }
    {
        let slab = Slab::with_capacity(alloc.clone()?, places)?;
        let order = ListWindow::new(alloc.clone()?, places)?;
        let guesses = Guesses::new(alloc, places.max(FEWEST))?;
        Ok(SlotStore {
            places,
            slab,
            order,
            guesses,
        })
    }

    /// Raises its places to this many, with a new table of guesses of matching size, filled from the slots.
    /// Where memory is refused nothing has changed.
    pub(crate) fn raise(&mut self, alloc: A, places: usize) -> Result<(), AllocError>
        requires more { self.old.places ≤ places }
        requires few { places ≤ 4096 }
        ensures ok { OnOk result (self.new ≡ record self.old { places = places }) }
        ensures err { OnErr result (self.new ≡ self.old) }
    {
        self.order.raise(places)?;
        self.slab.reserve(places - self.order.len())?;
        let mut guesses = Guesses::new(alloc, places.max(FEWEST))?;
        guess_all(&self.slab, &self.order, &mut guesses);
        self.guesses = guesses;
        self.places = places;
        Ok(())
    }

    /// How many slots (frames) the store has places for.
    pub(crate) fn places(&self) -> usize
        ensures { result ≡ self.now.places }
    {
        self.places
    }

    /// How many slots (frames) the store has.
    #[tactic(auto, using(crate::proofs::SlotStores::read_laws))]
    pub(crate) fn len(&self) -> usize
        ensures { result ≡ length self.now.slots }
    {
        self.order.len()
    }

    /// The slot at a place in the order of serials.
    #[inline(always)]
    #[tactic(auto, using(crate::proofs::SlotStores::read_laws))]
    pub(crate) fn at(&self, at: usize) -> Slot<T>
        requires { at < length self.now.slots }
        ensures { result ≡ get_or self.now.slots at result }
    {
        let key = self.order.at(at);
        self.slab[key].slot
    }

    /// The slot with this serial; None where there is none. The guessed key is tried first, then `serials` is
    /// searched, the serials of all slots.
    #[inline(always)]
    #[tactic(auto, using(crate::proofs::Keys::key_laws))]
    pub(crate) fn find(&self, serials: &Serials<A>, serial: u64) -> Option<Slot<T>>
        requires index { serials.now.list ≡ serials_of self.now.slots }
        requires rise { Rises self.now.slots }
        ensures found { IfSome result (λ slot. (at : ℕ) × IsSeenAt self.now.slots serial at slot) }
        ensures none { IfNone result (has_slot self.now.slots serial ≡ false) }
    {
        let key = self.guesses.guess(serial);
        if let Some(kept) = self.slab.get(key) {
            if kept.slot.serial == serial {
                return Some(kept.slot);
            }
        }
        match search(serials, serial) {
            Some(at) => Some(self.at(at)),
            None => None,
        }
    }

    /// Appends to `serials` the serials of the slots from a place on.
    pub(crate) fn add_serials(&self, from: usize, serials: &mut Serials<A>)
        requires within { from ≤ length self.now.slots }
        requires room { length serials.old.list + length self.now.slots ≤ serials.old.places + from }
        ensures { serials.new ≡ record serials.old { list = serials.old.list ++ serials_of (drop from self.now.slots) } }
    {
        for at in from..self.len() {
            serials.push(self.at(at).serial);
        }
    }

    /// Appends to `ready` the ready frames among the slots from a place on.
    pub(crate) fn add_ready(&self, from: usize, ready: &mut ReadyFrames<A>)
        requires within { from ≤ length self.now.slots }
        requires room { length ready.old.list + length self.now.slots ≤ ready.old.places + from }
        ensures { ready.new ≡ record ready.old { list = ready.old.list ++ ready_in (drop from self.now.slots) } }
    {
        for at in from..self.len() {
            let slot = self.at(at);
            if let State::Ready(home) = slot.state {
                ready.push(ReadyFrame {
                    serial: slot.serial,
                    home,
                });
            }
        }
    }

    /// Replaces the slot at a place by one of the same serial and parent.
    #[inline(always)]
    #[tactic(auto, using(crate::proofs::SlotStores::read_laws))]
    pub(crate) fn put(&mut self, at: usize, slot: Slot<T>)
        requires within { at < length self.old.slots }
        requires serial { slot.serial ≡ (get_or self.old.slots at slot).serial }
        requires parent { slot.parent ≡ (get_or self.old.slots at slot).parent }
        ensures { self.new ≡ record self.old { slots = set self.old.slots at slot } }
    {
        let key = self.order.at(at);
        put_kept(&mut self.slab, key, slot);
    }

    /// Puts the slot with this serial, which is there, into another state, and returns the state that it was
    /// in.
    #[inline(always)]
    #[tactic(auto, using(crate::proofs::Keys::key_laws, crate::proofs::Keys::store_laws))]
    pub(crate) fn set_state(&mut self, serials: &Serials<A>, serial: u64, state: State) -> State
        requires index { serials.now.list ≡ serials_of self.old.slots }
        requires rise { Rises self.old.slots }
        requires there { has_slot self.old.slots serial ≡ true }
        ensures { ChangesSlot self.old self.new serial (restated state) (λ slot. result ≡ slot.state) }
    {
        match guessed_key(&self.slab, &self.order, &self.guesses, serial) {
            Some(key) => put_state(&mut self.slab, key, state),
            None => {
                let key = search_key(&self.order, serials, serial);
                put_state(&mut self.slab, key, state)
            }
        }
    }

    /// Appends a slot for a new frame, ready at this home, and counts one more child at its parent, if it has
    /// one.
    #[inline(always)]
    #[tactic(auto, using(crate::proofs::SlotStores::read_laws))]
    pub(crate) fn push(
        &mut self,
        serials: &Serials<A>,
        serial: u64,
        parent: Option<u64>,
        home: u8,
        value: T,
    )
        requires room { length self.old.slots < self.old.places }
        requires index { serials.now.list ≡ serials_of self.old.slots }
        requires rise { Rises self.old.slots }
        requires there { has_parent_slot self.old.slots parent ≡ true }
        requires few { AllCountsBelow 4096 self.old.slots }
        ensures { self.new ≡ record self.old { slots = with_child parent self.old.slots ++ new_slot self.old.slots serial parent home value ∷ [] } }
    {
        let (root, above) = adopt(
            &mut self.slab,
            &self.order,
            &mut self.guesses,
            serials,
            parent,
            serial,
        );
        let key = self.slab.insert_reserved(StoredSlot {
            slot: Slot {
                serial,
                parent,
                root,
                state: State::Ready(home),
                children: 0,
                value,
            },
            above,
        });
        self.order.push(key);
        self.guesses.put(serial, key);
    }

    /// Removes all slots below the one with serial `under`, which is at place `at` and stays, and appends their
    /// values to `removed`: one pass from that place on removes them from the slab, and a second their keys.
    #[tactic(auto, using(crate::proofs::SlotStores::read_laws))]
    pub(crate) fn cut(&mut self, at: usize, under: u64, removed: &mut Vec<T, A>)
        requires within { at < length self.old.slots }
        requires named { slice_index (serials_of self.old.slots) at ≡ under }
        requires parents { IsCutAt under self.old.slots }
        requires rise { Rises self.old.slots }
        requires room { vec_len removed.old + length self.old.slots ≤ vec_capacity removed.old }
        ensures kept { self.new ≡ record self.old { slots = kept_slots under self.old.slots } }
        ensures values { removed.new.items ≡ removed.old.items ++ gone_values under self.old.slots }
        ensures capacity { vec_capacity removed.new ≡ vec_capacity removed.old }
    {
        take_under(&mut self.slab, self.order.as_slice(), at, under, removed);
        close_up(&self.slab, &mut self.order, at);
    }

    /// Removes all slots, and appends their values to `removed`.
    pub(crate) fn clear(&mut self, removed: &mut Vec<T, A>)
        requires { vec_len removed.old + length self.old.slots ≤ vec_capacity removed.old }
        ensures none { self.new ≡ record self.old { slots = [] } }
        ensures values { removed.new.items ≡ removed.old.items ++ slot_values self.old.slots }
        ensures capacity { vec_capacity removed.new ≡ vec_capacity removed.old }
    {
        self.add_values(removed);
        self.order.clear();
        self.slab.clear();
    }

    /// Appends the values of all slots to `values`.
    fn add_values(&self, values: &mut Vec<T, A>)
        requires { vec_len values.old + length self.now.slots ≤ vec_capacity values.old }
        ensures items { values.new.items ≡ values.old.items ++ slot_values self.now.slots }
        ensures capacity { vec_capacity values.new ≡ vec_capacity values.old }
    {
        for at in 0..self.len() {
            values.push_reserved(self.at(at).value);
        }
    }

    /// Removes and returns the slot at a place, which is no slot's parent, and counts one child less at its own
    /// parent, if it has one.
    #[inline(always)]
    #[tactic(auto, using(crate::proofs::SlotStores::read_laws))]
    pub(crate) fn take(&mut self, at: usize) -> Slot<T>
        requires within { at < length self.old.slots }
        requires rise { Rises self.old.slots }
        requires leaf { child_slots (slice_index (serials_of self.old.slots) at) self.old.slots ≡ [] }
        requires counted { (slot : Slot T) → slot ≡ get_or self.old.slots at slot → CountsAtParent (remove self.old.slots at) slot.parent }
        ensures left { self.new ≡ record self.old { slots = without_child result.parent (remove self.old.slots at) } }
        ensures value { result ≡ get_or self.old.slots at result }
    {
        let key = self.order.remove(at);
        let gone = self.slab.remove(key);
        disown(&mut self.slab, &self.order, gone.slot.parent, gone.above);
        gone.slot
    }
}

/// Enters the key of each slot into a table of guesses, by its serial.
#[tactic(auto, using(crate::proofs::SlotStores::contains_read))]
fn guess_all<T: Copy, A: Allocator>(
    slab: &Slab<StoredSlot<T>, A>,
    order: &ListWindow<usize, A>,
    guesses: &mut Guesses<A>,
)
    requires { AreKeys slab.now order.now.list }
{
    for at in 0..order.len() {
        let key = order.at(at);
        guesses.put(slab[key].slot.serial, key);
    }
}

/// Replaces the slot under a key; the key of its parent and its mark stay.
fn put_kept<T: Copy, A: Allocator>(slab: &mut Slab<StoredSlot<T>, A>, key: usize, slot: Slot<T>)
    requires { ContainsKey slab.old key }
    ensures put { (kept : StoredSlot T) → get slab.old key ≡ Some kept → Updates slab.old slab.new key (Some (record kept { slot = slot })) }
    ensures len { slab_len slab.new ≡ slab_len slab.old }
    ensures capacity { slab.new.capacity ≡ slab.old.capacity }
{
    let kept = slab[key];
    slab[key] = StoredSlot { slot, ..kept };
}

/// The key of the slot with this serial, if the guess is right; None where it is wrong, or there is no such
/// slot.
#[inline(always)]
fn guessed_key<T: Copy, A: Allocator>(
    slab: &Slab<StoredSlot<T>, A>,
    order: &ListWindow<usize, A>,
    guesses: &Guesses<A>,
    serial: u64,
) -> Option<usize>
    requires { AreKeys slab.now order.now.list }
    ensures { IfSome result (λ key. (at : ℕ) × IsKeyAt slab.now order.now.list serial at key) }
{
    let key = guesses.guess(serial);
    if let Some(kept) = slab.get(key) {
        if kept.slot.serial == serial {
            return Some(key);
        }
    }
    None
}

/// The key of the slot with this serial, which is there, by a search of the serials: for a wrong guess.
#[cold]
#[inline(never)]
fn search_key<A: Allocator>(
    order: &ListWindow<usize, A>,
    serials: &Serials<A>,
    serial: u64,
) -> usize
    requires rise { AreRising (λ n. n) serials.now.list }
    requires there { has_number serials.now.list serial ≡ true }
    requires long { length serials.now.list ≡ length order.now.list }
    ensures { (at : ℕ) × (at < length order.now.list) × (result ≡ get_or order.now.list at result) × (slice_index serials.now.list at ≡ serial) }
{
    order.at(known_place(serials, serial))
}

/// Counts the new frame `serial` at its parent, if it has one. Returns the new frame's root (its parent's, or
/// itself) and the parent's key (None for a root).
#[inline(always)]
#[tactic(auto, using(crate::proofs::Keys::key_laws))]
fn adopt<T: Copy, A: Allocator>(
    slab: &mut Slab<StoredSlot<T>, A>,
    order: &ListWindow<usize, A>,
    guesses: &mut Guesses<A>,
    serials: &Serials<A>,
    parent: Option<u64>,
    serial: u64,
) -> (u64, Option<usize>)
    requires keys { AreKeys slab.old order.now.list }
    requires index { serials.now.list ≡ serials_of (slots_in slab.old order.now.list) }
    requires rise { Rises (slots_in slab.old order.now.list) }
    requires there { has_parent_slot (slots_in slab.old order.now.list) parent ≡ true }
    requires few { AllCountsBelow 4096 (slots_in slab.old order.now.list) }
    ensures keys { AreKeys slab.new order.now.list }
    ensures slots { slots_in slab.new order.now.list ≡ with_child parent (slots_in slab.old order.now.list) }
    ensures root { result.0 ≡ root_under (slots_in slab.old order.now.list) parent serial }
    ensures above { KnowsParent slab.new order.now.list parent result.1 }
    ensures capacity { slab.new.capacity ≡ slab.old.capacity }
{
    match parent {
        None => (serial, None),
        Some(name) => match guessed_key(slab, order, guesses, name) {
            Some(key) => (enroll(slab, order, name, key), Some(key)),
            None => {
                let key = search_key(order, serials, name);
                guesses.put(name, key);
                (enroll(slab, order, name, key), Some(key))
            }
        },
    }
}

/// Counts one more child at the frame whose slot has this key, and returns that frame's root.
#[inline(always)]
#[tactic(auto, using(crate::proofs::Keys::store_laws))]
fn enroll<T: Copy, A: Allocator>(
    slab: &mut Slab<StoredSlot<T>, A>,
    order: &ListWindow<usize, A>,
    name: u64,
    key: usize,
) -> u64
    requires keys { AreKeys slab.old order.now.list }
    requires rise { Rises (slots_in slab.old order.now.list) }
    requires few { AllCountsBelow 4096 (slots_in slab.old order.now.list) }
    requires named { (at : ℕ) × IsKeyAt slab.old order.now.list name at key }
    ensures keys { AreKeys slab.new order.now.list }
    ensures slots { slots_in slab.new order.now.list ≡ with_child (Some name) (slots_in slab.old order.now.list) }
    ensures root { result ≡ root_in (slot_at (slots_in slab.old order.now.list) name) }
    ensures above { KnowsParent slab.new order.now.list (Some name) (Some key) }
    ensures capacity { slab.new.capacity ≡ slab.old.capacity }
{
    let root = slab[key].slot.root;
    count_more(slab, key);
    root
}

/// Counts one child less at a parent, whose slot has the key `above`; nothing changes where there is no parent.
#[inline(always)]
#[tactic(auto, using(crate::proofs::Keys::store_laws))]
fn disown<T: Copy, A: Allocator>(
    slab: &mut Slab<StoredSlot<T>, A>,
    order: &ListWindow<usize, A>,
    parent: Option<u64>,
    above: Option<usize>,
)
    requires keys { AreKeys slab.old order.now.list }
    requires rise { Rises (slots_in slab.old order.now.list) }
    requires above { KnowsParent slab.old order.now.list parent above }
    requires counted { CountsAtParent (slots_in slab.old order.now.list) parent }
    ensures keys { AreKeys slab.new order.now.list }
    ensures slots { slots_in slab.new order.now.list ≡ without_child parent (slots_in slab.old order.now.list) }
    ensures capacity { slab.new.capacity ≡ slab.old.capacity }
{
    match above {
        Some(key) => count_less(slab, key),
        None => {}
    }
}

/// Puts the slot under a key into another state, and returns the state that it was in.
#[inline(always)]
fn put_state<T: Copy, A: Allocator>(
    slab: &mut Slab<StoredSlot<T>, A>,
    key: usize,
    state: State,
) -> State
    requires { ContainsKey slab.old key }
    ensures put { (kept : StoredSlot T) → get slab.old key ≡ Some kept → Updates slab.old slab.new key (Some (record kept { slot = record kept.slot { state = state } })) }
    ensures was { (kept : StoredSlot T) → get slab.old key ≡ Some kept → result ≡ kept.slot.state }
    ensures len { slab_len slab.new ≡ slab_len slab.old }
    ensures capacity { slab.new.capacity ≡ slab.old.capacity }
{
    let was = slab[key].slot.state;
    slab[key].slot.state = state;
    was
}

/// Counts one more child of the slot under a key.
fn count_more<T: Copy, A: Allocator>(slab: &mut Slab<StoredSlot<T>, A>, key: usize)
    requires there { ContainsKey slab.old key }
    requires few { (kept : StoredSlot T) → get slab.old key ≡ Some kept → kept.slot.children < 4096 }
    ensures put { (kept : StoredSlot T) → get slab.old key ≡ Some kept → Updates slab.old slab.new key (Some (record kept { slot = record kept.slot { children = kept.slot.children + 1 } })) }
    ensures len { slab_len slab.new ≡ slab_len slab.old }
    ensures capacity { slab.new.capacity ≡ slab.old.capacity }
{
    let children = slab[key].slot.children;
    slab[key].slot.children = children + 1;
}

/// Counts one child less of the slot under a key.
fn count_less<T: Copy, A: Allocator>(slab: &mut Slab<StoredSlot<T>, A>, key: usize)
    requires there { ContainsKey slab.old key }
    requires some { (kept : StoredSlot T) → get slab.old key ≡ Some kept → 1 ≤ kept.slot.children }
    ensures put { (kept : StoredSlot T) → get slab.old key ≡ Some kept → Updates slab.old slab.new key (Some (record kept { slot = record kept.slot { children = kept.slot.children - 1 } })) }
    ensures len { slab_len slab.new ≡ slab_len slab.old }
    ensures capacity { slab.new.capacity ≡ slab.old.capacity }
{
    let children = slab[key].slot.children;
    slab[key].slot.children = children - 1;
}

/// Whether an abort at the frame `under` removes the slot under this key, where those before it that it removes are
/// gone: there is such a slot, and its parent is that frame, or is gone.
fn is_taken<T: Copy, A: Allocator>(slab: &Slab<StoredSlot<T>, A>, under: u64, key: usize) -> bool
    ensures { result ≡ is_taken_in slab.now under (get slab.now key) }
{
    let Some(kept) = slab.get(key) else {
        return false;
    };
    match (kept.slot.parent, kept.above) {
        (Some(parent), Some(above)) => parent == under || !slab.contains(above),
        _ => false,
    }
}

/// Removes from the slab what an abort at the frame `under` removes, in one pass by rising serial from a place on, and
/// appends their values to `removed`: each slot whose parent is that frame, or is gone. Slots before the place aren't
/// looked at.
fn take_under<T: Copy, A: Allocator>(
    slab: &mut Slab<StoredSlot<T>, A>,
    order: &[usize],
    from: usize,
    under: u64,
    removed: &mut Vec<T, A>,
)
    requires here { AllHere slab.old [] order.now }
    requires apart { AreApartKeys order.now }
    requires parents { IsCutAt under (slots_in slab.old order.now) }
    requires within { from ≤ length order.now }
    requires early { Leaves under (slots_in slab.old order.now) (take from order.now) slab.old slab.old }
    requires none { gone_among under (slots_in slab.old order.now) (take from (slots_in slab.old order.now)) ≡ [] }
    requires room { vec_len removed.old + length order.now ≤ vec_capacity removed.old }
    ensures left { Leaves under (slots_in slab.old order.now) order.now slab.old slab.new }
    ensures values { removed.new.items ≡ removed.old.items ++ gone_values under (slots_in slab.old order.now) }
    ensures len { slab_len slab.new + length removed.new.items ≡ slab_len slab.old + length removed.old.items }
    ensures capacity { slab.new.capacity ≡ slab.old.capacity }
    ensures removed_room { vec_capacity removed.new ≡ vec_capacity removed.old }
{
    for at in from..order.len() {
        let key = order[at];
        if is_taken(slab, under, key) {
            let gone = slab.remove(key);
            removed.push_reserved(gone.slot.value);
        }
    }
}

/// Removes the keys that have no slot any more, in one pass from a place on; those before it have theirs.
fn close_up<T: Copy, A: Allocator>(
    slab: &Slab<StoredSlot<T>, A>,
    order: &mut ListWindow<usize, A>,
    from: usize,
)
    requires within { from ≤ length order.old.list }
    requires early { filter (has_slot_under slab.now) (take from order.old.list) ≡ take from order.old.list }
    ensures { order.new ≡ record order.old { list = filter (has_slot_under slab.now) order.old.list } }
{
    let mut kept = from;
    for at in from..order.len() {
        let key = order.at(at);
        if slab.contains(key) {
            order.put(kept, key);
            kept += 1;
        }
    }
    order.truncate(kept);
}
