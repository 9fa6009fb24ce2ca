//! The frames of one tenant in the frame table, in the places that were reserved for them.
//!
//! Seen as a tenant, a number of places and a list of frames by rising serial, each with its path.
//! What makes that true: the slots are those of the frames, each with the count of the frame's children,
//! and so are the serials and the ready frames that are listed beside them.
ghost use Rattle.std.specs.Prelude.{◌≡◌, ◌+◌, ◌<◌, ◌≤◌, ◌↔◌, ◌++◌, [], ◌∷◌, true, false, length, vec_len, vec_capacity, IsTrue, IfOk, OnOk, OnErr, IfSome};
ghost use Rattle.frame_table.specs.Slots.{KeepsTree};
ghost use Rattle.frame_table.specs.Frames.{frame_at, has_frame, path_in, root_of, children_of, aborted, frames_under, frames_without, values_of, with_state, ready_frames, AllBelow, entry_of_frame, newest_ready_of, new_frame, one_if_ready, HasValue, has_parent, IsReadyAt, IsTree};

use crate::names::{Entry, FrameId, State};
use crate::ready::{ReadyFrame, ReadyFrames, follow, forget_from, leave, newest};
use crate::serials::{Serials, known_place, place_of};
use crate::slot::Slot;
use crate::slot_store::SlotStore;
use crate::window::ListWindow;
use numbered_list::Numbered;
use std::alloc::{AllocError, Allocator, Global};
use std::marker::Model;

/// The frames of one tenant, each with a value: no more than it has places, of which there are at most
/// 4,096. The frames are in `store`; `serials` and `ready` list all serials and the ready frames, for look-ups.
#[derive(Drop)]
pub struct TenantFrames<T, A: Allocator = Global> {
    tenant: u64,
    store: SlotStore<T, A>,
    serials: Serials<A>,
    ready: ReadyFrames<A>,
}

impl<T, A: Allocator> Model for TenantFrames<T, A> {
    ghost use Rattle.std.specs.Prelude.{[]};
    ghost use Rattle.frame_table.specs.Frames.{TenantTree};
    ghost use Rattle.frame_table.specs.Slots.{frames_from};
    ghost use Rattle.frame_table.specs.Readies.{AreTenantFrames};

    ghost Value = { TenantTree T };

    ghost view = { λ t. record { tenant = t.tenant; places = t.store.places; frames = frames_from [] t.store.slots } };

    ghost invariant = { λ t. AreTenantFrames t.store.slots t.store.places t.serials t.ready };
}

// Lists of trees are ordered and searched by the tenants' numbers.
impl<T: Copy, A: Allocator> Numbered for TenantFrames<T, A> {
    ghost use Rattle.frame_table.specs.Frames.{owner_of_tree};

    ghost number_of = { owner_of_tree };

    /// The number by which a table lists these frames: their tenant's.
    #[inline(always)]
    fn number(&self) -> u64 {
        self.tenant()
    }
}

impl<T: Copy, A: Allocator> TenantFrames<T, A> {
    /// No frames, and places for this many, at most 4,096. Takes memory: `AllocError` only where that is refused.
    pub fn new(alloc: A, tenant: u64, places: usize) -> Result<Self, AllocError>
    where
        A: Clone,
        requires { places ≤ 4096 }
        ensures { IfOk result (λ t. t ≡ record { tenant = tenant; places = places; frames = [] }) }
    {
        let store = SlotStore::new(alloc.clone()?, places)?;
        let serials = ListWindow::new(alloc.clone()?, places)?;
        let ready = ListWindow::new(alloc, places)?;
        Ok(TenantFrames {
            tenant,
            store,
            serials,
            ready,
        })
    }

    /// Raises the number of places to this, at most 4,096. After `new` no other call takes memory. `AllocError` only
    /// where memory is refused; no frame and no place has changed then.
    pub fn raise(&mut self, alloc: A, places: usize) -> Result<(), AllocError>
        requires more { self.old.places ≤ places }
        requires few { places ≤ 4096 }
        ensures ok { OnOk result (self.new ≡ record self.old { places = places }) }
        ensures err { OnErr result (self.new ≡ self.old) }
    {
        self.serials.raise(places)?;
        self.ready.raise(places)?;
        self.store.raise(alloc, places)
    }

    /// The number of the tenant whose frames these are.
    pub fn tenant(&self) -> u64
        ensures { result ≡ self.now.tenant }
    {
        self.tenant
    }

    /// How many frames the tenant has places for.
    pub fn places(&self) -> usize
        ensures { result ≡ self.now.places }
    {
        self.store.places()
    }

    /// How many open frames the tenant has.
    #[tactic(auto, using(crate::proofs::Finds::of_frames))]
    pub fn len(&self) -> usize
        ensures { result ≡ length self.now.frames }
    {
        self.store.len()
    }

    /// How many of the frames are ready. The frames aren't gone over: the ready ones are listed.
    #[tactic(auto, using(crate::proofs::Finds::of_frames))]
    pub fn ready(&self) -> usize
        ensures { result ≡ length (ready_frames self.now.frames) }
    {
        self.ready.len()
    }

    /// The slots in which the tenant's frames are kept.
    pub(crate) fn store(&self) -> &SlotStore<T, A>
        ensures { KeepsTree result.now.slots self.now.frames }
    {
        &self.store
    }

    /// The parent, state and value of a frame; `None` where there is no such frame.
    #[inline(always)]
    #[tactic(auto, using(crate::proofs::Finds::of_frames))]
    pub fn find(&self, serial: u64) -> Option<Entry<T>>
        ensures entry { result ≡ entry_of_frame self.now.tenant (frame_at self.now.frames serial) }
        ensures tree { IsTree self.now.frames }
    {
        match self.store.find(&self.serials, serial) {
            Some(slot) => Some(slot.entry(self.tenant)),
            None => None,
        }
    }

    /// The serial of the root above a frame that is there; the frame's own where it is a root.
    #[tactic(auto, using(crate::proofs::Keys::index_laws))]
    pub fn root(&self, serial: u64) -> u64
        requires { IsTrue (has_frame self.now.frames serial) }
        ensures { result ≡ root_of (path_in self.now.frames serial) }
    {
        let at = known_place(&self.serials, serial);
        self.store.at(at).root
    }

    /// Whether a frame has a child, by a count kept with the frame; false also where there is no such frame.
    #[inline(always)]
    #[tactic(auto, using(crate::proofs::Finds::of_frames))]
    pub fn has_child(&self, serial: u64) -> bool
        ensures child { IsTrue result ↔ (0 < length (children_of self.now.frames serial)) }
        ensures leaf { result ≡ false → children_of self.now.frames serial ≡ [] }
    {
        match self.store.find(&self.serials, serial) {
            Some(slot) => slot.children > 0,
            None => false,
        }
    }

    /// Whether there is a frame with this serial.
    #[tactic(auto, using(crate::proofs::Keys::index_laws))]
    pub fn contains(&self, serial: u64) -> bool
        ensures { result ≡ has_frame self.now.frames serial }
    {
        place_of(&self.serials, serial).is_some()
    }

    /// Whether this serial is greater than every frame's, so that a new frame may have it.
    pub fn exceeds_all(&self, serial: u64) -> bool
        ensures above { IsTrue result → AllBelow serial self.now.frames }
        ensures otherwise { AllBelow serial self.now.frames → IsTrue result }
    {
        let count = self.store.len();
        if count == 0 {
            return true;
        }
        self.store.at(count - 1).serial < serial
    }

    /// The name and the home of the ready frame of the greatest serial; None where none is ready.
    pub fn newest_ready(&self) -> Option<(FrameId, u8)>
        ensures value { result ≡ newest_ready_of self.now.tenant self.now.frames }
        ensures found { IfSome result (λ ready. (ready.0.tenant ≡ self.now.tenant) × IsReadyAt (frame_at self.now.frames ready.0.serial) ready.1) }
    {
        match newest(&self.ready) {
            Some(frame) => {
                let tenant = self.tenant;
                let serial = frame.serial;
                Some((FrameId { tenant, serial }, frame.home))
            }
            None => None,
        }
    }

    /// Adds a frame under this parent, or as a root, ready at this home (a worker, or 0 for the hall). Its serial is
    /// above those of all frames, the parent is there, and a place is free. Takes no memory.
    #[inline(always)]
    #[tactic(auto, using(crate::proofs::Finds::of_frames, crate::proofs::Readies::tenant_laws))]
    pub fn add(&mut self, serial: u64, parent: Option<u64>, home: u8, value: T)
        requires above { AllBelow serial self.old.frames }
        requires parent { has_parent self.old.frames parent ≡ true }
        requires room { length self.old.frames < self.old.places }
        ensures { self.new ≡ record self.old { frames = self.old.frames ++ new_frame self.old.frames serial parent home value ∷ [] } }
    {
        self.store.push(&self.serials, serial, parent, home, value);
        self.serials.push(serial);
        self.ready.push(ReadyFrame { serial, home });
    }

    /// Puts a frame into this state, and returns the state that it was in before.
    #[inline(always)]
    #[tactic(auto, using(crate::proofs::Finds::of_frames))]
    pub fn set_state(&mut self, serial: u64, state: State) -> State
        requires { IsTrue (has_frame self.old.frames serial) }
        ensures frames { self.new ≡ record self.old { frames = with_state serial state self.old.frames } }
        ensures count { length (ready_frames self.new.frames) + one_if_ready result ≡ length (ready_frames self.old.frames) + one_if_ready state }
    {
        let was = self.store.set_state(&self.serials, serial, state);
        follow(&mut self.ready, serial, was, state);
        was
    }

    /// Removes all frames below this one (its children, theirs, and so on); the frame itself stays. Appends their
    /// values, by rising serial, to `removed`, which has room for them. Takes no memory.
    #[tactic(auto, using(crate::proofs::Keys::index_laws))]
    pub fn remove_under(&mut self, serial: u64, removed: &mut Vec<T, A>)
        requires there { IsTrue (has_frame self.old.frames serial) }
        requires room { vec_len removed.old + length self.old.frames ≤ vec_capacity removed.old }
        ensures left { self.new ≡ record self.old { frames = aborted serial self.old.frames } }
        ensures values { removed.new.items ≡ removed.old.items ++ values_of (frames_under serial self.old.frames) }
        ensures capacity { vec_capacity removed.new ≡ vec_capacity removed.old }
    {
        let at = known_place(&self.serials, serial);
        let slot = self.store.at(at);
        if slot.children == 0 {
            return;
        }
        self.store.put(
            at,
            Slot {
                children: 0,
                ..slot
            },
        );
        self.store.cut(at, serial, removed);
        self.serials.truncate(at);
        self.store.add_serials(at, &mut self.serials);
        forget_from(&mut self.ready, serial);
        self.store.add_ready(at, &mut self.ready);
    }

    /// Removes all frames; the number of places stays. Appends the frames' values, by rising serial, to `removed`,
    /// which has room for them. Takes no memory.
    #[tactic(auto, using(crate::proofs::Finds::of_frames))]
    pub fn remove_all(&mut self, removed: &mut Vec<T, A>)
        requires { vec_len removed.old + length self.old.frames ≤ vec_capacity removed.old }
        ensures left { self.new ≡ record self.old { frames = [] } }
        ensures values { removed.new.items ≡ removed.old.items ++ values_of self.old.frames }
        ensures capacity { vec_capacity removed.new ≡ vec_capacity removed.old }
    {
        self.store.clear(removed);
        self.serials.truncate(0);
        self.ready.clear();
    }

    /// Removes a frame that has no child, and returns its state and its value.
    #[inline(always)]
    #[tactic(auto, using(crate::proofs::Keys::index_laws, crate::proofs::Readies::tenant_laws))]
    pub fn remove(&mut self, serial: u64) -> (State, T)
        requires there { IsTrue (has_frame self.old.frames serial) }
        requires leaf { children_of self.old.frames serial ≡ [] }
        ensures left { self.new ≡ record self.old { frames = frames_without serial self.old.frames } }
        ensures value { HasValue (frame_at self.old.frames serial) result.1 }
        ensures count { length (ready_frames self.new.frames) + one_if_ready result.0 ≡ length (ready_frames self.old.frames) }
    {
        let at = known_place(&self.serials, serial);
        let slot = self.store.take(at);
        self.serials.remove(at);
        leave(&mut self.ready, serial, slot.state);
        (slot.state, slot.value)
    }
}
