//! The frame table: each tenant's open frames, in the places that were reserved for them.
//!
//! Seen as a tree for each tenant: `frames_of table tenant`, the frames by rising serial, and
//! `places_of table tenant`, how many places it has. What makes that true: the trees stand by rising
//! number of their tenants, each tree's frames are within its places, the list of removed values has
//! room for as many as any tenant has places, and the count of ready frames is that of all trees.
ghost use Rattle.std.specs.Prelude.{◌≡◌, ◌≢◌, ℕ, ◌+◌, ◌<◌, ◌≤◌, ◌↔◌, ◌++◌, [], ◌∷◌, true, false, length, IsTrue, IsNone, IfOk, IfSome, IfNone, OnOk, OnErr};
ghost use Rattle.std.specs.Borrow.{sem};
ghost use Rattle.frame_table.specs.Frames.{owner_of_tree, frame_at, has_frame, path_in, root_of, children_of, frames_under, frames_without, values_of, with_state, ready_frames, AllBelow, entry_of_frame, newest_ready_of, names_of, new_frame, one_if_ready, HasValue, IsTree, IsReadyAt};
ghost use Rattle.numbered_list.specs.Places.{AreRising};
ghost use Rattle.frame_table.specs.Tables.{frames_of, places_of, tenant_count, KeepsOtherFrames, KeepsOtherTenants, serial_of, IsParentIn, IsTreeOf, HasNoTree, first_ready_of};

use crate::{Children, Entry, FrameId, Frames, State, TenantFrames};
use numbered_list::NumberedList;
use std::alloc::{AllocError, Allocator, Global};
use std::marker::Model;

/// How many tenants can have places at once.
pub const TENANTS: usize = 64;

/// How many places a tenant can have.
pub const PLACES: usize = 4096;

/// The frames of up to 64 tenants, each frame with a value. `trees` has a tree for each tenant with places, by rising
/// number; `removed` is the buffer for the values that `remove_under` and `remove_all` return; `ready` is the number
/// of ready frames of all tenants.
#[derive(Drop)]
pub struct FrameTable<T, A: Allocator = Global> {
    alloc: A,
    trees: NumberedList<TenantFrames<T, A>, A>,
    removed: Vec<T, A>,
    ready: usize,
}

impl<T, A: Allocator> Model for FrameTable<T, A> {
    ghost use Rattle.std.specs.Prelude.{List, vec_capacity};
    ghost use Rattle.frame_table.specs.Frames.{TenantTree};
    ghost use Rattle.frame_table.specs.Tables.{IsSoundTable};

    ghost Value = { List (TenantTree T) };

    ghost view = { λ t. t.trees };

    ghost invariant = { λ t. IsSoundTable t.trees (vec_capacity t.removed) t.ready };
}

impl<T: Copy, A: Allocator> FrameTable<T, A> {
    ghost use Rattle.frame_table.specs.Ending.{EndsAborted, EndsEmptied};

    /// A table with no tenant. Takes memory for 64 trees: `AllocError` only where that is refused.
    pub fn new(alloc: A) -> Result<Self, AllocError>
    where
        A: Clone,
        ensures count { IfOk result (λ table. tenant_count table ≡ 0) }
        ensures frames { IfOk result (λ table. (tenant : ℕ) → frames_of table tenant ≡ []) }
        ensures places { IfOk result (λ table. (tenant : ℕ) → places_of table tenant ≡ 0) }
    {
        let trees = NumberedList::new(alloc.clone()?)?;
        let removed = Vec::new(alloc.clone()?);
        Ok(FrameTable {
            alloc,
            trees,
            removed,
            ready: 0,
        })
    }

    /// How many tenants have places in the table.
    pub fn tenant_count(&self) -> usize
        ensures { result ≡ tenant_count self.now }
    {
        self.trees.len()
    }

    /// How many places a tenant has; 0 where none were reserved.
    pub fn places(&self, tenant: u64) -> usize
        ensures places { result ≡ places_of self.now tenant }
        ensures none { result ≡ 0 → frames_of self.now tenant ≡ [] }
    {
        match self.tree(tenant) {
            Some(tree) => tree.places(),
            None => 0,
        }
    }

    /// How many frames a tenant has; 0 also where it has no places.
    pub fn frame_count(&self, tenant: u64) -> usize
        ensures { result ≡ length (frames_of self.now tenant) }
    {
        match self.tree(tenant) {
            Some(tree) => tree.len(),
            None => 0,
        }
    }

    /// Whether a tenant has no frame; true also where it has no places.
    pub fn is_empty(&self, tenant: u64) -> bool
        ensures some { result ≡ false → 0 < length (frames_of self.now tenant) }
        ensures none { IsTrue result → frames_of self.now tenant ≡ [] }
    {
        self.frame_count(tenant) == 0
    }

    /// How many of a tenant's frames are ready; 0 also where it has no places. The frames aren't gone over.
    pub fn ready_count(&self, tenant: u64) -> usize
        ensures { result ≡ length (ready_frames (frames_of self.now tenant)) }
    {
        match self.tree(tenant) {
            Some(tree) => tree.ready(),
            None => 0,
        }
    }

    /// The parent, state and value of a frame; `None` where there is no such frame.
    #[inline(always)]
    pub fn find(&self, f: FrameId) -> Option<Entry<T>>
        ensures entry { result ≡ entry_of_frame f.tenant (frame_at (frames_of self.now f.tenant) f.serial) }
        ensures tree { IsTree (frames_of self.now f.tenant) }
    {
        match self.guessed_tree(f.tenant) {
            Some(tree) => tree.find(f.serial),
            None => self.search_tree(f.tenant)?.find(f.serial),
        }
    }

    /// Whether a frame of this name is in the table.
    pub fn contains(&self, f: FrameId) -> bool
        ensures { IsTrue result ↔ IsTrue (has_frame (frames_of self.now f.tenant) f.serial) }
    {
        match self.tree(f.tenant) {
            Some(tree) => tree.contains(f.serial),
            None => false,
        }
    }

    /// Whether `add` may be called with this name under this parent (None: as a root): the serial is above
    /// those of the tenant's frames, the parent is one of them, and a place is left.
    #[tactic(auto, using(crate::proofs::Tenants::change_laws))]
    pub fn can_add(&self, f: FrameId, parent: Option<FrameId>) -> bool
        ensures above { IsTrue result → AllBelow f.serial (frames_of self.now f.tenant) }
        ensures parent { IsTrue result → IsParentIn (frames_of self.now f.tenant) f.tenant parent }
        ensures room { IsTrue result → length (frames_of self.now f.tenant) < places_of self.now f.tenant }
        ensures otherwise { AllBelow f.serial (frames_of self.now f.tenant) → IsParentIn (frames_of self.now f.tenant) f.tenant parent
            → length (frames_of self.now f.tenant) < places_of self.now f.tenant → IsTrue result }
    {
        match self.tree(f.tenant) {
            Some(tree) => {
                may_follow(tree, f.tenant, parent)
                    && tree.len() < tree.places()
                    && tree.exceeds_all(f.serial)
            }
            None => false,
        }
    }

    /// The root above a frame that is there; the frame itself where it is a root.
    pub fn root(&self, f: FrameId) -> FrameId
        requires { IsTrue (has_frame (frames_of self.now f.tenant) f.serial) }
        ensures { result ≡ record { tenant = f.tenant; serial = root_of (path_in (frames_of self.now f.tenant) f.serial) } }
    {
        match self.tree(f.tenant) {
            Some(tree) => FrameId {
                tenant: f.tenant,
                serial: tree.root(f.serial),
            },
            None => unreachable!(),
        }
    }

    /// Whether a frame has a child, by its count of children; false also where there is no such frame.
    #[inline(always)]
    pub fn has_child(&self, f: FrameId) -> bool
        ensures child { IsTrue result ↔ (0 < length (children_of (frames_of self.now f.tenant) f.serial)) }
        ensures leaf { result ≡ false → children_of (frames_of self.now f.tenant) f.serial ≡ [] }
    {
        match self.guessed_tree(f.tenant) {
            Some(tree) => tree.has_child(f.serial),
            None => match self.search_tree(f.tenant) {
                Some(tree) => tree.has_child(f.serial),
                None => false,
            },
        }
    }

    /// A tenant's tree; None where the tenant has no places.
    #[tactic(auto, using(crate::proofs::Tenants::found_some, crate::proofs::Tenants::found_none, crate::proofs::Tenants::found_fits))]
    fn tree(&self, tenant: u64) -> Option<&TenantFrames<T, A>>
        ensures found { IfSome result (λ tree. IsTreeOf self.now tenant tree.now) }
        ensures none { IfNone result (HasNoTree self.now tenant) }
        ensures some { IfSome result (λ tree. 1 ≤ tree.now.places) }
    {
        self.trees.get(tenant)
    }

    /// A tenant's tree, if it stands where the list guesses; None says nothing, as the tree may stand elsewhere.
    /// `find` and `has_child` inline this and call `search_tree` after None: were the search inlined too, what it
    /// finds would be tested twice.
    #[inline(always)]
    #[tactic(auto, using(crate::proofs::Tenants::guess_found))]
    fn guessed_tree(&self, tenant: u64) -> Option<&TenantFrames<T, A>>
        ensures { IfSome result (λ tree. IsTreeOf self.now tenant tree.now) }
    {
        self.trees.guessed(tenant)
    }

    /// A tenant's tree, searched for where the guess is wrong; None where the tenant has no places.
    #[cold]
    #[inline(never)]
    fn search_tree(&self, tenant: u64) -> Option<&TenantFrames<T, A>>
        ensures found { IfSome result (λ tree. IsTreeOf self.now tenant tree.now) }
        ensures none { IfNone result (HasNoTree self.now tenant) }
    {
        self.tree(tenant)
    }

    /// The names of a frame's children, by rising serial; none where there is no such frame.
    #[tactic(auto, using(crate::proofs::Tenants::frames_found))]
    pub fn children(&self, f: FrameId) -> Children<'_, T, A>
        ensures { result ≡ names_of f.tenant (children_of (frames_of self.now f.tenant) f.serial) }
    {
        Children::of_parent(f, self.tree(f.tenant))
    }

    /// The names of a tenant's frames, by rising serial; none where it has no places.
    #[tactic(auto, using(crate::proofs::Tenants::frames_found))]
    pub fn frames(&self, tenant: u64) -> Frames<'_, T, A>
        ensures names { result ≡ names_of tenant (frames_of self.now tenant) }
        ensures tree { IsTree (frames_of self.now tenant) }
    {
        Frames::of(tenant, self.tree(tenant))
    }

    /// A tenant's ready frame of the greatest serial, with its home; `None` where none is ready.
    pub fn newest_ready(&self, tenant: u64) -> Option<(FrameId, u8)>
        ensures { result ≡ newest_ready_of tenant (frames_of self.now tenant) }
    {
        match self.tree(tenant) {
            Some(tree) => tree.newest_ready(),
            None => None,
        }
    }

    /// A ready frame of some tenant, with its home; `None` exactly where none is ready, which a count tells without a
    /// search.
    pub fn any_ready(&self) -> Option<(FrameId, u8)>
        ensures found { IfSome result (λ ready. IsReadyAt (frame_at (frames_of self.now ready.0.tenant) ready.0.serial) ready.1) }
        ensures none { IsNone result ↔ ((tenant : ℕ) → ready_frames (frames_of self.now tenant) ≡ []) }
    {
        if self.ready == 0 {
            return None;
        }
        first_ready(self.trees.as_slice())
    }

    /// Gives a tenant places for this many frames, 1 to 4,096 and no fewer than it has. A tenant without places gets
    /// some only while fewer than 64 tenants have any. (It is the tenant's number of segments: a frame takes at least
    /// one.) Takes memory, also for the values that `remove_under` and `remove_all` give; after `new` no other call
    /// does. `AllocError` only where memory is refused; no frame and no place has changed then.
    pub fn reserve(&mut self, tenant: u64, segments: usize) -> Result<(), AllocError>
    where
        A: Clone,
        requires more { places_of self.old tenant ≤ segments }
        requires free { places_of self.old tenant ≡ 0 → tenant_count self.old < TENANTS }
        requires some { 1 ≤ segments }
        requires few { segments ≤ PLACES }
        ensures places { OnOk result (places_of self.new tenant ≡ segments) }
        ensures frames { OnOk result (frames_of self.new tenant ≡ frames_of self.old tenant) }
        ensures none { places_of self.old tenant ≡ 0 → frames_of self.old tenant ≡ [] }
        ensures kept { OnOk result (KeepsOtherTenants self.old self.new tenant) }
        ensures one_more { OnOk result (places_of self.old tenant ≡ 0 → tenant_count self.new ≡ tenant_count self.old + 1) }
        ensures as_many { OnOk result (0 < places_of self.old tenant → tenant_count self.new ≡ tenant_count self.old) }
        ensures err { OnErr result (self.new ≡ self.old) }
    {
        if self.places(tenant) == 0 {
            self.reserve_first(tenant, segments)
        } else {
            self.reserve_more(tenant, segments)
        }
    }

    /// Makes this many places for a tenant that has none. Where memory is refused no place has changed.
    fn reserve_first(&mut self, tenant: u64, segments: usize) -> Result<(), AllocError>
    where
        A: Clone,
        requires fresh { places_of self.old tenant ≡ 0 }
        requires free { tenant_count self.old < TENANTS }
        requires some { 1 ≤ segments }
        requires few { segments ≤ PLACES }
        ensures places { OnOk result (places_of self.new tenant ≡ segments) }
        ensures frames { OnOk result (frames_of self.new tenant ≡ []) }
        ensures kept { OnOk result (KeepsOtherTenants self.old self.new tenant) }
        ensures count { OnOk result (tenant_count self.new ≡ tenant_count self.old + 1) }
        ensures err { OnErr result (self.new ≡ self.old) }
    {
        let alloc = self.alloc.clone()?;
        self.removed.clear();
        self.removed.reserve(segments)?;
        let tree = TenantFrames::new(alloc, tenant, segments)?;
        self.trees.insert(tree);
        Ok(())
    }

    /// Raises the number of places of a tenant that has some to this. Where memory is refused no place has changed.
    #[tactic(auto, using(crate::proofs::Tenants::change_laws))]
    fn reserve_more(&mut self, tenant: u64, segments: usize) -> Result<(), AllocError>
    where
        A: Clone,
        requires there { 0 < places_of self.old tenant }
        requires more { places_of self.old tenant ≤ segments }
        requires few { segments ≤ PLACES }
        ensures places { OnOk result (places_of self.new tenant ≡ segments) }
        ensures frames { OnOk result (frames_of self.new tenant ≡ frames_of self.old tenant) }
        ensures kept { OnOk result (KeepsOtherTenants self.old self.new tenant) }
        ensures count { OnOk result (tenant_count self.new ≡ tenant_count self.old) }
        ensures err { OnErr result (self.new ≡ self.old) }
    {
        let alloc = self.alloc.clone()?;
        self.removed.clear();
        self.removed.reserve(segments)?;
        let tree = self.trees.get_mut(tenant);
        tree.raise(alloc, segments)?;
        Ok(())
    }

    /// Removes a tenant that has no frame, with its places.
    pub fn release(&mut self, tenant: u64)
        requires there { 0 < places_of self.old tenant }
        requires empty { frames_of self.old tenant ≡ [] }
        ensures places { places_of self.new tenant ≡ 0 }
        ensures frames { frames_of self.new tenant ≡ [] }
        ensures kept { KeepsOtherTenants self.old self.new tenant }
        ensures count { tenant_count self.new + 1 ≡ tenant_count self.old }
    {
        self.trees.remove(tenant);
    }

    /// Adds a frame under this parent, or as a root, ready at this home (a worker, or 0 for the hall). What `can_add`
    /// tests must be true. Takes no memory.
    #[inline(always)]
    #[tactic(auto, using(crate::proofs::Tenants::change_laws))]
    pub fn add(&mut self, f: FrameId, parent: Option<FrameId>, home: u8, value: T)
        requires above { AllBelow f.serial (frames_of self.old f.tenant) }
        requires parent { IsParentIn (frames_of self.old f.tenant) f.tenant parent }
        requires room { length (frames_of self.old f.tenant) < places_of self.old f.tenant }
        ensures frames { frames_of self.new f.tenant ≡ frames_of self.old f.tenant ++ new_frame (frames_of self.old f.tenant) f.serial (serial_of parent) home value ∷ [] }

        // Of the tenant's other serials the same are there as before: no removed frame comes back.
        ensures others { (serial : ℕ) → serial ≢ f.serial → has_frame (frames_of self.new f.tenant) serial ≡ has_frame (frames_of self.old f.tenant) serial }
        ensures kept { KeepsOtherFrames self.old self.new f.tenant }
    {
        let above = parent_serial(parent);
        let tree = self.trees.get_mut(f.tenant);
        tree.add(f.serial, above, home, value);
        self.ready += 1;
    }

    /// Puts a frame that is there into this state; no other frame changes.
    #[inline(always)]
    #[tactic(auto, using(crate::proofs::Tenants::change_laws))]
    pub fn set_state(&mut self, f: FrameId, state: State)
        requires { IsTrue (has_frame (frames_of self.old f.tenant) f.serial) }
        ensures frames { frames_of self.new f.tenant ≡ with_state f.serial state (frames_of self.old f.tenant) }
        ensures kept { KeepsOtherFrames self.old self.new f.tenant }
    {
        let tree = self.trees.get_mut(f.tenant);
        let was = tree.set_state(f.serial, state);
        self.ready = recount(self.ready, was, state);
    }

    /// Removes all frames below this one (its children, theirs, and so on); the frame itself stays. Returns the
    /// removed frames' values, by rising serial. Takes no memory.
    #[tactic(auto, using(crate::proofs::Tenants::change_laws))]
    pub fn remove_under(&mut self, f: FrameId) -> &[T]
        requires { IsTrue (has_frame (frames_of self.old f.tenant) f.serial) }
        ensures* ends { sem 𝓛 (EndsAborted T.row A.row A.Allocator self.entry f) }
        ensures values { result.now ≡ values_of (frames_under f.serial (frames_of self.old f.tenant)) }
    {
        let tree = self.trees.get_mut(f.tenant);
        let before = tree.ready();
        self.removed.clear();
        tree.remove_under(f.serial, &mut self.removed);
        self.ready = self.ready - before + tree.ready();
        self.removed.as_slice()
    }

    /// Removes all frames of a tenant; it has as many places as before. Returns the removed frames' values, by rising
    /// serial. Takes no memory.
    #[tactic(auto, using(crate::proofs::Tenants::change_laws))]
    pub fn remove_all(&mut self, tenant: u64) -> &[T]
        requires { 0 < places_of self.old tenant }
        ensures* ends { sem 𝓛 (EndsEmptied T.row A.row A.Allocator self.entry tenant) }
        ensures values { result.now ≡ values_of (frames_of self.old tenant) }
    {
        let tree = self.trees.get_mut(tenant);
        let before = tree.ready();
        self.removed.clear();
        tree.remove_all(&mut self.removed);
        self.ready -= before;
        self.removed.as_slice()
    }

    /// Removes a frame that has no child, and returns its value.
    #[inline(always)]
    #[tactic(auto, using(crate::proofs::Tenants::change_laws))]
    pub fn remove(&mut self, f: FrameId) -> T
        requires there { IsTrue (has_frame (frames_of self.old f.tenant) f.serial) }
        requires leaf { children_of (frames_of self.old f.tenant) f.serial ≡ [] }
        ensures frames { frames_of self.new f.tenant ≡ frames_without f.serial (frames_of self.old f.tenant) }
        ensures value { HasValue (frame_at (frames_of self.old f.tenant) f.serial) result }
        ensures kept { KeepsOtherFrames self.old self.new f.tenant }
    {
        let tree = self.trees.get_mut(f.tenant);
        let (was, value) = tree.remove(f.serial);
        self.ready = recount(self.ready, was, State::Returned);
        value
    }
}

/// The serial of a parent; None without a parent.
fn parent_serial(parent: Option<FrameId>) -> Option<u64>
    ensures { result ≡ serial_of parent }
{
    match parent {
        Some(name) => Some(name.serial),
        None => None,
    }
}

/// Whether this may be the parent of a new frame of the tenant: None (the frame is a root), or a frame in the
/// tenant's tree.
fn may_follow<T: Copy, A: Allocator>(
    tree: &TenantFrames<T, A>,
    tenant: u64,
    parent: Option<FrameId>,
) -> bool
    ensures parent { IsTrue result → IsParentIn tree.now.frames tenant parent }
    ensures otherwise { IsParentIn tree.now.frames tenant parent → IsTrue result }
{
    match parent {
        Some(name) => name.tenant == tenant && tree.contains(name.serial),
        None => true,
    }
}

/// How many frames are ready after one went from state `was` to state `now`; before, `ready` were.
#[inline(always)]
fn recount(ready: usize, was: State, now: State) -> usize
    requires few { ready ≤ 262144 }
    requires counted { one_if_ready was ≤ ready + one_if_ready now }
    ensures { result + one_if_ready was ≡ ready + one_if_ready now }
{
    let mut count = ready;
    if now.is_ready() {
        count += 1;
    }
    if was.is_ready() {
        count -= 1;
    }
    count
}

/// Of the first tenant that has a ready frame, the one of the greatest serial, with its home; None where none is
/// ready.
fn first_ready<T: Copy, A: Allocator>(trees: &[TenantFrames<T, A>]) -> Option<(FrameId, u8)>
    requires { AreRising owner_of_tree trees.now }
    ensures value { result ≡ first_ready_of trees.now }
    ensures found { IfSome result (λ ready. IsReadyAt (frame_at (frames_of trees.now ready.0.tenant) ready.0.serial) ready.1) }
{
    for tree in trees {
        if tree.ready() > 0 {
            return tree.newest_ready();
        }
    }
    None
}
