//! The memory of a region of segments: one allocation, in places that each hold a block or nothing yet.
//!
//! Who owns what: a [`Base`] is where the places begin, and owns nothing. A [`Cells`] owns the places
//! and what lies in them, and a `&` or a `&mut` to it is the right to read or to write there. A
//! [`Title`] is the right to give the allocation back. [`allocate`] makes all three, [`deallocate`]
//! takes them, and no other function of the crate holds a pointer than those of this file.
ghost use Rattle.std.specs.Prelude.{◌≡◌, ℕ, ◌<◌, List, Option, Some, None, length, replicate, slice_index_or, slice_set, IfOk, ⊤};
ghost use Rattle.std.specs.Borrow.{sem};
ghost use Rattle.std.specs.Vec.Ownership.{FitsInBlock};
ghost use base.Fml.{ftrue};
ghost use denote.RawPtr.{Ptr};
ghost use Rattle.segment_region.specs.Places.{IsFilled};
ghost use Rattle.segment_region.specs.Ownership.{places_owned, places_lent, title_owned};

use std::alloc::{AllocError, Allocator};
use std::marker::{Model, PhantomData, Send, Sync};
use std::mem::{align_of, size_of};

/// Where the places begin. It owns nothing.
pub struct Base<T> {
    ptr: *mut T,
}

impl<T> Clone for Base<T> {
    ghost is_clone = { λ x y. y ≡ x };

    ghost is_infallible = { λ _. ⊤ };

    /// A copy: it is a mere pointer.
    fn clone(&self) -> Result<Base<T>, AllocError> {
        Ok(*self)
    }
}

impl<T> Copy for Base<T> {}

// It owns nothing that another thread could disturb.
unsafe impl<T> Send for Base<T> {}

unsafe impl<T> Sync for Base<T> {}

/// The owner of the places and of what lies in them.
pub struct Cells<T> {
    mark: PhantomData<*const T>,
    ghost at: { Ptr },
    ghost slots: { List (Option T) },
}

impl<T> Model for Cells<T> {
    ghost also_owns = { λ cells. places_owned T.row cells.at cells.slots };

    ghost also_shares = { λ cells _ κ. places_lent T.row cells.at cells.slots κ };
}

// The cells are their values' owner, so they cross threads where those do.
unsafe impl<T: Send> Send for Cells<T> {}

unsafe impl<T: Sync> Sync for Cells<T> {}

/// The right to give the allocation of `len` places at `at` back to `alloc`.
pub struct Title<T, A: Allocator> {
    mark: PhantomData<*const (T, A)>,
    ghost at: { Ptr },
    ghost len: { ℕ },
    ghost alloc: { A },
}

impl<T, A: Allocator> Model for Title<T, A> {
    ghost also_owns = { λ title. title_owned T.row (A.dealloc_token title.alloc) title.at title.len };

    ghost also_shares = { λ _ _ _. ftrue };
}

unsafe impl<T, A: Allocator + Send> Send for Title<T, A> {}

// A `&` to it gives no right to anything.
unsafe impl<T, A: Allocator> Sync for Title<T, A> {}

/// Takes memory for so many places, all empty. Err where the allocator refuses.
pub(crate) fn allocate<T, A: Allocator>(
    alloc: &A,
    len: usize,
) -> Result<(Base<T>, Cells<T>, Title<T, A>), AllocError>
    requires { FitsInBlock T.row len }
    ensures { IfOk result (λ r. (r.1.at ≡ r.0.ptr) × (r.1.slots ≡ replicate len None) × (r.2.at ≡ r.0.ptr) × (r.2.len ≡ len) × (r.2.alloc ≡ alloc.now)) }
{
    match alloc.allocate(len * size_of::<T>(), align_of::<T>()) {
        Ok(block) => {
            let base = Base {
                ptr: block as *mut T,
            };
            Ok((
                base,
                Cells { mark: PhantomData },
                Title { mark: PhantomData },
            ))
        }
        Err(error) => Err(error),
    }
}

/// Gives the allocation back. What lies in its places is forgotten.
pub(crate) fn deallocate<T, A: Allocator>(
    alloc: &A,
    base: Base<T>,
    len: usize,
    cells: Cells<T>,
    title: Title<T, A>,
)
    requires { (cells.at ≡ base.ptr) × (length cells.slots ≡ len) × (title.at ≡ base.ptr) × (title.len ≡ len) × (title.alloc ≡ alloc.now) }
{
    let Cells { mark: _ } = cells;
    let Title { mark: _ } = title;
    unsafe {
        alloc.deallocate(base.ptr as *mut u8, len * size_of::<T>(), align_of::<T>());
    }
}

impl<T> Cells<T> {
    ghost use Rattle.segment_region.specs.Lends.{LendsPlace};

    /// Writes to a place. What lay in it is forgotten.
    pub(crate) fn write(&mut self, base: Base<T>, index: usize, item: T)
        requires { (base.ptr ≡ self.old.at) × (index < length self.old.slots) }
        ensures { (self.new.at ≡ self.old.at) × (self.new.slots ≡ slice_set self.old.slots index (Some item)) }
    {
        unsafe { base.ptr.add(index).write(item) }
    }

    /// What lies in a place that isn't empty.
    pub(crate) fn get(&self, base: Base<T>, index: usize) -> &T
        requires { (base.ptr ≡ self.now.at) × IsFilled self.now.slots index }
        ensures { slice_index_or self.now.slots index None ≡ Some result.now }
    {
        unsafe { &*base.ptr.add(index) }
    }

    /// What lies in a place that isn't empty, to be written.
    pub(crate) fn get_mut(&mut self, base: Base<T>, index: usize) -> &mut T
        requires { (base.ptr ≡ self.old.at) × IsFilled self.old.slots index }
        ensures* writes_back { sem 𝓛 (LendsPlace T.row self.entry index result) }
        ensures value { slice_index_or self.old.slots index None ≡ Some result.now }
    {
        unsafe { &mut *base.ptr.add(index) }
    }
}
