//! Literals side by side in raw memory. Each function below holds a pointer, and is proved by hand; what they promise is
//! plain, so the pool over them is proved as other code is.
//!
//! A block goes through three types: `Room` is memory in which nothing lies, `Block` is the same memory filled, and
//! `Lease` is the right to give it back, which takes no bytes.
ghost use Rattle.std.specs.Prelude.{◌≡◌, ◌*◌, ◌^◌, ◌<◌, ℕ, List, length, replicate, slice_set, slice_index_or, IfSome};
ghost use denote.RawPtr.{Ptr};
ghost use Rattle.lit_pool.specs.Block.{room_owns, block_owns, block_lends, lease_owns};

use lits::Lit;
use std::alloc::Allocator;
use std::marker::{Model, PhantomData};
use std::mem::{align_of, size_of};
use std::slice;

/// Room for `len` literals at `at`.
pub(crate) struct Room {
    at: *mut Lit,
    len: usize,
    ghost small: { len < 2 ^ 40 },
}

impl Model for Room {
    ghost also_owns = { λ r. room_owns r.at r.len };
}

/// The right to give a block back to the allocator that gave it.
pub(crate) struct Lease<A: Allocator> {
    by: PhantomData<A>,
    ghost alloc: { A },
    ghost at: { Ptr },
    ghost len: { ℕ },
}

impl<A: Allocator> Model for Lease<A> {
    ghost also_owns = { λ l. lease_owns (A.dealloc_token l.alloc) l.at l.len };
}

/// `len` literals at `at`.
pub(crate) struct Block {
    at: *mut Lit,
    len: usize,
    ghost items: { List ℕ },
    ghost long: { (len ≡ length items) × (len < 2 ^ 40) },
}

impl Model for Block {
    ghost also_owns = { λ b. block_owns b.at b.len b.items };

    ghost also_shares = { λ b _ κ. block_lends b.at b.len b.items κ };
}

impl Room {
    /// Room for this many literals, with the right to give it back. None where memory is wanting.
    pub(crate) fn new<A: Allocator>(alloc: &A, len: usize) -> Option<(Room, Lease<A>)>
        requires { len < 2 ^ 40 }
        ensures { IfSome result (λ r. (r.0.len ≡ len) × (r.1.at ≡ r.0.at) × (r.1.len ≡ len) × (r.1.alloc ≡ alloc.now)) }
    {
        match alloc.allocate(len * size_of::<Lit>(), align_of::<Lit>()) {
            Ok(start) => {
                let at = start as *mut Lit;
                Some((Room { at, len }, Lease { by: PhantomData }))
            }
            Err(_) => None,
        }
    }

    /// Puts the literal `x` at each place.
    pub(crate) fn filled(self, x: Lit) -> Block
        ensures at { (result.at ≡ self.at) × (result.len ≡ self.len) }
        ensures items { result.items ≡ replicate self.len x }
    {
        let Room { at, len } = self;
        let mut i = 0;
        while i < len {
            unsafe { at.add(i).write(x) };
            i += 1;
        }
        Block { at, len }
    }
}

impl Block {
    /// The literals.
    pub(crate) fn lits(&self) -> &[Lit]
        ensures { result.now ≡ self.now.items }
    {
        unsafe { slice::from_raw_parts(self.at, self.len) }
    }

    /// Puts `x` at the place `i`.
    pub(crate) fn put(&mut self, i: usize, x: Lit)
        requires { i < length self.old.items }
        ensures at { (self.new.at ≡ self.old.at) × (self.new.len ≡ self.old.len) }
        ensures items { self.new.items ≡ slice_set self.old.items i x }
    {
        unsafe { *self.at.add(i) = x };
    }

    /// Gives the memory back.
    pub(crate) fn free<A: Allocator>(self, lease: Lease<A>, alloc: &A)
        requires { (lease.alloc ≡ alloc.now) × (lease.at ≡ self.at) × (lease.len ≡ self.len) }
    {
        let Block { at, len } = self;
        let Lease { by: _ } = lease;
        unsafe {
            alloc.deallocate(at as *mut u8, len * size_of::<Lit>(), align_of::<Lit>());
        }
    }
}
