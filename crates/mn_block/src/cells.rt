//! The owner of a row of words: all raw pointers of this crate are here.
ghost use Rattle.std.specs.Prelude.{◌≡◌, ℕ, List, [], length, replicate, IfSome};
ghost use Rattle.std.specs.Borrow.{Array, full_share, lent_at, sem, u64};
ghost use Rattle.std.specs.Ptr.{Ptr, lies_at, room_for};
ghost use Rattle.mn_block.specs.Ownership.{FitsBlock, words_of};

use std::alloc::{Allocator, Global};
use std::marker::{Model, PhantomData};
use std::slice;

const WORD: usize = 8;

// Memory for `len` words, of which none is written yet.
pub(crate) struct Room {
    ptr: *mut u64,
    len: usize,
    ghost fits: { FitsBlock len },
}

impl Model for Room {
    ghost also_owns = { λ r. room_for (words_of r.len) r.ptr };
}

// The right to free the memory of `len` words at `ptr`. It takes no bytes, and is not `Drop`:
// only `Cells::free` uses it up, so memory that is never freed is a type error.
pub(crate) struct Lease<A: Allocator> {
    marker: PhantomData<A>,
    ghost alloc: { A },
    ghost ptr: { Ptr },
    ghost len: { ℕ },
}

impl<A: Allocator> Model for Lease<A> {
    ghost also_owns = { λ l. A.dealloc_token l.alloc (words_of l.len) l.ptr };
}

// A row of words that are all written. Dropping it forgets the memory and leaves the lease.
#[derive(Drop)]
pub(crate) struct Cells {
    ptr: *mut u64,
    len: usize,
    ghost words: { List ℕ },
    ghost fits: { (len ≡ length words) × FitsBlock len },
}

impl Model for Cells {
    ghost also_owns = { λ c. lies_at (Array u64 c.len) full_share c.ptr c.words };

    ghost also_shares = { λ c _ κ. lent_at (Array u64 c.len) c.ptr c.words κ };
}

impl Room {
    pub(crate) fn new<A: Allocator>(alloc: &A, len: usize) -> Option<(Room, Lease<A>)>
        requires { FitsBlock len }
        ensures { IfSome result (λ r. (r.0.len ≡ len) × (r.1.alloc ≡ alloc.now) × (r.1.ptr ≡ r.0.ptr) × (r.1.len ≡ len)) }
    {
        match alloc.allocate(len * WORD, WORD) {
            Ok(block) => {
                let ptr = block as *mut u64;
                let marker = PhantomData;
                Some((Room { ptr, len }, Lease { marker }))
            }
            Err(_) => None,
        }
    }

    pub(crate) fn zeroed(self) -> Cells
        ensures { (result.words ≡ replicate self.len 0) × (result.ptr ≡ self.ptr) × (result.len ≡ self.len) }
    {
        let Room { ptr, len } = self;
        let mut i = 0;
        while i < len {
            unsafe { *ptr.add(i) = 0 };
            i += 1;
        }
        Cells { ptr, len }
    }
}

impl Cells {
    // A row of no words, which owns no memory.
    pub(crate) fn empty() -> Cells
        ensures { result.words ≡ [] }
    {
        let none: [u64; 0] = [];
        let ptr = &raw const none as *mut u64;
        Cells { ptr, len: 0 }
    }

    pub(crate) fn free<A: Allocator>(self, lease: Lease<A>, alloc: &A)
        requires { (lease.alloc ≡ alloc.now) × (lease.ptr ≡ self.ptr) × (lease.len ≡ self.len) }
    {
        let Cells { ptr, len } = self;
        let Lease { marker: _ } = lease;
        unsafe { alloc.deallocate(ptr as *mut u8, len * WORD, WORD) }
    }

    pub(crate) fn as_slice(&self) -> &[u64]
        ensures { result.now ≡ self.now.words }
    {
        unsafe { slice::from_raw_parts(self.ptr, self.len) }
    }
}

impl Cells {
    ghost use Rattle.mn_block.specs.Cells.{LendsCells};

    pub(crate) fn as_mut_slice(&mut self) -> &mut [u64]
        ensures* writes_back { sem 𝓛 (LendsCells self.entry result) }
        ensures value { result.now ≡ self.old.words }
    {
        unsafe { slice::from_raw_parts_mut(self.ptr, self.len) }
    }
}
