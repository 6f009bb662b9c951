// Memory that nothing was written to yet, apart from the block that it is a part of.
ghost use Rattle.std.specs.Prelude.{◌≡◌, ℕ, [], ◌^◌, ◌<◌, ◌≤◌, IfOk};
ghost use denote.RawPtr.{Ptr, InBlock};
ghost use Rattle.page_pieces.specs.Ownership.{room_owns, claim_owns};

use std::alloc::{AllocError, Allocator};
use std::marker::{Model, PhantomData};
use std_alloc::vec::{Lodged, lodge};

/// Room for `len` bytes at `ptr`, which nothing else can reach. It takes no memory of its own.
#[derive(Drop)]
pub(crate) struct Room {
    ghost ptr: { Ptr },
    ghost len: { ℕ },
}

impl Model for Room {
    ghost also_owns = { λ r. room_owns r.ptr r.len };
}

/// The right to free the block of `len` bytes at `ptr`, once its room is back.
pub(crate) struct Claim<A: Allocator> {
    ptr: *mut u8,
    len: usize,
    by: PhantomData<A>,
    ghost alloc: { A },
}

impl<A: Allocator> Model for Claim<A> {
    ghost also_owns = { λ c. claim_owns (A.dealloc_token c.alloc) c.ptr c.len };
}

// Nothing but the right is in it.
unsafe impl<A: Allocator + Send> Send for Claim<A> {}

unsafe impl<A: Allocator + Send> Sync for Claim<A> {}

/// A new block of `len` bytes: where it begins, its room, and the right to free it.
pub(crate) fn reserve<A: Allocator>(
    alloc: &A,
    len: usize,
) -> Result<(*mut u8, Room, Claim<A>), AllocError>
    requires { len < 2 ^ 63 }
    ensures { IfOk result (λ made. InBlock made.0 × (made.1.ptr ≡ made.0) × (made.1.len ≡ len) × (made.2.ptr ≡ made.0) × (made.2.len ≡ len) × (made.2.alloc ≡ alloc.now)) }
{
    match alloc.allocate(len, 1) {
        Ok(ptr) => {
            let by = PhantomData;
            Ok((ptr, Room {}, Claim { ptr, len, by }))
        }
        Err(error) => Err(error),
    }
}

/// Frees a block.
pub(crate) fn release<A: Allocator>(alloc: &A, room: Room, claim: Claim<A>)
    requires { (claim.ptr ≡ room.ptr) × (claim.len ≡ room.len) × (claim.alloc ≡ alloc.now) }
{
    let Room {} = room;
    let Claim { ptr, len, by: _ } = claim;
    unsafe {
        alloc.deallocate(ptr, len, 1);
    }
}

/// An empty `Vec` over the room, which neither grows nor frees it.
pub(crate) fn house(ptr: *mut u8, len: usize, room: Room) -> Vec<u8, Lodged>
    requires { (room.ptr ≡ ptr) × (room.len ≡ len) × (0 < len) × (len < 2 ^ 63) }
    ensures { (result.items ≡ []) × (result.len ≡ 0) × (result.cap ≡ len) × (result.ptr ≡ ptr) }
{
    let Room {} = room;
    unsafe { lodge(ptr, 0, len) }
}

/// The room under such a `Vec`, whatever was written to it.
pub(crate) fn vacate(vec: Vec<u8, Lodged>) -> Room
    requires { 0 < vec.cap }
    ensures { (result.ptr ≡ vec.ptr) × (result.len ≡ vec.cap) }
{
    let _len = vec.dislodge();
    Room {}
}
