ghost use Rattle.std.specs.Prelude.{◌≡◌, ◌≤◌, ◌⊎◌, [], length, replicate, vec_capacity, IfOk};
ghost use Rattle.std_alloc.specs.Vec.{vec_ptr};
ghost use Rattle.std.specs.Borrow.{sem};
ghost use Rattle.cmm_types.specs.declared.page.TheConstants.{PAGE};
ghost use Rattle.page_pieces.specs.Shown.{shown};

use crate::block::{Block, Sole, Tether};
use crate::room::{Room, house, reserve, vacate};
use cmm_types::PAGE;
use std::alloc::{AllocError, Global};
use std::marker::Model;
use std::mem;
use std::sync::Arc;
use std_alloc::vec::Lodged;

/// What a piece shows that nobody wrote to.
static ZEROS: [u8; PAGE] = [0; PAGE];

/// `PAGE` bytes of a block. Contracts see it as its bytes. The block is freed with the last of its pieces.
pub struct Piece {
    /// All of the bytes, or none before the first of them is written.
    written: Vec<u8, Lodged>,
    tether: Tether<Global>,
}

impl Model for Piece {
    ghost use Rattle.std.specs.Prelude.{◌≡◌, ◌⊎◌, ℕ, List, [], length, vec_capacity};
    ghost use Rattle.std_alloc.specs.Vec.{vec_ptr};
    ghost use Rattle.cmm_types.specs.declared.page.TheConstants.{PAGE};
    ghost use Rattle.page_pieces.specs.Shown.{shown};

    ghost Value = { List ℕ };

    ghost view = { λ p. shown p.written.items };

    ghost invariant = { λ p. (vec_capacity p.written ≡ PAGE) × (vec_ptr p.written ≡ p.tether) × ((p.written.items ≡ []) ⊎ (length p.written.items ≡ PAGE)) };
}

impl Drop for Piece {
    fn drop(self) {
        let Piece { written, tether } = self;
        drop(tether.close(vacate(written)));
    }
}

/// As many pieces as asked for, holding zeros, of one block. Nothing is written to the block.
pub fn pieces(alloc: Global, count: u32) -> Result<Vec<Piece>, AllocError>
    ensures { IfOk result (λ made. made.items ≡ replicate count (replicate PAGE 0)) }
{
    let mut made = Vec::with_capacity(alloc, count as usize)?;
    let (mut ptr, room, claim) = reserve(&alloc, count as usize * PAGE)?;
    let (block, mut rest) = Block::lend(room, Sole { claim, alloc }, count as usize);
    let Ok(block) = Arc::new(alloc, block) else {
        return Err(AllocError);
    };
    for _ in 0..count {
        let owner = Arc::try_clone(&block)?;
        let (page, behind) = rest.cut();
        let (room, tether) = Tether::open(owner, page);
        made.push_reserved(Piece::over(ptr, room, tether));
        ptr = unsafe { ptr.byte_add(PAGE) };
        rest = behind;
    }
    Ok(made)
}

impl Piece {
    ghost use Rattle.page_pieces.specs.Lending.{LendsPiece};

    /// The piece over this room, which begins at `ptr`.
    fn over(ptr: *mut u8, room: Room, tether: Tether<Global>) -> Piece
        requires { (room.ptr ≡ ptr) × (room.len ≡ PAGE) × (tether ≡ ptr) }
        ensures { result ≡ replicate PAGE 0 }
    {
        Piece {
            written: house(ptr, PAGE, room),
            tether,
        }
    }

    pub fn bytes(&self) -> &[u8]
        ensures bytes { result.now ≡ self.now }
        ensures whole { length result.now ≡ PAGE }
    {
        if self.written.len() == 0 {
            return &ZEROS;
        }
        self.written.as_slice()
    }

    /// The bytes, to be written. No other piece changes with them.
    pub fn bytes_mut(&mut self) -> &mut [u8]
        ensures* writes { sem 𝓛 (LendsPiece self.entry result) }
        ensures bytes { result.now ≡ self.old }
        ensures whole { length result.now ≡ PAGE }
    {
        write_zeros(&mut self.written);
        self.written.as_mut_slice()
    }

    /// Writes all of the bytes, each once.
    pub fn set(&mut self, bytes: &[u8])
        requires { length bytes.now ≡ PAGE }
        ensures { self.new ≡ bytes.now }
    {
        write(&mut self.written, bytes);
    }
}

/// Writes the zeros that are shown where nothing is written.
fn write_zeros(written: &mut Vec<u8, Lodged>)
    requires room { vec_capacity written.old ≡ PAGE }
    requires all_or_none { (written.old.items ≡ []) ⊎ (length written.old.items ≡ PAGE) }
    ensures items { written.new.items ≡ shown written.old.items }
    ensures len { length written.new.items ≡ PAGE }
    ensures capacity { vec_capacity written.new ≡ PAGE }
    ensures in_place { vec_ptr written.new ≡ vec_ptr written.old }
{
    if written.len() == 0 {
        let room = mem::replace(written, Vec::new(Lodged));
        *written = zeroed(room);
    }
}

/// Writes these bytes in place of what was written.
fn write(written: &mut Vec<u8, Lodged>, bytes: &[u8])
    requires room { vec_capacity written.old ≡ PAGE }
    requires whole { length bytes.now ≡ PAGE }
    requires all_or_none { (written.old.items ≡ []) ⊎ (length written.old.items ≡ PAGE) }
    ensures items { written.new.items ≡ bytes.now }
    ensures capacity { vec_capacity written.new ≡ PAGE }
    ensures in_place { vec_ptr written.new ≡ vec_ptr written.old }
{
    if written.len() == 0 {
        let room = mem::replace(written, Vec::new(Lodged));
        *written = copied(room, bytes);
    } else {
        written.as_mut_slice().copy_from_slice(bytes);
    }
}

/// Writes zeros to all of the room. It is handed over and back, so that its length is in no memory meanwhile.
fn zeroed(mut room: Vec<u8, Lodged>) -> Vec<u8, Lodged>
    requires room { vec_capacity room ≡ PAGE }
    requires empty { room.items ≡ [] }
    ensures items { result.items ≡ replicate PAGE 0 }
    ensures capacity { vec_capacity result ≡ PAGE }
    ensures in_place { vec_ptr result ≡ vec_ptr room }
{
    for _ in 0..PAGE {
        room.push_reserved(0);
    }
    room
}

/// Writes these bytes to all of the room.
fn copied(mut room: Vec<u8, Lodged>, bytes: &[u8]) -> Vec<u8, Lodged>
    requires room { vec_capacity room ≡ PAGE }
    requires empty { room.items ≡ [] }
    requires whole { length bytes.now ≡ PAGE }
    ensures items { result.items ≡ bytes.now }
    ensures capacity { vec_capacity result ≡ PAGE }
    ensures in_place { vec_ptr result ≡ vec_ptr room }
{
    for byte in bytes {
        room.push_reserved(*byte);
    }
    room
}
