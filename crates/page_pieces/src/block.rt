// A block whose pages have several owners. What takes no memory here is ghost state.
ghost use Rattle.std.specs.Prelude.{◌≡◌, ℕ, ◌+◌, ◌*◌, ◌<◌, ◌∷◌, []};
ghost use base.Fml.{ftrue, flft};
ghost use denote.RawPtr.{Ptr, coded_ptr, ◌+ₚ◌};
ghost use denote.Sharing.{one};
ghost use Rattle.cmm_types.specs.declared.page.TheConstants.{PAGE};
ghost use Rattle.page_pieces.specs.Ownership.{block_owns, pages_owns, page_owns, tether_owns};

use crate::room::{Claim, Room, release};
use std::alloc::Allocator;
use std::marker::{Model, Move, Owns};
use std::sync::Arc;

/// A block whose room is out, with the allocator that it is of.
pub(crate) struct Sole<A: Allocator> {
    pub(crate) claim: Claim<A>,
    pub(crate) alloc: A,
    ghost mine: { claim.alloc ≡ alloc },
}

/// Such a block, whose pages are lent until the lifetime `life` ends. A `&` to it shows that `life` lasts.
pub(crate) struct Block<A: Allocator> {
    sole: Sole<A>,
    ghost life: { ℕ },
}

impl<A: Allocator> Model for Block<A> {
    ghost also_owns = { λ b. block_owns b.life b.sole.claim.ptr b.sole.claim.len };

    ghost also_shares = { λ b _. one (λ q. flft (b.life ∷ []) q) };
}

/// The loans of `count` pages, one behind the other from `ptr` on.
#[derive(Drop)]
pub(crate) struct Pages {
    ghost life: { ℕ },
    ghost count: { ℕ },
    ghost ptr: { Ptr },
}

impl Model for Pages {
    ghost also_owns = { λ p. pages_owns p.life p.count p.ptr };
}

/// The loan of the page at `ptr`.
#[derive(Drop)]
pub(crate) struct Page {
    ghost life: { ℕ },
    ghost ptr: { Ptr },
}

impl Model for Page {
    ghost also_owns = { λ p. page_owns p.life p.ptr };
}

/// An owner of a block whose page is out as room. The block can't go until that is back. It is seen as the page's place.
pub(crate) struct Tether<A: Allocator> {
    block: Arc<Block<A>, A>,
}

impl<A: Allocator> Owns for Tether<A> {
    ghost Value = { Ptr };

    ghost coded = { coded_ptr };

    ghost shr_at = { λ _ _ _. ftrue };
}

impl<A: Allocator> Move for Tether<A> {
    ghost own_val = { λ p vs. tether_owns p Inside (λ i. Fields.own_val i vs) };
}

// A `&` to it shows only that a lifetime lasts.
unsafe impl<A: Allocator + Send> Send for Block<A> {}

unsafe impl<A: Allocator + Send + Sync> Sync for Block<A> {}

// A `&` to it shows nothing.
unsafe impl<A: Allocator + Send + Sync> Send for Tether<A> {}

unsafe impl<A: Allocator> Sync for Tether<A> {}

impl<A: Allocator> Block<A> {
    /// Lends all of the room, as pages.
    pub(crate) fn lend(room: Room, sole: Sole<A>, count: usize) -> (Block<A>, Pages)
        requires { (room.ptr ≡ sole.claim.ptr) × (room.len ≡ sole.claim.len) × (room.len ≡ count * PAGE) }
        ensures { (result.1.life ≡ result.0.life) × (result.1.count ≡ count) × (result.1.ptr ≡ room.ptr) }
    {
        let Room {} = room;
        let _ = count;
        (Block { sole }, Pages {})
    }

    /// Ends the loans.
    pub(crate) fn regain(self) -> (Room, Sole<A>)
        ensures { (result.1 ≡ self.sole) × (result.0.ptr ≡ self.sole.claim.ptr) × (result.0.len ≡ self.sole.claim.len) }
    {
        let Block { sole } = self;
        (Room {}, sole)
    }
}

impl<A: Allocator> Drop for Block<A> {
    fn drop(self) {
        let (room, sole) = self.regain();
        let Sole { claim, alloc } = sole;
        release(&alloc, room, claim);
    }
}

impl Pages {
    /// The first page, and those behind it.
    pub(crate) fn cut(self) -> (Page, Pages)
        requires { 0 < self.count }
        ensures { (result.0.life ≡ self.life) × (result.0.ptr ≡ self.ptr) × (result.1.life ≡ self.life) × (result.1.count + 1 ≡ self.count) × (result.1.ptr ≡ self.ptr +ₚ PAGE) }
    {
        let Pages {} = self;
        (Page {}, Pages {})
    }
}

impl<A: Allocator> Tether<A> {
    pub(crate) fn open(block: Arc<Block<A>, A>, page: Page) -> (Room, Tether<A>)
        requires { page.life ≡ block.value.life }
        ensures { (result.0.ptr ≡ page.ptr) × (result.0.len ≡ PAGE) × (result.1 ≡ page.ptr) }
    {
        let Page {} = page;
        (Room {}, Tether { block })
    }

    pub(crate) fn close(self, room: Room) -> (Arc<Block<A>, A>, Page)
        requires { (room.ptr ≡ self) × (room.len ≡ PAGE) }
        ensures { result.1.ptr ≡ self }
    {
        let Room {} = room;
        let Tether { block } = self;
        (block, Page {})
    }
}
