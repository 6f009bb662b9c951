// The pages of all guests with their frames, and the hand, and what the host does to them.
ghost use Rattle.std.specs.Prelude.{◌≡◌, ◌<◌, ◌+◌, ◌≤◌, ℕ, [], All, length, take, drop, true, false, Some, Ok, is_ok, IfOk, vec_len, vec_capacity};
ghost use Rattle.cmm_types.specs.declared.page.TheConstants.{PAGE};
ghost use Rattle.cmm_types.specs.declared.plan.TheConstants.{MAX_FRAMES, MAX_TOTAL_PAGES};
ghost use Rattle.cmm_types.specs.declared.page.Move.TheVariants.{Preserve, Bring};
ghost use Rattle.essa_state.specs.StateWord.{is_permitted, is_resident, is_preserved, is_zero};
ghost use Rattle.essa_state.specs.Moves.{move_answer, discard_answer, preserve_answer};
ghost use Rattle.essa_state.specs.Orders.{after_order};
ghost use Rattle.essa_state.specs.PageBody.{frame_bytes};
ghost use Rattle.page_arena.specs.FrameView.{IsOf, missing};
ghost use Rattle.host_plain.specs.MemoryState.{IsMemory, IsPage, word_at, body_at, with_word, with_use, stored_at, old_of, resident_of, opening_memory};
ghost use Rattle.host_plain.specs.Eviction.{words_passed, passed_by, discarded_at, moved_page, reclaimed_page, evicted_at, frame_freed};
ghost use Rattle.host_plain.specs.Touches.{touched_page, zeroed_at, frame_filled, filled_after};
ghost use Rattle.host_plain.specs.Keeping.{HostKeeps};
ghost use Rattle.host_plain.specs.HostMoves.{allowed_move, applied, reclaimed};

use crate::bodies::Bodies;
use crate::moves::{ApplyError, Reclaim};
use crate::words::Words;
use cmm_io::Failed;
use cmm_pager::{MemBlock, MemPager};
use cmm_storage::Trap;
use cmm_types::{Content, MAX_FRAMES, MAX_TOTAL_PAGES, Move};
use essa_state::{Fields, Old, Order, Word, apply_order, host_move, reclaiming_move};
use page_arena::{Frame, Region};
use std::alloc::{AllocError, Global};
use std::marker::Model;

#[derive(Drop)]
pub struct Memory {
    words: Words,
    bodies: Bodies,
    hand: usize,
}

impl Model for Memory {
    ghost use Rattle.std.specs.Prelude.{length};
    ghost use Rattle.host_plain.specs.MemoryState.{MemoryState, IsMemory};
    ghost use Rattle.host_plain.specs.Bodies.{memory_of};

    ghost Value = { MemoryState };

    ghost view = { λ m. memory_of m.words m.bodies m.hand };

    ghost invariant = { λ m. IsMemory (memory_of m.words m.bodies m.hand) };
}

// How many words the hand passes on its way to the victim.
fn words_passed(words: &Words, hand: usize, place: usize) -> usize
    requires hand { hand < length words.now }
    requires place { place < length words.now }
    ensures passed { result ≡ words_passed words.now hand place }
    ensures most { result ≤ length words.now }
{
    if words.get(place).referenced() {
        words.len()
    } else if place < hand {
        place + (words.len() - hand)
    } else {
        place - hand
    }
}

// The word after a move that its table allows.
fn moved(word: Word, action: Move) -> Word
    requires { is_ok (move_answer word action) ≡ true }
    ensures { move_answer word action ≡ Ok result }
{
    match host_move(word, action) {
        Ok(moved) => moved,
        Err(_) => unreachable!(),
    }
}

impl Memory {
    /// Unused pages without contents, one with each block, and `frames` frames, which are all free.
    pub fn open(alloc: Global, blocks: Vec<MemBlock>, frames: u32) -> Result<Memory, AllocError>
        requires some_pages { 0 < length blocks.items }
        requires most_pages { length blocks.items ≤ MAX_TOTAL_PAGES }
        requires some_frames { 0 < frames }
        requires most_frames { frames ≤ MAX_FRAMES }
        ensures memory { IfOk result (λ memory. memory ≡ opening_memory blocks.items frames) }
        ensures sound { IfOk result (λ memory. IsMemory memory) }
    {
        Ok(Memory {
            words: Words::open(alloc, blocks.len())?,
            bodies: Bodies::open(alloc, blocks, frames)?,
            hand: 0,
        })
    }

    /// The region, and all its frames. It takes no memory.
    pub fn into_frames(self) -> (Region, Vec<Frame>)
        ensures count { result.0.count ≡ self.frames }
        ensures len { length result.1.items ≡ self.frames }
        ensures of_region { All (IsOf result.0) result.1.items }
        ensures all { missing result.0.count result.1.items ≡ [] }
    {
        self.bodies.into_frames()
    }

    pub fn words(&self) -> &[Word]
        ensures { result.now ≡ self.now.words }
    {
        self.words.as_slice()
    }

    /// How many pages are resident.
    pub fn resident(&self) -> usize
        ensures count { result ≡ resident_of self.now.words }
        ensures most { result ≤ self.now.frames }
    {
        self.bodies.framed()
    }

    pub fn fields(&self, place: usize) -> Fields
        requires { place < length self.now.words }
        ensures word { result ≡ word_at self.now place }
        ensures page { IsPage result (body_at self.now place) }
    {
        self.words.get(place).fields()
    }

    /// Sets the page's word, which is resident exactly where it was.
    pub fn set_fields(&mut self, place: usize, fields: Fields)
        requires place { place < length self.old.words }
        requires permitted { is_permitted fields ≡ true }
        requires resident { is_resident fields.content ≡ is_resident (word_at self.old place).content }
        ensures { self.new ≡ with_word self.old place fields }
    {
        self.words.set(place, Word::new(fields));
    }

    /// Gives an order on the page.
    pub fn order(&mut self, place: usize, code: Order) -> Old
        requires { place < length self.old.words }
        ensures old { result ≡ old_of (word_at self.old place) code }
        ensures memory { self.new ≡ with_word self.old place (after_order (word_at self.old place) code) }
    {
        let (word, old) = apply_order(self.words.get(place), code);
        self.words.set(place, word);
        old
    }

    pub fn fetch(&self, place: usize, off: usize, into: &mut [u8])
        requires place { place < length self.now.words }
        requires resident { is_resident (word_at self.now place).content ≡ true }
        requires within { off + length into.old ≤ PAGE }
        ensures { into.new ≡ take (length into.old) (drop off (frame_bytes (body_at self.now place))) }
    {
        self.bodies.fetch(place, off, into);
    }

    /// Writes bytes of the page, and sets its change bit.
    pub fn store(&mut self, place: usize, off: usize, from: &[u8])
        requires place { place < length self.old.words }
        requires resident { is_resident (word_at self.old place).content ≡ true }
        requires within { off + length from.now ≤ PAGE }
        ensures { self.new ≡ stored_at self.old place off from.now }
    {
        self.bodies.store(place, off, from);
        let word = self.words.get(place);
        let changed = Word::new(Fields {
            changed: true,
            ..word.fields()
        });
        self.words.set(place, changed);
    }

    // Notes that the resident page is used.
    fn use_page(&mut self, place: usize)
        requires place { place < length self.old.words }
        requires resident { is_resident (word_at self.old place).content ≡ true }
        ensures { self.new ≡ with_use self.old place }
    {
        let word = self.words.get(place);
        let changed = Word::new(Fields {
            referenced: true,
            ..word.fields()
        });
        self.words.set(place, changed);
    }

    fn discard(&mut self, place: usize)
        requires place { place < length self.old.words }
        requires allowed { is_ok (discard_answer (word_at self.old place)) ≡ true }
        ensures { self.new ≡ discarded_at self.old place }
    {
        let word = self.words.get(place);
        self.words.set(place, moved(word, Move::Discard));
        self.bodies.discard(place);
    }

    fn preserve(&mut self, place: usize, pager: &mut MemPager) -> Result<(), Failed>
        requires place { place < length self.old.words }
        requires allowed { is_ok (preserve_answer (word_at self.old place)) ≡ true }
        ensures done { is_ok result ≡ (moved_page Preserve self.old place pager.old).done }
        ensures memory { self.new ≡ (moved_page Preserve self.old place pager.old).memory }
        ensures pager { pager.new ≡ (moved_page Preserve self.old place pager.old).pager }
    {
        match self.bodies.preserve(place, pager) {
            Ok(()) => {
                let word = self.words.get(place);
                self.words.set(place, moved(word, Move::Preserve));
                Ok(())
            }
            Err(failed) => Err(failed),
        }
    }

    // Gets a preserved page back into a free frame.
    fn bring(&mut self, place: usize, pager: &mut MemPager) -> Result<(), Failed>
        requires place { place < length self.old.words }
        requires preserved { is_preserved (word_at self.old place).content ≡ true }
        requires frame { 0 < self.old.free }
        ensures done { is_ok result ≡ (moved_page Bring self.old place pager.old).done }
        ensures memory { self.new ≡ (moved_page Bring self.old place pager.old).memory }
        ensures pager { pager.new ≡ (moved_page Bring self.old place pager.old).pager }
    {
        match self.bodies.bring(place, pager) {
            Ok(()) => {
                let word = self.words.get(place);
                self.words.set(place, moved(word, Move::Bring));
                Ok(())
            }
            Err(failed) => Err(failed),
        }
    }

    // Gives a page without contents a free frame of zeros.
    fn fill_zeros(&mut self, place: usize)
        requires place { place < length self.old.words }
        requires zero { is_zero (word_at self.old place).content ≡ true }
        requires frame { 0 < self.old.free }
        ensures { self.new ≡ zeroed_at self.old place }
    {
        self.bodies.fill(place);
        let word = self.words.get(place);
        let changed = Word::new(Fields {
            content: Content::Resident,
            ..word.fields()
        });
        self.words.set(place, changed);
    }

    // Ages what the hand passes, and moves the hand.
    fn pass(&mut self, place: usize, hand: usize)
        requires place { place < length self.old.words }
        requires hand { hand < length self.old.words }
        ensures { self.new ≡ passed_by self.old (place, hand) }
    {
        let count = words_passed(&self.words, self.hand, place);
        self.words.age(self.hand, count);
        self.hand = hand;
    }

    // The move by which the frame of a resident page is got.
    #[tactic(auto, unfolding(crate::specs::Eviction::reclaimed_page))]
    fn reclaim_page(&mut self, place: usize, pager: &mut MemPager) -> Result<(), Failed>
        requires place { place < length self.old.words }
        requires resident { is_resident (word_at self.old place).content ≡ true }
        ensures done { is_ok result ≡ (reclaimed_page self.old place pager.old).done }
        ensures memory { self.new ≡ (reclaimed_page self.old place pager.old).memory }
        ensures pager { pager.new ≡ (reclaimed_page self.old place pager.old).pager }
    {
        match reclaiming_move(self.words.get(place)) {
            Move::Discard => {
                self.discard(place);
                Ok(())
            }
            Move::Preserve => self.preserve(place, pager),
            Move::Bring | Move::Age => unreachable!(),
        }
    }

    // Takes the victim's frame.
    #[tactic(auto, unfolding(crate::specs::Eviction::passed_by))]
    fn evict_at(&mut self, place: usize, hand: usize, pager: &mut MemPager) -> Result<(), Failed>
        requires place { place < length self.old.words }
        requires hand { hand < length self.old.words }
        requires resident { is_resident (word_at self.old place).content ≡ true }
        ensures done { is_ok result ≡ (evicted_at self.old (Some (place, hand)) pager.old).done }
        ensures memory { self.new ≡ (evicted_at self.old (Some (place, hand)) pager.old).memory }
        ensures pager { pager.new ≡ (evicted_at self.old (Some (place, hand)) pager.old).pager }
    {
        self.pass(place, hand);
        self.reclaim_page(place, pager)
    }

    // Sees to it that a frame is free. It fails where the pager does, and where no page could be taken.
    #[tactic(auto, unfolding(crate::specs::Eviction::frame_freed, crate::specs::Eviction::evicted))]
    fn free_frame(&mut self, pager: &mut MemPager) -> Result<(), Failed>
        ensures done { is_ok result ≡ (frame_freed self.old pager.old).done }
        ensures memory { self.new ≡ (frame_freed self.old pager.old).memory }
        ensures pager { pager.new ≡ (frame_freed self.old pager.old).pager }
        ensures frame { is_ok result ≡ true → 0 < self.new.free }
        ensures count { length self.new.words ≡ length self.old.words }
        ensures absent { (place : ℕ) → is_resident (word_at self.old place).content ≡ false → word_at self.new place ≡ word_at self.old place }
    {
        if self.bodies.free() > 0 {
            return Ok(());
        }
        match self.words.victim(self.hand) {
            Some((place, hand)) => self.evict_at(place, hand, pager),
            None => Err(Failed),
        }
    }

    // Gives a page that isn't resident a frame with its bytes.
    fn fill(&mut self, place: usize, pager: &mut MemPager) -> Result<(), Failed>
        requires place { place < length self.old.words }
        requires absent { is_resident (word_at self.old place).content ≡ false }
        requires frame { 0 < self.old.free }
        ensures done { is_ok result ≡ (frame_filled self.old place pager.old).done }
        ensures memory { self.new ≡ (frame_filled self.old place pager.old).memory }
        ensures pager { pager.new ≡ (frame_filled self.old place pager.old).pager }
    {
        if self.words.get(place).content() == Content::Preserved {
            return self.bring(place, pager);
        }
        self.fill_zeros(place);
        Ok(())
    }

    // Makes a page resident that isn't.
    fn make_resident(&mut self, place: usize, pager: &mut MemPager) -> Result<(), Failed>
        requires place { place < length self.old.words }
        requires absent { is_resident (word_at self.old place).content ≡ false }
        ensures done { is_ok result ≡ (filled_after (frame_freed self.old pager.old) place).done }
        ensures memory { self.new ≡ (filled_after (frame_freed self.old pager.old) place).memory }
        ensures pager { pager.new ≡ (filled_after (frame_freed self.old pager.old) place).pager }
        ensures resident { is_ok result ≡ true → is_resident (word_at self.new place).content ≡ true }
        ensures count { length self.new.words ≡ length self.old.words }
    {
        match self.free_frame(pager) {
            Ok(()) => self.fill(place, pager),
            Err(failed) => Err(failed),
        }
    }

    /// Makes a page resident and notes that it is used, unless it is discarded.
    #[tactic(auto, unfolding(crate::specs::Touches::touched_page))]
    pub fn touch(&mut self, place: usize, pager: &mut MemPager) -> Result<(), Trap>
        requires place { place < length self.old.words }
        ensures answer { result ≡ (touched_page self.old place pager.old).answer }
        ensures memory { self.new ≡ (touched_page self.old place pager.old).memory }
        ensures pager { pager.new ≡ (touched_page self.old place pager.old).pager }
    {
        let fields = self.words.get(place).fields();
        if fields.is_discarded() {
            return Err(Trap::Discarded);
        }
        if fields.content == Content::Resident {
            self.use_page(place);
            return Ok(());
        }
        match self.make_resident(place, pager) {
            Ok(()) => {
                self.use_page(place);
                Ok(())
            }
            Err(_) => Err(Trap::Paging),
        }
    }

    // A move that the page's word allows. A bring finds a frame first.
    fn make_move(&mut self, place: usize, action: Move, pager: &mut MemPager) -> Result<(), Failed>
        requires place { place < length self.old.words }
        requires allowed { is_ok (move_answer (word_at self.old place) action) ≡ true }
        ensures done { is_ok result ≡ (allowed_move action self.old place pager.old).done }
        ensures memory { self.new ≡ (allowed_move action self.old place pager.old).memory }
        ensures pager { pager.new ≡ (allowed_move action self.old place pager.old).pager }
    {
        match action {
            Move::Discard => {
                self.discard(place);
                Ok(())
            }
            Move::Preserve => self.preserve(place, pager),
            Move::Bring => match self.free_frame(pager) {
                Ok(()) => self.bring(place, pager),
                Err(failed) => Err(failed),
            },
            Move::Age => {
                let word = self.words.get(place);
                self.words.set(place, moved(word, Move::Age));
                Ok(())
            }
        }
    }

    /// Makes a move on a page, if its word allows it.
    #[tactic(auto, unfolding(crate::specs::HostMoves::applied))]
    pub fn apply(
        &mut self,
        place: usize,
        action: Move,
        pager: &mut MemPager,
    ) -> Result<(), ApplyError>
        requires place { place < length self.old.words }
        ensures answer { result ≡ (applied self.old place action pager.old).answer }
        ensures memory { self.new ≡ (applied self.old place action pager.old).memory }
        ensures pager { pager.new ≡ (applied self.old place action pager.old).pager }
        ensures keeps { HostKeeps self.old self.new }
    {
        match host_move(self.words.get(place), action) {
            Err(why) => Err(ApplyError::Refused(why)),
            Ok(_) => match self.make_move(place, action, pager) {
                Ok(()) => Ok(()),
                Err(_) => Err(ApplyError::Paging),
            },
        }
    }

    /// Moves victims one after the other: `count` of them, fewer where no page can be taken or a put fails.
    pub fn reclaim(&mut self, count: u32, pager: &mut MemPager) -> Reclaim
        ensures count { result.count ≡ (reclaimed self.old pager.old count).count }
        ensures paging { result.paging ≡ (reclaimed self.old pager.old count).paging }
        ensures memory { self.new ≡ (reclaimed self.old pager.old count).memory }
        ensures pager { pager.new ≡ (reclaimed self.old pager.old count).pager }
    {
        for moved in 0..count {
            let Some((place, hand)) = self.words.victim(self.hand) else {
                return Reclaim {
                    count: moved,
                    paging: false,
                };
            };
            if self.evict_at(place, hand, pager).is_err() {
                return Reclaim {
                    count: moved,
                    paging: true,
                };
            }
        }
        Reclaim {
            count,
            paging: false,
        }
    }
}
