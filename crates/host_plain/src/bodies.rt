// The bodies of all pages, and the frames that no page has.
ghost use Rattle.std.specs.Prelude.{◌≡◌, ◌<◌, ◌+◌, ◌-◌, ◌≤◌, ℕ, [], ◌∷◌, ◌++◌, length, take, drop, true, false, is_some, is_err, IfOk, IfErr, All, map, slice_set, vec_len, vec_capacity};
ghost use Rattle.std.specs.List.{sum_by};
ghost use Rattle.std.specs.Option.{option_to_list};
ghost use Rattle.cmm_types.specs.declared.page.TheConstants.{PAGE};
ghost use Rattle.cmm_types.specs.declared.plan.TheConstants.{MAX_FRAMES};
ghost use Rattle.cmm_types.specs.declared.page.Move.TheVariants.{Discard, Preserve, Bring};
ghost use Rattle.cmm_io.specs.FailurePlan.{fails_next, after_next};
ghost use Rattle.cmm_types.specs.Bytes.{with_bytes, zero_page};
ghost use Rattle.essa_state.specs.PageBody.{frame_bytes, moved_body};
ghost use Rattle.host_plain.specs.MemoryState.{IsWholeBody, body_with_bytes};
ghost use Rattle.page_arena.specs.FrameView.{IsOf};
ghost use Rattle.host_plain.specs.Numbering.{is_number, is_taken};
ghost use Rattle.host_plain.specs.Bodies.{body_of, frames_back, body_in, with_body, without_frame, frames_in, framed_of, opening_bodies};

use crate::body::PageBody;
use cmm_io::Failed;
use cmm_pager::{MemBlock, MemPager};
use cmm_types::MAX_FRAMES;
use page_arena::{Frame, Region};
use std::alloc::{AllocError, Global};
use std::marker::Model;

/// The bodies of the pages, guest by guest and page by page, and the free frames. Contracts see the number of the frame
/// that each page has, and those of the free ones.
#[derive(Drop)]
pub struct Bodies {
    pages: Vec<PageBody>,
    // Has room for all frames.
    free: Vec<Frame>,
    frames: usize,
    region: Region,
}

impl Model for Bodies {
    ghost use Rattle.std.specs.Prelude.{◌≡◌, ◌+◌, ◌≤◌, vec_len, vec_capacity};
    ghost use Rattle.host_plain.specs.Bodies.{BodiesView, AllAreOf, bodies_view, framed_of};

    ghost Value = { BodiesView };

    ghost view = { λ b. bodies_view b.pages.items b.free.items b.frames };

    ghost invariant = { λ b. (vec_len b.free + framed_of b.pages.items ≡ b.frames) × (b.frames ≤ vec_capacity b.free) × (b.region.count ≡ b.frames) × AllAreOf b.region b.pages.items b.free.items };
}

// Puts a frame behind the others, where there is room.
fn give_back(free: &mut Vec<Frame>, frame: Frame)
    requires room { vec_len free.old < vec_capacity free.old }
    ensures frames { free.new.items ≡ free.old.items ++ frame ∷ [] }
    ensures len { vec_len free.new ≡ vec_len free.old + 1 }
    ensures room { vec_capacity free.old ≤ vec_capacity free.new }
{
    match free.push(frame) {
        Ok(()) => (),
        Err(_) => unreachable!(),
    }
}

// A page without a frame for each block.
fn pages_of(alloc: Global, blocks: Vec<MemBlock>) -> Result<Vec<PageBody>, AllocError>
    ensures pages { IfOk result (λ pages. pages.items ≡ map without_frame blocks.items) }
    ensures whole { IfOk result (λ pages. All (λ page. IsWholeBody (body_of page)) pages.items) }
{
    let mut pages = Vec::with_capacity(alloc, blocks.len())?;
    for block in blocks {
        pages.push(PageBody::new(block))?;
    }
    Ok(pages)
}

// Moves the page's frame, if it has one, into the list, which has room for it.
fn take_frame(mut page: PageBody, into: &mut Vec<Frame>)
    requires room { vec_len into.old + frames_in page ≤ vec_capacity into.old }
    ensures frames { into.new.items ≡ into.old.items ++ option_to_list page.frame }
    ensures len { vec_len into.new ≡ vec_len into.old + frames_in page }
    ensures room { vec_capacity into.old ≤ vec_capacity into.new }
{
    if let Some(frame) = page.discard() {
        give_back(into, frame);
    }
}

// Moves the frames of all pages into the list, which has room for them.
fn take_frames(mut pages: Vec<PageBody>, into: &mut Vec<Frame>)
    requires room { vec_len into.old + framed_of pages.items ≤ vec_capacity into.old }
    ensures frames { into.new.items ≡ into.old.items ++ frames_back pages.items }
    ensures len { vec_len into.new ≡ vec_len into.old + framed_of pages.items }
{
    while let Some(page) = pages.pop() {
        take_frame(page, into);
    }
}

impl Bodies {
    /// Pages without a frame, one with each block, and `frames` frames, 1 to `MAX_FRAMES`, which are all free.
    pub fn open(alloc: Global, blocks: Vec<MemBlock>, frames: u32) -> Result<Bodies, AllocError>
        requires some_frames { 0 < frames }
        requires most_frames { frames ≤ MAX_FRAMES }
        ensures bodies { IfOk result (λ bodies. bodies ≡ opening_bodies blocks.items frames) }
        ensures whole { IfOk result (λ bodies. All IsWholeBody bodies.bodies) }
    {
        let pages = pages_of(alloc, blocks)?;
        // Last, so that nothing is refused once there are frames.
        let (region, free) = Region::new(alloc, frames)?;
        Ok(Bodies {
            pages,
            free,
            frames: frames as usize,
            region,
        })
    }

    /// The region, and all its frames. It takes no memory.
    pub fn into_frames(self) -> (Region, Vec<Frame>)
        ensures count { result.0.count ≡ self.frames }
        ensures len { length result.1.items ≡ self.frames }
        ensures of_region { All (IsOf result.0) result.1.items }
        ensures numbers { (number : ℕ) → sum_by (is_number number) (map (λ f. f.number) result.1.items)
            ≡ sum_by (is_taken number) self.numbers.taken + sum_by (is_number number) self.numbers.spare }
    {
        let Bodies {
            pages,
            mut free,
            frames: _,
            region,
        } = self;
        take_frames(pages, &mut free);
        (region, free)
    }

    /// How many frames are free.
    pub fn free(&self) -> usize
        ensures { result ≡ length self.now.numbers.spare }
    {
        self.free.len()
    }

    /// How many pages have a frame.
    pub fn framed(&self) -> usize
        ensures { result + length self.now.numbers.spare ≡ self.now.frames }
    {
        self.frames - self.free.len()
    }

    /// Gives up the page's frame, if it has one.
    pub fn discard(&mut self, place: usize)
        requires place { place < length self.old.bodies }
        ensures { self.new ≡ with_body self.old place (moved_body Discard (body_in self.old place)) }
    {
        let page = &mut self.pages[place];
        if let Some(frame) = page.discard() {
            give_back(&mut self.free, frame);
        }
    }

    /// Puts the bytes of the page's frame into its block, and gives up the frame.
    pub fn preserve(&mut self, place: usize, pager: &mut MemPager) -> Result<(), Failed>
        requires place { place < length self.old.bodies }
        requires resident { is_some (body_in self.old place).frame ≡ true }
        ensures failed { is_err result ≡ fails_next pager.old }
        ensures pager { pager.new ≡ after_next pager.old }
        ensures body { IfOk result (λ u. self.new ≡ with_body self.old place (moved_body Preserve (body_in self.old place))) }
        ensures same { IfErr result (λ e. self.new ≡ self.old) }
    {
        let page = &mut self.pages[place];
        match page.preserve(pager) {
            Ok(frame) => {
                give_back(&mut self.free, frame);
                Ok(())
            }
            Err(failed) => Err(failed),
        }
    }

    /// Gets the bytes of the page's block into a free frame. Where the pager fails, the frame is free again.
    pub fn bring(&mut self, place: usize, pager: &mut MemPager) -> Result<(), Failed>
        requires place { place < length self.old.bodies }
        requires absent { is_some (body_in self.old place).frame ≡ false }
        requires frame { 0 < length self.old.numbers.spare }
        ensures failed { is_err result ≡ fails_next pager.old }
        ensures pager { pager.new ≡ after_next pager.old }
        ensures body { IfOk result (λ u. self.new ≡ with_body self.old place (moved_body Bring (body_in self.old place))) }
        ensures same { IfErr result (λ e. self.new ≡ self.old) }
    {
        let frame = self.free.pop().unwrap();
        let page = &mut self.pages[place];
        match page.bring(frame, pager) {
            Ok(()) => Ok(()),
            Err(unused) => {
                give_back(&mut self.free, unused);
                Err(Failed)
            }
        }
    }

    /// Gives the page a free frame of zeros.
    pub fn fill(&mut self, place: usize)
        requires place { place < length self.old.bodies }
        requires absent { is_some (body_in self.old place).frame ≡ false }
        requires frame { 0 < length self.old.numbers.spare }
        ensures { self.new ≡ with_body self.old place (body_with_bytes (body_in self.old place) zero_page) }
    {
        let frame = self.free.pop().unwrap();
        let page = &mut self.pages[place];
        page.fill(frame);
    }

    pub fn fetch(&self, place: usize, off: usize, into: &mut [u8])
        requires place { place < length self.now.bodies }
        requires resident { is_some (body_in self.now place).frame ≡ true }
        requires within { off + length into.old ≤ PAGE }
        ensures { into.new ≡ take (length into.old) (drop off (frame_bytes (body_in self.now place))) }
    {
        self.pages[place].fetch(off, into);
    }

    /// Writes bytes of the page's frame.
    pub fn store(&mut self, place: usize, off: usize, from: &[u8])
        requires place { place < length self.old.bodies }
        requires resident { is_some (body_in self.old place).frame ≡ true }
        requires within { off + length from.now ≤ PAGE }
        ensures { self.new ≡ record self.old { bodies = slice_set self.old.bodies place (body_with_bytes (body_in self.old place) (with_bytes (frame_bytes (body_in self.old place)) off from.now)) } }
    {
        let page = &mut self.pages[place];
        page.store(off, from);
    }
}
