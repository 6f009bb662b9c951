// The host: all pages, and the guests that they are of, with their pagers.
ghost use Rattle.std.specs.Prelude.{◌≡◌, ◌<◌, ◌+◌, ◌-◌, ◌≤◌, ℕ, [], All, length, take, drop, true, false, None, Some, Ok, Err, is_ok, IfOk, sum, slice_index_or, vec_len, vec_capacity};
ghost use Rattle.cmm_types.specs.declared.page.TheConstants.{PAGE};
ghost use Rattle.cmm_types.specs.declared.plan.TheConstants.{MAX_FRAMES, MAX_TOTAL_PAGES};
ghost use Rattle.cmm_io.specs.Faults.{HasRisen};
ghost use Rattle.cmm_storage.specs.StorageCall.{Take, Touch, Give, TakeChange, Fetch, Store, Put};
ghost use Rattle.page_arena.specs.FrameView.{IsOf, missing};
ghost use Rattle.host_plain.specs.MemoryState.{resident_of};
ghost use Rattle.host_plain.specs.Keeping.{faults_of};
ghost use Rattle.host_plain.specs.Served.{host_of};
ghost use Rattle.host_plain.specs.HostState.{HostState, IsHost, Serves, HaveOwnFrames, host_word, list_place, first_place, pages_of, pager_of, guest_words, served, HostMayMake, ApplyTells, host_opening, starts_of, after_move, move_of, after_reclaim, reclaim_of};

use crate::memory::Memory;
use crate::moves::{ApplyError, Reclaim};
use crate::view::HostView;
use cmm_pager::{MemBlock, MemPager, Pager};
use cmm_storage::Trap;
use cmm_types::{MAX_FRAMES, MAX_TOTAL_PAGES, Move};
use essa_state::{Fields, Old, Order, Word};
use page_arena::{Frame, Region};
use std::alloc::{AllocError, Global};
use std::marker::Model;

/// The pages of several guests in the frames of one region. Contracts see the whole of it as a `HostState`.
#[derive(Drop)]
pub struct Host {
    memory: Memory,
    // The place of each guest's first page, and behind them the number of all pages.
    starts: Vec<usize>,
    pagers: Vec<MemPager>,
    own: MemPager,
    guest: usize,
    held: Option<u32>,
    touched: bool,
}

impl Model for Host {
    ghost use Rattle.host_plain.specs.HostState.{HostState, IsHost};

    ghost Value = { HostState };

    ghost view = { λ h. record { memory = h.memory; starts = h.starts.items; pagers = h.pagers.items; own = h.own; guest = h.guest; held = h.held; touched = h.touched } };

    ghost invariant = { λ h. IsHost (record { memory = h.memory; starts = h.starts.items; pagers = h.pagers.items; own = h.own; guest = h.guest; held = h.held; touched = h.touched }) };
}

// The place of each guest's first page, and behind them the number of all pages.
fn starts_of(alloc: Global, pages: &[u32]) -> Result<Vec<usize>, AllocError>
    requires most { sum pages.now ≤ MAX_TOTAL_PAGES }
    ensures { IfOk result (λ starts. starts.items ≡ starts_of pages.now) }
{
    let mut starts = Vec::new(alloc);
    let mut start = 0;
    for count in pages {
        starts.push(start)?;
        start += *count as usize;
    }
    starts.push(start)?;
    Ok(starts)
}

fn part(words: &[Word], start: usize, end: usize) -> &[Word]
    requires order { start ≤ end }
    requires within { end ≤ length words.now }
    ensures { result.now ≡ take (end - start) (drop start words.now) }
{
    &words[start..end]
}

impl Host {
    /// A host of guests with so many pages each, in this order, each with its pager. `blocks` has one block for each
    /// page of all guests, `own` is the pager of the host's own moves, and there are `frames` frames, 1 to 65,536.
    /// Every page is unused, without contents, and was never discarded.
    pub fn open(
        alloc: Global,
        pages: &[u32],
        frames: u32,
        blocks: Vec<MemBlock>,
        guest_pagers: Vec<MemPager>,
        own: MemPager,
    ) -> Result<Host, AllocError>
        requires guests { 0 < length pages.now }
        requires pagers { length guest_pagers.items ≡ length pages.now }
        requires each { All (λ count. 0 < count) pages.now }
        requires blocks { length blocks.items ≡ sum pages.now }
        requires most { sum pages.now ≤ MAX_TOTAL_PAGES }
        requires some_frames { 0 < frames }
        requires most_frames { frames ≤ MAX_FRAMES }
        ensures host { IfOk result (λ host. host ≡ host_opening pages.now frames blocks.items guest_pagers.items own) }
        ensures sound { IfOk result (λ host. IsHost host) }
    {
        let starts = starts_of(alloc, pages)?;
        let memory = Memory::open(alloc, blocks, frames)?;
        Ok(Host {
            memory,
            starts,
            pagers: guest_pagers,
            own,
            guest: 0,
            held: None,
            touched: false,
        })
    }

    /// The storage of a guest's pages.
    pub fn view(&mut self, guest: u32) -> HostView<'_>
        requires guest { guest < length self.old.pagers }
        requires none_held { self.old.held ≡ None }
        ensures same { result.host.ghost_name ≡ self.entry.ghost_name }
        ensures served { host_of result ≡ served self.old guest }
    {
        self.guest = guest as usize;
        HostView { host: self }
    }

    /// Makes a move on a page that nobody holds, with the host's own pager. `Refused` comes exactly where the page's
    /// word doesn't allow the move, and nothing changes then. `Paging` comes only where the pager's faults rose, and
    /// the page is as it was then; a page whose frame was wanted for it may have gone.
    pub fn apply(&mut self, guest: u32, page: u32, action: Move) -> Result<(), ApplyError>
        requires guest { guest < length self.old.pagers }
        requires page { page < pages_of self.old guest }
        requires none_held { self.old.held ≡ None }
        ensures answer { result ≡ (move_of self.old guest page action).answer }
        ensures host { self.new ≡ after_move self.old guest page action }
        ensures pages { HostMayMake self.old self.new }
        ensures tells { ApplyTells result self.old guest page action self.new }
    {
        let place = self.starts[guest as usize] + page as usize;
        self.memory.apply(place, action, &mut self.own)
    }

    /// Moves victims one after the other, with the host's own pager: `count` of them, fewer where no resident page
    /// is left or a put fails.
    pub fn reclaim(&mut self, count: u32) -> Reclaim
        requires none_held { self.old.held ≡ None }
        ensures count { result.count ≡ (reclaim_of self.old count).count }
        ensures paging { result.paging ≡ (reclaim_of self.old count).paging }
        ensures host { self.new ≡ after_reclaim self.old count }
        ensures pages { HostMayMake self.old self.new }
        ensures most { result.count ≤ count }
        ensures risen { result.paging ≡ true → HasRisen (faults_of self.old.own) (faults_of self.new.own) }
        ensures short { result.count < count → result.paging ≡ false → resident_of self.new.memory.words ≡ 0 }
    {
        self.memory.reclaim(count, &mut self.own)
    }

    /// The state words of a guest's pages.
    pub fn words(&self, guest: u32) -> &[Word]
        requires { guest < length self.now.pagers }
        ensures words { result.now ≡ guest_words self.now guest }
        ensures count { length result.now ≡ pages_of self.now guest }
    {
        let guest = guest as usize;
        part(
            self.memory.words(),
            self.starts[guest],
            self.starts[guest + 1],
        )
    }

    /// How many pages of all guests are resident. Each of them has a frame of its own.
    pub fn resident(&self) -> u32
        ensures count { result ≡ resident_of self.now.memory.words }
        ensures most { result ≤ self.now.memory.frames }
        ensures own_frames { HaveOwnFrames self.now }
    {
        self.memory.resident() as u32
    }

    /// The region, and all its frames: none is missing, so the region can be closed with them. It takes no memory.
    pub fn into_frames(self) -> (Region, Vec<Frame>)
        ensures count { result.0.count ≡ self.memory.frames }
        ensures len { length result.1.items ≡ self.memory.frames }
        ensures of_region { All (IsOf result.0) result.1.items }
        ensures all { missing result.0.count result.1.items ≡ [] }
    {
        self.memory.into_frames()
    }

    /// Gives the region back, and moves all its frames behind those in the list, which has room for them. So the region
    /// can be closed with the frames that were moved: none is missing. It takes no memory.
    pub fn close(self, into: &mut Vec<Frame>) -> Region
        requires room { vec_len into.old + self.memory.frames ≤ vec_capacity into.old }
        ensures count { result.count ≡ self.memory.frames }
        ensures frames { vec_len into.new ≡ vec_len into.old + self.memory.frames }
        ensures before { take (vec_len into.old) into.new.items ≡ into.old.items }
        ensures of_region { All (IsOf result) (drop (vec_len into.old) into.new.items) }
        ensures all { missing result.count (drop (vec_len into.old) into.new.items) ≡ [] }
    {
        let (region, mut frames) = self.into_frames();
        match into.append(&mut frames) {
            Ok(()) => region,
            Err(_) => unreachable!(),
        }
    }

    // The place of the served guest's page.
    fn list_place(&self, page: u32) -> usize
        requires { page < pages_of self.now self.now.guest }
        ensures place { result ≡ list_place self.now page }
        ensures within { result < length self.now.memory.words }
    {
        self.starts[self.guest] + page as usize
    }

    pub(crate) fn pages(&self) -> u32
        ensures { result ≡ pages_of self.now self.now.guest }
    {
        (self.starts[self.guest + 1] - self.starts[self.guest]) as u32
    }

    pub(crate) fn faults(&self) -> u64
        ensures { result ≡ faults_of (pager_of self.now self.now.guest) }
    {
        self.pagers[self.guest].faults()
    }

    pub(crate) fn take(&mut self, page: u32)
        requires page { page < pages_of self.old self.old.guest }
        requires none_held { self.old.held ≡ None }
        ensures { Serves self.old (Take page (Ok tt)) self.new }
    {
        let place = self.list_place(page);
        let fields = self.memory.fields(place);
        self.memory.set_fields(
            place,
            Fields {
                busy: true,
                ..fields
            },
        );
        self.held = Some(page);
        self.touched = false;
    }

    pub(crate) fn touch(&mut self, page: u32) -> Result<(), Trap>
        requires held { self.old.held ≡ Some page }
        ensures { Serves self.old (Touch page result) self.new }
    {
        let place = self.list_place(page);
        let touched = self.memory.touch(place, &mut self.pagers[self.guest]);
        self.touched |= touched.is_ok();
        touched
    }

    pub(crate) fn order(&mut self, page: u32, code: Order) -> Old
        requires held { self.old.held ≡ Some page }
        ensures { Serves self.old (Give page code result) self.new }
    {
        let place = self.list_place(page);
        self.memory.order(place, code)
    }

    pub(crate) fn take_change(&mut self, page: u32) -> bool
        requires held { self.old.held ≡ Some page }
        ensures { Serves self.old (TakeChange page result) self.new }
    {
        let place = self.list_place(page);
        let fields = self.memory.fields(place);
        self.memory.set_fields(
            place,
            Fields {
                changed: false,
                ..fields
            },
        );
        fields.changed
    }

    pub(crate) fn fetch(&self, page: u32, off: usize, into: &mut [u8])
        requires held { self.now.held ≡ Some page }
        requires touched { self.now.touched ≡ true }
        requires within { off + length into.old ≤ PAGE }
        ensures { Serves self.now (Fetch page off into.new) self.now }
    {
        let memory = &self.memory;
        memory.fetch(self.list_place(page), off, into);
    }

    pub(crate) fn store(&mut self, page: u32, off: usize, from: &[u8])
        requires held { self.old.held ≡ Some page }
        requires touched { self.old.touched ≡ true }
        requires within { off + length from.now ≤ PAGE }
        ensures { Serves self.old (Store page off from.now) self.new }
    {
        let place = self.list_place(page);
        self.memory.store(place, off, from);
    }

    pub(crate) fn put(&mut self, page: u32)
        requires held { self.old.held ≡ Some page }
        ensures { Serves self.old (Put page) self.new }
    {
        let place = self.list_place(page);
        let fields = self.memory.fields(place);
        self.memory.set_fields(
            place,
            Fields {
                busy: false,
                ..fields
            },
        );
        self.held = None;
    }
}
