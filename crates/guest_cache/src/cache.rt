ghost use Rattle.std.specs.Prelude.{◌≡◌, ◌≤◌, ◌+◌, ◌<◌, ◌^◌, length, sum, replicate, None, Some, true, IfOk, IfSome};
ghost use Rattle.cmm_types.specs.declared.page.Tag.TheVariants.{Anon};
ghost use Rattle.cmm_types.specs.declared.plan.TheConstants.{MAX_MAPPING_SLOTS};
ghost use Rattle.guest_cache.specs.CacheView.{IsTag, index_place, page_of, opening_cache, with_page, without_page, IsAnonymous, swap_slot, free_swap, assigned, unassigned, backing_of, pages_before};

use cmm_types::{MAX_MAPPING_PAGES, Tag};
use lazy_list::LazyList;
use marks::Marks;
use std::alloc::{AllocError, Global};
use std::marker::Model;

/// Which page has each tag of a guest's files and mapping slots, which swap slot an anonymous page has, and which block
/// of the guest's disk backs a tag. Every call but `open`, `assign` and `least_free` takes the same time, whatever the
/// number of tags.
#[derive(Drop)]
pub struct Cache {
    /// The pages of each file.
    files: Vec<u32>,
    slots: u32,
    /// The place of each file's first page.
    firsts: Vec<u32>,
    /// The pages of all files together.
    file_pages: u32,
    /// The page that has each tag, by the tag's place.
    index: LazyList<Option<u32>>,
    /// The tag that each swap slot is assigned to.
    swap: Vec<Option<Tag>>,
    /// The swap slot of each page of a mapping slot.
    swapped: LazyList<Option<u32>>,
    /// The swap slots that are assigned to no tag.
    free: Marks,
}

impl Model for Cache {
    ghost use Rattle.std.specs.Prelude.{◌≡◌, ◌<◌, ◌≤◌, ◌+◌, ◌*◌, ◌^◌, sum, length, map, is_none};
    ghost use Rattle.std.specs.List.{range_with_len};
    ghost use Rattle.cmm_types.specs.declared.command.TheConstants.{MAX_MAPPING_PAGES};
    ghost use Rattle.cmm_types.specs.declared.plan.TheConstants.{MAX_MAPPING_SLOTS};
    ghost use Rattle.guest_cache.specs.CacheView.{CacheView, pages_before};
    ghost use Rattle.guest_cache.specs.SwapTable.{IsSwapIndex};

    ghost Value = { CacheView };

    ghost view = { λ c. record { files = c.files.items; slots = c.slots; index = c.index; swap = c.swap.items } };

    ghost invariant = { λ c. (c.firsts.items ≡ map (pages_before c.files.items) (range_with_len 0 (length c.files.items)))
        × (c.file_pages ≡ sum c.files.items)
        × (c.file_pages + length c.swap.items < 2 ^ 32)
        × (c.slots ≤ MAX_MAPPING_SLOTS)
        × (length c.index ≡ sum c.files.items + c.slots * MAX_MAPPING_PAGES)
        × IsSwapIndex c.slots c.swap.items c.swapped
        × (c.free ≡ map is_none c.swap.items) };
}

/// So many swap slots, none of them assigned.
fn no_tags(alloc: Global, count: usize) -> Result<Vec<Option<Tag>>, AllocError>
    ensures { IfOk result (λ table. table.items ≡ replicate count None) }
{
    let table = vec![in alloc; None; count]?;
    Ok(table)
}

/// So many swap slots as marks, each of them free.
fn all_free(alloc: Global, count: u32) -> Result<Marks, AllocError>
    ensures { IfOk result (λ free. free ≡ replicate count true) }
{
    let mut free = Marks::open(alloc, count as usize)?;
    for number in 0..count {
        free.set(number as usize, true);
    }
    Ok(free)
}

impl Cache {
    /// Of files with so many pages, of `swap` swap slots and of `slots` mapping slots; no page has a tag, and no swap slot
    /// is assigned. It takes time and memory in proportion to the pages of the files and of the mapping slots, and to
    /// the swap slots.
    pub fn open(alloc: Global, files: &[u32], swap: u32, slots: u32) -> Result<Cache, AllocError>
        requires blocks { sum files.now + swap < 2 ^ 32 }
        requires slots { slots ≤ MAX_MAPPING_SLOTS }
        ensures { IfOk result (λ cache. cache ≡ opening_cache files.now swap slots) }
    {
        let mut firsts = Vec::with_capacity(alloc, files.len())?;
        let mut file_pages = 0;
        for pages in files {
            firsts.push(file_pages)?;
            file_pages += *pages;
        }
        let anonymous = (slots * MAX_MAPPING_PAGES) as usize;
        Ok(Cache {
            files: Vec::from_slice(alloc, files)?,
            slots,
            firsts,
            file_pages,
            index: LazyList::open(alloc, file_pages as usize + anonymous, None)?,
            swap: no_tags(alloc, swap as usize)?,
            swapped: LazyList::open(alloc, anonymous, None)?,
            free: all_free(alloc, swap)?,
        })
    }

    /// The page that has a tag.
    pub fn find(&self, tag: Tag) -> Option<u32>
        requires { IsTag self.now tag }
        ensures { result ≡ page_of self.now tag }
    {
        self.index.at(self.place(tag))
    }

    /// Notes that a page has a tag that no page has.
    #[tactic(auto, unfolding(crate::specs::CacheView::with_page))]
    pub fn insert(&mut self, tag: Tag, page: u32)
        requires tag { IsTag self.old tag }
        requires new { page_of self.old tag ≡ None }
        ensures { self.new ≡ with_page self.old tag page }
    {
        let place = self.place(tag);
        self.index.set(place, Some(page));
    }

    /// Notes that no page has a tag.
    #[tactic(auto, unfolding(crate::specs::CacheView::without_page))]
    pub fn remove(&mut self, tag: Tag)
        requires { IsTag self.old tag }
        ensures { self.new ≡ without_page self.old tag }
    {
        let place = self.place(tag);
        self.index.set(place, None);
    }

    /// The swap slot of an anonymous page, if it has one; a file's page has none.
    pub fn slot(&self, tag: Tag) -> Option<u32>
        requires { IsTag self.now tag }
        ensures { result ≡ swap_slot self.now tag }
    {
        match tag {
            Tag::File { file: _, index: _ } => None,
            Tag::Anon { slot, index } => self.swapped(slot, index),
        }
    }

    /// Assigns the least free swap slot to an anonymous page that has none. `None` comes exactly where all swap slots are
    /// assigned, and then nothing changes.
    pub fn assign(&mut self, tag: Tag) -> Option<u32>
        requires tag { IsTag self.old tag }
        requires anonymous { IsAnonymous tag }
        requires new { swap_slot self.old tag ≡ None }
        ensures least { result ≡ free_swap self.old }
        ensures assigned { self.new ≡ assigned self.old tag (free_swap self.old) }
    {
        match tag {
            Tag::File { file: _, index: _ } => None,
            Tag::Anon { slot, index } => match self.least_free() {
                None => None,
                Some(number) => {
                    self.set_swap(slot, index, number);
                    Some(number)
                }
            },
        }
    }

    /// Frees the swap slot of a page. Nothing changes where it has none.
    pub fn release(&mut self, tag: Tag)
        requires { IsTag self.old tag }
        ensures { self.new ≡ unassigned self.old (swap_slot self.old tag) }
    {
        match tag {
            Tag::File { file: _, index: _ } => {}
            Tag::Anon { slot, index } => self.release_page(slot, index),
        }
    }

    /// The block of the guest's disk that a tag's page is read from: a file's page has one, and an anonymous page has that
    /// of its swap slot.
    pub fn backing(&self, tag: Tag) -> Option<u32>
        requires { IsTag self.now tag }
        ensures { result ≡ backing_of self.now tag }
    {
        match tag {
            Tag::File { file, index } => Some(self.first(file) + index),
            Tag::Anon { slot, index } => match self.swapped(slot, index) {
                None => None,
                Some(number) => Some(self.file_pages + number),
            },
        }
    }

    /// The place of a file's first page in the index.
    fn first(&self, file: u32) -> u32
        requires { file < length self.now.files }
        ensures { result ≡ pages_before self.now.files file }
    {
        self.firsts[file as usize]
    }

    /// The place of a tag in the index.
    #[tactic(auto, using(crate::specs::Laws::CacheLaws::before_all))]
    fn place(&self, tag: Tag) -> usize
        requires { IsTag self.now tag }
        ensures place { result ≡ index_place self.now tag }
        ensures within { result < length self.now.index }
    {
        match tag {
            Tag::File { file, index } => self.first(file) as usize + index as usize,
            Tag::Anon { slot, index } => {
                self.file_pages as usize + (slot * MAX_MAPPING_PAGES + index) as usize
            }
        }
    }

    /// The swap slot of an anonymous page.
    fn swapped(&self, slot: u32, index: u32) -> Option<u32>
        requires slot { slot < self.now.slots }
        requires index { index < MAX_MAPPING_PAGES }
        ensures found { result ≡ swap_slot self.now (Anon slot index) }
        ensures within { IfSome result (λ number. number < length self.now.swap) }
    {
        self.swapped.at((slot * MAX_MAPPING_PAGES + index) as usize)
    }

    /// The least free swap slot; `None` exactly where all swap slots are assigned. Of 65,536 swap slots it looks at no more
    /// than 64, at 64 blocks of so many, and at 16 groups of so many blocks.
    pub fn least_free(&self) -> Option<u32>
        ensures { result ≡ free_swap self.now }
    {
        match self.free.next(0, self.free.len()) {
            Some(number) => Some(number as u32),
            None => None,
        }
    }

    /// A swap slot that is the least free one is assigned to an anonymous page that has none.
    fn set_swap(&mut self, slot: u32, index: u32, number: u32)
        requires slot { slot < self.old.slots }
        requires index { index < MAX_MAPPING_PAGES }
        requires new { swap_slot self.old (Anon slot index) ≡ None }
        requires least { free_swap self.old ≡ Some number }
        ensures { self.new ≡ assigned self.old (Anon slot index) (Some number) }
    {
        self.swap[number as usize] = Some(Tag::Anon { slot, index });
        self.swapped
            .set((slot * MAX_MAPPING_PAGES + index) as usize, Some(number));
        self.free.set(number as usize, false);
    }

    /// The swap slot of an anonymous page, if it has one, is free.
    fn release_page(&mut self, slot: u32, index: u32)
        requires slot { slot < self.old.slots }
        requires index { index < MAX_MAPPING_PAGES }
        ensures { self.new ≡ unassigned self.old (swap_slot self.old (Anon slot index)) }
    {
        if let Some(number) = self.swapped(slot, index) {
            self.clear_swap(slot, index, number);
        }
    }

    /// The swap slot of an anonymous page is free.
    fn clear_swap(&mut self, slot: u32, index: u32, number: u32)
        requires slot { slot < self.old.slots }
        requires index { index < MAX_MAPPING_PAGES }
        requires its { swap_slot self.old (Anon slot index) ≡ Some number }
        ensures { self.new ≡ unassigned self.old (Some number) }
    {
        self.swap[number as usize] = None;
        self.swapped
            .set((slot * MAX_MAPPING_PAGES + index) as usize, None);
        self.free.set(number as usize, true);
    }
}
