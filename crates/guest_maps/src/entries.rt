ghost use Rattle.std.specs.Prelude.{◌≡◌, ◌+◌, ◌<◌, ◌^◌, length, true, map, None, Some, IfOk, IfSome, MatchOption, replicate, slice_index_or, count_by};
ghost use Rattle.guest_maps.specs.MapsView.{shows, unless_shows};
ghost use Rattle.guest_maps.specs.EntryChains.{with_pte, set_at, first_with};

use crate::slot::Pte;
use lazy_list::LazyList;
use std::alloc::{AllocError, Global};
use std::marker::Model;

/// The entries of all mapping slots by their place, with a chain through those that show a page. Every call but
/// `open` and `clear_page` takes the same time, whatever the number of entries, but for the first entry behind all
/// others. Memory is reserved for every place, and touched up to the last that ever had an entry.
#[derive(Drop)]
pub struct Entries {
    entries: LazyList<Option<Pte>>,
    /// The first place of each page's chain.
    first: Vec<Option<u32>>,
    /// The next place in the chain of the page that a place's entry shows.
    next: LazyList<Option<u32>>,
    /// The place before it in that chain.
    before: LazyList<Option<u32>>,
}

impl Model for Entries {
    ghost use Rattle.std.specs.Prelude.{length};
    ghost use Rattle.guest_maps.specs.EntryChains.{EntriesView, HasChains};

    ghost Value = { EntriesView };

    ghost view = { λ e. record { pages = length e.first.items; entries = e.entries } };

    ghost invariant = { λ e. HasChains e.entries e.first.items e.next e.before };
}

impl Entries {
    /// So many places without an entry, to show so many pages.
    pub fn open(alloc: Global, pages: u32, places: u32) -> Result<Entries, AllocError>
        ensures { IfOk result (λ opened. opened ≡ record { pages = pages; entries = replicate places None }) }
    {
        Ok(Entries {
            entries: LazyList::open(alloc, places as usize, None)?,
            first: vec![in alloc; None; pages as usize]?,
            next: LazyList::open(alloc, places as usize, None)?,
            before: LazyList::open(alloc, places as usize, None)?,
        })
    }

    pub fn at(&self, place: u32) -> Option<Pte>
        requires { place < length self.now.entries }
        ensures { result ≡ slice_index_or self.now.entries place None }
    {
        self.entries.at(place as usize)
    }

    #[tactic(auto, unfolding(crate::specs::EntryChains::with_pte))]
    pub fn set(&mut self, place: u32, pte: Pte)
        requires place { place < length self.old.entries }
        requires page { pte.page < self.old.pages }
        ensures { self.new ≡ with_pte self.old place (Some pte) }
    {
        self.clear(place);
        self.link(place, pte);
    }

    pub fn clear(&mut self, place: u32)
        requires { place < length self.old.entries }
        ensures { self.new ≡ with_pte self.old place None }
    {
        let Some(pte) = self.entries.at(place as usize) else {
            return;
        };
        let before = self.before.at(place as usize);
        let after = self.next.at(place as usize);
        lead_to(&mut self.first, pte.page, before, after);
        set_link(&mut self.next, before, after);
        self.next.set(place as usize, None);
        set_link(&mut self.before, after, before);
        self.entries.set(place as usize, None);
    }

    /// Clears every entry that shows a page, and answers how many there were, in time for these alone.
    pub fn clear_page(&mut self, page: u32) -> u32
        requires page { page < self.old.pages }
        requires few { length self.old.entries < 2 ^ 32 }
        ensures count { result ≡ count_by (shows page) self.old.entries }
        ensures value { self.new ≡ record self.old { entries = map (unless_shows page) self.old.entries } }
    {
        let mut cleared = 0;
        while let Some(place) = self.first(page) {
            self.clear(place);
            cleared += 1;
        }
        cleared
    }

    /// A place whose entry shows a page.
    fn first(&self, page: u32) -> Option<u32>
        requires { page < self.now.pages }
        ensures { MatchOption result (count_by (shows page) self.now.entries ≡ 0) (λ place. shows page (slice_index_or self.now.entries place None) ≡ true) }
    {
        self.first[page as usize]
    }

    /// Makes an entry where there is none.
    fn link(&mut self, place: u32, pte: Pte)
        requires place { place < length self.old.entries }
        requires empty { slice_index_or self.old.entries place None ≡ None }
        requires page { pte.page < self.old.pages }
        ensures { self.new ≡ with_pte self.old place (Some pte) }
    {
        let after = self.first[pte.page as usize];
        set_link(&mut self.before, after, Some(place));
        self.before.set(place as usize, None);
        self.next.set(place as usize, after);
        self.first[pte.page as usize] = Some(place);
        self.entries.set(place as usize, Some(pte));
    }
}

/// Lets a place of a chain lead to another.
fn set_link(links: &mut LazyList<Option<u32>>, place: Option<u32>, to: Option<u32>)
    requires { IfSome place (λ at. at < length links.old) }
    ensures { links.new ≡ set_at links.old place to }
{
    if let Some(place) = place {
        links.set(place as usize, to);
    }
}

/// Where no place is before it, `after` is the first of a page's chain.
fn lead_to(first: &mut [Option<u32>], page: u32, before: Option<u32>, after: Option<u32>)
    requires { page < length first.old }
    ensures { first.new ≡ first_with first.old page before after }
{
    if before.is_none() {
        first[page as usize] = after;
    }
}
