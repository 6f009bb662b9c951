ghost use Rattle.std.specs.Prelude.{◌≡◌, ◌≤◌, ◌<◌, [], ◌∷◌, length, drop, None, false, Contains, IfOk, MatchOption};
ghost use Rattle.cmm_types.specs.declared.plan.TheConstants.{MAX_GUEST_PAGES};
ghost use Rattle.guest_pages.specs.PagesView.{opening_pages, info_at, free_info, with_info, with_tag, with_uptodate, with_dirty, with_owner, with_pins, with_writers, popped, pushed};

use crate::info::PageInfo;
use cmm_types::Tag;
use std::alloc::{AllocError, Global};
use std::marker::Model;

/// What a guest knows of its pages 0 to `count() - 1`, and the stack of its free pages. Every call takes the
/// same time, whatever the number of pages.
#[derive(Drop)]
pub struct Pages {
    infos: Vec<PageInfo>,
    /// The free pages, the next one last, with room for every page.
    free: Vec<u32>,
}

impl Model for Pages {
    ghost use Rattle.std.specs.Prelude.{◌≤◌, ◌<◌, All, length, reverse, vec_capacity};
    ghost use Rattle.cmm_types.specs.declared.plan.TheConstants.{MAX_GUEST_PAGES};
    ghost use Rattle.guest_pages.specs.PagesView.{PagesView, AreDistinct};

    ghost Value = { PagesView };

    ghost view = { λ p. record { infos = p.infos.items; free = reverse p.free.items } };

    ghost invariant = { λ p. AreDistinct (reverse p.free.items) × All (λ page. page < length p.infos.items) (reverse p.free.items)
        × (length p.infos.items ≤ vec_capacity p.free) × (length p.infos.items ≤ MAX_GUEST_PAGES) };
}

impl Pages {
    /// 1 to `MAX_GUEST_PAGES` pages, all free. Page 0 is the next, and then each page in order.
    pub fn open(alloc: Global, count: u32) -> Result<Pages, AllocError>
        requires some { 1 ≤ count }
        requires most { count ≤ MAX_GUEST_PAGES }
        ensures { IfOk result (λ pages. pages ≡ opening_pages count) }
    {
        let infos = vec![in alloc; free_page(); count as usize]?;
        let mut free = Vec::with_capacity(alloc, count as usize)?;
        for page in 0..count {
            free.push(page)?;
        }
        free.reverse();
        Ok(Pages { infos, free })
    }

    /// How many pages there are, free or not.
    pub fn count(&self) -> u32
        ensures { result ≡ length self.now.infos }
    {
        self.infos.len() as u32
    }

    /// What the guest knows of a page.
    pub fn info(&self, page: u32) -> PageInfo
        requires { page < length self.now.infos }
        ensures { result ≡ info_at self.now page }
    {
        self.infos[page as usize]
    }

    /// The page that `pop` would take; `None` exactly where no page is free.
    pub fn top(&self) -> Option<u32>
        ensures { MatchOption result (self.now.free ≡ []) (λ page. self.now.free ≡ page ∷ drop 1 self.now.free) }
    {
        self.free.last().copied()
    }

    /// Takes the next free page off the stack; `None` exactly where no page is free.
    #[tactic(auto, unfolding(crate::specs::PagesView::popped))]
    pub fn pop(&mut self) -> Option<u32>
        ensures page { MatchOption result (self.old.free ≡ []) (λ page. self.old.free ≡ page ∷ drop 1 self.old.free) }
        ensures value { self.new ≡ popped self.old }
        ensures count { length self.new.infos ≡ length self.old.infos }
    {
        self.free.pop()
    }

    /// Makes a page that isn't on the stack the next free one.
    #[tactic(auto, unfolding(crate::specs::PagesView::pushed))]
    pub fn push(&mut self, page: u32)
        requires page { page < length self.old.infos }
        requires new { Contains self.old.free page → ⊥ }
        ensures value { self.new ≡ pushed self.old page }
        ensures count { length self.new.infos ≡ length self.old.infos }
    {
        let _ = self.free.push(page);
    }

    #[tactic(auto, unfolding(crate::specs::PagesView::with_tag, crate::specs::PagesView::with_info))]
    pub fn set_tag(&mut self, page: u32, tag: Option<Tag>)
        requires { page < length self.old.infos }
        ensures value { self.new ≡ with_tag self.old page tag }
        ensures count { length self.new.infos ≡ length self.old.infos }
        ensures free { self.new.free ≡ self.old.free }
    {
        let info = &mut self.infos[page as usize];
        info.tag = tag;
    }

    #[tactic(auto, unfolding(crate::specs::PagesView::with_uptodate, crate::specs::PagesView::with_info))]
    pub fn set_uptodate(&mut self, page: u32, uptodate: bool)
        requires { page < length self.old.infos }
        ensures value { self.new ≡ with_uptodate self.old page uptodate }
        ensures count { length self.new.infos ≡ length self.old.infos }
        ensures free { self.new.free ≡ self.old.free }
    {
        let info = &mut self.infos[page as usize];
        info.uptodate = uptodate;
    }

    #[tactic(auto, unfolding(crate::specs::PagesView::with_dirty, crate::specs::PagesView::with_info))]
    pub fn set_dirty(&mut self, page: u32, dirty: bool)
        requires { page < length self.old.infos }
        ensures value { self.new ≡ with_dirty self.old page dirty }
        ensures count { length self.new.infos ≡ length self.old.infos }
        ensures free { self.new.free ≡ self.old.free }
    {
        let info = &mut self.infos[page as usize];
        info.dirty = dirty;
    }

    #[tactic(auto, unfolding(crate::specs::PagesView::with_owner, crate::specs::PagesView::with_info))]
    pub fn set_owner(&mut self, page: u32, owner: Option<u32>)
        requires { page < length self.old.infos }
        ensures value { self.new ≡ with_owner self.old page owner }
        ensures count { length self.new.infos ≡ length self.old.infos }
        ensures free { self.new.free ≡ self.old.free }
    {
        let info = &mut self.infos[page as usize];
        info.owner = owner;
    }

    #[tactic(auto, unfolding(crate::specs::PagesView::with_pins, crate::specs::PagesView::with_info))]
    pub fn set_pins(&mut self, page: u32, pins: u32)
        requires { page < length self.old.infos }
        ensures value { self.new ≡ with_pins self.old page pins }
        ensures count { length self.new.infos ≡ length self.old.infos }
        ensures free { self.new.free ≡ self.old.free }
    {
        let info = &mut self.infos[page as usize];
        info.pins = pins;
    }

    #[tactic(auto, unfolding(crate::specs::PagesView::with_writers, crate::specs::PagesView::with_info))]
    pub fn set_writers(&mut self, page: u32, writers: u32)
        requires { page < length self.old.infos }
        ensures value { self.new ≡ with_writers self.old page writers }
        ensures count { length self.new.infos ≡ length self.old.infos }
        ensures free { self.new.free ≡ self.old.free }
    {
        let info = &mut self.infos[page as usize];
        info.writers = writers;
    }

    /// Sets all that the guest knows of a page; the setters above set one word of it.
    #[tactic(auto, unfolding(crate::specs::PagesView::with_info))]
    pub fn set_info(&mut self, page: u32, info: PageInfo)
        requires { page < length self.old.infos }
        ensures value { self.new ≡ with_info self.old page info }
        ensures count { length self.new.infos ≡ length self.old.infos }
        ensures free { self.new.free ≡ self.old.free }
    {
        self.infos[page as usize] = info;
    }

    /// Takes tag, lock and marks off a page, which is free then; `push` puts it on the stack.
    #[tactic(auto, unfolding(crate::specs::PagesView::with_info))]
    pub fn clear(&mut self, page: u32)
        requires { page < length self.old.infos }
        ensures value { self.new ≡ with_info self.old page free_info }
        ensures count { length self.new.infos ≡ length self.old.infos }
        ensures free { self.new.free ≡ self.old.free }
    {
        self.set_info(page, free_page());
    }
}

/// What a guest knows of a free page.
fn free_page() -> PageInfo
    ensures { result ≡ free_info }
{
    PageInfo {
        tag: None,
        uptodate: false,
        dirty: false,
        owner: None,
        pins: 0,
        writers: 0,
    }
}
