ghost use Rattle.std.specs.Prelude.{◌≡◌, ◌+◌, ◌<◌, length, true, false, IfOk, OnOk};
ghost use Rattle.cmm_io.specs.Faults.{raised};
ghost use Rattle.cmm_storage.specs.StorageView.{Follows};
ghost use Rattle.cmm_storage.specs.NoisyState.{noisy_view, noisy_opening};

use crate::noisy_page::NoisyPage;
use crate::storage::{Busy, Storage, Trap};
use essa_state::{Old, Order};
use std::alloc::{AllocError, Global};
use std::marker::Model;

/// What the host of a `NoisyStorage` does at a take or a touch.
#[derive(Clone, Copy, Debug, PartialEq, Eq)]
pub enum Noise {
    /// Nothing.
    Calm,
    /// Somebody else holds the page that is taken.
    Busy,
    /// The page is discarded before it is taken, where its usage allows it.
    Discard,
    /// No frame is free for the page that is touched, unless it has one.
    NoFrame,
    /// The pager fails at the page that is touched, unless it has a frame.
    PagerFails,
}

// The noises that are left, the next one last.
#[derive(Drop)]
struct Noises {
    left: Vec<Noise>,
}

impl Noises {
    // The next noise; calm behind the last.
    fn next(&mut self) -> Noise {
        self.left.pop().unwrap_or(Noise::Calm)
    }
}

// The next count; at its type's end it stands still.
fn raised(count: u64) -> u64
    ensures { result ≡ raised count }
{
    count.saturating_add(1)
}

/// Pages in memory whose host does at each take and each touch what a list says. It shows that the clauses of
/// `Storage` can be met, and what a caller does where a page is busy, discarded or without a frame.
#[derive(Drop)]
pub struct NoisyStorage {
    pages: Vec<NoisyPage>,
    held: Option<u32>,
    touched: bool,
    faults: u64,
    misses: u64,
    noises: Noises,
}

impl Model for NoisyStorage {
    ghost use Rattle.cmm_storage.specs.NoisyState.{NoisyState, IsNoisyState};

    ghost Value = { NoisyState };

    ghost view = { λ s. record { pages = s.pages.items; held = s.held; touched = s.touched; faults = s.faults; misses = s.misses } };

    ghost invariant = { λ s. IsNoisyState (record { pages = s.pages.items; held = s.held; touched = s.touched; faults = s.faults; misses = s.misses }) };
}

impl NoisyStorage {
    /// `pages` unused pages without contents, and what their host does at each take and touch.
    pub fn open(
        alloc: Global,
        pages: u32,
        mut noises: Vec<Noise>,
    ) -> Result<NoisyStorage, AllocError>
        ensures { IfOk result (λ storage. storage ≡ noisy_opening pages) }
    {
        let mut all = Vec::new(alloc);
        for _ in 0..pages {
            all.push(NoisyPage::open(alloc)?)?;
        }
        noises.reverse();
        Ok(NoisyStorage {
            pages: all,
            held: None,
            touched: false,
            faults: 0,
            misses: 0,
            noises: Noises { left: noises },
        })
    }
}

impl Storage for NoisyStorage {
    ghost view = { noisy_view };

    ghost step = { λ s call t. Follows (noisy_view s) call (noisy_view t) };

    ghost meets = { λ s call t step. step };

    fn faults(&self) -> u64 {
        self.faults
    }

    fn pages(&self) -> u32 {
        self.pages.len() as u32
    }

    fn take(&mut self, page: u32) -> Result<(), Busy> {
        let noise = self.noises.next();
        let it = &mut self.pages[page as usize];
        if noise == Noise::Busy {
            self.misses = raised(self.misses);
            return Err(Busy {
                word: it.busy_word(),
            });
        }
        if noise == Noise::Discard {
            it.discard();
        }
        self.held = Some(page);
        self.touched = false;
        Ok(())
    }

    fn touch(&mut self, page: u32) -> Result<(), Trap> {
        let noise = self.noises.next();
        let it = &mut self.pages[page as usize];
        if it.is_lost() {
            return Err(Trap::Discarded);
        }
        if !it.has_bytes() && noise == Noise::NoFrame {
            self.misses = raised(self.misses);
            return Err(Trap::NoFrame { looks: 0 });
        }
        if !it.has_bytes() && noise == Noise::PagerFails {
            self.faults = raised(self.faults);
            return Err(Trap::Paging);
        }
        it.fill();
        self.touched = true;
        Ok(())
    }

    fn order(&mut self, page: u32, code: Order) -> Old {
        let it = &mut self.pages[page as usize];
        it.order(code)
    }

    fn take_change(&mut self, page: u32) -> bool {
        let it = &mut self.pages[page as usize];
        it.take_change()
    }

    fn fetch(&mut self, page: u32, off: usize, into: &mut [u8]) {
        let it = &self.pages[page as usize];
        it.fetch(off, into);
    }

    fn store(&mut self, page: u32, off: usize, from: &[u8]) {
        let it = &mut self.pages[page as usize];
        it.store(off, from);
    }

    fn put(&mut self, page: u32) {
        let _ = page;
        self.held = None;
    }
}
