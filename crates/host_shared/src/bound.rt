// A guest's storage in a turn.
ghost use Rattle.host_shared.specs.Binding.{IsBoundTo};

use crate::body::PageBody;
use crate::storage::WordStorage;
use cmm_storage::{Busy, Storage, Trap};
use essa_state::{Old, Order, Word};
use frame_pool::Pool;
use state_words::Words;

/// A guest's pages, as the guest reaches them in a turn. It isn't quiet: the host may hold a page, and there may be no
/// frame.
#[derive(Drop)]
pub struct Bound<'a> {
    pub(crate) storage: &'a mut WordStorage,
    pub(crate) words: &'a [Words<PageBody>],
    pub(crate) pool: &'a Pool,
    ghost bound: { IsBoundTo words.now pool.now storage.now },
}

impl<'a> Bound<'a> {
    ghost use Rattle.std.specs.Prelude.{◌≡◌, ◌<◌, ◌≤◌, None};
    ghost use Rattle.state_words.specs.Steps.{looked_view};
    ghost use Rattle.host_shared.specs.Binding.{storage_view};
    ghost use Rattle.host_shared.specs.Served.{storage_of, bound_words, bound_pool};

    /// The word of a page, whoever holds it, which counts at least as many discards as the guest knows of. No page is
    /// held.
    pub fn look(&mut self, page: u32) -> Word
        requires page { page < (storage_of self.old).seat.words.pages }
        requires none_held { (storage_of self.old).held ≡ None }
        ensures looked { storage_of self.new ≡ record (storage_of self.old) { seat = record (storage_of self.old).seat { view = looked_view (storage_of self.old).seat.view page result } } }
        ensures counted { ((storage_view (storage_of self.old)).values page).count ≤ result.count }
        ensures same { self.new.storage.ghost_name ≡ self.old.storage.ghost_name }
        ensures words { bound_words self.new ≡ bound_words self.old }
        ensures pool { bound_pool self.new ≡ bound_pool self.old }
    {
        self.storage.look(self.words, self.pool, page)
    }
}

impl<'a> Storage for Bound<'a> {
    ghost use Rattle.std.specs.Prelude.{◌≡◌};
    ghost use Rattle.host_shared.specs.Binding.{BoundStep, storage_view};
    ghost use Rattle.host_shared.specs.Served.{storage_of, bound_words, bound_pool};

    ghost view = { λ b. storage_view (storage_of b) };

    ghost step = { λ b call c. BoundStep (storage_of b) call (storage_of c) × (c.storage.ghost_name ≡ b.storage.ghost_name) × (bound_words c ≡ bound_words b) × (bound_pool c ≡ bound_pool b) };

    ghost meets = { λ b call c s. s.0.follows };

    fn faults(&self) -> u64 {
        self.storage.faults()
    }

    fn pages(&self) -> u32 {
        self.storage.pages(self.words, self.pool)
    }

    fn take(&mut self, page: u32) -> Result<(), Busy> {
        self.storage.take(self.words, self.pool, page)
    }

    fn touch(&mut self, page: u32) -> Result<(), Trap> {
        self.storage.touch(self.words, self.pool, page)
    }

    #[tactic(auto, using(crate::proofs::Stepping::bound_give))]
    fn order(&mut self, page: u32, code: Order) -> Old {
        self.storage.order(page, code)
    }

    #[tactic(auto, using(crate::proofs::Stepping::bound_change))]
    fn take_change(&mut self, page: u32) -> bool {
        self.storage.take_change(page)
    }

    fn fetch(&mut self, page: u32, off: usize, into: &mut [u8]) {
        self.storage.fetch(page, off, into);
    }

    #[tactic(auto, using(crate::proofs::Stepping::bound_store))]
    fn store(&mut self, page: u32, off: usize, from: &[u8]) {
        self.storage.store(page, off, from);
    }

    fn put(&mut self, page: u32) {
        self.storage.put(self.words, self.pool, page);
    }
}
