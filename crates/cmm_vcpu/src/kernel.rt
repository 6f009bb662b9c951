ghost use Rattle.std.specs.Prelude.{◌≡◌, ◌<◌, ◌≤◌, ◌↔◌, IsTrue, IfOk, length};
ghost use Rattle.cmm_types.specs.declared.plan.TheConstants.{MAX_CPUS, MAX_GUEST_PAGES};
ghost use Rattle.cmm_types.specs.InRange.{GuestInRange};
ghost use Rattle.guest_rules.specs.Cause.{TurnCause, NoWrongDiscard};
ghost use Rattle.cmm_vcpu.specs.KernelState.{IsKernel, IsOpening, IsDone, AllDone, HasRun, pages_seen, disk_seen, words_of, own_words, pool_of, opening_kernel};
ghost use Rattle.cmm_vcpu.specs.LastLooks.{HasLooked, looked_kernel};

use cmm_io::MemDisk;
use cmm_types::{GuestPlan, Turn};
use essa_state::Word;
use frame_pool::Pool;
use guest_core::Guest;
use host_shared::{PageBody, WordStorage};
use state_words::Words;
use std::alloc::{AllocError, Global};
use std::marker::Model;

/// A guest, its disk, and its pages between two turns.
#[derive(Drop)]
pub struct Kernel {
    guest: Guest,
    disk: MemDisk,
    storage: WordStorage,
    /// The words that the last loads of all pages found. There is room for one of each page.
    looked: Vec<Word>,
}

impl Model for Kernel {
    ghost use Rattle.std.specs.Prelude.{◌≤◌, vec_capacity};
    ghost use Rattle.cmm_vcpu.specs.KernelState.{KernelState, IsKernel};

    ghost Value = { KernelState };

    ghost view = { λ k. record { guest = k.guest; disk = k.disk; storage = k.storage; looked = k.looked.items } };

    ghost invariant = { λ k. IsKernel (record { guest = k.guest; disk = k.disk; storage = k.storage; looked = k.looked.items }) × (k.guest.plan.pages ≤ vec_capacity k.looked) };
}

impl Kernel {
    /// A kernel of the plan before its first turn, over a storage before its first call. It takes all memory that the
    /// turns need.
    pub fn open(alloc: Global, plan: &GuestPlan, storage: WordStorage) -> Result<Kernel, AllocError>
        requires range { GuestInRange plan.now }
        requires storage { IsOpening plan.now storage }
        ensures { IfOk result (λ kernel. kernel ≡ opening_kernel plan.now storage) }
    {
        let guest = Guest::open(alloc, plan)?;
        let disk = MemDisk::of_plan(alloc, plan)?;
        let looked = Vec::with_capacity(alloc, plan.pages as usize)?;
        Ok(Kernel {
            guest,
            disk,
            storage,
            looked,
        })
    }

    /// One turn of a processor, over the guest's pages as the words and the pool have them.
    pub fn turn(&mut self, words: &[Words<PageBody>], pool: &Pool, cpu: u32) -> Turn
        requires words { words.now ≡ words_of self.old }
        requires pool { pool.now ≡ pool_of self.old }
        requires cpu { cpu < length self.old.guest.plan.cpus }
        ensures kernel { IsKernel self.new }
        ensures causes { TurnCause self.old.guest (pages_seen self.old) (disk_seen self.old) cpu result self.new.guest (pages_seen self.new) (disk_seen self.new) }
        ensures discards { NoWrongDiscard (pages_seen self.old) (pages_seen self.new) }
        ensures plan { self.new.guest.plan ≡ self.old.guest.plan }
        ensures words { words_of self.new ≡ words_of self.old }
        ensures own { own_words self.new ≡ own_words self.old }
        ensures pool { pool_of self.new ≡ pool_of self.old }
    {
        let mut pages = self.storage.bind(words, pool);
        self.guest.step(cpu, &mut pages, &mut self.disk)
    }

    /// The word of a page, as one load by the guest's seat finds it, which counts at least as many discards as the guest
    /// knows of.
    #[tactic(auto, using(crate::proofs::Looked::none_held, crate::proofs::Looked::has_page))]
    pub fn look(&mut self, words: &[Words<PageBody>], pool: &Pool, page: u32) -> Word
        requires words { words.now ≡ words_of self.old }
        requires pool { pool.now ≡ pool_of self.old }
        requires page { page < self.old.guest.plan.pages }
        ensures kernel { IsKernel self.new }
        ensures looked { self.new ≡ looked_kernel self.old page result }
        ensures counted { ((pages_seen self.old).values page).count ≤ result.count }
    {
        self.storage.bind(words, pool).look(page)
    }

    /// Loads each page's word once, in the pages' order, and keeps what was found.
    #[tactic(auto, using(crate::proofs::LookedAll::kernel_forgot, crate::proofs::LookedAll::looks_none, crate::proofs::LookedAll::looks_next, crate::proofs::LookedAll::looks_done))]
    pub fn look_at_all(&mut self, words: &[Words<PageBody>], pool: &Pool)
        requires words { words.now ≡ words_of self.old }
        requires pool { pool.now ≡ pool_of self.old }
        ensures { HasLooked self.old self.new }
    {
        self.looked.clear();
        for page in 0..self.guest.plan().pages {
            let word = self.look(words, pool, page);
            self.looked.push_reserved(word);
        }
    }

    /// The words that the last loads of all pages found; none before the first.
    pub fn looked(&self) -> &[Word]
        ensures looked { result.now ≡ self.now.looked }
        ensures few { length result.now ≤ MAX_GUEST_PAGES }
    {
        let _ = self.guest.faults();
        self.looked.as_slice()
    }

    /// How many processors there are.
    pub fn cpus(&self) -> u32
        ensures count { result ≡ length self.now.guest.plan.cpus }
        ensures few { result ≤ MAX_CPUS }
    {
        self.guest.plan().cpus.len() as u32
    }

    /// Whether a processor has no command left.
    pub fn done(&self, cpu: u32) -> bool
        requires { cpu < length self.now.guest.plan.cpus }
        ensures { IsTrue result ↔ IsDone self.now.guest cpu }
    {
        self.guest.done(cpu)
    }

    /// Shows what stands once all processors are done. It does nothing.
    pub fn has_run(&self)
        requires { AllDone self.now.guest }
        ensures { HasRun self.now.guest.plan self.now }
    {
        let _ = self.guest.faults();
    }

    pub fn guest(&self) -> &Guest
        ensures { result.now ≡ self.now.guest }
    {
        &self.guest
    }

    pub fn disk(&self) -> &MemDisk
        ensures { result.now ≡ self.now.disk }
    {
        &self.disk
    }
}
