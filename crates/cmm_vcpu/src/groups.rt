// The threads of one guest or of one reclaimer, and all of them.
ghost use Rattle.std.specs.Prelude.{◌≡◌, ◌<◌, ◌^◌, ℕ, length, is_some, true, slice_index_or};
ghost use Rattle.std.specs.List.{sum_by};
ghost use Rattle.cmm_vcpu.specs.Machines.{IsReady, KernelReady, ReclaimerReady, HasEnded, KernelEnded, ReclaimerEnded, GroupLooked, GroupOver, kernel_in, no_group};

use crate::ended::tell;
use crate::group::run_kernel;
use crate::kernel::Kernel;
use crate::reclaimer::Reclaimer;
use cmm_types::{MAX_GUESTS, MAX_RECLAIMERS};
use crossbeam_utils::atomic::AtomicCell;
use frame_pool::Pool;
use host_shared::{Gate, PageBody};
use state_words::Words;
use std::marker::Model;
use std::sync::Wait;
use std::thread::Threads;
use std::{mem, thread};

/// The most groups: one for each guest, and one for each reclaimer.
pub(crate) const MOST_GROUPS: usize = (MAX_GUESTS + MAX_RECLAIMERS) as usize;

/// The threads of a guest, or that of a reclaimer, which has no kernel.
#[derive(Drop)]
pub struct Group {
    pub(crate) kernel: Option<Kernel>,
    pub(crate) reclaimer: Option<Reclaimer>,
    /// A place for each processor's thread. Nothing is kept there.
    pub(crate) cpus: Vec<u32>,
}

impl Model for Group {
    ghost use Rattle.cmm_vcpu.specs.Machines.{GroupState};

    ghost Value = { GroupState };

    ghost view = { λ g. record { kernel = g.kernel; reclaimer = g.reclaimer; cpus = g.cpus.items } };
}

impl Group {
    pub(crate) fn kernel(&self) -> &Kernel
        requires { is_some self.now.kernel ≡ true }
        ensures { result.now ≡ kernel_in self.now.kernel }
    {
        match &self.kernel {
            Some(kernel) => kernel,
            None => unreachable!(),
        }
    }

    // Makes passes, where the group is a reclaimer's.
    #[tactic(auto, using(crate::proofs::GroupsEnded::can_again))]
    fn run_reclaimer<R: Wait, G: Gate>(
        &mut self,
        rt: &R,
        number: u32,
        words: &[Words<PageBody>],
        pool: &Pool,
        ended: &[AtomicCell<u32>],
        gate: &G,
    )
        requires ready { ReclaimerReady words.now pool.now self.old.reclaimer }
        requires few_pages { sum_by (λ w. w.pages) words.now < 2 ^ 32 }
        ensures kernel { self.new.kernel ≡ self.old.kernel }
        ensures reclaimer { ReclaimerEnded self.old.reclaimer self.new.reclaimer }
        ensures cpus { self.new.cpus ≡ self.old.cpus }
    {
        if let Some(reclaimer) = &mut self.reclaimer {
            reclaimer.run(rt, words, pool, ended, gate, number);
        }
    }

    // Runs the processors' threads, where the group is a guest's.
    fn run_processors<R: Threads + Wait + Sync, G: Gate + Sync>(
        &mut self,
        rt: &R,
        number: usize,
        words: &[Words<PageBody>],
        pool: &Pool,
        ended: &[AtomicCell<u32>],
        gate: &G,
    )
        requires ready { KernelReady words.now pool.now (length self.old.cpus) self.old.kernel }
        requires few { number < 2 ^ 32 }
        ensures kernel { KernelEnded self.old.kernel self.new.kernel }
        ensures reclaimer { self.new.reclaimer ≡ self.old.reclaimer }
        ensures cpus { length self.new.cpus ≡ length self.old.cpus }
    {
        match self.kernel.take() {
            Some(kernel) => {
                let cpus = self.cpus.as_mut_slice();
                let kernel = run_kernel(rt, kernel, cpus, words, pool, gate, number as u32);
                match mem::replace(&mut self.kernel, Some(kernel)) {
                    None => tell(ended, number),
                    Some(_) => unreachable!(),
                }
            }
            None => {}
        }
    }

    // Looks at each page's word, where the group is a guest's.
    fn look(&mut self, words: &[Words<PageBody>], pool: &Pool)
        requires { KernelReady words.now pool.now (length self.old.cpus) self.old.kernel }
        ensures { GroupLooked self.old self.new }
    {
        if let Some(kernel) = &mut self.kernel {
            kernel.look_at_all(words, pool);
        }
    }

    // Runs the threads of the group.
    fn run<R: Threads + Wait + Sync, G: Gate + Sync>(
        &mut self,
        rt: &R,
        number: usize,
        words: &[Words<PageBody>],
        pool: &Pool,
        ended: &[AtomicCell<u32>],
        gate: &G,
    )
        requires ready { IsReady words.now pool.now self.old }
        requires few_pages { sum_by (λ w. w.pages) words.now < 2 ^ 32 }
        requires few { number < 2 ^ 32 }
        ensures { HasEnded self.old self.new }
    {
        self.run_reclaimer(rt, number as u32, words, pool, ended, gate);
        self.run_processors(rt, number, words, pool, ended, gate);
    }
}

// After the groups have ended: the last looks of all guests.
#[tactic(auto, using(crate::proofs::GroupsEnded::looks_start, crate::proofs::GroupsEnded::over_more))]
fn look_at_all(groups: &mut [Group], words: &[Words<PageBody>], pool: &Pool)
    requires ready { (i : ℕ) → i < length groups.old → IsReady words.now pool.now (slice_index_or groups.old i no_group) }
    ensures count { length groups.new ≡ length groups.old }
    ensures each { (i : ℕ) → i < length groups.old → GroupLooked (slice_index_or groups.old i no_group) (slice_index_or groups.new i no_group) }
{
    for i in 0..groups.len() {
        groups[i].look(words, pool);
    }
}

/// Runs the groups, each in threads of its own, and then looks at each guest's words.
pub(crate) fn run_groups<R: Threads + Wait + Sync, G: Gate + Sync>(
    rt: &R,
    groups: &mut [Group],
    words: &[Words<PageBody>],
    pool: &Pool,
    ended: &[AtomicCell<u32>],
    gate: &G,
)
    requires ready { (i : ℕ) → i < length groups.old → IsReady words.now pool.now (slice_index_or groups.old i no_group) }
    requires few_pages { sum_by (λ w. w.pages) words.now < 2 ^ 32 }
    requires few { length groups.old < 2 ^ 32 }
    ensures count { length groups.new ≡ length groups.old }
    ensures each { (i : ℕ) → i < length groups.old → GroupOver (slice_index_or groups.old i no_group) (slice_index_or groups.new i no_group) }
{
    thread::for_each_mut(
        rt,
        groups,
        MOST_GROUPS,
        &|i: usize, group: &mut Group|
            requires ready { IsReady words.now pool.now group.now }
            requires few_pages { sum_by (λ w. w.pages) words.now < 2 ^ 32 }
            requires few { i < 2 ^ 32 }
            ensures { HasEnded group.entry.now group.exit.now }
        { group.run(rt, i, words, pool, ended, gate) },
    );
    look_at_all(groups, words, pool);
}
