// A reclaimer of the host, which makes passes over all pages until the guests have ended.
ghost use Rattle.std.specs.Prelude.{◌≡◌, ◌<◌, ◌^◌, map};
ghost use Rattle.std.specs.List.{sum_by};
ghost use Rattle.host_shared.specs.Reclaiming.{CanReclaim};

use crate::ended::all_ended;
use cmm_pager::MemPager;
use crossbeam_utils::atomic::AtomicCell;
use frame_pool::{Pool, PoolSeat};
use host_shared::{Gate, PageBody, reclaim_pass};
use state_words::{HostSeat, Words};
use std::marker::Model;
use std::sync::Wait;
use std::thread;

/// A seat of the host at each guest's words, a pager of the reclaimer's own, and a seat at the pool.
#[derive(Drop)]
pub struct Reclaimer {
    pub(crate) seats: Vec<HostSeat<PageBody>>,
    pub(crate) pager: MemPager,
    pub(crate) pool_seat: PoolSeat,
}

impl Model for Reclaimer {
    ghost use Rattle.cmm_vcpu.specs.Machines.{ReclaimerState};

    ghost Value = { ReclaimerState };

    ghost view = { λ r. record { seats = r.seats.items; pager = r.pager; pool = r.pool_seat } };
}

impl Reclaimer {
    // Reclaims every page once. Answers how many frames that freed.
    fn pass<G: Gate>(
        &mut self,
        words: &[Words<PageBody>],
        pool: &Pool,
        gate: &G,
        number: u32,
    ) -> u32
        requires can { CanReclaim words.now pool.now self.old.seats self.old.pool }
        requires few { sum_by (λ w. w.pages) words.now < 2 ^ 32 }
        ensures { CanReclaim words.now pool.now self.new.seats self.new.pool }
    {
        reclaim_pass(
            words,
            self.seats.as_mut_slice(),
            &mut self.pager,
            pool,
            &mut self.pool_seat,
            gate,
            number,
        )
    }

    /// Makes passes until each guest's group has ended. Where a pass freed nothing, other threads go first.
    pub fn run<R: Wait, G: Gate>(
        &mut self,
        rt: &R,
        words: &[Words<PageBody>],
        pool: &Pool,
        ended: &[AtomicCell<u32>],
        gate: &G,
        number: u32,
    )
        requires can { CanReclaim words.now pool.now self.old.seats self.old.pool }
        requires few { sum_by (λ w. w.pages) words.now < 2 ^ 32 }
        ensures { CanReclaim words.now pool.now self.new.seats self.new.pool }
    {
        for _ in rt.forever() {
            if all_ended(ended) {
                return;
            }
            if self.pass(words, pool, gate, number) == 0 {
                thread::yield_now();
            }
        }
    }
}
