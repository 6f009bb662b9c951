// What a guest does with its pages, and what a reclaimer does.
ghost use Rattle.std.specs.Prelude.{◌≡◌, ◌<◌, ◌≤◌, ◌^◌, None};
ghost use Rattle.std.specs.List.{sum_by};
ghost use Rattle.host_shared.specs.Binding.{IsBoundTo};
ghost use Rattle.host_shared.specs.Served.{storage_of, bound_words, bound_pool};
ghost use Rattle.host_shared.specs.Reclaiming.{CanReclaim};

use cmm_pager::MemPager;
use cmm_storage::{Storage, Trap};
use essa_state::Order;
use frame_pool::{Pool, PoolSeat};
use host_shared::{Bound, PageBody, PassGate, WordStorage, reclaim_pass};
use state_words::{HostSeat, Words};
use std::thread::{Threads, join_mut};

/// What a reclaimer needs.
#[derive(Drop)]
pub struct Reclaimer {
    pub seats: Vec<HostSeat<PageBody>>,
    pub pager: MemPager,
    pub pool_seat: PoolSeat,
}

/// What a guest sees of a page.
#[derive(Clone, Copy, Debug, PartialEq, Eq)]
pub enum Seen {
    Busy,
    Trapped(Trap),
    Lost,
    Wrote { changed: bool },
    Read([u8; 4]),
}

const OFF: usize = 4092;

/// Writes four bytes at the page's end, and leaves the page with this order.
pub fn write(bound: &mut Bound<'_>, page: u32, bytes: [u8; 4], leave: Order) -> Seen
    requires page { page < (storage_of bound.old).seat.words.pages }
    requires none_held { (storage_of bound.old).held ≡ None }
    ensures none_held { (storage_of bound.new).held ≡ None }
    ensures seat { (storage_of bound.new).seat.words ≡ (storage_of bound.old).seat.words }
    ensures same { bound.new.storage.ghost_name ≡ bound.old.storage.ghost_name }
    ensures words { bound_words bound.new ≡ bound_words bound.old }
    ensures pool { bound_pool bound.new ≡ bound_pool bound.old }
{
    if bound.take(page).is_err() {
        return Seen::Busy;
    }
    bound.order(page, Order::SetStable);
    match bound.touch(page) {
        Err(trap) => {
            bound.put(page);
            Seen::Trapped(trap)
        }
        Ok(()) => {
            bound.store(page, OFF, &bytes);
            let changed = bound.take_change(page);
            bound.order(page, leave);
            bound.put(page);
            Seen::Wrote { changed }
        }
    }
}

/// Reads them again, unless the page was discarded meanwhile, and leaves it stable.
pub fn read(bound: &mut Bound<'_>, page: u32) -> Seen
    requires page { page < (storage_of bound.old).seat.words.pages }
    requires none_held { (storage_of bound.old).held ≡ None }
    ensures none_held { (storage_of bound.new).held ≡ None }
    ensures seat { (storage_of bound.new).seat.words ≡ (storage_of bound.old).seat.words }
    ensures same { bound.new.storage.ghost_name ≡ bound.old.storage.ghost_name }
    ensures words { bound_words bound.new ≡ bound_words bound.old }
    ensures pool { bound_pool bound.new ≡ bound_pool bound.old }
{
    if bound.take(page).is_err() {
        return Seen::Busy;
    }
    if !bound.order(page, Order::SetStableIf).done {
        bound.order(page, Order::SetUnused);
        bound.put(page);
        return Seen::Lost;
    }
    match bound.touch(page) {
        Err(trap) => {
            bound.put(page);
            Seen::Trapped(trap)
        }
        Ok(()) => {
            let mut bytes = [0; 4];
            bound.fetch(page, OFF, &mut bytes);
            bound.put(page);
            Seen::Read(bytes)
        }
    }
}

/// Writes one page after another, so many times, and leaves two of three volatile.
pub fn guest_turns(
    storage: &mut WordStorage,
    words: &[Words<PageBody>],
    pool: &Pool,
    pages: u32,
    turns: u32,
)
    requires bound { IsBoundTo words.now pool.now storage.old }
    requires none_held { storage.old.held ≡ None }
    requires some { 0 < pages }
    requires pages { pages ≤ storage.old.seat.words.pages }
    ensures bound { IsBoundTo words.now pool.now storage.new }
    ensures none_held { storage.new.held ≡ None }
{
    for turn in 0..turns {
        let leave = if turn % 3 == 0 {
            Order::SetStable
        } else {
            Order::SetVolatile
        };
        write(
            &mut storage.bind(words, pool),
            turn % pages,
            [1, 2, 3, 4],
            leave,
        );
    }
}

/// Passes over all pages, so many times. Answers how many frames the last pass freed.
pub fn reclaim_turns(
    words: &[Words<PageBody>],
    reclaimer: &mut Reclaimer,
    pool: &Pool,
    turns: u32,
) -> u32
    requires can { CanReclaim words.now pool.now reclaimer.old.seats.items reclaimer.old.pool_seat }
    requires few { sum_by (λ w. w.pages) words.now < 2 ^ 32 }
    ensures can { CanReclaim words.now pool.now reclaimer.new.seats.items reclaimer.new.pool_seat }
{
    let mut freed = 0;
    for _ in 0..turns {
        freed = reclaim_pass(
            words,
            &mut reclaimer.seats,
            &mut reclaimer.pager,
            pool,
            &mut reclaimer.pool_seat,
            &PassGate,
            0,
        );
    }
    freed
}

/// The same by two reclaimers beside each other.
pub fn reclaim_by_two<R: Threads + Sync>(
    rt: &R,
    words: &[Words<PageBody>],
    first: &mut Reclaimer,
    second: &mut Reclaimer,
    pool: &Pool,
    turns: u32,
) -> (u32, u32)
    requires first { CanReclaim words.now pool.now first.old.seats.items first.old.pool_seat }
    requires second { CanReclaim words.now pool.now second.old.seats.items second.old.pool_seat }
    requires few { sum_by (λ w. w.pages) words.now < 2 ^ 32 }
    ensures first { CanReclaim words.now pool.now first.new.seats.items first.new.pool_seat }
    ensures second { CanReclaim words.now pool.now second.new.seats.items second.new.pool_seat }
{
    join_mut(
        rt,
        &mut || reclaim_turns(words, first, pool, turns),
        &mut || reclaim_turns(words, second, pool, turns),
    )
}
