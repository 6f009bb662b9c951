// What all threads share, and each guest's storage, before the first turn.
ghost use Rattle.std.specs.Prelude.{◌≡◌, ◌≤◌, ◌<◌, ◌^◌, None, All, IfOk, length, map};
ghost use Rattle.cmm_types.specs.declared.plan.TheConstants.{MAX_FRAMES};
ghost use Rattle.cmm_types.specs.InRange.{GuestInRange};
ghost use Rattle.frame_pool.specs.Seats.{frame_count};
ghost use Rattle.state_words.specs.WordsRule.{FitsStart};
ghost use Rattle.state_words.specs.SeatView.{IsGuestSeat, guest_first};
ghost use Rattle.host_shared.specs.Bodies.{lent_body, body_house};
ghost use Rattle.cmm_vcpu.specs.Opening.{AreTables};

use crate::closing::close_region;
use cmm_pager::MemBlock;
use cmm_types::GuestPlan;
use frame_pool::{NoPool, Pool, PoolSeat};
use host_shared::PageBody;
use page_arena::Region;
use state_words::{GuestSeat, HostSeat, Words};
use std::alloc::{AllocError, Global};

/// The words of all guests, and at each of them the guest's seat and a seat of the host.
#[derive(Drop)]
pub struct Tables {
    pub words: Vec<Words<PageBody>>,
    pub guests: Vec<GuestSeat<PageBody>>,
    pub hosts: Vec<HostSeat<PageBody>>,
}

/// A pool of so many frames, their region, and a seat at the pool. Without memory for the pool the region is closed again.
pub(crate) fn open_pool(alloc: Global, frames: u32) -> Result<(Region, Pool, PoolSeat), AllocError>
    requires some { 1 ≤ frames }
    requires most { frames ≤ MAX_FRAMES }
    ensures seat { IfOk result (λ made. made.2.pool ≡ made.1) }
    ensures region { IfOk result (λ made. made.1.region ≡ made.0) }
    ensures frames { IfOk result (λ made. frame_count made.1 ≡ frames) }
    ensures count { IfOk result (λ made. made.0.count ≡ frames) }
{
    let (region, free) = Region::new(alloc, frames)?;
    match Pool::open(alloc, free) {
        Ok((pool, seat)) => Ok((region, pool, seat)),
        Err(NoPool { frames }) => {
            let _ = close_region(region, frames.into_vec());
            Err(AllocError)
        }
    }
}

// So many bodies without a frame, each with a block of zeros and a mark of the pool.
fn open_bodies(
    alloc: Global,
    pool: &Pool,
    seat: &mut PoolSeat,
    count: u32,
) -> Result<Vec<PageBody>, AllocError>
    requires { seat.old.pool ≡ pool.now }
    ensures same { seat.new ≡ seat.old }
    ensures count { IfOk result (λ bodies. length bodies.items ≡ count) }
    ensures start { IfOk result (λ bodies. All (FitsStart lent_body body_house pool.now.table) bodies.items) }
{
    let mut bodies = Vec::with_capacity(alloc, count as usize)?;
    for block in MemBlock::open_all(alloc, count)? {
        bodies.push(PageBody::new(block, seat.mark(pool)))?;
    }
    Ok(bodies)
}

// The words of one guest, its seat and a first seat of the host.
fn open_words(
    alloc: Global,
    pool: &Pool,
    seat: &mut PoolSeat,
    pages: u32,
) -> Result<(Words<PageBody>, GuestSeat<PageBody>, HostSeat<PageBody>), AllocError>
    requires seat { seat.old.pool ≡ pool.now }
    requires some { 0 < pages }
    ensures same { seat.new ≡ seat.old }
    ensures pages { IfOk result (λ made. made.0.pages ≡ pages) }
    ensures house { IfOk result (λ made. made.0.house ≡ pool.now.table) }
    ensures guest { IfOk result (λ made. made.1.words ≡ made.0) }
    ensures first { IfOk result (λ made. made.1.view ≡ guest_first made.0.pages made.0.house) }
    ensures guest_seat { IfOk result (λ made. IsGuestSeat made.1) }
    ensures host { IfOk result (λ made. made.2.words ≡ made.0) }
    ensures host_idle { IfOk result (λ made. made.2.view.held ≡ None) }
{
    let bodies = open_bodies(alloc, pool, seat, pages)?;
    match Words::open(alloc, bodies) {
        Ok(made) => Ok(made),
        Err(_) => Err(AllocError),
    }
}

/// The words of all guests.
pub(crate) fn open_tables(
    alloc: Global,
    pool: &Pool,
    seat: &mut PoolSeat,
    plans: &[GuestPlan],
) -> Result<Tables, AllocError>
    requires seat { seat.old.pool ≡ pool.now }
    requires range { All GuestInRange plans.now }
    ensures same { seat.new ≡ seat.old }
    ensures tables { IfOk result (λ t. AreTables plans.now pool.now t.words.items t.guests.items t.hosts.items) }
{
    let mut tables = Tables {
        words: Vec::with_capacity(alloc, plans.len())?,
        guests: Vec::with_capacity(alloc, plans.len())?,
        hosts: Vec::with_capacity(alloc, plans.len())?,
    };
    for plan in plans {
        let (words, guest, host) = open_words(alloc, pool, seat, plan.pages)?;
        tables.words.push(words)?;
        tables.guests.push(guest)?;
        tables.hosts.push(host)?;
    }
    Ok(tables)
}

// A seat of the host more at each guest's words.
pub(crate) fn seats_of(
    alloc: Global,
    words: &mut [Words<PageBody>],
    hosts: &mut [HostSeat<PageBody>],
) -> Result<Vec<HostSeat<PageBody>>, AllocError>
    requires hosts { map (λ s. s.words) hosts.old ≡ words.old }
    ensures words { words.new ≡ words.old }
    ensures same { hosts.new ≡ hosts.old }
    ensures seats { IfOk result (λ seats. map (λ s. s.words) seats.items ≡ words.old) }
    ensures idle { IfOk result (λ seats. All (λ s. s.view.held ≡ None) seats.items) }
{
    let mut seats = Vec::with_capacity(alloc, words.len())?;
    for guest in 0..words.len() {
        seats.push(hosts[guest].split(&mut words[guest]))?;
    }
    Ok(seats)
}
