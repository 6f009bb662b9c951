// One guest's words with a pool of frames, the guest's storage and two reclaimers, and what is left of them at the end.
ghost use Rattle.std.specs.Prelude.{◌≡◌, ◌≤◌, ◌<◌, ◌∷◌, [], None, All, IfOk, length, map, ◌^◌};
ghost use Rattle.cmm_types.specs.declared.plan.TheConstants.{MAX_FRAMES};
ghost use Rattle.frame_pool.specs.Seats.{frame_count};
ghost use Rattle.state_words.specs.WordsRule.{FitsStart};
ghost use Rattle.state_words.specs.SeatView.{IsGuestSeat};
ghost use Rattle.host_shared.specs.Bodies.{lent_body, body_house};
ghost use Rattle.host_shared.specs.Reclaiming.{CanReclaim};
ghost use Rattle.host_shared_tests.specs.Hosts.{IsHosted};

use crate::turns::Reclaimer;
use cmm_pager::{MemBlock, MemPager};
use frame_pool::{Pool, PoolSeat};
use host_shared::{PageBody, WordStorage};
use page_arena::Region;
use state_words::{GuestSeat, HostSeat, Words};
use std::alloc::{AllocError, Global};

/// The words of one guest, its storage, two reclaimers, the pool, and a seat at the words and at the pool.
#[derive(Drop)]
pub struct Hosted {
    pub region: Region,
    pub pool: Pool,
    pub seat: PoolSeat,
    pub words: Vec<Words<PageBody>>,
    pub host: HostSeat<PageBody>,
    pub storage: WordStorage,
    pub first: Reclaimer,
    pub second: Reclaimer,
}

/// What is left of it.
#[derive(Clone, Copy, Debug, PartialEq, Eq)]
pub struct Left {
    /// Pages that somebody held still.
    pub busy: u32,
    /// Frames that bodies had.
    pub lent: u32,
    /// Frames that were neither there nor in the pool.
    pub out: u32,
}

fn pool_of(alloc: Global, frames: u32) -> Result<(Region, Pool, PoolSeat), AllocError>
    requires some { 1 ≤ frames }
    requires most { frames ≤ MAX_FRAMES }
    ensures seat { IfOk result (λ made. made.2.pool ≡ made.1) }
    ensures region { IfOk result (λ made. made.1.region ≡ made.0) }
    ensures frames { IfOk result (λ made. frame_count made.1 ≡ frames) }
{
    let (region, free) = Region::new(alloc, frames)?;
    match Pool::open(alloc, free) {
        Ok((pool, seat)) => Ok((region, pool, seat)),
        Err(_) => Err(AllocError),
    }
}

/// So many bodies without a frame, each with a block of zeros and a mark of the pool.
pub fn bodies_of(
    alloc: Global,
    pool: &Pool,
    seat: &mut PoolSeat,
    count: u32,
) -> Result<Vec<PageBody>, AllocError>
    requires { seat.old.pool ≡ pool.now }
    ensures same { seat.new ≡ seat.old }
    ensures count { IfOk result (λ bodies. length bodies.items ≡ count) }
    ensures start { IfOk result (λ bodies. All (FitsStart lent_body body_house pool.now.table) bodies.items) }
{
    let mut bodies = Vec::new(alloc);
    for block in MemBlock::open_all(alloc, count)? {
        bodies.push(PageBody::new(block, seat.mark(pool)))?;
    }
    Ok(bodies)
}

fn words_of(
    alloc: Global,
    pool: &Pool,
    seat: &mut PoolSeat,
    pages: u32,
) -> Result<(Words<PageBody>, GuestSeat<PageBody>, HostSeat<PageBody>), AllocError>
    requires seat { seat.old.pool ≡ pool.now }
    requires some { 0 < pages }
    ensures same { seat.new ≡ seat.old }
    ensures pages { IfOk result (λ made. made.0.pages ≡ pages) }
    ensures house { IfOk result (λ made. made.0.house ≡ pool.now.table) }
    ensures guest { IfOk result (λ made. made.1.words ≡ made.0) }
    ensures host { IfOk result (λ made. made.2.words ≡ made.0) }
    ensures guest_seat { IfOk result (λ made. IsGuestSeat made.1) }
    ensures guest_idle { IfOk result (λ made. made.1.view.held ≡ None) }
    ensures host_idle { IfOk result (λ made. made.2.view.held ≡ None) }
{
    let bodies = bodies_of(alloc, pool, seat, pages)?;
    match Words::open(alloc, bodies) {
        Ok(made) => Ok(made),
        Err(_) => Err(AllocError),
    }
}

fn seats_of(
    alloc: Global,
    words: &mut Words<PageBody>,
    host: &mut HostSeat<PageBody>,
) -> Result<Vec<HostSeat<PageBody>>, AllocError>
    requires { host.old.words ≡ words.old }
    ensures words { words.new ≡ words.old }
    ensures same { host.new ≡ host.old }
    ensures seats { IfOk result (λ seats. map (λ s. s.words) seats.items ≡ words.old ∷ []) }
    ensures idle { IfOk result (λ seats. All (λ s. s.view.held ≡ None) seats.items) }
{
    let mut seats = Vec::new(alloc);
    seats.push(host.split(words))?;
    Ok(seats)
}

fn reclaimer_of(
    alloc: Global,
    words: &mut Words<PageBody>,
    host: &mut HostSeat<PageBody>,
    pool: &Pool,
    seat: &mut PoolSeat,
) -> Result<Reclaimer, AllocError>
    requires host { host.old.words ≡ words.old }
    requires house { words.old.house ≡ pool.now.table }
    requires seat { seat.old.pool ≡ pool.now }
    ensures words { words.new ≡ words.old }
    ensures host { host.new ≡ host.old }
    ensures seat { seat.new ≡ seat.old }
    ensures can { IfOk result (λ made. CanReclaim (words.old ∷ []) pool.now made.seats.items made.pool_seat) }
{
    Ok(Reclaimer {
        seats: seats_of(alloc, words, host)?,
        pager: MemPager::open(alloc, &[])?,
        pool_seat: seat.split(pool),
    })
}

/// So many frames, and so many pages of a guest whose pager fails at these of its calls.
pub fn open(alloc: Global, frames: u32, pages: u32, fails: &[u32]) -> Result<Hosted, AllocError>
    requires some_frames { 1 ≤ frames }
    requires most_frames { frames ≤ MAX_FRAMES }
    requires some_pages { 0 < pages }
    ensures { IfOk result (λ hosted. IsHosted frames pages hosted) }
{
    let (region, pool, mut seat) = pool_of(alloc, frames)?;
    let (mut table, guest, mut host) = words_of(alloc, &pool, &mut seat, pages)?;
    let own = seats_of(alloc, &mut table, &mut host)?;
    let first = reclaimer_of(alloc, &mut table, &mut host, &pool, &mut seat)?;
    let second = reclaimer_of(alloc, &mut table, &mut host, &pool, &mut seat)?;
    let pager = MemPager::open(alloc, fails)?;
    let storage = WordStorage::open(0, guest, own, seat.split(&pool), pager);
    let mut words = Vec::new(alloc);
    words.push(table)?;
    Ok(Hosted {
        region,
        pool,
        seat,
        words,
        host,
        storage,
        first,
        second,
    })
}

/// Gives the frame of a body, if it has one, back to the pool. Answers how many that were.
fn give_back(pool: &Pool, seat: &mut PoolSeat, mut body: PageBody) -> u32
    requires seat { seat.old.pool ≡ pool.now }
    requires house { body_house body ≡ pool.now.table }
    ensures pool { seat.new.pool ≡ seat.old.pool }
    ensures few { result ≤ 1 }
{
    match body.discard() {
        Some(loan) => {
            pool.give(seat, loan);
            1
        }
        None => 0,
    }
}

fn give_all(pool: &Pool, seat: &mut PoolSeat, mut bodies: Vec<PageBody>) -> u32
    requires seat { seat.old.pool ≡ pool.now }
    requires few { length bodies.items < 2 ^ 32 }
    requires house { All (λ b. body_house b ≡ pool.now.table) bodies.items }
    ensures pool { seat.new.pool ≡ seat.old.pool }
{
    let mut lent = 0;
    while let Some(body) = bodies.pop() {
        lent += give_back(pool, seat, body);
    }
    lent
}

/// Closes words and pool, with the bodies' frames.
pub fn close(alloc: Global, hosted: Hosted, frames: u32, pages: u32) -> Result<Left, AllocError>
    requires { IsHosted frames pages hosted }
{
    let Hosted {
        region,
        pool,
        mut seat,
        mut words,
        host,
        storage,
        first,
        second,
    } = hosted;
    drop(first);
    drop(second);
    let mut home = Vec::with_capacity(alloc, pages as usize)?;
    let mut free = Vec::with_capacity(alloc, frames as usize)?;
    let (guest, _, mine, _) = storage.parts();
    seat.join(&pool, mine);
    let Some(table) = words.pop() else {
        unreachable!()
    };
    let busy = table.close(guest, host, &mut home);
    let lent = give_all(&pool, &mut seat, home);
    let out = pool.close(seat, &mut free);
    let _ = region.close(free);
    Ok(Left { busy, lent, out })
}
