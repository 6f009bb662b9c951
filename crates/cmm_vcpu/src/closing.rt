// The frames of a machine that ends.
ghost use Rattle.std.specs.Prelude.{◌≡◌, ◌<◌, ◌≤◌, All, length, vec_capacity};
ghost use Rattle.page_arena.specs.FrameView.{IsOf, missing};
ghost use Rattle.frame_pool.specs.Seats.{frame_count};
ghost use Rattle.host_shared.specs.Bodies.{body_house};
ghost use Rattle.host_shared.specs.Reclaiming.{CanReclaim};
ghost use Rattle.cmm_vcpu.specs.Closing.{CanClose, Loses};

use frame_pool::{Pool, PoolSeat};
use host_shared::PageBody;
use page_arena::{Frame, Region};
use state_words::{HostSeat, Words};

// Gives the frame of a body, if it has one, back to the pool.
fn give_back(pool: &Pool, seat: &mut PoolSeat, mut body: PageBody)
    requires seat { seat.old.pool ≡ pool.now }
    requires house { body_house body ≡ pool.now.table }
    ensures { seat.new.pool ≡ seat.old.pool }
{
    if let Some(loan) = body.discard() {
        pool.give(seat, loan);
    }
}

// Takes the body of a page for good, and gives its frame back. A page that somebody holds is left.
fn close_page(
    words: &mut Words<PageBody>,
    host: &mut HostSeat<PageBody>,
    page: u32,
    pool: &Pool,
    seat: &mut PoolSeat,
)
    requires words { host.old.words ≡ words.old }
    requires page { page < words.old.pages }
    requires house { words.old.house ≡ pool.now.table }
    requires seat { seat.old.pool ≡ pool.now }
    ensures words { words.new ≡ words.old }
    ensures host { host.new ≡ host.old }
    ensures seat { seat.new.pool ≡ seat.old.pool }
{
    let mut taker = host.split(words);
    if let Ok((_, body)) = taker.claim(words, page) {
        give_back(pool, seat, body);
    }
}

// And so with each page of a guest.
fn close_words(
    words: &mut Words<PageBody>,
    host: &mut HostSeat<PageBody>,
    pool: &Pool,
    seat: &mut PoolSeat,
)
    requires words { host.old.words ≡ words.old }
    requires house { words.old.house ≡ pool.now.table }
    requires seat { seat.old.pool ≡ pool.now }
    ensures words { words.new ≡ words.old }
    ensures host { host.new ≡ host.old }
    ensures seat { seat.new.pool ≡ seat.old.pool }
{
    for page in 0..words.pages() {
        close_page(words, host, page, pool, seat);
    }
}

/// Gives the frames of all guests' pages back to the pool, but for pages that somebody holds.
pub(crate) fn close_tables(
    words: &mut [Words<PageBody>],
    hosts: &mut [HostSeat<PageBody>],
    pool: &Pool,
    seat: &mut PoolSeat,
)
    requires { CanReclaim words.old pool.now hosts.old seat.old }
    ensures { seat.new.pool ≡ seat.old.pool }
{
    for guest in 0..words.len() {
        close_words(&mut words[guest], &mut hosts[guest], pool, seat);
    }
}

/// Closes the region, and answers how many of its frames the list lacks. A region that lacks some is abandoned.
pub(crate) fn close_region(region: Region, frames: Vec<Frame>) -> u32
    requires { All (IsOf region) frames.items }
    ensures { result ≡ length (missing region.count frames.items) }
{
    match region.close(frames) {
        Ok(()) => 0,
        Err(lacking) => {
            lacking.region.abandon(lacking.frames.into_vec());
            lacking.count
        }
    }
}

/// Closes the pool, with its last seat, and the region of its frames. Answers how many frames are lost. The list is to
/// be empty, with room for all frames.
pub(crate) fn close_pool(pool: Pool, seat: PoolSeat, region: Region, mut free: Vec<Frame>) -> u32
    requires seat { seat.pool ≡ pool }
    requires region { pool.region ≡ region }
    requires can { CanClose pool free.items (vec_capacity free) }
    ensures lost { Loses pool result }
    ensures few { result ≤ frame_count pool }
{
    let _ = pool.close(seat, &mut free);
    close_region(region, free)
}
