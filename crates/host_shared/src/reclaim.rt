// The host takes a page's frame, apart from the guest's kernel.
ghost use Rattle.std.specs.Prelude.{◌≡◌, ◌<◌, ◌≤◌, ◌+◌, ◌^◌, None, Some, false, map};
ghost use Rattle.std.specs.List.{sum_by};
ghost use Rattle.essa_state.specs.PageBody.{FitsWord};
ghost use Rattle.state_words.specs.SeatView.{SeatView, IsHostSeat};
ghost use Rattle.state_words.specs.Steps.{claimed_view};
ghost use Rattle.host_shared.specs.Bodies.{lent_body, body_house};
ghost use Rattle.host_shared.specs.Looks.{GrewByLooks, pages_but, freed_in};
ghost use Rattle.host_shared.specs.Reclaiming.{Reclaims, IsReclaim, PutsOnce, CanLook, CanReclaim, Passes, freed_of, given_more, is_spared};

use crate::body::PageBody;
use crate::gate::{Gate, Point, Who};
use cmm_pager::{MemBlock, Pager};
use cmm_types::{Content, Move};
use essa_state::{Word, reclaiming_move};
use frame_pool::{Pool, PoolSeat};
use state_words::{HostSeat, Words};

/// What became of a page that was to lose its frame.
#[derive(Clone, Copy, Debug, PartialEq, Eq)]
pub enum Outcome {
    /// The contents were discarded, and the frame given to the pool.
    Discarded,
    /// The contents were put into the page's block, and the frame given to the pool.
    Preserved,
    /// The page was used, and counts as unused from now on.
    Aged,
    /// The page isn't resident. `word` is the state word that was found.
    Left { word: u64 },
    /// Somebody else holds the page. `word` is the state word that was found.
    Busy { word: u64 },
    /// The put failed, and the page is as it was.
    Paging,
}

// Whether a page that was used keeps its frame this time.
fn is_spared(urgent: bool, word: Word) -> bool
    ensures { result ≡ is_spared urgent word }
{
    !urgent && word.referenced()
}

// The reclaim of a page that was claimed with this word and body. `v` is what the seat knew before the claim.
fn reclaim_held<P: Pager<Block = MemBlock>>(
    words: &Words<PageBody>,
    seat: &mut HostSeat<PageBody>,
    page: u32,
    urgent: bool,
    word: Word,
    mut body: PageBody,
    pager: &mut P,
    pool: &Pool,
    pool_seat: &mut PoolSeat,
) -> Outcome
    requires words { seat.old.words ≡ words.now }
    requires held { seat.old.view.held ≡ Some (record { page = page; word = word; body = lent_body body }) }
    requires free { word.busy ≡ false }
    requires fits { FitsWord word (lent_body body) }
    requires housed { body_house body ≡ words.now.house }
    requires pool { pool_seat.old.pool ≡ pool.now }
    requires house { words.now.house ≡ pool.now.table }
    ensures words { seat.new.words ≡ seat.old.words }
    ensures none_held { seat.new.view.held ≡ None }
    ensures faults { P.faults pager.old ≤ P.faults pager.new }
    ensures puts { PutsOnce P.step result pager.old pager.new }
    ensures given { pool_seat.new ≡ given_more pool_seat.old (freed_of result) }
    ensures outcome { (v : SeatView) → seat.old.view ≡ claimed_view v page word (lent_body body) → Reclaims result page urgent v seat.new.view (P.faults pager.old) (P.faults pager.new) }
{
    if word.content() != Content::Resident {
        seat.release(words, page, None, body);
        return Outcome::Left { word: word.raw() };
    }
    if is_spared(urgent, word) {
        seat.release(words, page, Some(Move::Age), body);
        return Outcome::Aged;
    }
    if reclaiming_move(word) == Move::Discard {
        let Some(loan) = body.discard() else {
            unreachable!()
        };
        seat.release(words, page, Some(Move::Discard), body);
        pool.give(pool_seat, loan);
        return Outcome::Discarded;
    }
    match body.preserve(pager) {
        Ok(loan) => {
            seat.release(words, page, Some(Move::Preserve), body);
            pool.give(pool_seat, loan);
            Outcome::Preserved
        }
        Err(_) => {
            seat.release(words, page, None, body);
            Outcome::Paging
        }
    }
}

/// Claims the page and takes its frame, where the page has one, for the pool. Where it isn't urgent, a page that was
/// used is only aged. It takes no lock of the guest.
pub fn reclaim_page<P: Pager<Block = MemBlock>>(
    words: &Words<PageBody>,
    seat: &mut HostSeat<PageBody>,
    page: u32,
    urgent: bool,
    pager: &mut P,
    pool: &Pool,
    pool_seat: &mut PoolSeat,
) -> Outcome
    requires can { CanLook words.now pool.now seat.old pool_seat.old }
    requires page { page < words.now.pages }
    ensures words { seat.new.words ≡ seat.old.words }
    ensures none_held { seat.new.view.held ≡ None }
    ensures faults { P.faults pager.old ≤ P.faults pager.new }
    ensures puts { PutsOnce P.step result pager.old pager.new }
    ensures given { pool_seat.new ≡ given_more pool_seat.old (freed_of result) }
    ensures outcome { Reclaims result page urgent seat.old.view seat.new.view (P.faults pager.old) (P.faults pager.new) }
{
    match seat.claim(words, page) {
        Err(busy) => Outcome::Busy { word: busy.word },
        Ok((word, body)) => reclaim_held(
            words, seat, page, urgent, word, body, pager, pool, pool_seat,
        ),
    }
}

// How many frames the outcome tells of.
fn freed_of(outcome: Outcome) -> u32
    ensures count { result ≡ freed_of outcome }
    ensures few { result ≤ 1 }
{
    match outcome {
        Outcome::Discarded => 1,
        Outcome::Preserved => 1,
        Outcome::Aged => 0,
        Outcome::Left { word: _ } => 0,
        Outcome::Busy { word: _ } => 0,
        Outcome::Paging => 0,
    }
}

// Reclaims each page of one guest once, and answers how many frames that freed.
fn reclaim_guest<P: Pager<Block = MemBlock>, G: Gate>(
    words: &Words<PageBody>,
    seat: &mut HostSeat<PageBody>,
    pager: &mut P,
    pool: &Pool,
    pool_seat: &mut PoolSeat,
    gate: &G,
    who: u32,
) -> u32
    requires can { CanLook words.now pool.now seat.old pool_seat.old }
    ensures words { seat.new.words ≡ seat.old.words }
    ensures none_held { seat.new.view.held ≡ None }
    ensures faults { P.faults pager.old ≤ P.faults pager.new }
    ensures looks { GrewByLooks (IsReclaim false (P.faults pager.old) (P.faults pager.new)) (pages_but None 0 words.now.pages) seat.old.view seat.new.view }
    ensures freed { result + freed_in seat.old.view ≡ freed_in seat.new.view }
    ensures few { result ≤ words.now.pages }
    ensures given { pool_seat.new ≡ given_more pool_seat.old result }
{
    let mut freed = 0;
    for page in 0..words.pages() {
        let outcome = reclaim_page(words, seat, page, false, pager, pool, pool_seat);
        gate.pause(Who::Reclaimer { number: who }, Point::Reclaimed(outcome));
        freed += freed_of(outcome);
    }
    freed
}

/// Reclaims every page of every guest once, guest by guest and page by page, and hands each outcome to the gate. It
/// answers how many frames that freed.
pub fn reclaim_pass<P: Pager<Block = MemBlock>, G: Gate>(
    words: &[Words<PageBody>],
    seats: &mut [HostSeat<PageBody>],
    pager: &mut P,
    pool: &Pool,
    pool_seat: &mut PoolSeat,
    gate: &G,
    who: u32,
) -> u32
    requires can { CanReclaim words.now pool.now seats.old pool_seat.old }
    requires few { sum_by (λ w. w.pages) words.now < 2 ^ 32 }
    ensures can { CanReclaim words.now pool.now seats.new pool_seat.new }
    ensures faults { P.faults pager.old ≤ P.faults pager.new }
    ensures passes { Passes seats.old seats.new (P.faults pager.old) (P.faults pager.new) result }
    ensures given { pool_seat.new ≡ given_more pool_seat.old result }
{
    let mut freed = 0;
    for guest in 0..words.len() {
        freed += reclaim_guest(
            &words[guest],
            &mut seats[guest],
            pager,
            pool,
            pool_seat,
            gate,
            who,
        );
    }
    freed
}
