// The pool, and what stands for its frames outside.
ghost use Rattle.std.specs.Prelude.{◌≡◌, ℕ, Option, ◌+◌, ◌<◌, ◌≤◌, ◌≢◌, All, length, IfOk, IfErr, IfSome, IfNone, vec_len, vec_capacity};
ghost use Rattle.std.specs.Borrow.{sem};
ghost use Rattle.cmm_types.specs.declared.page.TheConstants.{PAGE};
ghost use Rattle.cmm_types.specs.declared.plan.TheConstants.{MAX_FRAMES};
ghost use Rattle.page_arena.specs.FrameView.{IsOf};
ghost use Rattle.frame_pool.specs.Seats.{AreNumbered, first_region, frame_count};
ghost use Rattle.frame_pool.specs.Closing.{ClosesWith};

use crate::rule::Pooled;
use crate::steps::Held;
use crate::view::PoolView;
use crate::{closing, opening, steps};
use atomic_table::{Badge, Refused, Table};
use cmm_types::Items;
use page_arena::{Frame, RegionMark};
use std::alloc::Global;
use std::marker::Model;
use std::sync::atomic::{AtomicU64, Ordering};

/// Frames that threads take and give back. Contracts see which pool it is.
#[derive(Drop)]
pub struct Pool {
    table: Table<Option<Frame>, PoolView, RegionMark, Pooled, Global>,
    // Where a take begins to look: at the frame that was given last, or behind the one that was taken last. No more
    // than a hint: any number will do.
    hint: AtomicU64,
}

impl Model for Pool {
    ghost use Rattle.std.specs.Prelude.{◌<◌, ◌≤◌};
    ghost use Rattle.cmm_types.specs.declared.plan.TheConstants.{MAX_FRAMES};
    ghost use Rattle.frame_pool.specs.Seats.{PoolId, IsWide, pool_id};

    ghost Value = { PoolId };

    ghost view = { λ p. pool_id p.table.shared.table_id p.table.shared.key };

    ghost invariant = { λ p. IsWide p.table.shared.table_id p.table.shared.table_id.slots × (0 < p.table.shared.table_id.slots) × (p.table.shared.table_id.slots ≤ MAX_FRAMES) };
}

/// There was no memory for a pool. The frames come back in their order.
#[derive(Drop)]
pub struct NoPool {
    pub frames: Items<Frame>,
}

/// What a thread takes and gives back frames with. Contracts see its pool, how often it found all frames out, and
/// how many frames it took and put back.
#[derive(Drop)]
pub struct PoolSeat {
    seat: Held,
}

impl Model for PoolSeat {
    ghost use Rattle.frame_pool.specs.Seats.{PoolSeatView, IsIdle, pool_id};

    ghost Value = { PoolSeatView };

    ghost view = { λ s. record { pool = pool_id s.seat.table_id s.seat.me.0.region; dry = s.seat.me.0.dry; taken = s.seat.me.0.taken; given = s.seat.me.0.given } };

    ghost invariant = { λ s. IsIdle s.seat.me };
}

/// A frame that is out, with the seat that took it. Contracts see its pool and the frame.
#[derive(Drop)]
pub struct Loan {
    frame: Frame,
    badge: Badge<PoolView>,
}

impl Model for Loan {
    ghost use Rattle.frame_pool.specs.Seats.{LoanView, IsLoan, pool_id};

    ghost Value = { LoanView };

    ghost view = { λ l. record { pool = pool_id l.badge.table_id l.frame.region; frame = l.frame } };

    ghost invariant = { λ l. IsLoan l.badge l.frame };
}

/// Says of which pool something is, for contracts alone: it names no frame. Contracts see it as the pool.
#[derive(Drop)]
pub struct PoolMark {
    badge: Badge<PoolView>,
}

impl Model for PoolMark {
    ghost use Rattle.frame_pool.specs.Seats.{PoolId, pool_id, sole_view};

    ghost Value = { PoolId };

    ghost view = { λ m. pool_id m.badge.table_id (sole_view m.badge.views).region };
}

impl Pool {
    /// A pool in which all frames are. They are of one region, and have their places in the list for numbers.
    pub fn open(alloc: Global, frames: Vec<Frame>) -> Result<(Pool, PoolSeat), NoPool>
        requires some { 0 < vec_len frames }
        requires most { vec_len frames ≤ MAX_FRAMES }
        requires region { All (IsOf (first_region frames.items)) frames.items }
        requires numbers { AreNumbered 0 frames.items }
        ensures seat { IfOk result (λ made. made.1 ≡ record { pool = made.0; dry = 0; taken = 0; given = 0 }) }
        ensures region { IfOk result (λ made. made.0.region ≡ first_region frames.items) }
        ensures frames { IfOk result (λ made. frame_count made.0 ≡ vec_len frames) }
        ensures back { IfErr result (λ e. e.frames ≡ frames.items) }
    {
        let region = frames[0].region();
        let (words, slots, emptied) = opening::parts(alloc, frames)?;
        match Table::new(alloc, words.as_slice(), slots, &region) {
            Ok((table, seat)) => {
                let hint = AtomicU64::new(0);
                Ok((Pool { table, hint }, PoolSeat { seat }))
            }
            Err(Refused { slots }) => Err(opening::refused(emptied, slots)),
        }
    }

    /// A frame of the pool. `None` comes only where at one step of this call all frames were out, or each was found
    /// out at a step of this call. The seat's count of that, `dry`, then rises by one, and else its count `taken`.
    pub fn take(&self, seat: &mut PoolSeat) -> Option<Loan>
        requires { seat.old.pool ≡ self.now }
        ensures pool { seat.new.pool ≡ seat.old.pool }
        ensures none { IfNone result (seat.new ≡ record seat.old { dry = seat.old.dry + 1 }) }
        ensures some { IfSome result (λ loan. seat.new ≡ record seat.old { taken = seat.old.taken + 1 }) }
        ensures loan { IfSome result (λ loan. loan.pool ≡ self.now) }
    {
        let frames = self.table.slot_count();
        let hint = self.hint.load(Ordering::SeqCst);
        let start = (hint % frames as u64) as usize;
        let (frame, lender) = steps::take(&self.table.shared, &mut seat.seat, frames, start)?;
        let next = u64::from(frame.number()) + 1;
        // A give since then has left a better hint.
        let _ = self
            .hint
            .compare_exchange(hint, next, Ordering::SeqCst, Ordering::SeqCst);
        Some(Loan {
            frame,
            badge: lender.into_badge(),
        })
    }

    /// Puts the frame of a loan of this pool back, which the seat's count `given` shows. The next take looks there
    /// first.
    pub fn give(&self, seat: &mut PoolSeat, loan: Loan)
        requires seat { seat.old.pool ≡ self.now }
        requires loan { loan.pool.table ≡ self.now.table }
        ensures { seat.new ≡ record seat.old { given = seat.old.given + 1 } }
    {
        let Loan { frame, badge } = loan;
        let words = &self.table.shared;
        let frames = self.table.slot_count();
        let number = frame.number();
        let mut lender = badge.into_seat();
        steps::put(words, &mut lender, frames, number as usize, frame);
        steps::join(words, &mut seat.seat, lender, frames);
        self.hint.store(u64::from(number), Ordering::SeqCst);
    }

    /// Two loans that are held together are of two frames. They come back as they were.
    pub fn apart(&self, first: Loan, second: Loan) -> (Loan, Loan)
        requires first { first.pool ≡ self.now }
        requires second { second.pool ≡ self.now }
        ensures apart { first.frame.number ≢ second.frame.number }
        ensures first { result.0 ≡ first }
        ensures second { result.1 ≡ second }
    {
        let Loan { frame, badge } = first;
        let Loan {
            frame: other,
            badge: mark,
        } = second;
        let (lender, another) = steps::part(
            &self.table.shared,
            badge.into_seat(),
            mark.into_seat(),
            self.table.slot_count(),
            frame.number() as usize,
            other.number() as usize,
        );
        let first = Loan {
            frame,
            badge: lender.into_badge(),
        };
        let second = Loan {
            frame: other,
            badge: another.into_badge(),
        };
        (first, second)
    }

    /// Moves the frames that are in into the list, which has room, and answers how many are out.
    pub fn close(self, seat: PoolSeat, into: &mut Vec<Frame>) -> u32
        requires seat { seat.pool ≡ self }
        requires room { vec_len into.old + frame_count self ≤ vec_capacity into.old }
        ensures frames { ClosesWith self.region (frame_count self) into.old.items into.new.items result }
        ensures all { length into.new.items + result ≡ length into.old.items + frame_count self }
    {
        let Pool { table, hint: _ } = self;
        let PoolSeat { seat } = seat;
        closing::close(table, seat, into)
    }
}

impl PoolSeat {
    /// Another seat of the pool, which has taken and put back nothing.
    pub fn split(&mut self, pool: &Pool) -> PoolSeat
        requires { self.old.pool ≡ pool.now }
        ensures same { self.new ≡ self.old }
        ensures other { result ≡ record self.old { taken = 0; given = 0 } }
    {
        let frames = pool.table.slot_count();
        PoolSeat {
            seat: steps::copy(&pool.table.shared, &mut self.seat, frames),
        }
    }

    /// Spends another seat of the pool. What that one took and put back counts here.
    pub fn join(&mut self, pool: &Pool, other: PoolSeat)
        requires seat { self.old.pool ≡ pool.now }
        requires other { other.pool ≡ pool.now }
        ensures { self.new ≡ record self.old { taken = self.old.taken + other.taken; given = self.old.given + other.given } }
    {
        let PoolSeat { seat } = other;
        let frames = pool.table.slot_count();
        steps::join(&pool.table.shared, &mut self.seat, seat, frames);
    }

    /// A mark of the pool.
    pub fn mark(&mut self, pool: &Pool) -> PoolMark
        requires { self.old.pool ≡ pool.now }
        ensures same { self.new ≡ self.old }
        ensures mark { result ≡ self.old.pool }
    {
        let frames = pool.table.slot_count();
        let seat = steps::copy(&pool.table.shared, &mut self.seat, frames);
        PoolMark {
            badge: seat.into_badge(),
        }
    }
}

impl Loan {
    ghost use Rattle.frame_pool.specs.Lending.{LendsLoanBytes};

    /// The frame's number, which is below the number of the pool's frames.
    pub fn number(&self) -> u32
        ensures number { result ≡ self.now.frame.number }
        ensures within { result < frame_count self.now.pool }
        ensures region { self.now.frame.region ≡ self.now.pool.region }
    {
        self.frame.number()
    }

    pub fn bytes(&self) -> &[u8]
        ensures bytes { result.now ≡ self.now.frame.bytes }
        ensures whole { length result.now ≡ PAGE }
    {
        self.frame.bytes()
    }

    /// The frame's bytes, to be written. No other frame changes with them.
    pub fn bytes_mut(&mut self) -> &mut [u8]
        ensures* writes { sem 𝓛 (LendsLoanBytes self.entry result) }
        ensures bytes { result.now ≡ self.old.frame.bytes }
        ensures whole { length result.now ≡ PAGE }
    {
        self.frame.bytes_mut()
    }

    /// Spends the loan for good. Its word stays out, and its frame is lost to the pool and to its region.
    pub fn lose(self) {
        let Loan { frame, badge: _ } = self;
        frame.lose();
    }
}
