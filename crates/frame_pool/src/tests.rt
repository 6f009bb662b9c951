ghost use Rattle.std.specs.Prelude.{◌≡◌, ◌≢◌, ◌+◌, ◌<◌, ◌≤◌, IfOk, IfSome};
ghost use Rattle.cmm_types.specs.declared.plan.TheConstants.{MAX_FRAMES};
ghost use Rattle.frame_pool.specs.Seats.{frame_count};

use crate::{Loan, Pool, PoolSeat};
use atomic_table::{Table, TableRule};
use cmm_types::MAX_FRAMES;
use page_arena::Region;
use std::alloc::{AllocError, Global};
use std::test::Fail;
use std::thread::{Threads, join};

/// Loans, seats and marks may go to other threads.
fn crosses<T: Send>(_value: &T) {}

/// Pools, and tables of loans, may be shared by threads.
fn is_shared<T: Send + Sync>(_value: &T) {}

/// A table whose slots hold loans.
struct Shelf;

impl TableRule<Option<Loan>, (), ()> for Shelf {
    ghost holds = { λ _ _. Unit {0} };

    ghost first = { λ _. tt };
}

/// A region and a pool of its frames. Where there is no memory for the pool, the region gets its frames back.
fn open(alloc: Global, count: u32) -> Result<(Region, Pool, PoolSeat), AllocError>
    requires some { 1 ≤ count }
    requires most { count ≤ MAX_FRAMES }
    ensures seat { IfOk result (λ made. made.2 ≡ record { pool = made.1; dry = 0; taken = 0; given = 0 }) }
    ensures region { IfOk result (λ made. made.1.region ≡ made.0) }
    ensures frames { IfOk result (λ made. frame_count made.1 ≡ count) }
{
    let (region, frames) = Region::new(alloc, count)?;
    match Pool::open(alloc, frames) {
        Ok((pool, seat)) => Ok((region, pool, seat)),
        Err(no_pool) => {
            let _ = region.close(no_pool.frames.into_vec());
            Err(AllocError)
        }
    }
}

#[test]
fn each_of_three_frames_is_taken_once_and_then_none(rt: HostRuntime) -> Result<(), Fail> {
    let (region, pool, mut seat) = open(rt.alloc(), 3)?;
    is_shared(&pool);
    crosses(&seat);
    let first = pool.take(&mut seat);
    let second = pool.take(&mut seat);
    let third = pool.take(&mut seat);
    let fourth = pool.take(&mut seat);
    assert!(rt; fourth.is_none());
    let (Some(first), Some(mut second), Some(third)) = (first, second, third) else {
        assert!(rt; false, "a frame was missing");
        return Ok(());
    };
    crosses(&first);
    assert_eq!(rt;
        [first.number(), second.number(), third.number()],
        [0, 1, 2]
    );
    second.bytes_mut()[7] = 9;
    pool.give(&mut seat, second);
    let Some(again) = pool.take(&mut seat) else {
        assert!(rt; false, "the frame that was given is missing");
        return Ok(());
    };
    assert!(rt; again.number() == 1 && again.bytes()[7] == 9);
    pool.give(&mut seat, first);
    pool.give(&mut seat, third);
    let mut frames = Vec::with_capacity(rt.alloc(), 3)?;
    let out = pool.close(seat, &mut frames);
    assert_eq!(rt; out, 1);
    assert_eq!(rt; frames.len(), 2);
    assert!(rt; frames[0].number() == 0 && frames[1].number() == 2);
    assert!(rt; region.close(frames).is_err());
    drop(again);
    Ok(())
}

#[test]
fn a_lost_loan_is_out_at_the_close(rt: HostRuntime) -> Result<(), Fail> {
    let (region, pool, mut seat) = open(rt.alloc(), 2)?;
    let Some(loan) = pool.take(&mut seat) else {
        assert!(rt; false, "a frame was missing");
        return Ok(());
    };
    loan.lose();
    let mut frames = Vec::with_capacity(rt.alloc(), 2)?;
    assert_eq!(rt; pool.close(seat, &mut frames), 1);
    match region.close(frames) {
        Ok(()) => assert!(rt; false, "frame 0 is lost"),
        Err(missing) => assert!(rt; missing.first == 0 && missing.count == 1),
    }
    Ok(())
}

#[test]
fn a_loan_lies_in_a_slot_of_another_table(rt: HostRuntime) -> Result<(), Fail> {
    let (_region, pool, mut seat) = open(rt.alloc(), 2)?;
    let mut slots = Vec::with_capacity(rt.alloc(), 2)?;
    slots.push(pool.take(&mut seat))?;
    slots.push(pool.take(&mut seat))?;
    let made = Table::<Option<Loan>, (), (), Shelf, Global>::new(rt.alloc(), &[0, 0], slots, &());
    let Ok((shelf, _place)) = made else {
        return Err(AllocError.into());
    };
    is_shared(&shelf);
    let mut closed = shelf.close();
    let first = closed.take(0);
    let second = closed.take(1);
    closed.free();
    let (Some(first), Some(second)) = (first, second) else {
        assert!(rt; false, "a loan was missing");
        return Ok(());
    };
    assert!(rt; first.number() == 0 && second.number() == 1);
    let mark = seat.mark(&pool);
    crosses(&mark);
    Ok(())
}

/// Two loans of one pool, which are of two frames.
fn two_loans(pool: &Pool, seat: &mut PoolSeat) -> Option<(Loan, Loan)>
    requires { seat.old.pool ≡ pool.now }
    ensures seat { seat.new.pool ≡ seat.old.pool }
    ensures loans { IfSome result (λ two. (two.0.pool ≡ pool.now) × (two.1.pool ≡ pool.now)) }
    ensures apart { IfSome result (λ two. two.0.frame.number ≢ two.1.frame.number) }
{
    let first = pool.take(seat)?;
    let second = pool.take(seat)?;
    Some(pool.apart(first, second))
}

#[test]
fn two_loans_are_of_two_frames_and_a_dropped_one_is_out(rt: HostRuntime) -> Result<(), Fail> {
    let (region, pool, mut seat) = open(rt.alloc(), 2)?;
    let Some((first, second)) = two_loans(&pool, &mut seat) else {
        assert!(rt; false, "a frame was missing");
        return Ok(());
    };
    assert!(rt; first.number() != second.number());
    pool.give(&mut seat, second);
    drop(first);
    let mut frames = Vec::with_capacity(rt.alloc(), 2)?;
    assert_eq!(rt; pool.close(seat, &mut frames), 1);
    assert!(rt; region.close(frames).is_err());
    Ok(())
}

/// Gives a loan back, if there is one.
fn put_back(pool: &Pool, seat: &mut PoolSeat, loan: Option<Loan>)
    requires seat { seat.old.pool ≡ pool.now }
    requires loan { IfSome loan (λ loan. loan.pool ≡ pool.now) }
    ensures { seat.new.pool ≡ seat.old.pool }
{
    if let Some(loan) = loan {
        pool.give(seat, loan);
    }
}

/// Takes two frames and gives them back, so many times.
fn take_in_turn(pool: &Pool, mut seat: PoolSeat, rounds: u32) -> PoolSeat
    requires { seat.pool ≡ pool.now }
    ensures { result.pool ≡ pool.now }
{
    for _ in 0..rounds {
        let first = pool.take(&mut seat);
        let second = pool.take(&mut seat);
        put_back(pool, &mut seat, first);
        put_back(pool, &mut seat, second);
    }
    seat
}

fn take_in_two_threads<R: Threads + Sync>(
    rt: &R,
    pool: &Pool,
    mut seat: PoolSeat,
    rounds: u32,
) -> PoolSeat
    requires { seat.pool ≡ pool.now }
    ensures { result.pool ≡ pool.now }
{
    let other = seat.split(pool);
    let (mut seat, other) = join(
        rt,
        move || -> PoolSeat
            requires { seat.pool ≡ pool.now }
            ensures { result.pool ≡ pool.entry.now }
        { take_in_turn(pool, seat, rounds) },
        move || -> PoolSeat
            requires { other.pool ≡ pool.now }
            ensures { result.pool ≡ pool.entry.now }
        { take_in_turn(pool, other, rounds) },
    );
    seat.join(pool, other);
    seat
}

fn take_in_four_threads<R: Threads + Sync>(
    rt: &R,
    pool: &Pool,
    mut seat: PoolSeat,
    rounds: u32,
) -> PoolSeat
    requires { seat.pool ≡ pool.now }
    ensures { result.pool ≡ pool.now }
{
    let other = seat.split(pool);
    let (mut seat, other) = join(
        rt,
        move || -> PoolSeat
            requires { seat.pool ≡ pool.now }
            ensures { result.pool ≡ pool.entry.now }
        { take_in_two_threads(rt, pool, seat, rounds) },
        move || -> PoolSeat
            requires { other.pool ≡ pool.now }
            ensures { result.pool ≡ pool.entry.now }
        { take_in_two_threads(rt, pool, other, rounds) },
    );
    seat.join(pool, other);
    seat
}

#[test]
fn after_a_million_takes_by_four_threads_all_64_frames_are_in(rt: HostRuntime) -> Result<(), Fail> {
    let (region, pool, seat) = open(rt.alloc(), 64)?;
    let seat = take_in_four_threads(&rt, &pool, seat, 125_000);
    let mut frames = Vec::with_capacity(rt.alloc(), 64)?;
    assert_eq!(rt; pool.close(seat, &mut frames), 0);
    assert_eq!(rt; frames.len(), 64);
    assert!(rt; region.close(frames).is_ok());
    Ok(())
}
