// The calls by themselves, on one thread: two pages and one frame.
use crate::opening::{close, open};
use crate::turns::{Seen, read, write};
use cmm_storage::{Storage, Trap};
use essa_state::Order;
use host_shared::{Outcome, reclaim_page};
use std::test::Fail;

const WROTE: Seen = Seen::Wrote { changed: true };

#[test]
fn a_touch_takes_the_frame_of_the_other_page(rt: HostRuntime) -> Result<(), Fail> {
    for (leave, seen) in [
        (Order::SetStable, Seen::Read([1, 2, 3, 4])),
        (Order::SetVolatile, Seen::Lost),
    ] {
        let mut hosted = open(rt.alloc(), 1, 2, &[])?;
        let mut bound = hosted.storage.bind(&hosted.words, &hosted.pool);
        assert_eq!(rt; write(&mut bound, 0, [1, 2, 3, 4], leave), WROTE);
        assert_eq!(rt; write(&mut bound, 1, [5, 6, 7, 8], Order::Get), WROTE);
        assert_eq!(rt; read(&mut bound, 0), seen);
        assert_eq!(rt; read(&mut bound, 1), Seen::Read([5, 6, 7, 8]));
        assert_eq!(rt; bound.faults(), 0);
        let left = close(rt.alloc(), hosted, 1, 2)?;
        assert!(rt; left.busy == 0 && left.lent == 1 && left.out == 0);
    }
    Ok(())
}

#[test]
fn a_failed_put_is_a_trap(rt: HostRuntime) -> Result<(), Fail> {
    let mut hosted = open(rt.alloc(), 1, 2, &[1])?;
    let mut bound = hosted.storage.bind(&hosted.words, &hosted.pool);
    assert_eq!(rt; write(&mut bound, 0, [1, 2, 3, 4], Order::Get), WROTE);
    assert_eq!(rt;
        write(&mut bound, 1, [5, 6, 7, 8], Order::Get),
        Seen::Trapped(Trap::Paging)
    );
    assert_eq!(rt; bound.faults(), 1);
    assert_eq!(rt; read(&mut bound, 0), Seen::Read([1, 2, 3, 4]));
    assert_eq!(rt; write(&mut bound, 1, [5, 6, 7, 8], Order::Get), WROTE);
    assert_eq!(rt; read(&mut bound, 0), Seen::Read([1, 2, 3, 4]));
    Ok(())
}

#[test]
fn no_frame_is_found_while_the_other_page_is_held(rt: HostRuntime) -> Result<(), Fail> {
    let mut hosted = open(rt.alloc(), 1, 2, &[])?;
    let mut bound = hosted.storage.bind(&hosted.words, &hosted.pool);
    assert_eq!(rt; write(&mut bound, 0, [1, 2, 3, 4], Order::Get), WROTE);
    let Ok((_word, body)) = hosted.host.claim(&hosted.words[0], 0) else {
        assert!(rt; false, "nobody held the page");
        return Ok(());
    };
    assert_eq!(rt;
        write(&mut bound, 1, [5, 6, 7, 8], Order::Get),
        Seen::Trapped(Trap::NoFrame { looks: 1 })
    );
    assert_eq!(rt; read(&mut bound, 0), Seen::Busy);
    hosted.host.release(&hosted.words[0], 0, None, body);
    assert_eq!(rt; read(&mut bound, 0), Seen::Read([1, 2, 3, 4]));
    assert_eq!(rt; bound.look(0).count(), 0);
    Ok(())
}

#[test]
fn a_reclaim_ages_a_page_and_then_takes_its_frame(rt: HostRuntime) -> Result<(), Fail> {
    for (leave, outcome) in [
        (Order::SetStable, Outcome::Preserved),
        (Order::SetVolatile, Outcome::Discarded),
    ] {
        let mut hosted = open(rt.alloc(), 1, 2, &[])?;
        let mut bound = hosted.storage.bind(&hosted.words, &hosted.pool);
        assert_eq!(rt; write(&mut bound, 0, [1, 2, 3, 4], leave), WROTE);
        let words = &hosted.words[0];
        let first = &mut hosted.first;
        let seat = &mut first.seats[0];
        let aged = reclaim_page(
            words,
            seat,
            0,
            false,
            &mut first.pager,
            &hosted.pool,
            &mut first.pool_seat,
        );
        assert_eq!(rt; aged, Outcome::Aged);
        let taken = reclaim_page(
            words,
            seat,
            0,
            false,
            &mut first.pager,
            &hosted.pool,
            &mut first.pool_seat,
        );
        assert_eq!(rt; taken, outcome);
        let left = reclaim_page(
            words,
            seat,
            0,
            true,
            &mut first.pager,
            &hosted.pool,
            &mut first.pool_seat,
        );
        assert!(rt; matches!(left, Outcome::Left { word: _ }));
    }
    Ok(())
}
