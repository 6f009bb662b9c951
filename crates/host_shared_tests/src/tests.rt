// 64 pages and 8 frames, a guest and two reclaimers. Afterwards each frame is in the pool or in one body.
ghost use Rattle.std.specs.Prelude.{◌<◌, ◌^◌};
ghost use Rattle.std.specs.List.{sum_by};
ghost use Rattle.host_shared.specs.Reclaiming.{CanReclaim};

use crate::opening::{Hosted, close, open};
use crate::turns::{guest_turns, reclaim_by_two};
use std::test::Fail;
use std::thread::join_mut;

const PAGES: u32 = 64;

const FRAMES: u32 = 8;

const TURNS: u32 = 100_000;

const PASSES: u32 = TURNS / PAGES;

#[test]
fn every_frame_is_in_the_pool_or_in_one_body(rt: HostRuntime) -> Result<(), Fail> {
    let Hosted {
        region,
        pool,
        seat,
        words,
        host,
        mut storage,
        mut first,
        mut second,
    } = open(rt.alloc(), FRAMES, PAGES, &[])?;
    join_mut(
        &rt,
        &mut || guest_turns(&mut storage, &words, &pool, PAGES, TURNS),
        &mut ||
            requires first { CanReclaim words.items pool first.seats.items first.pool_seat }
            requires second { CanReclaim words.items pool second.seats.items second.pool_seat }
            requires few { sum_by (λ w. w.pages) words.items < 2 ^ 32 }
        { reclaim_by_two(&rt, &words, &mut first, &mut second, &pool, PASSES) },
    );
    let hosted = Hosted {
        region,
        pool,
        seat,
        words,
        host,
        storage,
        first,
        second,
    };
    let left = close(rt.alloc(), hosted, FRAMES, PAGES)?;
    assert!(rt; left.busy == 0 && left.out == 0 && left.lent <= FRAMES);
    Ok(())
}
