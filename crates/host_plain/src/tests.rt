ghost use Rattle.std.specs.Prelude.{◌≡◌, ◌<◌, ◌≤◌, [], ◌∷◌, length, None, Ok, IfOk, true};
ghost use Rattle.host_plain.specs.HostState.{pages_of};

use crate::{ApplyError, Host, Reclaim};
use cmm_pager::{MemBlock, MemPager};
use cmm_storage::{Storage, Trap};
use cmm_types::{Move, Refused};
use essa_state::Order;
use std::alloc::{AllocError, Global};
use std::test::Fail;

/// A host of one guest with four pages, whose pager's planned calls fail.
fn four_pages(alloc: Global, frames: u32, fails: &[u32]) -> Result<Host, AllocError>
    requires some { 0 < frames }
    requires most { frames ≤ 4 }
    ensures none_held { IfOk result (λ host. host.held ≡ None) }
    ensures guests { IfOk result (λ host. length host.pagers ≡ 1) }
    ensures starts { IfOk result (λ host. host.starts ≡ 0 ∷ 4 ∷ []) }
    ensures frames { IfOk result (λ host. host.memory.frames ≡ frames) }
{
    let mut blocks = Vec::new(alloc);
    blocks.push(MemBlock::open(alloc)?)?;
    blocks.push(MemBlock::open(alloc)?)?;
    blocks.push(MemBlock::open(alloc)?)?;
    blocks.push(MemBlock::open(alloc)?)?;
    let mut pagers = Vec::new(alloc);
    pagers.push(MemPager::open(alloc, fails)?)?;
    let own = MemPager::open(alloc, &[])?;
    Host::open(alloc, &[4], frames, blocks, pagers, own)
}

/// Makes the page stable, writes its first byte, and leaves it with this order.
fn fill(host: &mut Host, page: u32, byte: u8, code: Order) -> Result<(), Trap>
    requires none_held { host.old.held ≡ None }
    requires guest { 0 < length host.old.pagers }
    requires page { page < pages_of host.old 0 }
    ensures none_held { host.new.held ≡ None }
    ensures guests { length host.new.pagers ≡ length host.old.pagers }
    ensures starts { host.new.starts ≡ host.old.starts }
    ensures frames { host.new.memory.frames ≡ host.old.memory.frames }
{
    let mut view = host.view(0);
    let _ = view.take(page);
    let _ = view.order(page, Order::SetStable);
    let touched = view.touch(page);
    if touched.is_ok() {
        view.store(page, 0, &[byte]);
        let _ = view.take_change(page);
        let _ = view.order(page, code);
    }
    view.put(page);
    touched
}

/// The numbers of the words of two pages.
fn two_words(host: &Host) -> (u64, u64)
    requires guest { 0 < length host.now.pagers }
    requires pages { host.now.starts ≡ 0 ∷ 4 ∷ [] }
{
    let words = host.words(0);
    (words[0].raw(), words[1].raw())
}

#[test]
fn a_new_host_has_unused_pages_and_free_frames(rt: HostRuntime) -> Result<(), Fail> {
    let host = four_pages(rt.alloc(), 4, &[])?;
    assert_eq!(rt; host.words(0).len(), 4);
    assert!(rt; host.words(0).iter().all(|word| word.raw() == 9));
    assert_eq!(rt; host.resident(), 0);
    Ok(())
}

#[test]
fn one_frame_goes_from_page_to_page(rt: HostRuntime) -> Result<(), Fail> {
    let mut host = four_pages(rt.alloc(), 1, &[])?;
    for turn in 0..4u64 {
        // Each page is discarded for the other, and counts it in its upper half.
        let discards = turn * 4_294_967_296;
        let other = if turn == 0 { 9 } else { 11 + discards };
        assert!(rt; fill(&mut host, 0, 97, Order::SetVolatile).is_ok());
        assert_eq!(rt; two_words(&host), (19 + discards, other));
        assert!(rt; fill(&mut host, 1, 98, Order::SetVolatile).is_ok());
        assert_eq!(rt; two_words(&host), (4_294_967_307 + discards, 19 + discards));
        assert_eq!(rt; host.resident(), 1);
    }
    Ok(())
}

#[test]
fn reclaiming_ends_where_no_page_is_resident(rt: HostRuntime) -> Result<(), Fail> {
    let mut host = four_pages(rt.alloc(), 4, &[])?;
    assert!(rt; fill(&mut host, 0, 97, Order::SetVolatile).is_ok());
    assert!(rt; fill(&mut host, 1, 98, Order::SetVolatile).is_ok());
    assert_eq!(rt;
        host.reclaim(3),
        Reclaim {
            count: 2,
            paging: false
        }
    );
    assert_eq!(rt; two_words(&host), (4_294_967_307, 4_294_967_307));
    assert_eq!(rt; host.resident(), 0);
    Ok(())
}

#[test]
fn a_put_that_fails_leaves_the_victim(rt: HostRuntime) -> Result<(), Fail> {
    let mut host = four_pages(rt.alloc(), 1, &[1])?;
    assert!(rt; fill(&mut host, 0, 122, Order::SetStable).is_ok());
    assert_eq!(rt;
        fill(&mut host, 1, 98, Order::SetVolatile),
        Err(Trap::Paging)
    );
    // The victim's reference bit is gone, since it was aged before its move.
    assert_eq!(rt; two_words(&host), (0, 8));
    let mut byte = [0];
    let mut view = host.view(0);
    assert_eq!(rt; view.faults(), 1);
    assert!(rt; view.take(0).is_ok());
    let _ = view.order(0, Order::SetStable);
    assert!(rt; view.touch(0).is_ok());
    view.fetch(0, 0, &mut byte);
    view.put(0);
    assert_eq!(rt; byte, [122]);
    Ok(())
}

#[test]
fn moves_are_made_or_refused(rt: HostRuntime) -> Result<(), Fail> {
    let mut host = four_pages(rt.alloc(), 4, &[])?;
    assert!(rt; fill(&mut host, 0, 97, Order::SetStable).is_ok());
    for (action, answer, word, resident) in [
        (
            Move::Discard,
            Err(ApplyError::Refused(Refused::Stable)),
            16,
            1,
        ),
        (Move::Age, Ok(()), 0, 1),
        (Move::Preserve, Ok(()), 4, 0),
        (
            Move::Preserve,
            Err(ApplyError::Refused(Refused::Absent)),
            4,
            0,
        ),
        (Move::Bring, Ok(()), 0, 1),
        (Move::Bring, Err(ApplyError::Refused(Refused::Absent)), 0, 1),
    ] {
        assert_eq!(rt; host.apply(0, 0, action), answer, "{action:?}");
        assert_eq!(rt; host.words(0)[0].raw(), word, "{action:?}");
        assert_eq!(rt; host.resident(), resident, "{action:?}");
    }
    Ok(())
}

/// Closes the host, and its region with what the host gives back.
fn close_whole(alloc: Global, host: Host, most: usize) -> Result<bool, AllocError>
    requires most { host.memory.frames ≤ most }
    ensures closed { IfOk result (λ closed. closed ≡ true) }
{
    let mut frames = Vec::with_capacity(alloc, most)?;
    let region = host.close(&mut frames);
    Ok(region.close(frames).is_ok())
}

#[test]
fn a_closed_host_gives_its_region_with_all_frames(rt: HostRuntime) -> Result<(), Fail> {
    let mut host = four_pages(rt.alloc(), 3, &[])?;
    assert!(rt; fill(&mut host, 2, 97, Order::SetStable).is_ok());
    assert!(rt; fill(&mut host, 1, 98, Order::SetVolatile).is_ok());
    assert!(rt; close_whole(rt.alloc(), host, 3)?);
    Ok(())
}
