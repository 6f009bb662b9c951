// Reads, writes and pins of a guest's only page, over a storage whose host does what a list says.
ghost use Rattle.std.specs.Prelude.{◌≡◌, ◌<◌, None, IfOk};
ghost use Rattle.guest_pages.specs.PagesView.{opening_pages, popped};
ghost use Rattle.guest_maps.specs.MapsView.{IsPlace};
ghost use Rattle.guest_rules.specs.Calls.{IsInUse};

use crate::{pin_page, read_page, write_page};
use cmm_storage::{Noise, NoisyStorage, Storage};
use cmm_types::{Bytes64, Cause, Why};
use essa_state::Order;
use guest_cache::Cache;
use guest_maps::{Maps, Shown};
use guest_pages::Pages;
use guest_rules::{Missed, Parts, Placed};
use std::alloc::{AllocError, Global};
use std::test::Fail;

/// Touches the page, if the host lets it, and leaves it volatile, else unused.
fn prepare<St: Storage>(st: &mut St)
    requires pages { 0 < (St.view st.old).pages }
    requires none_held { (St.view st.old).held ≡ None }
    ensures pages { (St.view st.new).pages ≡ (St.view st.old).pages }
    ensures none_held { (St.view st.new).held ≡ None }
{
    if st.take(0).is_err() {
        return;
    }
    st.order(0, Order::SetStable);
    match st.touch(0) {
        Ok(()) => {
            st.order(0, Order::SetVolatile);
            st.put(0);
        }
        Err(_) => {
            st.order(0, Order::SetUnused);
            st.put(0);
        }
    }
}

/// A guest's only page, which isn't free.
fn used_page(alloc: Global) -> Result<Pages, AllocError>
    ensures { IfOk result (λ pages. pages ≡ popped (opening_pages 1)) }
{
    let mut pages = Pages::open(alloc, 1)?;
    pages.pop();
    Ok(pages)
}

/// The tables of a guest of one page, which isn't free, without files and mappings.
fn one_page(alloc: Global) -> Result<Parts, AllocError>
    ensures { IfOk result (λ parts. IsInUse parts 0) }
{
    Ok(Parts {
        pages: used_page(alloc)?,
        cache: Cache::open(alloc, &[], 0, 0)?,
        maps: Maps::open(alloc, 1)?,
        hand: 0,
        faults: 0,
    })
}

/// What a read of four bytes of the page answers, the next free page then, and the count of faults. The first two
/// noises come before the read.
fn read(
    alloc: Global,
    noises: [Noise; 4],
) -> Result<(Result<Bytes64, Missed>, Option<u32>, u64), AllocError> {
    let mut parts = one_page(alloc)?;
    let mut storage = NoisyStorage::open(alloc, 1, Vec::from_array(alloc, noises)?)?;
    prepare(&mut storage);
    let answer = read_page(&mut parts, &mut storage, 0, 4092, 4);
    Ok((answer, parts.pages.top(), parts.faults))
}

#[test]
fn a_reader_meets_every_answer(rt: HostRuntime) -> Result<(), Fail> {
    use Noise::{Busy, Calm, Discard, NoFrame, PagerFails};
    let alloc = rt.alloc();
    let zeros = Bytes64::from_slice(&[0; 4]).unwrap();
    let no_frame = Missed::Again {
        why: Why::NoFrame { looks: 0 },
    };
    let paging = Missed::Fail(Cause::Paging);
    assert_eq!(rt;
        read(alloc, [Calm, Calm, Calm, Calm])?,
        (Ok(zeros), None, 0)
    );
    assert_eq!(rt;
        read(alloc, [Calm, Calm, Discard, Calm])?,
        (Err(Missed::Gone), Some(0), 1)
    );
    assert_eq!(rt;
        read(alloc, [Calm, PagerFails, Calm, NoFrame])?,
        (Err(no_frame), None, 0)
    );
    assert_eq!(rt;
        read(alloc, [Calm, PagerFails, Calm, PagerFails])?,
        (Err(paging), None, 0)
    );
    let (answer, free, faults) = read(alloc, [Calm, Calm, Busy, Calm])?;
    let busy = matches!(
        answer,
        Err(Missed::Again {
            why: Why::Busy { page: 0, word: _ }
        })
    );
    assert_eq!(rt; (busy, free, faults), (true, None, 0));
    Ok(())
}

/// What a write of four bytes to the page answers, whether the page is dirty then, and the count of faults. The first
/// two noises come before the write.
fn write(alloc: Global, noises: [Noise; 4]) -> Result<(Result<(), Missed>, bool, u64), AllocError> {
    let mut parts = one_page(alloc)?;
    let mut storage = NoisyStorage::open(alloc, 1, Vec::from_array(alloc, noises)?)?;
    prepare(&mut storage);
    let bytes = Bytes64::from_slice(&[1; 4]).unwrap();
    let answer = write_page(&mut parts, &mut storage, 0, 4092, &bytes);
    let dirty = parts.pages.count() > 0 && parts.pages.info(0).dirty;
    Ok((answer, dirty, parts.faults))
}

#[test]
fn a_writer_leaves_the_page_dirty_where_it_wrote(rt: HostRuntime) -> Result<(), Fail> {
    use Noise::{Calm, Discard, NoFrame, PagerFails};
    let alloc = rt.alloc();
    let no_frame = Missed::Again {
        why: Why::NoFrame { looks: 0 },
    };
    let paging = Missed::Fail(Cause::Paging);
    assert_eq!(rt; write(alloc, [Calm, Calm, Calm, Calm])?, (Ok(()), true, 0));
    assert_eq!(rt;
        write(alloc, [Calm, Calm, Discard, Calm])?,
        (Err(Missed::Gone), false, 1)
    );
    assert_eq!(rt;
        write(alloc, [Calm, PagerFails, Calm, NoFrame])?,
        (Err(no_frame), false, 0)
    );
    assert_eq!(rt;
        write(alloc, [Calm, PagerFails, Calm, PagerFails])?,
        (Err(paging), false, 0)
    );
    Ok(())
}

/// A mapping of one page of a file, in the first slot.
#[tactic(auto, using(guest_maps::specs::Laws::MapsLaws::places_kept))]
fn mapped_page(alloc: Global) -> Result<Maps, AllocError>
    ensures place { IfOk result (λ maps. IsPlace maps 0 0) }
    ensures pages { IfOk result (λ maps. maps.pages ≡ 1) }
{
    let mut maps = Maps::open(alloc, 1)?;
    let shown = Shown::File {
        file: 0,
        first: 0,
        writable: false,
    };
    maps.add(0, 0, shown, 1);
    Ok(maps)
}

/// What a pin of the only place of a mapping answers, and the next free page then. The page is the place's, and the
/// first two noises come before the pin.
#[tactic(auto, unfolding(guest_pages::specs::PagesView::popped))]
fn pin(alloc: Global, noises: [Noise; 4]) -> Result<(Placed, Option<u32>), AllocError> {
    let mut parts = Parts {
        pages: used_page(alloc)?,
        maps: mapped_page(alloc)?,
        cache: Cache::open(alloc, &[], 0, 0)?,
        hand: 0,
        faults: 0,
    };
    let mut storage = NoisyStorage::open(alloc, 1, Vec::from_array(alloc, noises)?)?;
    prepare(&mut storage);
    let answer = pin_page(&mut parts, &mut storage, 0, 0, 0, true);
    Ok((answer, parts.pages.top()))
}

#[test]
fn a_pin_meets_every_answer(rt: HostRuntime) -> Result<(), Fail> {
    use Noise::{Busy, Calm, Discard};
    let alloc = rt.alloc();
    assert_eq!(rt; pin(alloc, [Calm, Calm, Calm, Calm])?, (Placed::Done, None));
    assert_eq!(rt;
        pin(alloc, [Calm, Calm, Discard, Calm])?,
        (Placed::Gone, Some(0))
    );
    let (answer, free) = pin(alloc, [Calm, Calm, Busy, Calm])?;
    let busy = matches!(
        answer,
        Placed::Again {
            why: Why::Busy { page: 0, word: _ }
        }
    );
    assert_eq!(rt; (busy, free), (true, None));
    Ok(())
}
