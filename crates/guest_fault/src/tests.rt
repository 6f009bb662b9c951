// The calls on a guest's only page, over a storage whose host does what a list says.
ghost use Rattle.std.specs.Prelude.{◌≡◌, ◌<◌, [], ◌∷◌, Some, None, false, IfOk, IfSome};
ghost use Rattle.cmm_types.specs.InRange.{FileInRange};
ghost use Rattle.cmm_types.specs.declared.page.Tag.TheVariants.{Anon};
ghost use Rattle.guest_cache.specs.CacheView.{IsTag, backing_of};
ghost use Rattle.guest_maps.specs.MapsView.{IsPlace};
ghost use Rattle.guest_cache.specs.CacheView.{HasOneSwapSlot};

use crate::{fill, resolve, tear_page};
use cmm_io::MemDisk;
use cmm_storage::{Noise, NoisyStorage};
use cmm_types::{Cause, FilePlan, Items, Tag, Why};
use guest_cache::Cache;
use guest_maps::{Maps, Shown};
use guest_pages::{PageInfo, Pages};
use guest_rules::{Filled, Parts, Placed};
use std::alloc::{AllocError, Global};
use std::test::Fail;

/// A file of one page.
fn file_of_a_page(alloc: Global) -> Result<FilePlan, AllocError>
    ensures range { IfOk result FileInRange }
    ensures pages { IfOk result (λ file. file.pages ≡ 1) }
{
    Ok(FilePlan {
        pages: 1,
        head: Items::from_vec(Vec::from_slice(alloc, b"hello")?),
    })
}

/// What a fill of the page of a file answers, whether the page is up to date then, and the next free page.
#[tactic(auto, unfolding(guest_pages::specs::PagesView::popped, guest_pages::specs::PagesView::with_tag, guest_pages::specs::PagesView::with_info, guest_cache::specs::CacheView::with_page))]
fn fill_file(
    alloc: Global,
    noises: [Noise; 2],
    fails: &[u32],
) -> Result<(Filled, bool, Option<u32>), AllocError> {
    let mut parts = Parts {
        pages: Pages::open(alloc, 1)?,
        cache: Cache::open(alloc, &[1], 0, 0)?,
        maps: Maps::open(alloc, 1)?,
        hand: 0,
        faults: 0,
    };
    let tag = Tag::File { file: 0, index: 0 };
    parts.pages.pop();
    parts.pages.set_tag(0, Some(tag));
    parts.cache.insert(tag, 0);
    let file = file_of_a_page(alloc)?;
    let mut storage = NoisyStorage::open(alloc, 1, Vec::from_array(alloc, noises)?)?;
    let mut disk = MemDisk::open(alloc, &[file], 0, fails)?;
    let filled = fill(&mut parts, &mut storage, &mut disk, 0);
    let uptodate = parts.pages.count() == 1 && parts.pages.info(0).uptodate;
    Ok((filled, uptodate, parts.pages.top()))
}

#[test]
fn a_filler_meets_every_answer(rt: HostRuntime) -> Result<(), Fail> {
    use Noise::{Busy, Calm, NoFrame, PagerFails};
    let alloc = rt.alloc();
    let no_frame = Filled::Again {
        why: Why::NoFrame { looks: 0 },
    };
    let disk = Filled::Fail(Cause::Disk);
    let paging = Filled::Fail(Cause::Paging);
    assert_eq!(rt;
        fill_file(alloc, [Calm, Calm], &[])?,
        (Filled::Done, true, None)
    );
    assert_eq!(rt;
        fill_file(alloc, [Calm, Calm], &[1])?,
        (disk, false, Some(0))
    );
    assert_eq!(rt;
        fill_file(alloc, [Calm, PagerFails], &[])?,
        (paging, false, Some(0))
    );
    assert_eq!(rt;
        fill_file(alloc, [Calm, NoFrame], &[])?,
        (no_frame, false, None)
    );
    let (busy, uptodate, free) = fill_file(alloc, [Busy, Calm], &[])?;
    assert!(rt;
        matches!(
            busy,
            Filled::Again {
                why: Why::Busy { page: 0, word: _ }
            }
        )
    );
    assert_eq!(rt; (uptodate, free), (false, None));
    Ok(())
}

/// The only page of the first mapping, a mapping of pages of its own.
const OWN: Tag = Tag::Anon { slot: 0, index: 0 };

/// What is known of a page that has that tag, and is still to be filled.
fn own_info() -> PageInfo
    ensures { result ≡ record { tag = Some (Anon 0 0); uptodate = false; dirty = false; owner = None; pins = 0; writers = 0 } }
{
    PageInfo {
        tag: Some(OWN),
        uptodate: false,
        dirty: false,
        owner: None,
        pins: 0,
        writers: 0,
    }
}

/// The only page, with that tag.
#[tactic(auto, unfolding(guest_pages::specs::PagesView::popped, guest_pages::specs::PagesView::with_info))]
fn own_pages(alloc: Global) -> Result<Pages, AllocError>
    ensures { IfOk result (λ pages. pages ≡ record { infos = record { tag = Some (Anon 0 0); uptodate = false; dirty = false; owner = None; pins = 0; writers = 0 } ∷ []; free = [] }) }
{
    let mut pages = Pages::open(alloc, 1)?;
    pages.pop();
    pages.set_info(0, own_info());
    Ok(pages)
}

/// An index in which that page has the tag, and the only swap slot where it is `swapped`.
#[tactic(auto, unfolding(guest_cache::specs::CacheView::with_page))]
fn own_cache(alloc: Global, swapped: bool) -> Result<Cache, AllocError>
    ensures tag { IfOk result (λ cache. IsTag cache (Anon 0 0)) }
    ensures block { IfOk result (λ cache. IfSome (backing_of cache (Anon 0 0)) (λ block. block < 1)) }
    ensures once { IfOk result (λ cache. HasOneSwapSlot cache) }
{
    let mut cache = Cache::open(alloc, &[], 1, 1)?;
    cache.insert(OWN, 0);
    if swapped {
        cache.assign(OWN);
    }
    Ok(cache)
}

/// The mapping that has the place.
#[tactic(auto, using(guest_maps::specs::Laws::MapsLaws::places_kept))]
fn own_maps(alloc: Global) -> Result<Maps, AllocError>
    ensures place { IfOk result (λ maps. IsPlace maps 0 0) }
    ensures pages { IfOk result (λ maps. maps.pages ≡ 1) }
{
    let mut maps = Maps::open(alloc, 1)?;
    maps.add(0, 0, Shown::Anon, 1);
    Ok(maps)
}

/// The tables of a guest whose only page has that tag, and a swap slot where it is `swapped`.
fn own_page(alloc: Global, swapped: bool) -> Result<Parts, AllocError>
    ensures pages { IfOk result (λ parts. parts.pages ≡ record { infos = record { tag = Some (Anon 0 0); uptodate = false; dirty = false; owner = None; pins = 0; writers = 0 } ∷ []; free = [] }) }
    ensures tag { IfOk result (λ parts. IsTag parts.cache (Anon 0 0)) }
    ensures block { IfOk result (λ parts. IfSome (backing_of parts.cache (Anon 0 0)) (λ block. block < 1)) }
    ensures once { IfOk result (λ parts. HasOneSwapSlot parts.cache) }
    ensures place { IfOk result (λ parts. IsPlace parts.maps 0 0) }
    ensures shown { IfOk result (λ parts. parts.maps.pages ≡ 1) }
{
    Ok(Parts {
        pages: own_pages(alloc)?,
        cache: own_cache(alloc, swapped)?,
        maps: own_maps(alloc)?,
        hand: 0,
        faults: 0,
    })
}

/// What a fill of the page answers, while the disk's first call fails.
fn fill_own(alloc: Global, swapped: bool) -> Result<Filled, AllocError> {
    let mut parts = own_page(alloc, swapped)?;
    let mut storage = NoisyStorage::open(alloc, 1, Vec::new(alloc))?;
    let mut disk = MemDisk::open(alloc, &[], 1, &[1])?;
    Ok(fill(&mut parts, &mut storage, &mut disk, 0))
}

#[test]
fn an_anonymous_page_is_filled_from_its_swap_slot_or_with_zeros(
    rt: HostRuntime,
) -> Result<(), Fail> {
    let alloc = rt.alloc();
    assert_eq!(rt; fill_own(alloc, true)?, Filled::Fail(Cause::Disk));
    assert_eq!(rt; fill_own(alloc, false)?, Filled::Done);
    Ok(())
}

/// What the setting of the page's entry answers, and whether the page is dirty then.
fn map_own(alloc: Global, writable: bool) -> Result<(Placed, bool), AllocError> {
    let mut parts = own_page(alloc, false)?;
    let mut storage = NoisyStorage::open(alloc, 1, Vec::new(alloc))?;
    let placed = resolve(&mut parts, &mut storage, 0, 0, 0, writable);
    Ok((
        placed,
        parts.pages.count() == 1 && parts.pages.info(0).dirty,
    ))
}

#[test]
fn an_anonymous_page_is_dirty_from_its_first_entry_for_stores_on(
    rt: HostRuntime,
) -> Result<(), Fail> {
    let alloc = rt.alloc();
    assert_eq!(rt; map_own(alloc, true)?, (Placed::Done, true));
    assert_eq!(rt; map_own(alloc, false)?, (Placed::Done, false));
    Ok(())
}

/// What the teardown of the page answers, the next free page then, and the least free swap slot.
fn tear_own(
    alloc: Global,
    swapped: bool,
) -> Result<(Placed, Option<u32>, Option<u32>), AllocError> {
    let mut parts = own_page(alloc, swapped)?;
    let mut storage = NoisyStorage::open(alloc, 1, Vec::new(alloc))?;
    let placed = tear_page(&mut parts, &mut storage, 0, 0, 0);
    Ok((placed, parts.pages.top(), parts.cache.least_free()))
}

#[test]
fn a_page_is_torn_off_with_its_swap_slot(rt: HostRuntime) -> Result<(), Fail> {
    let alloc = rt.alloc();
    let torn = (Placed::Done, Some(0), Some(0));
    assert_eq!(rt; tear_own(alloc, true)?, torn);
    assert_eq!(rt; tear_own(alloc, false)?, torn);
    Ok(())
}
