// Syncs of a guest's only page, over a storage whose host does what a list says.
ghost use Rattle.std.specs.Prelude.{◌≡◌, ◌<◌, None, true, IfOk};
ghost use Rattle.cmm_types.specs.InRange.{FileInRange};
ghost use Rattle.cmm_types.specs.declared.page.Usage.TheVariants.{S};

use crate::{sync_page, write_back};
use cmm_io::MemDisk;
use cmm_storage::{Noise, NoisyStorage, Storage};
use cmm_types::{Cause, FilePlan, Items, Tag, Why};
use essa_state::Order;
use guest_cache::Cache;
use guest_maps::Maps;
use guest_pages::{PageInfo, Pages};
use guest_rules::{Filled, Parts, Synced};
use std::alloc::{AllocError, Global};
use std::test::Fail;

/// Touches the page, if the host lets it, and stores to it where that is asked for. It is stable then.
fn prepare<St: Storage>(st: &mut St, stores: bool) -> bool
    requires pages { 0 < (St.view st.old).pages }
    requires none_held { (St.view st.old).held ≡ None }
    ensures pages { (St.view st.new).pages ≡ (St.view st.old).pages }
    ensures none_held { (St.view st.new).held ≡ None }
    ensures stable { result ≡ true → ((St.view st.new).values 0).usage ≡ S }
{
    if st.take(0).is_err() {
        return false;
    }
    st.order(0, Order::SetStable);
    if st.touch(0).is_err() {
        st.put(0);
        return false;
    }
    if stores {
        st.store(0, 0, b"new".as_slice());
        st.put(0);
        return true;
    }
    st.put(0);
    true
}

/// What a look at the page of a file answers, and whether it is dirty then, and locked. It was stored to where
/// that is asked for.
#[tactic(auto, unfolding(guest_pages::specs::PagesView::popped, guest_pages::specs::PagesView::with_info, guest_cache::specs::CacheView::with_page))]
fn look(
    alloc: Global,
    stores: bool,
    owner: Option<u32>,
    noises: [Noise; 3],
) -> Result<(Synced, bool, Option<u32>), AllocError> {
    let mut parts = Parts {
        pages: Pages::open(alloc, 1)?,
        cache: Cache::open(alloc, &[1], 0, 0)?,
        maps: Maps::open(alloc, 1)?,
        hand: 0,
        faults: 0,
    };
    let tag = Tag::File { file: 0, index: 0 };
    parts.pages.pop();
    let info = PageInfo {
        tag: Some(tag),
        uptodate: true,
        dirty: false,
        owner,
        pins: 0,
        writers: 0,
    };
    parts.pages.set_info(0, info);
    parts.cache.insert(tag, 0);
    let mut storage = NoisyStorage::open(alloc, 1, Vec::from_array(alloc, noises)?)?;
    prepare(&mut storage, stores);
    let synced = sync_page(&mut parts, &mut storage, 3, 0);
    let dirty = parts.pages.count() == 1 && parts.pages.info(0).dirty;
    let locked = if parts.pages.count() == 1 {
        parts.pages.info(0).owner
    } else {
        None
    };
    Ok((synced, dirty, locked))
}

/// A file of one page.
fn old_file(alloc: Global) -> Result<FilePlan, AllocError>
    ensures range { IfOk result FileInRange }
    ensures pages { IfOk result (λ file. file.pages ≡ 1) }
{
    Ok(FilePlan {
        pages: 1,
        head: Items::from_vec(Vec::from_slice(alloc, b"old")?),
    })
}

/// What the writing back of the page of a file, which a processor has locked, answers, and whether it is dirty
/// then, and locked; nothing where the host doesn't let the page be touched before. It was stored to where that is
/// asked for, and the disk fails where a list says.
#[tactic(auto, unfolding(guest_pages::specs::PagesView::popped, guest_pages::specs::PagesView::with_info, guest_cache::specs::CacheView::with_page))]
fn back(
    alloc: Global,
    stores: bool,
    fails: &[u32],
    noises: [Noise; 4],
) -> Result<Option<(Filled, bool, Option<u32>)>, AllocError> {
    let mut parts = Parts {
        pages: Pages::open(alloc, 1)?,
        cache: Cache::open(alloc, &[1], 0, 0)?,
        maps: Maps::open(alloc, 1)?,
        hand: 0,
        faults: 0,
    };
    let tag = Tag::File { file: 0, index: 0 };
    parts.pages.pop();
    let info = PageInfo {
        tag: Some(tag),
        uptodate: true,
        dirty: true,
        owner: Some(3),
        pins: 0,
        writers: 1,
    };
    parts.pages.set_info(0, info);
    parts.cache.insert(tag, 0);
    let file = old_file(alloc)?;
    let mut storage = NoisyStorage::open(alloc, 1, Vec::from_array(alloc, noises)?)?;
    let mut disk = MemDisk::open(alloc, &[file], 0, fails)?;
    if !prepare(&mut storage, stores) {
        return Ok(None);
    }
    let filled = write_back(&mut parts, &mut storage, &mut disk, 0);
    let dirty = parts.pages.count() == 1 && parts.pages.info(0).dirty;
    let locked = if parts.pages.count() == 1 {
        parts.pages.info(0).owner
    } else {
        None
    };
    Ok(Some((filled, dirty, locked)))
}

#[test]
fn a_sync_locks_what_is_dirty(rt: HostRuntime) -> Result<(), Fail> {
    use Noise::{Busy, Calm, Discard};
    let alloc = rt.alloc();
    assert_eq!(rt;
        look(alloc, false, None, [Calm, Calm, Calm])?,
        (Synced::Clean, false, None)
    );
    assert_eq!(rt;
        look(alloc, true, None, [Calm, Calm, Calm])?,
        (Synced::Locked, true, Some(3))
    );
    assert_eq!(rt;
        look(alloc, true, None, [Calm, Calm, Discard])?,
        (Synced::Locked, true, Some(3))
    );
    assert_eq!(rt;
        look(alloc, true, Some(1), [Calm, Calm, Calm])?,
        (Synced::Waits { owner: 1 }, false, Some(1))
    );
    let (answer, dirty, owner) = look(alloc, true, None, [Calm, Calm, Busy])?;
    let busy = matches!(
        answer,
        Synced::Again {
            why: Why::Busy { page: 0, word: _ }
        }
    );
    assert_eq!(rt; (busy, dirty, owner), (true, false, None));
    Ok(())
}

#[test]
fn a_page_is_clean_only_once_its_block_is_written(rt: HostRuntime) -> Result<(), Fail> {
    use Noise::Calm;
    let alloc = rt.alloc();
    assert_eq!(rt;
        back(alloc, false, &[], [Calm, Calm, Calm, Calm])?,
        Some((Filled::Done, false, None))
    );
    assert_eq!(rt;
        back(alloc, true, &[], [Calm, Calm, Calm, Calm])?,
        Some((Filled::Done, true, None))
    );
    assert_eq!(rt;
        back(alloc, false, &[1], [Calm, Calm, Calm, Calm])?,
        Some((Filled::Fail(Cause::Disk), true, None))
    );
    Ok(())
}
