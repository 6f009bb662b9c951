ghost use Rattle.std.specs.Prelude.{◌≡◌, ◌<◌};

use crate::Cache;
use cmm_types::{MAX_MAPPING_PAGES, Tag};
use std::test::Fail;

#[test]
fn blocks_are_the_files_pages_in_order(rt: HostRuntime) -> Result<(), Fail> {
    let cache = Cache::open(rt.alloc(), &[2, 0, 3], 0, 1)?;
    assert_eq!(rt; cache.backing(Tag::File { file: 0, index: 1 }), Some(1));
    assert_eq!(rt; cache.backing(Tag::File { file: 2, index: 0 }), Some(2));
    assert_eq!(rt; cache.backing(Tag::File { file: 2, index: 2 }), Some(4));
    assert_eq!(rt; cache.backing(Tag::Anon { slot: 0, index: 2 }), None);
    Ok(())
}

/// The swap slot that page `index` of the first mapping slot is given, and the block behind that page then; none where it
/// has one.
#[tactic(auto, using(crate::specs::Laws::CacheLaws::is_tag_assigned, crate::specs::Laws::CacheLaws::slots_assigned))]
fn give(cache: &mut Cache, index: u32) -> (Option<u32>, Option<u32>)
    requires slot { 0 < cache.old.slots }
    requires index { index < MAX_MAPPING_PAGES }
    ensures slots { cache.new.slots ≡ cache.old.slots }
{
    let tag = Tag::Anon { slot: 0, index };
    if cache.slot(tag).is_some() {
        return (None, None);
    }
    let slot = cache.assign(tag);
    (slot, cache.backing(tag))
}

/// Frees the swap slot of page `index` of the first mapping slot.
#[tactic(auto, using(crate::specs::Laws::CacheLaws::slots_unassigned))]
fn take_back(cache: &mut Cache, index: u32)
    requires slot { 0 < cache.old.slots }
    requires index { index < MAX_MAPPING_PAGES }
    ensures slots { cache.new.slots ≡ cache.old.slots }
{
    cache.release(Tag::Anon { slot: 0, index });
}

#[test]
fn the_least_free_swap_slot_is_assigned(rt: HostRuntime) -> Result<(), Fail> {
    let mut cache = Cache::open(rt.alloc(), &[2, 3], 2, 1)?;
    assert_eq!(rt; give(&mut cache, 9), (Some(0), Some(5)));
    assert_eq!(rt; give(&mut cache, 4), (Some(1), Some(6)));
    assert_eq!(rt; give(&mut cache, 7), (None, None));
    take_back(&mut cache, 7);
    take_back(&mut cache, 9);
    assert_eq!(rt; cache.slot(Tag::Anon { slot: 0, index: 9 }), None);
    assert_eq!(rt; give(&mut cache, 7), (Some(0), Some(5)));
    Ok(())
}

#[test]
#[tactic(auto, unfolding(crate::specs::CacheView::with_page, crate::specs::CacheView::without_page))]
fn a_page_is_found_by_its_tag_alone_until_it_is_removed(rt: HostRuntime) -> Result<(), Fail> {
    let mut cache = Cache::open(rt.alloc(), &[2, 3], 0, 2)?;
    let tag = Tag::Anon {
        slot: 1,
        index: 1023,
    };
    assert_eq!(rt; cache.find(tag), None);
    cache.insert(tag, 7);
    assert_eq!(rt; cache.find(tag), Some(7));
    assert_eq!(rt;
        cache.find(Tag::Anon {
            slot: 0,
            index: 1023
        }),
        None
    );
    assert_eq!(rt; cache.find(Tag::File { file: 1, index: 2 }), None);
    cache.remove(tag);
    assert_eq!(rt; cache.find(tag), None);
    Ok(())
}
