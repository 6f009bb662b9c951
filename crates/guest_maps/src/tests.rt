use crate::{Maps, Pte, Shown, Spot};
use cmm_types::Tag;
use std::test::Fail;

/// Pages of file 1 from page 5 on, read only.
const TEXT: Shown = Shown::File {
    file: 1,
    first: 5,
    writable: false,
};

#[test]
#[tactic(auto, using(crate::specs::Laws::MapsLaws::places_kept))]
fn a_page_is_shown_until_it_is_cleared(rt: HostRuntime) -> Result<(), Fail> {
    let mut maps = Maps::open(rt.alloc(), 4)?;
    assert_eq!(rt; maps.find(2, 7), None);
    let slot = maps.add(2, 7, Shown::Anon, 8);
    assert_eq!(rt; slot, 0);
    let stored = Pte {
        page: 3,
        writable: true,
    };
    let loaded = Pte {
        page: 3,
        writable: false,
    };
    let other = Pte {
        page: 1,
        writable: false,
    };
    maps.set(slot, 2, stored);
    maps.set(slot, 5, other);
    maps.set(slot, 6, loaded);
    let cases = [
        (2, Some(stored), None),
        (4, None, None),
        (5, Some(other), Some(other)),
        (6, Some(loaded), None),
    ];
    for (page, entry, _) in &cases {
        assert_eq!(rt; maps.translate(2, 7, *page), *entry);
    }
    assert_eq!(rt; maps.clear_page(3), 2);
    for (page, _, entry) in &cases {
        assert_eq!(rt; maps.translate(2, 7, *page), *entry);
    }
    assert_eq!(rt; maps.clear_page(3), 0);
    maps.clear(slot, 5);
    assert_eq!(rt; maps.translate(2, 7, 5), None);
    assert_eq!(rt; maps.clear_page(1), 0);
    Ok(())
}

#[test]
#[tactic(auto, using(crate::specs::Laws::MapsLaws::places_kept))]
fn a_mapping_is_found_until_it_is_torn_down(rt: HostRuntime) -> Result<(), Fail> {
    let mut maps = Maps::open(rt.alloc(), 4)?;
    assert_eq!(rt; maps.find(2, 7), None);
    let slot = maps.add(2, 7, TEXT, 3);
    assert_eq!(rt; maps.find(2, 7), Some(slot));
    assert_eq!(rt; maps.find(1, 7), None);
    assert_eq!(rt; maps.find(2, 6), None);
    assert_eq!(rt; maps.live(), 1);
    maps.tear(slot);
    assert_eq!(rt; maps.find(2, 7), None);
    assert_eq!(rt; maps.live(), 0);
    let torn = Spot {
        tag: Tag::File { file: 1, index: 7 },
        writable: false,
        live: false,
        pte: None,
    };
    assert_eq!(rt; maps.spot(slot, 2), Some(torn));
    assert_eq!(rt; maps.spot(slot, 3), None);
    assert!(rt; !maps.any_pinned(slot));
    maps.free(slot);
    assert_eq!(rt; maps.spot(slot, 2), None);
    Ok(())
}

#[test]
#[tactic(auto, using(crate::specs::Laws::MapsLaws::places_kept))]
fn a_place_is_pinned_until_it_is_unpinned(rt: HostRuntime) -> Result<(), Fail> {
    let mut maps = Maps::open(rt.alloc(), 4)?;
    assert_eq!(rt; maps.find(0, 0), None);
    let slot = maps.add(0, 0, TEXT, 3);
    maps.set_pinned(slot, 2, true);
    assert_eq!(rt; maps.pinned(slot, 2), true);
    assert_eq!(rt; maps.pinned(slot, 1), false);
    maps.set_pinned(slot, 2, false);
    assert_eq!(rt; maps.pinned(slot, 2), false);
    Ok(())
}
