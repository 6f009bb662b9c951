// Making room by a call of its own, on three pages of a file, over a storage whose host does nothing.
ghost use Rattle.std.specs.Prelude.{◌≡◌, [], ◌∷◌, Some, IfOk};
ghost use Rattle.cmm_types.specs.declared.page.Tag.TheVariants.{File};

use crate::make_room;
use cmm_storage::NoisyStorage;
use cmm_types::Tag;
use guest_cache::Cache;
use guest_maps::Maps;
use guest_pages::{PageInfo, Pages};
use guest_rules::{Parts, Room};
use std::alloc::{AllocError, Global};
use std::test::Fail;

#[derive(Clone, Copy, Debug)]
enum Kind {
    Clean,
    Dirty,
    Pinned,
    Locked(u32),
}

/// What is known of a page that has the bytes of page `index` of the file.
fn known(index: u32, kind: Kind) -> PageInfo
    ensures { result.tag ≡ Some (File 0 index) }
{
    let clean = PageInfo {
        tag: Some(Tag::File { file: 0, index }),
        uptodate: true,
        dirty: false,
        owner: None,
        pins: 0,
        writers: 0,
    };
    match kind {
        Kind::Clean => clean,
        Kind::Dirty => PageInfo {
            dirty: true,
            ..clean
        },
        Kind::Pinned => PageInfo { pins: 1, ..clean },
        Kind::Locked(owner) => PageInfo {
            owner: Some(owner),
            ..clean
        },
    }
}

/// Three pages of which none is free.
#[tactic(auto, unfolding(guest_pages::specs::PagesView::popped, guest_pages::specs::PagesView::with_info))]
fn three_pages(
    alloc: Global,
    first: PageInfo,
    second: PageInfo,
    third: PageInfo,
) -> Result<Pages, AllocError>
    ensures { IfOk result (λ pages. pages ≡ record { infos = first ∷ second ∷ third ∷ []; free = [] }) }
{
    let mut pages = Pages::open(alloc, 3)?;
    pages.pop();
    pages.pop();
    pages.pop();
    pages.set_info(0, first);
    pages.set_info(1, second);
    pages.set_info(2, third);
    Ok(pages)
}

/// What making room for processor 4 answers, the next free page then, and where the hand stands.
fn room(
    alloc: Global,
    hand: u32,
    kinds: [Kind; 3],
) -> Result<(Room, Option<u32>, u32), AllocError> {
    let first = known(0, kinds[0]);
    let second = known(1, kinds[1]);
    let third = known(2, kinds[2]);
    let mut parts = Parts {
        pages: three_pages(alloc, first, second, third)?,
        cache: Cache::open(alloc, &[3], 0, 0)?,
        maps: Maps::open(alloc, 3)?,
        hand,
        faults: 0,
    };
    let mut storage = NoisyStorage::open(alloc, 3, Vec::new(alloc))?;
    let answer = make_room(&mut parts, &mut storage, 4);
    Ok((answer, parts.pages.top(), parts.hand))
}

#[test]
fn the_first_page_that_can_go_makes_room(rt: HostRuntime) -> Result<(), Fail> {
    use Kind::{Clean, Dirty, Locked, Pinned};
    let none = Room::NoPage {
        pinned: 3,
        unslotted: 0,
    };
    for (hand, kinds, answer, next, then) in [
        // A dirty page is locked, and the hand stays.
        (0, [Pinned, Dirty, Clean], Room::Locked { page: 1 }, None, 0),
        // A clean page is freed, and the hand stands behind it.
        (2, [Pinned, Dirty, Clean], Room::Freed, Some(2), 0),
        (0, [Clean, Dirty, Pinned], Room::Freed, Some(0), 1),
        // None from the hand on can go, but one before it.
        (2, [Pinned, Clean, Pinned], Room::Freed, Some(1), 2),
        (3, [Pinned, Locked(2), Clean], Room::Freed, Some(2), 0),
        // None can go: the first locked one from the hand on is waited for.
        (
            1,
            [Locked(2), Locked(3), Pinned],
            Room::Waits { page: 1, owner: 3 },
            None,
            1,
        ),
        (
            2,
            [Locked(2), Locked(3), Pinned],
            Room::Waits { page: 0, owner: 2 },
            None,
            2,
        ),
        (1, [Pinned, Pinned, Pinned], none, None, 1),
    ] {
        assert_eq!(rt;
            room(rt.alloc(), hand, kinds)?,
            (answer, next, then),
            "{kinds:?}"
        );
    }
    Ok(())
}
