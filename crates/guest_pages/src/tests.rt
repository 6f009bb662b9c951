use crate::{PageInfo, Pages};
use cmm_types::Tag;
use std::test::Fail;

#[test]
fn page_0_is_the_first_free_page_and_then_each_in_order(rt: HostRuntime) -> Result<(), Fail> {
    let mut pages = Pages::open(rt.alloc(), 3)?;
    assert_eq!(rt; pages.count(), 3);
    for page in 0..3 {
        assert_eq!(rt; pages.top(), Some(page));
        assert_eq!(rt; pages.pop(), Some(page));
    }
    assert_eq!(rt; pages.top(), None);
    assert_eq!(rt; pages.pop(), None);
    Ok(())
}

#[test]
#[tactic(auto, unfolding(crate::specs::PagesView::popped))]
fn the_page_pushed_is_the_next(rt: HostRuntime) -> Result<(), Fail> {
    let mut pages = Pages::open(rt.alloc(), 2)?;
    assert_eq!(rt; pages.pop(), Some(0));
    assert_eq!(rt; pages.top(), Some(1));
    pages.push(0);
    assert_eq!(rt; pages.top(), Some(0));
    Ok(())
}

#[test]
fn each_setter_sets_its_field_of_its_page(rt: HostRuntime) -> Result<(), Fail> {
    let mut pages = Pages::open(rt.alloc(), 2)?;
    let free = pages.info(0);
    assert_eq!(rt; pages.info(1), free);
    pages.set_tag(1, Some(Tag::File { file: 2, index: 3 }));
    pages.set_uptodate(1, true);
    pages.set_dirty(1, true);
    pages.set_owner(1, Some(4));
    pages.set_pins(1, 5);
    pages.set_writers(1, 6);
    let used = PageInfo {
        tag: Some(Tag::File { file: 2, index: 3 }),
        uptodate: true,
        dirty: true,
        owner: Some(4),
        pins: 5,
        writers: 6,
    };
    assert_eq!(rt; pages.info(1), used);
    assert_eq!(rt; pages.info(0), free);
    pages.clear(1);
    assert_eq!(rt; pages.info(1), free);
    Ok(())
}
