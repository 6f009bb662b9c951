use crate::hint_of;
use cmm_types::{Tag, Usage};
use guest_pages::PageInfo;
use std::test::Fail;

#[test]
fn each_word_of_an_info_has_its_place_in_the_hint(rt: HostRuntime) -> Result<(), Fail> {
    let clean = PageInfo {
        tag: Some(Tag::File { file: 0, index: 0 }),
        uptodate: true,
        dirty: false,
        owner: None,
        pins: 0,
        writers: 0,
    };
    for (info, hint) in [
        (PageInfo { tag: None, ..clean }, Usage::U),
        (clean, Usage::V),
        (
            PageInfo {
                writers: 1,
                ..clean
            },
            Usage::P,
        ),
        (
            PageInfo {
                uptodate: false,
                ..clean
            },
            Usage::S,
        ),
        (
            PageInfo {
                dirty: true,
                ..clean
            },
            Usage::S,
        ),
        (
            PageInfo {
                owner: Some(0),
                ..clean
            },
            Usage::S,
        ),
        (PageInfo { pins: 1, ..clean }, Usage::S),
        (
            PageInfo {
                pins: 1,
                writers: 1,
                ..clean
            },
            Usage::S,
        ),
    ] {
        assert_eq!(rt; hint_of(&info), hint, "{info:?}");
    }
    Ok(())
}
