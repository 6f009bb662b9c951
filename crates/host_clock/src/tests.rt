use crate::victim;
use cmm_types::{Content, Usage};
use essa_state::{Word, pack};
use std::test::Fail;

/// A stable page's word, resident or not.
fn page(content: Content, referenced: bool, busy: bool) -> Result<Word, &'static str> {
    pack(Usage::S, content, referenced, false, busy, 0).ok_or("permitted")
}

#[test]
fn the_first_unreferenced_page_from_the_hand_is_taken(rt: HostRuntime) -> Result<(), Fail> {
    let free = page(Content::Resident, false, false)?;
    let used = page(Content::Resident, true, false)?;
    let held = page(Content::Resident, false, true)?;
    let gone = page(Content::Preserved, false, false)?;
    assert_eq!(rt; victim(&[used, free, free], 0), Some((1, 2)));
    assert_eq!(rt; victim(&[used, free, free], 2), Some((2, 0)));
    assert_eq!(rt; victim(&[free, used, used], 1), Some((0, 1)));
    assert_eq!(rt; victim(&[used, held, gone, free], 1), Some((3, 0)));
    assert_eq!(rt; victim(&[used, used, used], 1), Some((1, 2)));
    assert_eq!(rt; victim(&[used, held, gone], 1), Some((0, 1)));
    assert_eq!(rt; victim(&[held, gone], 1), None);
    Ok(())
}
