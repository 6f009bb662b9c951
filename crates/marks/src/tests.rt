use crate::Marks;
use std::test::Fail;

#[test]
fn the_next_marked_place_is_found(rt: HostRuntime) -> Result<(), Fail> {
    let mut marks = Marks::open(rt.alloc(), 9_000)?;
    assert_eq!(rt; marks.len(), 9_000);
    assert!(rt; !marks.is_empty());
    assert_eq!(rt; marks.first(70), None);
    marks.set(63, true);
    marks.set(8_999, true);
    assert_eq!(rt; marks.next(0, 9_000), Some(63));
    assert_eq!(rt; marks.next(64, 8_999), None);
    assert_eq!(rt; marks.first(64), Some(8_999));
    marks.set(8_999, false);
    assert_eq!(rt; marks.first(64), Some(63));
    Ok(())
}
