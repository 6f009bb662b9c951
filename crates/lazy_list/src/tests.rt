use crate::LazyList;
use std::test::Fail;

#[test]
fn a_place_has_what_was_set_last_and_the_others_what_they_began_with(
    rt: HostRuntime,
) -> Result<(), Fail> {
    let mut list = LazyList::open(rt.alloc(), 6, 7)?;
    list.set(3, 1);
    list.set(1, 2);
    list.set(3, 4);
    for (place, expected) in [7, 2, 7, 4, 7, 7].iter().enumerate() {
        if place < list.len() {
            assert_eq!(rt; list.at(place), *expected);
        } else {
            assert!(rt; false, "six places");
        }
    }
    Ok(())
}
