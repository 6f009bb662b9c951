use crate::Guest;
use cmm_types::{CpuPlan, GuestPlan, Items};
use guest_pages::PageInfo;
use std::test::Fail;

#[test]
fn a_new_guest_has_done_nothing(rt: HostRuntime) -> Result<(), Fail> {
    let alloc = rt.alloc();
    let cpu = CpuPlan {
        process: 0,
        commands: Items::from_vec(Vec::new(alloc)),
    };
    let plan = GuestPlan {
        pages: 4,
        swap: 0,
        files: Items::from_vec(Vec::new(alloc)),
        disk_fail: Items::from_vec(Vec::new(alloc)),
        pager_fail: Items::from_vec(Vec::new(alloc)),
        cpus: Items::from_vec(Vec::from_array(alloc, [cpu])?),
    };
    assert!(rt; plan.is_in_range());
    let guest = Guest::open(alloc, &plan)?;
    assert_eq!(rt; guest.plan().pages, 4);
    assert_eq!(rt; guest.journal().len(), 0);
    assert_eq!(rt; guest.faults(), 0);
    assert!(rt; guest.done(0));
    let free = PageInfo {
        tag: None,
        uptodate: false,
        dirty: false,
        owner: None,
        pins: 0,
        writers: 0,
    };
    assert_eq!(rt; guest.info(3), free);
    Ok(())
}
