use crate::*;
use std::test::Fail;

fn load(off: u32, len: u32) -> Op {
    Op::Load { map: 0, off, len }
}

#[test]
fn a_piece_ends_with_its_page(rt: HostRuntime) {
    let table = [
        (load(4032, 64), true),
        (load(4033, 64), false),
        (load(4_194_303, 1), true),
        (load(4_194_304, 1), false),
        (load(0, 0), false),
        (load(0, 65), false),
    ];
    for (op, fits) in &table {
        assert_eq!(rt; op.is_in_range(), *fits, "{op:?}");
    }
}

#[test]
fn at_most_64_bytes_are_kept(rt: HostRuntime) -> Result<(), Fail> {
    assert!(rt; Bytes64::from_slice(&[7; 65]).is_none());
    let bytes = Bytes64::from_slice(b"hello").ok_or("five bytes fit")?;
    assert_eq!(rt; bytes.copy().as_slice(), b"hello".as_slice());
    assert!(rt; !bytes.is_empty());
    Ok(())
}

#[test]
fn a_smallest_scenario_is_in_range(rt: HostRuntime) -> Result<(), Fail> {
    let alloc = rt.alloc();
    let read = Op::Read {
        file: 0,
        off: 0,
        len: 5,
    };
    let file = FilePlan {
        pages: 1,
        head: Items::from_vec(Vec::from_slice(alloc, b"hello")?),
    };
    let cpu = CpuPlan {
        process: 0,
        commands: Items::from_vec(vec![in alloc; read.copy()]?),
    };
    let guest = GuestPlan {
        pages: 4,
        swap: 0,
        files: Items::from_vec(vec![in alloc; file]?),
        disk_fail: Items::from_vec(Vec::new(alloc)),
        pager_fail: Items::from_vec(Vec::new(alloc)),
        cpus: Items::from_vec(vec![in alloc; cpu]?),
    };
    let plan = Scenario {
        frames: 4,
        reclaimers: 0,
        pager_fail: Items::from_vec(Vec::new(alloc)),
        guests: Items::from_vec(vec![in alloc; guest]?),
        schedule: Items::from_vec(Vec::new(alloc)),
    };
    assert!(rt; plan.is_in_range());
    for (page, fits) in [(3, true), (4, false)] {
        let event = Event::Host {
            guest: 0,
            page,
            action: Move::Discard,
        };
        assert_eq!(rt;
            event.is_in_range(plan.guests.as_slice()),
            fits,
            "page {page} of 4"
        );
    }
    Ok(())
}
