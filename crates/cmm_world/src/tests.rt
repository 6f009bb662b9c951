use crate::World;
use cmm_io::Disk;
use cmm_types::{
    Alone, Answer, Bytes64, CpuPlan, Event, FilePlan, GuestPlan, Items, Move, Op, Refused,
    Scenario, Turn, Usage,
};
use std::alloc::{AllocError, Global};
use std::test::Fail;

/// One guest of four pages, with a file of one page that begins with `head`, over four frames.
fn scenario(
    alloc: Global,
    head: &[u8],
    cpus: Vec<CpuPlan>,
    disk_fail: Vec<u32>,
    schedule: Vec<Event>,
) -> Result<Scenario, AllocError> {
    let file = FilePlan {
        pages: 1,
        head: Items::from_vec(Vec::from_slice(alloc, head)?),
    };
    let guest = GuestPlan {
        pages: 4,
        swap: 0,
        files: Items::from_vec(vec![in alloc; file]?),
        disk_fail: Items::from_vec(disk_fail),
        pager_fail: Items::from_vec(Vec::new(alloc)),
        cpus: Items::from_vec(cpus),
    };
    Ok(Scenario {
        frames: 4,
        reclaimers: 0,
        pager_fail: Items::from_vec(Vec::new(alloc)),
        guests: Items::from_vec(vec![in alloc; guest]?),
        schedule: Items::from_vec(schedule),
    })
}

fn processor(commands: Vec<Op>) -> CpuPlan {
    CpuPlan {
        process: 0,
        commands: Items::from_vec(commands),
    }
}

/// Stores one byte at the beginning of mapping 0.
fn store(byte: u8) -> Op {
    Op::Store {
        map: 0,
        off: 0,
        bytes: Bytes64::from_slice(&[byte]).unwrap(),
    }
}

/// Maps the file's page as mapping 0, for stores.
fn map_file() -> Op {
    Op::MapFile {
        map: 0,
        file: 0,
        first: 0,
        count: 1,
        writable: true,
    }
}

/// The first byte of block 0 of the first guest's disk, and the usage of the guest's page 0.
fn seen(world: &World) -> (Option<u8>, Option<Usage>) {
    if world.guests() == 0 {
        return (None, None);
    }
    let page = world.words(0).first().map(|word| word.usage());
    let disk = world.disk(0);
    if disk.blocks() == 0 {
        return (None, page);
    }
    (disk.block(0).first().copied(), page)
}

/// Whether the events of the plan's schedule answer so, and what is seen behind them.
fn played(
    alloc: Global,
    plan: &Scenario,
    wanted: &[Answer],
) -> Result<(bool, Option<u8>, Option<Usage>), AllocError> {
    if !plan.is_in_range() {
        return Ok((false, None, None));
    }
    let mut world = World::open(alloc, plan)?;
    let mut answers = Vec::new(alloc);
    for event in plan.schedule.as_slice() {
        answers.push(world.event(event))?;
    }
    let (byte, usage) = seen(&world);
    Ok((answers.as_slice() == wanted, byte, usage))
}

#[test]
fn an_opened_world_has_unused_pages(rt: HostRuntime) -> Result<(), Fail> {
    let alloc = rt.alloc();
    let read = Op::Read {
        file: 0,
        off: 0,
        len: 5,
    };
    let cpu = processor(vec![in alloc; read]?);
    let turn = Event::Cpu { guest: 0, cpu: 0 };
    let plan = scenario(
        alloc,
        b"hello",
        vec![in alloc; cpu]?,
        Vec::new(alloc),
        vec![in alloc; turn, turn, turn]?,
    )?;
    assert!(rt; plan.is_in_range());
    let world = World::open(alloc, &plan)?;
    assert_eq!(rt; world.answers().len(), 0);
    assert!(rt; world.guests() == 1);
    assert_eq!(rt; world.words(0).len(), 4);
    for word in world.words(0) {
        assert_eq!(rt; word.raw(), 9);
    }
    Ok(())
}

// The page that a sync has locked is stored to, and is written back with that byte. It stays dirty, so it is stable.
#[test]
fn a_store_during_a_sync_is_written_back(rt: HostRuntime) -> Result<(), Fail> {
    let alloc = rt.alloc();
    let first = processor(vec![in alloc; map_file(), store(0x61), Op::Sync { file: 0 }]?);
    let second = processor(vec![in alloc; store(0x62)]?);
    let alone = Event::Alone { guest: 0, cpu: 0 };
    let turn = Event::Cpu { guest: 0, cpu: 0 };
    let other = Event::Alone { guest: 0, cpu: 1 };
    let cpus = vec![in alloc; first, second]?;
    let schedule = vec![in alloc; alone, alone, turn, other, turn]?;
    let plan = scenario(alloc, &[0], cpus, Vec::new(alloc), schedule)?;
    let wanted = [
        Answer::Alone(Alone::Finished { turns: 1 }),
        Answer::Alone(Alone::Finished { turns: 4 }),
        Answer::Turn(Turn::Moved),
        Answer::Alone(Alone::Finished { turns: 1 }),
        Answer::Turn(Turn::Finished),
    ];
    let seen = played(alloc, &plan, &wanted)?;
    assert_eq!(rt; seen, (true, Some(0x62), Some(Usage::S)));
    Ok(())
}

// The second call of the disk, which writes the page back, fails. The next sync writes it, and the page is clean then,
// with an entry for stores.
#[test]
fn a_failed_write_back_is_made_good_by_the_next_sync(rt: HostRuntime) -> Result<(), Fail> {
    let alloc = rt.alloc();
    let commands = vec![in alloc;
        map_file(),
        store(0x61),
        Op::Sync { file: 0 },
        Op::Sync { file: 0 },
    ]?;
    let cpus = vec![in alloc; processor(commands)]?;
    let schedule = vec![in alloc; Event::Alone { guest: 0, cpu: 0 }; 4]?;
    let plan = scenario(alloc, &[0], cpus, vec![in alloc; 2]?, schedule)?;
    let wanted = [1, 4, 2, 2].map(|turns| Answer::Alone(Alone::Finished { turns }));
    let seen = played(alloc, &plan, &wanted)?;
    assert_eq!(rt; seen, (true, Some(0x61), Some(Usage::P)));
    Ok(())
}

/// One guest of one page and two swap slots, without files, whose processor has these commands and goes on alone with
/// each.
fn swapping(alloc: Global, commands: Vec<Op>) -> Result<Scenario, AllocError> {
    let schedule = vec![in alloc; Event::Alone { guest: 0, cpu: 0 }; commands.len()]?;
    let guest = GuestPlan {
        pages: 1,
        swap: 2,
        files: Items::from_vec(Vec::new(alloc)),
        disk_fail: Items::from_vec(Vec::new(alloc)),
        pager_fail: Items::from_vec(Vec::new(alloc)),
        cpus: Items::from_vec(vec![in alloc; processor(commands)]?),
    };
    Ok(Scenario {
        frames: 4,
        reclaimers: 0,
        pager_fail: Items::from_vec(Vec::new(alloc)),
        guests: Items::from_vec(vec![in alloc; guest]?),
        schedule: Items::from_vec(schedule),
    })
}

// The second store writes the first page of the mapping to swap slot 0, and the load gets it back from there. The unmap
// leaves the guest's page unused.
#[test]
fn an_anonymous_page_is_written_to_its_swap_slot(rt: HostRuntime) -> Result<(), Fail> {
    let alloc = rt.alloc();
    let second = Op::Store {
        map: 0,
        off: 4096,
        bytes: Bytes64::from_slice(&[0x62]).unwrap(),
    };
    let load = Op::Load {
        map: 0,
        off: 0,
        len: 1,
    };
    let commands = vec![in alloc;
        Op::MapAnon { map: 0, count: 2 },
        store(0x61),
        second,
        load,
        Op::Unmap { map: 0 },
    ]?;
    let plan = swapping(alloc, commands)?;
    let wanted = [1, 4, 7, 7, 3].map(|turns| Answer::Alone(Alone::Finished { turns }));
    let seen = played(alloc, &plan, &wanted)?;
    assert_eq!(rt; seen, (true, Some(0x61), Some(Usage::U)));
    Ok(())
}
