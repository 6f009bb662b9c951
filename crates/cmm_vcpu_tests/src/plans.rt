// Small scenarios, whose schedules are empty.
use cmm_types::{CpuPlan, FilePlan, GuestPlan, Items, Op, Scenario};
use std::alloc::{AllocError, Global};

/// A guest of so many pages, with a file of one page that begins with `head`, and with eight swap slots.
pub fn guest(
    alloc: Global,
    pages: u32,
    head: &[u8],
    cpus: Vec<CpuPlan>,
) -> Result<GuestPlan, AllocError> {
    let file = FilePlan {
        pages: 1,
        head: Items::from_vec(Vec::from_slice(alloc, head)?),
    };
    Ok(GuestPlan {
        pages,
        swap: 8,
        files: Items::from_vec(vec![in alloc; file]?),
        disk_fail: Items::from_vec(Vec::new(alloc)),
        pager_fail: Items::from_vec(Vec::new(alloc)),
        cpus: Items::from_vec(cpus),
    })
}

pub fn scenario(alloc: Global, frames: u32, reclaimers: u32, guests: Vec<GuestPlan>) -> Scenario {
    Scenario {
        frames,
        reclaimers,
        pager_fail: Items::from_vec(Vec::new(alloc)),
        guests: Items::from_vec(guests),
        schedule: Items::from_vec(Vec::new(alloc)),
    }
}

pub fn processor(process: u32, commands: Vec<Op>) -> CpuPlan {
    CpuPlan {
        process,
        commands: Items::from_vec(commands),
    }
}

/// Reads the first bytes of the file.
pub fn read(len: u32) -> Op {
    Op::Read {
        file: 0,
        off: 0,
        len,
    }
}
