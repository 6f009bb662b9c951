ghost use Rattle.std.specs.Prelude.{◌≡◌, ◌≤◌, IfOk};
ghost use Rattle.cmm_types.specs.InRange.{ScenarioInRange};
ghost use Rattle.cmm_generate.specs.Draws.{Draws};
ghost use Rattle.cmm_generate.specs.Generated.{file, files, guest_plan, cpu_plan, scenario, generated};
ghost use Rattle.cmm_generate.specs.Writes.{WritesScenario};

use crate::commands::{commands, commands_of};
use crate::events::schedule;
use crate::numbers::{Numbers, bytes};
use cmm_types::{CpuPlan, Event, FilePlan, GuestPlan, Items, Op, Scenario};
use std::alloc::{AllocError, Global};

const FILES: u32 = 5;

#[tactic(auto, unfolding(crate::specs::Generated::file))]
fn file(alloc: Global, numbers: &mut Numbers) -> Result<FilePlan, AllocError>
    ensures { IfOk result (Draws file numbers.old.number numbers.new.number) }
{
    let head = bytes(16, alloc, numbers)?;
    Ok(FilePlan {
        pages: 8,
        head: Items::from_vec(head),
    })
}

#[tactic(auto, using(crate::proofs::Loops::one_more), unfolding(crate::specs::Draws::in_turn))]
fn files(alloc: Global, numbers: &mut Numbers) -> Result<Items<FilePlan>, AllocError>
    ensures { IfOk result (Draws files numbers.old.number numbers.new.number) }
{
    let mut files = Vec::new(alloc);
    for _ in 0..FILES {
        files.push(file(alloc, numbers)?)?;
    }
    Ok(Items::from_vec(files))
}

fn cpu_plan(guest: u32, cpu: u32, ops: &[Op], alloc: Global) -> Result<CpuPlan, AllocError>
    ensures { IfOk result (λ plan. plan ≡ cpu_plan guest cpu ops.now) }
{
    Ok(CpuPlan {
        process: cpu,
        commands: Items::from_vec(commands_of(guest, cpu, ops, alloc)?),
    })
}

fn guest_plan(
    guest: u32,
    files: Items<FilePlan>,
    ops: &[Op],
    alloc: Global,
) -> Result<GuestPlan, AllocError>
    ensures { IfOk result (λ plan. plan ≡ guest_plan guest files ops.now) }
{
    let cpus = vec![in alloc;
        cpu_plan(guest, 0, ops, alloc)?,
        cpu_plan(guest, 1, ops, alloc)?,
    ]?;
    Ok(GuestPlan {
        pages: 64,
        swap: 64,
        files,
        disk_fail: Items::from_vec(Vec::new(alloc)),
        pager_fail: Items::from_vec(Vec::new(alloc)),
        cpus: Items::from_vec(cpus),
    })
}

/// The scenario of two guests with these files, and with all commands in their order.
fn scenario(
    first: Items<FilePlan>,
    second: Items<FilePlan>,
    ops: &[Op],
    schedule: Vec<Event>,
    alloc: Global,
) -> Result<Scenario, AllocError>
    ensures { IfOk result (λ plan. plan ≡ scenario first second ops.now schedule.items) }
{
    let first = guest_plan(0, first, ops, alloc)?;
    let second = guest_plan(1, second, ops, alloc)?;
    let guests = vec![in alloc; first, second]?;
    Ok(Scenario {
        frames: 48,
        reclaimers: 2,
        pager_fail: Items::from_vec(Vec::new(alloc)),
        guests: Items::from_vec(guests),
        schedule: Items::from_vec(schedule),
    })
}

/// The scenario of so many commands that is generated from a number.
pub fn generate(alloc: Global, start: u64, size: u32) -> Result<Scenario, AllocError>
    requires { (8 ≤ size) × (size ≤ 20000) }
    ensures generated { IfOk result (λ plan. plan ≡ generated start size) }
    ensures in_range { IfOk result ScenarioInRange }
    ensures bytes { IfOk result WritesScenario }
{
    let mut numbers = Numbers { number: start };
    let first = files(alloc, &mut numbers)?;
    let second = files(alloc, &mut numbers)?;
    let ops = commands(size, alloc, &mut numbers)?;
    let schedule = schedule(size, alloc, &mut numbers)?;
    scenario(first, second, ops.as_slice(), schedule, alloc)
}
