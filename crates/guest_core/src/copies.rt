// Copying a guest's plan.
ghost use Rattle.std.specs.Prelude.{◌≡◌, IfOk};

use cmm_types::{CpuPlan, FilePlan, GuestPlan, Items, Op};
use std::alloc::{AllocError, Global};

fn copy_file(alloc: Global, file: &FilePlan) -> Result<FilePlan, AllocError>
    ensures { IfOk result (λ copy. copy ≡ file.now) }
{
    Ok(FilePlan {
        pages: file.pages,
        head: Items::from_vec(Vec::from_slice(alloc, file.head.as_slice())?),
    })
}

fn copy_files(alloc: Global, files: &[FilePlan]) -> Result<Vec<FilePlan>, AllocError>
    ensures { IfOk result (λ copies. copies.items ≡ files.now) }
{
    let mut copies = Vec::with_capacity(alloc, files.len())?;
    for file in files {
        copies.push(copy_file(alloc, file)?)?;
    }
    Ok(copies)
}

fn copy_commands(alloc: Global, commands: &[Op]) -> Result<Vec<Op>, AllocError>
    ensures { IfOk result (λ copies. copies.items ≡ commands.now) }
{
    let mut copies = Vec::with_capacity(alloc, commands.len())?;
    for op in commands {
        copies.push(op.copy())?;
    }
    Ok(copies)
}

fn copy_cpu(alloc: Global, cpu: &CpuPlan) -> Result<CpuPlan, AllocError>
    ensures { IfOk result (λ copy. copy ≡ cpu.now) }
{
    Ok(CpuPlan {
        process: cpu.process,
        commands: Items::from_vec(copy_commands(alloc, cpu.commands.as_slice())?),
    })
}

fn copy_cpus(alloc: Global, cpus: &[CpuPlan]) -> Result<Vec<CpuPlan>, AllocError>
    ensures { IfOk result (λ copies. copies.items ≡ cpus.now) }
{
    let mut copies = Vec::with_capacity(alloc, cpus.len())?;
    for cpu in cpus {
        copies.push(copy_cpu(alloc, cpu)?)?;
    }
    Ok(copies)
}

fn copy_numbers(alloc: Global, numbers: &Items<u32>) -> Result<Items<u32>, AllocError>
    ensures { IfOk result (λ copy. copy ≡ numbers.now) }
{
    Ok(Items::from_vec(Vec::from_slice(alloc, numbers.as_slice())?))
}

pub fn copy_plan(alloc: Global, plan: &GuestPlan) -> Result<GuestPlan, AllocError>
    ensures { IfOk result (λ copy. copy ≡ plan.now) }
{
    Ok(GuestPlan {
        pages: plan.pages,
        swap: plan.swap,
        files: Items::from_vec(copy_files(alloc, plan.files.as_slice())?),
        disk_fail: copy_numbers(alloc, &plan.disk_fail)?,
        pager_fail: copy_numbers(alloc, &plan.pager_fail)?,
        cpus: Items::from_vec(copy_cpus(alloc, plan.cpus.as_slice())?),
    })
}
