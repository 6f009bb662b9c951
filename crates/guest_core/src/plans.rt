// What a guest's plan says of a command.
ghost use Rattle.std.specs.Prelude.{◌≡◌, map, IfOk, option_copied};
ghost use Rattle.cmm_types.specs.InRange.{GuestInRange};
ghost use Rattle.cmm_flat.specs.Legal.{command_of, process_of};
ghost use Rattle.guest_rules.specs.Turns.{file_pages, file_has_bytes};
ghost use Rattle.guest_rules.specs.Fit.{all_commands};

use cmm_types::{FilePlan, GuestPlan, Op, PAGE};
use std::alloc::{AllocError, Global};

/// The command with this number of this processor.
pub fn command(plan: &GuestPlan, cpu: u32, place: u32) -> Option<&Op>
    ensures { option_copied result ≡ command_of plan.now cpu place }
{
    plan.cpus
        .as_slice()
        .get(cpu as usize)?
        .commands
        .as_slice()
        .get(place as usize)
}

/// The process of a processor; 0 where there is no such processor.
pub fn process(plan: &GuestPlan, cpu: u32) -> u32
    ensures { result ≡ process_of plan.now cpu }
{
    match plan.cpus.as_slice().get(cpu as usize) {
        None => 0,
        Some(its) => its.process,
    }
}

/// The pages of a file; 0 where there is no such file.
pub fn file_pages(files: &[FilePlan], file: u32) -> u32
    ensures { result ≡ file_pages files.now file }
{
    match files.get(file as usize) {
        None => 0,
        Some(plan) => plan.pages,
    }
}

/// Whether there is such a file, and it has `len` bytes from `off` on.
pub fn file_has_bytes(files: &[FilePlan], file: u32, off: u32, len: u32) -> bool
    ensures { result ≡ file_has_bytes files.now file off len }
{
    let end = u64::from(off) + u64::from(len);
    let size = PAGE as u64 * u64::from(file_pages(files, file));
    (file as usize) < files.len() && end <= size
}

/// The pages of each file.
pub fn pages_of_files(alloc: Global, files: &[FilePlan]) -> Result<Vec<u32>, AllocError>
    ensures { IfOk result (λ pages. pages.items ≡ map (λ file. file.pages) files.now) }
{
    files.iter().map(|file| file.pages).collect(alloc)
}

/// How many commands all processors have. Within the ranges of a plan they are at most 80,000.
pub fn all_commands(plan: &GuestPlan) -> usize
    requires { GuestInRange plan.now }
    ensures { result ≡ all_commands plan.now }
{
    let mut count = 0;
    for cpu in plan.cpus.as_slice() {
        count += cpu.commands.len();
    }
    count
}
