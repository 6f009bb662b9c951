ghost use Rattle.std.specs.Prelude.{◌≡◌};
ghost use Rattle.cmm_scenario.specs.Borrowed.{view};
ghost use Rattle.cmm_scenario.specs.Faults.{Gives, here};
ghost use Rattle.cmm_scenario.specs.Plans.{head_of, cpu_command_of, file_of, cpu_plan_of, guest_of};

use crate::borrowed::as_str;
use crate::commands::command;
use crate::error::{ScenarioError, here};
use crate::fault::Kind;
use crate::tree::{ListOf, Number, Reader, empty, known_keys, member, member_or};
use cmm_types::{
    CpuPlan, FilePlan, GuestPlan, Items, MAX_COMMANDS, MAX_CPUS, MAX_FAILS, MAX_FILE_PAGES,
    MAX_FILES, MAX_GUEST_PAGES, MAX_PROCESSES, MAX_TOTAL_BLOCKS, Op, PAGE,
};
use hex::FromHexError;
use json::Value;
use std::alloc::Global;

/// The bytes at the front of a file of so many pages, in hexadecimal digits.
#[derive(Clone, Copy)]
struct Head {
    pages: u32,
}

impl Reader for Head {
    type Item = Items<u8>;

    ghost reads = { λ head tree. here (head_of head.pages tree) };

    #[tactic(auto, unfolding(crate::specs::Plans::head_of))]
    fn read(&self, alloc: Global, value: &Value<'_>) -> Result<Items<u8>, ScenarioError> {
        let Some(digits) = as_str(value) else {
            return here(alloc, Err(Kind::Type_));
        };
        match hex::decode(alloc, digits.as_bytes()) {
            Ok(bytes) if bytes.len() as u64 <= PAGE as u64 * u64::from(self.pages) => {
                Ok(Items::from_vec(bytes))
            }
            Ok(_) => here(alloc, Err(Kind::Range)),
            Err(FromHexError::OutOfMemory) => Err(ScenarioError::NoMemory),
            Err(_) => here(alloc, Err(Kind::Hex)),
        }
    }
}

#[derive(Clone, Copy)]
struct File;

impl Reader for File {
    type Item = FilePlan;

    ghost reads = { λ _ tree. file_of tree };

    #[tactic(auto, unfolding(crate::specs::Plans::file_of))]
    fn read(&self, alloc: Global, value: &Value<'_>) -> Result<FilePlan, ScenarioError> {
        here(alloc, known_keys(value, &["pages", "head"]))?;
        let pages = member(alloc, value, "pages", &Number::new(1, MAX_FILE_PAGES))?;
        let head = member(alloc, value, "head", &Head { pages })?;
        Ok(FilePlan { pages, head })
    }
}

#[tactic(auto, unfolding(crate::specs::Plans::cpu_command_of))]
fn cpu_command_of(value: &Value<'_>) -> Result<Op, Kind>
    ensures { result ≡ cpu_command_of (view value.now) }
{
    let text = as_str(value).ok_or(Kind::Type_)?;
    command(text.as_bytes())
}

#[derive(Clone, Copy)]
struct Command;

impl Reader for Command {
    type Item = Op;

    ghost reads = { λ _ tree. here (cpu_command_of tree) };

    fn read(&self, alloc: Global, value: &Value<'_>) -> Result<Op, ScenarioError> {
        here(alloc, cpu_command_of(value))
    }
}

#[derive(Clone, Copy)]
struct Cpu;

impl Reader for Cpu {
    type Item = CpuPlan;

    ghost reads = { λ _ tree. cpu_plan_of tree };

    #[tactic(auto, unfolding(crate::specs::Plans::cpu_plan_of))]
    fn read(&self, alloc: Global, value: &Value<'_>) -> Result<CpuPlan, ScenarioError> {
        here(alloc, known_keys(value, &["process", "commands"]))?;
        let process = member(alloc, value, "process", &Number::new(0, MAX_PROCESSES - 1))?;
        let list = ListOf::new(0, MAX_COMMANDS, Command);
        let commands = member(alloc, value, "commands", &list)?;
        Ok(CpuPlan { process, commands })
    }
}

/// The numbers of calls that fail, from 1.
pub fn fails() -> ListOf<Number>
    ensures { result ≡ record { low = 0; high = 1000; item = record { low = 1; high = 4294967295 } } }
{
    ListOf::new(0, MAX_FAILS, Number::new(1, u32::MAX))
}

#[derive(Clone, Copy)]
pub struct Guest;

impl Reader for Guest {
    type Item = GuestPlan;

    ghost reads = { λ _ tree. guest_of tree };

    #[tactic(auto, unfolding(crate::specs::Plans::guest_of))]
    fn read(&self, alloc: Global, value: &Value<'_>) -> Result<GuestPlan, ScenarioError> {
        let keys = ["pages", "swap", "files", "disk_fail", "pager_fail", "cpus"];
        here(alloc, known_keys(value, &keys))?;
        let pages = member(alloc, value, "pages", &Number::new(1, MAX_GUEST_PAGES))?;
        let swap = member(alloc, value, "swap", &Number::new(0, MAX_TOTAL_BLOCKS))?;
        let files = member(alloc, value, "files", &ListOf::new(0, MAX_FILES, File))?;
        let disk_fail = member_or(alloc, value, "disk_fail", empty(alloc), &fails())?;
        let pager_fail = member_or(alloc, value, "pager_fail", empty(alloc), &fails())?;
        let cpus = member(alloc, value, "cpus", &ListOf::new(1, MAX_CPUS, Cpu))?;
        Ok(GuestPlan {
            pages,
            swap,
            files,
            disk_fail,
            pager_fail,
            cpus,
        })
    }
}
