ghost use Rattle.std.specs.Prelude.{◌≡◌, ◌⊎◌, IfOk};
ghost use Rattle.cmm_types.specs.InRange.{ScenarioInRange};
ghost use Rattle.cmm_line.specs.Line.{IsSize};
ghost use Rattle.cmm_generate.specs.Generated.{generated};
ghost use Rattle.cmm_world.specs.Headline.{IsLegalRun};
ghost use Rattle.cmm2_cli.specs.Playing.{HasPlayed};
ghost use Rattle.cmm2_cli.specs.Demo.{run_totals};
ghost use Rattle.cmm2_cli.specs.Outcome.{WroteNothing, Demonstrates};

use crate::playing::played;
use crate::report::discards;
use crate::status::Status;
use cmm_generate::generate;
use cmm_io::{Sink, WriteFault};
use cmm_report::{Totals, write_summary};
use cmm_types::Scenario;
use cmm_world::World;
use std::alloc::{AllocError, Global};

/// The sums over all guests of a world that has played a plan's schedule.
fn totals(plan: &Scenario, world: &World) -> Totals
    requires in_range { ScenarioInRange plan.now }
    requires played { HasPlayed plan.now world.now }
    ensures { result ≡ run_totals plan.now }
{
    let mut entries = 0;
    let mut discarded = 0;
    let mut faults = 0;
    for guest in 0..world.guests() {
        let its = world.guest(guest);
        entries += its.journal().len() as u64;
        discarded += discards(world, guest);
        faults += its.faults();
    }
    Totals {
        events: plan.schedule.len() as u64,
        entries,
        discards: discarded,
        faults,
    }
}

/// What came of the scenario that is generated from a number.
fn summarize(alloc: Global, start: u64, size: u32) -> Result<Totals, AllocError>
    requires { IsSize size }
    ensures { IfOk result (λ totals. (totals ≡ run_totals (generated start size)) × IsLegalRun (generated start size)) }
{
    let plan = generate(alloc, start, size)?;
    let world = played(alloc, &plan)?;
    let totals = totals(&plan, &world);
    world.close();
    Ok(totals)
}

/// Plays the scenario that is generated from a number, and writes what came of it in one line.
pub fn write_demo<K: Sink>(alloc: Global, start: u64, size: u32, out: &mut K) -> Status
    requires { IsSize size }
    ensures { Demonstrates K.faults K.written out.old out.new start size result
        ⊎ WroteNothing K.faults K.written out.old out.new Status.NoMemory result }
{
    let Ok(totals) = summarize(alloc, start, size) else {
        return Status::NoMemory;
    };
    match write_summary(out, start, u64::from(size), &totals) {
        Ok(()) => Status::Done,
        Err(WriteFault) => Status::WriteFault,
    }
}
