ghost use Rattle.std.specs.Prelude.{◌⊎◌, false};
ghost use Rattle.cmm_types.specs.InRange.{ScenarioInRange};
ghost use Rattle.cmm_report.specs.Report.{report_of};
ghost use Rattle.cmm2_cli.specs.Reports.{reports_of};
ghost use Rattle.cmm2_cli.specs.Refusal.{refusal_text, refusal_status, fault_text};
ghost use Rattle.cmm2_cli.specs.Outcome.{Answers, WroteNothing, Plays, AnswersScenario};

use crate::fault::write_fault;
use crate::numbers::{read_answers, read_discards};
use crate::playing::played;
use crate::refusal::{Refusal, kind_end};
use crate::report::write_replay;
use crate::status::Status;
use cmm_io::{Sink, WriteFault, write_all};
use cmm_scenario::{Kind, Path, ScenarioError, read_scenario};
use cmm_types::Scenario;
use cmm_world::World;
use std::alloc::{AllocError, Global};

pub fn refuse<K: Sink>(out: &mut K, refusal: Refusal) -> Status
    ensures { Answers K.faults K.written out.old out.new (refusal_text refusal) (refusal_status refusal) result }
{
    match write_all(out, refusal.text()) {
        Ok(()) => refusal.status(),
        Err(WriteFault) => Status::WriteFault,
    }
}

pub fn refuse_fault<K: Sink>(out: &mut K, path: &Path, kind: Kind) -> Status
    ensures { Answers K.faults K.written out.old out.new (fault_text path.now kind) Status.ScenarioRefused result }
{
    match write_fault(out, path.as_slice(), kind_end(kind)) {
        Ok(()) => Status::ScenarioRefused,
        Err(WriteFault) => Status::WriteFault,
    }
}

fn report<K: Sink>(out: &mut K, world: &World) -> Status
    ensures { Answers K.faults K.written out.old out.new (report_of false world.now.answers (reports_of world.now.state)) Status.Done result }
{
    match write_replay(out, world) {
        Ok(()) => Status::Done,
        Err(WriteFault) => Status::WriteFault,
    }
}

/// Plays the plan's schedule and writes the report.
fn play<K: Sink>(alloc: Global, plan: &Scenario, out: &mut K) -> Status
    requires { ScenarioInRange plan.now }
    ensures { Plays K.faults K.written out.old out.new plan.now result
        ⊎ WroteNothing K.faults K.written out.old out.new Status.NoMemory result }
{
    match played(alloc, plan) {
        Ok(world) => {
            read_answers(world.answers());
            read_discards(&world);
            let status = report(out, &world);
            world.close();
            status
        }
        Err(AllocError) => Status::NoMemory,
    }
}

/// Answers an input of a scenario, which is played.
pub fn answer_scenario<K: Sink>(alloc: Global, bytes: &[u8], out: &mut K) -> Status
    ensures { AnswersScenario K.faults K.written out.old out.new (Plays K.faults K.written out.old out.new) bytes.now result }
{
    match read_scenario(alloc, bytes) {
        Ok(plan) => play(alloc, &plan, out),
        Err(ScenarioError::NotJson) => refuse(out, Refusal::NotJson),
        Err(ScenarioError::Fault { path, kind }) => refuse_fault(out, &path, kind),
        Err(ScenarioError::NoMemory) => Status::NoMemory,
    }
}
