ghost use Rattle.std.specs.Prelude.{◌≡◌, ◌≢◌, ◌<◌, ◌^◌, ◌⊎◌, ℕ, [], true, IfSome};
ghost use Rattle.std.specs.Io.KnownBytes.{IsAtEnd};
ghost use Rattle.cmm_types.specs.InRange.{ScenarioInRange};
ghost use Rattle.cmm_io.specs.Faults.{raised};
ghost use Rattle.cmm_io.specs.SourceBytes.{HasTakenAtMost};
ghost use Rattle.cmm_report.specs.Report.{report_of};
ghost use Rattle.cmm_check.specs.declared.judging.TheConstants.{MAX_SCENARIO};
ghost use Rattle.cmm2_cli.specs.Outcome.{Answers, WroteNothing, AnswersScenario, AnswersInput, AnswersSome};
ghost use Rattle.cmm2_cli.specs.Running.{Runs, looked_discards, machine_reports};

use crate::refusal::Refusal;
use crate::replay::{refuse, refuse_fault};
use crate::run_report::{machine_discards, write_run};
use crate::status::Status;
use cmm_check::MAX_SCENARIO;
use cmm_io::{ReadError, Sink, Source, WriteFault, read_all};
use cmm_scenario::{ScenarioError, read_scenario};
use cmm_types::Scenario;
use cmm_vcpu::{Machine, run_all};
use host_shared::Gate;
use std::alloc::{AllocError, Global};
use std::sync::Wait;
use std::thread::Threads;

/// That the discards fit the report's text. A number is known to fit where it is read, so each is read once; nothing
/// else is done.
fn read_machine_discards(machine: &Machine)
    ensures { (guest : ℕ) → guest < machine.now.guests → looked_discards machine.now guest < 2 ^ 64 }
{
    for guest in 0..machine.guests() {
        let _ = machine_discards(machine, guest);
    }
}

fn report_run<K: Sink>(out: &mut K, machine: &Machine) -> Status
    ensures { Answers K.faults K.written out.old out.new (report_of true [] (machine_reports machine.now)) Status.Done result }
{
    match write_run(out, machine) {
        Ok(()) => Status::Done,
        Err(WriteFault) => Status::WriteFault,
    }
}

/// Runs the plan's processors and reclaimers as threads, and writes the report.
fn run_plan<R: Threads + Wait + Sync, K: Sink, G: Gate + Sync>(
    rt: &R,
    alloc: Global,
    plan: &Scenario,
    out: &mut K,
    gate: &G,
) -> Status
    requires { ScenarioInRange plan.now }
    ensures { Runs K.faults K.written out.old out.new plan.now result
        ⊎ WroteNothing K.faults K.written out.old out.new Status.NoMemory result }
{
    match Machine::open(alloc, plan) {
        Ok(mut machine) => {
            run_all(rt, &mut machine, gate);
            read_machine_discards(&machine);
            let status = report_run(out, &machine);
            let _lost = machine.close();
            status
        }
        Err(AllocError) => Status::NoMemory,
    }
}

/// Answers an input of a scenario, which is run.
fn answer_run<R: Threads + Wait + Sync, K: Sink, G: Gate + Sync>(
    rt: &R,
    alloc: Global,
    bytes: &[u8],
    out: &mut K,
    gate: &G,
) -> Status
    ensures answer { AnswersScenario K.faults K.written out.old out.new (Runs K.faults K.written out.old out.new) bytes.now result }
    ensures usage { result ≢ Status.Usage }
    ensures read_fault { result ≢ Status.ReadFault }
    ensures rejected { result ≢ Status.Rejected }
    ensures no_memory { result ≡ Status.NoMemory → out.new ≡ out.old }
    ensures write_fault { result ≡ Status.WriteFault → K.faults out.new ≡ raised (K.faults out.old) }
    ensures no_write_fault { result ≢ Status.WriteFault → K.faults out.new ≡ K.faults out.old }
{
    match read_scenario(alloc, bytes) {
        Ok(plan) => run_plan(rt, alloc, &plan, out, gate),
        Err(ScenarioError::NotJson) => refuse(out, Refusal::NotJson),
        Err(ScenarioError::Fault { path, kind }) => refuse_fault(out, &path, kind),
        Err(ScenarioError::NoMemory) => Status::NoMemory,
    }
}

/// Reads an input, and answers it.
pub fn read_run<R: Threads + Wait + Sync, S: Source, K: Sink, G: Gate + Sync>(
    rt: &R,
    alloc: Global,
    src: &mut S,
    out: &mut K,
    gate: &G,
) -> Status
    ensures usage { result ≢ Status.Usage }
    ensures rejected { result ≢ Status.Rejected }

    // Nothing is written after a read that failed, or where memory ran out.
    ensures read_fault { result ≡ Status.ReadFault → (S.faults src.new ≡ raised (S.faults src.old)) × (out.new ≡ out.old) }
    ensures read_fault_within { result ≡ Status.ReadFault → HasTakenAtMost S.rest S.given src.old src.new MAX_SCENARIO }
    ensures no_read_fault { result ≢ Status.ReadFault → S.faults src.new ≡ S.faults src.old }
    ensures no_memory { result ≡ Status.NoMemory → out.new ≡ out.old }
    ensures write_fault { result ≡ Status.WriteFault → K.faults out.new ≡ raised (K.faults out.old) }
    ensures no_write_fault { result ≢ Status.WriteFault → K.faults out.new ≡ K.faults out.old }

    // Otherwise the input has its answer. All of it is read, or one byte more than the limit.
    ensures answer { IfSome (S.rest src.old) (λ bytes. (result ≡ Status.ReadFault) ⊎ AnswersInput S.rest S.given src.old src.new
        K.faults K.written out.old out.new MAX_SCENARIO (AnswersScenario K.faults K.written out.old out.new (Runs K.faults K.written out.old out.new)) bytes result) }
    ensures read_whole { (result ≡ Status.Done) ⊎ (result ≡ Status.Rejected) → IsAtEnd (S.rest src.new) }

    // Also where the source doesn't tell its bytes, the answer is one to some input, of which as many bytes were
    // read.
    ensures some_input { AnswersSome S.rest S.given src.old src.new K.faults K.written out.old out.new
        MAX_SCENARIO (AnswersScenario K.faults K.written out.old out.new (Runs K.faults K.written out.old out.new)) result }
{
    match read_all(alloc, src, MAX_SCENARIO) {
        Ok(bytes) => answer_run(rt, alloc, bytes.as_slice(), out, gate),
        Err(ReadError::TooLong) => refuse(out, Refusal::Long),
        Err(ReadError::ReadFault) => Status::ReadFault,
        Err(ReadError::NoMemory) => Status::NoMemory,
    }
}
