ghost use Rattle.std.specs.Prelude.{◌≡◌, ◌≤◌, length};
ghost use Rattle.cmm_check.specs.declared.judging.TheConstants.{MAX_CHECKED};
ghost use Rattle.cmm_check.specs.VerdictLine.{verdict_line};
ghost use Rattle.cmm2_cli.specs.Status.{verdict_status};
ghost use Rattle.cmm2_cli.specs.Outcome.{Answers, AnswersJudged, AnswersReport};

use crate::refusal::Refusal;
use crate::replay::{refuse, refuse_fault};
use crate::status::Status;
use cmm_check::{InputError, Verdict, judge, write_verdict};
use cmm_io::{Sink, WriteFault};
use std::alloc::Global;

fn verdict_status(verdict: Verdict) -> Status
    ensures { result ≡ verdict_status verdict }
{
    match verdict {
        Verdict::Accepted => Status::Done,
        Verdict::Rejected { .. } => Status::Rejected,
    }
}

/// Writes the line that tells a verdict.
fn tell<K: Sink>(out: &mut K, verdict: Verdict) -> Status
    ensures { Answers K.faults K.written out.old out.new (verdict_line verdict) (verdict_status verdict) result }
{
    match write_verdict(out, verdict) {
        Ok(()) => verdict_status(verdict),
        Err(WriteFault) => Status::WriteFault,
    }
}

/// Writes what came of judging an input.
fn answer_judged<K: Sink>(out: &mut K, judged: Result<Verdict, InputError>) -> Status
    ensures { AnswersJudged K.faults K.written out.old out.new judged result }
{
    match judged {
        Ok(verdict) => tell(out, verdict),
        Err(InputError::NoReport) => refuse(out, Refusal::NoReport),
        Err(InputError::LongScenario) => refuse(out, Refusal::Long),
        Err(InputError::NotJson) => refuse(out, Refusal::NotJson),
        Err(InputError::Fault { path, kind }) => refuse_fault(out, &path, kind),
        Err(InputError::NoMemory) => Status::NoMemory,
    }
}

/// Answers an input of a scenario, a line feed and a report.
pub fn answer_report<K: Sink>(alloc: Global, bytes: &[u8], out: &mut K) -> Status
    requires { length bytes.now ≤ MAX_CHECKED }
    ensures { AnswersReport K.faults K.written out.old out.new bytes.now result }
{
    let judged = judge(alloc, bytes);
    answer_judged(out, judged)
}
