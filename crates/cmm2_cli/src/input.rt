ghost use Rattle.std.specs.Prelude.{◌≡◌, ◌≢◌, ◌≤◌, ◌⊎◌, length, IfSome};
ghost use Rattle.std.specs.Io.KnownBytes.{IsAtEnd};
ghost use Rattle.cmm_io.specs.Faults.{raised};
ghost use Rattle.cmm_io.specs.SourceBytes.{HasTakenAtMost};
ghost use Rattle.cmm2_cli.specs.Outcome.{limit_of, AnswersBytes, AnswersInput, AnswersSome};

use crate::judging::answer_report;
use crate::refusal::Refusal;
use crate::replay::{answer_scenario, refuse};
use crate::status::Status;
use cmm_check::{MAX_CHECKED, MAX_SCENARIO};
use cmm_io::{ReadError, Sink, Source, read_all};
use std::alloc::Global;

/// What the program reads.
#[derive(Clone, Copy, Debug, PartialEq, Eq)]
pub enum Input {
    /// A scenario, which is played.
    Scenario,
    /// A scenario, a line feed and a report, which is judged.
    Report,
}

impl Input {
    /// The most bytes of it.
    fn limit(self) -> usize
        ensures { result ≡ limit_of self }
    {
        match self {
            Input::Scenario => MAX_SCENARIO,
            Input::Report => MAX_CHECKED,
        }
    }
}

/// Answers an input.
fn answer<K: Sink>(alloc: Global, input: Input, bytes: &[u8], out: &mut K) -> Status
    requires { length bytes.now ≤ limit_of input }
    ensures answer { AnswersBytes K.faults K.written out.old out.new input bytes.now result }
    ensures usage { result ≢ Status.Usage }
    ensures read_fault { result ≢ Status.ReadFault }
    ensures rejected { result ≡ Status.Rejected → input ≡ Input.Report }
    ensures no_memory { result ≡ Status.NoMemory → out.new ≡ out.old }
    ensures write_fault { result ≡ Status.WriteFault → K.faults out.new ≡ raised (K.faults out.old) }
    ensures no_write_fault { result ≢ Status.WriteFault → K.faults out.new ≡ K.faults out.old }
{
    match input {
        Input::Scenario => answer_scenario(alloc, bytes, out),
        Input::Report => answer_report(alloc, bytes, out),
    }
}

/// Reads an input, and answers it.
pub fn read_input<S: Source, K: Sink>(
    alloc: Global,
    input: Input,
    src: &mut S,
    out: &mut K,
) -> Status
    ensures usage { result ≢ Status.Usage }
    ensures rejected { result ≡ Status.Rejected → input ≡ Input.Report }

    // Nothing is written after a read that failed, or where memory ran out.
    ensures read_fault { result ≡ Status.ReadFault → (S.faults src.new ≡ raised (S.faults src.old)) × (out.new ≡ out.old) }
    ensures read_fault_within { result ≡ Status.ReadFault → HasTakenAtMost S.rest S.given src.old src.new (limit_of input) }
    ensures no_read_fault { result ≢ Status.ReadFault → S.faults src.new ≡ S.faults src.old }
    ensures no_memory { result ≡ Status.NoMemory → out.new ≡ out.old }
    ensures write_fault { result ≡ Status.WriteFault → K.faults out.new ≡ raised (K.faults out.old) }
    ensures no_write_fault { result ≢ Status.WriteFault → K.faults out.new ≡ K.faults out.old }

    // Otherwise the input has its answer. All of it is read, or one byte more than the limit.
    ensures answer { IfSome (S.rest src.old) (λ bytes. (result ≡ Status.ReadFault) ⊎ AnswersInput S.rest S.given src.old src.new
        K.faults K.written out.old out.new (limit_of input) (AnswersBytes K.faults K.written out.old out.new input) bytes result) }
    ensures read_whole { (result ≡ Status.Done) ⊎ (result ≡ Status.Rejected) → IsAtEnd (S.rest src.new) }

    // Also where the source doesn't tell its bytes, the answer is one to some input, of which as many bytes were
    // read.
    ensures some_input { AnswersSome S.rest S.given src.old src.new
        K.faults K.written out.old out.new (limit_of input) (AnswersBytes K.faults K.written out.old out.new input) result }
{
    match read_all(alloc, src, input.limit()) {
        Ok(bytes) => answer(alloc, input, bytes.as_slice(), out),
        Err(ReadError::TooLong) => refuse(out, Refusal::Long),
        Err(ReadError::ReadFault) => Status::ReadFault,
        Err(ReadError::NoMemory) => Status::NoMemory,
    }
}
