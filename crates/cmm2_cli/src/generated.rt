ghost use Rattle.std.specs.Prelude.{◌≡◌, ◌⊎◌, IfOk};
ghost use Rattle.cmm_line.specs.Line.{IsSize};
ghost use Rattle.cmm2_cli.specs.Outcome.{Answers, WroteNothing, generated_text};

use crate::status::Status;
use cmm_generate::{generate, scenario_text};
use cmm_io::{Sink, WriteFault, write_all};
use std::alloc::{AllocError, Global};

/// The text of the scenario that is generated from a number, and a line feed.
fn generated_text(alloc: Global, start: u64, size: u32) -> Result<Vec<u8>, AllocError>
    requires { IsSize size }
    ensures { IfOk result (λ text. text.items ≡ generated_text start size) }
{
    let plan = generate(alloc, start, size)?;
    let mut text = scenario_text(alloc, &plan)?;
    text.push(b'\n')?;
    Ok(text)
}

/// Writes the scenario that is generated from a number.
pub fn write_generated<K: Sink>(alloc: Global, start: u64, size: u32, out: &mut K) -> Status
    requires { IsSize size }
    ensures { Answers K.faults K.written out.old out.new (generated_text start size) Status.Done result
        ⊎ WroteNothing K.faults K.written out.old out.new Status.NoMemory result }
{
    let Ok(text) = generated_text(alloc, start, size) else {
        return Status::NoMemory;
    };
    match write_all(out, text.as_slice()) {
        Ok(()) => Status::Done,
        Err(WriteFault) => Status::WriteFault,
    }
}
