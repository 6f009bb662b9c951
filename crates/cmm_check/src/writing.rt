ghost use Rattle.std.specs.Prelude.{◌≡◌};
ghost use Rattle.cmm_io.specs.SinkBytes.{Writes};
ghost use Rattle.cmm_check.specs.declared.verdict.Verdict.TheVariants.{Rejected};
ghost use Rattle.cmm_check.specs.VerdictLine.{verdict_line};

use crate::verdict::Verdict;
use cmm_io::{Sink, WriteFault, write_all};
use cmm_report::Line;

fn rejected_line(number: u32) -> Line
    ensures { result ≡ verdict_line (Rejected number) }
{
    let mut line = Line::new();
    line.add(b"rejected ");
    line.add_number(u64::from(number));
    line.add(b"\n");
    line
}

fn write_rejected<K: Sink>(out: &mut K, number: u32) -> Result<(), WriteFault>
    ensures { Writes K.faults K.written out.old out.new (verdict_line (Rejected number)) result }
{
    let line = rejected_line(number);
    write_all(out, line.as_slice())
}

/// Writes the line that tells a verdict. It takes no memory.
pub fn write_verdict<K: Sink>(out: &mut K, verdict: Verdict) -> Result<(), WriteFault>
    ensures { Writes K.faults K.written out.old out.new (verdict_line verdict) result }
{
    match verdict {
        Verdict::Accepted => write_all(out, b"accepted\n"),
        Verdict::Rejected { line } => write_rejected(out, line),
    }
}
