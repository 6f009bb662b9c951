ghost use Rattle.cmm_io.specs.SinkBytes.{Writes};
ghost use Rattle.cmm_report.specs.Lines.{head_line, end_line, summary_line as summary_line_of};
ghost use Rattle.cmm_report.specs.Report.{events_text, journal_text, guest_text};

use crate::line::Line;
use crate::lines::{entry_line, event_line, guest_line, summary_line};
use cmm_io::{Sink, WriteFault, write_all};
use cmm_types::{Answer, Entry};

/// What came of a replay, over all guests.
#[derive(Clone, Copy, Debug, PartialEq, Eq)]
pub struct Totals {
    /// How many events were played.
    pub events: u64,
    /// How many lines the journals have.
    pub entries: u64,
    /// How often a page was discarded.
    pub discards: u64,
    /// How often a discard handler ran.
    pub faults: u64,
}

fn write_line<K: Sink>(out: &mut K, line: &Line) -> Result<(), WriteFault>
    ensures { Writes K.faults K.written out.old out.new line.now result }
{
    write_all(out, line.as_slice())
}

/// Writes the first line: of a run, or of a replay.
pub fn write_head<K: Sink>(out: &mut K, run: bool) -> Result<(), WriteFault>
    ensures { Writes K.faults K.written out.old out.new (head_line run) result }
{
    if run {
        write_all(out, b"cmm2-report 1 run\n")
    } else {
        write_all(out, b"cmm2-report 1 replay\n")
    }
}

/// Writes a line for the answer of each event of a replay.
pub fn write_events<K: Sink>(out: &mut K, answers: &[Answer]) -> Result<(), WriteFault>
    ensures { Writes K.faults K.written out.old out.new (events_text 0 answers.now) result }
{
    for (number, answer) in answers.iter().enumerate() {
        let line = event_line(number as u64, answer);
        write_line(out, &line)?;
    }
    Ok(())
}

fn write_journal<K: Sink>(out: &mut K, journal: &[Entry]) -> Result<(), WriteFault>
    ensures { Writes K.faults K.written out.old out.new (journal_text journal.now) result }
{
    for entry in journal {
        let line = entry_line(entry);
        write_line(out, &line)?;
    }
    Ok(())
}

/// Writes a guest's line and its journal. `discards` is the sum of the discard counts in the guest's words, and
/// `faults` the number of runs of its discard handler.
pub fn write_guest<K: Sink>(
    out: &mut K,
    guest: u32,
    journal: &[Entry],
    discards: u64,
    faults: u64,
) -> Result<(), WriteFault>
    ensures { Writes K.faults K.written out.old out.new (guest_text guest (record { journal = journal.now; discards = discards; faults = faults })) result }
{
    let line = guest_line(u64::from(guest), journal.len() as u64, discards, faults);
    write_line(out, &line)?;
    write_journal(out, journal)
}

/// Writes the last line.
pub fn write_end<K: Sink>(out: &mut K) -> Result<(), WriteFault>
    ensures { Writes K.faults K.written out.old out.new end_line result }
{
    write_all(out, b"end\n")
}

/// Writes the one line that tells what came of a generated scenario.
pub fn write_summary<K: Sink>(
    out: &mut K,
    start: u64,
    size: u64,
    totals: &Totals,
) -> Result<(), WriteFault>
    ensures { Writes K.faults K.written out.old out.new (summary_line_of start size totals.now) result }
{
    let line = summary_line(start, size, totals);
    write_line(out, &line)
}
