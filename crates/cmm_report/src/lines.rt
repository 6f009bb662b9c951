ghost use Rattle.std.specs.Prelude.{◌≡◌};
ghost use Rattle.cmm_report.specs.Lines.{event_line as event_line_of, guest_line as guest_line_of, entry_line as entry_line_of, summary_line as summary_line_of};

use crate::line::Line;
use crate::report::Totals;
use crate::texts::{add_answer, add_reply};
use cmm_types::{Answer, Entry};

pub fn event_line(number: u64, answer: &Answer) -> Line
    ensures { result ≡ event_line_of number answer.now }
{
    let mut line = Line::new();
    line.add(b"event ");
    line.add_number(number);
    line.add(b" ");
    add_answer(&mut line, answer);
    line.add(b"\n");
    line
}

pub fn guest_line(guest: u64, entries: u64, discards: u64, faults: u64) -> Line
    ensures { result ≡ guest_line_of guest entries discards faults }
{
    let mut line = Line::new();
    line.add(b"guest ");
    line.add_number(guest);
    line.add(b" entries ");
    line.add_number(entries);
    line.add(b" discards ");
    line.add_number(discards);
    line.add(b" faults ");
    line.add_number(faults);
    line.add(b"\n");
    line
}

pub fn entry_line(entry: &Entry) -> Line
    ensures { result ≡ entry_line_of entry.now }
{
    let mut line = Line::new();
    line.add_number(u64::from(entry.cpu));
    line.add(b" ");
    line.add_number(u64::from(entry.k));
    line.add(b" ");
    add_reply(&mut line, &entry.reply);
    line.add(b"\n");
    line
}

pub fn summary_line(start: u64, size: u64, totals: &Totals) -> Line
    ensures { result ≡ summary_line_of start size totals.now }
{
    let mut line = Line::new();
    line.add(b"cmm2-demo 1 start ");
    line.add_number(start);
    line.add(b" size ");
    line.add_number(size);
    line.add(b" events ");
    line.add_number(totals.events);
    line.add(b" entries ");
    line.add_number(totals.entries);
    line.add(b" discards ");
    line.add_number(totals.discards);
    line.add(b" faults ");
    line.add_number(totals.faults);
    line.add(b"\n");
    line
}
