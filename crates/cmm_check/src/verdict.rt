ghost use Rattle.std.specs.Prelude.{◌≡◌, ◌+◌, ◌-◌, ◌^◌, ◌<◌, ◌≤◌, ◌==◌, ◌↔◌, length, IfOk, All};
ghost use Rattle.cmm_types.specs.declared.plan.TheConstants.{MAX_GUESTS};
ghost use Rattle.cmm_types.specs.InRange.{GuestInRange, ScenarioInRange};
ghost use Rattle.cmm_check.specs.declared.verdict.Verdict.TheVariants.{Accepted, Rejected};
ghost use Rattle.cmm_check.specs.Accepted.{LegalReport};
ghost use Rattle.cmm_check.specs.Journal.{no_lines_walked, entry_fits};
ghost use Rattle.cmm_check.specs.Verdict.{line_that, events_fit, entries_fit, guest_fits, guests_fit, schedule_fits, report_fits, line_number, verdict_of};
ghost use Rattle.cmm_check.specs.WalkAnswers.{GivesPart};

use crate::NoMemory;
use crate::journal::Journal;
use crate::lines::{Stop, end_line, event_line, first_line, guest_line};
use crate::reading::cut;
use cmm_types::{GuestPlan, Scenario};
use std::alloc::Global;

/// Whether a report is legal for a scenario.
#[derive(Clone, Copy, Debug, PartialEq, Eq)]
pub enum Verdict {
    Accepted,
    /// The first line that doesn't fit, counted from 1. It may be one that is missing.
    Rejected { line: u32 },
}

fn events(count: u32, text: &[u8]) -> Result<&[u8], Stop<'_>>
    ensures { GivesPart (λ rest. rest.now) result (events_fit 0 count text.now) }
{
    let mut rest = text;
    for number in 0..count {
        let (_, next) = event_line(number, rest)?;
        rest = next;
    }
    Ok(rest)
}

/// The line of an entry, and the text behind it.
#[tactic(auto, unfolding(crate::specs::Verdict::line_that))]
fn entry_line<'a>(
    alloc: Global,
    plan: &GuestPlan,
    journal: &mut Journal,
    text: &'a [u8],
) -> Result<&'a [u8], Stop<'a>>
    requires range { GuestInRange plan.now }
    requires same { length journal.old.walk.cpus ≡ length plan.now.cpus }
    ensures fits { GivesPart (λ rest. (journal.new, rest.now)) result (line_that (entry_fits plan.now journal.old) text.now) }
    ensures same { length journal.new.walk.cpus ≡ length plan.now.cpus }
{
    let Some((line, rest)) = cut(text, b'\n') else {
        return Err(Stop::Unfit(text));
    };
    match journal.enter(alloc, plan, line) {
        Ok(true) => Ok(rest),
        Ok(false) => Err(Stop::Unfit(text)),
        Err(error) => Err(Stop::Memory(error)),
    }
}

fn entries<'a>(
    alloc: Global,
    plan: &GuestPlan,
    count: u32,
    text: &'a [u8],
) -> Result<&'a [u8], Stop<'a>>
    requires { GuestInRange plan.now }
    ensures { GivesPart (λ rest. rest.now) result (entries_fit plan.now (no_lines_walked plan.now) count text.now) }
{
    let mut journal = match Journal::open(alloc, plan) {
        Ok(journal) => journal,
        Err(error) => return Err(Stop::Memory(error)),
    };
    let mut rest = text;
    for _ in 0..count {
        rest = entry_line(alloc, plan, &mut journal, rest)?;
    }
    Ok(rest)
}

/// A guest's line and its entries.
#[tactic(auto, unfolding(crate::specs::Verdict::guest_fits))]
fn guest<'a>(
    alloc: Global,
    run: bool,
    number: u32,
    plan: &GuestPlan,
    text: &'a [u8],
) -> Result<&'a [u8], Stop<'a>>
    requires { GuestInRange plan.now }
    ensures { GivesPart (λ rest. rest.now) result (guest_fits run number plan.now text.now) }
{
    let (count, rest) = guest_line(run, number, plan, text)?;
    entries(alloc, plan, count, rest)
}

/// The guests from this number on, each with its line and its entries.
fn guests<'a>(
    alloc: Global,
    run: bool,
    number: u32,
    plans: &[GuestPlan],
    text: &'a [u8],
) -> Result<&'a [u8], Stop<'a>>
    requires few { number + length plans.now ≤ MAX_GUESTS }
    requires range { All GuestInRange plans.now }
    ensures { GivesPart (λ rest. rest.now) result (guests_fit run number plans.now text.now) }
{
    match plans {
        [] => Ok(text),
        [plan, plans @ ..] => {
            let rest = guest(alloc, run, number, plan, text)?;
            guests(alloc, run, number + 1, plans, rest)
        }
    }
}

/// The events of a replay; a run has none.
fn schedule(run: bool, count: u32, text: &[u8]) -> Result<&[u8], Stop<'_>>
    ensures { GivesPart (λ rest. rest.now) result (schedule_fits run count text.now) }
{
    if run { Ok(text) } else { events(count, text) }
}

#[tactic(auto, unfolding(crate::specs::Verdict::report_fits))]
fn lines<'a>(alloc: Global, plan: &Scenario, report: &'a [u8]) -> Result<&'a [u8], Stop<'a>>
    requires { ScenarioInRange plan.now }
    ensures { GivesPart (λ rest. rest.now) result (report_fits plan.now report.now) }
{
    let (run, rest) = first_line(report)?;
    let rest = schedule(run, plan.schedule.len() as u32, rest)?;
    let rest = guests(alloc, run, 0, plan.guests.as_slice(), rest)?;
    end_line(rest)
}

/// The number of the line that begins where this rest of a report does, counted from 1.
fn line_number(report: &[u8], rest: &[u8]) -> u32
    requires { length report.now + 1 < 2 ^ 32 }
    ensures { result ≡ line_number report.now rest.now }
{
    let front = &report[..report.len().saturating_sub(rest.len())];
    front.iter().filter(|byte| **byte == b'\n').count() as u32 + 1
}

fn rejected(report: &[u8], rest: &[u8]) -> Verdict
    requires { length report.now + 1 < 2 ^ 32 }
    ensures { result ≡ Rejected (line_number report.now rest.now) }
{
    Verdict::Rejected {
        line: line_number(report, rest),
    }
}

/// Whether a report is legal for a scenario: whether each of its lines fits, in order, and else which is the first that
/// doesn't.
pub fn check(alloc: Global, plan: &Scenario, report: &[u8]) -> Result<Verdict, NoMemory>
    requires range { ScenarioInRange plan.now }
    requires short { length report.now + 1 < 2 ^ 32 }
    ensures verdict { IfOk result (λ verdict. verdict ≡ verdict_of plan.now report.now) }
    ensures legal { IfOk result (λ verdict. (verdict ≡ Accepted) ↔ LegalReport plan.now report.now) }
{
    match lines(alloc, plan, report) {
        Ok(_) => Ok(Verdict::Accepted),
        Err(Stop::Unfit(rest)) => Ok(rejected(report, rest)),
        Err(Stop::Memory(error)) => Err(error),
    }
}
