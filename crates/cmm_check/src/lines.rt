ghost use Rattle.std.specs.Prelude.{◌≡◌};
ghost use Rattle.std.specs.Option.{option_map};
ghost use Rattle.cmm_types.specs.InRange.{GuestInRange};
ghost use Rattle.cmm_flat.specs.Legal.{all_commands};
ghost use Rattle.cmm_check.specs.Heads.{is_run_of, is_answer, event_fits, counts_of, guest_counts, guest_head, are_entries, entries_told, end_of};
ghost use Rattle.cmm_check.specs.Verdict.{line_that, end_fits};
ghost use Rattle.cmm_check.specs.WalkAnswers.{GivesPart};

use crate::NoMemory;
use crate::answers::{answer_of, event_head};
use crate::reading::{cut, read_long, read_number, without_front};
use cmm_types::GuestPlan;

/// Why a walk over the lines of a report ends before the report does.
#[derive(Drop)]
pub enum Stop<'a> {
    /// The first line of this text doesn't fit, or is missing.
    Unfit(&'a [u8]),
    Memory(NoMemory),
}

#[tactic(auto, unfolding(crate::specs::Heads::is_run_of))]
fn is_run_of(line: &[u8]) -> Option<bool>
    ensures { result ≡ is_run_of line.now }
{
    if line == b"cmm2-report 1 run".as_slice() {
        Some(true)
    } else if line == b"cmm2-report 1 replay".as_slice() {
        Some(false)
    } else {
        None
    }
}

/// The first line: whether the report is one of a run, and the text behind it.
#[tactic(auto, unfolding(crate::specs::Verdict::line_that))]
pub fn first_line(text: &[u8]) -> Result<(bool, &[u8]), Stop<'_>>
    ensures { GivesPart (λ next. (next.0, next.1.now)) result (line_that is_run_of text.now) }
{
    let Some((line, rest)) = cut(text, b'\n') else {
        return Err(Stop::Unfit(text));
    };
    match is_run_of(line) {
        Some(run) => Ok((run, rest)),
        None => Err(Stop::Unfit(text)),
    }
}

#[tactic(auto, unfolding(crate::specs::Heads::is_answer))]
fn is_answer(text: &[u8]) -> bool
    ensures { result ≡ is_answer text.now }
{
    text == b"again".as_slice() || answer_of(text).is_some()
}

#[tactic(auto, unfolding(crate::specs::Heads::event_fits))]
fn event_number(number: u32, line: &[u8]) -> Option<u32>
    ensures { result ≡ event_fits number line.now }
{
    let (read, answer) = event_head(line)?;
    if read == number && is_answer(answer) {
        Some(number)
    } else {
        None
    }
}

/// The line of the event with this number, and the text behind it.
#[tactic(auto, unfolding(crate::specs::Verdict::line_that))]
pub fn event_line(number: u32, text: &[u8]) -> Result<(u32, &[u8]), Stop<'_>>
    ensures { GivesPart (λ next. (next.0, next.1.now)) result (line_that (event_fits number) text.now) }
{
    let Some((line, rest)) = cut(text, b'\n') else {
        return Err(Stop::Unfit(text));
    };
    match event_number(number, line) {
        Some(number) => Ok((number, rest)),
        None => Err(Stop::Unfit(text)),
    }
}

#[tactic(auto, unfolding(crate::specs::Heads::counts_of))]
fn counts(text: &[u8]) -> Option<(u64, u64)>
    ensures { result ≡ counts_of text.now }
{
    let digits = without_front(text, b"discards ")?;
    let (discards, rest) = cut(digits, b' ')?;
    let discards = read_long(discards)?;
    let faults = without_front(rest, b"faults ")?;
    let faults = read_long(faults)?;
    Some((discards, faults))
}

#[tactic(auto, unfolding(crate::specs::Heads::guest_counts))]
fn entries(text: &[u8]) -> Option<(u32, (u64, u64))>
    ensures { result ≡ guest_counts text.now }
{
    let digits = without_front(text, b"entries ")?;
    let (entries, rest) = cut(digits, b' ')?;
    let entries = read_number(entries)?;
    let counts = counts(rest)?;
    Some((entries, counts))
}

/// A guest's number and entries, its discards and its faults.
#[tactic(auto, unfolding(crate::specs::Heads::guest_head))]
fn guest_head(line: &[u8]) -> Option<(u32, (u32, (u64, u64)))>
    ensures { result ≡ guest_head line.now }
{
    let digits = without_front(line, b"guest ")?;
    let (guest, rest) = cut(digits, b' ')?;
    let guest = read_number(guest)?;
    let rest = entries(rest)?;
    Some((guest, rest))
}

fn all_commands(plan: &GuestPlan) -> usize
    requires { GuestInRange plan.now }
    ensures { result ≡ all_commands plan.now }
{
    let mut count = 0;
    for cpu in plan.cpus.as_slice() {
        count += cpu.commands.len();
    }
    count
}

fn are_entries(run: bool, plan: &GuestPlan, entries: u32) -> bool
    requires { GuestInRange plan.now }
    ensures { result ≡ are_entries run plan.now entries }
{
    let commands = all_commands(plan);
    if run {
        entries as usize == commands
    } else {
        entries as usize <= commands
    }
}

#[tactic(auto, unfolding(crate::specs::Heads::entries_told))]
fn entries_told(run: bool, number: u32, plan: &GuestPlan, line: &[u8]) -> Option<u32>
    requires { GuestInRange plan.now }
    ensures { result ≡ entries_told run number plan.now line.now }
{
    let (guest, (entries, (discards, faults))) = guest_head(line)?;
    if guest == number && are_entries(run, plan, entries) && faults <= discards {
        Some(entries)
    } else {
        None
    }
}

/// A guest's line: how many entries it says, and the text behind it.
#[tactic(auto, unfolding(crate::specs::Verdict::line_that))]
pub fn guest_line<'a>(
    run: bool,
    number: u32,
    plan: &GuestPlan,
    text: &'a [u8],
) -> Result<(u32, &'a [u8]), Stop<'a>>
    requires { GuestInRange plan.now }
    ensures { GivesPart (λ next. (next.0, next.1.now)) result (line_that (entries_told run number plan.now) text.now) }
{
    let Some((line, rest)) = cut(text, b'\n') else {
        return Err(Stop::Unfit(text));
    };
    match entries_told(run, number, plan, line) {
        Some(entries) => Ok((entries, rest)),
        None => Err(Stop::Unfit(text)),
    }
}

#[tactic(auto, unfolding(crate::specs::Heads::end_of))]
fn end_of(line: &[u8]) -> Option<&[u8]>
    ensures { option_map (λ x. x.now) result ≡ end_of line.now }
{
    if line == b"end".as_slice() {
        Some(line)
    } else {
        None
    }
}

/// The last line, and nothing behind it.
#[tactic(auto, unfolding(crate::specs::Verdict::line_that, crate::specs::Verdict::end_fits))]
pub fn end_line(text: &[u8]) -> Result<&[u8], Stop<'_>>
    ensures { GivesPart (λ rest. rest.now) result (end_fits text.now) }
{
    let Some((line, rest)) = cut(text, b'\n') else {
        return Err(Stop::Unfit(text));
    };
    if end_of(line).is_none() {
        return Err(Stop::Unfit(text));
    }
    match rest {
        [] => Ok(rest),
        _ => Err(Stop::Unfit(rest)),
    }
}
