ghost use Rattle.std.specs.Prelude.{◌≡◌, ◌≢◌, ◌-◌, ◌≤◌, nat_le, Some, None, IfOk, IfErr};
ghost use Rattle.std.specs.Option.{SomeIff};
ghost use Rattle.cmm_types.specs.InRange.{ScenarioInRange, blocks_of, guest_pages_of, guest_blocks_of};
ghost use Rattle.serde_json.specs.Read.{read};
ghost use Rattle.json.specs.declared.error.Error.TheVariants.{OutOfMemory};
ghost use Rattle.cmm_scenario.specs.Borrowed.{view, refusal};
ghost use Rattle.cmm_scenario.specs.Faults.{Gives, here};
ghost use Rattle.cmm_scenario.specs.Plans.{totals_of, guests_of, schedule_event_of, schedule_of, whole_plan_of};
ghost use Rattle.cmm_scenario.specs.Scenario.{tree_of, scenario_of};

use crate::borrowed::{as_str, numbers_fit};
use crate::error::{ScenarioError, at_root, here, inside};
use crate::events::event;
use crate::fault::Kind;
use crate::guests::{Guest, fails};
use crate::tree::{ListOf, Number, Reader, empty, known_keys, member, member_or};
use cmm_types::{
    Event, GuestPlan, Items, MAX_EVENTS, MAX_FRAMES, MAX_GUESTS, MAX_RECLAIMERS, MAX_TOTAL_BLOCKS,
    MAX_TOTAL_PAGES, Scenario,
};
use json::{Error, Scratch, Value};
use std::alloc::Global;

/// How deep lists and objects may nest.
const MAX_DEPTH: usize = 127;

/// The scenario that a JSON text is, within all ranges and totals. A fault is the first of the walk: what is no
/// object, then an unknown key, then the keys in their order, each with everything below it before the next.
/// Where a key stands twice, its last value counts.
pub fn read_scenario(alloc: Global, bytes: &[u8]) -> Result<Scenario, ScenarioError>
    ensures exact { Gives result (scenario_of bytes.now) }
    ensures in_range { IfOk result ScenarioInRange }
{
    let mut scratch = Scratch::new(alloc);
    match tree(alloc, bytes, &mut scratch) {
        Ok(tree) => at_root(alloc, plan(alloc, &tree)),
        Err(e) => Err(refusal(e)),
    }
}

fn refusal(e: Error) -> ScenarioError
    ensures { result ≡ refusal e }
{
    match e {
        Error::OutOfMemory => ScenarioError::NoMemory,
        Error::Invalid | Error::TooLong | Error::DuplicateKey => ScenarioError::NotJson,
    }
}

/// The value that the bytes are, which nests at most 127 deep and has no number that is too large for a float.
fn tree<'a>(alloc: Global, bytes: &'a [u8], scratch: &'a mut Scratch) -> Result<Value<'a>, Error>
    ensures ok { IfOk result (λ value. tree_of bytes.now ≡ Some (view value)) }
    ensures refused { IfErr result (λ e. e ≢ OutOfMemory → tree_of bytes.now ≡ None) }
{
    match std::str::from_utf8(bytes) {
        Ok(text) => tree_of_text(alloc, text, scratch),
        Err(_) => Err(Error::Invalid),
    }
}

fn tree_of_text<'a>(
    alloc: Global,
    text: &'a str,
    scratch: &'a mut Scratch,
) -> Result<Value<'a>, Error>
    ensures ok { IfOk result (λ value. read text.now ≡ Some (view value)) }
    ensures refused { IfErr result (λ e. e ≢ OutOfMemory → read text.now ≡ None) }
{
    let mut reader = json::Reader::new(text, scratch)?;
    let value = Value::read(alloc, &mut reader, MAX_DEPTH)?;
    if reader.next().is_some() {
        return Err(Error::Invalid);
    }
    if !numbers_fit(&value) {
        return Err(Error::Invalid);
    }
    Ok(value)
}

#[tactic(auto, unfolding(crate::specs::Plans::whole_plan_of, crate::specs::Tree::known_keys))]
fn plan(alloc: Global, value: &Value<'_>) -> Result<Scenario, ScenarioError>
    ensures { Gives result (whole_plan_of (view value.now)) }
{
    let keys = [
        "version",
        "frames",
        "pager_fail",
        "reclaimers",
        "guests",
        "schedule",
    ];
    here(alloc, known_keys(value, &keys))?;
    member(alloc, value, "version", &Number::new(1, 1))?;
    let frames = member(alloc, value, "frames", &Number::new(1, MAX_FRAMES))?;
    let pager_fail = member_or(alloc, value, "pager_fail", empty(alloc), &fails())?;
    let reclaimers = member_or(
        alloc,
        value,
        "reclaimers",
        0,
        &Number::new(0, MAX_RECLAIMERS),
    )?;
    let guests = guests(alloc, value)?;
    let schedule = schedule(alloc, value, guests.as_slice())?;
    Ok(Scenario {
        frames,
        reclaimers,
        pager_fail,
        guests,
        schedule,
    })
}

#[tactic(auto, unfolding(crate::specs::Plans::guests_of))]
fn guests(alloc: Global, value: &Value<'_>) -> Result<Items<GuestPlan>, ScenarioError>
    ensures { Gives result (guests_of (view value.now)) }
{
    let guests = member(alloc, value, "guests", &ListOf::new(1, MAX_GUESTS, Guest))?;
    inside(alloc, b"guests", here(alloc, totals(guests.as_slice())))?;
    Ok(guests)
}

#[tactic(auto, unfolding(crate::specs::Plans::schedule_of))]
fn schedule(
    alloc: Global,
    value: &Value<'_>,
    guests: &[GuestPlan],
) -> Result<Items<Event>, ScenarioError>
    ensures { Gives result (schedule_of guests.now (view value.now)) }
{
    let list = ListOf::new(0, MAX_EVENTS, Scheduled { guests });
    member_or(alloc, value, "schedule", empty(alloc), &list)
}

/// Refuses guests that have too many pages, or too many file pages and swap slots, in all.
#[tactic(auto, unfolding(crate::specs::Plans::totals_of))]
fn totals(guests: &[GuestPlan]) -> Result<(), Kind>
    ensures { result ≡ totals_of guests.now }
{
    if pages_fit(guests) && blocks_fit(guests) {
        Ok(())
    } else {
        Err(Kind::Total)
    }
}

fn pages_fit(guests: &[GuestPlan]) -> bool
    ensures { result ≡ nat_le (guest_pages_of guests.now) MAX_TOTAL_PAGES }
{
    let mut left = MAX_TOTAL_PAGES;
    for guest in guests {
        if left < guest.pages {
            return false;
        }
        left -= guest.pages;
    }
    true
}

fn blocks_fit(guests: &[GuestPlan]) -> bool
    ensures { result ≡ nat_le (guest_blocks_of guests.now) MAX_TOTAL_BLOCKS }
{
    let mut left = MAX_TOTAL_BLOCKS;
    for guest in guests {
        match without_blocks(left, guest) {
            Some(rest) => left = rest,
            None => return false,
        }
    }
    true
}

/// The number without the guest's blocks, where it has no more.
fn without_blocks(number: u32, guest: &GuestPlan) -> Option<u32>
    ensures { SomeIff result (blocks_of guest.now ≤ number) (number - blocks_of guest.now) }
{
    let mut left = number;
    for file in guest.files.as_slice() {
        if left < file.pages {
            return None;
        }
        left -= file.pages;
    }
    left.checked_sub(guest.swap)
}

#[tactic(auto, unfolding(crate::specs::Plans::schedule_event_of))]
fn schedule_event(guests: &[GuestPlan], value: &Value<'_>) -> Result<Event, Kind>
    ensures { result ≡ schedule_event_of guests.now (view value.now) }
{
    let text = as_str(value).ok_or(Kind::Type_)?;
    event(guests, text.as_bytes())
}

/// An event of a schedule, in a scenario of these guests.
#[derive(Clone, Copy)]
struct Scheduled<'a> {
    guests: &'a [GuestPlan],
}

impl Reader for Scheduled<'_> {
    type Item = Event;

    ghost reads = { λ s tree. here (schedule_event_of s.guests.now tree) };

    fn read(&self, alloc: Global, value: &Value<'_>) -> Result<Event, ScenarioError> {
        here(alloc, schedule_event(self.guests, value))
    }
}
