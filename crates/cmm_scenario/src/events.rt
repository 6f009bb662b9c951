ghost use Rattle.std.specs.Prelude.{◌≡◌};
ghost use Rattle.cmm_scenario.specs.Events.{existing, pair_of, processor_of, guest_page_of, cpu_turn_of, alone_of, host_move_of, reclaiming_of, event_named, event_of};

use crate::fault::Kind;
use crate::words::{end_of_text, next_number, split_word, within};
use cmm_types::{Event, GuestPlan, MAX_CPUS, MAX_GUEST_PAGES, MAX_GUESTS, MAX_RECLAIM, Move};

/// The number, where it is below the limit.
#[tactic(auto, unfolding(crate::specs::Events::existing))]
fn existing(limit: usize, number: u32) -> Result<u32, Kind>
    ensures { result ≡ existing limit number }
{
    if (number as usize) < limit {
        Ok(number)
    } else {
        Err(Kind::Range)
    }
}

#[tactic(auto, unfolding(crate::specs::Events::pair_of))]
fn pair(text: &[u8]) -> Result<(u64, u64), Kind>
    ensures { result ≡ pair_of text.now }
{
    let (first, rest) = next_number(text)?;
    let (second, rest) = next_number(rest)?;
    end_of_text(rest)?;
    Ok((first, second))
}

/// A guest, and one of its processors.
#[tactic(auto, unfolding(crate::specs::Events::processor_of))]
fn processor(guests: &[GuestPlan], text: &[u8]) -> Result<(u32, u32), Kind>
    ensures { result ≡ processor_of guests.now text.now }
{
    let (guest, cpu) = pair(text)?;
    let guest = within(0, MAX_GUESTS - 1, guest)?;
    let Some(plan) = guests.get(guest as usize) else {
        return Err(Kind::Range);
    };
    let number = within(0, MAX_CPUS - 1, cpu)?;
    let cpu = existing(plan.cpus.len(), number)?;
    Ok((guest, cpu))
}

/// A guest, and one of its pages.
#[tactic(auto, unfolding(crate::specs::Events::guest_page_of))]
fn guest_page(guests: &[GuestPlan], text: &[u8]) -> Result<(u32, u32), Kind>
    ensures { result ≡ guest_page_of guests.now text.now }
{
    let (guest, page) = pair(text)?;
    let guest = within(0, MAX_GUESTS - 1, guest)?;
    let Some(plan) = guests.get(guest as usize) else {
        return Err(Kind::Range);
    };
    let number = within(0, MAX_GUEST_PAGES - 1, page)?;
    let page = existing(plan.pages as usize, number)?;
    Ok((guest, page))
}

#[tactic(auto, unfolding(crate::specs::Events::cpu_turn_of))]
fn cpu_turn(guests: &[GuestPlan], text: &[u8]) -> Result<Event, Kind>
    ensures { result ≡ cpu_turn_of guests.now text.now }
{
    let (guest, cpu) = processor(guests, text)?;
    Ok(Event::Cpu { guest, cpu })
}

#[tactic(auto, unfolding(crate::specs::Events::alone_of))]
fn alone(guests: &[GuestPlan], text: &[u8]) -> Result<Event, Kind>
    ensures { result ≡ alone_of guests.now text.now }
{
    let (guest, cpu) = processor(guests, text)?;
    Ok(Event::Alone { guest, cpu })
}

#[tactic(auto, unfolding(crate::specs::Events::host_move_of))]
fn host_move(action: Move, guests: &[GuestPlan], text: &[u8]) -> Result<Event, Kind>
    ensures { result ≡ host_move_of action guests.now text.now }
{
    let (guest, page) = guest_page(guests, text)?;
    Ok(Event::Host {
        guest,
        page,
        action,
    })
}

#[tactic(auto, unfolding(crate::specs::Events::reclaiming_of))]
fn reclaim(text: &[u8]) -> Result<Event, Kind>
    ensures { result ≡ reclaiming_of text.now }
{
    let (count, rest) = next_number(text)?;
    end_of_text(rest)?;
    let count = within(1, MAX_RECLAIM, count)?;
    Ok(Event::Reclaim { count })
}

#[tactic(auto, unfolding(crate::specs::Events::event_named))]
fn event_named(guests: &[GuestPlan], name: &[u8], text: &[u8]) -> Result<Event, Kind>
    ensures { result ≡ event_named guests.now name.now text.now }
{
    if name == b"cpu".as_slice() {
        cpu_turn(guests, text)
    } else if name == b"alone".as_slice() {
        alone(guests, text)
    } else if name == b"discard".as_slice() {
        host_move(Move::Discard, guests, text)
    } else if name == b"preserve".as_slice() {
        host_move(Move::Preserve, guests, text)
    } else if name == b"bring".as_slice() {
        host_move(Move::Bring, guests, text)
    } else if name == b"age".as_slice() {
        host_move(Move::Age, guests, text)
    } else if name == b"reclaim".as_slice() {
        reclaim(text)
    } else {
        Err(Kind::Text)
    }
}

/// The event that a text spells, in a scenario of these guests.
pub fn event(guests: &[GuestPlan], text: &[u8]) -> Result<Event, Kind>
    ensures { result ≡ event_of guests.now text.now }
{
    let (name, rest) = split_word(text);
    event_named(guests, name, rest)
}
