//! The schedule of a generated scenario.

ghost use Rattle.std.specs.Prelude.{◌≡◌, ◌++◌, IfOk, OnOk};
ghost use Rattle.cmm_generate.specs.Draws.{Draws, Appended};
ghost use Rattle.cmm_generate.specs.Generated.{discards_after, reclaims_after, events, schedule};

use crate::numbers::Numbers;
use cmm_types::{Event, Move};
use std::alloc::{AllocError, Global};

/// After each eighth command a page is discarded.
#[tactic(auto, unfolding(crate::specs::Generated::discards_after))]
fn push_discard(j: u32, numbers: &mut Numbers, schedule: &mut Vec<Event>) -> Result<(), AllocError>
    ensures { OnOk result (Appended (discards_after j)
        numbers.old.number numbers.new.number schedule.old.items schedule.new.items) }
{
    if j % 8 == 7 {
        let guest = numbers.below(2);
        let page = numbers.below(64);
        let action = Move::Discard;
        schedule.push(Event::Host {
            guest,
            page,
            action,
        })?;
    }
    Ok(())
}

/// After each sixteenth command four frames are reclaimed.
fn push_reclaim(j: u32, schedule: &mut Vec<Event>) -> Result<(), AllocError>
    ensures { OnOk result (schedule.new.items ≡ schedule.old.items ++ reclaims_after j) }
{
    if j % 16 == 15 {
        schedule.push(Event::Reclaim { count: 4 })?;
    }
    Ok(())
}

/// The events of command `j`.
#[tactic(auto, unfolding(crate::specs::Generated::events))]
fn push_events(j: u32, numbers: &mut Numbers, schedule: &mut Vec<Event>) -> Result<(), AllocError>
    ensures { OnOk result (Appended (events j)
        numbers.old.number numbers.new.number schedule.old.items schedule.new.items) }
{
    let (guest, cpu) = (j % 4 / 2, j % 2);
    schedule.push(Event::Alone { guest, cpu })?;
    push_discard(j, numbers, schedule)?;
    push_reclaim(j, schedule)
}

/// The whole schedule, in its order.
#[tactic(auto, using(crate::proofs::Loops::in_turn_on), unfolding(crate::specs::Draws::in_turn))]
pub fn schedule(size: u32, alloc: Global, numbers: &mut Numbers) -> Result<Vec<Event>, AllocError>
    ensures { IfOk result (λ events. Draws (schedule size) numbers.old.number numbers.new.number events.items) }
{
    let mut schedule = Vec::new(alloc);
    for j in 0..size {
        push_events(j, numbers, &mut schedule)?;
    }
    Ok(schedule)
}
