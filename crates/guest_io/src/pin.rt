// Pins of pages of mappings.
ghost use Rattle.std.specs.Prelude.{◌≡◌, ◌≤◌, ◌*◌, length, None, false};
ghost use Rattle.cmm_types.specs.declared.plan.TheConstants.{MAX_MAPPING_SLOTS};
ghost use Rattle.cmm_types.specs.declared.command.TheConstants.{MAX_MAPPING_PAGES};
ghost use Rattle.cmm_storage.specs.Program.{DoesAlone};
ghost use Rattle.guest_rules.specs.Rows.{pins_after, pinned, pin_page};
ghost use Rattle.guest_rules.specs.Calls.{IsInUse, CanTake, CanPin};
ghost use Rattle.guest_rules.specs.Answers.{HasBeenFilled, PinAnswer};

use cmm_storage::{Busy, Storage};
use cmm_types::Why;
use guest_hint::{make_stable, rehint};
use guest_rules::{Parts, Placed};

/// One pin more, or one less.
fn pins_after(pins: bool, count: u32) -> u32
    requires most { count ≤ MAX_MAPPING_SLOTS * MAX_MAPPING_PAGES }
    requires some { pins ≡ false → 1 ≤ count }
    ensures { result ≡ pins_after pins count }
{
    if pins { count + 1 } else { count - 1 }
}

/// The place of the page is pinned, or isn't any more.
#[tactic(auto, unfolding(guest_rules::specs::Rows::pinned))]
fn set_pin(parts: &mut Parts, page: u32, slot: u32, index: u32, pins: bool)
    requires in_use { IsInUse parts.old page }
    requires pin { CanPin parts.old page slot index pins }
    ensures value { parts.new ≡ pinned parts.old page slot index pins }
    ensures count { length parts.new.pages.infos ≡ length parts.old.pages.infos }
{
    let count = parts.pages.info(page).pins;
    parts.pages.set_pins(page, pins_after(pins, count));
    parts.maps.set_pinned(slot, index, pins);
}

/// The pin, as its program says.
#[tactic(auto, using(cmm_storage::specs::Runs::runs), unfolding(guest_rules::specs::Rows::pin_page))]
fn run_pin_page<St: Storage>(
    parts: &mut Parts,
    st: &mut St,
    page: u32,
    slot: u32,
    index: u32,
    pins: bool,
) -> Placed
    requires takes { CanTake parts.old (St.view st.old) page }
    requires pin { CanPin parts.old page slot index pins }
    ensures row { DoesAlone St.step (pin_page parts.old page slot index pins) st.old (parts.new, result) st.new }
    ensures none_held { (St.view st.new).held ≡ None }
{
    match st.take(page) {
        Err(Busy { word }) => Placed::Again {
            why: Why::Busy { page, word },
        },
        Ok(()) => match make_stable(parts, st, page) {
            Err(_) => {
                st.put(page);
                Placed::Gone
            }
            Ok(()) => {
                set_pin(parts, page, slot, index, pins);
                rehint(parts, st, page);
                st.put(page);
                Placed::Done
            }
        },
    }
}

/// Pins page `index` of the mapping in a slot, or unpins it where `pins` is false. Its tag is on the page, which
/// isn't locked. Nothing of the page is touched or read, so this never fails.
pub fn pin_page<St: Storage>(
    parts: &mut Parts,
    st: &mut St,
    page: u32,
    slot: u32,
    index: u32,
    pins: bool,
) -> Placed
    requires takes { CanTake parts.old (St.view st.old) page }
    requires pin { CanPin parts.old page slot index pins }
    ensures row { DoesAlone St.step (pin_page parts.old page slot index pins) st.old (parts.new, result) st.new }
    ensures none_held { (St.view st.new).held ≡ None }
    ensures answer { HasBeenFilled parts.old page (St.view st.old) → PinAnswer parts.old page slot index pins (St.view st.old) parts.new result (St.view st.new) }
{
    run_pin_page(parts, st, page, slot, index, pins)
}
