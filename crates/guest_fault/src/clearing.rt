// The clearing of a mapping's entries.
ghost use Rattle.std.specs.Prelude.{◌≡◌, ◌<◌, ◌≤◌, length, true, None};
ghost use Rattle.cmm_storage.specs.Program.{DoesAlone};
ghost use Rattle.guest_pages.specs.PagesView.{info_at};
ghost use Rattle.guest_maps.specs.MapsView.{IsPlace};
ghost use Rattle.guest_rules.specs.Rows.{unmapped, clear_entry};
ghost use Rattle.guest_rules.specs.Calls.{CanClear};
ghost use Rattle.guest_rules.specs.Answers.{HasBeenFilled, ClearAnswer};

use cmm_storage::{Busy, Storage};
use cmm_types::Why;
use guest_hint::{make_stable, rehint};
use guest_maps::Pte;
use guest_rules::{Parts, Placed};

/// Takes the entry away from a place of a mapping. Where stores could go through it, its page has one writer less.
#[tactic(auto, unfolding(guest_rules::specs::Rows::unmapped))]
fn unmap_entry(parts: &mut Parts, slot: u32, index: u32, pte: Pte)
    requires page { pte.page < length parts.old.pages.infos }
    requires place { IsPlace parts.old.maps slot index }
    requires writers { pte.writable ≡ true → 1 ≤ (info_at parts.old.pages pte.page).writers }
    ensures value { parts.new ≡ unmapped parts.old slot index pte }
    ensures count { length parts.new.pages.infos ≡ length parts.old.pages.infos }
{
    let writers = parts.pages.info(pte.page).writers;
    parts
        .pages
        .set_writers(pte.page, writers - u32::from(pte.writable));
    parts.maps.clear(slot, index);
}

/// The clearing of the entry, as its program says.
#[tactic(auto, using(cmm_storage::specs::Runs::runs), unfolding(guest_rules::specs::Rows::clear_entry))]
fn run_clear_entry<St: Storage>(
    parts: &mut Parts,
    st: &mut St,
    slot: u32,
    index: u32,
    pte: Pte,
) -> Placed
    requires clears { CanClear parts.old (St.view st.old) slot index pte }
    ensures row { DoesAlone St.step (clear_entry parts.old slot index pte) st.old (parts.new, result) st.new }
    ensures none_held { (St.view st.new).held ≡ None }
{
    match st.take(pte.page) {
        Err(Busy { word }) => Placed::Again {
            why: Why::Busy {
                page: pte.page,
                word,
            },
        },
        Ok(()) => match make_stable(parts, st, pte.page) {
            Err(_) => {
                st.put(pte.page);
                Placed::Gone
            }
            Ok(()) => {
                unmap_entry(parts, slot, index, pte);
                rehint(parts, st, pte.page);
                st.put(pte.page);
                Placed::Done
            }
        },
    }
}

/// Clears the entry `pte` of page `index` of the mapping in a slot. The page that it shows may be locked, to be written
/// back.
pub fn clear_entry<St: Storage>(
    parts: &mut Parts,
    st: &mut St,
    slot: u32,
    index: u32,
    pte: Pte,
) -> Placed
    requires clears { CanClear parts.old (St.view st.old) slot index pte }
    ensures row { DoesAlone St.step (clear_entry parts.old slot index pte) st.old (parts.new, result) st.new }
    ensures none_held { (St.view st.new).held ≡ None }
    ensures answer { HasBeenFilled parts.old pte.page (St.view st.old) → ClearAnswer parts.old slot index pte (St.view st.old) parts.new result (St.view st.new) }
{
    run_clear_entry(parts, st, slot, index, pte)
}
