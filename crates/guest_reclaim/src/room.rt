ghost use Rattle.std.specs.Prelude.{◌≡◌, ◌<◌, ℕ, length, None, Some, IfSome};
ghost use Rattle.cmm_types.specs.declared.page.Tag.TheVariants.{Anon};
ghost use Rattle.cmm_storage.specs.Program.{DoesAlone};
ghost use Rattle.guest_pages.specs.PagesView.{info_at};
ghost use Rattle.guest_cache.specs.CacheView.{IsTag};
ghost use Rattle.guest_rules.specs.Calls.{HoldsInUse, CanTake, CanMakeRoom};
ghost use Rattle.guest_rules.specs.MakeRoom.{first_to_go, first_locked, with_swap_slot, locked_to_go, behind, go_known, none_goes, room_from, make_room};
ghost use Rattle.guest_rules.specs.Answers.{CanBeWrittenOut, RoomAnswer};
ghost use Rattle.guest_reclaim.specs.Sought.{HasTags};

use crate::look::{Sought, first_from, pinned_count};
use cmm_storage::{Busy, Storage};
use cmm_types::{Tag, Why};
use essa_state::Order;
use guest_cache::Cache;
use guest_hint::{forget, make_stable, mark_changed};
use guest_rules::{Parts, Room};

/// A page of a mapping slot that has no swap slot gets the least free one.
fn give_anonymous(cache: &mut Cache, slot: u32, index: u32)
    requires { IsTag cache.old (Anon slot index) }
    ensures { cache.new ≡ with_swap_slot cache.old (Some (Anon slot index)) }
{
    let tag = Tag::Anon { slot, index };
    if cache.slot(tag).is_none() {
        cache.assign(tag);
    }
}

/// An anonymous page without a swap slot gets one.
fn give_slot(cache: &mut Cache, tag: Tag)
    requires { IsTag cache.old tag }
    ensures { cache.new ≡ with_swap_slot cache.old (Some tag) }
{
    match tag {
        Tag::File { file: _, index: _ } => {}
        Tag::Anon { slot, index } => give_anonymous(cache, slot, index),
    }
}

/// The page has a block to be written to, and is locked by the processor.
#[tactic(auto, unfolding(guest_rules::specs::MakeRoom::locked_to_go, guest_rules::specs::Syncs::locked))]
fn lock_to_go(parts: &mut Parts, cpu: u32, page: u32)
    requires page { page < length parts.old.pages.infos }
    requires tag { IfSome (info_at parts.old.pages page).tag (λ tag. IsTag parts.old.cache tag) }
    ensures { parts.new ≡ locked_to_go parts.old page cpu }
{
    if let Some(tag) = parts.pages.info(page).tag {
        give_slot(&mut parts.cache, tag);
    }
    parts.pages.set_owner(page, Some(cpu));
}

/// The hand stands behind the page.
#[tactic(auto, unfolding(guest_rules::specs::MakeRoom::behind))]
fn pass(parts: &mut Parts, page: u32)
    requires { page < length parts.old.pages.infos }
    ensures { parts.new ≡ behind parts.old page }
{
    let count = parts.pages.count();
    parts.hand = if page + 1 < count { page + 1 } else { 0 };
}

/// The held page, whose change bit has moved into what is known of it, is freed; where it is dirty, it is locked by the
/// processor. It is given back.
#[tactic(auto, using(cmm_storage::specs::Runs::runs))]
fn let_go<St: Storage>(parts: &mut Parts, st: &mut St, cpu: u32, page: u32) -> Room
    requires taken { HoldsInUse parts.old (St.view st.old) page }
    ensures row { DoesAlone St.step (go_known page cpu parts.old (info_at parts.old.pages page).dirty) st.old (parts.new, result) st.new }
    ensures none_held { (St.view st.new).held ≡ None }
{
    if parts.pages.info(page).dirty {
        lock_to_go(parts, cpu, page);
        st.put(page);
        Room::Locked { page }
    } else {
        st.order(page, Order::SetUnused);
        forget(parts, page);
        pass(parts, page);
        st.put(page);
        Room::Freed
    }
}

/// The page makes room, or was discarded and has made it.
#[tactic(auto, using(cmm_storage::specs::Runs::runs))]
fn free_by<St: Storage>(parts: &mut Parts, st: &mut St, cpu: u32, page: u32) -> Room
    requires takes { CanTake parts.old (St.view st.old) page }
    ensures row { DoesAlone St.step (room_from parts.old cpu (Some page)) st.old (parts.new, result) st.new }
    ensures none_held { (St.view st.new).held ≡ None }
{
    match st.take(page) {
        Err(Busy { word }) => Room::Again {
            why: Why::Busy { page, word },
        },
        Ok(()) => match make_stable(parts, st, page) {
            Err(_) => {
                st.put(page);
                Room::Freed
            }
            Ok(()) => {
                mark_changed(parts, st, page);
                let_go(parts, st, cpu, page)
            }
        },
    }
}

/// The answer where no page can go.
fn none_goes(parts: &Parts) -> Room
    requires { HasTags parts.now }
    ensures { result ≡ none_goes parts.now (first_locked parts.now) }
{
    match first_from(parts, Sought::Locked) {
        None => {
            let pinned = pinned_count(parts);
            Room::NoPage {
                pinned,
                unslotted: parts.pages.count() - pinned,
            }
        }
        Some(page) => {
            let owner = parts.pages.info(page).owner.unwrap();
            Room::Waits { page, owner }
        }
    }
}

/// Making room, as its program says.
#[tactic(auto, using(cmm_storage::specs::Runs::runs), unfolding(guest_rules::specs::MakeRoom::make_room))]
fn run_make_room<St: Storage>(parts: &mut Parts, st: &mut St, cpu: u32) -> Room
    requires can { CanMakeRoom parts.old (St.view st.old) }
    ensures row { DoesAlone St.step (make_room parts.old cpu) st.old (parts.new, result) st.new }
    ensures none_held { (St.view st.new).held ≡ None }
{
    match first_from(parts, Sought::Movable) {
        None => none_goes(parts),
        Some(page) => free_by(parts, st, cpu, page),
    }
}

/// Makes room for a page of a processor's command, where no page is free. The first page that can go, from the hand on or
/// else of all, is freed, and the hand stands behind it; a dirty one is locked by the processor, to be written back first.
/// Where none can go, the first locked one is waited for; `NoPage` comes exactly where none is locked either.
pub fn make_room<St: Storage>(parts: &mut Parts, st: &mut St, cpu: u32) -> Room
    requires can { CanMakeRoom parts.old (St.view st.old) }
    ensures row { DoesAlone St.step (make_room parts.old cpu) st.old (parts.new, result) st.new }
    ensures none_held { (St.view st.new).held ≡ None }
    ensures answer { ((page : ℕ) → first_to_go parts.old ≡ Some page → CanBeWrittenOut parts.old page (St.view st.old)) → RoomAnswer parts.old cpu (St.view st.old) parts.new result (St.view st.new) }
{
    run_make_room(parts, st, cpu)
}
