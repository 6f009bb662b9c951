ghost use Rattle.std.specs.Prelude.{◌≡◌, Some, OnOk};
ghost use Rattle.cmm_types.specs.declared.page.Usage.TheVariants.{S};
ghost use Rattle.cmm_storage.specs.StorageCall.{TakeChange};
ghost use Rattle.cmm_storage.specs.Program.{DoesAlone};
ghost use Rattle.guest_pages.specs.PagesView.{info_at};
ghost use Rattle.guest_rules.specs.Hint.{hint};
ghost use Rattle.guest_rules.specs.Rows.{freed, handler, tell, rehint, make_stable, with_change};
ghost use Rattle.guest_rules.specs.Calls.{IsInUse, IsHeld, HoldsInUse};
ghost use Rattle.guest_rules.specs.Answers.{IsFree, IsHandled, CanBeTold, IsRetold, StableAnswer};

use crate::hint::hint_of;
use cmm_storage::Storage;
use cmm_types::Usage;
use essa_state::Order;
use guest_rules::{Gone, Parts};

/// Takes everything off a page, as the rules say.
#[tactic(auto, unfolding(guest_rules::specs::Rows::freed))]
fn run_forget(parts: &mut Parts, page: u32)
    requires in_use { IsInUse parts.old page }
    ensures { parts.new ≡ freed parts.old page }
{
    if let Some(tag) = parts.pages.info(page).tag {
        parts.cache.remove(tag);
    }
    parts.pages.clear(page);
    parts.pages.push(page);
    parts.maps.clear_page(page);
}

/// Takes everything off a page, which is the next free one then.
pub fn forget(parts: &mut Parts, page: u32)
    requires in_use { IsInUse parts.old page }
    ensures row { parts.new ≡ freed parts.old page }
    ensures free { IsFree parts.new page }
    ensures faults { parts.new.faults ≡ parts.old.faults }
{
    run_forget(parts, page);
}

/// The handler, as its program says.
#[tactic(auto, unfolding(guest_rules::specs::Rows::handler, guest_rules::specs::Rows::handled))]
fn run_discard_handler<St: Storage>(parts: &mut Parts, st: &mut St, page: u32)
    requires taken { HoldsInUse parts.old (St.view st.old) page }
    ensures row { DoesAlone St.step (handler parts.old page) st.old parts.new st.new }
    ensures held { (St.view st.new).held ≡ Some page }
{
    st.order(page, Order::SetUnused);
    forget(parts, page);
    parts.faults = parts.faults.saturating_add(1);
}

/// The handler of a held page that was discarded: the page is free, and the host is told that it is unused. One
/// fault is counted.
pub fn discard_handler<St: Storage>(parts: &mut Parts, st: &mut St, page: u32)
    requires taken { HoldsInUse parts.old (St.view st.old) page }
    ensures row { DoesAlone St.step (handler parts.old page) st.old parts.new st.new }
    ensures held { (St.view st.new).held ≡ Some page }
    ensures answer { IsHandled parts.old page parts.new (St.view st.new) }
{
    run_discard_handler(parts, st, page);
}

/// Moves the change bit of a held page into what is known of the page, and answers whether it was set.
pub fn mark_changed<St: Storage>(parts: &mut Parts, st: &mut St, page: u32) -> bool
    requires held { IsHeld parts.old (St.view st.old) page }
    ensures step { St.step st.old (TakeChange page result) st.new }
    ensures tables { parts.new ≡ with_change parts.old page result }
    ensures held { IsHeld parts.new (St.view st.new) page }
{
    let changed = st.take_change(page);
    if changed {
        parts.pages.set_dirty(page, true);
    }
    changed
}

/// Tells the host the hint of a held page.
#[tactic(auto, using(cmm_storage::specs::Runs::runs), unfolding(guest_rules::specs::Rows::tell))]
fn tell<St: Storage>(parts: &Parts, st: &mut St, page: u32)
    requires held { IsHeld parts.now (St.view st.old) page }
    ensures row { DoesAlone St.step (tell (hint (info_at parts.now.pages page)) parts.now page) st.old parts.now st.new }
    ensures held { (St.view st.new).held ≡ Some page }
{
    match hint_of(&parts.pages.info(page)) {
        Usage::S | Usage::U => {}
        Usage::P => {
            st.order(page, Order::SetPotential);
        }
        Usage::V => {
            st.order(page, Order::SetVolatile);
        }
    }
}

/// The hint, as its program says.
#[tactic(auto, using(cmm_storage::specs::Runs::runs), unfolding(guest_rules::specs::Rows::rehint))]
fn run_rehint<St: Storage>(parts: &mut Parts, st: &mut St, page: u32)
    requires held { IsHeld parts.old (St.view st.old) page }
    ensures row { DoesAlone St.step (rehint parts.old page) st.old parts.new st.new }
    ensures held { (St.view st.new).held ≡ Some page }
{
    mark_changed(parts, st, page);
    tell(parts, st, page);
}

/// Moves the change bit of a held stable page with a tag into what is known of the page, and tells the host its
/// hint.
pub fn rehint<St: Storage>(parts: &mut Parts, st: &mut St, page: u32)
    requires held { IsHeld parts.old (St.view st.old) page }
    ensures row { DoesAlone St.step (rehint parts.old page) st.old parts.new st.new }
    ensures held { (St.view st.new).held ≡ Some page }
    ensures answer { CanBeTold parts.old page (St.view st.old) → IsRetold parts.old page (St.view st.old) parts.new (St.view st.new) }
{
    run_rehint(parts, st, page);
}

/// The order, as its program says.
#[tactic(auto, using(cmm_storage::specs::Runs::runs), unfolding(guest_rules::specs::Rows::make_stable))]
fn run_make_stable<St: Storage>(parts: &mut Parts, st: &mut St, page: u32) -> Result<(), Gone>
    requires taken { HoldsInUse parts.old (St.view st.old) page }
    ensures row { DoesAlone St.step (make_stable parts.old page) st.old (parts.new, result) st.new }
    ensures held { (St.view st.new).held ≡ Some page }
    ensures stable { OnOk result (((St.view st.new).values page).usage ≡ S) }
    ensures same { OnOk result (parts.new ≡ parts.old) }
{
    if st.order(page, Order::SetStableIf).done {
        Ok(())
    } else {
        discard_handler(parts, st, page);
        Err(Gone)
    }
}

/// Makes a held page stable. A page that was discarded goes through its handler; `Gone` comes exactly there.
pub fn make_stable<St: Storage>(parts: &mut Parts, st: &mut St, page: u32) -> Result<(), Gone>
    requires taken { HoldsInUse parts.old (St.view st.old) page }
    ensures row { DoesAlone St.step (make_stable parts.old page) st.old (parts.new, result) st.new }
    ensures held { (St.view st.new).held ≡ Some page }
    ensures stable { OnOk result (((St.view st.new).values page).usage ≡ S) }
    ensures same { OnOk result (parts.new ≡ parts.old) }
    ensures answer { StableAnswer parts.old page (St.view st.old) parts.new result (St.view st.new) }
{
    run_make_stable(parts, st, page)
}
