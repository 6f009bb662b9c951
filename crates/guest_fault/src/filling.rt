ghost use Rattle.std.specs.Prelude.{◌≡◌, ◌<◌, length, None, Err, IfSome};
ghost use Rattle.cmm_types.specs.declared.page.TheConstants.{PAGE};
ghost use Rattle.cmm_storage.specs.Program.{Does, DoesAlone};
ghost use Rattle.guest_rules.specs.Rows.{give_up, fill_touched, fill_with, fill_from, fill};
ghost use Rattle.guest_rules.specs.Calls.{IsHeld, HoldsInUse, TakesBytes, CanFill};
ghost use Rattle.guest_rules.specs.Answers.{IsToBeFilled, FillAnswer};

use cmm_io::Disk;
use cmm_storage::{Busy, Storage, Trap};
use cmm_types::{Cause, PAGE, Why};
use essa_state::Order;
use guest_hint::{backing, forget, rehint};
use guest_rules::{Filled, Parts};

/// Frees the held page, which couldn't be filled, and gives it back.
#[tactic(auto, using(cmm_storage::specs::Runs::runs))]
fn give_up<St: Storage>(parts: &mut Parts, st: &mut St, page: u32, cause: Cause) -> Filled
    requires taken { HoldsInUse parts.old (St.view st.old) page }
    ensures row { DoesAlone St.step (give_up parts.old page cause) st.old (parts.new, result) st.new }
    ensures none_held { (St.view st.new).held ≡ None }
{
    st.order(page, Order::SetUnused);
    st.put(page);
    forget(parts, page);
    Filled::Fail(cause)
}

/// Stores all bytes of the held page, which is stable and was touched. It is up to date and unlocked then. The
/// store sets the change bit, which is dropped.
#[tactic(auto, using(cmm_storage::specs::Runs::runs))]
fn fill_with<St: Storage>(parts: &mut Parts, st: &mut St, page: u32, bytes: &[u8]) -> Filled
    requires held { IsHeld parts.old (St.view st.old) page }
    requires bytes { TakesBytes (St.view st.old) page }
    requires whole { length bytes.now ≡ PAGE }
    ensures row { DoesAlone St.step (fill_with parts.old page bytes.now) st.old (parts.new, result) st.new }
    ensures none_held { (St.view st.new).held ≡ None }
{
    st.store(page, 0, bytes);
    st.take_change(page);
    parts.pages.set_uptodate(page, true);
    parts.pages.set_owner(page, None);
    rehint(parts, st, page);
    st.put(page);
    Filled::Done
}

/// The held page can't be filled now, or not at all.
#[tactic(auto, using(cmm_storage::specs::Runs::runs))]
fn miss<St: Storage>(parts: &mut Parts, st: &mut St, page: u32, trap: Trap) -> Filled
    requires taken { HoldsInUse parts.old (St.view st.old) page }
    ensures row { DoesAlone St.step (fill_touched parts.old page (Err trap)) st.old (parts.new, result) st.new }
    ensures none_held { (St.view st.new).held ≡ None }
{
    match trap {
        Trap::Discarded => give_up(parts, st, page, Cause::Paging),
        Trap::Paging => give_up(parts, st, page, Cause::Paging),
        Trap::NoFrame { looks } => {
            st.put(page);
            Filled::Again {
                why: Why::NoFrame { looks },
            }
        }
    }
}

/// Fills the held page, which is stable and was touched, from a block, or with zeros where there is none.
#[tactic(auto, using(cmm_storage::specs::Runs::runs, guest_hint::specs::Laws::RunLaws::does_alone), unfolding(cmm_types::specs::Bytes::zero_page))]
fn fill_from<St: Storage, D: Disk>(
    parts: &mut Parts,
    st: &mut St,
    disk: &mut D,
    page: u32,
    block: Option<u32>,
) -> Filled
    requires taken { HoldsInUse parts.old (St.view st.old) page }
    requires block { IfSome block (λ number. number < (D.view disk.old).count) }
    requires bytes { TakesBytes (St.view st.old) page }
    ensures row { Does St.step D.step (fill_from parts.old page block) st.old disk.old (parts.new, result) st.new disk.new }
    ensures none_held { (St.view st.new).held ≡ None }
{
    let mut bytes = [0u8; PAGE];
    match block {
        None => fill_with(parts, st, page, &bytes),
        Some(number) => match disk.read(number, &mut bytes) {
            Err(_) => give_up(parts, st, page, Cause::Disk),
            Ok(()) => fill_with(parts, st, page, &bytes),
        },
    }
}

/// The filling, as its program says.
#[tactic(auto, using(cmm_storage::specs::Runs::runs, guest_hint::specs::Laws::RunLaws::does_alone), unfolding(guest_rules::specs::Rows::fill))]
fn run_fill<St: Storage, D: Disk>(parts: &mut Parts, st: &mut St, disk: &mut D, page: u32) -> Filled
    requires fills { CanFill parts.old (St.view st.old) (D.view disk.old) page }
    ensures row { Does St.step D.step (fill parts.old page) st.old disk.old (parts.new, result) st.new disk.new }
    ensures none_held { (St.view st.new).held ≡ None }
{
    match st.take(page) {
        Err(Busy { word }) => Filled::Again {
            why: Why::Busy { page, word },
        },
        Ok(()) => {
            st.order(page, Order::SetStableResident);
            match st.touch(page) {
                Err(trap) => miss(parts, st, page, trap),
                Ok(()) => {
                    let block = backing(parts, page);
                    fill_from(parts, st, disk, page, block)
                }
            }
        }
    }
}

/// Fills a locked page with the bytes of its tag, from the guest's disk or with zeros. Where it fails, the page is
/// free again.
pub fn fill<St: Storage, D: Disk>(parts: &mut Parts, st: &mut St, disk: &mut D, page: u32) -> Filled
    requires fills { CanFill parts.old (St.view st.old) (D.view disk.old) page }
    ensures row { Does St.step D.step (fill parts.old page) st.old disk.old (parts.new, result) st.new disk.new }
    ensures none_held { (St.view st.new).held ≡ None }
    ensures answer { IsToBeFilled parts.old page (St.view st.old) (D.view disk.old) → FillAnswer parts.old page (St.view st.old) (D.view disk.old) parts.new result (St.view st.new) (D.view disk.new) }
{
    run_fill(parts, st, disk, page)
}
