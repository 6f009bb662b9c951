// A page of a file whose sync looks whether it is dirty, and writes it back.
ghost use Rattle.std.specs.Prelude.{◌≡◌, ◌<◌, length, None, Ok, Err, IfSome};
ghost use Rattle.cmm_types.specs.declared.page.TheConstants.{PAGE};
ghost use Rattle.cmm_storage.specs.Program.{Does, DoesAlone};
ghost use Rattle.guest_pages.specs.PagesView.{info_at};
ghost use Rattle.guest_rules.specs.Calls.{IsHeld, CanTake, CanWriteBack};
ghost use Rattle.guest_rules.specs.Syncs.{sync_known, sync_page, stay_dirty, back_written, back_fetched, back_touched, write_back};
ghost use Rattle.guest_rules.specs.Answers.{HasBeenFilled, IsToBeWritten, SyncAnswer, BackAnswer};

use cmm_io::Disk;
use cmm_storage::{Busy, Storage, Trap};
use cmm_types::{Cause, PAGE, Why};
use guest_hint::{backing, make_stable, mark_changed, rehint};
use guest_rules::{Filled, Parts, Synced};

/// The held page, whose change bit has moved into what is known of it, is locked by the processor where it is dirty,
/// and given back.
#[tactic(auto, using(cmm_storage::specs::Runs::runs), unfolding(guest_rules::specs::Syncs::locked))]
fn lock_dirty<St: Storage>(parts: &mut Parts, st: &mut St, cpu: u32, page: u32) -> Synced
    requires held { IsHeld parts.old (St.view st.old) page }
    ensures row { DoesAlone St.step (sync_known page cpu parts.old (info_at parts.old.pages page).dirty) st.old (parts.new, result) st.new }
    ensures none_held { (St.view st.new).held ≡ None }
{
    if parts.pages.info(page).dirty {
        parts.pages.set_owner(page, Some(cpu));
        st.put(page);
        Synced::Locked
    } else {
        rehint(parts, st, page);
        st.put(page);
        Synced::Clean
    }
}

/// The look, as its program says.
#[tactic(auto, using(cmm_storage::specs::Runs::runs), unfolding(guest_rules::specs::Syncs::sync_page))]
fn run_sync_page<St: Storage>(parts: &mut Parts, st: &mut St, cpu: u32, page: u32) -> Synced
    requires takes { CanTake parts.old (St.view st.old) page }
    ensures row { DoesAlone St.step (sync_page parts.old page cpu) st.old (parts.new, result) st.new }
    ensures none_held { (St.view st.new).held ≡ None }
{
    if let Some(owner) = parts.pages.info(page).owner {
        return Synced::Waits { owner };
    }
    match st.take(page) {
        Err(Busy { word }) => Synced::Again {
            why: Why::Busy { page, word },
        },
        Ok(()) => match make_stable(parts, st, page) {
            Err(_) => {
                st.put(page);
                Synced::Gone
            }
            Ok(()) => {
                mark_changed(parts, st, page);
                lock_dirty(parts, st, cpu, page)
            }
        },
    }
}

/// Looks at a page with a tag for a sync of its file by a processor: a dirty page is locked, to be written back.
pub fn sync_page<St: Storage>(parts: &mut Parts, st: &mut St, cpu: u32, page: u32) -> Synced
    requires takes { CanTake parts.old (St.view st.old) page }
    ensures row { DoesAlone St.step (sync_page parts.old page cpu) st.old (parts.new, result) st.new }
    ensures none_held { (St.view st.new).held ≡ None }
    ensures answer { HasBeenFilled parts.old page (St.view st.old) → SyncAnswer parts.old page cpu (St.view st.old) parts.new result (St.view st.new) }
{
    run_sync_page(parts, st, cpu, page)
}

/// The held page, which is locked, couldn't be written back: it stays dirty, and is unlocked and given back.
#[tactic(auto, using(cmm_storage::specs::Runs::runs), unfolding(guest_rules::specs::Syncs::unlocked))]
fn stay_dirty<St: Storage>(parts: &mut Parts, st: &mut St, page: u32, cause: Cause) -> Filled
    requires held { IsHeld parts.old (St.view st.old) page }
    ensures row { DoesAlone St.step (stay_dirty parts.old page cause) st.old (parts.new, result) st.new }
    ensures none_held { (St.view st.new).held ≡ None }
{
    parts.pages.set_owner(page, None);
    rehint(parts, st, page);
    st.put(page);
    Filled::Fail(cause)
}

/// The held page, which is locked, has its bytes in its block: it is clean, and is unlocked and given back. What was
/// stored to it since it was locked makes it dirty again.
#[tactic(auto, using(cmm_storage::specs::Runs::runs), unfolding(guest_rules::specs::Syncs::cleaned))]
fn come_clean<St: Storage>(parts: &mut Parts, st: &mut St, page: u32) -> Filled
    requires held { IsHeld parts.old (St.view st.old) page }
    ensures row { DoesAlone St.step (back_written parts.old page (Ok tt)) st.old (parts.new, result) st.new }
    ensures none_held { (St.view st.new).held ≡ None }
{
    parts.pages.set_dirty(page, false);
    parts.pages.set_owner(page, None);
    rehint(parts, st, page);
    st.put(page);
    Filled::Done
}

/// The touch of the held page, which is locked, failed.
#[tactic(auto, using(cmm_storage::specs::Runs::runs))]
fn miss<St: Storage>(parts: &mut Parts, st: &mut St, page: u32, trap: Trap) -> Filled
    requires held { IsHeld parts.old (St.view st.old) page }
    ensures row { DoesAlone St.step (back_touched parts.old page (Err trap)) st.old (parts.new, result) st.new }
    ensures none_held { (St.view st.new).held ≡ None }
{
    match trap {
        Trap::Discarded => stay_dirty(parts, st, page, Cause::Paging),
        Trap::Paging => stay_dirty(parts, st, page, Cause::Paging),
        Trap::NoFrame { looks } => {
            st.put(page);
            Filled::Again {
                why: Why::NoFrame { looks },
            }
        }
    }
}

/// Writes the bytes of the held page to its block. A page without one is never locked to be written back.
#[tactic(auto, using(cmm_storage::specs::Runs::runs, guest_hint::specs::Laws::RunLaws::does_alone))]
fn write_to<St: Storage, D: Disk>(
    parts: &mut Parts,
    st: &mut St,
    disk: &mut D,
    page: u32,
    block: Option<u32>,
    bytes: &[u8],
) -> Filled
    requires held { IsHeld parts.old (St.view st.old) page }
    requires block { IfSome block (λ number. number < (D.view disk.old).count) }
    requires whole { length bytes.now ≡ PAGE }
    ensures row { Does St.step D.step (back_fetched parts.old page block bytes.now) st.old disk.old (parts.new, result) st.new disk.new }
    ensures none_held { (St.view st.new).held ≡ None }
{
    match block {
        None => stay_dirty(parts, st, page, Cause::Disk),
        Some(number) => match disk.write(number, bytes) {
            Err(_) => stay_dirty(parts, st, page, Cause::Disk),
            Ok(()) => come_clean(parts, st, page),
        },
    }
}

/// The writing back, as its program says.
#[tactic(auto, using(cmm_storage::specs::Runs::runs, guest_hint::specs::Laws::RunLaws::does_alone), unfolding(guest_rules::specs::Syncs::write_back))]
fn run_write_back<St: Storage, D: Disk>(
    parts: &mut Parts,
    st: &mut St,
    disk: &mut D,
    page: u32,
) -> Filled
    requires writes { CanWriteBack parts.old (St.view st.old) (D.view disk.old) page }
    ensures row { Does St.step D.step (write_back parts.old page) st.old disk.old (parts.new, result) st.new disk.new }
    ensures none_held { (St.view st.new).held ≡ None }
{
    match st.take(page) {
        Err(Busy { word }) => Filled::Again {
            why: Why::Busy { page, word },
        },
        Ok(()) => match st.touch(page) {
            Err(trap) => miss(parts, st, page, trap),
            Ok(()) => {
                let mut bytes = [0u8; PAGE];
                st.fetch(page, 0, &mut bytes);
                let block = backing(parts, page);
                write_to(parts, st, disk, page, block, &bytes)
            }
        },
    }
}

/// Writes a locked page to the block of its tag. Where it fails, the page stays dirty. Either way it isn't locked
/// any more, unless the turn has to be taken again.
pub fn write_back<St: Storage, D: Disk>(
    parts: &mut Parts,
    st: &mut St,
    disk: &mut D,
    page: u32,
) -> Filled
    requires writes { CanWriteBack parts.old (St.view st.old) (D.view disk.old) page }
    ensures row { Does St.step D.step (write_back parts.old page) st.old disk.old (parts.new, result) st.new disk.new }
    ensures none_held { (St.view st.new).held ≡ None }
    ensures answer { IsToBeWritten parts.old page (St.view st.old) → BackAnswer parts.old page (St.view st.old) (D.view disk.old) parts.new result (St.view st.new) (D.view disk.new) }
{
    run_write_back(parts, st, disk, page)
}
