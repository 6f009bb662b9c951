// Bytes through an entry that shows their page.
ghost use Rattle.std.specs.Prelude.{◌≡◌, ◌≤◌, ◌+◌, length, None};
ghost use Rattle.cmm_types.specs.declared.page.TheConstants.{PAGE};
ghost use Rattle.cmm_storage.specs.Program.{DoesAlone};
ghost use Rattle.guest_rules.specs.Rows.{touch_missed, load_page, store_through};
ghost use Rattle.guest_rules.specs.Calls.{HoldsInUse, CanLoad, CanStore, IsInPage};
ghost use Rattle.guest_rules.specs.Answers.{HasBeenFilled, LoadAnswer, StoreAnswer};

use crate::read::fetch;
use cmm_storage::{Busy, Storage, Trap};
use cmm_types::{Bytes64, Cause, Why};
use guest_hint::discard_handler;
use guest_rules::{Missed, Parts};

/// The touch of the held page failed: a page that was discarded goes through its handler. The page is given back.
#[tactic(auto, using(cmm_storage::specs::Runs::runs))]
fn miss<R, St: Storage>(parts: &mut Parts, st: &mut St, page: u32, trap: Trap) -> Result<R, Missed>
    requires taken { HoldsInUse parts.old (St.view st.old) page }
    ensures row { DoesAlone St.step (touch_missed page parts.old trap) st.old (parts.new, result) st.new }
    ensures none_held { (St.view st.new).held ≡ None }
{
    match trap {
        Trap::Discarded => {
            discard_handler(parts, st, page);
            st.put(page);
            Err(Missed::Gone)
        }
        Trap::Paging => {
            st.put(page);
            Err(Missed::Fail(Cause::Paging))
        }
        Trap::NoFrame { looks } => {
            st.put(page);
            Err(Missed::Again {
                why: Why::NoFrame { looks },
            })
        }
    }
}

/// The load, as its program says.
#[tactic(auto, using(cmm_storage::specs::Runs::runs), unfolding(guest_rules::specs::Rows::load_page))]
fn run_load_page<St: Storage>(
    parts: &mut Parts,
    st: &mut St,
    page: u32,
    off: u32,
    len: u32,
) -> Result<Bytes64, Missed>
    requires loads { CanLoad parts.old (St.view st.old) page }
    requires bytes { IsInPage off len }
    ensures row { DoesAlone St.step (load_page parts.old page off len) st.old (parts.new, result) st.new }
    ensures none_held { (St.view st.new).held ≡ None }
{
    match st.take(page) {
        Err(Busy { word }) => Err(Missed::Again {
            why: Why::Busy { page, word },
        }),
        Ok(()) => match st.touch(page) {
            Err(trap) => miss(parts, st, page, trap),
            Ok(()) => {
                let bytes = fetch(st, page, off, len);
                st.put(page);
                Ok(bytes)
            }
        },
    }
}

/// Loads up to 64 bytes through an entry that shows the page, from `off` on. All of them lie in the page.
pub fn load_page<St: Storage>(
    parts: &mut Parts,
    st: &mut St,
    page: u32,
    off: u32,
    len: u32,
) -> Result<Bytes64, Missed>
    requires loads { CanLoad parts.old (St.view st.old) page }
    requires bytes { IsInPage off len }
    ensures row { DoesAlone St.step (load_page parts.old page off len) st.old (parts.new, result) st.new }
    ensures none_held { (St.view st.new).held ≡ None }
    ensures answer { HasBeenFilled parts.old page (St.view st.old) → LoadAnswer parts.old page off len (St.view st.old) parts.new result (St.view st.new) }
{
    run_load_page(parts, st, page, off, len)
}

/// The store, as its program says.
#[tactic(auto, using(cmm_storage::specs::Runs::runs), unfolding(guest_rules::specs::Rows::store_through))]
fn run_store_through<St: Storage>(
    parts: &mut Parts,
    st: &mut St,
    page: u32,
    off: u32,
    bytes: &Bytes64,
) -> Result<(), Missed>
    requires stores { CanStore parts.old (St.view st.old) page }
    requires within { off + length bytes.now ≤ PAGE }
    ensures row { DoesAlone St.step (store_through parts.old page off bytes.now) st.old (parts.new, result) st.new }
    ensures none_held { (St.view st.new).held ≡ None }
{
    match st.take(page) {
        Err(Busy { word }) => Err(Missed::Again {
            why: Why::Busy { page, word },
        }),
        Ok(()) => match st.touch(page) {
            Err(trap) => miss(parts, st, page, trap),
            Ok(()) => {
                st.store(page, off as usize, bytes.as_slice());
                st.put(page);
                Ok(())
            }
        },
    }
}

/// Stores up to 64 bytes through a writable entry that shows the page, from `off` on. All of them lie in the page,
/// whose change bit is set then.
pub fn store_through<St: Storage>(
    parts: &mut Parts,
    st: &mut St,
    page: u32,
    off: u32,
    bytes: &Bytes64,
) -> Result<(), Missed>
    requires stores { CanStore parts.old (St.view st.old) page }
    requires within { off + length bytes.now ≤ PAGE }
    ensures row { DoesAlone St.step (store_through parts.old page off bytes.now) st.old (parts.new, result) st.new }
    ensures none_held { (St.view st.new).held ≡ None }
    ensures answer { HasBeenFilled parts.old page (St.view st.old) → StoreAnswer parts.old page off bytes.now (St.view st.old) parts.new result (St.view st.new) }
{
    run_store_through(parts, st, page, off, bytes)
}
