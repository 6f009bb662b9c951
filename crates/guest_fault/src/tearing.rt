// The teardown of a mapping of pages of its own.
ghost use Rattle.std.specs.Prelude.{◌≡◌, None};
ghost use Rattle.cmm_types.specs.declared.page.Tag.TheVariants.{Anon};
ghost use Rattle.cmm_storage.specs.Program.{DoesAlone};
ghost use Rattle.guest_cache.specs.CacheView.{IsTag};
ghost use Rattle.guest_rules.specs.Rows.{released, tear_page};
ghost use Rattle.guest_rules.specs.Calls.{CanTear};
ghost use Rattle.guest_rules.specs.Answers.{TearAnswer};

use cmm_storage::{Busy, Storage};
use cmm_types::{Tag, Why};
use essa_state::Order;
use guest_hint::forget;
use guest_rules::{Parts, Placed};

/// The swap slot of page `index` of the mapping in a slot, if it has one, is free.
#[tactic(auto, unfolding(guest_rules::specs::Rows::released))]
pub fn release(parts: &mut Parts, slot: u32, index: u32)
    requires { IsTag parts.old.cache (Anon slot index) }
    ensures { parts.new ≡ released parts.old slot index }
{
    parts.cache.release(Tag::Anon { slot, index });
}

/// The teardown of the page, as its program says.
#[tactic(auto, using(cmm_storage::specs::Runs::runs), unfolding(guest_rules::specs::Rows::tear_page))]
fn run_tear_page<St: Storage>(
    parts: &mut Parts,
    st: &mut St,
    slot: u32,
    index: u32,
    page: u32,
) -> Placed
    requires { CanTear parts.old (St.view st.old) slot index page }
    ensures row { DoesAlone St.step (tear_page parts.old slot index page) st.old (parts.new, result) st.new }
    ensures none_held { (St.view st.new).held ≡ None }
{
    match st.take(page) {
        Err(Busy { word }) => Placed::Again {
            why: Why::Busy { page, word },
        },
        Ok(()) => {
            st.order(page, Order::SetUnused);
            forget(parts, page);
            release(parts, slot, index);
            st.put(page);
            Placed::Done
        }
    }
}

/// Frees a page that has the tag of page `index` of the mapping in a slot, a mapping of pages of its own that has ended.
/// The page's swap slot, if it has one, is free too. The page isn't locked.
pub fn tear_page<St: Storage>(
    parts: &mut Parts,
    st: &mut St,
    slot: u32,
    index: u32,
    page: u32,
) -> Placed
    requires { CanTear parts.old (St.view st.old) slot index page }
    ensures row { DoesAlone St.step (tear_page parts.old slot index page) st.old (parts.new, result) st.new }
    ensures none_held { (St.view st.new).held ≡ None }
    ensures answer { TearAnswer parts.old slot index page (St.view st.old) parts.new result (St.view st.new) }
{
    run_tear_page(parts, st, slot, index, page)
}
