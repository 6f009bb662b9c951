// Bytes that are written to a page.
ghost use Rattle.std.specs.Prelude.{◌≡◌, ◌≤◌, ◌+◌, length, None};
ghost use Rattle.cmm_types.specs.declared.page.TheConstants.{PAGE};
ghost use Rattle.cmm_storage.specs.Program.{DoesAlone};
ghost use Rattle.guest_rules.specs.Rows.{write_page};
ghost use Rattle.guest_rules.specs.Calls.{CanTake};
ghost use Rattle.guest_rules.specs.Answers.{HasBeenFilled, WriteAnswer};

use crate::read::missed_by;
use cmm_storage::{Busy, Storage};
use cmm_types::{Bytes64, Why};
use guest_hint::{make_stable, rehint};
use guest_rules::{Missed, Parts};

/// The write, as its program says.
#[tactic(auto, using(cmm_storage::specs::Runs::runs), unfolding(guest_rules::specs::Rows::write_page))]
fn run_write_page<St: Storage>(
    parts: &mut Parts,
    st: &mut St,
    page: u32,
    off: u32,
    from: &Bytes64,
) -> Result<(), Missed>
    requires takes { CanTake parts.old (St.view st.old) page }
    requires within { off + length from.now ≤ PAGE }
    ensures row { DoesAlone St.step (write_page parts.old page off from.now) st.old (parts.new, result) st.new }
    ensures none_held { (St.view st.new).held ≡ None }
{
    match st.take(page) {
        Err(Busy { word }) => Err(Missed::Again {
            why: Why::Busy { page, word },
        }),
        Ok(()) => match make_stable(parts, st, page) {
            Err(_) => {
                st.put(page);
                Err(Missed::Gone)
            }
            Ok(()) => match st.touch(page) {
                Err(trap) => {
                    rehint(parts, st, page);
                    st.put(page);
                    Err(missed_by(trap))
                }
                Ok(()) => {
                    st.store(page, off as usize, from.as_slice());
                    parts.pages.set_dirty(page, true);
                    rehint(parts, st, page);
                    st.put(page);
                    Ok(())
                }
            },
        },
    }
}

/// Writes up to 64 bytes to a page that has a tag and isn't locked, from `off` on. All of them lie in the page, which
/// is dirty then, and stays stable.
pub fn write_page<St: Storage>(
    parts: &mut Parts,
    st: &mut St,
    page: u32,
    off: u32,
    from: &Bytes64,
) -> Result<(), Missed>
    requires takes { CanTake parts.old (St.view st.old) page }
    requires within { off + length from.now ≤ PAGE }
    ensures row { DoesAlone St.step (write_page parts.old page off from.now) st.old (parts.new, result) st.new }
    ensures none_held { (St.view st.new).held ≡ None }
    ensures answer { HasBeenFilled parts.old page (St.view st.old) → WriteAnswer parts.old page off from.now (St.view st.old) parts.new result (St.view st.new) }
{
    run_write_page(parts, st, page, off, from)
}
