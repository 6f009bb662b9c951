ghost use Rattle.std.specs.Prelude.{◌≡◌, length, None, Some, true};
ghost use Rattle.cmm_storage.specs.StorageCall.{Fetch};
ghost use Rattle.cmm_storage.specs.Program.{DoesAlone};
ghost use Rattle.guest_rules.specs.Rows.{missed_by, read_page};
ghost use Rattle.guest_rules.specs.Calls.{CanTake, IsInPage};
ghost use Rattle.guest_rules.specs.Answers.{HasBeenFilled, ReadAnswer};

use cmm_storage::{Busy, Storage, Trap};
use cmm_types::{Bytes64, Cause, MAX_BYTES, Why};
use guest_hint::{make_stable, rehint};
use guest_rules::{Missed, Parts};

/// Why the bytes of a page that was made stable weren't reached: it isn't discarded, so `Discarded` doesn't come.
pub(crate) fn missed_by(trap: Trap) -> Missed
    ensures { result ≡ missed_by trap }
{
    match trap {
        Trap::Discarded | Trap::Paging => Missed::Fail(Cause::Paging),
        Trap::NoFrame { looks } => Missed::Again {
            why: Why::NoFrame { looks },
        },
    }
}

/// Up to 64 bytes of the held page, which was touched.
pub(crate) fn fetch<St: Storage>(st: &mut St, page: u32, off: u32, len: u32) -> Bytes64
    requires held { (St.view st.old).held ≡ Some page }
    requires touched { (St.view st.old).touched ≡ true }
    requires bytes { IsInPage off len }
    ensures size { length result ≡ len }
    ensures step { St.step st.old (Fetch page off result) st.new }
    ensures held { (St.view st.new).held ≡ Some page }
{
    let mut room = [0u8; MAX_BYTES];
    let into = &mut room[..len as usize];
    st.fetch(page, off as usize, into);
    Bytes64::from_slice(into).unwrap()
}

/// The read, as its program says.
#[tactic(auto, using(cmm_storage::specs::Runs::runs), unfolding(guest_rules::specs::Rows::read_page))]
fn run_read_page<St: Storage>(
    parts: &mut Parts,
    st: &mut St,
    page: u32,
    off: u32,
    len: u32,
) -> Result<Bytes64, Missed>
    requires takes { CanTake parts.old (St.view st.old) page }
    requires bytes { IsInPage off len }
    ensures row { DoesAlone St.step (read_page parts.old page off len) st.old (parts.new, result) st.new }
    ensures none_held { (St.view st.new).held ≡ None }
{
    match st.take(page) {
        Err(Busy { word }) => Err(Missed::Again {
            why: Why::Busy { page, word },
        }),
        Ok(()) => match make_stable(parts, st, page) {
            Err(_) => {
                st.put(page);
                Err(Missed::Gone)
            }
            Ok(()) => match st.touch(page) {
                Err(trap) => {
                    rehint(parts, st, page);
                    st.put(page);
                    Err(missed_by(trap))
                }
                Ok(()) => {
                    let bytes = fetch(st, page, off, len);
                    rehint(parts, st, page);
                    st.put(page);
                    Ok(bytes)
                }
            },
        },
    }
}

/// Reads up to 64 bytes of a page that has a tag and isn't locked, from `off` on. All of them lie in the page.
pub fn read_page<St: Storage>(
    parts: &mut Parts,
    st: &mut St,
    page: u32,
    off: u32,
    len: u32,
) -> Result<Bytes64, Missed>
    requires takes { CanTake parts.old (St.view st.old) page }
    requires bytes { IsInPage off len }
    ensures row { DoesAlone St.step (read_page parts.old page off len) st.old (parts.new, result) st.new }
    ensures none_held { (St.view st.new).held ≡ None }
    ensures answer { HasBeenFilled parts.old page (St.view st.old) → ReadAnswer parts.old page off len (St.view st.old) parts.new result (St.view st.new) }
{
    run_read_page(parts, st, page, off, len)
}
