// The setting of a mapping's entries.
ghost use Rattle.std.specs.Prelude.{◌≡◌, ◌+◌, ◌<◌, ◌^◌, length, None};
ghost use Rattle.cmm_storage.specs.Program.{DoesAlone};
ghost use Rattle.guest_rules.specs.Rows.{is_anonymous, shown_info, mapped, resolve};
ghost use Rattle.guest_rules.specs.Calls.{IsInUse, CanTake, CanMap};
ghost use Rattle.guest_rules.specs.Answers.{HasBeenFilled, ResolveAnswer};

use cmm_storage::{Busy, Storage};
use cmm_types::{Tag, Why};
use guest_hint::{make_stable, rehint};
use guest_maps::Pte;
use guest_pages::PageInfo;
use guest_rules::{Parts, Placed};

/// Whether a tag is that of a page of a mapping's own, which no file backs.
fn is_anonymous(tag: Option<Tag>) -> bool
    ensures { result ≡ is_anonymous tag }
{
    match tag {
        None => false,
        Some(Tag::File { file: _, index: _ }) => false,
        Some(Tag::Anon { slot: _, index: _ }) => true,
    }
}

/// What is known of a page that one more entry shows. Where stores may go through it, the page has one writer more, and
/// an anonymous page is dirty.
fn shown_info(info: &PageInfo, writable: bool) -> PageInfo
    requires { info.now.writers + 1 < 2 ^ 32 }
    ensures { result ≡ shown_info info.now writable }
{
    PageInfo {
        writers: info.writers + u32::from(writable),
        dirty: info.dirty || (writable && is_anonymous(info.tag)),
        ..*info
    }
}

/// Lets the entry of a mapping's page show the guest's page.
#[tactic(auto, unfolding(guest_rules::specs::Rows::mapped))]
fn map_entry(parts: &mut Parts, page: u32, slot: u32, index: u32, writable: bool)
    requires in_use { IsInUse parts.old page }
    requires map { CanMap parts.old page slot index }
    ensures value { parts.new ≡ mapped parts.old page slot index writable }
    ensures count { length parts.new.pages.infos ≡ length parts.old.pages.infos }
{
    let info = shown_info(&parts.pages.info(page), writable);
    parts.pages.set_info(page, info);
    parts.maps.set(slot, index, Pte { page, writable });
}

/// The setting of the entry, as its program says.
#[tactic(auto, using(cmm_storage::specs::Runs::runs), unfolding(guest_rules::specs::Rows::resolve))]
fn run_resolve<St: Storage>(
    parts: &mut Parts,
    st: &mut St,
    page: u32,
    slot: u32,
    index: u32,
    writable: bool,
) -> Placed
    requires takes { CanTake parts.old (St.view st.old) page }
    requires map { CanMap parts.old page slot index }
    ensures row { DoesAlone St.step (resolve parts.old page slot index writable) st.old (parts.new, result) st.new }
    ensures none_held { (St.view st.new).held ≡ None }
{
    match st.take(page) {
        Err(Busy { word }) => Placed::Again {
            why: Why::Busy { page, word },
        },
        Ok(()) => match make_stable(parts, st, page) {
            Err(_) => {
                st.put(page);
                Placed::Gone
            }
            Ok(()) => {
                map_entry(parts, page, slot, index, writable);
                rehint(parts, st, page);
                st.put(page);
                Placed::Done
            }
        },
    }
}

/// Sets the entry of page `index` of the mapping in a slot, so that it shows a page with that tag, which isn't
/// locked. There was none, or none that could be stored through.
pub fn resolve<St: Storage>(
    parts: &mut Parts,
    st: &mut St,
    page: u32,
    slot: u32,
    index: u32,
    writable: bool,
) -> Placed
    requires takes { CanTake parts.old (St.view st.old) page }
    requires map { CanMap parts.old page slot index }
    ensures row { DoesAlone St.step (resolve parts.old page slot index writable) st.old (parts.new, result) st.new }
    ensures none_held { (St.view st.new).held ≡ None }
    ensures answer { HasBeenFilled parts.old page (St.view st.old) → ResolveAnswer parts.old page slot index writable (St.view st.old) parts.new result (St.view st.new) }
{
    run_resolve(parts, st, page, slot, index, writable)
}
