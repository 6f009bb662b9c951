ghost use Rattle.std.specs.Prelude.{◌≡◌};
ghost use Rattle.guest_rules.specs.Hint.{can_be_fetched_again, hint};

use cmm_types::Usage;
use guest_pages::PageInfo;

/// Whether the page's contents are those of its tag's block, and nobody relies on the page.
fn can_be_fetched_again(info: &PageInfo) -> bool
    ensures { result ≡ can_be_fetched_again info.now }
{
    info.uptodate && !info.dirty && info.owner.is_none() && info.pins == 0
}

/// The usage that the host is to be told, from what the guest knows of the page.
#[tactic(auto, unfolding(guest_rules::specs::Hint::hint))]
pub fn hint_of(info: &PageInfo) -> Usage
    ensures { result ≡ hint info.now }
{
    if info.tag.is_none() {
        Usage::U
    } else if !can_be_fetched_again(info) {
        Usage::S
    } else if info.writers == 0 {
        Usage::V
    } else {
        Usage::P
    }
}
