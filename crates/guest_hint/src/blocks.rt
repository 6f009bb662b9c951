ghost use Rattle.std.specs.Prelude.{◌≡◌, ◌<◌, length, IfSome};
ghost use Rattle.guest_pages.specs.PagesView.{info_at};
ghost use Rattle.guest_cache.specs.CacheView.{IsTag};
ghost use Rattle.guest_rules.specs.Rows.{backing_at};

use guest_rules::Parts;

/// The block that the page's tag is read from and written to.
pub fn backing(parts: &Parts, page: u32) -> Option<u32>
    requires page { page < length parts.now.pages.infos }
    requires tag { IfSome (info_at parts.now.pages page).tag (λ tag. IsTag parts.now.cache tag) }
    ensures { result ≡ backing_at parts.now page }
{
    match parts.pages.info(page).tag {
        None => None,
        Some(tag) => parts.cache.backing(tag),
    }
}
