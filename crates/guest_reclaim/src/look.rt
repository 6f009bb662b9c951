// Which page of a guest goes, where none is free.
ghost use Rattle.std.specs.Prelude.{◌≡◌, ◌<◌, ◌-◌, length, find, IfSome};
ghost use Rattle.std.specs.List.{range_with_len};
ghost use Rattle.guest_pages.specs.PagesView.{info_at};
ghost use Rattle.guest_cache.specs.CacheView.{IsTag};
ghost use Rattle.guest_rules.specs.MakeRoom.{lacks_block, is_unslotted, is_pinned, is_locked, can_go, first_from, pinned_count};
ghost use Rattle.guest_reclaim.specs.Sought.{passes, HasTags};

use cmm_types::Tag;
use guest_cache::Cache;
use guest_pages::PageInfo;
use guest_rules::Parts;

/// What a look is for.
#[derive(Clone, Copy, Debug, PartialEq, Eq)]
pub enum Sought {
    /// A page that can go.
    Movable,
    /// A page that a processor has locked.
    Locked,
}

/// Whether no block of the disk is behind the tag, nor is there a swap slot for it.
fn lacks_block(cache: &Cache, tag: Option<Tag>) -> bool
    requires { IfSome tag (λ tag. IsTag cache.now tag) }
    ensures { result ≡ lacks_block cache.now tag }
{
    match tag {
        None => false,
        Some(tag) => cache.backing(tag).is_none() && cache.least_free().is_none(),
    }
}

/// Whether the page is dirty, and its bytes can be written nowhere.
fn is_unslotted(parts: &Parts, info: &PageInfo) -> bool
    requires { IfSome info.now.tag (λ tag. IsTag parts.now.cache tag) }
    ensures { result ≡ is_unslotted parts.now info.now }
{
    info.dirty && lacks_block(&parts.cache, info.tag)
}

fn is_pinned(info: &PageInfo) -> bool
    ensures { result ≡ is_pinned info.now }
{
    info.pins != 0
}

fn is_locked(info: &PageInfo) -> bool
    ensures { result ≡ is_locked info.now }
{
    info.owner.is_some()
}

/// Whether the page isn't free, locked or pinned, and its bytes can be written where they have to be.
fn can_go(parts: &Parts, info: &PageInfo) -> bool
    requires { IfSome info.now.tag (λ tag. IsTag parts.now.cache tag) }
    ensures { result ≡ can_go parts.now info.now }
{
    info.tag.is_some() && !is_locked(info) && !is_pinned(info) && !is_unslotted(parts, info)
}

/// Whether a page is one that is sought.
fn passes(parts: &Parts, sought: Sought, page: u32) -> bool
    requires page { page < length parts.now.pages.infos }
    requires tags { HasTags parts.now }
    ensures { result ≡ passes parts.now sought (info_at parts.now.pages page) }
{
    let info = parts.pages.info(page);
    match sought {
        Sought::Movable => can_go(parts, &info),
        Sought::Locked => is_locked(&info),
    }
}

/// The first page of `start` and those behind it that is sought.
fn first_behind(parts: &Parts, sought: Sought, start: u32) -> Option<u32>
    requires tags { HasTags parts.now }
    ensures { result ≡ find (λ page. passes parts.now sought (info_at parts.now.pages page)) (range_with_len start (length parts.now.pages.infos - start)) }
{
    for page in start..parts.pages.count() {
        if passes(parts, sought, page) {
            return Some(page);
        }
    }
    None
}

/// The first page that is sought: from the hand on, or else of all.
pub fn first_from(parts: &Parts, sought: Sought) -> Option<u32>
    requires { HasTags parts.now }
    ensures { result ≡ first_from parts.now (passes parts.now sought) }
{
    match first_behind(parts, sought, parts.hand) {
        Some(page) => Some(page),
        None => first_behind(parts, sought, 0),
    }
}

/// How many pages are pinned.
pub fn pinned_count(parts: &Parts) -> u32
    ensures { result ≡ pinned_count parts.now }
{
    let mut pinned = 0;
    for page in 0..parts.pages.count() {
        if is_pinned(&parts.pages.info(page)) {
            pinned += 1;
        }
    }
    pinned
}
