use guest_cache::Cache;
use guest_maps::Maps;
use guest_pages::Pages;

/// The tables of a guest.
#[derive(Drop)]
pub struct Parts {
    /// What is known of each page, and which are free.
    pub pages: Pages,
    /// Which page has a tag.
    pub cache: Cache,
    /// What is mapped, and which entry shows which page.
    pub maps: Maps,
    /// Where the next look for a page that can make room begins.
    pub hand: u32,
    /// How many discarded pages were handled. The count stands still at its type's end.
    pub faults: u64,
}
