use cmm_types::Tag;

/// What a guest knows of one of its pages.
#[derive(Clone, Copy, Debug, PartialEq, Eq)]
pub struct PageInfo {
    /// What the page is a copy of; a page without a tag is free.
    pub tag: Option<Tag>,
    /// The page has been filled.
    pub uptodate: bool,
    /// The page may differ from what its tag's block has.
    pub dirty: bool,
    /// The processor that has the page locked.
    pub owner: Option<u32>,
    /// How many mapping pages that show it are pinned.
    pub pins: u32,
    /// How many writable entries show it.
    pub writers: u32,
}
