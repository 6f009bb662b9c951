use cmm_types::{Cause, Why};

/// The held page was discarded. Its handler has freed it.
#[derive(Clone, Copy, Debug, PartialEq, Eq)]
pub struct Gone;

/// What became of a page that was to be filled.
#[derive(Clone, Copy, Debug, PartialEq, Eq)]
pub enum Filled {
    /// The page has its bytes, and isn't locked any more.
    Done,
    /// The turn has to be taken again. The page is still locked.
    Again { why: Why },
    /// The page is free again.
    Fail(Cause),
}

/// Why a page's bytes weren't reached.
#[derive(Clone, Copy, Debug, PartialEq, Eq)]
pub enum Missed {
    /// The page had been discarded, and is free now.
    Gone,
    /// The turn has to be taken again.
    Again { why: Why },
    /// The pager failed.
    Fail(Cause),
}

/// What became of a place: its entry was to be set, or it was to be pinned or unpinned. Nothing of the page is touched,
/// so this never fails.
#[derive(Clone, Copy, Debug, PartialEq, Eq)]
pub enum Placed {
    /// The place is as it was to be.
    Done,
    /// The page had been discarded, and is free now.
    Gone,
    /// The turn has to be taken again.
    Again { why: Why },
}

/// What became of a page that a sync looked at.
#[derive(Clone, Copy, Debug, PartialEq, Eq)]
pub enum Synced {
    /// The page's block has its bytes.
    Clean,
    /// The page is dirty. It is locked by the processor, to be written back.
    Locked,
    /// The page had been discarded, and is free now. Its block has its bytes.
    Gone,
    /// Another processor has locked the page.
    Waits { owner: u32 },
    /// The turn has to be taken again.
    Again { why: Why },
}

/// What became of a page that was to make room.
#[derive(Clone, Copy, Debug, PartialEq, Eq)]
pub enum Room {
    /// One page more is free now.
    Freed,
    /// The page that is to go is dirty. It is locked by the processor, to be written back.
    Locked { page: u32 },
    /// No page can go, and of those that are locked this is the next. Another processor has locked it.
    Waits { page: u32, owner: u32 },
    /// No page can go and none is locked: so many are pinned, and all others hold bytes for which there is no swap slot.
    NoPage { pinned: u32, unslotted: u32 },
    /// The turn has to be taken again.
    Again { why: Why },
}
