/// What a processor does in its next turn.
#[derive(Clone, Copy, Debug, PartialEq, Eq)]
pub enum Phase {
    /// It looks at its command.
    Start,
    /// It fills a page that it has locked.
    Fill { page: u32 },
    /// It writes a page back that it has locked, to make room for its command's page.
    Room { page: u32 },
    /// Its sync looks at page `index` of the file.
    Sync { index: u32 },
    /// Its sync writes page `index` of the file back from a page that it has locked.
    SyncWrite { index: u32, page: u32 },
    /// Its unmap, which has been answered, takes page `index` off the mapping that was in a slot.
    Teardown { slot: u32, index: u32 },
}

/// Where a processor is.
#[derive(Clone, Copy, Debug, PartialEq, Eq)]
pub struct Processor {
    /// The number of its current command; the commands before it are finished. Only an unmap is answered before it is.
    pub place: u32,
    pub phase: Phase,
}
