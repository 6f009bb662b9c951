/// The bytes of a page, of a frame, of a disk block and of a paging block. (An s390 page.)
pub const PAGE: usize = 4096;

/// What a guest says of a page's contents: whether it needs them, and whether it could fetch them again.
#[derive(Clone, Copy, Debug, PartialEq, Eq)]
pub enum Usage {
    /// Stable: the contents are essential.
    S,
    /// Unused: the contents aren't needed.
    U,
    /// Potentially volatile: the contents may be discarded only while the page is unchanged.
    P,
    /// Volatile: the contents may be discarded at any time.
    V,
}

/// Where the host has a page's contents.
#[derive(Clone, Copy, Debug, PartialEq, Eq)]
pub enum Content {
    /// In a frame.
    Resident,
    /// In the page's block of the paging store.
    Preserved,
    /// Nowhere: a stable page reads as zeros, a volatile or potentially volatile one is discarded.
    Zero,
}

/// What a guest's page is a copy of.
#[derive(Clone, Copy, Debug, PartialEq, Eq)]
pub enum Tag {
    /// Page `index` of a file.
    File { file: u32, index: u32 },
    /// Page `index` of the anonymous mapping in a mapping slot.
    Anon { slot: u32, index: u32 },
}

/// What the host does to a page that nobody holds.
#[derive(Clone, Copy, Debug, PartialEq, Eq)]
pub enum Move {
    /// Drops the contents.
    Discard,
    /// Puts the contents into the paging store.
    Preserve,
    /// Gets the contents back from the paging store.
    Bring,
    /// Clears the reference bit.
    Age,
}

/// Why a host move isn't made.
#[derive(Clone, Copy, Debug, PartialEq, Eq)]
pub enum Refused {
    /// The page is stable.
    Stable,
    /// The page is potentially volatile and was changed.
    Changed,
    /// The contents aren't where the move takes them from.
    Absent,
    /// The page may be discarded, so it isn't preserved.
    Volatile,
    /// The page's count of discards is at its end.
    Counted,
}
