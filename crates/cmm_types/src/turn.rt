/// Why a turn has to be taken again.
#[derive(Clone, Copy, Debug, PartialEq, Eq)]
pub enum Why {
    /// The page was held by somebody else. `word` is the state word that was found.
    Busy { page: u32, word: u64 },
    /// No frame was free, and `looks` looks at other pages freed none.
    NoFrame { looks: u64 },
}

/// What became of one turn of a processor.
#[derive(Clone, Copy, Debug, PartialEq, Eq)]
pub enum Turn {
    /// The command went on and isn't finished.
    Moved,
    /// The command has its reply.
    Finished,
    /// The page is locked by processor `owner`. Nothing changed.
    Waits { page: u32, owner: u32 },
    /// The turn couldn't be done now.
    Again { why: Why },
    /// The processor has no command left.
    Idle,
}

/// What became of a processor's turns up to the first that didn't answer `Moved`. `turns` counts those that
/// moved, and the one that finished.
#[derive(Clone, Copy, Debug, PartialEq, Eq)]
pub enum Alone {
    /// The command has its reply.
    Finished { turns: u32 },
    /// The page is locked by processor `owner`.
    Waits { turns: u32, page: u32, owner: u32 },
    /// The processor has no command left.
    Idle,
}
