ghost use Rattle.std.specs.Prelude.{◌≡◌};

use crate::bytes::Bytes64;

/// The most files of a guest; a file's number is below it.
pub const MAX_FILES: u32 = 64;

/// A mapping's number is below it.
pub const MAX_MAPPING_NUMBERS: u32 = 256;

/// The most pages of one mapping; a page's index in its mapping, and in its file, is below it.
pub const MAX_MAPPING_PAGES: u32 = 1024;

/// An offset in a file or a mapping, in bytes, is below it.
pub const MAX_OFFSETS: u32 = 4_194_304;

/// A command of a guest's processor. Offsets and lengths are in bytes, `first`, `count` and `page` in pages.
/// A mapping's number `map` belongs to the processor's process. The bytes that a command reaches lie in one page.
#[derive(Debug, PartialEq, Eq, Drop)]
pub enum Op {
    /// Reads bytes of a file.
    Read {
        file: u32,
        off: u32,
        len: u32,
    },
    /// Writes bytes of a file.
    Write {
        file: u32,
        off: u32,
        bytes: Bytes64,
    },
    /// Writes a file's changed pages to the disk.
    Sync {
        file: u32,
    },
    /// Maps `count` pages of a file, from page `first` on.
    MapFile {
        map: u32,
        file: u32,
        first: u32,
        count: u32,
        writable: bool,
    },
    /// Maps `count` pages of zeros, which are the mapping's own.
    MapAnon {
        map: u32,
        count: u32,
    },
    /// Ends a mapping.
    Unmap {
        map: u32,
    },
    /// Reads bytes through a mapping.
    Load {
        map: u32,
        off: u32,
        len: u32,
    },
    /// Writes bytes through a mapping.
    Store {
        map: u32,
        off: u32,
        bytes: Bytes64,
    },
    /// Keeps a page of a mapping in memory.
    Pin {
        map: u32,
        page: u32,
    },
    /// Ends that.
    Unpin {
        map: u32,
        page: u32,
    },
}

/// Why the flat machine refuses a command.
#[derive(Clone, Copy, Debug, PartialEq, Eq)]
pub enum FlatRefusal {
    /// The process has no live mapping of that number.
    NoMapping,
    /// The process has a live mapping of that number.
    AlreadyMapped,
    /// There is no such file, or the range isn't within the file or the mapping.
    OutOfRange,
    /// The mapping is read only.
    ReadOnly,
    /// A page that the command names is pinned.
    Pinned,
    /// The page isn't pinned.
    NotPinned,
    /// The guest has 256 live mappings.
    TooManyMaps,
}

/// Why a command that the flat machine does wasn't done.
#[derive(Clone, Copy, Debug, PartialEq, Eq)]
pub enum Cause {
    /// A call on the guest's disk failed.
    Disk,
    /// A call on the guest's pager failed.
    Paging,
    /// No page could be made free: so many are pinned, and so many others are dirty, anonymous and without a
    /// swap slot while no slot is free.
    NoPage { pinned: u32, unslotted: u32 },
}

/// What a command is answered.
#[derive(Debug, PartialEq, Eq, Drop)]
pub enum Reply {
    Done,
    /// The bytes that were read.
    Bytes(Bytes64),
    Refused(FlatRefusal),
    Fail(Cause),
}

/// A line of a guest's journal: command number `k` of processor `cpu`, and its reply.
#[derive(Debug, PartialEq, Eq, Drop)]
pub struct Entry {
    pub cpu: u32,
    pub k: u32,
    pub op: Op,
    pub reply: Reply,
}

impl Op {
    /// The same command again. It takes no memory.
    pub fn copy(&self) -> Op
        ensures { result ≡ self.now }
    {
        match self {
            Op::Read { file, off, len } => Op::Read {
                file: *file,
                off: *off,
                len: *len,
            },
            Op::Write { file, off, bytes } => Op::Write {
                file: *file,
                off: *off,
                bytes: bytes.copy(),
            },
            Op::Sync { file } => Op::Sync { file: *file },
            Op::MapFile {
                map,
                file,
                first,
                count,
                writable,
            } => Op::MapFile {
                map: *map,
                file: *file,
                first: *first,
                count: *count,
                writable: *writable,
            },
            Op::MapAnon { map, count } => Op::MapAnon {
                map: *map,
                count: *count,
            },
            Op::Unmap { map } => Op::Unmap { map: *map },
            Op::Load { map, off, len } => Op::Load {
                map: *map,
                off: *off,
                len: *len,
            },
            Op::Store { map, off, bytes } => Op::Store {
                map: *map,
                off: *off,
                bytes: bytes.copy(),
            },
            Op::Pin { map, page } => Op::Pin {
                map: *map,
                page: *page,
            },
            Op::Unpin { map, page } => Op::Unpin {
                map: *map,
                page: *page,
            },
        }
    }
}
