use crate::page::{Move, Refused};
use crate::turn::{Alone, Turn};

/// The most pages that one `Reclaim` asks for.
pub const MAX_RECLAIM: u32 = 65_536;

/// A step of the schedule.
#[derive(Clone, Copy, Debug, PartialEq, Eq)]
pub enum Event {
    /// One turn of a processor.
    Cpu { guest: u32, cpu: u32 },
    /// Turns of a processor until one doesn't answer `Moved`.
    Alone { guest: u32, cpu: u32 },
    /// A host move on a page.
    Host { guest: u32, page: u32, action: Move },
    /// The host reclaims up to `count` frames.
    Reclaim { count: u32 },
}

/// What became of an event.
#[derive(Clone, Copy, Debug, PartialEq, Eq)]
pub enum Answer {
    /// Of one turn.
    Turn(Turn),
    /// Of the turns of a processor that went on alone.
    Alone(Alone),
    /// The host move was made.
    HostDone,
    /// The host move wasn't allowed, and nothing changed.
    HostRefused(Refused),
    /// A call on the host's own pager failed.
    HostPaging,
    /// `count` frames were reclaimed. `paging` says that a call on the host's own pager failed.
    Reclaimed { count: u32, paging: bool },
}
