use crate::command::Op;
use crate::event::Event;
use crate::items::Items;

/// The most guests of a scenario; a guest's number is below it. This limit and those below are this project's own.
pub const MAX_GUESTS: u32 = 16;

/// The most processors of a guest; a processor's number is below it.
pub const MAX_CPUS: u32 = 8;

/// A process's number is below it.
pub const MAX_PROCESSES: u32 = 8;

/// The most threads by which a host reclaims.
pub const MAX_RECLAIMERS: u32 = 8;

/// The most pages of one guest.
pub const MAX_GUEST_PAGES: u32 = 4096;

/// The most pages of all guests together.
pub const MAX_TOTAL_PAGES: u32 = 65_536;

/// The most frames of a host.
pub const MAX_FRAMES: u32 = 65_536;

/// The most file pages and swap slots of all guests together.
pub const MAX_TOTAL_BLOCKS: u32 = 65_536;

/// The most pages of one file.
pub const MAX_FILE_PAGES: u32 = 1024;

/// The most live mappings of a guest.
pub const MAX_LIVE_MAPPINGS: u32 = 256;

/// The mapping slots of a guest: the live ones, and one for each processor's teardown.
pub const MAX_MAPPING_SLOTS: u32 = 264;

/// The most commands of a processor.
pub const MAX_COMMANDS: u32 = 10_000;

/// The most events of a schedule.
pub const MAX_EVENTS: u32 = 1_000_000;

/// The most numbers in one list of planned failing calls.
pub const MAX_FAILS: u32 = 1000;

/// A file of whole pages: its head, followed by zeros.
#[derive(Debug, Drop)]
pub struct FilePlan {
    pub pages: u32,
    pub head: Items<u8>,
}

/// A processor: the process that it runs in, and its commands in order.
#[derive(Debug, Drop)]
pub struct CpuPlan {
    pub process: u32,
    pub commands: Items<Op>,
}

/// A guest: how many pages it believes to have, its swap slots and files, which calls on its disk and on the
/// pager that its turns use fail (numbered from 1), and its processors.
#[derive(Debug, Drop)]
pub struct GuestPlan {
    pub pages: u32,
    pub swap: u32,
    pub files: Items<FilePlan>,
    pub disk_fail: Items<u32>,
    pub pager_fail: Items<u32>,
    pub cpus: Items<CpuPlan>,
}

/// A whole scenario: the host's frames and reclaimers, the guests, and the schedule. `pager_fail` has the numbers of
/// the calls that fail, from 1, on the host's own pager and on each reclaimer's.
#[derive(Debug, Drop)]
pub struct Scenario {
    pub frames: u32,
    pub reclaimers: u32,
    pub pager_fail: Items<u32>,
    pub guests: Items<GuestPlan>,
    pub schedule: Items<Event>,
}
