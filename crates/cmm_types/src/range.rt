ghost use Rattle.std.specs.Prelude.{◌≡◌, ◌+◌, ◌^◌, ◌<◌, ◌≤◌, ◌↔◌, length, sum_by, All, IsTrue};
ghost use Rattle.cmm_types.specs.InRange.{IsPiece, ArePages, OpInRange, FileInRange, CpuInRange, FailsInRange, FilesInRange, CpusInRange, GuestInRange, GuestsInRange, EventInRange, ScenarioInRange, file_pages_of, blocks_of, guest_pages_of, guest_blocks_of};

use crate::bytes::MAX_BYTES;
use crate::command::{MAX_FILES, MAX_MAPPING_NUMBERS, MAX_MAPPING_PAGES, MAX_OFFSETS, Op};
use crate::event::{Event, MAX_RECLAIM};
use crate::page::PAGE;
use crate::plan::{
    CpuPlan, FilePlan, GuestPlan, MAX_COMMANDS, MAX_CPUS, MAX_EVENTS, MAX_FAILS, MAX_FILE_PAGES,
    MAX_FRAMES, MAX_GUEST_PAGES, MAX_GUESTS, MAX_PROCESSES, MAX_RECLAIMERS, MAX_TOTAL_BLOCKS,
    MAX_TOTAL_PAGES, Scenario,
};

fn is_piece(off: u32, len: usize) -> bool
    ensures { IsTrue result ↔ IsPiece off len }
{
    off < MAX_OFFSETS && 1 <= len && len <= MAX_BYTES && off as usize % PAGE + len <= PAGE
}

fn are_pages(first: u32, count: u32) -> bool
    ensures { IsTrue result ↔ ArePages first count }
{
    first < MAX_MAPPING_PAGES && 1 <= count && count <= MAX_MAPPING_PAGES
}

impl Op {
    /// Whether every number of the command is within the range of the command set.
    pub fn is_in_range(&self) -> bool
        ensures { IsTrue result ↔ OpInRange self.now }
    {
        match self {
            Op::Read { file, off, len } => *file < MAX_FILES && is_piece(*off, *len as usize),
            Op::Write { file, off, bytes } => *file < MAX_FILES && is_piece(*off, bytes.len()),
            Op::Sync { file } => *file < MAX_FILES,
            Op::MapFile {
                map,
                file,
                first,
                count,
                writable: _,
            } => { *map < MAX_MAPPING_NUMBERS && *file < MAX_FILES && are_pages(*first, *count) }
            Op::MapAnon { map, count } => *map < MAX_MAPPING_NUMBERS && are_pages(0, *count),
            Op::Unmap { map } => *map < MAX_MAPPING_NUMBERS,
            Op::Load { map, off, len } => {
                *map < MAX_MAPPING_NUMBERS && is_piece(*off, *len as usize)
            }
            Op::Store { map, off, bytes } => {
                *map < MAX_MAPPING_NUMBERS && is_piece(*off, bytes.len())
            }
            Op::Pin { map, page } | Op::Unpin { map, page } => {
                *map < MAX_MAPPING_NUMBERS && *page < MAX_MAPPING_PAGES
            }
        }
    }
}

impl FilePlan {
    pub fn is_in_range(&self) -> bool
        ensures { IsTrue result ↔ FileInRange self.now }
    {
        1 <= self.pages
            && self.pages <= MAX_FILE_PAGES
            && self.head.len() <= PAGE * self.pages as usize
    }
}

impl CpuPlan {
    pub fn is_in_range(&self) -> bool
        ensures { IsTrue result ↔ CpuInRange self.now }
    {
        self.process < MAX_PROCESSES
            && self.commands.len() <= MAX_COMMANDS as usize
            && self.commands.as_slice().iter().all(Op::is_in_range)
    }
}

fn fails_in_range(numbers: &[u32]) -> bool
    ensures { IsTrue result ↔ FailsInRange numbers.now }
{
    numbers.len() <= MAX_FAILS as usize && numbers.iter().all(|n| 1 <= *n)
}

fn files_in_range(files: &[FilePlan]) -> bool
    ensures { IsTrue result ↔ FilesInRange files.now }
{
    files.len() <= MAX_FILES as usize && files.iter().all(FilePlan::is_in_range)
}

fn cpus_in_range(cpus: &[CpuPlan]) -> bool
    ensures { IsTrue result ↔ CpusInRange cpus.now }
{
    1 <= cpus.len() && cpus.len() <= MAX_CPUS as usize && cpus.iter().all(CpuPlan::is_in_range)
}

impl GuestPlan {
    pub fn is_in_range(&self) -> bool
        ensures { IsTrue result ↔ GuestInRange self.now }
    {
        1 <= self.pages
            && self.pages <= MAX_GUEST_PAGES
            && self.swap <= MAX_TOTAL_BLOCKS
            && files_in_range(self.files.as_slice())
            && fails_in_range(self.disk_fail.as_slice())
            && fails_in_range(self.pager_fail.as_slice())
            && cpus_in_range(self.cpus.as_slice())
    }

    /// The blocks of the guest's disk: its file pages, and behind them its swap slots.
    #[tactic(auto, using(crate::specs::Laws::RangeLaws::file_pages_bound))]
    pub fn blocks(&self) -> u32
        requires { GuestInRange self.now }
        ensures { result ≡ blocks_of self.now }
    {
        file_pages(self.files.as_slice()) + self.swap
    }
}

/// The pages of all files together.
pub fn file_pages(files: &[FilePlan]) -> u32
    requires { file_pages_of files.now < 2 ^ 32 }
    ensures { result ≡ file_pages_of files.now }
{
    files.iter().map(|file| file.pages).sum()
}

impl Event {
    /// Whether what the event names is there, among these guests.
    pub fn is_in_range(&self, guests: &[GuestPlan]) -> bool
        ensures { IsTrue result ↔ EventInRange guests.now self.now }
    {
        match self {
            Event::Cpu { guest, cpu } | Event::Alone { guest, cpu } => guests
                .get(*guest as usize)
                .is_some_and(|plan| (*cpu as usize) < plan.cpus.len()),
            Event::Host {
                guest,
                page,
                action: _,
            } => guests
                .get(*guest as usize)
                .is_some_and(|plan| *page < plan.pages),
            Event::Reclaim { count } => 1 <= *count && *count <= MAX_RECLAIM,
        }
    }
}

fn total_pages(guests: &[GuestPlan]) -> u32
    requires { guest_pages_of guests.now < 2 ^ 32 }
    ensures { result ≡ guest_pages_of guests.now }
{
    let mut pages = 0;
    for guest in guests {
        pages += guest.pages;
    }
    pages
}

fn total_blocks(guests: &[GuestPlan]) -> u32
    requires each { All GuestInRange guests.now }
    requires small { guest_blocks_of guests.now < 2 ^ 32 }
    ensures { result ≡ guest_blocks_of guests.now }
{
    let mut blocks = 0;
    for guest in guests {
        blocks += guest.blocks();
    }
    blocks
}

fn are_guests(guests: &[GuestPlan]) -> bool
    ensures { IsTrue result ↔ ((1 ≤ length guests.now) × (length guests.now ≤ MAX_GUESTS) × All GuestInRange guests.now) }
{
    1 <= guests.len()
        && guests.len() <= MAX_GUESTS as usize
        && guests.iter().all(GuestPlan::is_in_range)
}

#[tactic(auto, using(crate::specs::Laws::RangeLaws::guest_pages_bound, crate::specs::Laws::RangeLaws::guest_blocks_bound))]
fn guests_in_range(guests: &[GuestPlan]) -> bool
    ensures { IsTrue result ↔ GuestsInRange guests.now }
{
    are_guests(guests)
        && total_pages(guests) <= MAX_TOTAL_PAGES
        && total_blocks(guests) <= MAX_TOTAL_BLOCKS
}

impl Scenario {
    /// Whether the scenario is within all ranges and totals.
    pub fn is_in_range(&self) -> bool
        ensures { IsTrue result ↔ ScenarioInRange self.now }
    {
        let guests = self.guests.as_slice();
        1 <= self.frames
            && self.frames <= MAX_FRAMES
            && self.reclaimers <= MAX_RECLAIMERS
            && fails_in_range(self.pager_fail.as_slice())
            && guests_in_range(guests)
            && events_in_range(self.schedule.as_slice(), guests)
    }
}

fn events_in_range(events: &[Event], guests: &[GuestPlan]) -> bool
    ensures { IsTrue result ↔ ((length events.now ≤ MAX_EVENTS) × All (EventInRange guests.now) events.now) }
{
    events.len() <= MAX_EVENTS as usize && events.iter().all(|event| event.is_in_range(guests))
}
