//! What every layer speaks of: pages and their tags, commands and replies, turns, events, and the plan of a
//! scenario, each with its range.
#![tactic(auto)]

mod bytes;
mod command;
mod event;
mod items;
mod page;
mod plan;
mod range;
#[cfg(test)]
mod tests;
mod turn;

pub use bytes::{Bytes64, MAX_BYTES};
pub use command::{
    Cause, Entry, FlatRefusal, MAX_FILES, MAX_MAPPING_NUMBERS, MAX_MAPPING_PAGES, MAX_OFFSETS, Op,
    Reply,
};
pub use event::{Answer, Event, MAX_RECLAIM};
pub use items::Items;
pub use page::{Content, Move, PAGE, Refused, Tag, Usage};
pub use plan::{
    CpuPlan, FilePlan, GuestPlan, MAX_COMMANDS, MAX_CPUS, MAX_EVENTS, MAX_FAILS, MAX_FILE_PAGES,
    MAX_FRAMES, MAX_GUEST_PAGES, MAX_GUESTS, MAX_LIVE_MAPPINGS, MAX_MAPPING_SLOTS, MAX_PROCESSES,
    MAX_RECLAIMERS, MAX_TOTAL_BLOCKS, MAX_TOTAL_PAGES, Scenario,
};
pub use range::file_pages;
pub use turn::{Alone, Turn, Why};
