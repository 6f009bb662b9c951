//! The flat machine: files and mappings as plain bytes, of which nothing is ever discarded. What a guest's
//! processors are answered is measured by it.
#![tactic(auto)]

mod contents;
mod flat;
mod laws;
mod mapping;
mod mappings;
mod pins;
mod refusals;
#[cfg(test)]
mod tests;

pub use contents::Contents;
pub use flat::Flat;
pub use laws::{
    entries_are_of_commands, entry_takes_its_number, failure_leaves_state, flat_never_fails,
    journal_grows, ranges_apart, refusals_depend_on_lengths, steps_stay_sound,
    sums_change_at_one_key, worked_journals,
};
pub use mapping::{Mapping, MappingKey, Shown};
pub use mappings::Mappings;
pub use pins::Pins;
pub use std::alloc::AllocError as NoMemory;
