//! Judges a report: whether its journals are legal for a scenario, line by line.
#![tactic(auto)]

mod answers;
mod entries;
mod input;
mod journal;
mod judging;
mod laws;
mod lines;
mod reading;
mod verdict;
mod writing;

pub use answers::read_answer;
pub use entries::read_entry;
pub use input::split;
pub use judging::{InputError, MAX_CHECKED, MAX_SCENARIO, judge};
pub use laws::{accepted_reports_are_legal, legal_reports_are_accepted};
pub use std::alloc::AllocError as NoMemory;
pub use verdict::{Verdict, check};
pub use writing::write_verdict;

#[cfg(test)]
mod tests;
