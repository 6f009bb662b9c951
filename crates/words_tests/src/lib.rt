//! A guest and a reclaimer of its host at one page of the guest's words, each in a thread of its own.
#![tactic(auto)]

mod sheet;
#[cfg(test)]
mod tests;
mod turns;

pub use sheet::Sheet;
pub use turns::{guest_turns, reclaim_turns};
