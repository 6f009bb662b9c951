//! A guest's storage and reclaimers of its host at the same pages: the calls by themselves, and each in a thread.
#![tactic(auto)]

#[cfg(test)]
mod calls;
mod opening;
#[cfg(test)]
mod tests;
mod turns;

pub use opening::{Hosted, Left, bodies_of, close, open};
pub use turns::{Reclaimer, Seen, guest_turns, read, reclaim_by_two, reclaim_turns, write};
