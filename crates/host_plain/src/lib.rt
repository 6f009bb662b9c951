//! The host of several guests on one thread. It has all their pages in one list, with the frames and the blocks of
//! the paging store; it serves one guest's storage at a time, and makes moves of its own between.
#![tactic(auto)]

mod bodies;
mod body;
mod host;
mod memory;
mod moves;
mod view;
mod words;

pub use host::Host;
pub use moves::{ApplyError, Reclaim};
pub use view::HostView;

#[cfg(test)]
mod tests;
#[cfg(test)]
mod words_tests;
