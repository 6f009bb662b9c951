//! A guest: its tables, its journal, and the turns of its processors.
#![tactic(auto)]

mod copies;
mod guest;
mod plans;
mod refusals;
#[cfg(test)]
mod tests;

pub use guest::Guest;
