//! Which of a guest's pages has a tag, and which block of the guest's disk backs it.
#![tactic(auto)]

mod cache;
#[cfg(test)]
mod tests;

pub use cache::Cache;
