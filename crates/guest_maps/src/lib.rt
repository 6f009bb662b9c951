//! A guest's mapping slots, the entries of their pages, and which places of them are pinned.
#![tactic(auto)]

mod entries;
mod maps;
mod pins;
mod slot;
mod slots;
#[cfg(test)]
mod tests;

pub use maps::Maps;
pub use slot::{Pte, Shown, Slot, Spot};
