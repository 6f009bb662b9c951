//! A world plays a scenario: its guests, their disks, and the one host that has their pages.
#![tactic(auto)]

mod open;
#[cfg(test)]
mod tests;
mod world;

pub use world::World;
