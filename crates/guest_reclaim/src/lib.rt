//! How a guest without a free page makes room: the first page that can go from its hand on is freed, or is locked to be
//! written back first.
#![tactic(auto)]

mod look;
mod room;
#[cfg(test)]
mod tests;

pub use room::make_room;
