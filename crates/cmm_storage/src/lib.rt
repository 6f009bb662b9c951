//! A guest's pages, which its host may discard between two holds: the calls by which the guest reaches them, and
//! programs of such calls and of calls of its disk, in which the guest's turns are written.
#![tactic(auto)]

mod laws;
mod noisy;
mod noisy_page;
mod storage;
#[cfg(test)]
mod tests;

pub use laws::{pages_stay_placed_in_a_hold, touches_of_resident_pages_succeed};
pub use noisy::{Noise, NoisyStorage};
pub use storage::{Busy, Storage, Trap};
