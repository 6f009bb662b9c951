//! Machines that run: gates that hold threads, and what became of the guests' commands.
#![tactic(auto)]

#[cfg(test)]
mod crowd;
mod gates;
mod plans;
#[cfg(test)]
mod tests;

pub use gates::{Holding, Meeting};
pub use plans::{guest, processor, read, scenario};
