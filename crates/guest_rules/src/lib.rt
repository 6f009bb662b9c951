//! The rules of a guest: its tables, what each turn of a processor does as a program of calls, and what stands between
//! any two turns.
#![tactic(auto)]

mod laws;
mod outcome;
mod parts;
mod processor;

pub use laws::{
    failed_commands_are_counted, host_leaves_guests_fit, pages_are_ready_between_turns,
};
pub use outcome::{Filled, Gone, Missed, Placed, Room, Synced};
pub use parts::Parts;
pub use processor::{Phase, Processor};
