//! Reads a scenario from JSON.
#![tactic(auto)]

mod borrowed;
mod commands;
mod error;
mod events;
mod fault;
mod guests;
mod laws;
mod path;
mod scenario;
mod tree;
mod words;

pub use error::ScenarioError;
pub use fault::Kind;
pub use laws::{
    bytes_read_back, commands_read_back, events_read_back, numbers_read_back, worked_spellings,
};
pub use path::Path;
pub use scenario::read_scenario;

#[cfg(test)]
mod tests;
