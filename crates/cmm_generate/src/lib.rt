//! Generates a scenario from a number, and writes a scenario as JSON.
#![tactic(auto)]

mod commands;
mod events;
mod laws;
mod numbers;
mod plan;
mod spelling;
mod text;
mod trees;

pub use laws::generated_scenarios;
pub use plan::generate;
pub use text::scenario_text;

#[cfg(test)]
mod tests;
