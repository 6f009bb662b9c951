//! The command lines of the program.
#![tactic(auto)]

mod line;
mod words;

pub use line::{Line, MAX_SIZE, MIN_SIZE, begins_run, line_of};

#[cfg(test)]
mod tests;
