//! Output that is gathered: a sink that keeps what is written to it, and hands it to a writer many lines at a time.
#![tactic(auto)]

mod output;
#[cfg(test)]
mod tests;

pub use output::{Output, ROOM};
