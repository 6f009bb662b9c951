//! The program's calls: words and bytes in, a status and bytes out.
#![tactic(auto)]

mod demo;
mod fault;
mod generated;
mod input;
mod judging;
mod numbers;
mod playing;
mod program;
mod refusal;
mod replay;
mod report;
mod run;
mod run_report;
#[cfg(test)]
mod run_tests;
mod status;
#[cfg(test)]
mod tests;

pub use input::Input;
pub use program::{cmm2, cmm2_replay, cmm2_run};
pub use report::write_replay;
pub use run_report::write_run;
pub use status::Status;
