//! Guests whose processors are threads, each guest under a lock of its own, beside reclaimers of their host.
#![tactic(auto)]

mod closing;
mod ended;
mod group;
mod groups;
mod kernel;
mod machine;
mod named;
mod open;
mod opening;
mod reclaimer;

pub use kernel::Kernel;
pub use machine::{Machine, run_all};
