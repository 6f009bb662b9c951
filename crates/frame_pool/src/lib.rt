//! The free frames of a host, shared by threads. A frame is in the pool or in one loan.
#![tactic(auto)]

mod closing;
mod laws;
mod opening;
mod pool;
mod rule;
mod steps;
mod view;

pub use laws::{dry_found_all, in_or_out, no_spare};
pub use pool::{Loan, NoPool, Pool, PoolMark, PoolSeat};

#[cfg(test)]
mod tests;
