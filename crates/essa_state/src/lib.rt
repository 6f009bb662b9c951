//! What the host keeps of a page in one number, the orders by which a guest tells what it needs of the page, and
//! the moves that the host may make.
//!
//! After Schwidefsky and others, "Collaborative Memory Management in Hosted Linux Environments" (OLS 2006). The
//! numbers of the fields and of the orders are this project's own.
#![tactic(auto)]

mod fields;
mod moves;
mod orders;
#[cfg(test)]
mod tests;
mod word;

pub use fields::{Fields, LAST_COUNT};
pub use moves::{host_move, reclaiming_move};
pub use orders::{Old, Order, apply_order};
pub use word::{Word, pack, unpack};
