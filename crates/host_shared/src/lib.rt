//! A guest's storage over words that it shares with its host, and the host's reclaiming of their frames.
#![tactic(auto)]

mod body;
mod bound;
mod gate;
mod held;
mod reclaim;
mod search;
mod storage;

pub use body::PageBody;
pub use bound::Bound;
pub use gate::{Gate, PassGate, Point, Who};
pub use reclaim::{Outcome, reclaim_page, reclaim_pass};
pub use storage::WordStorage;
