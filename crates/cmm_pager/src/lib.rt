//! The paging store: a pager puts a page's bytes into a block and gets them back, with a count of its faults; one
//! in memory, whose calls fail as planned.
#![tactic(auto)]

mod mem_pager;
mod pager;
#[cfg(test)]
mod tests;

pub use mem_pager::{MemBlock, MemPager};
pub use pager::{Pager, PagingBlock};
