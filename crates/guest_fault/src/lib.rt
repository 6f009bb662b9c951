//! Filling a guest's page with the bytes of its tag, and giving a mapping's page the entry that shows it, or clearing
//! it, and tearing a mapping of pages of its own down. Each call holds the page once.
#![tactic(auto)]

mod clearing;
mod entry;
mod filling;
mod tearing;
#[cfg(test)]
mod tests;

pub use clearing::clear_entry;
pub use entry::resolve;
pub use filling::fill;
pub use tearing::{release, tear_page};
