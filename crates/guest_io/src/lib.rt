//! Reading and writing the bytes of a guest's page, loading and storing them through an entry that shows it, pinning it,
//! and syncing it with its block. Each call holds the page once.
#![tactic(auto)]

mod entry;
mod pin;
mod read;
mod sync;
#[cfg(test)]
mod sync_tests;
#[cfg(test)]
mod tests;
mod write;

pub use entry::{load_page, store_through};
pub use pin::pin_page;
pub use read::read_page;
pub use sync::{sync_page, write_back};
pub use write::write_page;
