//! What a guest tells the host of the page that it holds, how it frees a page that the host discarded, and which
//! block backs a page.
#![tactic(auto)]

mod blocks;
mod held;
mod hint;
#[cfg(test)]
mod tests;

pub use blocks::backing;
pub use held::{discard_handler, forget, make_stable, mark_changed, rehint};
pub use hint::hint_of;
