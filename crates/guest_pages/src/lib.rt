//! What a guest knows of each of its pages, and the stack of its free pages.
#![tactic(auto)]

mod info;
mod pages;
#[cfg(test)]
mod tests;

pub use info::PageInfo;
pub use pages::Pages;
