//! Pieces of one block of memory, each of a page's size. A piece shows zeros until it is first written, and costs no
//! memory before that. The block is freed with the last of its pieces.
#![tactic(auto)]

mod block;
mod piece;
mod room;

pub use piece::{Piece, pieces};

#[cfg(test)]
mod tests;
