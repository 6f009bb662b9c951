//! One guest's state words and the bodies of its pages, which the guest's processors and its host share, each through
//! a seat of its own.
#![tactic(auto)]

mod guest_seat;
mod host_seat;
mod laws;
mod rule;
mod seats;
mod slots;
#[cfg(test)]
mod tests;
mod words;

pub use guest_seat::GuestSeat;
pub use host_seat::HostSeat;
pub use laws::one_seat_holds;
pub use rule::{Body, Ruled};
pub use words::{NoWords, Words};
