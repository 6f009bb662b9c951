//! The edges of the program: what it reads bytes from, what it writes bytes to, and a guest's disk, each with a
//! count of its faults.
#![tactic(auto)]

mod disk;
mod failed;
mod failures;
mod laws;
mod mem_disk;
mod memory;
mod read;
mod sink;
mod source;
mod standard;
mod write;

pub use disk::Disk;
pub use failed::Failed;
pub use failures::PlannedFailures;
pub use laws::failed_calls_are_planned;
pub use mem_disk::MemDisk;
pub use memory::{MemSink, MemSource};
pub use read::{ReadError, read_all};
pub use sink::Sink;
pub use source::Source;
pub use standard::{StdSink, StdSource};
pub use write::{WriteFault, write_all};

#[cfg(test)]
mod tests;
