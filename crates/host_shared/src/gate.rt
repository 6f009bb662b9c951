use crate::reclaim::Outcome;
use cmm_types::Turn;

/// A thread of the machine: one of a guest's processors, or a reclaimer of the host.
#[derive(Clone, Copy, Debug, PartialEq, Eq)]
pub enum Who {
    Cpu { guest: u32, cpu: u32 },
    Reclaimer { number: u32 },
}

/// What it has just done.
#[derive(Clone, Copy, Debug, PartialEq, Eq)]
pub enum Point {
    Turned(Turn),
    Reclaimed(Outcome),
}

/// Where threads pass after each turn and each reclaim, so that a test may hold them there. It says nothing.
pub trait Gate {
    fn pause(&self, who: Who, point: Point);
}

/// Lets every thread pass.
#[derive(Clone, Copy, Debug)]
pub struct PassGate;

impl Gate for PassGate {
    fn pause(&self, who: Who, point: Point) {
        let _ = (who, point);
    }
}
