// Gates that hold a thread until another has done something.
use cmm_types::Turn;
use host_shared::{Gate, Outcome, Point, Who};
use std::sync::atomic::{AtomicU64, Ordering};

/// How often a held thread looks before it goes on all the same.
const MOST_LOOKS: u64 = 1_000_000_000;

// Looks until the flag is set. Where it never was, that is noted.
fn wait_for(flag: &AtomicU64, missed: &AtomicU64) {
    for _ in 0..MOST_LOOKS {
        if flag.load(Ordering::SeqCst) != 0 {
            return;
        }
    }
    missed.store(1, Ordering::SeqCst);
}

/// Holds the first processor that finished a command until a reclaimer has discarded a page.
#[derive(Drop)]
pub struct Holding {
    held: AtomicU64,
    discarded: AtomicU64,
    missed: AtomicU64,
}

impl Holding {
    pub fn new() -> Holding {
        Holding {
            held: AtomicU64::new(0),
            discarded: AtomicU64::new(0),
            missed: AtomicU64::new(0),
        }
    }

    /// Whether the processor went on before a page was discarded.
    pub fn missed(&self) -> bool {
        self.missed.load(Ordering::SeqCst) != 0
    }
}

impl Gate for Holding {
    fn pause(&self, _who: Who, point: Point) {
        match point {
            Point::Turned(Turn::Finished) => {
                if self.held.swap(1, Ordering::SeqCst) == 0 {
                    wait_for(&self.discarded, &self.missed);
                }
            }
            Point::Reclaimed(Outcome::Discarded) => self.discarded.store(1, Ordering::SeqCst),
            _ => {}
        }
    }
}

/// Holds each of two processors at its first turn until the other has had one.
#[derive(Drop)]
pub struct Meeting {
    first: AtomicU64,
    second: AtomicU64,
    missed: AtomicU64,
}

impl Meeting {
    pub fn new() -> Meeting {
        Meeting {
            first: AtomicU64::new(0),
            second: AtomicU64::new(0),
            missed: AtomicU64::new(0),
        }
    }

    /// Whether a processor went on before the other had a turn.
    pub fn missed(&self) -> bool {
        self.missed.load(Ordering::SeqCst) != 0
    }

    fn meet(&self, mine: &AtomicU64, other: &AtomicU64) {
        if mine.swap(1, Ordering::SeqCst) == 0 {
            wait_for(other, &self.missed);
        }
    }
}

impl Gate for Meeting {
    fn pause(&self, who: Who, _point: Point) {
        match who {
            Who::Cpu { guest: 0, cpu: 0 } => self.meet(&self.first, &self.second),
            Who::Cpu { guest: _, cpu: _ } => self.meet(&self.second, &self.first),
            Who::Reclaimer { number: _ } => {}
        }
    }
}
