ghost use Rattle.std.specs.Prelude.{◌≡◌, ◌≤◌, IfOk};
ghost use Rattle.cmm_io.specs.FailurePlan.{is_in, failure_plan_of, fails_next, after_call, after_next};

use std::alloc::{AllocError, Global};
use std::marker::Model;

/// Which calls fail: calls are numbered from 1, and fail where their number is planned. The count of calls and
/// the count of faults stand still at their type's end.
#[derive(Drop)]
pub struct PlannedFailures {
    calls: u64,
    // In ascending order, so that a number is found fast.
    numbers: Vec<u32>,
    faults: u64,
}

impl Model for PlannedFailures {
    ghost use Rattle.std.specs.List.Sorted.{IsNonDecreasing};
    ghost use Rattle.cmm_io.specs.FailurePlan.{FailurePlan, in_order};

    ghost Value = { FailurePlan };

    ghost view = { λ f. record { calls = f.calls; planned = in_order f.numbers.items; faults = f.faults } };

    ghost invariant = { λ f. IsNonDecreasing f.numbers.items };
}

impl PlannedFailures {
    /// Plans these numbers. It takes no memory.
    pub fn new(mut numbers: Vec<u32>) -> PlannedFailures
        ensures { result ≡ failure_plan_of numbers.items }
    {
        numbers.sort_unstable();
        PlannedFailures {
            calls: 0,
            numbers,
            faults: 0,
        }
    }

    /// Plans these numbers.
    pub fn open(alloc: Global, numbers: &[u32]) -> Result<PlannedFailures, AllocError>
        ensures { IfOk result (λ failures. failures ≡ failure_plan_of numbers.now) }
    {
        let copy = Vec::from_slice(alloc, numbers)?;
        Ok(PlannedFailures::new(copy))
    }

    /// How many calls were made.
    pub fn calls(&self) -> u64
        ensures { result ≡ self.now.calls }
    {
        self.calls
    }

    /// How many calls failed.
    pub fn faults(&self) -> u64
        ensures { result ≡ self.now.faults }
    {
        self.faults
    }

    fn is_planned(&self, call: u64) -> bool
        ensures { result ≡ is_in self.now.planned call }
    {
        self.numbers
            .binary_search_by(|number| u64::from(*number).cmp(&call))
            .is_ok()
    }

    /// Whether the next call's number is planned.
    pub fn fails_next(&self) -> bool
        ensures { result ≡ fails_next self.now }
    {
        self.is_planned(self.calls.saturating_add(1))
    }

    /// Counts a call, and whether it failed.
    pub fn count(&mut self, failed: bool)
        ensures counts { self.new ≡ after_call self.old failed }
        ensures never_falls { self.old.faults ≤ self.new.faults }
    {
        self.calls = self.calls.saturating_add(1);
        if failed {
            self.faults = self.faults.saturating_add(1);
        }
    }

    /// Counts the next call, and answers whether it fails: exactly where it is planned.
    pub fn next(&mut self) -> bool
        ensures fails { result ≡ fails_next self.old }
        ensures counts { self.new ≡ after_next self.old }
        ensures never_falls { self.old.faults ≤ self.new.faults }
    {
        let fails = self.fails_next();
        self.count(fails);
        fails
    }
}
