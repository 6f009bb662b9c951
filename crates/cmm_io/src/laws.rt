//! What holds of every plan of failing calls. Each law stands on the definitions alone, so that its function does
//! nothing.

ghost use Rattle.std.specs.Prelude.{◌≡◌, ◌<◌, [], ◌≤◌, ◌^◌, ℕ, List, All};
ghost use Rattle.cmm_io.specs.FailurePlan.{FailurePlan, failure_plan_of, after_next};
ghost use Rattle.cmm_io.specs.Counted.{IsCounted, distinct};

/// However many calls are made, at most as many fail as different numbers were planned.
pub fn failed_calls_are_planned()
    ensures open { (numbers : List ℕ) → IsCounted numbers (failure_plan_of numbers) }
    ensures next { (numbers : List ℕ) (plan : FailurePlan) → All (λ number. number < 2 ^ 32) numbers → IsCounted numbers plan → IsCounted numbers (after_next plan) }
    ensures most { (numbers : List ℕ) (plan : FailurePlan) → IsCounted numbers plan → plan.faults ≤ distinct numbers }
    ensures none { (numbers : List ℕ) → numbers ≡ [] → distinct numbers ≡ 0 }
{}
