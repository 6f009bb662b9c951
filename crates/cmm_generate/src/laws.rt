//! What stands of generated scenarios. The law stands on the definitions alone, so that its function does nothing.

ghost use Rattle.std.specs.Prelude.{◌≤◌, ℕ};
ghost use Rattle.cmm_types.specs.InRange.{ScenarioInRange};
ghost use Rattle.cmm_generate.specs.Generated.{generated};
ghost use Rattle.cmm_generate.specs.Writes.{WritesScenario};

/// A generated scenario is within all ranges and totals, and what its files and commands write is bytes.
pub fn generated_scenarios()
    ensures in_range { (start size : ℕ) → size ≤ 20000 → ScenarioInRange (generated start size) }
    ensures bytes { (start size : ℕ) → WritesScenario (generated start size) }
{}
