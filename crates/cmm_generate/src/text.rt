ghost use Rattle.std.specs.Prelude.{◌≡◌, IfOk, Ok};
ghost use Rattle.cmm_types.specs.InRange.{ScenarioInRange};
ghost use Rattle.cmm_scenario.specs.Scenario.{scenario_of};
ghost use Rattle.cmm_generate.specs.Text.{scenario_text};
ghost use Rattle.cmm_generate.specs.Writes.{WritesScenario};

use crate::trees::scenario_value;
use cmm_types::Scenario;
use std::alloc::{AllocError, Global};

/// The scenario as JSON, without spaces, its keys in byte order. An optional key is left out where its value is the
/// default. A scenario that is within all ranges and totals is read back from it.
pub fn scenario_text(alloc: Global, plan: &Scenario) -> Result<Vec<u8>, AllocError>
    ensures text { IfOk result (λ text. text.items ≡ scenario_text plan.now) }
    ensures reads_back { IfOk result (λ text.
        ScenarioInRange plan.now → WritesScenario plan.now → scenario_of text.items ≡ Ok plan.now) }
{
    let tree = scenario_value(alloc, plan)?;
    let text = tree.to_vec(alloc)?;
    Ok(text)
}
