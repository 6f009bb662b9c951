ghost use Rattle.std.specs.Prelude.{◌≡◌, ◌≤◌, ◌<◌, ◌+◌, ◌^◌, length};
ghost use Rattle.cmm_scenario.specs.Scenario.{scenario_of};
ghost use Rattle.cmm_check.specs.Judge.{judged_by, Judges, IsJudged};

use crate::input::split;
use crate::verdict::{Verdict, check};
use cmm_scenario::{Kind, Path, ScenarioError, read_scenario};
use std::alloc::Global;

/// The most bytes of a scenario, a line feed and a report.
pub const MAX_CHECKED: usize = 285_212_672;

/// The most bytes of the scenario before a report.
pub const MAX_SCENARIO: usize = 16_777_216;

/// Why an input has no verdict.
#[derive(Debug, Drop)]
pub enum InputError {
    /// No report begins behind a line feed.
    NoReport,
    /// More than 16,777,216 bytes stand before it.
    LongScenario,
    /// They are no JSON.
    NotJson,
    /// They are no scenario: the first fault.
    Fault { path: Path, kind: Kind },
    /// Memory ran out.
    NoMemory,
}

fn judge_report(alloc: Global, scenario: &[u8], report: &[u8]) -> Result<Verdict, InputError>
    requires { length report.now + 1 < 2 ^ 32 }
    ensures { Judges result (judged_by (scenario_of scenario.now) report.now) }
{
    match read_scenario(alloc, scenario) {
        Ok(plan) => match check(alloc, &plan, report) {
            Ok(verdict) => Ok(verdict),
            Err(_) => Err(InputError::NoMemory),
        },
        Err(ScenarioError::NotJson) => Err(InputError::NotJson),
        Err(ScenarioError::Fault { path, kind }) => Err(InputError::Fault { path, kind }),
        Err(ScenarioError::NoMemory) => Err(InputError::NoMemory),
    }
}

/// Whether the report in an input is legal for the scenario before it. The refusals come in their order: there is no
/// report, the scenario is too long, it is no JSON, it has a fault.
pub fn judge(alloc: Global, input: &[u8]) -> Result<Verdict, InputError>
    requires { length input.now ≤ MAX_CHECKED }
    ensures { IsJudged input.now result }
{
    let Some(start) = split(input) else {
        return Err(InputError::NoReport);
    };
    let feed = start - 1;
    if feed > MAX_SCENARIO {
        return Err(InputError::LongScenario);
    }
    judge_report(alloc, &input[..feed], &input[start..])
}
