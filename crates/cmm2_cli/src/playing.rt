ghost use Rattle.std.specs.Prelude.{IfOk};
ghost use Rattle.cmm_types.specs.InRange.{ScenarioInRange};
ghost use Rattle.cmm2_cli.specs.Playing.{HasPlayed};

use cmm_types::Scenario;
use cmm_world::World;
use std::alloc::{AllocError, Global};

/// The world of a plan, after its schedule was played.
pub fn played(alloc: Global, plan: &Scenario) -> Result<World, AllocError>
    requires { ScenarioInRange plan.now }
    ensures { IfOk result (HasPlayed plan.now) }
{
    let mut world = World::open(alloc, plan)?;
    world.replay(plan.schedule.as_slice());
    Ok(world)
}
