use crate::{generate, scenario_text};
use cmm_scenario::read_scenario;
use std::test::Fail;

/// Made by a model of the generator in another language.
const EIGHT_COMMANDS: &str =
    r#"{"frames":48,"guests":[{"cpus":[{"commands":["mapfile 0 0 0 8 rw","mapanon 1 8"],"process":0},{"commands":["mapfile 0 1 0 8 rw","mapanon 1 8"],"process":1}],"files":[{"head":"5e3f3191e903e814db7603b34070dda2","pages":8},{"head":"fd732c9fd8a136325d7058d9c570e89d","pages":8},{"head":"a60b1d13195be4687d9720222ce860a0","pages":8},{"head":"524a745e0d1c5acbc0a0b2eb9fe53374","pages":8},{"head":"db89d4b378a2a926460388cd46f552b6","pages":8}],"pages":64,"swap":64},{"cpus":[{"commands":["mapfile 0 0 0 8 rw","mapanon 1 8"],"process":0},{"commands":["mapfile 0 1 0 8 rw","mapanon 1 8"],"process":1}],"files":[{"head":"a8ef6050113f22d3af03bda15d425806","pages":8},{"head":"63ec1d5fc076a55c43bbf35836d72123","pages":8},{"head":"34f8edde02fd2637e7ae0a1ea27ce07a","pages":8},{"head":"1111aa25f7a1f1475953395a48c430ab","pages":8},{"head":"8a7dd976a18f29823b2df9f163ac9d7a","pages":8}],"pages":64,"swap":64}],"reclaimers":2,"schedule":["alone 0 0","alone 0 1","alone 1 0","alone 1 1","alone 0 0","alone 0 1","alone 1 0","alone 1 1","discard 1 12"],"version":1}"#;

#[test]
fn eight_commands_are_written(rt: HostRuntime) -> Result<(), Fail> {
    let plan = generate(rt.alloc(), 7, 8)?;
    let text = scenario_text(rt.alloc(), &plan)?;
    assert_eq!(rt; text.as_slice(), EIGHT_COMMANDS.as_bytes());
    Ok(())
}

#[test]
fn two_thousand_commands_read_back(rt: HostRuntime) -> Result<(), Fail> {
    let plan = generate(rt.alloc(), 7, 2000)?;
    let text = scenario_text(rt.alloc(), &plan)?;
    let Ok(read) = read_scenario(rt.alloc(), text.as_slice()) else {
        return Err("a generated scenario was refused".into());
    };
    assert_eq!(rt; text.len(), 70254);
    assert_eq!(rt; read.schedule.len(), 2375);
    Ok(())
}
