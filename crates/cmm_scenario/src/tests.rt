use crate::{Kind, ScenarioError, read_scenario};
use cmm_types::{Event, Op};
use std::alloc::{AllocError, Global};
use std::test::Fail;

/// One guest with one file, one processor and one command, and three turns.
const SMALLEST: &str =
    r#"{"version":1,"frames":4,"guests":[{"pages":4,"swap":0,"files":[{"pages":1,"head":"68656c6c6f"}],"cpus":[{"process":0,"commands":["read 0 0 5"]}]}],"schedule":["cpu 0 0","cpu 0 0","cpu 0 0"]}"#;

const FAULTS: [(&str, &str, Kind); 14] = [
    (
        r#"{"version":1,"guests":[{"pages":4,"swap":0,"files":[],"cpus":[{"process":0,"commands":[]}]}]}"#,
        "/frames",
        Kind::Missing,
    ),
    (
        r#"{"version":1,"frames":4,"guests":[],"color":1}"#,
        "/",
        Kind::Unknown,
    ),
    (r#"{"version":2,"frames":4}"#, "/version", Kind::Range),
    (
        r#"{"version":1,"frames":"4","guests":[]}"#,
        "/frames",
        Kind::Type_,
    ),
    (
        r#"{"version":1,"frames":4,"guests":[{"pages":4,"swap":0,"files":[],"cpus":[{"process":0,"commands":["raed 0 0 5"]}]}]}"#,
        "/guests/0/cpus/0/commands/0",
        Kind::Text,
    ),
    (
        r#"{"version":1,"frames":4,"guests":[{"pages":4,"swap":0,"files":[],"cpus":[{"process":0,"commands":["mapfile 0 0 0 1 ro","load 0 4033 64"]}]}]}"#,
        "/guests/0/cpus/0/commands/1",
        Kind::Range,
    ),
    (
        r#"{"version":1,"frames":4,"guests":[{"pages":4,"swap":0,"files":[],"cpus":[{"process":0,"commands":[]}]}],"schedule":["discard 0 4","cpu 0 0"]}"#,
        "/schedule/0",
        Kind::Range,
    ),
    (
        r#"{"version":1,"frames":4,"guests":[{"pages":4,"swap":0,"files":[{"pages":1,"head":"686"}],"cpus":[]}]}"#,
        "/guests/0/files/0/head",
        Kind::Hex,
    ),
    (
        r#"{"version":1,"frames":4,"guests":[{"pages":4097,"swap":0,"files":[],"cpus":[{"process":0,"commands":[]}]}],"schedule":[]}"#,
        "/guests/0/pages",
        Kind::Range,
    ),
    (
        r#"{"version":1,"frames":4,"guests":[0,0,0,0,0,0,0,0,0,0,0,0,0,0,0,0,0]}"#,
        "/guests",
        Kind::Range,
    ),
    (
        r#"{"version":1,"frames":4,"guests":[{"pages":4,"swap":65536,"files":[{"pages":1,"head":""}],"cpus":[{"process":0,"commands":[]}]}]}"#,
        "/guests",
        Kind::Total,
    ),
    ("[[[[]]]]", "/", Kind::Type_),
    (
        r#"{"version":1e308,"frames":4,"version":1,"frames":18446744073709551616}"#,
        "/frames",
        Kind::Type_,
    ),
    (r#"{"version":1,"frames":-4}"#, "/frames", Kind::Type_),
];

#[test]
fn tells_the_first_fault_at_its_path(rt: HostRuntime) -> Result<(), Fail> {
    for (text, place, wanted) in FAULTS {
        match read_scenario(rt.alloc(), text.as_bytes()) {
            Err(ScenarioError::Fault { path, kind }) => {
                assert_eq!(rt; path.as_slice(), place.as_bytes(), "in {text}");
                assert_eq!(rt; kind, wanted, "in {text}");
            }
            _ => return Err("no fault was told".into()),
        }
    }
    Ok(())
}

#[test]
fn refuses_what_is_no_json(rt: HostRuntime) -> Result<(), Fail> {
    let alloc = rt.alloc();
    let deepest = nested(alloc, 127)?;
    let too_deep = nested(alloc, 128)?;
    let cut: &[u8] = b"{\"version\":1,\"frames\":4,";
    let two_values: &[u8] = b"[] []";
    let too_large: &[u8] = b"{\"version\":1,\"color\":[1e308,-1e309],\"color\":1}";
    let broken = b"\xff".as_slice();
    for bytes in [
        b"".as_slice(),
        cut,
        two_values,
        too_large,
        broken,
        too_deep.as_slice(),
    ] {
        assert!(rt; matches!(read_scenario(alloc, bytes), Err(ScenarioError::NotJson)));
    }
    assert!(rt;
        matches!(
            read_scenario(alloc, deepest.as_slice()),
            Err(ScenarioError::Fault { .. })
        )
    );
    Ok(())
}

/// So many lists, one in another.
fn nested(alloc: Global, depth: usize) -> Result<Vec<u8>, AllocError> {
    let mut text = vec![in alloc; b'['; depth]?;
    for _ in 0..depth {
        text.push(b']')?;
    }
    Ok(text)
}

#[test]
fn reads_the_smallest_scenario(rt: HostRuntime) -> Result<(), Fail> {
    let Ok(plan) = read_scenario(rt.alloc(), SMALLEST.as_bytes()) else {
        return Err("the smallest scenario was refused".into());
    };
    assert_eq!(rt; plan.frames, 4);
    assert_eq!(rt;
        plan.schedule.as_slice(),
        [Event::Cpu { guest: 0, cpu: 0 }; 3].as_slice()
    );
    let [guest] = plan.guests.as_slice() else {
        return Err("one guest is wanted".into());
    };
    let ([file], [cpu]) = (guest.files.as_slice(), guest.cpus.as_slice()) else {
        return Err("one file and one processor are wanted".into());
    };
    assert_eq!(rt; file.head.as_slice(), b"hello".as_slice());
    let wanted = Op::Read {
        file: 0,
        off: 0,
        len: 5,
    };
    assert_eq!(rt; cpu.commands.as_slice(), [wanted].as_slice());
    Ok(())
}
