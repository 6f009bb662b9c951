use crate::{Status, cmm2_replay};
use cmm_check::MAX_SCENARIO;
use cmm_io::{MemSink, MemSource, Source};
use std::alloc::Global;
use std::test::Fail;

const SMALLEST: &str =
    r#"{"version":1,"frames":4,"guests":[{"pages":4,"swap":0,"files":[{"pages":1,"head":"68656c6c6f"}],"cpus":[{"process":0,"commands":["read 0 0 5"]}]}],"schedule":["cpu 0 0","cpu 0 0","cpu 0 0"]}"#;

const SMALLEST_REPORT: &str = "cmm2-report 1 replay
event 0 moved
event 1 moved
event 2 finished
guest 0 entries 1 discards 0 faults 0
0 0 ok 68656c6c6f
end
";

const LOST: &str =
    r#"{"version":1,"frames":4,"guests":[{"pages":4,"swap":0,"files":[{"pages":1,"head":"68656c6c6f"}],"cpus":[{"process":0,"commands":["read 0 0 5","read 0 0 5"]}]}],"schedule":["cpu 0 0","cpu 0 0","cpu 0 0","discard 0 0","cpu 0 0","cpu 0 0","cpu 0 0","cpu 0 0"]}"#;

const LOST_REPORT: &str = "cmm2-report 1 replay
event 0 moved
event 1 moved
event 2 finished
event 3 done
event 4 moved
event 5 moved
event 6 moved
event 7 finished
guest 0 entries 2 discards 1 faults 1
0 0 ok 68656c6c6f
0 1 ok 68656c6c6f
end
";

const LOCKED: &str =
    r#"{"version":1,"frames":4,"guests":[{"pages":4,"swap":0,"files":[{"pages":1,"head":"68656c6c6f"}],"cpus":[{"process":0,"commands":["read 0 0 5"]}]}],"schedule":["cpu 0 0","discard 0 0","cpu 0 0","cpu 0 0"]}"#;

const LOCKED_REPORT: &str = "cmm2-report 1 replay
event 0 moved
event 1 refused stable
event 2 moved
event 3 finished
guest 0 entries 1 discards 0 faults 0
0 0 ok 68656c6c6f
end
";

/// The last 64 bytes of a page.
const PAGE_END: &str =
    r#"{"version": 1, "frames": 4, "guests": [{"pages": 4, "swap": 0, "files": [{"pages": 1, "head": "00"}], "cpus": [{"process": 0, "commands": ["mapfile 0 0 0 1 ro", "load 0 4032 64"]}]}], "schedule": ["alone 0 0", "alone 0 0"]}"#;

const PAGE_END_REPORT: &str = "cmm2-report 1 replay
event 0 alone finished 1
event 1 alone finished 4
guest 0 entries 2 discards 0 faults 0
0 0 ok
0 1 ok 00000000000000000000000000000000000000000000000000000000000000000000000000000000000000000000000000000000000000000000000000000000
end
";

fn source(alloc: Global, input: &str, failing_read: u32) -> Result<MemSource, Fail> {
    let input = Vec::from_slice(alloc, input.as_bytes())?;
    Ok(MemSource::new(input, 4096, vec![in alloc; failing_read]?))
}

fn sink(alloc: Global, failing_write: u32) -> Result<MemSink, Fail> {
    Ok(MemSink::open(alloc, 4096, vec![in alloc; failing_write]?)?)
}

fn replay_words(alloc: Global) -> Result<Vec<String>, Fail> {
    Ok(vec![in alloc; String::from_str(alloc, "replay")?]?)
}

fn check_words(alloc: Global) -> Result<Vec<String>, Fail> {
    Ok(vec![in alloc; String::from_str(alloc, "check")?]?)
}

#[test]
fn a_scenario_gives_its_report(rt: HostRuntime) -> Result<(), Fail> {
    let table = [
        (SMALLEST, Status::Done, SMALLEST_REPORT),
        (LOST, Status::Done, LOST_REPORT),
        (LOCKED, Status::Done, LOCKED_REPORT),
        (PAGE_END, Status::Done, PAGE_END_REPORT),
        ("", Status::ScenarioRefused, "refused json\n"),
        (
            r#"{"version":1,"frames":4,"#,
            Status::ScenarioRefused,
            "refused json\n",
        ),
    ];
    let words = replay_words(rt.alloc())?;
    for (input, wanted, text) in table {
        let mut out = sink(rt.alloc(), 0)?;
        let status = cmm2_replay(
            rt.alloc(),
            words.as_slice(),
            &mut source(rt.alloc(), input, 0)?,
            &mut out,
        );
        assert_eq!(rt; out.bytes(), text.as_bytes());
        assert_eq!(rt; status, wanted);
    }
    Ok(())
}

#[test]
fn too_long_an_input_is_refused(rt: HostRuntime) -> Result<(), Fail> {
    let spaces = vec![in rt.alloc(); b' '; MAX_SCENARIO + 1]?;
    let mut src = MemSource::new(spaces, MAX_SCENARIO, Vec::new(rt.alloc()));
    let mut out = sink(rt.alloc(), 0)?;
    let words = replay_words(rt.alloc())?;
    let status = cmm2_replay(rt.alloc(), words.as_slice(), &mut src, &mut out);
    assert_eq!(rt; status, Status::ScenarioRefused);
    assert_eq!(rt; out.bytes(), b"refused long\n".as_slice());
    Ok(())
}

#[test]
fn a_report_gets_its_verdict(rt: HostRuntime) -> Result<(), Fail> {
    let words = check_words(rt.alloc())?;
    let whole = format!(in rt.alloc(); "{SMALLEST}\n{SMALLEST_REPORT}")?;
    let without_end = &whole.as_str()[..whole.len() - 4];
    let other_guest = format!(in rt.alloc(); "{SMALLEST}\n{LOST_REPORT}")?;
    let no_scenario = format!(in rt.alloc(); "{{}}\n{SMALLEST_REPORT}")?;
    let table = [
        (whole.as_str(), Status::Done, "accepted\n"),
        (without_end, Status::Rejected, "rejected 7\n"),
        (other_guest.as_str(), Status::Rejected, "rejected 5\n"),
        (SMALLEST, Status::ScenarioRefused, "refused report\n"),
        (SMALLEST_REPORT, Status::ScenarioRefused, "refused report\n"),
        (
            no_scenario.as_str(),
            Status::ScenarioRefused,
            "refused /version missing\n",
        ),
    ];
    for (input, wanted, text) in table {
        let mut out = sink(rt.alloc(), 0)?;
        let status = cmm2_replay(
            rt.alloc(),
            words.as_slice(),
            &mut source(rt.alloc(), input, 0)?,
            &mut out,
        );
        assert_eq!(rt; out.bytes(), text.as_bytes());
        assert_eq!(rt; status, wanted);
    }
    Ok(())
}

#[test]
fn a_verdict_that_cant_be_written_is_a_write_fault(rt: HostRuntime) -> Result<(), Fail> {
    let words = check_words(rt.alloc())?;
    let whole = format!(in rt.alloc(); "{SMALLEST}\n{SMALLEST_REPORT}")?;
    for (failing_read, failing_write, wanted) in [
        (0, 1, Status::WriteFault),
        (1, 0, Status::ReadFault),
    ] {
        let mut out = sink(rt.alloc(), failing_write)?;
        let status = cmm2_replay(
            rt.alloc(),
            words.as_slice(),
            &mut source(rt.alloc(), whole.as_str(), failing_read)?,
            &mut out,
        );
        assert_eq!(rt; status, wanted);
        assert!(rt; out.bytes().is_empty());
    }
    Ok(())
}

#[test]
fn other_words_leave_the_input_unread(rt: HostRuntime) -> Result<(), Fail> {
    let replay = String::from_str(rt.alloc(), "replay")?;
    let more = vec![in rt.alloc(); replay, String::from_str(rt.alloc(), "x")?]?;
    for words in [&[], more.as_slice()] {
        // The first read would fail.
        let mut src = source(rt.alloc(), SMALLEST, 1)?;
        let mut out = sink(rt.alloc(), 0)?;
        let status = cmm2_replay(rt.alloc(), words, &mut src, &mut out);
        assert_eq!(rt; status, Status::Usage);
        assert_eq!(rt; status.code(), 1);
        assert_eq!(rt; src.faults(), 0);
        assert_eq!(rt; out.bytes(), b"refused words\n".as_slice());
    }
    Ok(())
}

#[test]
fn a_failing_end_stops_the_program(rt: HostRuntime) -> Result<(), Fail> {
    let words = replay_words(rt.alloc())?;
    let table = [
        (0, 2, Status::WriteFault, "cmm2-report 1 replay\n"),
        (1, 0, Status::ReadFault, ""),
    ];
    for (failing_read, failing_write, wanted, text) in table {
        let mut out = sink(rt.alloc(), failing_write)?;
        let status = cmm2_replay(
            rt.alloc(),
            words.as_slice(),
            &mut source(rt.alloc(), LOST, failing_read)?,
            &mut out,
        );
        assert_eq!(rt; status, wanted);
        assert_eq!(rt; out.bytes(), text.as_bytes());
    }
    Ok(())
}

#[test]
fn a_sink_that_fails_at_a_write_has_the_lines_before(rt: HostRuntime) -> Result<(), Fail> {
    let words = replay_words(rt.alloc())?;
    let lines = LOST_REPORT.as_bytes();
    let mut whole_lines = 0;
    for failing_write in 1..=14u32 {
        let mut out = sink(rt.alloc(), failing_write)?;
        let status = cmm2_replay(
            rt.alloc(),
            words.as_slice(),
            &mut source(rt.alloc(), LOST, 0)?,
            &mut out,
        );
        let whole = failing_write == 14;
        let wanted = if whole {
            Status::Done
        } else {
            Status::WriteFault
        };
        assert_eq!(rt; status, wanted, "failing write {failing_write}");
        let written = out.bytes().iter().filter(|byte| **byte == b'\n').count();
        assert_eq!(rt;
            written + 1,
            failing_write as usize,
            "lines before {failing_write}"
        );
        assert!(rt;
            lines.starts_with(out.bytes()),
            "failing write {failing_write}"
        );
        whole_lines = written;
    }
    assert_eq!(rt; whole_lines, 13);
    Ok(())
}

fn numbered_words(alloc: Global, name: &str) -> Result<Vec<String>, Fail> {
    let name = String::from_str(alloc, name)?;
    let start = String::from_str(alloc, "7")?;
    let size = String::from_str(alloc, "8")?;
    Ok(vec![in alloc; name, start, size]?)
}

#[test]
fn demo_reads_nothing_and_writes_one_line(rt: HostRuntime) -> Result<(), Fail> {
    let words = numbered_words(rt.alloc(), "demo")?;
    for (failing_write, wanted) in [(0, Status::Done), (1, Status::WriteFault)] {
        // The first read would fail.
        let mut src = source(rt.alloc(), SMALLEST, 1)?;
        let mut out = sink(rt.alloc(), failing_write)?;
        let status = cmm2_replay(rt.alloc(), words.as_slice(), &mut src, &mut out);
        assert_eq!(rt; status, wanted);
        assert_eq!(rt; src.faults(), 0);
        let line = b"cmm2-demo 1 start 7 size 8 events ".as_slice();
        assert_eq!(rt; out.bytes().starts_with(line), failing_write == 0);
    }
    Ok(())
}

#[test]
fn gen_reads_nothing(rt: HostRuntime) -> Result<(), Fail> {
    let words = numbered_words(rt.alloc(), "gen")?;
    for (failing_write, wanted) in [(0, Status::Done), (1, Status::WriteFault)] {
        // The first read would fail.
        let mut src = source(rt.alloc(), SMALLEST, 1)?;
        let mut out = sink(rt.alloc(), failing_write)?;
        let status = cmm2_replay(rt.alloc(), words.as_slice(), &mut src, &mut out);
        assert_eq!(rt; status, wanted);
        assert_eq!(rt; src.faults(), 0);
        assert_eq!(rt; out.bytes().is_empty(), failing_write == 1);
    }
    Ok(())
}
