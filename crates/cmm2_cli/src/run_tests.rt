use crate::{Status, cmm2, cmm2_replay, cmm2_run};
use cmm_io::{MemSink, MemSource, Source};
use host_shared::PassGate;
use std::alloc::Global;
use std::str;
use std::sync::Wait;
use std::test::Fail;
use std::thread::Threads;

/// Two files of a page each, read in turn on a host with one frame.
const ONE_FRAME: &str =
    r#"{"version":1,"frames":1,"guests":[{"pages":4,"swap":0,"files":[{"pages":1,"head":"61"},{"pages":1,"head":"62"}],"cpus":[{"process":0,"commands":["read 0 0 1","read 1 0 1","read 0 0 1","read 1 0 1","read 0 0 1","read 1 0 1","read 0 0 1","read 1 0 1"]}]}],"schedule":["alone 0 0","alone 0 0","alone 0 0","alone 0 0","alone 0 0","alone 0 0","alone 0 0","alone 0 0"]}"#;

const ONE_FRAME_REPORT: &str = "cmm2-report 1 run
guest 0 entries 8 discards 7 faults 6
0 0 ok 61
0 1 ok 62
0 2 ok 61
0 3 ok 62
0 4 ok 61
0 5 ok 62
0 6 ok 61
0 7 ok 62
end
";

const DISK_FAILS: &str =
    r#"{"version":1,"frames":4,"guests":[{"pages":4,"swap":0,"files":[{"pages":1,"head":"68656c6c6f"}],"disk_fail":[1],"cpus":[{"process":0,"commands":["read 0 0 5","read 0 0 5"]}]}],"schedule":["alone 0 0","alone 0 0"]}"#;

const DISK_FAILS_REPORT: &str = "cmm2-report 1 run
guest 0 entries 2 discards 0 faults 0
0 0 fail disk
0 1 ok 68656c6c6f
end
";

const PUT_FAILS: &str =
    r#"{"version":1,"frames":1,"guests":[{"pages":4,"swap":0,"files":[{"pages":1,"head":"61"},{"pages":1,"head":"62"}],"pager_fail":[1],"cpus":[{"process":0,"commands":["mapfile 0 0 0 1 rw","store 0 0 7a","read 1 0 1","load 0 0 1"]}]}],"schedule":["alone 0 0","alone 0 0","alone 0 0","alone 0 0"]}"#;

const PUT_FAILS_REPORT: &str = "cmm2-report 1 run
guest 0 entries 4 discards 0 faults 0
0 0 ok
0 1 ok
0 2 fail paging
0 3 ok 7a
end
";

fn source(alloc: Global, input: &str, failing_read: u32) -> Result<MemSource, Fail> {
    let input = Vec::from_slice(alloc, input.as_bytes())?;
    Ok(MemSource::new(input, 4096, vec![in alloc; failing_read]?))
}

fn sink(alloc: Global, failing_write: u32) -> Result<MemSink, Fail> {
    Ok(MemSink::open(alloc, 4096, vec![in alloc; failing_write]?)?)
}

fn words_of(alloc: Global, words: &[&str]) -> Result<Vec<String>, Fail> {
    let mut owned = Vec::new(alloc);
    for word in words {
        owned.push(String::from_str(alloc, word)?)?;
    }
    Ok(owned)
}

/// What follows the lines on events, or the first line.
fn from_guests(report: &str) -> &str {
    match report.find("guest 0") {
        Some(at) => &report[at..],
        None => "",
    }
}

#[test]
fn run_of_one_processor(rt: HostRuntime) -> Result<(), Fail> {
    let run = words_of(rt.alloc(), &["run"])?;
    let replay = words_of(rt.alloc(), &["replay"])?;
    let table = [
        (ONE_FRAME, ONE_FRAME_REPORT),
        (DISK_FAILS, DISK_FAILS_REPORT),
        (PUT_FAILS, PUT_FAILS_REPORT),
    ];
    for (input, text) in table {
        let mut out = sink(rt.alloc(), 0)?;
        let mut src = source(rt.alloc(), input, 0)?;
        let status = cmm2_run(
            &rt,
            rt.alloc(),
            run.as_slice(),
            &mut src,
            &mut out,
            &PassGate,
        );
        assert_eq!(rt; out.bytes(), text.as_bytes());
        assert_eq!(rt; status, Status::Done);
        let mut replayed = sink(rt.alloc(), 0)?;
        let mut src = source(rt.alloc(), input, 0)?;
        let status = cmm2_replay(rt.alloc(), replay.as_slice(), &mut src, &mut replayed);
        assert_eq!(rt; status, Status::Done);
        assert!(rt; replayed.bytes().ends_with(from_guests(text).as_bytes()));
    }
    Ok(())
}

/// What the program writes to these words, which read nothing or this input.
fn written(
    rt: &(impl Threads + Wait + Sync),
    alloc: Global,
    words: &[&str],
    input: &[u8],
) -> Result<MemSink, Fail> {
    let words = words_of(alloc, words)?;
    let mut out = MemSink::open(alloc, 1 << 20, Vec::new(alloc))?;
    let mut src = MemSource::new(Vec::from_slice(alloc, input)?, 65_536, Vec::new(alloc));
    let status = cmm2(rt, alloc, words.as_slice(), &mut src, &mut out, &PassGate);
    if status == Status::Done {
        Ok(out)
    } else {
        Err(Fail::from("the status isn't 0"))
    }
}

fn lines_of(text: &[u8]) -> usize {
    text.iter().filter(|byte| **byte == b'\n').count()
}

#[test]
fn realistic(rt: HostRuntime) -> Result<(), Fail> {
    let scenario = written(&rt, rt.alloc(), &["gen", "7", "2000"], &[])?;
    let report = written(&rt, rt.alloc(), &["run"], scenario.bytes())?;
    // The first line, one of each guest, 2,000 entries and the last line.
    assert_eq!(rt; lines_of(report.bytes()), 2004);
    let mut both = Vec::from_slice(rt.alloc(), scenario.bytes())?;
    both.extend_from_slice(report.bytes())?;
    let verdict = written(&rt, rt.alloc(), &["check"], both.as_slice())?;
    assert_eq!(rt; verdict.bytes(), b"accepted\n".as_slice());
    Ok(())
}

#[test]
fn run_with_failing_pager(rt: HostRuntime) -> Result<(), Fail> {
    let scenario = written(&rt, rt.alloc(), &["gen", "7", "2000"], &[])?;
    let keys = scenario.bytes();
    assert!(rt; keys.len() > 1);
    let mut failing = Vec::from_slice(rt.alloc(), b"{\"pager_fail\":[1,2,3],")?;
    failing.extend_from_slice(&keys[1..])?;
    let report = written(&rt, rt.alloc(), &["run"], failing.as_slice())?;
    assert_eq!(rt; lines_of(report.bytes()), 2004);
    // A reclaimer's put that fails is no entry.
    let text = str::from_utf8(report.bytes())?;
    assert!(rt; !text.contains("fail disk") && !text.contains("fail paging"));
    Ok(())
}

#[test]
fn the_first_word_decides_the_call(rt: HostRuntime) -> Result<(), Fail> {
    let table: [(&[&str], Status, &str); 4] = [
        (&["run"], Status::Done, DISK_FAILS_REPORT),
        (&["run", "x"], Status::Usage, "refused words\n"),
        (&["x", "run"], Status::Usage, "refused words\n"),
        (&[], Status::Usage, "refused words\n"),
    ];
    for (words, wanted, text) in table {
        let words = words_of(rt.alloc(), words)?;
        let mut out = sink(rt.alloc(), 0)?;
        let mut src = source(rt.alloc(), DISK_FAILS, 0)?;
        let status = cmm2(
            &rt,
            rt.alloc(),
            words.as_slice(),
            &mut src,
            &mut out,
            &PassGate,
        );
        assert_eq!(rt; status, wanted);
        assert_eq!(rt; out.bytes(), text.as_bytes());
    }
    Ok(())
}

#[test]
fn a_call_refuses_the_words_of_the_other(rt: HostRuntime) -> Result<(), Fail> {
    let run = words_of(rt.alloc(), &["run"])?;
    let replay = words_of(rt.alloc(), &["replay"])?;
    // The first read would fail.
    let mut src = source(rt.alloc(), DISK_FAILS, 1)?;
    let mut out = sink(rt.alloc(), 0)?;
    let status = cmm2_replay(rt.alloc(), run.as_slice(), &mut src, &mut out);
    assert_eq!(rt; status, Status::Usage);
    let status = cmm2_run(
        &rt,
        rt.alloc(),
        replay.as_slice(),
        &mut src,
        &mut out,
        &PassGate,
    );
    assert_eq!(rt; status, Status::Usage);
    assert_eq!(rt; src.faults(), 0);
    assert_eq!(rt; out.bytes(), b"refused words\nrefused words\n".as_slice());
    Ok(())
}

#[test]
fn a_failing_end_stops_a_run(rt: HostRuntime) -> Result<(), Fail> {
    let words = words_of(rt.alloc(), &["run"])?;
    let table = [
        (0, 2, Status::WriteFault, "cmm2-report 1 run\n"),
        (1, 0, Status::ReadFault, ""),
    ];
    for (failing_read, failing_write, wanted, text) in table {
        let mut out = sink(rt.alloc(), failing_write)?;
        let mut src = source(rt.alloc(), DISK_FAILS, failing_read)?;
        let status = cmm2_run(
            &rt,
            rt.alloc(),
            words.as_slice(),
            &mut src,
            &mut out,
            &PassGate,
        );
        assert_eq!(rt; status, wanted);
        assert_eq!(rt; out.bytes(), text.as_bytes());
    }
    Ok(())
}
