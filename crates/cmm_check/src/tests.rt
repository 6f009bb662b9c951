use crate::{InputError, Verdict, check, judge, read_answer, read_entry, split, write_verdict};
use cmm_io::MemSink;
use cmm_scenario::read_scenario;
use cmm_types::{Alone, Answer, Bytes64, Cause, FlatRefusal, Refused, Reply, Turn};
use std::alloc::Global;
use std::test::Fail;

#[test]
fn reads_each_reply(rt: HostRuntime) -> Result<(), Fail> {
    let cases: [(&[u8], Reply); 11] = [
        (b"0 0 ok", Reply::Done),
        (
            b"0 0 refused no-mapping",
            Reply::Refused(FlatRefusal::NoMapping),
        ),
        (
            b"0 0 refused mapped",
            Reply::Refused(FlatRefusal::AlreadyMapped),
        ),
        (
            b"0 0 refused range",
            Reply::Refused(FlatRefusal::OutOfRange),
        ),
        (
            b"0 0 refused read-only",
            Reply::Refused(FlatRefusal::ReadOnly),
        ),
        (b"0 0 refused pinned", Reply::Refused(FlatRefusal::Pinned)),
        (
            b"0 0 refused not-pinned",
            Reply::Refused(FlatRefusal::NotPinned),
        ),
        (
            b"0 0 refused too-many",
            Reply::Refused(FlatRefusal::TooManyMaps),
        ),
        (b"0 0 fail disk", Reply::Fail(Cause::Disk)),
        (b"0 0 fail paging", Reply::Fail(Cause::Paging)),
        (
            b"0 0 fail nopage 1 12",
            Reply::Fail(Cause::NoPage {
                pinned: 1,
                unslotted: 12,
            }),
        ),
    ];
    for (line, reply) in &cases {
        match read_entry(line) {
            Some((_, _, read)) => assert!(rt; read == *reply),
            None => assert!(rt; false),
        }
    }
    Ok(())
}

#[test]
fn reads_processor_number_and_bytes(rt: HostRuntime) -> Result<(), Fail> {
    match read_entry(b"7 4294967295 ok 68656c6c6f") {
        Some((cpu, k, Reply::Bytes(bytes))) => {
            assert!(rt; cpu == 7);
            assert!(rt; k == 4_294_967_295);
            assert!(rt; bytes.as_slice() == b"hello".as_slice());
        }
        _ => assert!(rt; false),
    }
    Ok(())
}

#[test]
fn reads_no_line_that_is_nearly_an_entry(rt: HostRuntime) -> Result<(), Fail> {
    let lines: [&[u8]; 14] = [
        b"",
        b"0 0",
        b"0 0 ",
        b"0 0 OK",
        b" 0 0 ok",
        b"0  0 ok",
        b"0 0 ok ",
        b"00 0 ok",
        b"0 4294967296 ok",
        b"0 0 ok 6",
        b"0 0 ok 6A",
        b"0 0 fail nopage 1",
        b"0 0 fail nopage 1 2 3",
        b"0 0 refused",
    ];
    for line in &lines {
        assert!(rt; read_entry(line).is_none());
    }
    Ok(())
}

#[test]
fn reads_each_answer(rt: HostRuntime) -> Result<(), Fail> {
    let cases: [(&[u8], Answer); 17] = [
        (b"event 0 moved", Answer::Turn(Turn::Moved)),
        (b"event 0 finished", Answer::Turn(Turn::Finished)),
        (
            b"event 0 waits 3 1",
            Answer::Turn(Turn::Waits { page: 3, owner: 1 }),
        ),
        (b"event 0 idle", Answer::Turn(Turn::Idle)),
        (
            b"event 0 alone finished 12",
            Answer::Alone(Alone::Finished { turns: 12 }),
        ),
        (
            b"event 0 alone waits 1 20 0",
            Answer::Alone(Alone::Waits {
                turns: 1,
                page: 20,
                owner: 0,
            }),
        ),
        (b"event 0 alone idle", Answer::Alone(Alone::Idle)),
        (b"event 0 done", Answer::HostDone),
        (
            b"event 0 refused stable",
            Answer::HostRefused(Refused::Stable),
        ),
        (
            b"event 0 refused changed",
            Answer::HostRefused(Refused::Changed),
        ),
        (
            b"event 0 refused absent",
            Answer::HostRefused(Refused::Absent),
        ),
        (
            b"event 0 refused volatile",
            Answer::HostRefused(Refused::Volatile),
        ),
        (
            b"event 0 refused counted",
            Answer::HostRefused(Refused::Counted),
        ),
        (b"event 0 failed paging", Answer::HostPaging),
        (
            b"event 0 reclaimed 0",
            Answer::Reclaimed {
                count: 0,
                paging: false,
            },
        ),
        (
            b"event 0 reclaimed 65536",
            Answer::Reclaimed {
                count: 65_536,
                paging: false,
            },
        ),
        (
            b"event 0 reclaimed 4 failed paging",
            Answer::Reclaimed {
                count: 4,
                paging: true,
            },
        ),
    ];
    for (line, answer) in &cases {
        assert!(rt; read_answer(line) == Some((0, *answer)));
    }
    Ok(())
}

#[test]
fn reads_no_line_that_is_nearly_an_event(rt: HostRuntime) -> Result<(), Fail> {
    let lines: [&[u8]; 7] = [
        b"event 0 again",
        b"event 0",
        b"event 01 moved",
        b"event 0 waits 3",
        b"event 0 alone finished",
        b"event 0 reclaimed 4 failed",
        b"event 0 reclaimed 4  failed paging",
    ];
    for line in &lines {
        assert!(rt; read_answer(line).is_none());
    }
    Ok(())
}

#[test]
fn splits_behind_the_scenario(rt: HostRuntime) -> Result<(), Fail> {
    let cases: [(&[u8], Option<usize>); 5] = [
        (b"{}\ncmm2-report 1 run\n", Some(3)),
        (b"{\n}\ncmm2-report 1 run\n", Some(4)),
        (b"\ncmm2-report \ncmm2-report ", Some(1)),
        (b"cmm2-report 1 run\n", None),
        (b"{}\ncmm2-report", None),
    ];
    for (input, start) in &cases {
        assert!(rt; split(input) == *start);
    }
    Ok(())
}

const TWO_GUESTS: &[u8] =
    b"{\"version\":1,\"frames\":4,\"guests\":[{\"pages\":4,\"swap\":0,\"files\":[{\"pages\":1,\"head\":\"68656c6c6f\"}],\"disk_fail\":[7,7],\"cpus\":[{\"process\":0,\"commands\":[\"read 0 0 5\",\"sync 0\"]}]},{\"pages\":1,\"swap\":0,\"files\":[{\"pages\":1,\"head\":\"6a\"}],\"cpus\":[{\"process\":0,\"commands\":[\"mapanon 0 1\",\"store 0 0 61\",\"read 0 0 1\"]}]}],\"schedule\":[\"cpu 0 0\"]}";

/// The verdict on a report of these two guests.
fn verdict_on(alloc: Global, report: &[u8]) -> Result<Verdict, Fail> {
    let Ok(plan) = read_scenario(alloc, TWO_GUESTS) else {
        return Err("the scenario was refused".into());
    };
    if report.len() > 1000 {
        return Err("the report is longer than these tests want".into());
    }
    Ok(check(alloc, &plan, report)?)
}

#[test]
fn accepts_legal_reports(rt: HostRuntime) -> Result<(), Fail> {
    let reports: [&[u8]; 5] = [
        b"cmm2-report 1 replay\nevent 0 moved\nguest 0 entries 0 discards 0 faults 0\nguest 1 entries 0 discards 0 faults 0\nend\n",
        b"cmm2-report 1 replay\nevent 0 again\nguest 0 entries 1 discards 2 faults 2\n0 0 ok 68656c6c6f\nguest 1 entries 0 discards 0 faults 0\nend\n",
        b"cmm2-report 1 replay\nevent 0 idle\nguest 0 entries 0 discards 0 faults 0\nguest 1 entries 2 discards 0 faults 0\n0 0 ok\n0 1 ok\nend\n",
        b"cmm2-report 1 run\nguest 0 entries 2 discards 0 faults 0\n0 0 ok 68656c6c6f\n0 1 fail disk\nguest 1 entries 3 discards 0 faults 0\n0 0 ok\n0 1 ok\n0 2 fail nopage 0 1\nend\n",
        b"cmm2-report 1 run\nguest 0 entries 2 discards 18446744073709551615 faults 18446744073709551615\n0 0 fail disk\n0 1 ok\nguest 1 entries 3 discards 0 faults 0\n0 0 ok\n0 1 ok\n0 2 ok 6a\nend\n",
    ];
    for report in &reports {
        assert!(rt; verdict_on(rt.alloc(), report)? == Verdict::Accepted);
    }
    Ok(())
}

#[test]
fn names_the_first_line_that_does_not_fit(rt: HostRuntime) -> Result<(), Fail> {
    let cases: [(&[u8], u32); 22] = [
        (b"", 1),
        (b"cmm2-report 1 run", 1),
        (b"cmm2-report 2 run\n", 1),
        (b"cmm2-report 1 replay\n", 2),
        (b"cmm2-report 1 replay\nevent 1 moved\n", 2),
        (b"cmm2-report 1 replay\nevent 0 gone\n", 2),
        (
            b"cmm2-report 1 replay\nguest 0 entries 0 discards 0 faults 0\n",
            2,
        ),
        (b"cmm2-report 1 replay\nevent 0 idle\nevent 1 idle\n", 3),
        (
            b"cmm2-report 1 replay\nevent 0 idle\nguest 1 entries 0 discards 0 faults 0\n",
            3,
        ),
        (
            b"cmm2-report 1 replay\nevent 0 idle\nguest 0 entries 3 discards 0 faults 0\n",
            3,
        ),
        (
            b"cmm2-report 1 replay\nevent 0 idle\nguest 0 entries 1 discards 0 faults 1\n",
            3,
        ),
        (
            b"cmm2-report 1 replay\nevent 0 idle\nguest 0 entries 1 discards 0 faults 0\n0 0 ok 68656c6c70\n",
            4,
        ),
        (
            b"cmm2-report 1 replay\nevent 0 idle\nguest 0 entries 1 discards 0 faults 0\n0 0 ok 68656C6C6F\n",
            4,
        ),
        (
            b"cmm2-report 1 replay\nevent 0 idle\nguest 0 entries 1 discards 0 faults 0\n0 1 ok\n",
            4,
        ),
        (
            b"cmm2-report 1 replay\nevent 0 idle\nguest 0 entries 1 discards 0 faults 0\n1 0 ok\n",
            4,
        ),
        (
            b"cmm2-report 1 replay\nevent 0 idle\nguest 0 entries 0 discards 0 faults 0\n0 0 ok 68656c6c6f\n",
            4,
        ),
        (
            b"cmm2-report 1 run\nguest 0 entries 1 discards 0 faults 0\n",
            2,
        ),
        (
            b"cmm2-report 1 run\nguest 0 entries 2 discards 0 faults 0\n0 0 fail disk\n0 1 fail disk\n",
            4,
        ),
        (
            b"cmm2-report 1 run\nguest 0 entries 2 discards 0 faults 0\n0 0 fail paging\n",
            3,
        ),
        (
            b"cmm2-report 1 run\nguest 0 entries 2 discards 0 faults 0\n0 0 fail nopage 2 2\n",
            3,
        ),
        (
            b"cmm2-report 1 run\nguest 0 entries 2 discards 0 faults 0\n0 0 ok 68656c6c6f\n0 1 ok\nguest 1 entries 3 discards 0 faults 0\n0 0 fail disk\n",
            6,
        ),
        (
            b"cmm2-report 1 replay\nevent 0 idle\nguest 0 entries 0 discards 0 faults 0\nguest 1 entries 0 discards 0 faults 0\nend\nend\n",
            6,
        ),
    ];
    for (report, line) in &cases {
        let wanted = Verdict::Rejected { line: *line };
        assert!(rt; verdict_on(rt.alloc(), report)? == wanted);
    }
    Ok(())
}

const READS: &[u8] =
    b"{\"version\":1,\"frames\":4,\"guests\":[{\"pages\":4,\"swap\":0,\"files\":[{\"pages\":1,\"head\":\"68656c6c6f\"}],\"cpus\":[{\"process\":0,\"commands\":[\"read 0 0 5\"]}]}],\"schedule\":[\"cpu 0 0\",\"cpu 0 0\",\"cpu 0 0\"]}";

/// What an input of this scenario and this text behind it comes to.
fn judged(alloc: Global, text: &[u8]) -> Result<Result<Verdict, InputError>, Fail> {
    let mut input = Vec::from_slice(alloc, READS)?;
    input.extend_from_slice(text)?;
    if input.len() > 1000 {
        return Err("the input is longer than these tests want".into());
    }
    Ok(judge(alloc, input.as_slice()))
}

#[test]
fn judges_the_report_behind_a_scenario(rt: HostRuntime) -> Result<(), Fail> {
    let alloc = rt.alloc();
    let accepted =
        b"\ncmm2-report 1 replay\nevent 0 moved\nevent 1 moved\nevent 2 finished\nguest 0 entries 1 discards 0 faults 0\n0 0 ok 68656c6c6f\nend\n";
    let other_bytes =
        b"\ncmm2-report 1 replay\nevent 0 moved\nevent 1 moved\nevent 2 finished\nguest 0 entries 1 discards 0 faults 0\n0 0 ok 68656c6c70\nend\n";
    let no_end =
        b"\ncmm2-report 1 replay\nevent 0 moved\nevent 1 moved\nevent 2 finished\nguest 0 entries 1 discards 0 faults 0\n0 0 ok 68656c6c6f\n";
    assert!(rt; matches!(judged(alloc, accepted)?, Ok(Verdict::Accepted)));
    assert!(rt;
        matches!(
            judged(alloc, other_bytes)?,
            Ok(Verdict::Rejected { line: 6 })
        )
    );
    assert!(rt; matches!(judged(alloc, no_end)?, Ok(Verdict::Rejected { line: 7 })));
    assert!(rt; matches!(judged(alloc, b"\n")?, Err(InputError::NoReport)));
    assert!(rt;
        matches!(
            judged(alloc, b"}\ncmm2-report 1 run\n")?,
            Err(InputError::NotJson)
        )
    );
    assert!(rt;
        matches!(
            judge(alloc, b"{}\ncmm2-report 1 run\n"),
            Err(InputError::Fault { .. })
        )
    );
    Ok(())
}

#[test]
fn writes_the_line_of_each_verdict(rt: HostRuntime) -> Result<(), Fail> {
    let alloc = rt.alloc();
    let mut sink = MemSink::open(alloc, 64, Vec::new(alloc))?;
    write_verdict(&mut sink, Verdict::Accepted)?;
    write_verdict(&mut sink, Verdict::Rejected { line: u32::MAX })?;
    assert_eq!(rt; sink.bytes(), b"accepted\nrejected 4294967295\n".as_slice());
    Ok(())
}
