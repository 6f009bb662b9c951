use crate::{Totals, write_end, write_events, write_guest, write_head, write_summary};
use cmm_io::MemSink;
use cmm_types::{Alone, Answer, Bytes64, Cause, Entry, FlatRefusal, Op, Refused, Reply, Turn, Why};
use std::test::Fail;

#[test]
fn writes_the_text_of_each_answer(rt: HostRuntime) -> Result<(), Fail> {
    let cases: [(Answer, &str); 18] = [
        (Answer::Turn(Turn::Moved), "moved"),
        (Answer::Turn(Turn::Finished), "finished"),
        (Answer::Turn(Turn::Waits { page: 3, owner: 1 }), "waits 3 1"),
        (
            Answer::Turn(Turn::Again {
                why: Why::NoFrame { looks: 2 },
            }),
            "again",
        ),
        (Answer::Turn(Turn::Idle), "idle"),
        (
            Answer::Alone(Alone::Finished { turns: 12 }),
            "alone finished 12",
        ),
        (
            Answer::Alone(Alone::Waits {
                turns: 1,
                page: 20,
                owner: 0,
            }),
            "alone waits 1 20 0",
        ),
        (Answer::Alone(Alone::Idle), "alone idle"),
        (Answer::HostDone, "done"),
        (Answer::HostRefused(Refused::Stable), "refused stable"),
        (Answer::HostRefused(Refused::Changed), "refused changed"),
        (Answer::HostRefused(Refused::Absent), "refused absent"),
        (Answer::HostRefused(Refused::Volatile), "refused volatile"),
        (Answer::HostRefused(Refused::Counted), "refused counted"),
        (Answer::HostPaging, "failed paging"),
        (
            Answer::Reclaimed {
                count: 0,
                paging: false,
            },
            "reclaimed 0",
        ),
        (
            Answer::Reclaimed {
                count: 65_536,
                paging: false,
            },
            "reclaimed 65536",
        ),
        (
            Answer::Reclaimed {
                count: 4,
                paging: true,
            },
            "reclaimed 4 failed paging",
        ),
    ];
    for (answer, text) in cases {
        let mut sink = MemSink::open(rt.alloc(), 256, Vec::new(rt.alloc()))?;
        write_events(&mut sink, &[answer])?;
        let line = format!(in rt.alloc(); "event 0 {text}\n")?;
        assert_eq!(rt; sink.bytes(), line.as_bytes());
    }
    Ok(())
}

#[test]
fn writes_the_text_of_each_reply(rt: HostRuntime) -> Result<(), Fail> {
    let cases = [
        (Reply::Done, "ok"),
        (
            Reply::Bytes(Bytes64::from_slice(b"hello\0\xff").ok_or("long")?),
            "ok 68656c6c6f00ff",
        ),
        (Reply::Refused(FlatRefusal::NoMapping), "refused no-mapping"),
        (Reply::Refused(FlatRefusal::AlreadyMapped), "refused mapped"),
        (Reply::Refused(FlatRefusal::OutOfRange), "refused range"),
        (Reply::Refused(FlatRefusal::ReadOnly), "refused read-only"),
        (Reply::Refused(FlatRefusal::Pinned), "refused pinned"),
        (Reply::Refused(FlatRefusal::NotPinned), "refused not-pinned"),
        (Reply::Refused(FlatRefusal::TooManyMaps), "refused too-many"),
        (Reply::Fail(Cause::Disk), "fail disk"),
        (Reply::Fail(Cause::Paging), "fail paging"),
        (
            Reply::Fail(Cause::NoPage {
                pinned: 3,
                unslotted: 1,
            }),
            "fail nopage 3 1",
        ),
    ];
    for (reply, text) in cases {
        let mut sink = MemSink::open(rt.alloc(), 512, Vec::new(rt.alloc()))?;
        let op = Op::Sync { file: 0 };
        let journal = [Entry {
            cpu: 2,
            k: 10,
            op,
            reply,
        }];
        write_guest(&mut sink, 1, &journal, 5, 4)?;
        let lines = format!(in rt.alloc(); "guest 1 entries 1 discards 5 faults 4\n2 10 {text}\n")?;
        assert_eq!(rt; sink.bytes(), lines.as_bytes());
    }
    Ok(())
}

#[test]
fn writes_the_first_and_the_last_line(rt: HostRuntime) -> Result<(), Fail> {
    let mut sink = MemSink::open(rt.alloc(), 256, Vec::new(rt.alloc()))?;
    write_head(&mut sink, false)?;
    write_head(&mut sink, true)?;
    write_end(&mut sink)?;
    let lines = "cmm2-report 1 replay\ncmm2-report 1 run\nend\n";
    assert_eq!(rt; sink.bytes(), lines.as_bytes());
    Ok(())
}

#[test]
fn writes_the_line_of_totals(rt: HostRuntime) -> Result<(), Fail> {
    let mut sink = MemSink::open(rt.alloc(), 256, Vec::new(rt.alloc()))?;
    let totals = Totals {
        events: 2375,
        entries: 2000,
        discards: 31,
        faults: 4,
    };
    write_summary(&mut sink, 7, 2000, &totals)?;
    let line = "cmm2-demo 1 start 7 size 2000 events 2375 entries 2000 discards 31 faults 4\n";
    assert_eq!(rt; sink.bytes(), line.as_bytes());
    Ok(())
}
