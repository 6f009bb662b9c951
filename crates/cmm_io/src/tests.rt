ghost use Rattle.std.specs.Prelude.{◌≡◌, IfOk};

use crate::{
    Disk, Failed, MemDisk, MemSink, MemSource, ReadError, Sink, Source, StdSink, StdSource,
    WriteFault, read_all, write_all,
};
use cmm_types::{FilePlan, Items, PAGE};
use std::io;
use std::io::{ErrorKind, Read, Write};
use std::test::Fail;

/// The smallest scenario of the worked rows.
const SMALLEST: &str =
    "{\"version\":1,\"frames\":4,\"guests\":[{\"pages\":4,\"swap\":0,\"files\":[{\"pages\":1,\"head\":\"68656c6c6f\"}],\"cpus\":[{\"process\":0,\"commands\":[\"read 0 0 5\"]}]}],\"schedule\":[\"cpu 0 0\",\"cpu 0 0\",\"cpu 0 0\"]}";

#[test]
fn reads_the_smallest_scenario(rt: HostRuntime) -> Result<(), Fail> {
    let input = SMALLEST.as_bytes();
    for (piece, limit) in [(1, 16_777_216), (7, 500), (5000, input.len())] {
        let bytes = input.to_vec(rt.alloc())?;
        let mut source = MemSource::new(bytes, piece, Vec::new(rt.alloc()));
        let read = read_all(rt.alloc(), &mut source, limit)?;
        assert_eq!(rt; read.as_slice(), input, "in pieces of {piece}");
    }
    Ok(())
}

#[test]
fn reads_to_the_end_or_says_why_not(rt: HostRuntime) -> Result<(), Fail> {
    // The number of the read that fails (0 for none), the limit, and the answer where it isn't the five bytes.
    let cases = [
        (0, 5, None),
        (0, 4, Some(ReadError::TooLong)),
        (1, 5, Some(ReadError::ReadFault)),
        (5, 5, Some(ReadError::ReadFault)),
        (6, 5, Some(ReadError::ReadFault)),
        (7, 5, None),
        (6, 4, Some(ReadError::TooLong)),
    ];
    for (fails, limit, want) in cases {
        let bytes = b"hello".to_vec(rt.alloc())?;
        let mut source = MemSource::new(bytes, 1, [fails].to_vec(rt.alloc())?);
        match read_all(rt.alloc(), &mut source, limit) {
            Ok(read) => {
                assert_eq!(rt; want, None, "read {fails} of at most {limit}");
                assert_eq!(rt; read.as_slice(), b"hello".as_slice());
            }
            Err(error) => {
                assert_eq!(rt; want, Some(error), "read {fails} of at most {limit}");
                let faults = u64::from(error == ReadError::ReadFault);
                assert_eq!(rt; source.faults(), faults, "read {fails} of at most {limit}");
            }
        }
    }
    Ok(())
}

#[test]
fn writes_whole_lines_up_to_the_failing_write(rt: HostRuntime) -> Result<(), Fail> {
    // The number of the write that fails, the room, and the bytes that are written of three lines.
    let cases: [(u32, usize, &[u8]); 5] = [
        (1, 64, b""),
        (2, 64, b"one\n"),
        (3, 64, b"one\ntwo\n"),
        (4, 64, b"one\ntwo\nthree\n"),
        (4, 9, b"one\ntwo\n"),
    ];
    for (fails, room, want) in cases {
        let mut sink = MemSink::open(rt.alloc(), room, [fails].to_vec(rt.alloc())?)?;
        let lines: [&[u8]; 3] = [b"one\n", b"two\n", b"three\n"];
        let mut answer = Ok(());
        for line in lines {
            if answer.is_ok() {
                answer = write_all(&mut sink, line);
            }
        }
        assert_eq!(rt; sink.bytes(), want, "write {fails} with room {room}");
        let whole = want.len() == 14;
        assert_eq!(rt; answer, if whole { Ok(()) } else { Err(WriteFault) });
        assert_eq!(rt; sink.faults(), u64::from(!whole));
    }
    Ok(())
}

#[test]
fn a_disk_has_the_files_and_then_the_swap_slots(rt: HostRuntime) -> Result<(), Fail> {
    let head = Items::from_vec(b"hello".to_vec(rt.alloc())?);
    let file = FilePlan { pages: 2, head };
    assert!(rt; file.is_in_range());
    let disk = MemDisk::open(rt.alloc(), &[file], 1, &[])?;
    assert_eq!(rt; disk.blocks(), 3);
    for (block, offset, want) in [(0, 4, b'o'), (0, 5, 0), (0, 4095, 0), (1, 0, 0), (2, 0, 0)] {
        assert!(rt; block < disk.blocks());
        let bytes = disk.block(block);
        assert_eq!(rt;
            bytes.get(offset),
            Some(&want),
            "byte {offset} of block {block}"
        );
    }
    Ok(())
}

#[test]
fn a_disk_fails_the_planned_calls(rt: HostRuntime) -> Result<(), Fail> {
    let mut disk = MemDisk::open(rt.alloc(), &[], 1, &[3, 2])?;
    let mut page = [7u8; PAGE];
    assert_eq!(rt; disk.write(0, &page), Ok(()));
    page[0] = 8;
    assert_eq!(rt; disk.write(0, &page), Err(Failed));
    assert_eq!(rt; disk.read(0, &mut page), Err(Failed));
    assert_eq!(rt; disk.read(0, &mut page), Ok(()));
    assert_eq!(rt; page[0], 7);
    assert_eq!(rt; disk.faults(), 2);
    Ok(())
}

#[test]
fn reads_from_a_reader_of_std(rt: HostRuntime) -> Result<(), Fail> {
    let mut source = StdSource::new(SMALLEST.as_bytes());
    let read = read_all(rt.alloc(), &mut source, 1000)?;
    assert_eq!(rt; read.as_slice(), SMALLEST.as_bytes());
    assert_eq!(rt; source.faults(), 0);
    Ok(())
}

/// Takes three bytes, and nothing more.
#[derive(Drop)]
struct FullDevice {
    taken: usize,
}

impl Write for FullDevice {
    fn write(&mut self, buf: &[u8]) -> io::Result<usize> {
        let n = buf.len().min(3usize.saturating_sub(self.taken));
        self.taken = self.taken.saturating_add(n);
        Ok(n)
    }

    fn flush(&mut self) -> io::Result<()> {
        Ok(())
    }
}

#[test]
fn a_writer_that_takes_nothing_has_failed(rt: HostRuntime) {
    let mut sink = StdSink::new(FullDevice { taken: 0 });
    assert_eq!(rt; write_all(&mut sink, b"two"), Ok(()));
    assert_eq!(rt; sink.faults(), 0);
    assert_eq!(rt; write_all(&mut sink, b"more"), Err(WriteFault));
    assert_eq!(rt; sink.faults(), 1);
}

/// Carries so many bytes, one at each call, and fails from then on.
#[derive(Drop)]
struct CutCable {
    left: u32,
}

impl CutCable {
    fn carry(&mut self) -> io::Result<usize>
        ensures { IfOk result (λ n. n ≡ 1) }
    {
        if self.left == 0 {
            return Err(io::Error::from(ErrorKind::ConnectionReset));
        }
        self.left -= 1;
        Ok(1)
    }
}

impl Read for CutCable {
    fn read(&mut self, buf: &mut [u8]) -> io::Result<usize> {
        if buf.is_empty() {
            return Ok(0);
        }
        buf[0] = b'a';
        self.carry()
    }
}

impl Write for CutCable {
    fn write(&mut self, buf: &[u8]) -> io::Result<usize> {
        if buf.is_empty() {
            return Ok(0);
        }
        self.carry()
    }

    fn flush(&mut self) -> io::Result<()> {
        Ok(())
    }
}

#[test]
fn an_end_of_std_that_fails_in_mid_stream_is_a_fault(rt: HostRuntime) -> Result<(), Fail> {
    let mut source = StdSource::new(CutCable { left: 3 });
    match read_all(rt.alloc(), &mut source, 1000) {
        Ok(_) => assert!(rt; false, "three bytes and a failure"),
        Err(error) => assert_eq!(rt; error, ReadError::ReadFault),
    }
    assert_eq!(rt; source.faults(), 1);
    let mut sink = StdSink::new(CutCable { left: 5 });
    assert_eq!(rt; write_all(&mut sink, b"two"), Ok(()));
    assert_eq!(rt; write_all(&mut sink, b"more"), Err(WriteFault));
    assert_eq!(rt; sink.faults(), 1);
    Ok(())
}
