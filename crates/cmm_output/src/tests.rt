use crate::Output;
use cmm_io::{Sink, WriteFault, write_all};
use std::io::{self, Write};
use std::test::Fail;

/// Takes all that it is handed, up to a number of bytes, and counts the calls.
#[derive(Drop)]
struct Device {
    taken: usize,
    room: usize,
    calls: usize,
}

impl Write for Device {
    fn write(&mut self, buf: &[u8]) -> io::Result<usize> {
        let n = buf.len().min(self.room.saturating_sub(self.taken));
        self.taken = self.taken.saturating_add(n);
        self.calls = self.calls.saturating_add(1);
        Ok(n)
    }

    fn flush(&mut self) -> io::Result<()> {
        Ok(())
    }
}

fn with_room(room: usize) -> Device {
    Device {
        taken: 0,
        room,
        calls: 0,
    }
}

#[test]
fn a_hundred_thousand_lines_are_few_calls(rt: HostRuntime) -> Result<(), Fail> {
    let mut output = Output::open(rt.alloc(), with_room(usize::MAX))?;
    for _ in 0..100_000u32 {
        let written = write_all(&mut output, b"0 1 ok 68656c6c6f\n");
        assert_eq!(rt; written, Ok(()));
    }
    assert_eq!(rt; output.flush(), Ok(()));
    assert_eq!(rt; output.held_back(), 0);
    assert_eq!(rt; output.writer().taken, 1_800_000);
    assert!(rt; output.writer().calls <= 28);
    Ok(())
}

#[test]
fn a_last_flush_that_fails_is_a_failed_write(rt: HostRuntime) -> Result<(), Fail> {
    let mut output = Output::open(rt.alloc(), with_room(3))?;
    assert_eq!(rt; write_all(&mut output, b"line\n"), Ok(()));
    assert_eq!(rt; output.faults(), 0);
    assert_eq!(rt; output.flush(), Err(WriteFault));
    assert_eq!(rt; output.faults(), 1);
    assert_eq!(rt; output.held_back(), 2);
    assert_eq!(rt; output.writer().taken, 3);
    Ok(())
}

#[test]
fn a_full_device_fails_a_write(rt: HostRuntime) -> Result<(), Fail> {
    let mut output = Output::open(rt.alloc(), with_room(65_536))?;
    let page = [0u8; 4096];
    for _ in 0..32u32 {
        assert_eq!(rt; write_all(&mut output, &page), Ok(()));
    }
    assert_eq!(rt; write_all(&mut output, &page), Err(WriteFault));
    assert_eq!(rt; output.faults(), 1);
    assert_eq!(rt; output.writer().taken, 65_536);
    Ok(())
}
