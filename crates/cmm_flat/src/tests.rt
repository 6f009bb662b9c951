ghost use Rattle.std.specs.Prelude.{◌≡◌, ◌≤◌, length};

use crate::Flat;
use cmm_types::{Bytes64, FilePlan, FlatRefusal, Items, Op, Reply};
use std::alloc::Global;
use std::test::Fail;

fn bytes(bytes: &[u8]) -> Bytes64
    requires { length bytes.now ≤ 64 }
    ensures { result ≡ bytes.now }
{
    Bytes64::from_slice(bytes).unwrap()
}

fn read(file: u32, off: u32, len: u32) -> Op {
    Op::Read { file, off, len }
}

/// Maps a page of file 0 from its start on.
fn map_page(map: u32, writable: bool) -> Op {
    map_pages(map, 1, writable)
}

fn map_pages(map: u32, count: u32, writable: bool) -> Op {
    Op::MapFile {
        map,
        file: 0,
        first: 0,
        count,
        writable,
    }
}

fn map_anon(map: u32) -> Op {
    Op::MapAnon { map, count: 1 }
}

/// Loads the first bytes of a mapping.
fn load(map: u32, len: u32) -> Op {
    Op::Load { map, off: 0, len }
}

/// Stores a byte at the start of a mapping.
fn store(map: u32, byte: u8) -> Op {
    Op::Store {
        map,
        off: 0,
        bytes: bytes(&[byte]),
    }
}

fn refused(why: FlatRefusal) -> Reply {
    Reply::Refused(why)
}

/// One byte.
fn byte(byte: u8) -> Reply {
    Reply::Bytes(bytes(&[byte]))
}

/// A machine with one file of one page.
fn one_file(alloc: Global, head: &[u8]) -> Result<Flat, Fail>
    requires { length head.now ≤ 64 }
{
    let mut plans = Vec::new(alloc);
    plans.push(FilePlan {
        pages: 1,
        head: Items::from_vec(Vec::from_slice(alloc, head)?),
    })?;
    Ok(Flat::open(alloc, &plans)?)
}

#[test]
fn refuses_in_order(rt: HostRuntime) -> Result<(), Fail> {
    let mut flat = one_file(rt.alloc(), &[0x00])?;
    for (op, reply) in [
        (load(5, 1), refused(FlatRefusal::NoMapping)),
        (map_pages(0, 2, true), refused(FlatRefusal::OutOfRange)),
        (map_page(0, false), Reply::Done),
        (map_page(0, false), refused(FlatRefusal::AlreadyMapped)),
        (store(0, 0x61), refused(FlatRefusal::ReadOnly)),
        (Op::Pin { map: 0, page: 0 }, Reply::Done),
        (Op::Pin { map: 0, page: 0 }, refused(FlatRefusal::Pinned)),
        (Op::Unmap { map: 0 }, refused(FlatRefusal::Pinned)),
        (Op::Unpin { map: 0, page: 0 }, Reply::Done),
        (
            Op::Unpin { map: 0, page: 0 },
            refused(FlatRefusal::NotPinned),
        ),
        (Op::Unmap { map: 0 }, Reply::Done),
        (read(0, 4095, 1), byte(0x00)),
        (read(0, 4096, 1), refused(FlatRefusal::OutOfRange)),
        (read(9, 0, 1), refused(FlatRefusal::OutOfRange)),
    ] {
        assert!(rt; op.is_in_range());
        assert_eq!(rt; flat.step(rt.alloc(), 0, &op)?, reply, "to {op:?}");
    }
    Ok(())
}

#[test]
fn shows_a_store_through_another_mapping(rt: HostRuntime) -> Result<(), Fail> {
    let mut flat = one_file(rt.alloc(), &[0x00])?;
    for (op, reply) in [
        (map_page(0, true), Reply::Done),
        (map_page(1, false), Reply::Done),
        (store(0, 0x61), Reply::Done),
        (load(1, 1), byte(0x61)),
        (Op::Sync { file: 0 }, Reply::Done),
        (load(1, 1), byte(0x61)),
    ] {
        assert!(rt; op.is_in_range());
        assert_eq!(rt; flat.step(rt.alloc(), 0, &op)?, reply, "to {op:?}");
    }
    Ok(())
}

#[test]
fn forgets_anonymous_bytes_at_an_unmap(rt: HostRuntime) -> Result<(), Fail> {
    let mut flat = Flat::open(rt.alloc(), &[])?;
    for (op, reply) in [
        (map_anon(0), Reply::Done),
        (store(0, 0x61), Reply::Done),
        (load(0, 1), byte(0x61)),
        (Op::Unmap { map: 0 }, Reply::Done),
        (map_anon(0), Reply::Done),
        (load(0, 1), byte(0x00)),
    ] {
        assert!(rt; op.is_in_range());
        assert_eq!(rt; flat.step(rt.alloc(), 0, &op)?, reply, "to {op:?}");
    }
    Ok(())
}

#[test]
fn keeps_a_stored_byte(rt: HostRuntime) -> Result<(), Fail> {
    let mut flat = one_file(rt.alloc(), b"ab")?;
    for (op, reply) in [
        (map_page(0, true), Reply::Done),
        (store(0, b'z'), Reply::Done),
        (load(0, 2), Reply::Bytes(bytes(b"zb"))),
        (read(0, 0, 2), Reply::Bytes(bytes(b"zb"))),
    ] {
        assert!(rt; op.is_in_range());
        assert_eq!(rt; flat.step(rt.alloc(), 0, &op)?, reply, "to {op:?}");
    }
    Ok(())
}

#[test]
fn counts_live_mappings_over_all_processes(rt: HostRuntime) -> Result<(), Fail> {
    let alloc = rt.alloc();
    let mut flat = Flat::open(alloc, &[])?;
    for map in 0..256 {
        assert_eq!(rt;
            flat.step(alloc, 0, &Op::MapAnon { map, count: 1 })?,
            Reply::Done
        );
    }
    assert_eq!(rt;
        flat.step(alloc, 1, &Op::MapAnon { map: 0, count: 1 })?,
        Reply::Refused(FlatRefusal::TooManyMaps)
    );
    Ok(())
}

#[test]
fn opens_and_reads_with_ample_memory(rt: HostRuntime) -> Result<(), Fail> {
    let mut flat = one_file(rt.alloc(), b"hello")?;
    let op = read(0, 0, 5);
    assert!(rt; op.is_in_range());
    assert_eq!(rt;
        flat.step(rt.alloc(), 0, &op)?,
        Reply::Bytes(bytes(b"hello"))
    );
    Ok(())
}
