// Guests whose pages are twice as many as the frames, beside two reclaimers.
ghost use Rattle.std.specs.Prelude.{◌<◌};

use crate::plans::{guest, processor, scenario};
use cmm_types::{Bytes64, CpuPlan, Entry, Op, Reply, Scenario};
use cmm_vcpu::{Machine, run_all};
use host_shared::PassGate;
use std::alloc::{AllocError, Global};
use std::test::Fail;

/// How often a processor writes and reads its pages.
const ROUNDS: usize = 25;

/// The pages of a processor.
const PAGES: u32 = 4;

// A store of this byte at the beginning of a page, and a load of it.
fn push_both(commands: &mut Vec<Op>, byte: u8, page: u32) -> Result<(), AllocError>
    requires { page < 4 }
{
    let off = page * 4096;
    if let Some(bytes) = Bytes64::from_slice(&[byte]) {
        commands.push(Op::Store { map: 0, off, bytes })?;
    }
    commands.push(Op::Load {
        map: 0,
        off,
        len: 1,
    })?;
    Ok(())
}

// A processor that maps pages of its own, and writes this byte to each of them and reads it, round after round.
fn busy(alloc: Global, process: u32, byte: u8) -> Result<CpuPlan, AllocError> {
    let mut commands = Vec::new(alloc);
    commands.push(Op::MapAnon {
        map: 0,
        count: PAGES,
    })?;
    for _ in 0..ROUNDS {
        for page in 0..PAGES {
            push_both(&mut commands, byte, page)?;
        }
    }
    Ok(processor(process, commands))
}

fn crowded(alloc: Global) -> Result<Scenario, AllocError> {
    let mut guests = Vec::new(alloc);
    for _ in 0..2 {
        let cpus = vec![in alloc; busy(alloc, 0, b'a')?, busy(alloc, 1, b'b')?]?;
        guests.push(guest(alloc, 10, b"ab", cpus)?)?;
    }
    Ok(scenario(alloc, 10, 2, guests))
}

fn loaded(entry: &Entry, cpu: u32, byte: u8) -> bool {
    match &entry.reply {
        Reply::Bytes(bytes) => entry.cpu == cpu && bytes.as_slice() == [byte].as_slice(),
        _ => false,
    }
}

// How many loads of a processor found this byte.
fn found(journal: &[Entry], cpu: u32, byte: u8) -> usize {
    journal
        .iter()
        .filter(|entry| loaded(entry, cpu, byte))
        .count()
}

#[test]
fn crowded_guests_read_what_they_wrote(rt: HostRuntime) -> Result<(), Fail> {
    let plan = crowded(rt.alloc())?;
    assert!(rt; plan.is_in_range());
    let mut machine = Machine::open(rt.alloc(), &plan)?;
    run_all(&rt, &mut machine, &PassGate);
    assert_eq!(rt; machine.guests(), 2);
    for guest in 0..2 {
        let journal = machine.journal(guest);
        assert_eq!(rt; found(journal, 0, b'a'), 4 * ROUNDS);
        assert_eq!(rt; found(journal, 1, b'b'), 4 * ROUNDS);
        assert_eq!(rt; journal.len(), 2 + 16 * ROUNDS);
        assert_eq!(rt; machine.words(guest).len(), 10);
    }
    assert_eq!(rt; machine.close(), 0);
    Ok(())
}
