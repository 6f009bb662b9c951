// Machines that run, with what no contract can say: that threads run beside each other, and that reclaimers find pages.
use crate::gates::{Holding, Meeting};
use crate::plans::{guest, processor, read, scenario};
use cmm_types::{Bytes64, Entry, Op, Reply, Scenario};
use cmm_vcpu::{Machine, run_all};
use essa_state::Word;
use host_shared::PassGate;
use std::alloc::{AllocError, Global};
use std::test::Fail;

// Whether an entry answers with these bytes.
fn answers(entry: &Entry, bytes: &[u8]) -> bool {
    match &entry.reply {
        Reply::Bytes(its) => its.as_slice() == bytes,
        _ => false,
    }
}

// How many entries answer with these bytes.
fn answered(journal: &[Entry], bytes: &[u8]) -> usize {
    journal.iter().filter(|entry| answers(entry, bytes)).count()
}

fn discards(words: &[Word]) -> u64 {
    let mut sum = 0u64;
    for word in words {
        sum = sum.saturating_add(u64::from(word.count()));
    }
    sum
}

// Two guests with the file "ab" and a processor each, which reads a byte.
fn two_guests(alloc: Global) -> Result<Scenario, AllocError> {
    let mut guests = Vec::new(alloc);
    for _ in 0..2 {
        let cpu = processor(0, vec![in alloc; read(1)]?);
        guests.push(guest(alloc, 4, b"ab", vec![in alloc; cpu]?)?)?;
    }
    Ok(scenario(alloc, 8, 0, guests))
}

// A guest with the file "ab" and two processors, each of which reads a byte.
fn two_processors(alloc: Global) -> Result<Scenario, AllocError> {
    let mut cpus = Vec::new(alloc);
    for process in 0..2 {
        cpus.push(processor(process, vec![in alloc; read(1)]?))?;
    }
    let only = guest(alloc, 4, b"ab", cpus)?;
    Ok(scenario(alloc, 4, 0, vec![in alloc; only]?))
}

// A guest with the file "hello" and one processor, which reads it twice.
fn reads_twice(alloc: Global, reclaimers: u32) -> Result<Scenario, AllocError> {
    let cpu = processor(0, vec![in alloc; read(5), read(5)]?);
    let only = guest(alloc, 4, b"hello", vec![in alloc; cpu]?)?;
    Ok(scenario(alloc, 4, reclaimers, vec![in alloc; only]?))
}

#[test]
fn a_machine_opens_before_its_first_turn(rt: HostRuntime) -> Result<(), Fail> {
    let plan = reads_twice(rt.alloc(), 2)?;
    assert!(rt; plan.is_in_range());
    let machine = Machine::open(rt.alloc(), &plan)?;
    assert_eq!(rt; machine.guests(), 1);
    assert!(rt; machine.journal(0).is_empty() && machine.words(0).is_empty());
    assert_eq!(rt; machine.faults(0), 0);
    assert_eq!(rt; machine.close(), 0);
    Ok(())
}

#[test]
fn one_processor_runs_its_commands(rt: HostRuntime) -> Result<(), Fail> {
    let plan = reads_twice(rt.alloc(), 0)?;
    assert!(rt; plan.is_in_range());
    let mut machine = Machine::open(rt.alloc(), &plan)?;
    run_all(&rt, &mut machine, &PassGate);
    assert_eq!(rt; machine.guests(), 1);
    assert_eq!(rt; machine.journal(0).len(), 2);
    assert_eq!(rt; answered(machine.journal(0), b"hello"), 2);
    assert_eq!(rt; machine.words(0).len(), 4);
    assert_eq!(rt; (machine.faults(0), discards(machine.words(0))), (0, 0));
    assert_eq!(rt; machine.close(), 0);
    Ok(())
}

#[test]
fn a_reclaimer_discards_a_page_between_two_commands(rt: HostRuntime) -> Result<(), Fail> {
    let plan = reads_twice(rt.alloc(), 1)?;
    assert!(rt; plan.is_in_range());
    let mut machine = Machine::open(rt.alloc(), &plan)?;
    let gate = Holding::new();
    run_all(&rt, &mut machine, &gate);
    assert!(rt; !gate.missed());
    assert_eq!(rt; machine.guests(), 1);
    assert_eq!(rt; answered(machine.journal(0), b"hello"), 2);
    assert!(rt; discards(machine.words(0)) >= 1);
    assert_eq!(rt; machine.close(), 0);
    Ok(())
}

#[test]
fn processors_of_one_guest_run_beside_each_other(rt: HostRuntime) -> Result<(), Fail> {
    let plan = two_processors(rt.alloc())?;
    assert!(rt; plan.is_in_range());
    let mut machine = Machine::open(rt.alloc(), &plan)?;
    let gate = Meeting::new();
    run_all(&rt, &mut machine, &gate);
    assert!(rt; !gate.missed());
    assert_eq!(rt; machine.guests(), 1);
    assert_eq!(rt; machine.journal(0).len(), 2);
    assert_eq!(rt; answered(machine.journal(0), b"a"), 2);
    assert_eq!(rt; (machine.faults(0), discards(machine.words(0))), (0, 0));
    assert_eq!(rt; machine.close(), 0);
    Ok(())
}

#[test]
fn processors_of_two_guests_run_beside_each_other(rt: HostRuntime) -> Result<(), Fail> {
    let plan = two_guests(rt.alloc())?;
    assert!(rt; plan.is_in_range());
    let mut machine = Machine::open(rt.alloc(), &plan)?;
    let gate = Meeting::new();
    run_all(&rt, &mut machine, &gate);
    assert!(rt; !gate.missed());
    assert_eq!(rt; machine.guests(), 2);
    for guest in 0..2 {
        assert_eq!(rt; machine.journal(guest).len(), 1);
        assert_eq!(rt; answered(machine.journal(guest), b"a"), 1);
        assert_eq!(rt;
            (machine.faults(guest), discards(machine.words(guest))),
            (0, 0)
        );
    }
    assert_eq!(rt; machine.close(), 0);
    Ok(())
}
