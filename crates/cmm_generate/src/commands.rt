//! The commands of a generated scenario.

ghost use Rattle.std.specs.Prelude.{◌≡◌, IfOk};
ghost use Rattle.cmm_generate.specs.Draws.{Draws};
ghost use Rattle.cmm_generate.specs.Generated.{place, count, some_bytes, read, write, sync, load, store, of_kind, command, commands, commands_of};

use crate::numbers::Numbers;
use cmm_types::{Bytes64, Op, PAGE};
use std::alloc::{AllocError, Global};

/// An offset in eight pages, at least 64 bytes before the end of its page.
#[tactic(auto, unfolding(crate::specs::Generated::place))]
fn place(numbers: &mut Numbers) -> u32
    ensures { Draws place numbers.old.number numbers.new.number result }
{
    let page = numbers.below(8);
    let off = numbers.below(4033);
    PAGE as u32 * page + off
}

/// How many bytes are read.
#[tactic(auto, unfolding(crate::specs::Generated::count))]
fn count(numbers: &mut Numbers) -> u32
    ensures { Draws count numbers.old.number numbers.new.number result }
{
    1 + numbers.below(64)
}

/// One to eight bytes.
#[tactic(auto, unfolding(crate::specs::Generated::some_bytes))]
fn some_bytes(alloc: Global, numbers: &mut Numbers) -> Result<Bytes64, AllocError>
    ensures { IfOk result (Draws some_bytes numbers.old.number numbers.new.number) }
{
    let count = 1 + numbers.below(8);
    let bytes = crate::numbers::bytes(count, alloc, numbers)?;
    Ok(Bytes64::from_slice(bytes.as_slice()).unwrap())
}

#[tactic(auto, unfolding(crate::specs::Generated::read))]
fn read(numbers: &mut Numbers) -> Op
    ensures { Draws read numbers.old.number numbers.new.number result }
{
    let file = numbers.below(5);
    let off = place(numbers);
    let len = count(numbers);
    Op::Read { file, off, len }
}

#[tactic(auto, unfolding(crate::specs::Generated::write))]
fn write(alloc: Global, numbers: &mut Numbers) -> Result<Op, AllocError>
    ensures { IfOk result (Draws write numbers.old.number numbers.new.number) }
{
    let file = numbers.below(5);
    let off = place(numbers);
    let bytes = some_bytes(alloc, numbers)?;
    Ok(Op::Write { file, off, bytes })
}

#[tactic(auto, unfolding(crate::specs::Generated::sync))]
fn sync(numbers: &mut Numbers) -> Op
    ensures { Draws sync numbers.old.number numbers.new.number result }
{
    let file = numbers.below(5);
    Op::Sync { file }
}

#[tactic(auto, unfolding(crate::specs::Generated::load))]
fn load(map: u32, numbers: &mut Numbers) -> Op
    ensures { Draws (load map) numbers.old.number numbers.new.number result }
{
    let off = place(numbers);
    let len = count(numbers);
    Op::Load { map, off, len }
}

#[tactic(auto, unfolding(crate::specs::Generated::store))]
fn store(map: u32, alloc: Global, numbers: &mut Numbers) -> Result<Op, AllocError>
    ensures { IfOk result (Draws (store map) numbers.old.number numbers.new.number) }
{
    let off = place(numbers);
    let bytes = some_bytes(alloc, numbers)?;
    Ok(Op::Store { map, off, bytes })
}

/// A command of one of ten kinds.
#[tactic(auto, unfolding(crate::specs::Generated::of_kind))]
fn of_kind(kind: u32, alloc: Global, numbers: &mut Numbers) -> Result<Op, AllocError>
    ensures { IfOk result (Draws (of_kind kind) numbers.old.number numbers.new.number) }
{
    if kind <= 1 {
        Ok(read(numbers))
    } else if kind == 2 {
        write(alloc, numbers)
    } else if kind == 3 {
        Ok(sync(numbers))
    } else if kind <= 5 {
        Ok(load(0, numbers))
    } else if kind == 6 {
        store(0, alloc, numbers)
    } else if kind == 7 {
        Ok(load(1, numbers))
    } else {
        store(1, alloc, numbers)
    }
}

/// Command `j`: each processor maps a file first and memory of its own next.
#[tactic(auto, unfolding(crate::specs::Generated::command))]
fn command(j: u32, alloc: Global, numbers: &mut Numbers) -> Result<Op, AllocError>
    ensures { IfOk result (Draws (command j) numbers.old.number numbers.new.number) }
{
    if j < 4 {
        return Ok(Op::MapFile {
            map: 0,
            file: j % 2,
            first: 0,
            count: 8,
            writable: true,
        });
    }
    if j < 8 {
        return Ok(Op::MapAnon { map: 1, count: 8 });
    }
    let kind = numbers.below(10);
    of_kind(kind, alloc, numbers)
}

/// All commands, in the order in which they are drawn.
#[tactic(auto, using(crate::proofs::Loops::one_more), unfolding(crate::specs::Draws::in_turn))]
pub fn commands(size: u32, alloc: Global, numbers: &mut Numbers) -> Result<Vec<Op>, AllocError>
    ensures { IfOk result (λ ops. Draws (commands size) numbers.old.number numbers.new.number ops.items) }
{
    let mut ops = Vec::new(alloc);
    for j in 0..size {
        ops.push(command(j, alloc, numbers)?)?;
    }
    Ok(ops)
}

/// A processor's commands among all.
pub fn commands_of(guest: u32, cpu: u32, ops: &[Op], alloc: Global) -> Result<Vec<Op>, AllocError>
    ensures { IfOk result (λ its. its.items ≡ commands_of guest cpu 0 ops.now) }
{
    let mut its = Vec::new(alloc);
    for (j, op) in ops.iter().enumerate() {
        if j % 4 / 2 == guest as usize && j % 2 == cpu as usize {
            its.push(op.copy())?;
        }
    }
    Ok(its)
}
