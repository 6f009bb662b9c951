ghost use Rattle.std.specs.Prelude.{◌≡◌, ◌+◌, ◌++◌, ◌<◌, ◌≤◌, ◌^◌, [], ℕ, length, List, All, IfOk, OnOk, slice_index_or};
ghost use Rattle.cmm_types.specs.declared.page.TheConstants.{PAGE};
ghost use Rattle.cmm_types.specs.InRange.{FileInRange, GuestInRange, file_pages_of};
ghost use Rattle.cmm_io.specs.DiskView.{DiskFollows};
ghost use Rattle.cmm_io.specs.DiskOf.{AreZeros, disk_of, file_blocks};
ghost use Rattle.cmm_io.specs.DiskState.{DiskStep, disk_view, opened, opening_disk};
ghost use Rattle.cmm_io.specs.Padded.{padded};

use crate::disk::Disk;
use crate::failed::Failed;
use crate::failures::PlannedFailures;
use cmm_types::{FilePlan, GuestPlan, PAGE, file_pages};
use page_pieces::{Piece, pieces};
use std::alloc::{AllocError, Global};
use std::marker::Model;

// These bytes, and zeros behind them.
fn filled(head: &[u8]) -> [u8; PAGE]
    requires { length head.now ≤ PAGE }
    ensures { result ≡ padded head.now }
{
    let mut block = [0; PAGE];
    block[..head.len()].copy_from_slice(head);
    block
}

// One of the pieces that are left, with these bytes at its beginning. One of zeros isn't written.
fn take_block(spare: &mut Vec<Piece>, head: &[u8]) -> Piece
    requires some { 0 < length spare.old.items }
    requires zeros { AreZeros spare.old.items }
    requires head { length head.now ≤ PAGE }
    ensures block { result ≡ padded head.now }
    ensures zeros { AreZeros spare.new.items }
    ensures left { length spare.new.items + 1 ≡ length spare.old.items }
{
    let mut block = spare.pop().unwrap();
    if head.len() > 0 {
        block.set(&filled(head));
    }
    block
}

// Puts the pages of a file behind the blocks, which are taken of the pieces that are left.
fn add_file(
    blocks: &mut Vec<Piece>,
    spare: &mut Vec<Piece>,
    file: &FilePlan,
) -> Result<(), AllocError>
    requires range { FileInRange file.now }
    requires zeros { AreZeros spare.old.items }
    requires room { file.now.pages ≤ length spare.old.items }
    ensures blocks { OnOk result (blocks.new.items ≡ blocks.old.items ++ file_blocks file.now) }
    ensures zeros { OnOk result (AreZeros spare.new.items) }
    ensures left { OnOk result (length spare.new.items + file.now.pages ≡ length spare.old.items) }
{
    let head = file.head.as_slice();
    for index in 0..file.pages {
        let start = head.len().min(PAGE * index as usize);
        let end = head.len().min(start + PAGE);
        blocks.push(take_block(spare, &head[start..end]))?;
    }
    Ok(())
}

// The pages of the files in order, and behind them blocks of zeros.
fn first_blocks(alloc: Global, files: &[FilePlan], swap: u32) -> Result<Vec<Piece>, AllocError>
    requires ranges { All FileInRange files.now }
    requires count { file_pages_of files.now + swap < 2 ^ 32 }
    ensures { IfOk result (λ blocks. blocks.items ≡ disk_of files.now swap) }
{
    let count = file_pages(files) + swap;
    let mut spare = pieces(alloc, count)?;
    let mut blocks = Vec::with_capacity(alloc, count as usize)?;
    for file in files {
        add_file(&mut blocks, &mut spare, file)?;
    }
    blocks.append(&mut spare)?;
    Ok(blocks)
}

/// A disk in memory. Reads and writes are numbered together, and a call fails exactly where its number is planned. A
/// block of zeros costs no memory before it is written.
#[derive(Drop)]
pub struct MemDisk {
    blocks: Vec<Piece>,
    failures: PlannedFailures,
}

impl Model for MemDisk {
    ghost use Rattle.std.specs.Prelude.{◌≡◌, ◌<◌, ◌^◌, length, All};
    ghost use Rattle.cmm_types.specs.declared.page.TheConstants.{PAGE};
    ghost use Rattle.cmm_io.specs.DiskState.{DiskState};

    ghost Value = { DiskState };

    ghost view = { λ d. record { blocks = d.blocks.items; failures = d.failures } };

    ghost invariant = { λ d. (length d.blocks.items < 2 ^ 32) × All (λ bytes. length bytes ≡ PAGE) d.blocks.items };
}

impl MemDisk {
    /// The pages of the files in order, and behind them `swap` blocks of zeros; the calls with the numbers in
    /// `fails` fail.
    pub fn open(
        alloc: Global,
        files: &[FilePlan],
        swap: u32,
        fails: &[u32],
    ) -> Result<MemDisk, AllocError>
        requires ranges { All FileInRange files.now }
        requires count { file_pages_of files.now + swap < 2 ^ 32 }
        ensures { IfOk result (λ disk. disk ≡ opened files.now swap fails.now) }
    {
        let blocks = first_blocks(alloc, files, swap)?;
        Ok(MemDisk {
            blocks,
            failures: PlannedFailures::open(alloc, fails)?,
        })
    }

    /// The disk of a guest before its first call: its files, its swap slots, and the calls that are planned to fail.
    #[tactic(auto, using(cmm_types::specs::Laws::RangeLaws::blocks_bound))]
    pub fn of_plan(alloc: Global, plan: &GuestPlan) -> Result<MemDisk, AllocError>
        requires { GuestInRange plan.now }
        ensures { IfOk result (λ disk. disk ≡ opening_disk plan.now) }
    {
        MemDisk::open(
            alloc,
            plan.files.as_slice(),
            plan.swap,
            plan.disk_fail.as_slice(),
        )
    }

    /// The bytes of a block. This is no numbered call.
    pub fn block(&self, block: u32) -> &[u8]
        requires { block < length self.now.blocks }
        ensures { result.now ≡ slice_index_or self.now.blocks block [] }
    {
        self.blocks[block as usize].bytes()
    }
}

impl Disk for MemDisk {
    ghost view = { disk_view };

    ghost step = { λ d call e. DiskStep d call e × DiskFollows (disk_view d) call (disk_view e) };

    ghost meets = { λ d call e s. s.1 };

    fn faults(&self) -> u64 {
        self.failures.faults()
    }

    fn blocks(&self) -> u32 {
        self.blocks.len() as u32
    }

    fn read(&mut self, block: u32, into: &mut [u8]) -> Result<(), Failed> {
        if self.failures.next() {
            return Err(Failed);
        }
        into.copy_from_slice(self.blocks[block as usize].bytes());
        Ok(())
    }

    fn write(&mut self, block: u32, from: &[u8]) -> Result<(), Failed> {
        if self.failures.next() {
            return Err(Failed);
        }
        self.blocks[block as usize].set(from);
        Ok(())
    }
}
