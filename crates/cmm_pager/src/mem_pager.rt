ghost use Rattle.std.specs.Prelude.{◌≡◌, ◌≤◌, length, replicate, IfOk};
ghost use Rattle.cmm_types.specs.declared.page.TheConstants.{PAGE};
ghost use Rattle.cmm_io.specs.FailurePlan.{failure_plan_of, fails_next, after_next};
ghost use Rattle.cmm_pager.specs.PagerFollows.{PagerFollows};
ghost use Rattle.cmm_pager.specs.PagerStep.{PagerStep, block_tells};

use crate::pager::{Pager, PagingBlock};
use cmm_io::{Failed, PlannedFailures};
use page_pieces::{Piece, pieces};
use std::alloc::{AllocError, Global};
use std::marker::Model;

/// A paging block in memory. Contracts see it as its bytes.
#[derive(Drop)]
pub struct MemBlock {
    bytes: Piece,
}

impl Model for MemBlock {
    ghost use Rattle.std.specs.Prelude.{ℕ, List};

    ghost Value = { List ℕ };

    ghost view = { λ b. b.bytes };
}

impl MemBlock {
    /// A block of zeros, with all its memory.
    pub fn open(alloc: Global) -> Result<MemBlock, AllocError>
        ensures { IfOk result (λ block. block ≡ replicate PAGE 0) }
    {
        match pieces(alloc, 1)?.pop() {
            Some(bytes) => Ok(MemBlock { bytes }),
            None => unreachable!(),
        }
    }

    /// As many blocks of zeros as asked for, with all their memory, which is one reservation: what no page was put to
    /// is not written.
    pub fn open_all(alloc: Global, count: u32) -> Result<Vec<MemBlock>, AllocError>
        ensures { IfOk result (λ blocks. blocks.items ≡ replicate count (replicate PAGE 0)) }
    {
        let mut blocks = Vec::with_capacity(alloc, count as usize)?;
        for bytes in pieces(alloc, count)? {
            blocks.push_reserved(MemBlock { bytes });
        }
        Ok(blocks)
    }

    /// The bytes that it keeps. This is no numbered call.
    pub fn bytes(&self) -> &[u8]
        ensures bytes { result.now ≡ self.now }
        ensures whole { length result.now ≡ PAGE }
    {
        self.bytes.bytes()
    }
}

impl PagingBlock for MemBlock {
    ghost tells = { block_tells };
}

/// A pager in memory. Puts and gets are numbered together from 1, and a call fails exactly where its number is
/// planned. Contracts see it as its calls: how many there were, which are planned to fail, and how many failed.
#[derive(Drop)]
pub struct MemPager {
    failures: PlannedFailures,
}

impl Model for MemPager {
    ghost use Rattle.cmm_io.specs.FailurePlan.{FailurePlan};

    ghost Value = { FailurePlan };

    ghost view = { λ p. p.failures };
}

impl MemPager {
    /// A pager before its first call; the calls with the numbers in `fails` fail.
    pub fn open(alloc: Global, fails: &[u32]) -> Result<MemPager, AllocError>
        ensures { IfOk result (λ pager. pager ≡ failure_plan_of fails.now) }
    {
        let failures = PlannedFailures::open(alloc, fails)?;
        Ok(MemPager { failures })
    }

    // Counts the next call, and answers whether it fails.
    fn fails(&mut self) -> bool
        ensures planned { result ≡ fails_next self.old }
        ensures counts { self.new ≡ after_next self.old }
        ensures never_falls { self.old.faults ≤ self.new.faults }
    {
        self.failures.next()
    }
}

impl Pager for MemPager {
    type Block = MemBlock;

    ghost faults = { λ p. p.faults };

    ghost step = { λ p call q. PagerStep p call q × PagerFollows block_tells p.faults call q.faults };

    ghost meets = { λ p call q s. s.1 };

    fn faults(&self) -> u64 {
        self.failures.faults()
    }

    fn put(&mut self, block: &mut MemBlock, bytes: &[u8]) -> Result<(), Failed> {
        if self.fails() {
            return Err(Failed);
        }
        block.bytes.set(bytes);
        Ok(())
    }

    fn get(&mut self, block: &MemBlock, into: &mut [u8]) -> Result<(), Failed> {
        if self.fails() {
            return Err(Failed);
        }
        into.copy_from_slice(block.bytes.bytes());
        Ok(())
    }
}
