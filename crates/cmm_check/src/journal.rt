ghost use Rattle.std.specs.Prelude.{◌≡◌, ◌+◌, ◌-◌, ◌^◌, ◌<◌, ◌≤◌, nat_le, true, length, set, sum_by, IfOk, IfSome, OnSome, Some, map};
ghost use Rattle.std.specs.Option.{option_copied};
ghost use Rattle.cmm_types.specs.declared.command.Reply.TheVariants.{Fail};
ghost use Rattle.cmm_types.specs.declared.plan.TheConstants.{MAX_FAILS};
ghost use Rattle.cmm_types.specs.InRange.{GuestInRange, OpInRange};
ghost use Rattle.cmm_flat.specs.Legal.{Progress, at_start, progress_of, command_of, process_of, over_live, anonymous_pages};
ghost use Rattle.cmm_check.specs.Reading.{given};
ghost use Rattle.cmm_io.specs.Counted.{distinct};
ghost use Rattle.cmm_check.specs.Journal.{LinesWalked, no_lines_walked, can_fail, can_need_page, has_no_page, may_fail, disk_left, paging_left, entry_due, journal_entry, after_entry, ended_by, replied, entry_fits};
ghost use Rattle.cmm_check.specs.WalkAnswers.{TakesLine};

use crate::NoMemory;
use crate::entries::{read_cause, read_head};
use cmm_flat::Flat;
use cmm_report::is_reply_text;
use cmm_types::{Cause, CpuPlan, GuestPlan, Op, Reply};
use std::alloc::Global;
use std::marker::Model;

/// Where a processor is: the number of its next entry, and how many anonymous pages its last entry ended.
#[derive(Drop)]
pub struct Processor {
    next: u32,
    ended: usize,
}

impl Model for Processor {
    ghost use Rattle.cmm_flat.specs.Legal.{Progress};
    ghost use Rattle.cmm_check.specs.Journal.{coded_progress};

    ghost Value = { Progress };

    ghost coded = { coded_progress };

    ghost view = { λ p. record { next = p.next; ended = p.ended } };
}

/// A guest's journal as far as its lines have been walked: its flat machine, where its processors are, and how many
/// more failures of its disk and of its pager may come.
#[derive(Drop)]
pub struct Journal {
    flat: Flat,
    cpus: Vec<Processor>,
    disk: u32,
    paging: u32,
}

impl Model for Journal {
    ghost use Rattle.cmm_check.specs.Journal.{LinesWalked, coded_lines_walked};

    ghost Value = { LinesWalked };

    ghost coded = { coded_lines_walked };

    ghost view = { λ j. record { walk = record { flat = j.flat; cpus = j.cpus.items }; disk = j.disk; paging = j.paging } };
}

/// How many different numbers these are.
fn distinct(numbers: &[u32]) -> u32
    requires { length numbers.now ≤ MAX_FAILS }
    ensures value { result ≡ distinct numbers.now }
    ensures few { result ≤ length numbers.now }
{
    match numbers {
        [] => 0,
        [number, rest @ ..] => {
            let others = distinct(rest);
            if rest.contains(number) {
                others
            } else {
                others + 1
            }
        }
    }
}

fn can_fail(op: &Op) -> bool
    ensures { result ≡ can_fail op.now }
{
    match op {
        Op::Read { .. } | Op::Write { .. } | Op::Sync { .. } => true,
        Op::Load { .. } | Op::Store { .. } | Op::Pin { .. } => true,
        Op::MapFile { .. } | Op::MapAnon { .. } | Op::Unmap { .. } | Op::Unpin { .. } => false,
    }
}

fn can_need_page(op: &Op) -> bool
    ensures { result ≡ can_need_page op.now }
{
    match op {
        Op::Read { .. } | Op::Write { .. } | Op::Load { .. } => true,
        Op::Store { .. } | Op::Pin { .. } => true,
        Op::MapFile { .. } | Op::MapAnon { .. } | Op::Unmap { .. } => false,
        Op::Sync { .. } | Op::Unpin { .. } => false,
    }
}

fn at_start(alloc: Global, cpus: &[CpuPlan]) -> Result<Vec<Processor>, NoMemory>
    ensures { IfOk result (λ v. v.items ≡ map (λ cpu. at_start) cpus.now) }
{
    let mut processors = Vec::new(alloc);
    for _cpu in cpus {
        processors.push(Processor { next: 0, ended: 0 })?;
    }
    Ok(processors)
}

/// The command with this number of this processor.
fn command_of(plan: &GuestPlan, cpu: u32, k: u32) -> Option<&Op>
    ensures { option_copied result ≡ command_of plan.now cpu k }
{
    let its = plan.cpus.as_slice().get(cpu as usize)?;
    its.commands.as_slice().get(k as usize)
}

/// The process of a processor that the guest has.
fn process_of(plan: &GuestPlan, cpu: u32) -> u32
    requires { cpu < length plan.now.cpus }
    ensures { result ≡ process_of plan.now cpu }
{
    plan.cpus.as_slice()[cpu as usize].process
}

/// The anonymous pages that an entry ends, where an unmap would end so many.
fn ended_by(reply: &Reply, pages: usize) -> usize
    ensures { result ≡ ended_by reply.now pages }
{
    match reply {
        Reply::Done => pages,
        Reply::Bytes(_) => 0,
        Reply::Refused(_) => 0,
        Reply::Fail(_) => 0,
    }
}

impl Journal {
    /// A guest's journal before its first line.
    pub fn open(alloc: Global, plan: &GuestPlan) -> Result<Journal, NoMemory>
        requires { GuestInRange plan.now }
        ensures { IfOk result (λ journal. journal ≡ no_lines_walked plan.now) }
    {
        let flat = Flat::open(alloc, plan.files.as_slice())?;
        let cpus = at_start(alloc, plan.cpus.as_slice())?;
        Ok(Journal {
            flat,
            cpus,
            disk: distinct(plan.disk_fail.as_slice()),
            paging: distinct(plan.pager_fail.as_slice()),
        })
    }

    /// The command of this number of a processor, where it is the processor's next.
    #[tactic(auto, unfolding(crate::specs::Journal::entry_due), using(cmm_flat::specs::Laws::CommandLaws::command_in_range, crate::proofs::Plans::processor_there, crate::proofs::Plans::number_small))]
    fn due<'a>(&self, plan: &'a GuestPlan, cpu: u32, k: u32) -> Option<&'a Op>
        requires same { length self.now.walk.cpus ≡ length plan.now.cpus }
        requires range { GuestInRange plan.now }
        ensures due { option_copied result ≡ entry_due plan.now self.now.walk cpu k }
        ensures range { IfSome result (λ op. OpInRange op.now) }
        ensures there { OnSome result (cpu < length self.now.walk.cpus) }
        ensures next { OnSome result ((progress_of self.now.walk cpu).next ≡ k) }
        ensures few { OnSome result (k + 1 < 2 ^ 32) }
    {
        let op = command_of(plan, cpu, k)?;
        if self.cpus[cpu as usize].next == k {
            Some(op)
        } else {
            None
        }
    }

    /// Whether each page of the guest is pinned, or holds anonymous bytes for which there is no swap slot.
    fn has_no_page(&self, plan: &GuestPlan, pinned: u32, unslotted: u32) -> bool
        ensures { result ≡ has_no_page plan.now self.now.walk pinned unslotted }
    {
        if u64::from(pinned) + u64::from(unslotted) != u64::from(plan.pages) {
            return false;
        }
        if !self.flat.has_pinned(pinned as usize) {
            return false;
        }
        unslotted == 0 || self.has_anonymous(unslotted as usize + plan.swap as usize)
    }

    /// Whether there are so many pages of anonymous mappings that are live, or that the last entry of a processor
    /// ended.
    fn has_anonymous(&self, pages: usize) -> bool
        ensures { result ≡ nat_le pages (over_live anonymous_pages self.now.walk.flat + sum_by (λ cpu. cpu.ended) self.now.walk.cpus) }
    {
        let mut left = pages;
        for cpu in &self.cpus {
            left = left.saturating_sub(cpu.ended);
        }
        self.flat.has_anonymous(left)
    }

    fn may_fail(&self, plan: &GuestPlan, process: u32, op: &Op, cause: Cause) -> bool
        requires { OpInRange op.now }
        ensures { result ≡ may_fail plan.now self.now process op.now cause }
    {
        match cause {
            Cause::Disk => can_fail(op) && 0 < self.disk,
            Cause::Paging => can_fail(op) && 0 < self.paging,
            Cause::NoPage { pinned, unslotted } => {
                can_need_page(op)
                    && self.flat.refusal(process, op).is_none()
                    && self.has_no_page(plan, pinned, unslotted)
            }
        }
    }

    /// Goes on to a processor's next entry.
    fn pass(&mut self, cpu: u32, ended: usize)
        requires there { cpu < length self.old.walk.cpus }
        requires few { (progress_of self.old.walk cpu).next + 1 < 2 ^ 32 }
        ensures { self.new ≡ record self.old { walk = record { flat = self.old.walk.flat; cpus = set self.old.walk.cpus cpu (record { next = (progress_of self.old.walk cpu).next + 1; ended = ended }) } } }
    {
        let next = self.cpus[cpu as usize].next + 1;
        self.cpus[cpu as usize] = Processor { next, ended };
    }

    fn count(&mut self, cause: Cause)
        ensures { self.new ≡ record self.old { disk = disk_left self.old.disk (Fail cause); paging = paging_left self.old.paging (Fail cause) } }
    {
        match cause {
            Cause::Disk => self.disk = self.disk.saturating_sub(1),
            Cause::Paging => self.paging = self.paging.saturating_sub(1),
            Cause::NoPage { .. } => {}
        }
    }

    /// A failure of a command: whether it may come here.
    fn fail(&mut self, plan: &GuestPlan, cpu: u32, k: u32, op: &Op, cause: Cause) -> bool
        requires range { OpInRange op.now }
        requires same { length self.old.walk.cpus ≡ length plan.now.cpus }
        requires there { cpu < length self.old.walk.cpus }
        requires next { (progress_of self.old.walk cpu).next ≡ k }
        requires few { k + 1 < 2 ^ 32 }
        ensures fits { TakesLine (given (may_fail plan.now self.old (process_of plan.now cpu) op.now cause) (after_entry plan.now self.old (journal_entry cpu k op.now (Fail cause)))) result self.new }
        ensures same { length self.new.walk.cpus ≡ length self.old.walk.cpus }
    {
        if !self.may_fail(plan, process_of(plan, cpu), op, cause) {
            return false;
        }
        self.count(cause);
        self.pass(cpu, 0);
        true
    }

    /// The flat machine's reply to a command: whether this is its text.
    fn reply(
        &mut self,
        alloc: Global,
        plan: &GuestPlan,
        cpu: u32,
        k: u32,
        op: &Op,
        text: &[u8],
    ) -> Result<bool, NoMemory>
        requires range { OpInRange op.now }
        requires same { length self.old.walk.cpus ≡ length plan.now.cpus }
        requires there { cpu < length self.old.walk.cpus }
        requires next { (progress_of self.old.walk cpu).next ≡ k }
        requires few { k + 1 < 2 ^ 32 }
        ensures fits { IfOk result (λ fits. TakesLine (replied plan.now self.old cpu k op.now text.now) fits self.new) }
        ensures same { length self.new.walk.cpus ≡ length self.old.walk.cpus }
    {
        let process = process_of(plan, cpu);
        let ended = self.flat.would_end(process, op);
        let reply = self.flat.step(alloc, process, op)?;
        if !is_reply_text(text, &reply) {
            return Ok(false);
        }
        self.pass(cpu, ended_by(&reply, ended));
        Ok(true)
    }

    /// Walks the line of an entry. It takes memory where it maps.
    #[tactic(auto, unfolding(crate::specs::Journal::entry_fits))]
    pub fn enter(&mut self, alloc: Global, plan: &GuestPlan, line: &[u8]) -> Result<bool, NoMemory>
        requires range { GuestInRange plan.now }
        requires same { length self.old.walk.cpus ≡ length plan.now.cpus }
        ensures fits { IfOk result (λ fits. TakesLine (entry_fits plan.now self.old line.now) fits self.new) }
        ensures same { length self.new.walk.cpus ≡ length plan.now.cpus }
    {
        let Some((cpu, (k, text))) = read_head(line) else {
            return Ok(false);
        };
        let Some(op) = self.due(plan, cpu, k) else {
            return Ok(false);
        };
        match read_cause(text) {
            Some(cause) => Ok(self.fail(plan, cpu, k, op, cause)),
            None => self.reply(alloc, plan, cpu, k, op, text),
        }
    }
}
