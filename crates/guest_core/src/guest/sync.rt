// The turns of a sync.
ghost use Rattle.std.specs.Prelude.{◌≡◌, ◌<◌, ◌+◌, ◌^◌, None, Some};
ghost use Rattle.cmm_types.specs.declared.command.Op.TheVariants.{Sync};
ghost use Rattle.cmm_flat.specs.Legal.{command_of};
ghost use Rattle.cmm_storage.specs.Program.{Does, DoesAlone};
ghost use Rattle.guest_rules.specs.declared.processor.Phase.TheVariants.{Sync as AtSync, SyncWrite};
ghost use Rattle.guest_rules.specs.GuestState.{processor_at};
ghost use Rattle.guest_rules.specs.Calls.{CanTake, CanWriteBack};
ghost use Rattle.guest_rules.specs.Turns.{file_pages, passed, sync_found, sync_turn, write_back_turn};
ghost use Rattle.guest_rules.specs.Fit.{Fit, IsSyncing};
ghost use Rattle.guest_core.specs.Between.{CanEnter, IsFit};
ghost use Rattle.guest_core.specs.TurnParts.{sync_at, write_file_back};

use super::Guest;
use crate::plans::file_pages;
use cmm_io::Disk;
use cmm_storage::Storage;
use cmm_types::{Op, Reply, Tag, Turn};
use guest_io::{sync_page, write_back};
use guest_rules::{Filled, Phase, Synced};

impl Guest {
    /// A sync goes on behind page `index` of its file, or is done.
    fn pass(&mut self, cpu: u32, op: &Op, file: u32, index: u32) -> Turn
        requires enters { CanEnter self.old cpu }
        requires next { index + 1 < 2 ^ 32 }
        ensures { passed self.old cpu op.now (file_pages self.old.plan.files file) index ≡ (self.new, result) }
    {
        if index + 1 < file_pages(self.plan.files.as_slice(), file) {
            self.set_phase(cpu, Phase::Sync { index: index + 1 });
            Turn::Moved
        } else {
            self.finish(cpu, op, Reply::Done)
        }
    }

    /// A sync looks at the page that has the tag of page `index` of its file.
    #[tactic(auto, using(cmm_storage::specs::Runs::runs))]
    fn sync_found<St: Storage>(
        &mut self,
        cpu: u32,
        st: &mut St,
        op: &Op,
        file: u32,
        index: u32,
        page: u32,
    ) -> Turn
        requires enters { CanEnter self.old cpu }
        requires next { index + 1 < 2 ^ 32 }
        requires takes { CanTake self.old.parts (St.view st.old) page }
        ensures row { DoesAlone St.step (sync_found self.old cpu op.now (file_pages self.old.plan.files file) index (Some page)) st.old (self.new, result) st.new }
    {
        match sync_page(&mut self.parts, st, cpu, page) {
            Synced::Clean => self.pass(cpu, op, file, index),
            Synced::Gone => self.pass(cpu, op, file, index),
            Synced::Locked => {
                self.set_phase(cpu, Phase::SyncWrite { index, page });
                Turn::Moved
            }
            Synced::Waits { owner } => Turn::Waits { page, owner },
            Synced::Again { why } => Turn::Again { why },
        }
    }

    /// A sync looks at page `index` of its file. Where no page has its tag, its block has the bytes.
    #[tactic(auto, using(cmm_storage::specs::Runs::runs))]
    pub(super) fn sync_turn<St: Storage>(
        &mut self,
        cpu: u32,
        st: &mut St,
        op: &Op,
        file: u32,
        index: u32,
    ) -> Turn
        requires enters { CanEnter self.old cpu }
        requires fit { IsFit self.old (St.view st.old) }
        requires syncing { IsSyncing self.old cpu file index }
        ensures row { DoesAlone St.step (sync_at self.old cpu op.now file index) st.old (self.new, result) st.new }
    {
        match self.page_with(Tag::File { file, index }) {
            None => self.pass(cpu, op, file, index),
            Some(page) => self.sync_found(cpu, st, op, file, index, page),
        }
    }

    /// The turn of a processor whose sync is at page `index` of its file.
    #[tactic(auto, using(cmm_storage::specs::Runs::runs), unfolding(guest_rules::specs::Turns::sync_turn))]
    pub(super) fn look_turn<St: Storage>(
        &mut self,
        cpu: u32,
        st: &mut St,
        op: &Op,
        index: u32,
    ) -> Turn
        requires enters { CanEnter self.old cpu }
        requires fit { IsFit self.old (St.view st.old) }
        requires command { command_of self.old.plan cpu (processor_at self.old cpu).place ≡ Some op.now }
        requires phase { (processor_at self.old cpu).phase ≡ AtSync index }
        ensures row { DoesAlone St.step (sync_turn self.old cpu op.now index) st.old (self.new, result) st.new }
    {
        match op {
            Op::Sync { file } => self.sync_turn(cpu, st, op, *file, index),
            Op::Read { .. }
            | Op::Write { .. }
            | Op::MapFile { .. }
            | Op::MapAnon { .. }
            | Op::Unmap { .. }
            | Op::Load { .. }
            | Op::Store { .. }
            | Op::Pin { .. }
            | Op::Unpin { .. } => Turn::Idle,
        }
    }

    /// A sync writes the page that has the tag of page `index` of its file to its block.
    #[tactic(auto, using(cmm_storage::specs::Runs::runs))]
    fn write_file_back<St: Storage, D: Disk>(
        &mut self,
        cpu: u32,
        st: &mut St,
        disk: &mut D,
        op: &Op,
        file: u32,
        index: u32,
        page: u32,
    ) -> Turn
        requires enters { CanEnter self.old cpu }
        requires next { index + 1 < 2 ^ 32 }
        requires writes { CanWriteBack self.old.parts (St.view st.old) (D.view disk.old) page }
        ensures row { Does St.step D.step (write_file_back self.old cpu op.now file index page) st.old disk.old (self.new, result) st.new disk.new }
    {
        match write_back(&mut self.parts, st, disk, page) {
            Filled::Done => self.pass(cpu, op, file, index),
            Filled::Again { why } => Turn::Again { why },
            Filled::Fail(cause) => self.finish(cpu, op, Reply::Fail(cause)),
        }
    }

    /// The turn of a processor whose sync writes page `index` of its file back.
    #[tactic(auto, using(cmm_storage::specs::Runs::runs), unfolding(guest_rules::specs::Turns::write_back_turn))]
    pub(super) fn write_back_turn<St: Storage, D: Disk>(
        &mut self,
        cpu: u32,
        st: &mut St,
        disk: &mut D,
        op: &Op,
        index: u32,
        page: u32,
    ) -> Turn
        requires enters { CanEnter self.old cpu }
        requires fit { Fit self.old (St.view st.old) (D.view disk.old) }
        requires command { command_of self.old.plan cpu (processor_at self.old cpu).place ≡ Some op.now }
        requires phase { (processor_at self.old cpu).phase ≡ SyncWrite index page }
        ensures row { Does St.step D.step (write_back_turn self.old cpu op.now index page) st.old disk.old (self.new, result) st.new disk.new }
    {
        match op {
            Op::Sync { file } => self.write_file_back(cpu, st, disk, op, *file, index, page),
            Op::Read { .. }
            | Op::Write { .. }
            | Op::MapFile { .. }
            | Op::MapAnon { .. }
            | Op::Unmap { .. }
            | Op::Load { .. }
            | Op::Store { .. }
            | Op::Pin { .. }
            | Op::Unpin { .. } => Turn::Idle,
        }
    }
}
