// The turns of a processor that makes room for its command's page.
ghost use Rattle.std.specs.Prelude.{◌≡◌};
ghost use Rattle.cmm_storage.specs.Program.{Does, DoesAlone};
ghost use Rattle.guest_rules.specs.Calls.{CanMakeRoom, CanWriteBack};
ghost use Rattle.guest_rules.specs.Turns.{room_turn, page_out_turn};
ghost use Rattle.guest_core.specs.Between.{CanEnter};

use super::Guest;
use cmm_io::Disk;
use cmm_storage::Storage;
use cmm_types::{Cause, Op, Reply, Turn};
use guest_io::write_back;
use guest_reclaim::make_room;
use guest_rules::{Filled, Phase, Room};

impl Guest {
    /// No page is free for the command.
    #[tactic(auto, using(cmm_storage::specs::Runs::runs), unfolding(guest_rules::specs::Turns::room_turn))]
    pub(super) fn room_turn<St: Storage>(&mut self, cpu: u32, st: &mut St, op: &Op) -> Turn
        requires enters { CanEnter self.old cpu }
        requires can { CanMakeRoom self.old.parts (St.view st.old) }
        ensures row { DoesAlone St.step (room_turn self.old cpu op.now) st.old (self.new, result) st.new }
    {
        match make_room(&mut self.parts, st, cpu) {
            Room::Freed => Turn::Moved,
            Room::Locked { page } => {
                self.set_phase(cpu, Phase::Room { page });
                Turn::Moved
            }
            Room::Waits { page, owner } => Turn::Waits { page, owner },
            Room::NoPage { pinned, unslotted } => {
                let cause = Cause::NoPage { pinned, unslotted };
                self.finish(cpu, op, Reply::Fail(cause))
            }
            Room::Again { why } => Turn::Again { why },
        }
    }

    /// The turn of a processor that writes a page back to make room. It looks at its command again where this is done.
    #[tactic(auto, using(cmm_storage::specs::Runs::runs), unfolding(guest_rules::specs::Turns::page_out_turn))]
    pub(super) fn page_out_turn<St: Storage, D: Disk>(
        &mut self,
        cpu: u32,
        st: &mut St,
        disk: &mut D,
        op: &Op,
        page: u32,
    ) -> Turn
        requires enters { CanEnter self.old cpu }
        requires writes { CanWriteBack self.old.parts (St.view st.old) (D.view disk.old) page }
        ensures row { Does St.step D.step (page_out_turn self.old cpu op.now page) st.old disk.old (self.new, result) st.new disk.new }
    {
        match write_back(&mut self.parts, st, disk, page) {
            Filled::Done => {
                self.set_phase(cpu, Phase::Start);
                Turn::Moved
            }
            Filled::Again { why } => Turn::Again { why },
            Filled::Fail(cause) => self.finish(cpu, op, Reply::Fail(cause)),
        }
    }
}
