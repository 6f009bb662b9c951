// The turns of a processor on one page.
ghost use Rattle.std.specs.Prelude.{◌≡◌, ℕ, ◌<◌, ◌/◌, ◌%◌, length, None, Some, true, false};
ghost use Rattle.cmm_types.specs.declared.page.TheConstants.{PAGE};
ghost use Rattle.cmm_types.specs.declared.command.Op.TheVariants.{Read, Write, Load, Store};
ghost use Rattle.cmm_types.specs.InRange.{IsPiece};
ghost use Rattle.cmm_flat.specs.Legal.{process_of};
ghost use Rattle.cmm_storage.specs.Program.{Does, DoesAlone};
ghost use Rattle.guest_maps.specs.MapsView.{find_slot};
ghost use Rattle.guest_rules.specs.declared.processor.Phase.TheVariants.{Start, Fill};
ghost use Rattle.guest_rules.specs.Calls.{CanTake, CanLoad, CanStore, CanMap, CanPin, CanFill};
ghost use Rattle.guest_rules.specs.Turns.{begun, begin_turn, use_turn, hit_turn, resolve_turn, pin_turn, fill_turn, turn};
ghost use Rattle.guest_rules.proofs.Cases.TurnCases.{HasItsTag, Starts};
ghost use Rattle.guest_core.specs.Between.{CanEnter, CanGetTag, CanLookUp, IsFit, Hits};
ghost use Rattle.guest_core.specs.TurnParts.{read_turn, write_turn, load_turn, store_turn};

use super::Guest;
use cmm_io::Disk;
use cmm_storage::{Busy, Storage};
use cmm_types::{Bytes64, Op, PAGE, Reply, Tag, Turn, Why};
use essa_state::Order;
use guest_fault::{fill, resolve};
use guest_io::{load_page, pin_page, read_page, store_through, write_page};
use guest_pages::PageInfo;
use guest_rules::{Filled, Parts, Phase, Placed};

/// A free page is locked by the processor that is to fill it, and has the tag of its bytes.
#[tactic(auto, unfolding(guest_rules::specs::Turns::begun))]
fn begin(parts: &mut Parts, page: u32, tag: Tag, cpu: u32)
    requires { CanGetTag parts.old page tag }
    ensures { parts.new ≡ begun parts.old page tag cpu }
{
    parts.pages.set_info(
        page,
        PageInfo {
            tag: Some(tag),
            uptodate: false,
            dirty: false,
            owner: Some(cpu),
            pins: 0,
            writers: 0,
        },
    );
    parts.pages.pop();
    parts.cache.insert(tag, page);
}

impl Guest {
    /// The next free page is to be filled for the processor's command. It is taken before it leaves the stack, so
    /// that a page that is busy changes nothing.
    #[tactic(auto, using(cmm_storage::specs::Runs::runs), unfolding(guest_rules::specs::Turns::begin_turn))]
    pub(super) fn begin_turn<St: Storage>(
        &mut self,
        cpu: u32,
        st: &mut St,
        tag: Tag,
        page: u32,
    ) -> Turn
        requires cpu { cpu < length self.old.processors }
        requires begins { CanGetTag self.old.parts page tag }
        requires there { page < (St.view st.old).pages }
        requires none_held { (St.view st.old).held ≡ None }
        ensures row { DoesAlone St.step (begin_turn self.old cpu tag page) st.old (self.new, result) st.new }
    {
        match st.take(page) {
            Err(Busy { word }) => Turn::Again {
                why: Why::Busy { page, word },
            },
            Ok(()) => {
                st.order(page, Order::SetStable);
                st.put(page);
                begin(&mut self.parts, page, tag, cpu);
                self.set_phase(cpu, Phase::Fill { page });
                Turn::Moved
            }
        }
    }

    /// Reads the command's bytes from the page that has their tag.
    #[tactic(auto, using(cmm_storage::specs::Runs::runs, crate::proofs::Missing::missed_runs))]
    fn read_turn<St: Storage>(
        &mut self,
        cpu: u32,
        st: &mut St,
        op: &Op,
        page: u32,
        off: u32,
        len: u32,
    ) -> Turn
        requires enters { CanEnter self.old cpu }
        requires takes { CanTake self.old.parts (St.view st.old) page }
        requires piece { IsPiece off len }
        ensures row { DoesAlone St.step (read_turn self.old cpu op.now page off len) st.old (self.new, result) st.new }
    {
        match read_page(&mut self.parts, st, page, off % PAGE as u32, len) {
            Ok(bytes) => self.finish(cpu, op, Reply::Bytes(bytes)),
            Err(missed) => self.miss(cpu, op, missed),
        }
    }

    /// Writes the command's bytes to the page that has their tag.
    #[tactic(auto, using(cmm_storage::specs::Runs::runs, crate::proofs::Missing::missed_runs))]
    fn write_turn<St: Storage>(
        &mut self,
        cpu: u32,
        st: &mut St,
        op: &Op,
        page: u32,
        off: u32,
        bytes: &Bytes64,
    ) -> Turn
        requires enters { CanEnter self.old cpu }
        requires takes { CanTake self.old.parts (St.view st.old) page }
        requires piece { IsPiece off (length bytes.now) }
        ensures row { DoesAlone St.step (write_turn self.old cpu op.now page off bytes.now) st.old (self.new, result) st.new }
    {
        match write_page(&mut self.parts, st, page, off % PAGE as u32, bytes) {
            Ok(()) => self.finish(cpu, op, Reply::Done),
            Err(missed) => self.miss(cpu, op, missed),
        }
    }

    /// Loads the command's bytes through the entry that shows the page.
    #[tactic(auto, using(cmm_storage::specs::Runs::runs, crate::proofs::Missing::missed_runs))]
    fn load_turn<St: Storage>(
        &mut self,
        cpu: u32,
        st: &mut St,
        op: &Op,
        page: u32,
        off: u32,
        len: u32,
    ) -> Turn
        requires enters { CanEnter self.old cpu }
        requires loads { CanLoad self.old.parts (St.view st.old) page }
        requires piece { IsPiece off len }
        ensures row { DoesAlone St.step (load_turn self.old cpu op.now page off len) st.old (self.new, result) st.new }
    {
        match load_page(&mut self.parts, st, page, off % PAGE as u32, len) {
            Ok(bytes) => self.finish(cpu, op, Reply::Bytes(bytes)),
            Err(missed) => self.miss(cpu, op, missed),
        }
    }

    /// Stores the command's bytes through the writable entry that shows the page.
    #[tactic(auto, using(cmm_storage::specs::Runs::runs, crate::proofs::Missing::missed_runs))]
    fn store_turn<St: Storage>(
        &mut self,
        cpu: u32,
        st: &mut St,
        op: &Op,
        page: u32,
        off: u32,
        bytes: &Bytes64,
    ) -> Turn
        requires enters { CanEnter self.old cpu }
        requires stores { CanStore self.old.parts (St.view st.old) page }
        requires piece { IsPiece off (length bytes.now) }
        ensures row { DoesAlone St.step (store_turn self.old cpu op.now page off bytes.now) st.old (self.new, result) st.new }
    {
        match store_through(&mut self.parts, st, page, off % PAGE as u32, bytes) {
            Ok(()) => self.finish(cpu, op, Reply::Done),
            Err(missed) => self.miss(cpu, op, missed),
        }
    }

    /// The slot of the processor's mapping of that number.
    pub(super) fn slot_of(&self, cpu: u32, map: u32) -> Option<u32>
        requires { CanLookUp (process_of self.now.plan cpu) map }
        ensures { result ≡ find_slot self.now.parts.maps (process_of self.now.plan cpu) map }
    {
        self.parts.maps.find(self.process(cpu), map)
    }

    /// Lets the entry at the command's place show the page.
    #[tactic(auto, using(cmm_storage::specs::Runs::runs))]
    fn resolve_turn<St: Storage>(
        &mut self,
        cpu: u32,
        st: &mut St,
        page: u32,
        map: u32,
        off: u32,
        writable: bool,
    ) -> Turn
        requires looks_up { CanLookUp (process_of self.old.plan cpu) map }
        requires takes { CanTake self.old.parts (St.view st.old) page }
        requires maps { (slot : ℕ) → find_slot self.old.parts.maps (process_of self.old.plan cpu) map ≡ Some slot → CanMap self.old.parts page slot (off / PAGE) }
        ensures row { DoesAlone St.step (resolve_turn self.old cpu page map off writable) st.old (self.new, result) st.new }
    {
        match self.slot_of(cpu, map) {
            None => Turn::Idle,
            Some(slot) => match resolve(
                &mut self.parts,
                st,
                page,
                slot,
                off / PAGE as u32,
                writable,
            ) {
                Placed::Done | Placed::Gone => Turn::Moved,
                Placed::Again { why } => Turn::Again { why },
            },
        }
    }

    /// Pins the command's page, or unpins it where `pins` is false.
    #[tactic(auto, using(cmm_storage::specs::Runs::runs))]
    fn pin_turn<St: Storage>(
        &mut self,
        cpu: u32,
        st: &mut St,
        op: &Op,
        page: u32,
        map: u32,
        index: u32,
        pins: bool,
    ) -> Turn
        requires enters { CanEnter self.old cpu }
        requires looks_up { CanLookUp (process_of self.old.plan cpu) map }
        requires takes { CanTake self.old.parts (St.view st.old) page }
        requires pin { (slot : ℕ) → find_slot self.old.parts.maps (process_of self.old.plan cpu) map ≡ Some slot → CanPin self.old.parts page slot index pins }
        ensures row { DoesAlone St.step (pin_turn self.old cpu op.now page map index pins) st.old (self.new, result) st.new }
    {
        match self.slot_of(cpu, map) {
            None => Turn::Idle,
            Some(slot) => match pin_page(&mut self.parts, st, page, slot, index, pins) {
                Placed::Done => self.finish(cpu, op, Reply::Done),
                Placed::Gone => Turn::Moved,
                Placed::Again { why } => Turn::Again { why },
            },
        }
    }

    /// The command finds its page up to date.
    #[tactic(auto, using(cmm_storage::specs::Runs::runs), unfolding(guest_rules::specs::Turns::use_turn))]
    pub(super) fn use_turn<St: Storage>(
        &mut self,
        cpu: u32,
        st: &mut St,
        op: &Op,
        page: u32,
    ) -> Turn
        requires enters { CanEnter self.old cpu }
        requires fit { IsFit self.old (St.view st.old) }
        requires starts { Starts self.old cpu op.now }
        requires takes { CanTake self.old.parts (St.view st.old) page }
        requires found { HasItsTag self.old cpu op.now page }
        ensures row { DoesAlone St.step (use_turn self.old cpu op.now page) st.old (self.new, result) st.new }
    {
        match op {
            Op::Read { file: _, off, len } => self.read_turn(cpu, st, op, page, *off, *len),
            Op::Write {
                file: _,
                off,
                bytes,
            } => self.write_turn(cpu, st, op, page, *off, bytes),
            Op::Load { map, off, len: _ } => self.resolve_turn(cpu, st, page, *map, *off, false),
            Op::Store { map, off, bytes: _ } => self.resolve_turn(cpu, st, page, *map, *off, true),
            Op::Pin { map, page: index } => self.pin_turn(cpu, st, op, page, *map, *index, true),
            Op::Unpin { map, page: index } => self.pin_turn(cpu, st, op, page, *map, *index, false),
            Op::Sync { .. } | Op::MapFile { .. } | Op::MapAnon { .. } | Op::Unmap { .. } =>
                Turn::Idle,
        }
    }

    /// A load or a store finds its entry, which shows the page.
    #[tactic(auto, using(cmm_storage::specs::Runs::runs), unfolding(guest_rules::specs::Turns::hit_turn))]
    pub(super) fn hit_turn<St: Storage>(
        &mut self,
        cpu: u32,
        st: &mut St,
        op: &Op,
        page: u32,
    ) -> Turn
        requires enters { CanEnter self.old cpu }
        requires fit { IsFit self.old (St.view st.old) }
        requires hits { Hits self.old cpu op.now page }
        ensures row { DoesAlone St.step (hit_turn self.old cpu op.now page) st.old (self.new, result) st.new }
    {
        match op {
            Op::Load { map: _, off, len } => self.load_turn(cpu, st, op, page, *off, *len),
            Op::Store { map: _, off, bytes } => self.store_turn(cpu, st, op, page, *off, bytes),
            Op::Read { .. }
            | Op::Write { .. }
            | Op::Sync { .. }
            | Op::MapFile { .. }
            | Op::MapAnon { .. }
            | Op::Unmap { .. }
            | Op::Pin { .. }
            | Op::Unpin { .. } => Turn::Idle,
        }
    }

    /// The turn of a processor that fills a page.
    #[tactic(auto, using(cmm_storage::specs::Runs::runs), unfolding(guest_rules::specs::Turns::fill_turn))]
    pub(super) fn fill_turn<St: Storage, D: Disk>(
        &mut self,
        cpu: u32,
        st: &mut St,
        disk: &mut D,
        op: &Op,
        page: u32,
    ) -> Turn
        requires enters { CanEnter self.old cpu }
        requires fills { CanFill self.old.parts (St.view st.old) (D.view disk.old) page }
        ensures row { Does St.step D.step (fill_turn self.old cpu op.now page) st.old disk.old (self.new, result) st.new disk.new }
    {
        match fill(&mut self.parts, st, disk, page) {
            Filled::Done => {
                self.set_phase(cpu, Phase::Start);
                Turn::Moved
            }
            Filled::Again { why } => Turn::Again { why },
            Filled::Fail(cause) => self.finish(cpu, op, Reply::Fail(cause)),
        }
    }
}
