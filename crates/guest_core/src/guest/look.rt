// The turns of a processor that looks at its command.
ghost use Rattle.std.specs.Prelude.{◌≡◌, ℕ, ◌<◌, ◌*◌, ◌/◌, [], ◌∷◌, length, drop, None, Some, true, false, if◌then◌else◌, IsSome, MatchOption, nat_lt};
ghost use Rattle.cmm_types.specs.declared.page.TheConstants.{PAGE};
ghost use Rattle.cmm_types.specs.declared.command.Op.TheVariants.{Read, Write, Load, Store};
ghost use Rattle.cmm_types.specs.declared.command.FlatRefusal.TheVariants.{OutOfRange};
ghost use Rattle.cmm_types.specs.declared.plan.TheConstants.{MAX_PROCESSES};
ghost use Rattle.cmm_types.specs.InRange.{ArePages, OpInRange};
ghost use Rattle.cmm_flat.specs.Legal.{command_of, process_of};
ghost use Rattle.cmm_storage.specs.Program.{done, DoesAlone};
ghost use Rattle.guest_cache.specs.CacheView.{IsTag, page_of};
ghost use Rattle.guest_maps.specs.MapsView.{IsMapping, entry_at, find_slot, free_slot, spot_at, tag_at};
ghost use Rattle.guest_rules.specs.declared.processor.Phase.TheVariants.{Start};
ghost use Rattle.guest_rules.specs.GuestState.{processor_at};
ghost use Rattle.guest_rules.specs.Turns.{refusal_of_new, refusal_in, file_has_bytes, start_tagged, start_at, start_entry, start_mapped, start_placed, map_turn, start_accepted, start_turn, turn};
ghost use Rattle.guest_rules.proofs.Cases.TurnCases.{Starts, Wants};
ghost use Rattle.guest_rules.proofs.Cases.Placed.{ReachesPlace};
ghost use Rattle.guest_rules.proofs.Cases.Reached.{Reaches};
ghost use Rattle.guest_core.specs.Between.{CanEnter, CanLookUp, IsFit, serving};

use super::Guest;
use crate::plans::file_has_bytes;
use crate::refusals::{refusal_at, refusal_of_pin_at, refusal_of_unmap};
use cmm_storage::Storage;
use cmm_types::{FlatRefusal, MAX_LIVE_MAPPINGS, Op, PAGE, Reply, Tag, Turn};
use guest_maps::{Pte, Shown, Spot};

/// The page of an entry that serves a load, or a store where it `writes`.
fn serving(writes: bool, pte: Option<Pte>) -> Option<u32>
    ensures { result ≡ serving writes pte }
{
    match pte {
        None => None,
        Some(pte) => {
            if writes && !pte.writable {
                None
            } else {
                Some(pte.page)
            }
        }
    }
}

impl Guest {
    /// Whether there is such a file, and it has `len` bytes from `off` on.
    fn file_has_bytes(&self, file: u32, off: u32, len: u32) -> bool
        ensures { result ≡ file_has_bytes self.now.plan.files file off len }
    {
        file_has_bytes(self.plan.files.as_slice(), file, off, len)
    }

    /// Whether there is such a file.
    fn has_file(&self, file: u32) -> bool
        ensures { result ≡ nat_lt file (length self.now.plan.files) }
    {
        (file as usize) < self.plan.files.as_slice().len()
    }

    /// The page that has a tag.
    pub(super) fn page_with(&self, tag: Tag) -> Option<u32>
        requires { IsTag self.now.parts.cache tag }
        ensures { result ≡ page_of self.now.parts.cache tag }
    {
        self.parts.cache.find(tag)
    }

    /// The next free page.
    fn next_free(&self) -> Option<u32>
        ensures { MatchOption result (self.now.parts.pages.free ≡ []) (λ page. self.now.parts.pages.free ≡ page ∷ drop 1 self.now.parts.pages.free) }
    {
        self.parts.pages.top()
    }

    /// The command needs a page with that tag, which it has, or is to get.
    #[tactic(auto, using(cmm_storage::specs::Runs::runs))]
    fn start_tagged<St: Storage>(&mut self, cpu: u32, st: &mut St, op: &Op, tag: Tag) -> Turn
        requires enters { CanEnter self.old cpu }
        requires fit { IsFit self.old (St.view st.old) }
        requires starts { Starts self.old cpu op.now }
        requires wants { Wants self.old cpu op.now tag }
        ensures row { DoesAlone St.step (start_tagged self.old cpu op.now tag) st.old (self.new, result) st.new }
    {
        match self.page_with(tag) {
            None => match self.next_free() {
                None => self.room_turn(cpu, st, op),
                Some(page) => self.begin_turn(cpu, st, tag, page),
            },
            Some(page) => match self.info(page).owner {
                Some(owner) => Turn::Waits { page, owner },
                None => self.use_turn(cpu, st, op, page),
            },
        }
    }

    /// A place of a mapping; `None` where the mapping in the slot has no such page.
    pub(super) fn place(&self, slot: u32, index: u32) -> Option<Spot>
        requires { slot < length self.now.parts.maps.slots }
        ensures { result ≡ spot_at self.now.parts.maps slot index }
    {
        self.parts.maps.spot(slot, index)
    }

    /// A place of a mapping that has it.
    pub(super) fn spot(&self, slot: u32, index: u32) -> Spot
        requires slot { slot < length self.now.parts.maps.slots }
        requires there { IsSome (spot_at self.now.parts.maps slot index) }
        ensures { spot_at self.now.parts.maps slot index ≡ Some result }
    {
        self.parts.maps.spot(slot, index).unwrap()
    }

    /// A load or a store at its place, which the slot's mapping has: through the entry there, where it serves.
    fn start_entry<St: Storage>(
        &mut self,
        cpu: u32,
        st: &mut St,
        op: &Op,
        writes: bool,
        slot: u32,
        off: u32,
    ) -> Turn
        requires enters { CanEnter self.old cpu }
        requires fit { IsFit self.old (St.view st.old) }
        requires slot { slot < length self.old.parts.maps.slots }
        requires reaches { Reaches self.old cpu op.now writes slot off }
        ensures row { DoesAlone St.step (start_entry self.old cpu op.now writes slot (off / PAGE) (entry_at self.old.parts.maps slot (off / PAGE))) st.old (self.new, result) st.new }
    {
        let there = self.spot(slot, off / PAGE as u32);
        match serving(writes, there.pte) {
            None => self.start_tagged(cpu, st, op, there.tag),
            Some(page) => self.hit_turn(cpu, st, op, page),
        }
    }

    /// A load, or a store where it `writes`, through the processor's mapping of that number.
    fn start_mapped<St: Storage>(
        &mut self,
        cpu: u32,
        st: &mut St,
        op: &Op,
        writes: bool,
        map: u32,
        off: u32,
    ) -> Turn
        requires enters { CanEnter self.old cpu }
        requires fit { IsFit self.old (St.view st.old) }
        requires looks_up { CanLookUp (process_of self.old.plan cpu) map }
        requires reaches { (slot : ℕ) → find_slot self.old.parts.maps (process_of self.old.plan cpu) map ≡ Some slot → Reaches self.old cpu op.now writes slot off }
        ensures row { DoesAlone St.step (start_mapped self.old cpu op.now writes off (find_slot self.old.parts.maps (process_of self.old.plan cpu) map)) st.old (self.new, result) st.new }
    {
        match self.slot_of(cpu, map) {
            None => Turn::Idle,
            Some(slot) => self.start_entry(cpu, st, op, writes, slot, off),
        }
    }

    /// A pin or an unpin of a place, which the slot's mapping has.
    fn start_place<St: Storage>(
        &mut self,
        cpu: u32,
        st: &mut St,
        op: &Op,
        slot: u32,
        index: u32,
    ) -> Turn
        requires enters { CanEnter self.old cpu }
        requires fit { IsFit self.old (St.view st.old) }
        requires slot { slot < length self.old.parts.maps.slots }
        requires reaches { ReachesPlace self.old cpu op.now slot index }
        ensures row { DoesAlone St.step (start_at self.old cpu op.now (tag_at self.old.parts.maps slot index)) st.old (self.new, result) st.new }
    {
        let there = self.spot(slot, index);
        self.start_tagged(cpu, st, op, there.tag)
    }

    /// A pin or an unpin of page `index` of the processor's mapping of that number.
    fn start_placed<St: Storage>(
        &mut self,
        cpu: u32,
        st: &mut St,
        op: &Op,
        map: u32,
        index: u32,
    ) -> Turn
        requires enters { CanEnter self.old cpu }
        requires fit { IsFit self.old (St.view st.old) }
        requires looks_up { CanLookUp (process_of self.old.plan cpu) map }
        requires reaches { (slot : ℕ) → find_slot self.old.parts.maps (process_of self.old.plan cpu) map ≡ Some slot → ReachesPlace self.old cpu op.now slot index }
        ensures row { DoesAlone St.step (start_placed self.old cpu op.now index (find_slot self.old.parts.maps (process_of self.old.plan cpu) map)) st.old (self.new, result) st.new }
    {
        match self.slot_of(cpu, map) {
            None => Turn::Idle,
            Some(slot) => self.start_place(cpu, st, op, slot, index),
        }
    }

    /// The lowest free slot gets the new mapping.
    fn map_turn(&mut self, cpu: u32, op: &Op, map: u32, shown: Shown, count: u32) -> Turn
        requires enters { CanEnter self.old cpu }
        requires range { IsMapping (process_of self.old.plan cpu) map shown count }
        requires new { find_slot self.old.parts.maps (process_of self.old.plan cpu) map ≡ None }
        requires free { IsSome (free_slot self.old.parts.maps) }
        ensures row { map_turn self.old cpu op.now map shown count (free_slot self.old.parts.maps) ≡ done (self.new, result) }
    {
        let process = self.process(cpu);
        self.parts.maps.add(process, map, shown, count);
        self.finish(cpu, op, Reply::Done)
    }

    /// A command that isn't refused.
    #[tactic(auto, using(cmm_storage::specs::Runs::runs))]
    fn start_accepted<St: Storage>(&mut self, cpu: u32, st: &mut St, op: &Op) -> Turn
        requires enters { CanEnter self.old cpu }
        requires fit { IsFit self.old (St.view st.old) }
        requires starts { Starts self.old cpu op.now }
        ensures row { DoesAlone St.step (start_accepted self.old cpu op.now) st.old (self.new, result) st.new }
    {
        match op {
            Op::Read { file, off, .. } => {
                let index = *off / PAGE as u32;
                self.start_tagged(cpu, st, op, Tag::File { file: *file, index })
            }
            Op::Write { file, off, .. } => {
                let index = *off / PAGE as u32;
                self.start_tagged(cpu, st, op, Tag::File { file: *file, index })
            }
            Op::MapFile {
                map,
                file,
                first,
                count,
                writable,
            } => {
                let shown = Shown::File {
                    file: *file,
                    first: *first,
                    writable: *writable,
                };
                self.map_turn(cpu, op, *map, shown, *count)
            }
            Op::Load { map, off, .. } => self.start_mapped(cpu, st, op, false, *map, *off),
            Op::Store { map, off, .. } => self.start_mapped(cpu, st, op, true, *map, *off),
            Op::Pin { map, page } => self.start_placed(cpu, st, op, *map, *page),
            Op::Unpin { map, page } => self.start_placed(cpu, st, op, *map, *page),
            Op::Sync { file } => self.sync_turn(cpu, st, op, *file, 0),
            Op::Unmap { map } => self.unmap_turn(cpu, op, *map),
            Op::MapAnon { map, count } => self.map_turn(cpu, op, *map, Shown::Anon, *count),
        }
    }

    /// Whether there is such a file, and it has `count` pages from page `first` on.
    fn file_has_pages(&self, file: u32, first: u32, count: u32) -> bool
        requires { ArePages first count }
        ensures { result ≡ file_has_bytes self.now.plan.files file (PAGE * first) (PAGE * count) }
    {
        self.file_has_bytes(file, PAGE as u32 * first, PAGE as u32 * count)
    }

    /// Why a new mapping of pages that are there, or aren't, is refused.
    fn refusal_of_new(&self, process: u32, map: u32, are_there: bool) -> Option<FlatRefusal>
        requires { CanLookUp process map }
        ensures { result ≡ refusal_of_new self.now are_there (find_slot self.now.parts.maps process map) }
    {
        match self.parts.maps.find(process, map) {
            Some(_) => Some(FlatRefusal::AlreadyMapped),
            None => {
                if !are_there {
                    Some(FlatRefusal::OutOfRange)
                } else if self.parts.maps.live() >= MAX_LIVE_MAPPINGS {
                    Some(FlatRefusal::TooManyMaps)
                } else {
                    None
                }
            }
        }
    }

    /// Why `len` bytes of a file from `off` on can't be read or written.
    fn refusal_in_file(&self, file: u32, off: u32, len: u32) -> Option<FlatRefusal>
        ensures { result ≡ (if file_has_bytes self.now.plan.files file off len then None else Some OutOfRange) }
    {
        if self.file_has_bytes(file, off, len) {
            None
        } else {
            Some(FlatRefusal::OutOfRange)
        }
    }

    /// Why a command of a process is refused.
    fn refusal(&self, process: u32, op: &Op) -> Option<FlatRefusal>
        requires process { process < MAX_PROCESSES }
        requires range { OpInRange op.now }
        ensures { result ≡ refusal_in self.now process op.now }
    {
        let maps = &self.parts.maps;
        match op {
            Op::Read { file, off, len } => self.refusal_in_file(*file, *off, *len),
            Op::Write { file, off, bytes } => {
                self.refusal_in_file(*file, *off, bytes.len() as u32)
            }
            Op::MapFile {
                map,
                file,
                first,
                count,
                writable: _,
            } => {
                let are_there = self.file_has_pages(*file, *first, *count);
                self.refusal_of_new(process, *map, are_there)
            }
            Op::Load { map, off, len } => refusal_at(maps, false, process, *map, *off, *len),
            Op::Store { map, off, bytes } => {
                refusal_at(maps, true, process, *map, *off, bytes.len() as u32)
            }
            Op::Pin { map, page } => refusal_of_pin_at(maps, true, process, *map, *page),
            Op::Unpin { map, page } => refusal_of_pin_at(maps, false, process, *map, *page),
            Op::Sync { file } => {
                if self.has_file(*file) {
                    None
                } else {
                    Some(FlatRefusal::OutOfRange)
                }
            }
            Op::Unmap { map } => refusal_of_unmap(maps, process, *map),
            Op::MapAnon { map, count: _ } => self.refusal_of_new(process, *map, true),
        }
    }

    /// Why a command of the processor is refused.
    fn refusal_on(&self, cpu: u32, op: &Op) -> Option<FlatRefusal>
        requires process { process_of self.now.plan cpu < MAX_PROCESSES }
        requires range { OpInRange op.now }
        ensures { result ≡ refusal_in self.now (process_of self.now.plan cpu) op.now }
    {
        self.refusal(self.process(cpu), op)
    }

    /// The turn of a processor that looks at its command.
    #[tactic(auto, using(cmm_storage::specs::Runs::runs), unfolding(guest_rules::specs::Turns::start_turn))]
    pub(super) fn start_turn<St: Storage>(&mut self, cpu: u32, st: &mut St, op: &Op) -> Turn
        requires enters { CanEnter self.old cpu }
        requires fit { IsFit self.old (St.view st.old) }
        requires command { command_of self.old.plan cpu (processor_at self.old cpu).place ≡ Some op.now }
        requires start { (processor_at self.old cpu).phase ≡ Start }
        ensures row { DoesAlone St.step (start_turn self.old cpu op.now) st.old (self.new, result) st.new }
    {
        match self.refusal_on(cpu, op) {
            Some(refusal) => self.finish(cpu, op, Reply::Refused(refusal)),
            None => self.start_accepted(cpu, st, op),
        }
    }
}
