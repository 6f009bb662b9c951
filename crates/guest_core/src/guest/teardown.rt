// The turns of an unmap: its mapping ends, and its pages are taken off one after another.
ghost use Rattle.std.specs.Prelude.{◌≡◌, ℕ, ◌+◌, ◌<◌, ◌^◌, length, false, true, None, Some};
ghost use Rattle.cmm_types.specs.declared.command.TheConstants.{MAX_MAPPING_PAGES};
ghost use Rattle.cmm_types.specs.declared.page.Tag.TheVariants.{Anon};
ghost use Rattle.cmm_types.specs.declared.turn.Turn.TheVariants.{Finished};
ghost use Rattle.cmm_flat.specs.Legal.{process_of};
ghost use Rattle.cmm_storage.specs.Program.{done, DoesAlone};
ghost use Rattle.guest_cache.specs.CacheView.{IsTag, page_of};
ghost use Rattle.guest_maps.specs.MapsView.{any_pinned, entry_at, find_slot, freed_slot, is_torn, slot_at, tag_at};
ghost use Rattle.guest_rules.specs.declared.processor.Phase.TheVariants.{Teardown};
ghost use Rattle.guest_rules.specs.GuestState.{processor_at, with_parts, next_command};
ghost use Rattle.guest_rules.specs.Rows.{released};
ghost use Rattle.guest_rules.specs.Calls.{CanClear, CanTear};
ghost use Rattle.guest_rules.specs.Fit.{IsTearing};
ghost use Rattle.guest_rules.specs.Turns.{mapping_pages, unmap_turn, torn_past, teardown_entry, teardown_owned, teardown_page, teardown_turn};
ghost use Rattle.guest_core.specs.Between.{CanEnter, CanGoOn, CanLookUp, IsFit, IsTornTo};

use super::Guest;
use cmm_storage::Storage;
use cmm_types::{Op, Reply, Tag, Turn};
use guest_fault::{clear_entry, release, tear_page};
use guest_maps::Pte;
use guest_rules::{Phase, Placed};

impl Guest {
    /// The processor's mapping of that number ends: the unmap is answered, and its slot is torn down from page 0 on.
    pub(super) fn unmap_turn(&mut self, cpu: u32, op: &Op, map: u32) -> Turn
        requires enters { CanEnter self.old cpu }
        requires looks_up { CanLookUp (process_of self.old.plan cpu) map }
        ensures row { unmap_turn self.old cpu op.now (find_slot self.old.parts.maps (process_of self.old.plan cpu) map) ≡ done (self.new, result) }
    {
        match self.slot_of(cpu, map) {
            None => Turn::Idle,
            Some(slot) => {
                self.parts.maps.tear(slot);
                self.answer(cpu, op, Reply::Done, Phase::Teardown { slot, index: 0 });
                Turn::Moved
            }
        }
    }

    /// The last page of the mapping that was in a slot is off: the slot is free, and the processor goes on to its next
    /// command.
    fn end_teardown(&mut self, cpu: u32, slot: u32) -> Turn
        requires goes_on { CanGoOn self.old cpu }
        requires torn { is_torn (slot_at self.old.parts.maps slot) ≡ true }
        requires entries { (index : ℕ) → index < MAX_MAPPING_PAGES → entry_at self.old.parts.maps slot index ≡ None }
        requires pinned { any_pinned self.old.parts.maps slot ≡ false }
        ensures freed { self.new ≡ next_command (with_parts self.old (record self.old.parts { maps = freed_slot self.old.parts.maps slot })) cpu }
        ensures finished { result ≡ Finished }
    {
        self.parts.maps.free(slot);
        self.next_command(cpu);
        Turn::Finished
    }

    /// A teardown goes on behind page `index` of the mapping that was in a slot, or is done.
    fn pass_torn(&mut self, cpu: u32, slot: u32, index: u32) -> Turn
        requires goes_on { CanGoOn self.old cpu }
        requires index { index < MAX_MAPPING_PAGES }
        requires torn { IsTornTo self.old.parts.maps slot index }
        ensures row { torn_past self.old cpu slot index (mapping_pages (slot_at self.old.parts.maps slot)) ≡ (self.new, result) }
    {
        match self.place(slot, index + 1) {
            None => self.end_teardown(cpu, slot),
            Some(_) => {
                let phase = Phase::Teardown {
                    slot,
                    index: index + 1,
                };
                self.set_phase(cpu, phase);
                Turn::Moved
            }
        }
    }

    /// Page `index` of the mapping that was in a slot has an entry, which is cleared.
    #[tactic(auto, using(cmm_storage::specs::Runs::runs))]
    fn clear_turn<St: Storage>(
        &mut self,
        cpu: u32,
        st: &mut St,
        slot: u32,
        index: u32,
        pte: Pte,
    ) -> Turn
        requires goes_on { CanGoOn self.old cpu }
        requires index { index < MAX_MAPPING_PAGES }
        requires fit { IsFit self.old (St.view st.old) }
        requires tears { IsTearing self.old cpu slot index }
        requires entry { entry_at self.old.parts.maps slot index ≡ Some pte }
        requires clears { CanClear self.old.parts (St.view st.old) slot index pte }
        ensures row { DoesAlone St.step (teardown_entry self.old cpu slot index (mapping_pages (slot_at self.old.parts.maps slot)) (Some pte)) st.old (self.new, result) st.new }
    {
        match clear_entry(&mut self.parts, st, slot, index, pte) {
            Placed::Done => self.pass_torn(cpu, slot, index),
            Placed::Gone => self.pass_torn(cpu, slot, index),
            Placed::Again { why } => Turn::Again { why },
        }
    }

    /// Page `index` of the mapping of a file that was in a slot is off once it has no entry.
    fn tear_entry<St: Storage>(
        &mut self,
        cpu: u32,
        st: &mut St,
        slot: u32,
        index: u32,
        pte: Option<Pte>,
    ) -> Turn
        requires cpu { cpu < length self.old.processors }
        requires fit { IsFit self.old (St.view st.old) }
        requires tears { IsTearing self.old cpu slot index }
        requires entry { entry_at self.old.parts.maps slot index ≡ pte }
        ensures row { DoesAlone St.step (teardown_entry self.old cpu slot index (mapping_pages (slot_at self.old.parts.maps slot)) pte) st.old (self.new, result) st.new }
    {
        match pte {
            None => self.pass_torn(cpu, slot, index),
            Some(pte) => self.clear_turn(cpu, st, slot, index, pte),
        }
    }

    /// The page that has the tag of page `index` of the mapping that was in a slot is freed, with its swap slot.
    #[tactic(auto, using(cmm_storage::specs::Runs::runs))]
    fn tear_turn<St: Storage>(
        &mut self,
        cpu: u32,
        st: &mut St,
        slot: u32,
        index: u32,
        page: u32,
    ) -> Turn
        requires goes_on { CanGoOn self.old cpu }
        requires index { index < MAX_MAPPING_PAGES }
        requires fit { IsFit self.old (St.view st.old) }
        requires tears { IsTearing self.old cpu slot index }
        requires own { tag_at self.old.parts.maps slot index ≡ Some (Anon slot index) }
        requires there { page_of self.old.parts.cache (Anon slot index) ≡ Some page }
        requires page { CanTear self.old.parts (St.view st.old) slot index page }
        ensures row { DoesAlone St.step (teardown_owned self.old cpu slot index (mapping_pages (slot_at self.old.parts.maps slot)) page None) st.old (self.new, result) st.new }
    {
        match tear_page(&mut self.parts, st, slot, index, page) {
            Placed::Done => self.pass_torn(cpu, slot, index),
            Placed::Gone => self.pass_torn(cpu, slot, index),
            Placed::Again { why } => Turn::Again { why },
        }
    }

    /// No page has the tag of page `index` of the mapping that was in a slot. Its swap slot, if it has one, is freed.
    fn tear_bare(&mut self, cpu: u32, slot: u32, index: u32) -> Turn
        requires goes_on { CanGoOn self.old cpu }
        requires index { index < MAX_MAPPING_PAGES }
        requires tag { IsTag self.old.parts.cache (Anon slot index) }
        requires torn { IsTornTo self.old.parts.maps slot index }
        ensures row { torn_past (with_parts self.old (released self.old.parts slot index)) cpu slot index (mapping_pages (slot_at self.old.parts.maps slot)) ≡ (self.new, result) }
    {
        release(&mut self.parts, slot, index);
        self.pass_torn(cpu, slot, index)
    }

    /// Page `index` of the mapping of pages of its own that was in a slot is off once no page has its tag, and no swap slot
    /// is assigned to it.
    fn tear_own<St: Storage>(&mut self, cpu: u32, st: &mut St, slot: u32, index: u32) -> Turn
        requires cpu { cpu < length self.old.processors }
        requires fit { IsFit self.old (St.view st.old) }
        requires tears { IsTearing self.old cpu slot index }
        requires own { tag_at self.old.parts.maps slot index ≡ Some (Anon slot index) }
        ensures row { DoesAlone St.step (teardown_page self.old cpu slot index (mapping_pages (slot_at self.old.parts.maps slot)) (page_of self.old.parts.cache (Anon slot index))) st.old (self.new, result) st.new }
    {
        match self.page_with(Tag::Anon { slot, index }) {
            None => self.tear_bare(cpu, slot, index),
            Some(page) => match self.info(page).owner {
                Some(owner) => Turn::Waits { page, owner },
                None => self.tear_turn(cpu, st, slot, index, page),
            },
        }
    }

    /// The turn of a processor whose unmap is at page `index` of the mapping that was in a slot: of a file's mapping the
    /// entry goes, of a mapping of pages of its own the page.
    pub(super) fn teardown_turn<St: Storage>(
        &mut self,
        cpu: u32,
        st: &mut St,
        slot: u32,
        index: u32,
    ) -> Turn
        requires cpu { cpu < length self.old.processors }
        requires fit { IsFit self.old (St.view st.old) }
        requires phase { (processor_at self.old cpu).phase ≡ Teardown slot index }
        ensures row { DoesAlone St.step (teardown_turn self.old cpu slot index) st.old (self.new, result) st.new }
    {
        let there = self.spot(slot, index);
        match there.tag {
            Tag::File { file: _, index: _ } => self.tear_entry(cpu, st, slot, index, there.pte),
            Tag::Anon { slot: _, index: _ } => self.tear_own(cpu, st, slot, index),
        }
    }
}
