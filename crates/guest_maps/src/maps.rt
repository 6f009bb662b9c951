ghost use Rattle.std.specs.Prelude.{◌≡◌, ℕ, ◌+◌, ◌*◌, ◌<◌, ◌≤◌, length, true, false, None, Some, IfOk, IsSome};
ghost use Rattle.cmm_types.specs.declared.command.TheConstants.{MAX_MAPPING_NUMBERS, MAX_MAPPING_PAGES};
ghost use Rattle.cmm_types.specs.declared.plan.TheConstants.{MAX_MAPPING_SLOTS, MAX_PROCESSES};
ghost use Rattle.guest_maps.specs.MapsView.{IsMapping, IsPlace, any_pinned, entries_showing, entry_at, find_slot, free_slot, freed_slot, is_live_slot, is_torn, live_slots, opening_maps, pinned_at, place_at, slot_at, spot_at, torn_slot, translated, with_entry, with_slot_mapped, with_pinned, without_entries_of};

use crate::entries::Entries;
use crate::pins::Pins;
use crate::slot::{Pte, Shown, Slot, Spot};
use crate::slots::Slots;
use cmm_types::{MAX_MAPPING_PAGES, MAX_MAPPING_SLOTS};
use std::alloc::{AllocError, Global};
use std::marker::Model;

/// A guest's mapping slots, the entry of each place of their mappings, and which places are pinned. `add` takes
/// time in proportion to the slots, `any_pinned` to a mapping's pages, and `clear_page` to the entries that it
/// clears. Every other call but `open` takes the same time, whatever is mapped.
#[derive(Drop)]
pub struct Maps {
    slots: Slots,
    entries: Entries,
    pins: Pins,
}

impl Model for Maps {
    ghost use Rattle.guest_maps.specs.MapsView.{MapsView, IsMaps};

    ghost Value = { MapsView };

    ghost view = { λ m. record { pages = m.entries.pages; slots = m.slots; entries = m.entries.entries; pinned = m.pins } };

    ghost invariant = { λ m. IsMaps (record { pages = m.entries.pages; slots = m.slots; entries = m.entries.entries; pinned = m.pins }) };
}

impl Maps {
    /// The tables of a guest with so many pages: `MAX_MAPPING_SLOTS` free slots, no entry and nothing pinned.
    pub fn open(alloc: Global, pages: u32) -> Result<Maps, AllocError>
        ensures { IfOk result (λ maps. maps ≡ opening_maps pages MAX_MAPPING_SLOTS) }
    {
        Maps::with_slots(alloc, pages, MAX_MAPPING_SLOTS)
    }

    #[tactic(auto, unfolding(crate::specs::MapsView::opening_maps))]
    fn with_slots(alloc: Global, pages: u32, slots: u32) -> Result<Maps, AllocError>
        requires { slots ≤ MAX_MAPPING_SLOTS }
        ensures { IfOk result (λ maps. maps ≡ opening_maps pages slots) }
    {
        Ok(Maps {
            slots: Slots::open(alloc, slots)?,
            entries: Entries::open(alloc, pages, slots * MAX_MAPPING_PAGES)?,
            pins: Pins::open(alloc, slots * MAX_MAPPING_PAGES)?,
        })
    }

    /// The live slot of a process's mapping of that number.
    pub fn find(&self, process: u32, map: u32) -> Option<u32>
        requires process { process < MAX_PROCESSES }
        requires map { map < MAX_MAPPING_NUMBERS }
        ensures { result ≡ find_slot self.now process map }
    {
        self.slots.find(process, map)
    }

    /// Makes a mapping of `count` pages live in the least free slot, and answers the slot.
    #[tactic(auto, unfolding(crate::specs::MapsView::with_slot_mapped, crate::specs::MapsView::with_slot))]
    pub fn add(&mut self, process: u32, map: u32, shown: Shown, count: u32) -> u32
        requires range { IsMapping process map shown count }
        requires new { find_slot self.old process map ≡ None }
        requires free { IsSome (free_slot self.old) }
        ensures slot { free_slot self.old ≡ Some result }
        ensures within { result < length self.new.slots }
        ensures value { self.new ≡ with_slot_mapped self.old result process map shown count }
        ensures slots { length self.new.slots ≡ length self.old.slots }
    {
        let slot = self.slots.free_slot().unwrap();
        self.slots.add(
            slot,
            Slot {
                process,
                map,
                live: true,
                shown,
                count,
            },
        );
        slot
    }

    /// Makes a live slot one that is being torn down. The mapping's number is free again.
    #[tactic(auto, unfolding(crate::specs::MapsView::torn_slot, crate::specs::MapsView::with_slot))]
    pub fn tear(&mut self, slot: u32)
        requires { is_live_slot (slot_at self.old slot) ≡ true }
        ensures value { self.new ≡ torn_slot self.old slot }
        ensures slots { length self.new.slots ≡ length self.old.slots }
    {
        self.slots.tear(slot);
    }

    /// Makes a slot free that is being torn down, where its mapping has no entry and no pinned page.
    #[tactic(auto, unfolding(crate::specs::MapsView::freed_slot, crate::specs::MapsView::with_slot))]
    pub fn free(&mut self, slot: u32)
        requires torn { is_torn (slot_at self.old slot) ≡ true }
        requires entries { (index : ℕ) → index < MAX_MAPPING_PAGES → entry_at self.old slot index ≡ None }
        requires pinned { any_pinned self.old slot ≡ false }
        ensures value { self.new ≡ freed_slot self.old slot }
        ensures slots { length self.new.slots ≡ length self.old.slots }
    {
        self.slots.free(slot);
    }

    /// The entry of a page of a process's live mapping of that number.
    pub fn translate(&self, process: u32, map: u32, page: u32) -> Option<Pte>
        requires process { process < MAX_PROCESSES }
        requires map { map < MAX_MAPPING_NUMBERS }
        requires page { page < MAX_MAPPING_PAGES }
        ensures { result ≡ translated self.now process map page }
    {
        let slot = self.slots.find(process, map)?;
        self.entries.at(place(slot, page))
    }

    /// Gives a page of a mapping an entry.
    #[tactic(auto, unfolding(crate::specs::MapsView::with_entry, crate::specs::EntryChains::with_pte))]
    pub fn set(&mut self, slot: u32, index: u32, pte: Pte)
        requires place { IsPlace self.old slot index }
        requires page { pte.page < self.old.pages }
        ensures { self.new ≡ with_entry self.old slot index (Some pte) }
    {
        self.entries.set(place(slot, index), pte);
    }

    /// Takes the entry away from a page of a mapping.
    #[tactic(auto, unfolding(crate::specs::MapsView::with_entry, crate::specs::EntryChains::with_pte))]
    pub fn clear(&mut self, slot: u32, index: u32)
        requires { IsPlace self.old slot index }
        ensures { self.new ≡ with_entry self.old slot index None }
    {
        self.entries.clear(place(slot, index));
    }

    /// Takes away every entry that shows a page, and answers how many there were.
    #[tactic(auto, unfolding(crate::specs::MapsView::without_entries_of))]
    pub fn clear_page(&mut self, page: u32) -> u32
        requires { page < self.old.pages }
        ensures count { result ≡ entries_showing self.old page }
        ensures value { self.new ≡ without_entries_of self.old page }
    {
        self.entries.clear_page(page)
    }

    /// A place of a mapping; `None` exactly where the slot is free or its mapping has no such page.
    pub fn spot(&self, slot: u32, index: u32) -> Option<Spot>
        requires { slot < length self.now.slots }
        ensures { result ≡ spot_at self.now slot index }
    {
        let mapping = self.slots.at(slot)?;
        if index < mapping.count {
            Some(mapping.spot(slot, index, self.entries.at(place(slot, index))))
        } else {
            None
        }
    }

    /// How many slots are live.
    pub fn live(&self) -> u32
        ensures { result ≡ live_slots self.now }
    {
        self.slots.live()
    }

    /// Whether a page of a mapping is pinned.
    pub fn pinned(&self, slot: u32, index: u32) -> bool
        requires { IsPlace self.now slot index }
        ensures { result ≡ pinned_at self.now slot index }
    {
        self.pins.at(place(slot, index))
    }

    /// Pins a page of a mapping, or unpins it.
    #[tactic(auto, unfolding(crate::specs::MapsView::with_pinned))]
    pub fn set_pinned(&mut self, slot: u32, index: u32, pinned: bool)
        requires { IsPlace self.old slot index }
        ensures { self.new ≡ with_pinned self.old slot index pinned }
    {
        self.pins.set(place(slot, index), pinned);
    }

    /// Whether some page of the mapping in a slot is pinned.
    pub fn any_pinned(&self, slot: u32) -> bool
        requires { slot < length self.now.slots }
        ensures { result ≡ any_pinned self.now slot }
    {
        self.pins
            .any(place(slot, 0), place(slot, 0) + MAX_MAPPING_PAGES)
    }
}

/// Where a page of the mapping in a slot has its entry.
fn place(slot: u32, index: u32) -> u32
    requires slot { slot < MAX_MAPPING_SLOTS }
    requires index { index < MAX_MAPPING_PAGES }
    ensures { result ≡ place_at slot index }
{
    slot * MAX_MAPPING_PAGES + index
}
