ghost use Rattle.std.specs.Prelude.{◌≡◌, ℕ, ◌+◌, ◌*◌, ◌<◌, ◌≤◌, length, true, None, Some, is_none, IfOk, IfSome, replicate, slice_index_or, slice_set, position, count_by};
ghost use Rattle.cmm_types.specs.declared.command.TheConstants.{MAX_MAPPING_NUMBERS};
ghost use Rattle.cmm_types.specs.declared.plan.TheConstants.{MAX_MAPPING_SLOTS, MAX_PROCESSES};
ghost use Rattle.guest_maps.specs.MapsView.{is_live_slot, is_mapping, is_torn, AreSlots, IsMapping, torn};
ghost use Rattle.guest_maps.specs.SlotTable.{number_place};

use crate::slot::Slot;
use cmm_types::{MAX_MAPPING_NUMBERS, MAX_PROCESSES};
use std::alloc::{AllocError, Global};
use std::marker::Model;

/// The mapping slots. Every call but `open` and `free_slot` takes the same time, whatever the number of slots.
#[derive(Drop)]
pub struct Slots {
    slots: Vec<Option<Slot>>,
    /// The live slot of each process's mapping of each number.
    found: Vec<Option<u32>>,
    /// How many slots are live.
    live: u32,
}

impl Model for Slots {
    ghost use Rattle.std.specs.Prelude.{List, Option};
    ghost use Rattle.guest_maps.specs.declared.slot.Slot.{Slot};

    ghost Value = { List (Option Slot) };

    ghost use Rattle.guest_maps.specs.SlotTable.{IsSlotIndex};

    ghost view = { λ s. s.slots.items };

    ghost invariant = { λ s. IsSlotIndex s.slots.items s.found.items s.live };
}

impl Slots {
    /// At most `MAX_MAPPING_SLOTS` slots, all free.
    pub fn open(alloc: Global, slots: u32) -> Result<Slots, AllocError>
        requires { slots ≤ MAX_MAPPING_SLOTS }
        ensures { IfOk result (λ opened. opened ≡ replicate slots None) }
    {
        Ok(Slots {
            slots: vec![in alloc; None; slots as usize]?,
            found: none_found(alloc, MAX_PROCESSES * MAX_MAPPING_NUMBERS)?,
            live: 0,
        })
    }

    /// The live slot of a process's mapping of that number.
    pub fn find(&self, process: u32, map: u32) -> Option<u32>
        requires process { process < MAX_PROCESSES }
        requires map { map < MAX_MAPPING_NUMBERS }
        ensures { result ≡ position (is_mapping process map) self.now }
    {
        self.found[place_of(process, map) as usize]
    }

    /// The least free slot.
    pub fn free_slot(&self) -> Option<u32>
        ensures { result ≡ position is_none self.now }
    {
        match first_free(&self.slots) {
            Some(slot) => Some(slot as u32),
            None => None,
        }
    }

    pub fn at(&self, slot: u32) -> Option<Slot>
        requires { slot < length self.now }
        ensures value { result ≡ slice_index_or self.now slot None }
        ensures sound { AreSlots self.now }
    {
        self.slots[slot as usize]
    }

    pub fn live(&self) -> u32
        ensures { result ≡ count_by is_live_slot self.now }
    {
        self.live
    }

    /// Puts a live mapping into a free slot.
    pub fn add(&mut self, slot: u32, mapping: Slot)
        requires slot { slot < length self.old }
        requires free { slice_index_or self.old slot None ≡ None }
        requires live { mapping.live ≡ true }
        requires range { IsMapping mapping.process mapping.map mapping.shown mapping.count }
        requires new { position (is_mapping mapping.process mapping.map) self.old ≡ None }
        ensures value { self.new ≡ slice_set self.old slot (Some mapping) }
        ensures sound { AreSlots self.new }
    {
        self.found[place_of(mapping.process, mapping.map) as usize] = Some(slot);
        self.live += 1;
        self.slots[slot as usize] = Some(mapping);
    }

    /// Makes a live slot one that is being torn down.
    pub fn tear(&mut self, slot: u32)
        requires { is_live_slot (slice_index_or self.old slot None) ≡ true }
        ensures value { self.new ≡ slice_set self.old slot (torn (slice_index_or self.old slot None)) }
        ensures sound { AreSlots self.new }
    {
        let Some(mapping) = self.slots[slot as usize] else {
            return;
        };
        self.found[place_of(mapping.process, mapping.map) as usize] = None;
        self.live -= 1;
        self.slots[slot as usize] = Some(Slot {
            live: false,
            ..mapping
        });
    }

    /// Makes a slot free that is being torn down.
    pub fn free(&mut self, slot: u32)
        requires { is_torn (slice_index_or self.old slot None) ≡ true }
        ensures value { self.new ≡ slice_set self.old slot None }
        ensures sound { AreSlots self.new }
    {
        self.slots[slot as usize] = None;
    }
}

/// Where the table has the live slot of a process's mapping of a number.
fn place_of(process: u32, map: u32) -> u32
    requires process { process < MAX_PROCESSES }
    requires map { map < MAX_MAPPING_NUMBERS }
    ensures place { result ≡ number_place process map }
    ensures within { result < MAX_PROCESSES * MAX_MAPPING_NUMBERS }
{
    process * MAX_MAPPING_NUMBERS + map
}

/// A table of so many places with no slot in it.
fn none_found(alloc: Global, places: u32) -> Result<Vec<Option<u32>>, AllocError>
    ensures whole { IfOk result (λ found. length found.items ≡ places) }
    ensures empty { IfOk result (λ found. (place : ℕ) → slice_index_or found.items place None ≡ None) }
{
    vec![in alloc; None; places as usize]
}

/// The least free one of these slots.
fn first_free(slots: &[Option<Slot>]) -> Option<usize>
    ensures free { result ≡ position is_none slots.now }
    ensures within { IfSome result (λ slot. slot < length slots.now) }
{
    slots.iter().position(|slot| slot.is_none())
}
