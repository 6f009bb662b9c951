ghost use Rattle.std.specs.Prelude.{◌≡◌, ◌≤◌, ◌<◌, ◌+◌, ◌^◌, length, IfOk, OnOk, OnErr, OnSome, nat_le, is_some, Some, None, false};
ghost use Rattle.cmm_types.specs.declared.plan.TheConstants.{MAX_LIVE_MAPPINGS};
ghost use Rattle.std.specs.Option.{option_copied, ForSome};
ghost use Rattle.std.specs.FinMap as finite;
ghost use Rattle.cmm_flat.specs.Mapping.{key_cmp, HasRoom, written, with_pin};
ghost use Rattle.cmm_flat.specs.Legal.{pinned_pages, anonymous_pages, sum_over};

use crate::NoMemory;
use crate::mapping::{Mapping, MappingKey};
use std::alloc::Global;
use std::collections::BTreeMap;
use std::marker::Model;

/// The live mappings by key. Contracts see a finite map.
#[derive(Debug, Drop)]
pub struct Mappings {
    live: BTreeMap<MappingKey, Mapping>,
    count: usize,
}

impl Model for Mappings {
    ghost use Rattle.std.specs.Prelude.{◌≡◌};
    ghost use Rattle.std.specs.FinMap as finite;
    ghost use Rattle.cmm_flat.specs.declared.mapping.Mapping.{Mapping};
    ghost use Rattle.cmm_flat.specs.Mapping.{key_cmp, coded_key, coded_mapping};

    ghost Value = { finite.FinMap key_cmp Mapping };

    ghost coded = { finite.code coded_key coded_mapping };

    ghost view = { λ m. finite.from_entries m.live.entries };

    ghost invariant = { λ m. m.count ≡ finite.len (finite.from_entries {R = key_cmp} m.live.entries) };
}

impl Mappings {
    pub fn new(alloc: Global) -> Mappings
        ensures { result ≡ finite.empty }
    {
        Mappings {
            live: BTreeMap::new(alloc),
            count: 0,
        }
    }

    pub fn len(&self) -> usize
        ensures { result ≡ finite.len self.now }
    {
        self.count
    }

    pub fn get(&self, key: MappingKey) -> Option<&Mapping>
        ensures { option_copied result ≡ finite.get self.now key }
    {
        self.live.get(&key)
    }

    /// Whether at least so many pages of the mappings are pinned.
    pub fn has_pinned(&self, count: usize) -> bool
        ensures { result ≡ nat_le count (sum_over (λ live. pinned_pages live.1) (finite.entries self.now)) }
    {
        let mut left = count;
        for mapping in self.live.values() {
            left = left.saturating_sub(mapping.pinned_pages());
        }
        left == 0
    }

    /// Whether the mappings have at least so many pages of their own.
    pub fn has_anonymous(&self, count: usize) -> bool
        ensures { result ≡ nat_le count (sum_over (λ live. anonymous_pages live.1) (finite.entries self.now)) }
    {
        let mut left = count;
        for mapping in self.live.values() {
            left = left.saturating_sub(mapping.anonymous_pages());
        }
        left == 0
    }

    /// Adds a mapping under a key that has none.
    pub fn insert(&mut self, key: MappingKey, mapping: Mapping) -> Result<(), NoMemory>
        requires new { finite.contains_key self.old key ≡ false }
        requires few { finite.len self.old < MAX_LIVE_MAPPINGS }
        ensures ok { OnOk result (self.new ≡ finite.insert self.old key mapping) }
        ensures err { OnErr result (self.new ≡ self.old) }
    {
        self.live.insert(key, mapping)?;
        self.count += 1;
        Ok(())
    }

    /// Removes the mapping under a key.
    pub fn remove(&mut self, key: MappingKey)
        ensures { self.new ≡ finite.remove self.old key }
    {
        if self.live.remove(&key).is_some() {
            self.count -= 1;
        }
    }

    /// Puts bytes into the place of a mapping's own from `off` on.
    pub fn write(&mut self, key: MappingKey, off: usize, bytes: &[u8])
        requires { ForSome (finite.get self.old key) (λ mapping. HasRoom mapping.shown off (length bytes.now)) }
        ensures { ForSome (finite.get self.old key) (λ mapping. self.new ≡ finite.insert self.old key (written mapping off bytes.now)) }
    {
        let Some(mapping) = self.live.get_mut(&key) else {
            return;
        };
        mapping.write(off, bytes);
    }

    /// Pins a page of a mapping, or unpins it.
    pub fn set_pin(&mut self, key: MappingKey, page: usize, pin: bool)
        requires { ForSome (finite.get self.old key) (λ mapping. page < length mapping.pins) }
        ensures { ForSome (finite.get self.old key) (λ mapping. self.new ≡ finite.insert self.old key (with_pin mapping page pin)) }
    {
        let Some(mapping) = self.live.get_mut(&key) else {
            return;
        };
        mapping.set_pin(page, pin);
    }
}
