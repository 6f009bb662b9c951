ghost use Rattle.std.specs.Prelude.{◌≡◌, ◌≤◌, ◌<◌, ◌+◌, ◌^◌, ◌∷◌, [], ℕ, Bool, not};
ghost use Rattle.cmm_types.specs.declared.bytes.TheConstants.{MAX_BYTES};
ghost use Rattle.cmm_types.specs.declared.command.TheConstants.{MAX_MAPPING_PAGES};
ghost use Rattle.cmm_types.specs.declared.command.FlatRefusal.TheVariants.{OutOfRange};
ghost use Rattle.cmm_types.specs.declared.command.Op.TheVariants.{Sync, MapFile, MapAnon, Unmap, Load, Store, Pin, Unpin};
ghost use Rattle.cmm_types.specs.InRange.{OpInRange};
ghost use Rattle.cmm_flat.specs.Flat.{in_file, refusal_of, first_refusal};

use crate::flat::Flat;
use cmm_types::{Bytes64, FlatRefusal, Op, PAGE};

impl Flat {
    fn refusal_in_file(&self, file: u32, off: usize, len: usize) -> Option<FlatRefusal>
        requires { off + len < 2 ^ 64 }
        ensures { result ≡ first_refusal ((not (in_file self.now.files file off len), OutOfRange) ∷ []) }
    {
        if self.in_file(file, off, len) {
            None
        } else {
            Some(FlatRefusal::OutOfRange)
        }
    }

    fn refusal_of_sync(&self, file: u32) -> Option<FlatRefusal>
        ensures { (process : ℕ) → result ≡ refusal_of self.now process (Sync file) }
    {
        if self.has_file(file) {
            None
        } else {
            Some(FlatRefusal::OutOfRange)
        }
    }

    fn refusal_of_map_file(
        &self,
        process: u32,
        map: u32,
        file: u32,
        first: u32,
        count: u32,
    ) -> Option<FlatRefusal>
        requires few { count ≤ MAX_MAPPING_PAGES }
        ensures { (writable : Bool) → result ≡ refusal_of self.now process (MapFile map file first count writable) }
    {
        if self.mapping(process, map).is_some() {
            return Some(FlatRefusal::AlreadyMapped);
        }
        if !self.in_file(file, PAGE * first as usize, PAGE * count as usize) {
            return Some(FlatRefusal::OutOfRange);
        }
        if self.is_full() {
            return Some(FlatRefusal::TooManyMaps);
        }
        None
    }

    fn refusal_of_map_anon(&self, process: u32, map: u32) -> Option<FlatRefusal>
        ensures { (count : ℕ) → result ≡ refusal_of self.now process (MapAnon map count) }
    {
        if self.mapping(process, map).is_some() {
            return Some(FlatRefusal::AlreadyMapped);
        }
        if self.is_full() {
            return Some(FlatRefusal::TooManyMaps);
        }
        None
    }

    fn refusal_of_unmap(&self, process: u32, map: u32) -> Option<FlatRefusal>
        ensures { result ≡ refusal_of self.now process (Unmap map) }
    {
        let Some(mapping) = self.mapping(process, map) else {
            return Some(FlatRefusal::NoMapping);
        };
        if mapping.pins.any() {
            return Some(FlatRefusal::Pinned);
        }
        None
    }

    fn refusal_of_load(&self, process: u32, map: u32, off: u32, len: u32) -> Option<FlatRefusal>
        requires few { len ≤ MAX_BYTES }
        ensures { result ≡ refusal_of self.now process (Load map off len) }
    {
        let Some(mapping) = self.mapping(process, map) else {
            return Some(FlatRefusal::NoMapping);
        };
        if off as usize + len as usize > mapping.len() {
            return Some(FlatRefusal::OutOfRange);
        }
        None
    }

    fn refusal_of_store(
        &self,
        process: u32,
        map: u32,
        off: u32,
        bytes: &Bytes64,
    ) -> Option<FlatRefusal>
        ensures { result ≡ refusal_of self.now process (Store map off bytes.now) }
    {
        let Some(mapping) = self.mapping(process, map) else {
            return Some(FlatRefusal::NoMapping);
        };
        if off as usize + bytes.as_slice().len() > mapping.len() {
            return Some(FlatRefusal::OutOfRange);
        }
        if !mapping.shows_writable() {
            return Some(FlatRefusal::ReadOnly);
        }
        None
    }

    fn refusal_of_pin(&self, process: u32, map: u32, page: u32) -> Option<FlatRefusal>
        ensures { result ≡ refusal_of self.now process (Pin map page) }
    {
        let Some(mapping) = self.mapping(process, map) else {
            return Some(FlatRefusal::NoMapping);
        };
        let page = page as usize;
        if page >= mapping.pins.len() {
            return Some(FlatRefusal::OutOfRange);
        }
        if mapping.pins.at(page) {
            return Some(FlatRefusal::Pinned);
        }
        None
    }

    fn refusal_of_unpin(&self, process: u32, map: u32, page: u32) -> Option<FlatRefusal>
        ensures { result ≡ refusal_of self.now process (Unpin map page) }
    {
        let Some(mapping) = self.mapping(process, map) else {
            return Some(FlatRefusal::NoMapping);
        };
        let page = page as usize;
        if page >= mapping.pins.len() {
            return Some(FlatRefusal::OutOfRange);
        }
        if !mapping.pins.at(page) {
            return Some(FlatRefusal::NotPinned);
        }
        None
    }

    /// Why a command of a process would be refused, if it would be. It takes no memory, and changes nothing.
    pub fn refusal(&self, process: u32, op: &Op) -> Option<FlatRefusal>
        requires { OpInRange op.now }
        ensures { result ≡ refusal_of self.now process op.now }
    {
        match op {
            Op::Read { file, off, len } => self.refusal_in_file(
                *file,
                *off as usize,
                *len as usize,
            ),
            Op::Write { file, off, bytes } => {
                self.refusal_in_file(*file, *off as usize, bytes.as_slice().len())
            }
            Op::Sync { file } => self.refusal_of_sync(*file),
            Op::MapFile {
                map,
                file,
                first,
                count,
                writable: _,
            } => self.refusal_of_map_file(process, *map, *file, *first, *count),
            Op::MapAnon { map, count: _ } => self.refusal_of_map_anon(process, *map),
            Op::Unmap { map } => self.refusal_of_unmap(process, *map),
            Op::Load { map, off, len } => self.refusal_of_load(process, *map, *off, *len),
            Op::Store { map, off, bytes } => self.refusal_of_store(process, *map, *off, bytes),
            Op::Pin { map, page } => self.refusal_of_pin(process, *map, *page),
            Op::Unpin { map, page } => self.refusal_of_unpin(process, *map, *page),
        }
    }
}
