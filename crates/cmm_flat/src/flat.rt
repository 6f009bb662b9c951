ghost use Rattle.std.specs.Prelude.{◌≡◌, ◌≤◌, ◌<◌, ◌+◌, ◌*◌, ◌^◌, ℕ, nat_lt, nat_le, length, IfOk, IfSome, OnErr, All, Some, None};
ghost use Rattle.cmm_types.specs.declared.bytes.TheConstants.{MAX_BYTES};
ghost use Rattle.cmm_types.specs.declared.command.TheConstants.{MAX_MAPPING_PAGES};
ghost use Rattle.std.specs.Option.{option_copied};
ghost use Rattle.cmm_types.specs.declared.command.Reply.TheVariants.{Done};
ghost use Rattle.cmm_types.specs.declared.command.Op.TheVariants.{Read, Write, Sync, MapFile, MapAnon, Unmap, Load, Store, Pin, Unpin};
ghost use Rattle.cmm_types.specs.InRange.{FileInRange, OpInRange};
ghost use Rattle.cmm_flat.specs.State.{Shows, opening, mapping_at};
ghost use Rattle.cmm_flat.specs.Flat.{flat_step, in_file, is_full};
ghost use Rattle.cmm_flat.specs.Legal.{over_live, pinned_pages, anonymous_pages, pages_ended};

use crate::NoMemory;
use crate::contents::Contents;
use crate::mapping::{Mapping, MappingKey, Shown};
use crate::mappings::Mappings;
use crate::pins::Pins;
use cmm_types::{Bytes64, FilePlan, FlatRefusal, MAX_LIVE_MAPPINGS, Op, PAGE, Reply};
use std::alloc::Global;
use std::marker::Model;

/// The flat machine: the files' bytes and the live mappings, with nothing between them and the processors.
#[derive(Debug, Drop)]
pub struct Flat {
    files: Vec<Contents>,
    mappings: Mappings,
}

impl Model for Flat {
    ghost use Rattle.cmm_flat.specs.State.{FlatState, coded_state, IsSound};

    ghost Value = { FlatState };

    ghost coded = { coded_state };

    ghost view = { λ f. record { files = f.files.items; mappings = f.mappings } };

    ghost invariant = { λ f. IsSound (record { files = f.files.items; mappings = f.mappings }) };
}

impl Flat {
    /// The files as planned, and no mapping.
    pub fn open(alloc: Global, plans: &[FilePlan]) -> Result<Flat, NoMemory>
        requires { All FileInRange plans.now }
        ensures { IfOk result (λ flat. flat ≡ opening plans.now) }
    {
        let mut files = Vec::new(alloc);
        for plan in plans {
            files.push(Contents::new(alloc, plan.head.as_slice(), PAGE * plan.pages as usize)?)?;
        }
        Ok(Flat {
            files,
            mappings: Mappings::new(alloc),
        })
    }

    /// Whether there is such a file, and it has `len` bytes from `off` on.
    pub(crate) fn in_file(&self, file: u32, off: usize, len: usize) -> bool
        requires { off + len < 2 ^ 64 }
        ensures { result ≡ in_file self.now.files file off len }
    {
        (file as usize) < self.files.len() && off + len <= self.files[file as usize].len()
    }

    pub(crate) fn has_file(&self, file: u32) -> bool
        ensures { result ≡ nat_lt file (length self.now.files) }
    {
        (file as usize) < self.files.len()
    }

    /// The live mapping with this number in this process.
    pub(crate) fn mapping(&self, process: u32, map: u32) -> Option<&Mapping>
        ensures at { option_copied result ≡ mapping_at self.now process map }
        ensures shows { IfSome result (λ mapping. Shows self.now.files mapping.now) }
    {
        self.mappings.get(MappingKey { process, map })
    }

    pub(crate) fn is_full(&self) -> bool
        ensures { result ≡ is_full self.now }
    {
        self.mappings.len() >= MAX_LIVE_MAPPINGS as usize
    }

    fn read(&self, file: u32, off: u32, len: u32) -> Reply
        requires few { len ≤ MAX_BYTES }
        ensures { (process : ℕ) → (self.now, result) ≡ flat_step self.now process (Read file off len) }
    {
        if !self.in_file(file, off as usize, len as usize) {
            return Reply::Refused(FlatRefusal::OutOfRange);
        }
        Reply::Bytes(self.files[file as usize].bytes_at(off as usize, len as usize))
    }

    fn write(&mut self, file: u32, off: u32, bytes: &Bytes64) -> Reply
        ensures { (process : ℕ) → (self.new, result) ≡ flat_step self.old process (Write file off bytes.now) }
    {
        let bytes = bytes.as_slice();
        if !self.in_file(file, off as usize, bytes.len()) {
            return Reply::Refused(FlatRefusal::OutOfRange);
        }
        self.files[file as usize].write(off as usize, bytes);
        Reply::Done
    }

    fn sync(&self, file: u32) -> Reply
        ensures { (process : ℕ) → (self.now, result) ≡ flat_step self.now process (Sync file) }
    {
        if file as usize >= self.files.len() {
            return Reply::Refused(FlatRefusal::OutOfRange);
        }
        Reply::Done
    }

    fn map_file(
        &mut self,
        alloc: Global,
        process: u32,
        map: u32,
        file: u32,
        first: u32,
        count: u32,
        writable: bool,
    ) -> Result<Reply, NoMemory>
        requires few { count ≤ MAX_MAPPING_PAGES }
        ensures ok { IfOk result (λ reply. (self.new, reply) ≡ flat_step self.old process (MapFile map file first count writable)) }
        ensures err { OnErr result (self.new ≡ self.old) }
    {
        if self.mapping(process, map).is_some() {
            return Ok(Reply::Refused(FlatRefusal::AlreadyMapped));
        }
        let pages = count as usize;
        if !self.in_file(file, PAGE * first as usize, PAGE * pages) {
            return Ok(Reply::Refused(FlatRefusal::OutOfRange));
        }
        if self.is_full() {
            return Ok(Reply::Refused(FlatRefusal::TooManyMaps));
        }
        let mapping = Mapping {
            shown: Shown::OfFile {
                file,
                first,
                writable,
            },
            pins: Pins::none(alloc, pages)?,
        };
        self.mappings.insert(MappingKey { process, map }, mapping)?;
        Ok(Reply::Done)
    }

    fn map_anon(
        &mut self,
        alloc: Global,
        process: u32,
        map: u32,
        count: u32,
    ) -> Result<Reply, NoMemory>
        requires few { count ≤ MAX_MAPPING_PAGES }
        ensures ok { IfOk result (λ reply. (self.new, reply) ≡ flat_step self.old process (MapAnon map count)) }
        ensures err { OnErr result (self.new ≡ self.old) }
    {
        if self.mapping(process, map).is_some() {
            return Ok(Reply::Refused(FlatRefusal::AlreadyMapped));
        }
        if self.is_full() {
            return Ok(Reply::Refused(FlatRefusal::TooManyMaps));
        }
        let pages = count as usize;
        let mapping = Mapping {
            shown: Shown::Anonymous {
                bytes: Contents::zeros(alloc, PAGE * pages)?,
            },
            pins: Pins::none(alloc, pages)?,
        };
        self.mappings.insert(MappingKey { process, map }, mapping)?;
        Ok(Reply::Done)
    }

    fn unmap(&mut self, process: u32, map: u32) -> Reply
        ensures { (self.new, result) ≡ flat_step self.old process (Unmap map) }
    {
        let Some(mapping) = self.mapping(process, map) else {
            return Reply::Refused(FlatRefusal::NoMapping);
        };
        if mapping.pins.any() {
            return Reply::Refused(FlatRefusal::Pinned);
        }
        self.mappings.remove(MappingKey { process, map });
        Reply::Done
    }

    fn load(&self, process: u32, map: u32, off: u32, len: u32) -> Reply
        requires few { len ≤ MAX_BYTES }
        ensures { (self.now, result) ≡ flat_step self.now process (Load map off len) }
    {
        let Some(mapping) = self.mapping(process, map) else {
            return Reply::Refused(FlatRefusal::NoMapping);
        };
        let off = off as usize;
        let len = len as usize;
        if off + len > mapping.len() {
            return Reply::Refused(FlatRefusal::OutOfRange);
        }
        match &mapping.shown {
            Shown::OfFile { file, first, .. } => Reply::Bytes(self.files[*file as usize].bytes_at(
                PAGE * *first as usize + off,
                len,
            )),
            Shown::Anonymous { bytes } => Reply::Bytes(bytes.bytes_at(off, len)),
        }
    }

    fn store(&mut self, process: u32, map: u32, off: u32, bytes: &Bytes64) -> Reply
        ensures { (self.new, result) ≡ flat_step self.old process (Store map off bytes.now) }
    {
        let Some(mapping) = self.mapping(process, map) else {
            return Reply::Refused(FlatRefusal::NoMapping);
        };
        let off = off as usize;
        let bytes = bytes.as_slice();
        if off + bytes.len() > mapping.len() {
            return Reply::Refused(FlatRefusal::OutOfRange);
        }
        match &mapping.shown {
            Shown::OfFile {
                file,
                first,
                writable,
            } => {
                if !*writable {
                    return Reply::Refused(FlatRefusal::ReadOnly);
                }
                let file = *file as usize;
                let from = PAGE * *first as usize + off;
                self.files[file].write(from, bytes);
                Reply::Done
            }
            Shown::Anonymous { .. } => {
                self.mappings.write(MappingKey { process, map }, off, bytes);
                Reply::Done
            }
        }
    }

    fn pin(&mut self, process: u32, map: u32, page: u32) -> Reply
        ensures { (self.new, result) ≡ flat_step self.old process (Pin map page) }
    {
        let Some(mapping) = self.mapping(process, map) else {
            return Reply::Refused(FlatRefusal::NoMapping);
        };
        let page = page as usize;
        if page >= mapping.pins.len() {
            return Reply::Refused(FlatRefusal::OutOfRange);
        }
        if mapping.pins.at(page) {
            return Reply::Refused(FlatRefusal::Pinned);
        }
        self.mappings
            .set_pin(MappingKey { process, map }, page, true);
        Reply::Done
    }

    fn unpin(&mut self, process: u32, map: u32, page: u32) -> Reply
        ensures { (self.new, result) ≡ flat_step self.old process (Unpin map page) }
    {
        let Some(mapping) = self.mapping(process, map) else {
            return Reply::Refused(FlatRefusal::NoMapping);
        };
        let page = page as usize;
        if page >= mapping.pins.len() {
            return Reply::Refused(FlatRefusal::OutOfRange);
        }
        if !mapping.pins.at(page) {
            return Reply::Refused(FlatRefusal::NotPinned);
        }
        self.mappings
            .set_pin(MappingKey { process, map }, page, false);
        Reply::Done
    }

    /// Whether at least so many pages of live mappings are pinned.
    pub fn has_pinned(&self, count: usize) -> bool
        ensures { result ≡ nat_le count (over_live pinned_pages self.now) }
    {
        self.mappings.has_pinned(count)
    }

    /// Whether the live anonymous mappings have at least so many pages.
    pub fn has_anonymous(&self, count: usize) -> bool
        ensures { result ≡ nat_le count (over_live anonymous_pages self.now) }
    {
        self.mappings.has_anonymous(count)
    }

    /// The pages of the anonymous mapping that an unmap would end; none for another command.
    pub fn would_end(&self, process: u32, op: &Op) -> usize
        ensures { result ≡ pages_ended self.now process op.now Done }
    {
        match op {
            Op::Read { .. } | Op::Write { .. } | Op::Sync { .. } => 0,
            Op::MapFile { .. } | Op::MapAnon { .. } => 0,
            Op::Unmap { map } => match self.mapping(process, *map) {
                Some(mapping) => mapping.anonymous_pages(),
                None => 0,
            },
            Op::Load { .. } | Op::Store { .. } | Op::Pin { .. } | Op::Unpin { .. } => 0,
        }
    }

    /// Does a command of a process. It takes memory where it maps; after `NoMemory` nothing has changed. It
    /// never answers `Fail`.
    pub fn step(&mut self, alloc: Global, process: u32, op: &Op) -> Result<Reply, NoMemory>
        requires { OpInRange op.now }
        ensures ok { IfOk result (λ reply. (self.new, reply) ≡ flat_step self.old process op.now) }
        ensures err { OnErr result (self.new ≡ self.old) }
    {
        match op {
            Op::Read { file, off, len } => Ok(self.read(*file, *off, *len)),
            Op::Write { file, off, bytes } => Ok(self.write(*file, *off, bytes)),
            Op::Sync { file } => Ok(self.sync(*file)),
            Op::MapFile {
                map,
                file,
                first,
                count,
                writable,
            } => self.map_file(alloc, process, *map, *file, *first, *count, *writable),
            Op::MapAnon { map, count } => self.map_anon(alloc, process, *map, *count),
            Op::Unmap { map } => Ok(self.unmap(process, *map)),
            Op::Load { map, off, len } => Ok(self.load(process, *map, *off, *len)),
            Op::Store { map, off, bytes } => Ok(self.store(process, *map, *off, bytes)),
            Op::Pin { map, page } => Ok(self.pin(process, *map, *page)),
            Op::Unpin { map, page } => Ok(self.unpin(process, *map, *page)),
        }
    }
}
