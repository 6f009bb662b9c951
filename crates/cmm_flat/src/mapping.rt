ghost use Rattle.std.specs.Prelude.{◌≡◌, ◌<◌, ◌≤◌, length};
ghost use Rattle.cmm_flat.specs.Mapping.{HasRoom, length_of, shows_writable, written, with_pin};
ghost use Rattle.cmm_flat.specs.Legal.{pinned_pages, anonymous_pages};
ghost use Rattle.cmm_types.specs.declared.command.TheConstants.{MAX_MAPPING_PAGES};

use crate::contents::Contents;
use crate::pins::Pins;
use cmm_types::PAGE;

/// The key of a mapping: its process, and its number there.
#[derive(Clone, Copy, Debug, PartialEq, Eq, PartialOrd, Ord)]
pub struct MappingKey {
    pub process: u32,
    pub map: u32,
}

/// What a mapping shows.
#[derive(Debug, Drop)]
pub enum Shown {
    /// Pages of a file, from page `first` on.
    OfFile {
        file: u32,
        first: u32,
        writable: bool,
    },
    /// Bytes of its own.
    Anonymous {
        bytes: Contents,
    },
}

/// A live mapping: what it shows, and for each of its pages whether it is pinned.
#[derive(Debug, Drop)]
pub struct Mapping {
    pub shown: Shown,
    pub pins: Pins,
}

impl Mapping {
    /// Its pages in bytes.
    pub fn len(&self) -> usize
        requires { length self.now.pins ≤ MAX_MAPPING_PAGES }
        ensures { result ≡ length_of self.now }
    {
        PAGE * self.pins.len()
    }

    /// Whether its pages can be written.
    pub fn shows_writable(&self) -> bool
        ensures { result ≡ shows_writable self.now.shown }
    {
        match &self.shown {
            Shown::OfFile { writable, .. } => *writable,
            Shown::Anonymous { .. } => true,
        }
    }

    /// How many of its pages are pinned.
    pub fn pinned_pages(&self) -> usize
        ensures { result ≡ pinned_pages self.now }
    {
        self.pins.count()
    }

    /// How many pages of its own it has.
    pub fn anonymous_pages(&self) -> usize
        ensures { result ≡ anonymous_pages self.now }
    {
        match &self.shown {
            Shown::OfFile { .. } => 0,
            Shown::Anonymous { .. } => self.pins.len(),
        }
    }

    /// Puts bytes into the place of its own from `off` on, if it has bytes of its own.
    pub fn write(&mut self, off: usize, bytes: &[u8])
        requires { HasRoom self.old.shown off (length bytes.now) }
        ensures { self.new ≡ written self.old off bytes.now }
    {
        match &mut self.shown {
            Shown::Anonymous { bytes: own } => own.write(off, bytes),
            Shown::OfFile { .. } => {}
        }
    }

    /// Pins a page, or unpins it.
    pub fn set_pin(&mut self, page: usize, pin: bool)
        requires { page < length self.old.pins }
        ensures { self.new ≡ with_pin self.old page pin }
    {
        self.pins.set(page, pin);
    }
}
