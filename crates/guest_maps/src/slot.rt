ghost use Rattle.std.specs.Prelude.{◌≡◌, ◌<◌, true};
ghost use Rattle.cmm_types.specs.InRange.{ArePages};
ghost use Rattle.guest_maps.specs.MapsView.{first_of, is_writable, spot_of, tag_of};

use cmm_types::{MAX_MAPPING_PAGES, Tag};

/// The entry of a mapping's page: the guest's page that shows there, and whether stores may go through it.
#[derive(Clone, Copy, Debug, PartialEq, Eq)]
pub struct Pte {
    pub page: u32,
    pub writable: bool,
}

/// What a mapping shows.
#[derive(Clone, Copy, Debug, PartialEq, Eq)]
pub enum Shown {
    /// The pages of a file from page `first` on.
    File {
        file: u32,
        first: u32,
        writable: bool,
    },
    /// Pages of its own, which are always writable.
    Anon,
}

/// A mapping slot that isn't free.
#[derive(Clone, Copy, Debug, PartialEq, Eq)]
pub struct Slot {
    pub process: u32,
    /// The mapping's number in its process, which is free again once the slot isn't live.
    pub map: u32,
    /// The mapping is there; otherwise it is being torn down.
    pub live: bool,
    pub shown: Shown,
    /// The mapping's pages.
    pub count: u32,
}

/// A place in a mapping.
#[derive(Clone, Copy, Debug, PartialEq, Eq)]
pub struct Spot {
    /// What is shown there.
    pub tag: Tag,
    /// The mapping may be stored to.
    pub writable: bool,
    /// The mapping isn't being torn down.
    pub live: bool,
    pub pte: Option<Pte>,
}

impl Shown {
    /// What page `index` of the mapping in a slot shows.
    fn tag(self, slot: u32, index: u32) -> Tag
        requires first { first_of self < MAX_MAPPING_PAGES }
        requires index { index < MAX_MAPPING_PAGES }
        ensures { result ≡ tag_of self slot index }
    {
        match self {
            Shown::File {
                file,
                first,
                writable: _,
            } => Tag::File {
                file,
                index: first + index,
            },
            Shown::Anon => Tag::Anon { slot, index },
        }
    }

    fn is_writable(self) -> bool
        ensures { result ≡ is_writable self }
    {
        match self {
            Shown::File {
                file: _,
                first: _,
                writable,
            } => writable,
            Shown::Anon => true,
        }
    }
}

impl Slot {
    /// Page `index` of this mapping, which is in slot `slot`.
    pub(crate) fn spot(self, slot: u32, index: u32, pte: Option<Pte>) -> Spot
        requires pages { ArePages (first_of self.shown) self.count }
        requires index { index < self.count }
        ensures { spot_of (Some self) slot index pte ≡ Some result }
    {
        Spot {
            tag: self.shown.tag(slot, index),
            writable: self.shown.is_writable(),
            live: self.live,
            pte,
        }
    }
}
