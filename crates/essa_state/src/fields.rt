ghost use Rattle.std.specs.Prelude.{◌≡◌};
ghost use Rattle.essa_state.specs.StateWord.{is_permitted, is_discarded};

use cmm_types::{Content, Usage};

/// The last value of a page's discard count.
pub const LAST_COUNT: u32 = u32::MAX;

/// The fields of a page's state word.
#[derive(Clone, Copy, Debug, PartialEq, Eq)]
pub struct Fields {
    pub usage: Usage,
    pub content: Content,
    /// The page was used since the host looked last.
    pub referenced: bool,
    /// The page was written since the guest took the change bit last.
    pub changed: bool,
    /// Somebody holds the page.
    pub busy: bool,
    /// How often the page's contents were given up.
    pub count: u32,
}

impl Fields {
    /// Whether a state word may have these fields.
    pub fn is_permitted(self) -> bool
        ensures { result ≡ is_permitted self }
    {
        let placed = !(self.usage == Usage::U && self.content == Content::Preserved);
        let referenced = self.content == Content::Resident || !self.referenced;
        let changed = !(self.content == Content::Zero && self.changed);
        placed && referenced && changed
    }

    /// Whether the contents are lost and the guest doesn't know it yet.
    pub fn is_discarded(self) -> bool
        ensures { result ≡ is_discarded self }
    {
        self.content == Content::Zero && (self.usage == Usage::V || self.usage == Usage::P)
    }
}
