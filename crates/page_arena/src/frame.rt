ghost use Rattle.std.specs.Prelude.{◌≡◌, ◌<◌, length};
ghost use Rattle.std.specs.Borrow.{sem};
ghost use Rattle.cmm_types.specs.declared.page.TheConstants.{PAGE};

use crate::mark::{Mark, RegionMark};
use page_pieces::Piece;
use std::marker::Model;
use std::mem;

/// A page frame: `PAGE` bytes under a number of its own in its region, which is below `count`, the number of the
/// region's frames.
#[derive(Drop)]
pub struct Frame {
    number: u32,
    count: u32,
    bytes: Piece,
    mark: Mark,
}

impl Model for Frame {
    ghost use Rattle.std.specs.Prelude.{◌≡◌, ◌<◌, length};
    ghost use Rattle.cmm_types.specs.declared.page.TheConstants.{PAGE};
    ghost use Rattle.page_arena.specs.FrameView.{FrameView};

    ghost Value = { FrameView };

    ghost view = { λ f. record { region = record { name = f.mark; count = f.count }; number = f.number; bytes = f.bytes } };

    ghost invariant = { λ f. (f.number < f.count) × (length f.bytes ≡ PAGE) };
}

impl Frame {
    ghost use Rattle.page_arena.specs.Lending.{LendsBytes};

    /// Frame `number` of the region of this mark with `count` frames, holding the piece's bytes.
    pub(crate) fn of(bytes: Piece, mark: Mark, count: u32, number: u32) -> Frame
        requires within { number < count }
        requires whole { length bytes ≡ PAGE }
        ensures { result ≡ record { region = record { name = mark; count = count }; number = number; bytes = bytes } }
    {
        Frame {
            number,
            count,
            bytes,
            mark,
        }
    }

    pub fn number(&self) -> u32
        ensures number { result ≡ self.now.number }
        ensures within { result < self.now.region.count }
    {
        self.number
    }

    /// Which region it is of.
    pub fn region(&self) -> RegionMark
        ensures { result ≡ self.now.region }
    {
        RegionMark {
            mark: self.mark.again(),
            count: self.count,
        }
    }

    pub fn bytes(&self) -> &[u8]
        ensures bytes { result.now ≡ self.now.bytes }
        ensures whole { length result.now ≡ PAGE }
    {
        self.bytes.bytes()
    }

    /// The bytes, to be written. No other frame changes with them.
    pub fn bytes_mut(&mut self) -> &mut [u8]
        ensures* writes { sem 𝓛 (LendsBytes self.entry result) }
        ensures bytes { result.now ≡ self.old.bytes }
        ensures whole { length result.now ≡ PAGE }
    {
        self.bytes.bytes_mut()
    }

    /// Spends the frame, and keeps its memory for good: its region has no such frame again, and can't be closed.
    pub fn lose(self) {
        mem::forget(self);
    }
}
