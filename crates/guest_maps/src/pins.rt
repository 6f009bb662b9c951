ghost use Rattle.std.specs.Prelude.{◌≡◌, ◌<◌, ◌≤◌, length, false, IfOk, slice_index_or, slice_range, slice_set, replicate};
ghost use Rattle.std.specs.List.{list_any};

use std::alloc::{AllocError, Global};
use std::marker::Model;

/// Which places are pinned.
#[derive(Drop)]
pub struct Pins {
    pinned: Vec<bool>,
}

impl Model for Pins {
    ghost use Rattle.std.specs.Prelude.{List, Bool};

    ghost Value = { List Bool };

    ghost view = { λ p. p.pinned.items };
}

impl Pins {
    /// So many places, none pinned.
    pub fn open(alloc: Global, places: u32) -> Result<Pins, AllocError>
        ensures { IfOk result (λ pins. pins ≡ replicate places false) }
    {
        Ok(Pins {
            pinned: vec![in alloc; false; places as usize]?,
        })
    }

    pub fn at(&self, place: u32) -> bool
        requires { place < length self.now }
        ensures { result ≡ slice_index_or self.now place false }
    {
        self.pinned[place as usize]
    }

    pub fn set(&mut self, place: u32, pinned: bool)
        requires { place < length self.old }
        ensures { self.new ≡ slice_set self.old place pinned }
    {
        self.pinned[place as usize] = pinned;
    }

    /// A place from `first` on and before `end` is pinned.
    pub fn any(&self, first: u32, end: u32) -> bool
        requires order { first ≤ end }
        requires within { end ≤ length self.now }
        ensures { result ≡ list_any (λ pinned. pinned) (slice_range self.now first end) }
    {
        self.pinned[first as usize..end as usize]
            .iter()
            .any(|pinned| *pinned)
    }
}
