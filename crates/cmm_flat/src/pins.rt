ghost use Rattle.std.specs.Prelude.{◌≡◌, ◌<◌, length, replicate, false, IfOk, slice_index_or, slice_set};
ghost use Rattle.std.specs.List.{list_any, count_by};

use crate::NoMemory;
use std::alloc::Global;
use std::marker::Model;

/// Which pages of a mapping are pinned.
#[derive(Debug, Drop)]
pub struct Pins {
    pinned: Vec<bool>,
}

impl Model for Pins {
    ghost use Rattle.std.specs.Prelude.{List, Bool};

    ghost Value = { List Bool };

    ghost view = { λ p. p.pinned.items };
}

impl Pins {
    /// Of `count` pages, none pinned.
    pub fn none(alloc: Global, count: usize) -> Result<Pins, NoMemory>
        ensures { IfOk result (λ pins. pins ≡ replicate count false) }
    {
        let pinned = vec![in alloc; false; count]?;
        Ok(Pins { pinned })
    }

    /// How many pages there are.
    pub fn len(&self) -> usize
        ensures { result ≡ length self.now }
    {
        self.pinned.len()
    }

    /// Whether a page is pinned.
    pub fn at(&self, page: usize) -> bool
        requires { page < length self.now }
        ensures { result ≡ slice_index_or self.now page false }
    {
        self.pinned[page]
    }

    /// Whether some page is pinned.
    pub fn any(&self) -> bool
        ensures { result ≡ list_any (λ pin. pin) self.now }
    {
        self.pinned.iter().any(|pin| *pin)
    }

    /// How many pages are pinned.
    pub fn count(&self) -> usize
        ensures { result ≡ count_by (λ pin. pin) self.now }
    {
        self.pinned.iter().filter(|pin| **pin).count()
    }

    pub fn set(&mut self, page: usize, pin: bool)
        requires { page < length self.old }
        ensures { self.new ≡ slice_set self.old page pin }
    {
        self.pinned[page] = pin;
    }
}
