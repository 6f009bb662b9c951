//! A set of places, in which the next one from a place on is found without a look at each place.
#![tactic(auto)]

ghost use Rattle.std.specs.Prelude.{◌≡◌, ◌+◌, ◌-◌, ◌*◌, ◌/◌, ◌^◌, ◌<◌, ◌≤◌, ℕ, length, replicate, true, false, ◌↔◌, IsTrue, IfOk, IfSome, IfNone, if◌then◌else◌, slice_index_or, slice_set};
ghost use Rattle.marks.specs.Marking.{is_marked, NoneMarked, first_marked, recounted};

use std::alloc::{AllocError, Global};
use std::marker::Model;

#[cfg(test)]
mod tests;

const BLOCK: usize = 32;

const GROUP: usize = 1024;

/// Which of a list's places are marked. Contracts see it as a list of `bool`s.
#[derive(Drop)]
pub struct Marks {
    marks: Vec<bool>,
    // How many places of each block of `BLOCK`, and of each group of `GROUP`, are marked.
    blocks: Vec<u32>,
    groups: Vec<u32>,
}

impl Model for Marks {
    ghost use Rattle.std.specs.Prelude.{◌≤◌, ◌^◌, List, Bool, length};
    ghost use Rattle.marks.specs.declared.TheConstants.{BLOCK, GROUP};
    ghost use Rattle.marks.specs.Marking.{AreCounts};

    ghost Value = { List Bool };

    ghost view = { λ m. m.marks.items };

    ghost invariant = { λ m. AreCounts BLOCK m.marks.items m.blocks.items × AreCounts GROUP m.marks.items m.groups.items × (length m.marks.items ≤ 2 ^ 32) };
}

// The count of one more, or of one fewer.
fn recounted(count: u32, more: bool) -> u32
    requires { count ≤ 1024 }
    ensures { result ≡ recounted count more }
{
    if more {
        count + 1
    } else {
        count.saturating_sub(1)
    }
}

impl Marks {
    /// So many places, none of them marked.
    pub fn open(alloc: Global, places: usize) -> Result<Marks, AllocError>
        requires { places ≤ 2 ^ 32 }
        ensures { IfOk result (λ marks. marks ≡ replicate places false) }
    {
        Ok(Marks {
            marks: vec![in alloc; false; places]?,
            blocks: vec![in alloc; 0; places / BLOCK + 1]?,
            groups: vec![in alloc; 0; places / GROUP + 1]?,
        })
    }

    /// Marks the place, or takes its mark away.
    pub fn set(&mut self, place: usize, mark: bool)
        requires { place < length self.old }
        ensures { self.new ≡ slice_set self.old place mark }
    {
        if self.marks[place] == mark {
            return;
        }
        self.marks[place] = mark;
        let block = place / BLOCK;
        self.blocks[block] = recounted(self.blocks[block], mark);
        let group = place / GROUP;
        self.groups[group] = recounted(self.groups[group], mark);
    }

    // How many places from this one on are seen at once to have no mark: none exactly where it is marked itself.
    fn gap(&self, place: usize) -> usize
        requires { place < length self.now }
        ensures none { NoneMarked self.now place (place + result) }
        ensures marked { result ≡ 0 → is_marked self.now place ≡ true }
        ensures most { place + result ≤ 2 ^ 32 }
    {
        if place % GROUP == 0 && self.groups[place / GROUP] == 0 {
            return GROUP;
        }
        if place % BLOCK == 0 && self.blocks[place / BLOCK] == 0 {
            return BLOCK;
        }
        if self.marks[place] { 0 } else { 1 }
    }

    /// How many places there are, marked or not.
    pub fn len(&self) -> usize
        ensures { result ≡ length self.now }
    {
        self.marks.len()
    }

    pub fn is_empty(&self) -> bool
        ensures { IsTrue result ↔ (length self.now ≡ 0) }
    {
        self.marks.is_empty()
    }

    /// The first marked place in cyclic order from the hand.
    pub fn first(&self, hand: usize) -> Option<usize>
        requires { hand < length self.now }
        ensures first { result ≡ first_marked self.now hand }
        ensures within { IfSome result (λ place. place < length self.now) }
    {
        let count = self.len();
        match self.next(hand, count) {
            Some(place) => Some(place),
            None => self.next(0, hand),
        }
    }

    /// The first marked place from `from` on, below `to`.
    pub fn next(&self, from: usize, to: usize) -> Option<usize>
        requires { to ≤ length self.now }
        ensures none { IfNone result (NoneMarked self.now from to) }
        ensures within { IfSome result (λ place. (from ≤ place) × (place < to)) }
        ensures marked { IfSome result (λ place. is_marked self.now place ≡ true) }
        ensures first { IfSome result (λ place. NoneMarked self.now from place) }
    {
        let mut place = from;
        while place < to {
            let gap = self.gap(place);
            if gap == 0 {
                return Some(place);
            }
            place += gap;
        }
        None
    }
}
