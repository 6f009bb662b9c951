//! A list of a fixed length that reserves its memory at once, and touches it only as places are set.
#![tactic(auto)]

ghost use Rattle.std.specs.Prelude.{◌≡◌, ◌-◌, ◌<◌, ◌≤◌, ◌++◌, ◌∷◌, [], length, vec_len, vec_capacity, replicate, IfOk, slice_index_or, slice_set};

use std::alloc::{AllocError, Global};
use std::marker::Model;

#[cfg(test)]
mod tests;

/// A list that begins with one value at every place. Its memory is reserved when it is opened, and no call after that
/// takes any; the places behind the last one that was set stay untouched. Contracts see it as the list.
#[derive(Drop)]
pub struct LazyList<T> {
    /// The places up to the last one that was set.
    written: Vec<T>,
    len: usize,
    blank: T,
}

impl<T> Model for LazyList<T> {
    ghost use Rattle.std.specs.Prelude.{◌≤◌, ◌-◌, ◌++◌, List, length, replicate, vec_capacity};

    ghost Value = { List T };

    ghost view = { λ l. l.written.items ++ replicate (l.len - length l.written.items) l.blank };

    ghost invariant = { λ l. (length l.written.items ≤ l.len) × (l.len ≤ vec_capacity l.written) };
}

impl<T: Copy> LazyList<T> {
    /// So many places with this value.
    pub fn open(alloc: Global, len: usize, blank: T) -> Result<LazyList<T>, AllocError>
        ensures { IfOk result (λ list. list ≡ replicate len blank) }
    {
        let written = Vec::with_capacity(alloc, len)?;
        Ok(LazyList {
            written,
            len,
            blank,
        })
    }

    pub fn len(&self) -> usize
        ensures { result ≡ length self.now }
    {
        self.len
    }

    pub fn at(&self, place: usize) -> T
        requires { place < length self.now }
        ensures { result ≡ slice_index_or self.now place result }
    {
        if place < self.written.len() {
            return self.written[place];
        }
        self.blank
    }

    pub fn set(&mut self, place: usize, value: T)
        requires { place < length self.old }
        ensures { self.new ≡ slice_set self.old place value }
    {
        if place < self.written.len() {
            self.written[place] = value;
        } else {
            put_behind(&mut self.written, place, self.blank, value);
        }
    }
}

/// Puts a value at a place behind a list's elements, and `blank` at the places between.
fn put_behind<T: Copy>(list: &mut Vec<T>, place: usize, blank: T, value: T)
    requires behind { vec_len list.old ≤ place }
    requires room { place < vec_capacity list.old }
    ensures items { list.new.items ≡ (list.old.items ++ replicate (place - length list.old.items) blank) ++ value ∷ [] }
    ensures capacity { vec_capacity list.old ≤ vec_capacity list.new }
{
    match list.resize(place, blank) {
        Ok(()) => list.push_reserved(value),
        Err(_) => unreachable!(),
    }
}
