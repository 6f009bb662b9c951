ghost use Rattle.std.specs.Prelude.{◌≡◌, ◌≤◌, ◌↔◌, [], length, IsTrue, IsSome, IfSome};

use arrayvec::ArrayVec;
use std::marker::Model;

/// The most bytes that one command reads or writes.
pub const MAX_BYTES: usize = 64;

/// 0 to 64 bytes, kept in the value itself. Contracts see the list of the bytes.
#[derive(Debug, PartialEq, Eq, Drop)]
pub struct Bytes64 {
    bytes: ArrayVec<u8, MAX_BYTES>,
}

impl Model for Bytes64 {
    ghost use Rattle.std.specs.Prelude.{List, ℕ, ◌≤◌, length};
    ghost use Rattle.cmm_types.specs.declared.bytes.TheConstants.{MAX_BYTES};

    ghost Value = { List ℕ };

    ghost view = { λ b. b.bytes.items };

    ghost invariant = { λ b. length b.bytes.items ≤ MAX_BYTES };

    ghost inverse = { λ bytes. record { bytes = record { items = bytes } } };
}

impl Bytes64 {
    /// These bytes; `None` where there are more than 64.
    pub fn from_slice(bytes: &[u8]) -> Option<Bytes64>
        ensures fits { IsSome result ↔ (length bytes.now ≤ MAX_BYTES) }
        ensures same { IfSome result (λ copy. copy ≡ bytes.now) }
    {
        let mut copy = ArrayVec::new();
        match copy.try_extend_from_slice(bytes) {
            Ok(()) => Some(Bytes64 { bytes: copy }),
            Err(_) => None,
        }
    }

    pub fn as_slice(&self) -> &[u8]
        ensures same { result.now ≡ self.now }
        ensures short { length result.now ≤ MAX_BYTES }
    {
        self.bytes.as_slice()
    }

    pub fn len(&self) -> usize
        ensures { result ≡ length self.now }
    {
        self.bytes.len()
    }

    pub fn is_empty(&self) -> bool
        ensures { IsTrue result ↔ (self.now ≡ []) }
    {
        self.bytes.is_empty()
    }

    /// The same bytes again. It takes no memory.
    pub fn copy(&self) -> Bytes64
        ensures { result ≡ self.now }
    {
        let mut copy = ArrayVec::new();
        let _ = copy.try_extend_from_slice(self.bytes.as_slice());
        Bytes64 { bytes: copy }
    }
}
