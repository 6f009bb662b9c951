ghost use Rattle.std.specs.Prelude.{◌≡◌, ◌≤◌, ◌+◌, ◌-◌, ◌++◌, length, IfOk};
ghost use Rattle.cmm_types.specs.declared.bytes.TheConstants.{MAX_BYTES};
ghost use Rattle.cmm_types.specs.Bytes.{bytes_at, with_bytes, zeros};

use crate::NoMemory;
use cmm_types::Bytes64;
use std::alloc::Global;
use std::marker::Model;

/// The bytes of a file, or of an anonymous mapping.
#[derive(Debug, Drop)]
pub struct Contents {
    bytes: Vec<u8>,
}

impl Model for Contents {
    ghost use Rattle.std.specs.Prelude.{List, ℕ};

    ghost Value = { List ℕ };

    ghost view = { λ c. c.bytes.items };
}

impl Contents {
    /// `head`, followed by zeros up to `len` bytes.
    #[tactic(auto, unfolding(cmm_types::specs::Bytes::zeros))]
    pub fn new(alloc: Global, head: &[u8], len: usize) -> Result<Contents, NoMemory>
        requires { length head.now ≤ len }
        ensures { IfOk result (λ contents. contents ≡ head.now ++ zeros (len - length head.now)) }
    {
        let mut bytes = Vec::from_slice(alloc, head)?;
        let rest = vec![in alloc; 0; len - head.len()]?;
        bytes.extend_from_slice(&rest)?;
        Ok(Contents { bytes })
    }

    #[tactic(auto, unfolding(cmm_types::specs::Bytes::zeros))]
    pub fn zeros(alloc: Global, len: usize) -> Result<Contents, NoMemory>
        ensures { IfOk result (λ contents. contents ≡ zeros len) }
    {
        let bytes = vec![in alloc; 0; len]?;
        Ok(Contents { bytes })
    }

    pub fn len(&self) -> usize
        ensures { result ≡ length self.now }
    {
        self.bytes.len()
    }

    /// The `len` bytes from `off` on.
    pub fn bytes_at(&self, off: usize, len: usize) -> Bytes64
        requires within { off + len ≤ length self.now }
        requires few { len ≤ MAX_BYTES }
        ensures { result ≡ bytes_at self.now off len }
    {
        Bytes64::from_slice(&self.bytes[off..off + len]).unwrap()
    }

    /// Puts `bytes` in the place of those from `off` on.
    pub fn write(&mut self, off: usize, bytes: &[u8])
        requires { off + length bytes.now ≤ length self.old }
        ensures { self.new ≡ with_bytes self.old off bytes.now }
    {
        self.bytes[off..off + bytes.len()].copy_from_slice(bytes);
    }
}
