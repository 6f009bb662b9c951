ghost use Rattle.std.specs.Prelude.{◌≡◌, ◌<◌, length};
ghost use Rattle.cmm_types.specs.declared.page.TheConstants.{PAGE};
ghost use Rattle.cmm_io.specs.DiskCall.{DiskCall, Read, Write};
ghost use Rattle.cmm_io.specs.DiskView.{DiskView, DiskFollows, AreBlocks};

use crate::failed::Failed;

/// A list of blocks of `PAGE` bytes each. `view` is what contracts see of it. `step` is the implementation's own
/// relation between the disk before a call, the call with its answer, and the disk after it; every call gives it,
/// and it gives what `DiskFollows` says of every disk.
pub trait Disk {
    ghost view: { Self → DiskView };

    ghost step: { Self → DiskCall → Self → Type 0 };

    /// How many calls failed. The count stands still at its type's end.
    fn faults(&self) -> u64
        ensures { result ≡ (view self.now).faults };

    /// How many blocks there are, which never changes.
    fn blocks(&self) -> u32
        ensures count { result ≡ (view self.now).count }
        ensures whole { AreBlocks (view self.now).count (view self.now).blocks };

    /// Reads a block. After `Failed` the buffer may hold any bytes.
    fn read(&mut self, block: u32, into: &mut [u8]) -> Result<(), Failed>
        requires block { block < (view self.old).count }
        requires whole { length into.old ≡ PAGE }
        ensures step { step self.old (Read block result into.new) self.new }
        ensures follows { DiskFollows (view self.old) (Read block result into.new) (view self.new) };

    /// Writes a block. `Failed` has written nothing.
    fn write(&mut self, block: u32, from: &[u8]) -> Result<(), Failed>
        requires block { block < (view self.old).count }
        requires whole { length from.now ≡ PAGE }
        ensures step { step self.old (Write block from.now result) self.new }
        ensures follows { DiskFollows (view self.old) (Write block from.now result) (view self.new) };

    ghost meets: { (d : Self) (call : DiskCall) (e : Self) → step d call e → DiskFollows (view d) call (view e) };
}
