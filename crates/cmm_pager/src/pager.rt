ghost use Rattle.std.specs.Prelude.{◌≡◌, ℕ, List, Option, length};
ghost use Rattle.cmm_types.specs.declared.page.TheConstants.{PAGE};
ghost use Rattle.cmm_pager.specs.PagerCall.{PagerCall, Put, Get};
ghost use Rattle.cmm_pager.specs.PagerFollows.{PagerFollows};

use cmm_io::Failed;

/// A place for the `PAGE` bytes of one page. `tells` is the bytes that it keeps, where it tells them: the block's
/// own, the same under every pager.
pub trait PagingBlock {
    ghost tells: { Self → Option (List ℕ) };
}

/// What puts the bytes of pages into blocks, and gets them back. `step` is the implementation's own relation
/// between the pager before a call, the call with its answer, and the pager after it; every call gives it, and it
/// gives what `PagerFollows` says of every pager.
pub trait Pager {
    type Block: PagingBlock;

    ghost faults: { Self → ℕ };

    ghost step: { Self → PagerCall Self.Block → Self → Type 0 };

    /// How many calls failed. The count stands still at its type's end.
    fn faults(&self) -> u64
        ensures { result ≡ faults self.now };

    /// Puts a page's bytes into the block. After `Failed` the block may hold any bytes.
    fn put(&mut self, block: &mut Self::Block, bytes: &[u8]) -> Result<(), Failed>
        requires whole { length bytes.now ≡ PAGE }
        ensures step { step self.old (Put block.old bytes.now result block.new) self.new }
        ensures follows { PagerFollows Self.Block.tells (faults self.old) (Put block.old bytes.now result block.new) (faults self.new) };

    /// Gets the block's bytes. After `Failed` the buffer may hold any bytes.
    fn get(&mut self, block: &Self::Block, into: &mut [u8]) -> Result<(), Failed>
        requires whole { length into.old ≡ PAGE }
        ensures step { step self.old (Get block.now result into.new) self.new }
        ensures follows { PagerFollows Self.Block.tells (faults self.old) (Get block.now result into.new) (faults self.new) };

    ghost meets: { (p : Self) (call : PagerCall Self.Block) (q : Self) → step p call q → PagerFollows Self.Block.tells (faults p) call (faults q) };
}
