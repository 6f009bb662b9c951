ghost use Rattle.std.specs.Prelude.{◌≡◌, ◌+◌, ◌≤◌, ◌<◌, length, true, false, None, Some};
ghost use Rattle.cmm_types.specs.declared.page.TheConstants.{PAGE};
ghost use Rattle.essa_state.specs.StateWord.{is_unused};
ghost use Rattle.cmm_storage.specs.StorageCall.{StorageCall, Take, Touch, Give, TakeChange, Fetch, Store, Put};
ghost use Rattle.cmm_storage.specs.StorageView.{StorageView, Follows, can_store};

use essa_state::{Old, Order};

/// The page is held by somebody else. `word` is the state word that was found, with its busy bit.
#[derive(Clone, Copy, Debug, PartialEq, Eq)]
pub struct Busy {
    pub word: u64,
}

/// Why a held page isn't resident after a touch. It wasn't before either.
#[derive(Clone, Copy, Debug, PartialEq, Eq)]
pub enum Trap {
    /// The contents were discarded.
    Discarded,
    /// A call of the pager failed.
    Paging,
    /// No frame was free, and `looks` looks at other pages freed none.
    NoFrame { looks: u64 },
}

/// The pages of one guest, as the guest reaches them. It holds at most one page at a time.
///
/// While a page is held, its value and where its contents are change by the calls below alone, each as `Follows`
/// says. While it isn't held, the host may discard its contents where the page's usage allows it, and an unused page's
/// contents may become others. `view` is what contracts see: among it what every page is for the guest now, held or
/// not, and where the contents of the held page are. `step` is the implementation's own relation between the storage
/// before a call, the call with its answer, and the storage after it; every call gives it, and it gives what `Follows`
/// says of every storage.
pub trait Storage {
    ghost view: { Self → StorageView };

    ghost step: { Self → StorageCall → Self → Type 0 };

    /// How many calls of the pager failed. The count stands still at its type's end.
    fn faults(&self) -> u64
        ensures { result ≡ (view self.now).faults };

    /// How many pages there are, which never changes.
    fn pages(&self) -> u32
        ensures { result ≡ (view self.now).pages };

    /// Holds a page, which has no contents exactly where its value says so. `Busy` comes only where somebody else
    /// holds it; nothing is held then.
    fn take(&mut self, page: u32) -> Result<(), Busy>
        requires page { page < (view self.old).pages }
        requires none_held { (view self.old).held ≡ None }
        ensures step { step self.old (Take page result) self.new }
        ensures follows { Follows (view self.old) (Take page result) (view self.new) };

    /// Makes the held page resident; a page without contents reads as zeros then. After a trap the page is as it
    /// was, where it was, and still held. `Discarded` comes exactly where the contents were discarded. `Paging` and
    /// `NoFrame` come only where the page isn't resident: the one only where `faults` rose, the other only where this
    /// call missed, as a quiet storage never does. So a touch of a resident page succeeds, and over a quiet storage it
    /// changes no other page. Any other touch may need the frame of one, which then loses its contents where its usage
    /// allows it.
    fn touch(&mut self, page: u32) -> Result<(), Trap>
        requires held { (view self.old).held ≡ Some page }
        requires used { is_unused ((view self.old).values page).usage ≡ false }
        ensures step { step self.old (Touch page result) self.new }
        ensures follows { Follows (view self.old) (Touch page result) (view self.new) };

    /// Gives an order on the held page, and answers its usage and where its contents were before it. An order that
    /// makes a preserved page unused leaves it without contents; no other order moves them.
    fn order(&mut self, page: u32, code: Order) -> Old
        requires held { (view self.old).held ≡ Some page }
        ensures step { step self.old (Give page code result) self.new }
        ensures follows { Follows (view self.old) (Give page code result) (view self.new) };

    /// Answers the held page's change bit, and clears it. The contents stay where they are.
    fn take_change(&mut self, page: u32) -> bool
        requires held { (view self.old).held ≡ Some page }
        ensures step { step self.old (TakeChange page result) self.new }
        ensures follows { Follows (view self.old) (TakeChange page result) (view self.new) };

    /// Reads bytes of the held page, from `off` on.
    fn fetch(&mut self, page: u32, off: usize, into: &mut [u8])
        requires held { (view self.old).held ≡ Some page }
        requires touched { (view self.old).touched ≡ true }
        requires within { off + length into.old ≤ PAGE }
        ensures step { step self.old (Fetch page off into.new) self.new }
        ensures follows { Follows (view self.old) (Fetch page off into.new) (view self.new) };

    /// Writes bytes of the held page, from `off` on, and sets its change bit.
    fn store(&mut self, page: u32, off: usize, from: &[u8])
        requires held { (view self.old).held ≡ Some page }
        requires touched { (view self.old).touched ≡ true }
        requires writable { can_store ((view self.old).values page).usage ≡ true }
        requires within { off + length from.now ≤ PAGE }
        ensures step { step self.old (Store page off from.now) self.new }
        ensures follows { Follows (view self.old) (Store page off from.now) (view self.new) };

    /// Gives the held page back.
    fn put(&mut self, page: u32)
        requires held { (view self.old).held ≡ Some page }
        ensures step { step self.old (Put page) self.new }
        ensures follows { Follows (view self.old) (Put page) (view self.new) };

    ghost meets: { (s : Self) (call : StorageCall) (t : Self) → step s call t → Follows (view s) call (view t) };
}
