// A guest's pages on the host, as the guest reaches them.
ghost use Rattle.std.specs.Prelude.{◌≡◌};
ghost use Rattle.cmm_storage.specs.StorageView.{Follows};
ghost use Rattle.host_plain.specs.HostState.{HostStep, Leaves, host_view};
ghost use Rattle.host_plain.specs.Served.{host_of};
ghost use Rattle.cmm_storage.specs.Views.{page_called};

use crate::host::Host;
use cmm_storage::{Busy, Storage, Trap};
use essa_state::{Old, Order};

/// The pages of the guest that the host serves. It is quiet: no page is ever busy, and a frame is always found.
#[derive(Drop)]
pub struct HostView<'a> {
    pub(crate) host: &'a mut Host,
}

impl<'a> Storage for HostView<'a> {
    ghost view = { λ v. host_view (host_of v) };

    ghost step = { λ v call w. HostStep (host_of v) call (host_of w) × Follows (host_view (host_of v)) call (host_view (host_of w)) × Leaves (host_of v) (page_called call) (host_of w) × (w.host.ghost_name ≡ v.host.ghost_name) };

    ghost meets = { λ v call w s. s.1 };

    fn faults(&self) -> u64 {
        self.host.faults()
    }

    fn pages(&self) -> u32 {
        self.host.pages()
    }

    fn take(&mut self, page: u32) -> Result<(), Busy> {
        self.host.take(page);
        Ok(())
    }

    fn touch(&mut self, page: u32) -> Result<(), Trap> {
        self.host.touch(page)
    }

    fn order(&mut self, page: u32, code: Order) -> Old {
        self.host.order(page, code)
    }

    fn take_change(&mut self, page: u32) -> bool {
        self.host.take_change(page)
    }

    fn fetch(&mut self, page: u32, off: usize, into: &mut [u8]) {
        self.host.fetch(page, off, into);
    }

    fn store(&mut self, page: u32, off: usize, from: &[u8]) {
        self.host.store(page, off, from);
    }

    fn put(&mut self, page: u32) {
        self.host.put(page);
    }
}
