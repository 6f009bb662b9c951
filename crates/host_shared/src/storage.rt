// A guest's storage over shared words, apart from the tables that it is bound to in a turn.
ghost use Rattle.std.specs.Prelude.{◌≡◌, ◌<◌, ◌≤◌, ◌+◌, length, true, false, None, Some, is_some, slice_get};
ghost use Rattle.cmm_types.specs.declared.page.TheConstants.{PAGE};
ghost use Rattle.cmm_storage.specs.StorageCall.{Take, Touch, Give, TakeChange, Fetch, Store, Put};
ghost use Rattle.cmm_storage.specs.StorageView.{can_store};
ghost use Rattle.essa_state.specs.StateWord.{is_unused};
ghost use Rattle.state_words.specs.SeatView.{IsGuestSeat};
ghost use Rattle.state_words.specs.Steps.{looked_view};
ghost use Rattle.host_shared.specs.Binding.{IsBoundTo, BoundStep, storage_view, held_page, raised_at};
ghost use Rattle.host_shared.specs.Served.{storage_of, bound_words, bound_pool};

use crate::body::PageBody;
use crate::bound::Bound;
use crate::held::HeldPage;
use crate::search::{Spot, Supply};
use cmm_pager::{MemPager, Pager};
use cmm_storage::{Busy, Trap};
use essa_state::{Old, Order, Word};
use frame_pool::{Pool, PoolSeat};
use state_words::{GuestSeat, HostSeat, Words};
use std::marker::Model;

/// A guest's pages between two turns: the guest's seat, a seat of the host at each guest's words, a seat at the pool,
/// and the guest's pager. In a turn it is bound to the words and to the pool.
#[derive(Drop)]
pub struct WordStorage {
    guest: u32,
    seat: GuestSeat<PageBody>,
    hosts: Vec<HostSeat<PageBody>>,
    supply: Supply,
    held: Option<HeldPage>,
    no_frames: u64,
}

impl Model for WordStorage {
    ghost use Rattle.host_shared.specs.Binding.{StorageState, IsStorage};

    ghost Value = { StorageState };

    ghost view = { λ s. record { guest = s.guest; seat = s.seat; hosts = s.hosts.items; pool = s.supply.seat; pager = s.supply.pager; held = s.held; no_frames = s.no_frames } };

    ghost invariant = { λ s. IsStorage (record { guest = s.guest; seat = s.seat; hosts = s.hosts.items; pool = s.supply.seat; pager = s.supply.pager; held = s.held; no_frames = s.no_frames }) };
}

// A guest's own words.
fn own(words: &[Words<PageBody>], guest: u32) -> &Words<PageBody>
    requires { is_some (slice_get words.now guest) ≡ true }
    ensures { slice_get words.now guest ≡ Some result.now }
{
    &words[guest as usize]
}

// The next count of touches that found no frame, after this answer.
fn counted(count: u64, answer: &Result<(), Trap>) -> u64
    ensures { result ≡ raised_at answer.now count }
{
    match answer {
        Ok(()) => count,
        Err(Trap::Discarded) => count,
        Err(Trap::Paging) => count,
        Err(Trap::NoFrame { looks: _ }) => count.saturating_add(1),
    }
}

impl WordStorage {
    /// A storage of this guest. No seat holds a page.
    pub fn open(
        guest: u32,
        guest_seat: GuestSeat<PageBody>,
        host_seats: Vec<HostSeat<PageBody>>,
        pool_seat: PoolSeat,
        pager: MemPager,
    ) -> WordStorage
        requires seat { IsGuestSeat guest_seat }
        requires none_held { guest_seat.view.held ≡ None }
        ensures { result ≡ record { guest = guest; seat = guest_seat; hosts = host_seats.items; pool = pool_seat; pager = pager; held = None; no_frames = 0 } }
    {
        WordStorage {
            guest,
            seat: guest_seat,
            hosts: host_seats,
            supply: Supply {
                seat: pool_seat,
                pager,
                hand: Spot { guest: 0, page: 0 },
            },
            held: None,
            no_frames: 0,
        }
    }

    /// What `open` took, as the calls have left it. No page is held.
    pub fn parts(
        self,
    ) -> (
        GuestSeat<PageBody>,
        Vec<HostSeat<PageBody>>,
        PoolSeat,
        MemPager,
    )
        requires { self.held ≡ None }
        ensures seat { result.0 ≡ self.seat }
        ensures hosts { result.1.items ≡ self.hosts }
        ensures pool { result.2 ≡ self.pool }
        ensures pager { result.3 ≡ self.pager }
        ensures guest { IsGuestSeat result.0 }
        ensures none_held { result.0.view.held ≡ None }
    {
        let WordStorage {
            guest: _,
            seat,
            hosts,
            supply,
            held,
            no_frames: _,
        } = self;
        drop(held);
        let Supply {
            seat: pool_seat,
            pager,
            hand: _,
        } = supply;
        (seat, hosts, pool_seat, pager)
    }

    /// The storage in a turn, with the words of all guests and the pool.
    pub fn bind<'a>(&'a mut self, words: &'a [Words<PageBody>], pool: &'a Pool) -> Bound<'a>
        requires { IsBoundTo words.now pool.now self.old }
        ensures same { result.storage.ghost_name ≡ self.entry.ghost_name }
        ensures storage { storage_of result ≡ self.old }
        ensures words { bound_words result ≡ words.now }
        ensures pool { bound_pool result ≡ pool.now }
    {
        Bound {
            storage: self,
            words,
            pool,
        }
    }

    pub(crate) fn faults(&self) -> u64
        ensures { result ≡ self.now.pager.faults }
    {
        self.supply.pager.faults()
    }

    pub(crate) fn pages(&self, words: &[Words<PageBody>], pool: &Pool) -> u32
        requires { IsBoundTo words.now pool.now self.now }
        ensures { result ≡ self.now.seat.words.pages }
    {
        let _ = pool;
        own(words, self.guest).pages()
    }

    pub(crate) fn take(
        &mut self,
        words: &[Words<PageBody>],
        pool: &Pool,
        page: u32,
    ) -> Result<(), Busy>
        requires bound { IsBoundTo words.now pool.now self.old }
        requires page { page < self.old.seat.words.pages }
        requires none_held { self.old.held ≡ None }
        ensures bound { IsBoundTo words.now pool.now self.new }
        ensures step { BoundStep self.old (Take page result) self.new }
    {
        match self.seat.claim(own(words, self.guest), page) {
            Err(busy) => Err(busy),
            Ok(found) => {
                self.held = Some(HeldPage::new(page, found));
                Ok(())
            }
        }
    }

    pub(crate) fn touch(
        &mut self,
        words: &[Words<PageBody>],
        pool: &Pool,
        page: u32,
    ) -> Result<(), Trap>
        requires bound { IsBoundTo words.now pool.now self.old }
        requires held { held_page self.old.held ≡ Some page }
        requires used { is_unused ((storage_view self.old).values page).usage ≡ false }
        ensures bound { IsBoundTo words.now pool.now self.new }
        ensures step { BoundStep self.old (Touch page result) self.new }
    {
        let spot = Spot {
            guest: self.guest as usize,
            page,
        };
        match self.held.take() {
            None => unreachable!(),
            Some(mut held) => {
                let answer = self
                    .supply
                    .touch(&mut held, words, self.hosts.as_mut_slice(), spot, pool);
                self.held = Some(held);
                self.no_frames = counted(self.no_frames, &answer);
                answer
            }
        }
    }

    pub(crate) fn order(&mut self, page: u32, code: Order) -> Old
        requires held { held_page self.old.held ≡ Some page }
        ensures step { BoundStep self.old (Give page code result) self.new }
    {
        let _ = page;
        match self.held.take() {
            None => unreachable!(),
            Some(mut held) => {
                let old = held.order(code);
                self.held = Some(held);
                old
            }
        }
    }

    pub(crate) fn take_change(&mut self, page: u32) -> bool
        requires held { held_page self.old.held ≡ Some page }
        ensures step { BoundStep self.old (TakeChange page result) self.new }
    {
        let _ = page;
        match self.held.take() {
            None => unreachable!(),
            Some(mut held) => {
                let changed = held.take_change();
                self.held = Some(held);
                changed
            }
        }
    }

    pub(crate) fn fetch(&self, page: u32, off: usize, into: &mut [u8])
        requires held { held_page self.now.held ≡ Some page }
        requires touched { (storage_view self.now).touched ≡ true }
        requires within { off + length into.old ≤ PAGE }
        ensures step { BoundStep self.now (Fetch page off into.new) self.now }
    {
        let _ = page;
        match &self.held {
            None => unreachable!(),
            Some(held) => held.fetch(off, into),
        }
    }

    pub(crate) fn store(&mut self, page: u32, off: usize, from: &[u8])
        requires held { held_page self.old.held ≡ Some page }
        requires touched { (storage_view self.old).touched ≡ true }
        requires writable { can_store ((storage_view self.old).values page).usage ≡ true }
        requires within { off + length from.now ≤ PAGE }
        ensures step { BoundStep self.old (Store page off from.now) self.new }
    {
        let _ = page;
        let Some(mut held) = self.held.take() else {
            unreachable!()
        };
        held.store(off, from);
        self.held = Some(held);
    }

    pub(crate) fn put(&mut self, words: &[Words<PageBody>], pool: &Pool, page: u32)
        requires bound { IsBoundTo words.now pool.now self.old }
        requires held { held_page self.old.held ≡ Some page }
        ensures bound { IsBoundTo words.now pool.now self.new }
        ensures step { BoundStep self.old (Put page) self.new }
    {
        let Some(held) = self.held.take() else {
            unreachable!()
        };
        let (word, body) = held.into_parts();
        self.seat.release(own(words, self.guest), page, word, body);
    }

    pub(crate) fn look(&mut self, words: &[Words<PageBody>], pool: &Pool, page: u32) -> Word
        requires bound { IsBoundTo words.now pool.now self.old }
        requires page { page < self.old.seat.words.pages }
        requires none_held { self.old.held ≡ None }
        ensures bound { IsBoundTo words.now pool.now self.new }
        ensures looked { self.new ≡ record self.old { seat = record self.old.seat { view = looked_view self.old.seat.view page result } } }
        ensures counted { ((storage_view self.old).values page).count ≤ result.count }
    {
        self.seat.look(own(words, self.guest), page)
    }
}
