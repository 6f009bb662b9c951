// Frames for a page that is touched: of the pool, and while that is dry those of other pages.
ghost use Rattle.std.specs.Prelude.{◌≡◌, ◌<◌, ◌≤◌, ◌+◌, ◌-◌, ◌^◌, ℕ, List, [], ◌∷◌, ◌++◌, true, false, None, length, slice_index_or, IfSome, IfNone, IfErr};
ghost use Rattle.std.specs.List.{sum_by};
ghost use Rattle.cmm_io.specs.Faults.{HasRisen};
ghost use Rattle.essa_state.specs.StateWord.{is_resident, is_preserved, is_discarded};
ghost use Rattle.cmm_storage.specs.declared.storage.Trap.TheVariants.{Paging};
ghost use Rattle.host_shared.specs.Bodies.{IsOfHouse, body_house};
ghost use Rattle.host_shared.specs.Touching.{TouchMakes, TouchCause, LeavesSupply};
ghost use Rattle.state_words.specs.SeatView.{SeatView, WordsView, Seated};
ghost use Rattle.host_shared.specs.Looks.{pages_but, is_page};
ghost use Rattle.host_shared.specs.Reclaiming.{CanLook, CanReclaim, Reclaims};
ghost use Rattle.host_shared.specs.Searching.{LooksIn, round_but, held_of, Searched, FoundNone};
ghost use Rattle.host_shared.specs.Finding.{WhereFrame, WherePaging, WhereNothing, KeepsSupply};

use crate::body::PageBody;
use crate::held::HeldPage;
use crate::reclaim::{Outcome, reclaim_page};
use cmm_pager::MemPager;
use cmm_storage::Trap;
use cmm_types::Content;
use frame_pool::{Loan, Pool, PoolSeat};
use state_words::{HostSeat, Words};

/// What a storage gets frames with: its seat at the pool, and its pager.
#[derive(Drop)]
pub(crate) struct Supply {
    pub(crate) seat: PoolSeat,
    pub(crate) pager: MemPager,
    // Where the next search begins, which no clause rests on.
    pub(crate) hand: Spot,
}

/// What looks at pages come to.
#[derive(Drop)]
pub(crate) enum Found {
    Frame(Loan),
    Paging,
    Nothing { looks: u64 },
}

/// A page of a guest.
#[derive(Clone, Copy)]
pub(crate) struct Spot {
    pub(crate) guest: usize,
    pub(crate) page: u32,
}

fn is_page(skip: Option<u32>, page: u32) -> bool
    ensures { result ≡ is_page skip page }
{
    match skip {
        Some(skip) => page == skip,
        None => false,
    }
}

// The held page, if it is of this guest.
fn held_of(held: Spot, guest: usize) -> Option<u32>
    ensures { result ≡ held_of held.guest held.page guest }
{
    if guest == held.guest {
        Some(held.page)
    } else {
        None
    }
}

// Where to begin among so many pages of a guest.
fn start_in(hand: Spot, pages: u32) -> u32
    ensures { result ≤ pages }
{
    if hand.page < pages { hand.page } else { 0 }
}

// Where to begin among so many guests.
fn first_of(hand: Spot, guests: usize) -> usize
    ensures { result ≤ guests }
{
    if hand.guest < guests { hand.guest } else { 0 }
}

impl Supply {
    // A frame of the pool.
    #[tactic(auto, using(crate::proofs::Supplies::keeps_none))]
    fn take(&mut self, pool: &Pool) -> Option<Loan>
        requires pool { self.old.seat.pool ≡ pool.now }
        ensures keeps { KeepsSupply self.old self.new }
        ensures house { IfSome result (IsOfHouse pool.now.table) }
        ensures dry { IfNone result (self.new.seat.dry ≡ self.old.seat.dry + 1) }
    {
        pool.take(&mut self.seat)
    }

    // A frame of the pool after a look that freed one.
    fn take_freed(&mut self, pool: &Pool) -> Found
        requires pool { self.old.seat.pool ≡ pool.now }
        ensures keeps { KeepsSupply self.old self.new }
        ensures frame { WhereFrame result (IsOfHouse pool.now.table) }
        ensures never { WherePaging result ⊥ }
        ensures nothing { WhereNothing result (λ looks. (looks ≡ 1) × (self.new.seat.dry ≡ self.old.seat.dry + 1)) }
    {
        match self.take(pool) {
            Some(loan) => Found::Frame(loan),
            None => Found::Nothing { looks: 1 },
        }
    }

    // An urgent reclaim of a page.
    #[tactic(auto, using(crate::proofs::Supplies::keeps_reclaim))]
    fn reclaim(
        &mut self,
        words: &Words<PageBody>,
        seat: &mut HostSeat<PageBody>,
        page: u32,
        pool: &Pool,
    ) -> Outcome
        requires can { CanLook words.now pool.now seat.old self.old.seat }
        requires page { page < words.now.pages }
        ensures words { seat.new.words ≡ seat.old.words }
        ensures none_held { seat.new.view.held ≡ None }
        ensures keeps { KeepsSupply self.old self.new }
        ensures dry { self.new.seat.dry ≡ self.old.seat.dry }
        ensures outcome { Reclaims result page true seat.old.view seat.new.view self.old.pager.faults self.new.pager.faults }
    {
        reclaim_page(
            words,
            seat,
            page,
            true,
            &mut self.pager,
            pool,
            &mut self.seat,
        )
    }

    // One look at a page, and a take where it freed a frame.
    #[tactic(auto, using(crate::proofs::Founds::where_never, crate::proofs::Founds::where_once, crate::proofs::Founds::where_discarded, crate::proofs::Founds::where_preserved))]
    fn look(
        &mut self,
        words: &Words<PageBody>,
        seat: &mut HostSeat<PageBody>,
        page: u32,
        pool: &Pool,
    ) -> Found
        requires can { CanLook words.now pool.now seat.old self.old.seat }
        requires page { page < words.now.pages }
        ensures words { seat.new.words ≡ seat.old.words }
        ensures none_held { seat.new.view.held ≡ None }
        ensures keeps { KeepsSupply self.old self.new }
        ensures frame { WhereFrame result (IsOfHouse pool.now.table) }
        ensures paging { WherePaging result (HasRisen self.old.pager.faults self.new.pager.faults) }
        ensures nothing { WhereNothing result (LooksIn (page ∷ []) seat.old.view seat.new.view self.old.seat.dry self.new.seat.dry) }
        ensures one { WhereNothing result (λ looks. looks ≡ 1) }
    {
        match self.reclaim(words, seat, page, pool) {
            Outcome::Paging => Found::Paging,
            Outcome::Discarded => self.take_freed(pool),
            Outcome::Preserved => self.take_freed(pool),
            Outcome::Aged => unreachable!(),
            Outcome::Left { word: _ } => Found::Nothing { looks: 1 },
            Outcome::Busy { word: _ } => Found::Nothing { looks: 1 },
        }
    }

    // Looks at the pages from one on and below another, but for the skipped one, until there is a frame.
    #[tactic(auto, using(crate::proofs::Supplies::keeps_none, crate::proofs::Searches::between_none))]
    fn look_between(
        &mut self,
        words: &Words<PageBody>,
        seat: &mut HostSeat<PageBody>,
        from: u32,
        upto: u32,
        skip: Option<u32>,
        pool: &Pool,
    ) -> Found
        requires can { CanLook words.now pool.now seat.old self.old.seat }
        requires order { from ≤ upto }
        requires pages { upto ≤ words.now.pages }
        ensures words { seat.new.words ≡ seat.old.words }
        ensures none_held { seat.new.view.held ≡ None }
        ensures keeps { KeepsSupply self.old self.new }
        ensures frame { WhereFrame result (IsOfHouse pool.now.table) }
        ensures paging { WherePaging result (HasRisen self.old.pager.faults self.new.pager.faults) }
        ensures nothing { WhereNothing result (LooksIn (pages_but skip from (upto - from)) seat.old.view seat.new.view self.old.seat.dry self.new.seat.dry) }
        ensures few { WhereNothing result (λ looks. looks ≤ upto - from) }
    {
        let mut looks = 0;
        for page in from..upto {
            if is_page(skip, page) {
                continue;
            }
            match self.look(words, seat, page, pool) {
                Found::Frame(loan) => {
                    self.hand.page = page + 1;
                    return Found::Frame(loan);
                }
                Found::Paging => return Found::Paging,
                Found::Nothing { looks: _ } => looks += 1,
            }
        }
        Found::Nothing { looks }
    }

    // Goes on with a guest's pages before `start`, after so many looks.
    fn look_before(
        &mut self,
        words: &Words<PageBody>,
        seat: &mut HostSeat<PageBody>,
        start: u32,
        skip: Option<u32>,
        pool: &Pool,
        looks: u64,
    ) -> Found
        requires can { CanLook words.now pool.now seat.old self.old.seat }
        requires start { start ≤ words.now.pages }
        requires few { looks < 2 ^ 32 }
        ensures words { seat.new.words ≡ seat.old.words }
        ensures none_held { seat.new.view.held ≡ None }
        ensures keeps { KeepsSupply self.old self.new }
        ensures frame { WhereFrame result (IsOfHouse pool.now.table) }
        ensures paging { WherePaging result (HasRisen self.old.pager.faults self.new.pager.faults) }
        ensures few { WhereNothing result (λ sum. sum ≤ looks + start) }
        ensures nothing { (pages : List ℕ) (v : SeatView) (dry : ℕ) → LooksIn pages v seat.old.view dry self.old.seat.dry looks →
            WhereNothing result (LooksIn (pages ++ pages_but skip 0 start) v seat.new.view dry self.new.seat.dry) }
    {
        match self.look_between(words, seat, 0, start, skip, pool) {
            Found::Frame(loan) => Found::Frame(loan),
            Found::Paging => Found::Paging,
            Found::Nothing { looks: more } => Found::Nothing {
                looks: looks + more,
            },
        }
    }

    // Looks at every page of a guest, but for the skipped one, from `start` on and round the end.
    #[tactic(auto, using(crate::proofs::Founds::where_risen, crate::proofs::Founds::where_most))]
    fn look_round(
        &mut self,
        words: &Words<PageBody>,
        seat: &mut HostSeat<PageBody>,
        start: u32,
        skip: Option<u32>,
        pool: &Pool,
    ) -> Found
        requires can { CanLook words.now pool.now seat.old self.old.seat }
        requires start { start ≤ words.now.pages }
        ensures words { seat.new.words ≡ seat.old.words }
        ensures none_held { seat.new.view.held ≡ None }
        ensures keeps { KeepsSupply self.old self.new }
        ensures frame { WhereFrame result (IsOfHouse pool.now.table) }
        ensures paging { WherePaging result (HasRisen self.old.pager.faults self.new.pager.faults) }
        ensures nothing { WhereNothing result (LooksIn (round_but skip start words.now.pages) seat.old.view seat.new.view self.old.seat.dry self.new.seat.dry) }
        ensures few { WhereNothing result (λ looks. looks ≤ words.now.pages) }
    {
        match self.look_between(words, seat, start, words.pages(), skip, pool) {
            Found::Frame(loan) => Found::Frame(loan),
            Found::Paging => Found::Paging,
            Found::Nothing { looks } => self.look_before(words, seat, start, skip, pool, looks),
        }
    }

    // The same at one guest of all, where the hand's page is the first, if there is such a one.
    fn look_at_guest(
        &mut self,
        words: &[Words<PageBody>],
        hosts: &mut [HostSeat<PageBody>],
        guest: usize,
        held: Spot,
        pool: &Pool,
    ) -> Found
        requires can { CanReclaim words.now pool.now hosts.old self.old.seat }
        requires guest { guest < length words.now }
        ensures can { CanReclaim words.now pool.now hosts.new self.new.seat }
        ensures keeps { KeepsSupply self.old self.new }
        ensures frame { WhereFrame result (IsOfHouse pool.now.table) }
        ensures paging { WherePaging result (HasRisen self.old.pager.faults self.new.pager.faults) }
        ensures nothing { WhereNothing result (Searched held.guest held.page guest (guest + 1) hosts.old hosts.new self.old.seat.dry self.new.seat.dry) }
        ensures few { (d : WordsView) → WhereNothing result (λ looks. looks ≤ (slice_index_or words.now guest d).pages) }
    {
        let there = &words[guest];
        let start = start_in(self.hand, there.pages());
        let skip = held_of(held, guest);
        self.look_round(there, &mut hosts[guest], start, skip, pool)
    }

    // The same at the guests from one on and below another.
    #[tactic(auto, using(crate::proofs::Supplies::keeps_none, crate::proofs::Searches::searched_none))]
    fn look_at_guests(
        &mut self,
        words: &[Words<PageBody>],
        hosts: &mut [HostSeat<PageBody>],
        from: usize,
        upto: usize,
        held: Spot,
        pool: &Pool,
    ) -> Found
        requires can { CanReclaim words.now pool.now hosts.old self.old.seat }
        requires order { from ≤ upto }
        requires upto { upto ≤ length words.now }
        requires few { sum_by (λ w. w.pages) words.now < 2 ^ 32 }
        ensures can { CanReclaim words.now pool.now hosts.new self.new.seat }
        ensures keeps { KeepsSupply self.old self.new }
        ensures frame { WhereFrame result (IsOfHouse pool.now.table) }
        ensures paging { WherePaging result (HasRisen self.old.pager.faults self.new.pager.faults) }
        ensures nothing { WhereNothing result (Searched held.guest held.page from upto hosts.old hosts.new self.old.seat.dry self.new.seat.dry) }
        ensures few { WhereNothing result (λ looks. looks < 2 ^ 32) }
    {
        let mut looks = 0;
        for guest in from..upto {
            match self.look_at_guest(words, hosts, guest, held, pool) {
                Found::Frame(loan) => {
                    self.hand.guest = guest;
                    return Found::Frame(loan);
                }
                Found::Paging => return Found::Paging,
                Found::Nothing { looks: more } => looks += more,
            }
        }
        Found::Nothing { looks }
    }

    // Goes on with the guests before `first`, after so many looks.
    fn look_at_first(
        &mut self,
        words: &[Words<PageBody>],
        hosts: &mut [HostSeat<PageBody>],
        first: usize,
        held: Spot,
        pool: &Pool,
        looks: u64,
    ) -> Found
        requires can { CanReclaim words.now pool.now hosts.old self.old.seat }
        requires first { first ≤ length words.now }
        requires pages { sum_by (λ w. w.pages) words.now < 2 ^ 32 }
        requires few { looks < 2 ^ 32 }
        ensures can { CanReclaim words.now pool.now hosts.new self.new.seat }
        ensures keeps { KeepsSupply self.old self.new }
        ensures frame { WhereFrame result (IsOfHouse pool.now.table) }
        ensures paging { WherePaging result (HasRisen self.old.pager.faults self.new.pager.faults) }
        ensures nothing { (old : List Seated) (dry : ℕ) → Searched held.guest held.page first (length words.now) old hosts.old dry self.old.seat.dry looks →
            WhereNothing result (Searched held.guest held.page 0 (length words.now) old hosts.new dry self.new.seat.dry) }
    {
        match self.look_at_guests(words, hosts, 0, first, held, pool) {
            Found::Frame(loan) => Found::Frame(loan),
            Found::Paging => Found::Paging,
            Found::Nothing { looks: more } => Found::Nothing {
                looks: looks + more,
            },
        }
    }

    // Looks at every page of every guest but the held one, from the hand's guest on and round the last one.
    #[tactic(auto, using(crate::proofs::Founds::where_risen))]
    fn look_at_all(
        &mut self,
        words: &[Words<PageBody>],
        hosts: &mut [HostSeat<PageBody>],
        held: Spot,
        pool: &Pool,
    ) -> Found
        requires can { CanReclaim words.now pool.now hosts.old self.old.seat }
        requires few { sum_by (λ w. w.pages) words.now < 2 ^ 32 }
        ensures can { CanReclaim words.now pool.now hosts.new self.new.seat }
        ensures keeps { KeepsSupply self.old self.new }
        ensures frame { WhereFrame result (IsOfHouse pool.now.table) }
        ensures paging { WherePaging result (HasRisen self.old.pager.faults self.new.pager.faults) }
        ensures nothing { WhereNothing result (Searched held.guest held.page 0 (length words.now) hosts.old hosts.new self.old.seat.dry self.new.seat.dry) }
    {
        let guests = words.len();
        let first = first_of(self.hand, guests);
        match self.look_at_guests(words, hosts, first, guests, held, pool) {
            Found::Frame(loan) => Found::Frame(loan),
            Found::Paging => Found::Paging,
            Found::Nothing { looks } => self.look_at_first(words, hosts, first, held, pool, looks),
        }
    }

    /// A frame of the pool, for which pages but the held one are reclaimed while the pool is dry, each at most once. It
    /// begins behind the page where the last search found one.
    #[tactic(auto, using(crate::proofs::Founds::where_risen))]
    pub(crate) fn find(
        &mut self,
        words: &[Words<PageBody>],
        hosts: &mut [HostSeat<PageBody>],
        held: Spot,
        pool: &Pool,
    ) -> Found
        requires can { CanReclaim words.now pool.now hosts.old self.old.seat }
        requires few { sum_by (λ w. w.pages) words.now < 2 ^ 32 }
        ensures can { CanReclaim words.now pool.now hosts.new self.new.seat }
        ensures keeps { KeepsSupply self.old self.new }
        ensures frame { WhereFrame result (IsOfHouse pool.now.table) }
        ensures paging { WherePaging result (HasRisen self.old.pager.faults self.new.pager.faults) }
        ensures nothing { WhereNothing result (FoundNone held.guest held.page hosts.old hosts.new self.old.seat.dry self.new.seat.dry) }
    {
        match self.take(pool) {
            Some(loan) => Found::Frame(loan),
            None => self.look_at_all(words, hosts, held, pool),
        }
    }

    // Gets the bytes of the held page, which is preserved, into this frame.
    #[tactic(auto, using(crate::proofs::Supplies::keeps_called))]
    fn get(&mut self, held: &mut HeldPage, loan: Loan, pool: &Pool) -> Result<(), Trap>
        requires pool { self.old.seat.pool ≡ pool.now }
        requires house { body_house held.old.parts ≡ pool.now.table }
        requires loan { IsOfHouse pool.now.table loan }
        requires there { is_discarded held.old.word ≡ false }
        requires preserved { is_preserved held.old.word.content ≡ true }
        ensures keeps { KeepsSupply self.old self.new }
        ensures makes { TouchMakes result held.old held.new }
        ensures paging { IfErr result (λ trap. trap ≡ Paging) }
        ensures risen { IfErr result (λ trap. HasRisen self.old.pager.faults self.new.pager.faults) }
    {
        match held.bring(loan, &mut self.pager) {
            Ok(()) => Ok(()),
            Err(loan) => {
                pool.give(&mut self.seat, loan);
                Err(Trap::Paging)
            }
        }
    }

    // Makes the held page, which isn't resident, resident in this frame.
    #[tactic(auto, using(crate::proofs::Supplies::keeps_none))]
    fn bring(&mut self, held: &mut HeldPage, loan: Loan, pool: &Pool) -> Result<(), Trap>
        requires pool { self.old.seat.pool ≡ pool.now }
        requires house { body_house held.old.parts ≡ pool.now.table }
        requires loan { IsOfHouse pool.now.table loan }
        requires there { is_discarded held.old.word ≡ false }
        requires absent { is_resident held.old.word.content ≡ false }
        ensures keeps { KeepsSupply self.old self.new }
        ensures makes { TouchMakes result held.old held.new }
        ensures paging { IfErr result (λ trap. trap ≡ Paging) }
        ensures risen { IfErr result (λ trap. HasRisen self.old.pager.faults self.new.pager.faults) }
    {
        match held.content() {
            Content::Resident => unreachable!(),
            Content::Preserved => self.get(held, loan, pool),
            Content::Zero => {
                held.fill(loan);
                Ok(())
            }
        }
    }

    /// Makes the held page resident.
    #[tactic(auto, using(crate::proofs::Supplies::keeps_none))]
    pub(crate) fn touch(
        &mut self,
        held: &mut HeldPage,
        words: &[Words<PageBody>],
        hosts: &mut [HostSeat<PageBody>],
        spot: Spot,
        pool: &Pool,
    ) -> Result<(), Trap>
        requires can { CanReclaim words.now pool.now hosts.old self.old.seat }
        requires few { sum_by (λ w. w.pages) words.now < 2 ^ 32 }
        requires house { body_house held.old.parts ≡ pool.now.table }
        ensures can { CanReclaim words.now pool.now hosts.new self.new.seat }
        ensures keeps { KeepsSupply self.old self.new }
        ensures makes { TouchMakes result held.old held.new }
        ensures cause { TouchCause result held.old self.old.pager.faults self.new.pager.faults spot.guest spot.page hosts.old hosts.new self.old.seat.dry self.new.seat.dry }
        ensures discarded { is_discarded held.old.word ≡ true → LeavesSupply hosts.old hosts.new self.old.seat self.new.seat self.old.pager self.new.pager }
        ensures resident { is_resident held.old.word.content ≡ true → LeavesSupply hosts.old hosts.new self.old.seat self.new.seat self.old.pager self.new.pager }
    {
        if held.is_discarded() {
            return Err(Trap::Discarded);
        }
        if held.content() == Content::Resident {
            held.touch();
            return Ok(());
        }
        match self.find(words, hosts, spot, pool) {
            Found::Frame(loan) => self.bring(held, loan, pool),
            Found::Paging => Err(Trap::Paging),
            Found::Nothing { looks } => Err(Trap::NoFrame { looks }),
        }
    }
}
