ghost use Rattle.std.specs.Prelude.{◌≡◌, ◌<◌, ◌≤◌, [], false, None, is_err, IfOk, IfErr};
ghost use Rattle.std.specs.Option.{ForSome};
ghost use Rattle.essa_state.specs.PageValue.{MayBecome};
ghost use Rattle.essa_state.specs.PageBody.{FitsWord, actual};
ghost use Rattle.state_words.specs.SeatView.{guest_values, value_at, HoldsPage, IsGuestSeat, seated_at};
ghost use Rattle.state_words.specs.Accesses.{Leads};
ghost use Rattle.state_words.specs.Steps.{claimed_view, looked_view, left_view, HasTried, FindsBusy};

use crate::rule::{Body, Knowledge};
use crate::seats::{claim, leave, look};
use crate::words::Words;
use atomic_table::Seat;
use cmm_storage::Busy;
use essa_state::Word;
use std::marker::Model;

/// The one seat of the guest. It has no bytes. Contracts see which words it is of and what it knows: a value for each
/// page, the page that it holds, and its own steps.
pub struct GuestSeat<B> {
    seat: Seat<Option<B>, Knowledge>,
}

impl<B> Model for GuestSeat<B> {
    ghost use Rattle.std.specs.Prelude.{◌≡◌};
    ghost use Rattle.state_words.specs.SeatView.{Seated, seated_at, hand_of, IsGuestSeat};

    ghost Value = { Seated };

    ghost view = { λ s. seated_at s.seat.table_id s.seat.me.0 };

    ghost invariant = { λ s. IsGuestSeat (seated_at s.seat.table_id s.seat.me.0) × (s.seat.me.1 ≡ hand_of s.seat.me.0.held) };
}

impl<B> Drop for GuestSeat<B> {
    fn drop(self) {
        let GuestSeat { seat: _ } = self;
    }
}

impl<B: Body> GuestSeat<B> {
    pub(crate) fn new(seat: Seat<Option<B>, Knowledge>) -> GuestSeat<B>
        requires guest { IsGuestSeat (seated_at seat.table_id seat.me.0) }
        requires none_held { seat.me.0.held ≡ None }
        requires empty { seat.me.1 ≡ [] }
        ensures { result ≡ seated_at seat.table_id seat.me.0 }
    {
        GuestSeat { seat }
    }

    pub(crate) fn into_seat(self) -> Seat<Option<B>, Knowledge>
        ensures { self ≡ seated_at result.table_id result.me.0 }
    {
        let GuestSeat { seat } = self;
        seat
    }

    /// Takes a page and its body where nobody holds the page. One step decides, and `Busy` comes exactly where that
    /// step found the busy bit.
    pub fn claim(&mut self, words: &Words<B>, page: u32) -> Result<(Word, B), Busy>
        requires words { self.old.words ≡ words.now }
        requires page { page < words.now.pages }
        requires none_held { self.old.view.held ≡ None }
        ensures words { self.new.words ≡ self.old.words }
        ensures guest { IsGuestSeat self.new }
        ensures tried { HasTried page self.old.view (is_err result) self.new.view }

        ensures taken { IfOk result (λ r. self.new.view ≡ claimed_view self.old.view page r.0 (B.body r.1)) }
        ensures free { IfOk result (λ r. r.0.busy ≡ false) }
        ensures fits { IfOk result (λ r. FitsWord r.0 (B.body r.1)) }
        ensures housed { IfOk result (λ r. B.house r.1 ≡ words.now.house) }
        ensures value { IfOk result (λ r. MayBecome (value_at (guest_values self.old.view.role) page) (actual r.0 (B.body r.1))) }

        ensures busy { IfErr result (λ e. FindsBusy page self.old.view e.word self.new.view) }
    {
        claim(words.shared(), &mut self.seat, page)
    }

    /// Gives the held page back with this word and this body, to which the guest's orders and accesses lead from the
    /// held ones.
    pub fn release(&mut self, words: &Words<B>, page: u32, word: Word, body: B)
        requires words { self.old.words ≡ words.now }
        requires held { HoldsPage self.old.view page }
        requires leads { ForSome self.old.view.held (λ h. Leads h.word h.body word (B.body body)) }
        requires housed { B.house body ≡ words.now.house }
        ensures words { self.new.words ≡ self.old.words }
        ensures guest { IsGuestSeat self.new }
        ensures view { self.new.view ≡ left_view self.old.view page (actual word (B.body body)) }
    {
        leave(words.shared(), &mut self.seat, page, word, body);
    }

    /// The word of a page, whoever holds it.
    pub fn look(&mut self, words: &Words<B>, page: u32) -> Word
        requires words { self.old.words ≡ words.now }
        requires page { page < words.now.pages }
        ensures words { self.new.words ≡ self.old.words }
        ensures guest { IsGuestSeat self.new }
        ensures view { self.new.view ≡ looked_view self.old.view page result }
        ensures counted { (value_at (guest_values self.old.view.role) page).count ≤ result.count }
    {
        look(words.shared(), &mut self.seat, page)
    }
}
