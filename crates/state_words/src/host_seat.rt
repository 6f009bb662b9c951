ghost use Rattle.std.specs.Prelude.{◌≡◌, ◌<◌, [], false, None, is_err, IfOk, IfErr};
ghost use Rattle.std.specs.Option.{ForSome};
ghost use Rattle.essa_state.specs.PageBody.{FitsWord};
ghost use Rattle.state_words.specs.SeatView.{HoldsPage, IsHostSeat, seated_at, host_first};
ghost use Rattle.state_words.specs.Steps.{claimed_view, looked_view, moved_view, HasTried, FindsBusy, IsAllowedOn, IsMovedBody, word_after};

use crate::rule::{Body, Knowledge};
use crate::seats::{claim, join, look, move_on, split};
use crate::words::Words;
use atomic_table::Seat;
use cmm_storage::Busy;
use cmm_types::Move;
use essa_state::{Word, host_move};
use std::marker::Model;

/// A seat of the host. Contracts see which words it is of and what it knows: the page that it holds, and its own
/// steps.
pub struct HostSeat<B> {
    seat: Seat<Option<B>, Knowledge>,
    // That of the held page; any word where none is held.
    word: Word,
}

impl<B> Model for HostSeat<B> {
    ghost use Rattle.std.specs.Prelude.{◌≡◌};
    ghost use Rattle.std.specs.Option.{ForSome};
    ghost use Rattle.state_words.specs.SeatView.{Seated, seated_at, hand_of, IsHostSeat};

    ghost Value = { Seated };

    ghost view = { λ s. seated_at s.seat.table_id s.seat.me.0 };

    ghost invariant = { λ s. IsHostSeat (seated_at s.seat.table_id s.seat.me.0) × (s.seat.me.1 ≡ hand_of s.seat.me.0.held) × ForSome s.seat.me.0.held (λ h. s.word ≡ h.word) };
}

fn moved(word: Word, action: Option<Move>) -> Word
    requires { IsAllowedOn action word }
    ensures { result ≡ word_after action word }
{
    match action {
        None => word,
        Some(action) => match host_move(word, action) {
            Ok(moved) => moved,
            Err(_) => unreachable!(),
        },
    }
}

impl<B> Drop for HostSeat<B> {
    fn drop(self) {
        let HostSeat { seat: _, word: _ } = self;
    }
}

impl<B: Body> HostSeat<B> {
    // Where no page is held, any word does.
    pub(crate) fn new(seat: Seat<Option<B>, Knowledge>, word: Word) -> HostSeat<B>
        requires host { IsHostSeat (seated_at seat.table_id seat.me.0) }
        requires none_held { seat.me.0.held ≡ None }
        requires empty { seat.me.1 ≡ [] }
        ensures { result ≡ seated_at seat.table_id seat.me.0 }
    {
        HostSeat { seat, word }
    }

    /// Takes a page and its body where nobody holds the page. One step decides, and `Busy` comes exactly where that
    /// step found the busy bit.
    pub fn claim(&mut self, words: &Words<B>, page: u32) -> Result<(Word, B), Busy>
        requires words { self.old.words ≡ words.now }
        requires page { page < words.now.pages }
        requires none_held { self.old.view.held ≡ None }
        ensures words { self.new.words ≡ self.old.words }
        ensures host { IsHostSeat self.new }
        ensures tried { HasTried page self.old.view (is_err result) self.new.view }

        ensures taken { IfOk result (λ r. self.new.view ≡ claimed_view self.old.view page r.0 (B.body r.1)) }
        ensures free { IfOk result (λ r. r.0.busy ≡ false) }
        ensures fits { IfOk result (λ r. FitsWord r.0 (B.body r.1)) }
        ensures housed { IfOk result (λ r. B.house r.1 ≡ words.now.house) }

        ensures busy { IfErr result (λ e. FindsBusy page self.old.view e.word self.new.view) }
    {
        let (word, body) = claim(words.shared(), &mut self.seat, page)?;
        self.word = word;
        Ok((word, body))
    }

    /// Gives the held page back after a move, or as it was held. The body has the bytes that the word then needs.
    pub fn release(&mut self, words: &Words<B>, page: u32, action: Option<Move>, body: B)
        requires words { self.old.words ≡ words.now }
        requires held { HoldsPage self.old.view page }
        requires allowed { ForSome self.old.view.held (λ h. IsAllowedOn action h.word) }
        requires body { ForSome self.old.view.held (λ h. IsMovedBody action h (B.body body)) }
        requires housed { B.house body ≡ words.now.house }
        ensures words { self.new.words ≡ self.old.words }
        ensures host { IsHostSeat self.new }
        ensures view { self.new.view ≡ moved_view self.old.view page action }
    {
        let word = moved(self.word, action);
        move_on(words.shared(), &mut self.seat, page, action, word, body);
    }

    /// The word of a page, whoever holds it.
    pub fn look(&mut self, words: &Words<B>, page: u32) -> Word
        requires words { self.old.words ≡ words.now }
        requires page { page < words.now.pages }
        ensures words { self.new.words ≡ self.old.words }
        ensures host { IsHostSeat self.new }
        ensures view { self.new.view ≡ looked_view self.old.view page result }
    {
        look(words.shared(), &mut self.seat, page)
    }

    /// Another seat of the host. Nobody shares the words meanwhile.
    pub fn split(&mut self, words: &mut Words<B>) -> HostSeat<B>
        requires words { self.old.words ≡ words.old }
        ensures words { words.new ≡ words.old }
        ensures same { self.new ≡ self.old }
        ensures of_words { result.words ≡ self.old.words }
        ensures host { IsHostSeat result }
        ensures view { result.view ≡ host_first self.old.words.house }
    {
        let seat = split(words.shared(), &mut self.seat);
        HostSeat {
            seat,
            word: self.word,
        }
    }

    /// Takes in another seat of the host. Nobody shares the words meanwhile.
    pub fn join(&mut self, words: &mut Words<B>, other: HostSeat<B>)
        requires words { self.old.words ≡ words.old }
        requires other_words { other.words ≡ words.old }
        requires none_held { self.old.view.held ≡ None }
        requires other_none_held { other.view.held ≡ None }
        ensures words { words.new ≡ words.old }
        ensures same { self.new ≡ self.old }
    {
        let HostSeat { seat, word: _ } = other;
        join(words.shared(), &mut self.seat, seat);
    }
}
