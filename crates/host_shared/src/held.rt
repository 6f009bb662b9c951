// The page that a storage holds, apart from the shared words.
ghost use Rattle.std.specs.Prelude.{◌≡◌, ◌+◌, ◌≤◌, length, take, drop, true, false, IfOk, IfErr};
ghost use Rattle.cmm_types.specs.declared.page.TheConstants.{PAGE};
ghost use Rattle.cmm_io.specs.Faults.{HasRisen};
ghost use Rattle.essa_state.specs.StateWord.{is_resident, is_preserved, is_zero, is_discarded};
ghost use Rattle.essa_state.specs.Orders.{after_order, order_done};
ghost use Rattle.essa_state.specs.PageBody.{FitsWord, frame_bytes};
ghost use Rattle.state_words.specs.Accesses.{touched_word, stored_word, stored_body, change_taken};
ghost use Rattle.host_shared.specs.Bodies.{IsOfHouse, lent_body, body_house};
ghost use Rattle.host_shared.specs.PagerCalls.{PagerCalled};
ghost use Rattle.host_shared.specs.Holding.{HeldState, IsHeldPage, IsTouched};

use crate::body::PageBody;
use cmm_pager::MemPager;
use cmm_types::Content;
use essa_state::{Fields, Old, Order, Word, apply_order};
use frame_pool::Loan;
use std::marker::Model;

/// A held page with its word and its body. Contracts see both, and whether it was touched in this hold.
#[derive(Drop)]
pub(crate) struct HeldPage {
    page: u32,
    word: Word,
    body: PageBody,
    touched: bool,
}

impl Model for HeldPage {
    ghost use Rattle.host_shared.specs.Holding.{HeldState, IsHeldPage};

    ghost Value = { HeldState };

    ghost view = { λ h. record { page = h.page; word = h.word; parts = h.body; touched = h.touched } };

    ghost invariant = { λ h. IsHeldPage (record { page = h.page; word = h.word; parts = h.body; touched = h.touched }) };
}

// The word of a page that is resident and used.
fn used(word: Word) -> Word
    ensures { result ≡ touched_word word }
{
    Word::new(Fields {
        content: Content::Resident,
        referenced: true,
        ..word.fields()
    })
}

impl HeldPage {
    /// A page that was claimed with this word and body.
    pub(crate) fn new(page: u32, found: (Word, PageBody)) -> HeldPage
        requires fits { FitsWord found.0 (lent_body found.1) }
        ensures held { result ≡ record { page = page; word = found.0; parts = found.1; touched = false } }
        ensures sound { IsHeldPage result }
    {
        let (word, body) = found;
        HeldPage {
            page,
            word,
            body,
            touched: false,
        }
    }

    pub(crate) fn into_parts(self) -> (Word, PageBody)
        ensures word { result.0 ≡ self.word }
        ensures parts { result.1 ≡ self.parts }
    {
        let HeldPage {
            page: _,
            word,
            body,
            touched: _,
        } = self;
        (word, body)
    }

    pub(crate) fn order(&mut self, code: Order) -> Old
        ensures old { result ≡ record { usage = self.old.word.usage; content = self.old.word.content; done = order_done self.old.word code } }
        ensures new { self.new ≡ record self.old { word = after_order self.old.word code } }
        ensures sound { IsHeldPage self.new }
    {
        let (word, old) = apply_order(self.word, code);
        self.word = word;
        old
    }

    pub(crate) fn take_change(&mut self) -> bool
        ensures changed { result ≡ self.old.word.changed }
        ensures new { self.new ≡ record self.old { word = change_taken self.old.word } }
        ensures sound { IsHeldPage self.new }
    {
        let fields = self.word.fields();
        self.word = Word::new(Fields {
            changed: false,
            ..fields
        });
        fields.changed
    }

    pub(crate) fn is_discarded(&self) -> bool
        ensures { result ≡ is_discarded self.now.word }
    {
        self.word.fields().is_discarded()
    }

    pub(crate) fn content(&self) -> Content
        ensures { result ≡ self.now.word.content }
    {
        self.word.content()
    }

    /// The resident page is used.
    pub(crate) fn touch(&mut self)
        requires { is_resident self.old.word.content ≡ true }
        ensures touched { IsTouched self.old self.new }
        ensures sound { IsHeldPage self.new }
    {
        self.word = used(self.word);
        self.touched = true;
    }

    /// A page without contents gets a frame of zeros.
    pub(crate) fn fill(&mut self, loan: Loan)
        requires zero { is_zero self.old.word.content ≡ true }
        requires housed { IsOfHouse (body_house self.old.parts) loan }
        ensures touched { IsTouched self.old self.new }
        ensures sound { IsHeldPage self.new }
    {
        self.body.fill(loan);
        self.word = used(self.word);
        self.touched = true;
    }

    /// A preserved page gets its bytes again. The frame comes back where the pager fails.
    #[tactic(auto, using(crate::proofs::Supplies::gets_called))]
    pub(crate) fn bring(&mut self, loan: Loan, pager: &mut MemPager) -> Result<(), Loan>
        requires preserved { is_preserved self.old.word.content ≡ true }
        requires housed { IsOfHouse (body_house self.old.parts) loan }
        ensures calls { PagerCalled pager.old pager.new }
        ensures faults { pager.old.faults ≤ pager.new.faults }
        ensures touched { IfOk result (λ u. IsTouched self.old self.new × IsHeldPage self.new) }
        ensures same { IfErr result (λ back. self.new ≡ self.old) }
        ensures back { IfErr result (IsOfHouse (body_house self.old.parts)) }
        ensures risen { IfErr result (λ back. HasRisen pager.old.faults pager.new.faults) }
    {
        match self.body.bring(loan, pager) {
            Err(loan) => Err(loan),
            Ok(()) => {
                self.word = used(self.word);
                self.touched = true;
                Ok(())
            }
        }
    }

    pub(crate) fn fetch(&self, off: usize, into: &mut [u8])
        requires touched { self.now.touched ≡ true }
        requires within { off + length into.old ≤ PAGE }
        ensures { into.new ≡ take (length into.old) (drop off (frame_bytes (lent_body self.now.parts))) }
    {
        self.body.fetch(off, into);
    }

    pub(crate) fn store(&mut self, off: usize, from: &[u8])
        requires touched { self.old.touched ≡ true }
        requires within { off + length from.now ≤ PAGE }
        ensures page { self.new.page ≡ self.old.page }
        ensures touched { self.new.touched ≡ self.old.touched }
        ensures pool { self.new.parts.pool ≡ self.old.parts.pool }
        ensures word { self.new.word ≡ stored_word self.old.word }
        ensures body { lent_body self.new.parts ≡ stored_body (lent_body self.old.parts) off from.now }
        ensures sound { IsHeldPage self.new }
    {
        self.body.store(off, from);
        self.word = Word::new(Fields {
            changed: true,
            ..self.word.fields()
        });
    }
}
