// A page of a noisy storage.
ghost use Rattle.std.specs.Prelude.{◌≡◌, ◌+◌, ◌<◌, ◌≤◌, length, take, drop, true, false, IfOk};
ghost use Rattle.cmm_types.specs.declared.page.TheConstants.{PAGE};
ghost use Rattle.essa_state.specs.declared.fields.TheConstants.{LAST_COUNT};
ghost use Rattle.essa_state.specs.PageValue.{Bytes, IsValue, OrderStep, MayBecome, is_lost, may_lose, opening_value};
ghost use Rattle.cmm_storage.specs.StorageView.{IsBusyWord, IsWhole, bytes_of, has_bytes, content_after, stored_value, touched_contents};
ghost use Rattle.cmm_types.specs.Bytes.{zero_page};
ghost use Rattle.cmm_storage.specs.NoisyState.{noisy_content};

use cmm_types::{Content, Move, PAGE, Usage};
use essa_state::{Fields, Old, Order, Word, apply_order, host_move};
use std::alloc::{AllocError, Global};
use std::marker::Model;

/// A page with a frame of its own, which is never preserved.
#[derive(Drop)]
pub struct NoisyPage {
    word: Word,
    frame: Vec<u8>,
}

impl Model for NoisyPage {
    ghost use Rattle.std.specs.Prelude.{◌≡◌, length, true, false};
    ghost use Rattle.cmm_types.specs.declared.page.TheConstants.{PAGE};
    ghost use Rattle.essa_state.specs.StateWord.{is_permitted, is_preserved};
    ghost use Rattle.essa_state.specs.PageValue.{PageValue};
    ghost use Rattle.cmm_storage.specs.NoisyState.{noisy_value};

    ghost Value = { PageValue };

    ghost view = { λ p. noisy_value p.word p.frame.items };

    ghost invariant = { λ p. (length p.frame.items ≡ PAGE) × (is_permitted p.word ≡ true) × (is_preserved p.word.content ≡ false) };
}

impl NoisyPage {
    pub fn open(alloc: Global) -> Result<NoisyPage, AllocError>
        ensures { IfOk result (λ page. page ≡ opening_value) }
    {
        let word = Word::new(Fields {
            usage: Usage::U,
            content: Content::Zero,
            referenced: false,
            changed: false,
            busy: false,
            count: 0,
        });
        let frame = vec![in alloc; 0; PAGE]?;
        Ok(NoisyPage { word, frame })
    }

    pub fn is_lost(&self) -> bool
        ensures { result ≡ is_lost self.now.contents }
    {
        self.word.fields().is_discarded()
    }

    pub fn has_bytes(&self) -> bool
        ensures { result ≡ has_bytes self.now.contents }
    {
        self.word.content() != Content::Zero
    }

    /// The page's word as somebody else's claim leaves it.
    pub fn busy_word(&self) -> u64
        ensures { IsBusyWord result }
    {
        let fields = Fields {
            busy: true,
            ..self.word.fields()
        };
        Word::new(fields).raw()
    }

    /// Discards the page, where its host may and the count of discards isn't at its end.
    pub fn discard(&mut self)
        ensures allowed { MayBecome self.old self.new }
        ensures lost { may_lose self.old.usage self.old.changed ≡ true → self.old.count < LAST_COUNT → is_lost self.new.contents ≡ true }
    {
        if let Ok(word) = host_move(self.word, Move::Discard) {
            self.word = word;
        }
    }

    pub fn order(&mut self, code: Order) -> Old
        ensures step { OrderStep self.old code result.done self.new }
        ensures value { IsValue self.new }
        ensures usage { result.usage ≡ self.old.usage }
        ensures content { result.content ≡ noisy_content self.old.contents }
        ensures after { noisy_content self.new.contents ≡ content_after code (noisy_content self.old.contents) }
        ensures bytes { has_bytes self.new.contents ≡ has_bytes self.old.contents }
    {
        let (word, old) = apply_order(self.word, code);
        self.word = word;
        old
    }

    pub fn take_change(&mut self) -> bool
        ensures changed { result ≡ self.old.changed }
        ensures cleared { self.new ≡ record self.old { changed = false } }
    {
        let fields = self.word.fields();
        self.word = Word::new(Fields {
            changed: false,
            ..fields
        });
        fields.changed
    }

    /// Gives a page without contents zeros.
    pub fn fill(&mut self)
        requires { is_lost self.old.contents ≡ false }
        ensures contents { self.new ≡ record self.old { contents = touched_contents true self.old.contents } }
        ensures whole { IsWhole self.new.contents }
    {
        if self.word.content() == Content::Zero {
            self.frame.fill(0);
            self.word = Word::new(Fields {
                content: Content::Resident,
                ..self.word.fields()
            });
        }
    }

    pub fn fetch(&self, off: usize, into: &mut [u8])
        requires bytes { has_bytes self.now.contents ≡ true }
        requires within { off + length into.old ≤ PAGE }
        ensures { into.new ≡ take (length into.old) (drop off (bytes_of self.now.contents)) }
    {
        let end = off + into.len();
        into.copy_from_slice(&self.frame[off..end]);
    }

    pub fn store(&mut self, off: usize, from: &[u8])
        requires bytes { has_bytes self.old.contents ≡ true }
        requires within { off + length from.now ≤ PAGE }
        ensures { self.new ≡ stored_value true self.old off from.now }
    {
        let end = off + from.len();
        self.frame[off..end].copy_from_slice(from);
        self.word = Word::new(Fields {
            changed: true,
            ..self.word.fields()
        });
    }
}
