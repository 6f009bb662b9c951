ghost use Rattle.std.specs.Prelude.{◌≡◌, true, None, Some, is_some};
ghost use Rattle.essa_state.specs.PageBody.{moved_body};
ghost use Rattle.state_words.specs.Accesses.{CanTouch, touched_word, touched_body};
ghost use Rattle.words_tests.specs.Sheets.{sheet_body};
ghost use Rattle.cmm_types.specs.declared.page.Move.TheVariants.{Discard, Preserve};

use cmm_types::Content;
use essa_state::{Fields, Word};
use state_words::Body;
use std::marker::Model;

/// A page whose bytes are all the same: the pool of its frames, and the byte of its frame and of its block.
#[derive(Debug, Drop)]
pub struct Sheet {
    pub(crate) pool: u32,
    pub(crate) frame: Option<u8>,
    pub(crate) block: u8,
}

impl Model for Sheet {
    ghost use Rattle.words_tests.specs.Sheets.{SheetView};

    ghost Value = { SheetView };

    ghost view = { λ s. record { pool = s.pool; frame = s.frame; block = s.block } };
}

impl Body for Sheet {
    ghost use Rattle.words_tests.specs.Sheets.{sheet_body, house_of};

    ghost body = { sheet_body };

    ghost house = { house_of };

    fn lose(self) {
        drop(self);
    }
}

impl Sheet {
    /// A sheet without a frame.
    pub fn new(pool: u32) -> Sheet
        ensures { result ≡ record { pool = pool; frame = None; block = 0 } }
    {
        Sheet {
            pool,
            frame: None,
            block: 0,
        }
    }

    pub(crate) fn discard(&mut self)
        ensures body { sheet_body self.new ≡ moved_body Discard (sheet_body self.old) }
        ensures pool { self.new.pool ≡ self.old.pool }
    {
        self.frame = None;
    }

    pub(crate) fn preserve(&mut self)
        requires { is_some self.old.frame ≡ true }
        ensures body { sheet_body self.new ≡ moved_body Preserve (sheet_body self.old) }
        ensures pool { self.new.pool ≡ self.old.pool }
    {
        match self.frame {
            Some(byte) => self.block = byte,
            None => unreachable!(),
        }
        self.frame = None;
    }

    /// Makes the page resident. A page without contents reads as zeros.
    #[tactic(auto, using(crate::proofs::Uses::filled_zero))]
    pub(crate) fn touch(&mut self, word: Word) -> Word
        requires { CanTouch word }
        ensures word { result ≡ touched_word word }
        ensures body { sheet_body self.new ≡ touched_body word.content (sheet_body self.old) }
        ensures pool { self.new.pool ≡ self.old.pool }
    {
        match word.content() {
            Content::Resident => {}
            Content::Preserved => self.frame = Some(self.block),
            Content::Zero => self.frame = Some(0),
        }
        Word::new(Fields {
            content: Content::Resident,
            referenced: true,
            ..word.fields()
        })
    }
}
