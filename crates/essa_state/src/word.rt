ghost use Rattle.std.specs.Prelude.{◌≡◌, ◌<◌, ◌%◌, ◌^◌, ◌↔◌, true, IsSome, IfSome};
ghost use Rattle.essa_state.specs.StateWord.{is_permitted, low_of, number_of, fields_of, usage_code, content_code, bit_code, IsWord};
ghost use Rattle.essa_state.specs.Layout.{fields_at, fields_from, usage_with_code, content_with_code};

use crate::fields::Fields;
use cmm_types::{Content, Usage};
use std::marker::Model;

/// The number of values that bits 0 to 31 have.
const HIGH: u64 = 4_294_967_296;

/// A page's state word. Contracts see its fields.
///
/// | Bits | Field |
/// |---|---|
/// | 0 to 1 | usage: 0 stable, 1 unused, 2 potentially volatile, 3 volatile |
/// | 2 to 3 | content: 0 resident, 1 preserved, 2 zero |
/// | 4 | reference bit |
/// | 5 | change bit |
/// | 6 | busy bit |
/// | 7 to 31 | zero |
/// | 32 to 63 | discard count |
///
/// An unused page isn't preserved, only a resident page has the reference bit, and a page with zero content hasn't
/// the change bit.
#[derive(Clone, Copy, Debug, PartialEq, Eq)]
pub struct Word {
    raw: u64,
}

impl Model for Word {
    ghost use Rattle.std.specs.Prelude.{◌≡◌, true};
    ghost use Rattle.essa_state.specs.declared.fields.Fields.{Fields};
    ghost use Rattle.essa_state.specs.StateWord.{is_permitted, number_of};
    ghost use Rattle.essa_state.specs.Layout.{fields_at};
    ghost use Rattle.std.proofs.Common.{ap};

    ghost Value = { Fields };

    ghost view = { λ w. fields_at w.raw };

    ghost invariant = { λ w. (number_of (fields_at w.raw) ≡ w.raw) × (is_permitted (fields_at w.raw) ≡ true) };

    ghost inverse = { λ f. record { raw = number_of f } };

    ghost inverse_ok = { λ w h. ap (λ n. record { raw = n }) h.0 };
}

fn usage_code(usage: Usage) -> u64
    ensures { result ≡ usage_code usage }
{
    match usage {
        Usage::S => 0,
        Usage::U => 1,
        Usage::P => 2,
        Usage::V => 3,
    }
}

fn content_code(content: Content) -> u64
    ensures { result ≡ content_code content }
{
    match content {
        Content::Resident => 0,
        Content::Preserved => 1,
        Content::Zero => 2,
    }
}

fn bit_code(bit: bool) -> u64
    ensures { result ≡ bit_code bit }
{
    u64::from(bit)
}

fn usage_with_code(code: u64) -> Usage
    ensures { result ≡ usage_with_code code }
{
    match code {
        0 => Usage::S,
        1 => Usage::U,
        2 => Usage::P,
        _ => Usage::V,
    }
}

fn content_with_code(code: u64) -> Content
    ensures { result ≡ content_with_code code }
{
    match code {
        0 => Content::Resident,
        1 => Content::Preserved,
        _ => Content::Zero,
    }
}

// Bits 0 to 6.
fn low_of(fields: Fields) -> u64
    ensures value { result ≡ low_of fields }
    ensures small { result < 128 }
{
    usage_code(fields.usage)
        + 4 * content_code(fields.content)
        + 16 * bit_code(fields.referenced)
        + 32 * bit_code(fields.changed)
        + 64 * bit_code(fields.busy)
}

fn fields_at(raw: u64) -> Fields
    ensures { result ≡ fields_at raw }
{
    let low = raw % HIGH;
    Fields {
        usage: usage_with_code(low % 4),
        content: content_with_code(low / 4 % 4),
        referenced: low / 16 % 2 == 1,
        changed: low / 32 % 2 == 1,
        busy: low / 64 % 2 == 1,
        count: (raw / HIGH) as u32,
    }
}

impl Word {
    /// The word with these fields.
    pub fn new(fields: Fields) -> Word
        requires { is_permitted fields ≡ true }
        ensures { result ≡ fields }
    {
        Word {
            raw: low_of(fields) + HIGH * u64::from(fields.count),
        }
    }

    pub fn raw(&self) -> u64
        ensures { result ≡ number_of self.now }
    {
        self.raw
    }

    pub fn fields(&self) -> Fields
        ensures same { result ≡ self.now }
        ensures permitted { is_permitted result ≡ true }
    {
        fields_at(self.raw)
    }

    pub fn usage(&self) -> Usage
        ensures { result ≡ self.now.usage }
    {
        self.fields().usage
    }

    pub fn content(&self) -> Content
        ensures { result ≡ self.now.content }
    {
        self.fields().content
    }

    pub fn referenced(&self) -> bool
        ensures { result ≡ self.now.referenced }
    {
        self.fields().referenced
    }

    pub fn changed(&self) -> bool
        ensures { result ≡ self.now.changed }
    {
        self.fields().changed
    }

    pub fn busy(&self) -> bool
        ensures { result ≡ self.now.busy }
    {
        self.fields().busy
    }

    pub fn count(&self) -> u32
        ensures { result ≡ self.now.count }
    {
        self.fields().count
    }
}

/// The word with these fields; `None` where their combination isn't permitted.
pub fn pack(
    usage: Usage,
    content: Content,
    referenced: bool,
    changed: bool,
    busy: bool,
    count: u32,
) -> Option<Word>
    ensures permitted { let fields = fields_of usage content referenced changed busy count in
        IsSome result ↔ (is_permitted fields ≡ true) }
    ensures same { IfSome result (λ word. word ≡ fields_of usage content referenced changed busy count) }
{
    let fields = Fields {
        usage,
        content,
        referenced,
        changed,
        busy,
        count,
    };
    if fields.is_permitted() {
        Some(Word::new(fields))
    } else {
        None
    }
}

/// The word that is this number; `None` where the number is no permitted word.
pub fn unpack(raw: u64) -> Option<Word>
    ensures permitted { IsSome result ↔ IsWord raw }
    ensures same { IfSome result (λ word. number_of word ≡ raw) }
{
    let fields = fields_at(raw);
    if !fields.is_permitted() {
        return None;
    }
    let word = Word::new(fields);
    if word.raw == raw { Some(word) } else { None }
}
