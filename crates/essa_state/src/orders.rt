ghost use Rattle.std.specs.Prelude.{◌≡◌, true};
ghost use Rattle.essa_state.specs.StateWord.{is_permitted};
ghost use Rattle.essa_state.specs.Orders.{order_done, ordered, after_order, can_let_go, is_blank_word, let_go, unpreserved};
ghost use Rattle.essa_state.specs.PageValue.{OrderStep};
ghost use Rattle.essa_state.specs.PageBody.{Body, FitsWord, actual};

use crate::fields::{Fields, LAST_COUNT};
use crate::word::Word;
use cmm_types::{Content, Usage};

/// What a guest tells of a page that it holds.
#[derive(Clone, Copy, Debug, PartialEq, Eq)]
pub enum Order {
    /// Order 0: nothing changes.
    Get,
    /// Order 1: the contents are essential. Contents that were discarded read as zeros from now on.
    SetStable,
    /// Order 2: the contents aren't needed.
    SetUnused,
    /// Order 3: the contents may be discarded at any time.
    SetVolatile,
    /// Order 4: the contents may be discarded only while the page is unchanged.
    SetPotential,
    /// Order 5: as order 1; the caller's next touch makes the page resident.
    SetStableResident,
    /// Order 6: as order 1, and refused where the contents were discarded.
    SetStableIf,
}

/// What a page was before an order, and whether the order was done.
#[derive(Clone, Copy, Debug, PartialEq, Eq)]
pub struct Old {
    pub usage: Usage,
    pub content: Content,
    pub done: bool,
}

fn is_blank(fields: Fields) -> bool
    ensures { result ≡ is_blank_word fields }
{
    fields.content == Content::Zero && !fields.is_discarded()
}

fn can_let_go(fields: Fields) -> bool
    ensures { result ≡ can_let_go fields }
{
    !is_blank(fields) || fields.count < LAST_COUNT
}

fn is_done(fields: Fields, code: Order) -> bool
    ensures { result ≡ order_done fields code }
{
    match code {
        Order::Get | Order::SetStable | Order::SetUnused | Order::SetStableResident => true,
        Order::SetVolatile | Order::SetPotential => can_let_go(fields),
        Order::SetStableIf => !fields.is_discarded(),
    }
}

fn let_go(fields: Fields, usage: Usage) -> Fields
    requires { can_let_go fields ≡ true }
    ensures { result ≡ let_go fields usage }
{
    let count = if is_blank(fields) {
        fields.count + 1
    } else {
        fields.count
    };
    Fields {
        usage,
        count,
        ..fields
    }
}

fn unpreserved(content: Content) -> Content
    ensures { result ≡ unpreserved content }
{
    match content {
        Content::Resident => Content::Resident,
        Content::Preserved | Content::Zero => Content::Zero,
    }
}

fn ordered(fields: Fields, code: Order) -> Fields
    requires { order_done fields code ≡ true }
    ensures { result ≡ ordered fields code }
{
    match code {
        Order::Get => fields,
        Order::SetStable | Order::SetStableResident | Order::SetStableIf => Fields {
            usage: Usage::S,
            ..fields
        },
        Order::SetUnused => Fields {
            usage: Usage::U,
            content: unpreserved(fields.content),
            referenced: false,
            changed: false,
            ..fields
        },
        Order::SetVolatile => let_go(fields, Usage::V),
        Order::SetPotential => let_go(fields, Usage::P),
    }
}

fn after_order(fields: Fields, code: Order) -> Fields
    ensures { result ≡ after_order fields code }
{
    if is_done(fields, code) {
        ordered(fields, code)
    } else {
        fields
    }
}

/// The word after the order, and what the page was before it. An order that isn't done changes nothing.
pub fn apply_order(word: Word, code: Order) -> (Word, Old)
    ensures word { result.0 ≡ after_order word code }
    ensures old { result.1 ≡ record { usage = word.usage; content = word.content; done = order_done word code } }

    // The body stays; what the page is for its guest follows the table of values.
    ensures value { (body : Body) → OrderStep (actual word body) code (order_done word code) (actual result.0 body) }
    ensures fits { (body : Body) → FitsWord word body → FitsWord result.0 body }
{
    let fields = word.fields();
    let old = Old {
        usage: fields.usage,
        content: fields.content,
        done: is_done(fields, code),
    };
    (Word::new(after_order(fields, code)), old)
}
