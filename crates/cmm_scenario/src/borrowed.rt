ghost use Rattle.std.specs.Prelude.{◌≡◌, ◌==◌, ◌<◌, length, slice_index, true, false, IsTrue, is_some, option_map, option_and_then};
ghost use Rattle.json.specs.Value as json;
ghost use Rattle.serde_json.specs.Find.{get, as_number, as_u64, as_str, as_array, as_object};
ghost use Rattle.serde_json.specs.Read.{number_of, number_from, float_of};
ghost use Rattle.cmm_scenario.specs.Borrowed.{view, items_data, members_data, number_or_float, numbers_fit, items_fit, members_fit};

use fast_float::Numeral;
use json::Value;

/// The text of a string.
pub fn as_str<'a>(value: &Value<'a>) -> Option<&'a str>
    ensures { option_map (λ s. s.now) result ≡ as_str (view value.now) }
{
    value.as_str()
}

/// A whole number without sign, point or exponent that fits.
pub fn as_u64(value: &Value<'_>) -> Option<u64>
    ensures { result ≡ option_and_then as_u64 (as_number (view value.now)) }
{
    match value.as_number() {
        Some(text) => whole_number(text),
        None => None,
    }
}

fn whole_number(text: &str) -> Option<u64>
    ensures { result ≡ as_u64 (number_or_float text.now) }
{
    let bytes = text.as_bytes();
    if has_minus(bytes) {
        None
    } else {
        unsigned(&Numeral::scan(bytes))
    }
}

fn unsigned(numeral: &Numeral<'_>) -> Option<u64>
    ensures { result ≡ option_and_then as_u64 (number_from false numeral.now) }
{
    numeral.to_u64()
}

fn has_minus(bytes: &[u8]) -> bool
    ensures value { result ≡ (slice_index bytes.now 0 == 45) }
    ensures len { IsTrue result → 0 < length bytes.now }
{
    !bytes.is_empty() && bytes[0] == b'-'
}

/// The items of an array.
pub fn as_array<'v, 'a>(value: &'v Value<'a>) -> Option<&'v [Value<'a>]>
    ensures { option_map (λ items. items_data items.now) result ≡ as_array (view value.now) }
{
    if let Value::Array(items) = value {
        Some(items.as_slice())
    } else {
        None
    }
}

/// The members of an object, in the order of the text.
pub fn as_object<'v, 'a>(value: &'v Value<'a>) -> Option<&'v [(&'a str, Value<'a>)]>
    ensures { option_map (λ members. members_data members.now) result
        ≡ as_object (view value.now) }
{
    if let Value::Object(members) = value {
        Some(members.as_slice())
    } else {
        None
    }
}

/// The last member of a key, where this is an object.
pub fn get<'v, 'a>(object: &'v Value<'a>, key: &str) -> Option<&'v Value<'a>>
    ensures { option_map (λ value. view value.now) result ≡ get key.now (view object.now) }
{
    object.get(key)
}

/// Whether no number is too large for a float.
#[cycle(fit)]
pub fn numbers_fit(value: &Value<'_>) -> bool
    ensures { result ≡ numbers_fit (json.value_view value.now) }
{
    match value {
        Value::Number(text) => number_fits(text),
        Value::Array(items) => items_fit(items.as_slice()),
        Value::Object(members) => members_fit(members.as_slice()),
        Value::Null | Value::Bool(_) | Value::String(_) => true,
    }
}

#[cycle(fit)]
fn items_fit(items: &[Value<'_>]) -> bool
    ensures { result ≡ items_fit (json.items_view items.now) }
{
    for item in items {
        if !numbers_fit(item) {
            return false;
        }
    }
    true
}

#[cycle(fit)]
fn members_fit(members: &[(&str, Value<'_>)]) -> bool
    ensures { result ≡ members_fit (json.members_view members.now) }
{
    for member in members {
        if !numbers_fit(&member.1) {
            return false;
        }
    }
    true
}

fn number_fits(text: &str) -> bool
    ensures { result ≡ is_some (number_of text.now) }
{
    let bytes = text.as_bytes();
    if has_minus(bytes) {
        negative_fits(&Numeral::scan(&bytes[1..]))
    } else {
        unsigned_fits(&Numeral::scan(bytes))
    }
}

fn unsigned_fits(numeral: &Numeral<'_>) -> bool
    ensures { result ≡ is_some (number_from false numeral.now) }
{
    match numeral.to_u64() {
        Some(_) => true,
        None => is_finite(false, numeral),
    }
}

fn negative_fits(numeral: &Numeral<'_>) -> bool
    ensures { result ≡ is_some (number_from true numeral.now) }
{
    if let Some(n) = numeral.to_i64(true) {
        if n < 0 {
            return true;
        }
    }
    is_finite(true, numeral)
}

fn is_finite(negative: bool, numeral: &Numeral<'_>) -> bool
    ensures { result ≡ is_some (float_of negative numeral.now) }
{
    numeral.to_float::<f64>(negative).is_finite()
}
