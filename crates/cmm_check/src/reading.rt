ghost use Rattle.std.specs.Prelude.{◌≡◌, ◌+◌, ◌*◌, ◌^◌, ◌<◌, ◌==◌, nat_lt, length, position, IfSome};
ghost use Rattle.std.specs.List.{list_any};
ghost use Rattle.std.specs.Char.{is_ascii_uppercase};
ghost use Rattle.std.specs.Option.{option_map, option_copied};
ghost use Rattle.cmm_check.specs.Reading.{given, cut, without_front, has_no_leading_zero, long_of, numeral_of, two_numbers, three_numbers, hex_bytes};

use cmm_types::{Bytes64, MAX_BYTES};

fn place_of(text: &[u8], byte: u8) -> Option<usize>
    ensures { result ≡ position (λ other. other == byte) text.now }
{
    text.iter().position(|other| *other == byte)
}

/// The text before the first such byte, and the text behind it.
#[tactic(auto, unfolding(crate::specs::Reading::cut))]
pub fn cut(text: &[u8], byte: u8) -> Option<(&[u8], &[u8])>
    ensures parts { option_map (λ parts. (parts.0.now, parts.1.now)) result ≡ cut byte text.now }
    ensures shorter { IfSome result (λ parts. length parts.0.now + length parts.1.now < length text.now) }
{
    let at = place_of(text, byte)?;
    Some((&text[..at], &text[at + 1..]))
}

/// The text behind these first bytes.
#[tactic(auto, unfolding(crate::specs::Reading::without_front))]
pub fn without_front<'a>(text: &'a [u8], front: &[u8]) -> Option<&'a [u8]>
    ensures { option_copied result ≡ without_front front.now text.now }
{
    text.strip_prefix(front)
}

/// Whether there is one byte or more, of which the first is a `0` only where it is the only one.
fn has_no_leading_zero(word: &[u8]) -> bool
    ensures { result ≡ has_no_leading_zero word.now }
{
    match word {
        [] => false,
        [_] => true,
        [first, ..] => *first != b'0',
    }
}

/// The number with one more digit behind its own.
fn with_digit(number: u64, digit: u8) -> Option<u64>
    ensures { result ≡ given (nat_lt (number * 10 + digit) (2 ^ 64)) (number * 10 + digit) }
{
    number.checked_mul(10)?.checked_add(u64::from(digit))
}

/// The number that a word of digits without a leading zero spells.
#[tactic(auto, unfolding(crate::specs::Reading::long_of))]
pub fn read_long(word: &[u8]) -> Option<u64>
    ensures { result ≡ long_of word.now }
{
    if !has_no_leading_zero(word) {
        return None;
    }
    let mut number: u64 = 0;
    for digit in word {
        if !digit.is_ascii_digit() {
            return None;
        }
        number = with_digit(number, *digit - b'0')?;
    }
    Some(number)
}

#[tactic(auto, unfolding(crate::specs::Reading::numeral_of))]
pub fn read_number(word: &[u8]) -> Option<u32>
    ensures { result ≡ numeral_of word.now }
{
    let number = read_long(word)?;
    if number <= u64::from(u32::MAX) {
        Some(number as u32)
    } else {
        None
    }
}

#[tactic(auto, unfolding(crate::specs::Reading::two_numbers))]
pub fn two_numbers(text: &[u8]) -> Option<(u32, u32)>
    ensures { result ≡ two_numbers text.now }
{
    let (first, second) = cut(text, b' ')?;
    let first = read_number(first)?;
    let second = read_number(second)?;
    Some((first, second))
}

#[tactic(auto, unfolding(crate::specs::Reading::three_numbers))]
pub fn three_numbers(text: &[u8]) -> Option<(u32, (u32, u32))>
    ensures { result ≡ three_numbers text.now }
{
    let (first, others) = cut(text, b' ')?;
    let first = read_number(first)?;
    let others = two_numbers(others)?;
    Some((first, others))
}

fn has_upper_case(digits: &[u8]) -> bool
    ensures { result ≡ list_any is_ascii_uppercase digits.now }
{
    digits.iter().any(|digit| digit.is_ascii_uppercase())
}

/// 1 to 64 bytes from their hexadecimal digits in lower case.
#[tactic(auto, unfolding(crate::specs::Reading::hex_bytes))]
pub fn read_bytes(digits: &[u8]) -> Option<Bytes64>
    ensures { result ≡ hex_bytes digits.now }
{
    if has_upper_case(digits) {
        return None;
    }
    if digits.is_empty() || 2 * MAX_BYTES < digits.len() {
        return None;
    }
    let mut buffer = [0; MAX_BYTES];
    let bytes = &mut buffer[..digits.len() / 2];
    match hex::decode_to_slice(digits, bytes) {
        Ok(()) => Bytes64::from_slice(bytes),
        Err(_) => None,
    }
}
