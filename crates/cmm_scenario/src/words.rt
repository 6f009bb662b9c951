ghost use Rattle.std.specs.Prelude.{◌≡◌, ◌+◌, ◌^◌, ◌<◌, ◌≤◌, length, position, IfOk};
ghost use Rattle.cmm_scenario.specs.Outcome.{ReadsAs};
ghost use Rattle.cmm_scenario.specs.Words.{is_space, leading_word, after_word, take_word, take_number, word_number, has_number_size, word_bytes, take_bytes, take_end, within};

use crate::fault::Kind;
use cmm_types::{Bytes64, MAX_BYTES};

fn first_space(text: &[u8]) -> Option<usize>
    ensures { result ≡ position is_space text.now }
{
    text.iter().position(|byte| *byte == b' ')
}

/// The text up to its first space, and the text from there on.
#[tactic(auto, unfolding(crate::specs::Words::leading_word, crate::specs::Words::after_word))]
pub fn split_word(text: &[u8]) -> (&[u8], &[u8])
    ensures word { result.0.now ≡ leading_word text.now }
    ensures rest { result.1.now ≡ after_word text.now }
    ensures parts { length result.0.now + length result.1.now ≡ length text.now }
{
    match first_space(text) {
        Some(end) if end <= text.len() => text.split_at(end),
        _ => text.split_at(text.len()),
    }
}

/// The word behind a space.
#[tactic(auto, unfolding(crate::specs::Words::take_word))]
pub fn next_word(text: &[u8]) -> Result<(&[u8], &[u8]), Kind>
    ensures { ReadsAs (λ x. (x.0.now, x.1.now)) result (take_word text.now) }
{
    match text {
        [b' ', text @ ..] => Ok(split_word(text)),
        _ => Err(Kind::Text),
    }
}

/// Whether there are one to ten bytes, of which the first is a `0` only where it is the only one.
fn has_number_size(digits: &[u8]) -> bool
    ensures { result ≡ has_number_size digits.now }
{
    match digits {
        [] => false,
        [_] => true,
        [first, digits @ ..] => *first != b'0' && digits.len() <= 9,
    }
}

/// The number that a word of digits spells: `0`, or at most ten digits without a leading `0`.
#[tactic(auto, unfolding(crate::specs::Words::word_number))]
fn word_number(word: &[u8]) -> Result<u64, Kind>
    ensures { result ≡ word_number word.now }
{
    if !has_number_size(word) {
        return Err(Kind::Text);
    }
    let mut number = 0;
    for digit in word {
        if !digit.is_ascii_digit() {
            return Err(Kind::Text);
        }
        number = number * 10 + u64::from(*digit - b'0');
    }
    Ok(number)
}

#[tactic(auto, unfolding(crate::specs::Words::take_number))]
pub fn next_number(text: &[u8]) -> Result<(u64, &[u8]), Kind>
    ensures { ReadsAs (λ x. (x.0, x.1.now)) result (take_number text.now) }
{
    let (word, rest) = next_word(text)?;
    let number = word_number(word)?;
    Ok((number, rest))
}

/// The bytes that a word of 2 to 128 hexadecimal digits spells.
#[tactic(auto, unfolding(crate::specs::Words::word_bytes))]
fn word_bytes(word: &[u8]) -> Result<Bytes64, Kind>
    ensures { result ≡ word_bytes word.now }
{
    if word.is_empty() || 2 * MAX_BYTES < word.len() {
        return Err(Kind::Text);
    }
    let mut buffer = [0; MAX_BYTES];
    let bytes = &mut buffer[..word.len() / 2];
    match hex::decode_to_slice(word, bytes) {
        Ok(()) => Bytes64::from_slice(bytes).ok_or(Kind::Text),
        Err(_) => Err(Kind::Text),
    }
}

#[tactic(auto, unfolding(crate::specs::Words::take_bytes))]
pub fn next_bytes(text: &[u8]) -> Result<(Bytes64, &[u8]), Kind>
    ensures { ReadsAs (λ x. (x.0, x.1.now)) result (take_bytes text.now) }
{
    let (word, rest) = next_word(text)?;
    let bytes = word_bytes(word)?;
    Ok((bytes, rest))
}

#[tactic(auto, unfolding(crate::specs::Words::take_end))]
pub fn end_of_text(text: &[u8]) -> Result<(), Kind>
    ensures { result ≡ take_end text.now }
{
    if text.is_empty() {
        Ok(())
    } else {
        Err(Kind::Text)
    }
}

#[tactic(auto, unfolding(crate::specs::Words::within))]
pub fn within(low: u32, high: u32, number: u64) -> Result<u32, Kind>
    ensures { result ≡ within low high number }
{
    if u64::from(low) <= number && number <= u64::from(high) {
        Ok(number as u32)
    } else {
        Err(Kind::Range)
    }
}
