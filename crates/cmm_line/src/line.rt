ghost use Rattle.std.specs.Prelude.{◌≡◌, [], ◌∷◌, map, codes, string_bytes, true, false, IfOk, IfSome};
ghost use Rattle.std.specs.List.{list_any};
ghost use Rattle.std.specs.Str.{bytes_eq, all_ascii_digits};
ghost use Rattle.cmm_line.specs.Words.{is_option, rest_of};
ghost use Rattle.cmm_line.specs.Line.{IsSize, HasSize, has_leading_zero, is_decimal, decimal_number, size_of, start_and_size, line_named, line_of, begins_run, run_line, other_line};

use crate::words::{Words, read_words};
use std::alloc::{AllocError, Global};

/// The fewest commands of a generated scenario.
pub const MIN_SIZE: u32 = 8;

/// The most commands of a generated scenario.
pub const MAX_SIZE: u32 = 20_000;

/// What the program is asked to do.
#[derive(Clone, Copy, Debug, PartialEq, Eq)]
pub enum Line {
    /// `replay`: read a scenario, play its schedule and write the report.
    Replay,
    /// `run`: read a scenario, run its processors as threads and write the report.
    Run,
    /// `check`: read a scenario and a report, and write whether the report is legal.
    Check,
    /// `gen START SIZE`: write the scenario that is generated from a number.
    Gen { start: u64, size: u32 },
    /// `demo START SIZE`: play the scenario that is generated from a number, and write what came of it in one line.
    Demo { start: u64, size: u32 },
}

fn has_leading_zero(word: &[u8]) -> bool
    ensures { result ≡ has_leading_zero word.now }
{
    matches!(word, [b'0', _, ..])
}

fn has_digits_only(word: &[u8]) -> bool
    ensures { result ≡ all_ascii_digits word.now }
{
    for byte in word {
        if !byte.is_ascii_digit() {
            return false;
        }
    }
    true
}

fn is_decimal(word: &[u8]) -> bool
    ensures { result ≡ is_decimal word.now }
{
    !word.is_empty() && !has_leading_zero(word) && has_digits_only(word)
}

/// The number that a word spells, without a leading 0.
#[tactic(auto, unfolding(crate::specs::Line::decimal_number))]
fn decimal_number(word: &str) -> Option<u64>
    ensures { result ≡ decimal_number word.now }
{
    if is_decimal(word.as_bytes()) {
        word.parse::<u64>().ok()
    } else {
        None
    }
}

#[tactic(auto, unfolding(crate::specs::Line::size_of))]
fn size_of(word: &str) -> Option<u32>
    ensures is { result ≡ size_of word.now }
    ensures within { IfSome result IsSize }
{
    let size = decimal_number(word)?;
    if u64::from(MIN_SIZE) <= size && size <= u64::from(MAX_SIZE) {
        Some(size as u32)
    } else {
        None
    }
}

#[tactic(auto, unfolding(crate::specs::Line::start_and_size))]
fn start_and_size(start: &str, size: &str) -> Option<(u64, u32)>
    ensures are { result ≡ start_and_size (start.now ∷ size.now ∷ []) }
    ensures within { IfSome result (λ p. IsSize p.1) }
{
    let start = decimal_number(start)?;
    let size = size_of(size)?;
    Some((start, size))
}

#[tactic(auto, unfolding(crate::specs::Line::line_named, crate::specs::Line::start_and_size))]
fn line_named(words: &Words<'_>) -> Option<Line>
    ensures is { result ≡ line_named words.now.name.now (rest_of words.now) }
    ensures within { IfSome result HasSize }
{
    match (words.name, words.start, words.size) {
        ("replay", None, None) => Some(Line::Replay),
        ("run", None, None) => Some(Line::Run),
        ("check", None, None) => Some(Line::Check),
        ("gen", Some(start), Some(size)) => {
            let (start, size) = start_and_size(start, size)?;
            Some(Line::Gen { start, size })
        }
        ("demo", Some(start), Some(size)) => {
            let (start, size) = start_and_size(start, size)?;
            Some(Line::Demo { start, size })
        }
        _ => None,
    }
}

fn is_option(word: &str) -> bool
    ensures { result ≡ is_option word.now }
{
    matches!(word.as_bytes(), [b'-', ..])
}

fn has_option(words: &[String]) -> bool
    ensures { result ≡ list_any is_option (map string_bytes words.now) }
{
    for word in words {
        if is_option(word.as_str()) {
            return true;
        }
    }
    false
}

/// The line that the words are. A word that begins with `-` is refused before the parser sees it.
pub fn line_of(alloc: Global, words: &[String]) -> Result<Option<Line>, AllocError>
    ensures is { IfOk result (λ line. line ≡ line_of (map string_bytes words.now)) }
    ensures within { IfOk result (λ line. IfSome line HasSize) }
{
    if has_option(words) {
        return Ok(None);
    }
    match read_words(alloc, words)? {
        Some(words) => Ok(line_named(&words)),
        None => Ok(None),
    }
}

fn is_run(word: &str) -> bool
    ensures { result ≡ bytes_eq word.now (codes "run") }
{
    matches!(word, "run")
}

/// Whether the first word is `run`. Then the words are that line or none, and else they are another line or none.
pub fn begins_run(words: &[String]) -> bool
    ensures is { result ≡ begins_run (map string_bytes words.now) }
    ensures run { result ≡ true → run_line (line_of (map string_bytes words.now)) ≡ line_of (map string_bytes words.now) }
    ensures other { result ≡ false → other_line (line_of (map string_bytes words.now)) ≡ line_of (map string_bytes words.now) }
{
    match words {
        [word, ..] => is_run(word.as_str()),
        [] => false,
    }
}
