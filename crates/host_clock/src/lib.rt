//! The clock by which the host chooses the page that it takes a frame from. The order is this project's own.
#![tactic(auto)]

ghost use Rattle.std.specs.Prelude.{◌≡◌, ◌<◌, ◌+◌, length, IfSome, is_some, position, true, false, slice_index_or};
ghost use Rattle.std.specs.List.{list_any};
ghost use Rattle.std.specs.Option.{option_or};
ghost use Rattle.essa_state.specs.declared.fields.Fields.{Fields};
ghost use Rattle.host_clock.specs.Victim.{is_candidate, is_takeable, from_hand, victim_of};
ghost use Rattle.marks.specs.Marking.{wrapped};

use cmm_types::Content;
use essa_state::Word;

#[cfg(test)]
mod tests;

/// The place of the page to be taken, and the new hand. The page is the first without the reference bit, in cyclic
/// order from the hand, that is resident and that nobody holds; where each of those was referenced, it is the first
/// of them. The new hand is the place after it. `None` where no page is resident and free of the busy bit.
pub fn victim(words: &[Word], hand: usize) -> Option<(usize, usize)>
    requires { hand < length words.now }
    ensures chosen { result ≡ victim_of words.now hand }
    ensures found { is_some result ≡ list_any is_candidate words.now }
    ensures within { IfSome result (λ v. (v.0 < length words.now) × (v.1 < length words.now)) }
    ensures candidate { IfSome result (λ v. (d : Fields) → is_candidate (slice_index_or words.now v.0 d) ≡ true) }
{
    let steps = steps_to_victim(words, hand)?;
    let place = wrapped(hand + steps, words.len());
    Some((place, wrapped(place + 1, words.len())))
}

/// The place, where the first of `count` places follows the last.
fn wrapped(place: usize, count: usize) -> usize
    requires { place < count + count }
    ensures wrapped { result ≡ wrapped count place }
    ensures within { result < count }
{
    if place < count { place } else { place - count }
}

/// How many steps the victim is from the hand.
fn steps_to_victim(words: &[Word], hand: usize) -> Option<usize>
    requires { hand < length words.now }
    ensures first { result ≡ option_or (position (is_takeable false) (from_hand words.now hand)) (position (is_takeable true) (from_hand words.now hand)) }
    ensures near { IfSome result (λ steps. steps < length words.now) }
    ensures found { is_some result ≡ list_any is_candidate words.now }
    ensures candidate { IfSome result (λ steps. (d : Fields) → is_candidate (slice_index_or words.now (wrapped (length words.now) (hand + steps)) d) ≡ true) }
{
    match steps_to_takeable(words, hand, false) {
        Some(steps) => Some(steps),
        None => steps_to_takeable(words, hand, true),
    }
}

/// How many steps the first takeable page is from the hand.
fn steps_to_takeable(words: &[Word], hand: usize, in_need: bool) -> Option<usize>
    requires { hand < length words.now }
    ensures first { result ≡ position (is_takeable in_need) (from_hand words.now hand) }
    ensures near { IfSome result (λ steps. steps < length words.now) }
{
    match first_takeable(&words[hand..], in_need) {
        Some(steps) => Some(steps),
        None => {
            let steps = first_takeable(&words[..hand], in_need)?;
            Some(words.len() - hand + steps)
        }
    }
}

fn first_takeable(words: &[Word], in_need: bool) -> Option<usize>
    ensures first { result ≡ position (is_takeable in_need) words.now }
    ensures within { IfSome result (λ place. place < length words.now) }
{
    words.iter().position(|word| is_takeable(word, in_need))
}

fn is_takeable(word: &Word, in_need: bool) -> bool
    ensures { result ≡ is_takeable in_need word.now }
{
    word.content() == Content::Resident && !word.busy() && (in_need || !word.referenced())
}
