ghost use Rattle.std.specs.Prelude.{◌≡◌, IfSome, IfNone, ℕ};
ghost use Rattle.std.specs.Option.{option_map};
ghost use Rattle.cmm_types.specs.declared.event.Answer.{Answer};
ghost use Rattle.cmm_check.specs.Answers.{IsEventLine, IsAgain, plain_answer, waits_of, alone_finished_of, alone_waits_of, reclaimed_count, reclaimed_paging, reclaimed_of, answer_of, event_head, numbered_answer};

use crate::reading::{cut, read_number, three_numbers, two_numbers, without_front};
use cmm_types::{Alone, Answer, Refused, Turn};

#[tactic(auto, unfolding(crate::specs::Answers::plain_answer))]
fn plain_answer(text: &[u8]) -> Option<Answer>
    ensures { result ≡ plain_answer text.now }
{
    if text == b"moved".as_slice() {
        Some(Answer::Turn(Turn::Moved))
    } else if text == b"finished".as_slice() {
        Some(Answer::Turn(Turn::Finished))
    } else if text == b"idle".as_slice() {
        Some(Answer::Turn(Turn::Idle))
    } else if text == b"alone idle".as_slice() {
        Some(Answer::Alone(Alone::Idle))
    } else if text == b"done".as_slice() {
        Some(Answer::HostDone)
    } else if text == b"refused stable".as_slice() {
        Some(Answer::HostRefused(Refused::Stable))
    } else if text == b"refused changed".as_slice() {
        Some(Answer::HostRefused(Refused::Changed))
    } else if text == b"refused absent".as_slice() {
        Some(Answer::HostRefused(Refused::Absent))
    } else if text == b"refused volatile".as_slice() {
        Some(Answer::HostRefused(Refused::Volatile))
    } else if text == b"refused counted".as_slice() {
        Some(Answer::HostRefused(Refused::Counted))
    } else if text == b"failed paging".as_slice() {
        Some(Answer::HostPaging)
    } else {
        None
    }
}

#[tactic(auto, unfolding(crate::specs::Answers::waits_of))]
fn waits(text: &[u8]) -> Option<Answer>
    ensures { result ≡ waits_of text.now }
{
    let numbers = without_front(text, b"waits ")?;
    let (page, owner) = two_numbers(numbers)?;
    Some(Answer::Turn(Turn::Waits { page, owner }))
}

#[tactic(auto, unfolding(crate::specs::Answers::alone_finished_of))]
fn alone_finished(text: &[u8]) -> Option<Answer>
    ensures { result ≡ alone_finished_of text.now }
{
    let digits = without_front(text, b"alone finished ")?;
    let turns = read_number(digits)?;
    Some(Answer::Alone(Alone::Finished { turns }))
}

#[tactic(auto, unfolding(crate::specs::Answers::alone_waits_of))]
fn alone_waits(text: &[u8]) -> Option<Answer>
    ensures { result ≡ alone_waits_of text.now }
{
    let numbers = without_front(text, b"alone waits ")?;
    let (turns, (page, owner)) = three_numbers(numbers)?;
    Some(Answer::Alone(Alone::Waits { turns, page, owner }))
}

#[tactic(auto, unfolding(crate::specs::Answers::reclaimed_count))]
fn reclaimed_count(digits: &[u8]) -> Option<Answer>
    ensures { result ≡ reclaimed_count digits.now }
{
    let count = read_number(digits)?;
    Some(Answer::Reclaimed {
        count,
        paging: false,
    })
}

#[tactic(auto, unfolding(crate::specs::Answers::reclaimed_paging))]
fn reclaimed_paging(digits: &[u8], words: &[u8]) -> Option<Answer>
    ensures { result ≡ reclaimed_paging digits.now words.now }
{
    let count = read_number(digits)?;
    if words == b"failed paging".as_slice() {
        Some(Answer::Reclaimed {
            count,
            paging: true,
        })
    } else {
        None
    }
}

/// How many frames were reclaimed, behind that word, and whether the host's own pager failed.
#[tactic(auto, unfolding(crate::specs::Answers::reclaimed_of))]
fn reclaimed(text: &[u8]) -> Option<Answer>
    ensures { result ≡ reclaimed_of text.now }
{
    let rest = without_front(text, b"reclaimed ")?;
    match cut(rest, b' ') {
        Some((digits, words)) => reclaimed_paging(digits, words),
        None => reclaimed_count(rest),
    }
}

/// The answer that a text says; `None` for `again`, whose cause it leaves out.
#[tactic(auto, unfolding(crate::specs::Answers::answer_of))]
pub fn answer_of(text: &[u8]) -> Option<Answer>
    ensures { result ≡ answer_of text.now }
{
    if let Some(answer) = plain_answer(text) {
        return Some(answer);
    }
    if let Some(answer) = waits(text) {
        return Some(answer);
    }
    if let Some(answer) = alone_finished(text) {
        return Some(answer);
    }
    match alone_waits(text) {
        Some(answer) => Some(answer),
        None => reclaimed(text),
    }
}

/// The number of an event's line, and the text of its answer.
#[tactic(auto, unfolding(crate::specs::Answers::event_head))]
pub fn event_head(line: &[u8]) -> Option<(u32, &[u8])>
    ensures { option_map (λ head. (head.0, head.1.now)) result ≡ event_head line.now }
{
    let rest = without_front(line, b"event ")?;
    let (number, answer) = cut(rest, b' ')?;
    let number = read_number(number)?;
    Some((number, answer))
}

#[tactic(auto, unfolding(crate::specs::Answers::numbered_answer))]
fn numbered_answer(line: &[u8]) -> Option<(u32, Answer)>
    ensures { result ≡ numbered_answer line.now }
{
    let (number, text) = event_head(line)?;
    let answer = answer_of(text)?;
    Some((number, answer))
}

/// The number of an event and its answer, from its line without the line feed. `None` exactly where the line isn't
/// of the format, and where the answer is `again`, whose cause the line doesn't say.
pub fn read_answer(line: &[u8]) -> Option<(u32, Answer)>
    ensures some { IfSome result (λ event. IsEventLine line.now event.0 event.1) }
    ensures told { IfSome result (λ event. ¬ (IsAgain event.1)) }
    ensures none { IfNone result ((number : ℕ) (answer : Answer) → IsEventLine line.now number answer → IsAgain answer) }
{
    numbered_answer(line)
}
