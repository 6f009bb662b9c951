ghost use Rattle.std.specs.Prelude.{◌≡◌, IfSome, IfNone, ℕ};
ghost use Rattle.std.specs.Option.{option_map};
ghost use Rattle.cmm_types.specs.declared.command.Reply.{Reply};
ghost use Rattle.cmm_types.specs.declared.command.Reply.TheVariants.{Bytes};
ghost use Rattle.cmm_check.specs.Entries.{IsEntryLine, refusal_named, no_page_of, cause_of, bytes_reply_of, reply_of, entry_head, entry_of};

use crate::reading::{cut, read_bytes, read_number, two_numbers, without_front};
use cmm_types::{Cause, FlatRefusal, Reply};

#[tactic(auto, unfolding(crate::specs::Entries::refusal_named))]
fn refusal_named(text: &[u8]) -> Option<FlatRefusal>
    ensures { result ≡ refusal_named text.now }
{
    if text == b"refused no-mapping".as_slice() {
        Some(FlatRefusal::NoMapping)
    } else if text == b"refused mapped".as_slice() {
        Some(FlatRefusal::AlreadyMapped)
    } else if text == b"refused range".as_slice() {
        Some(FlatRefusal::OutOfRange)
    } else if text == b"refused read-only".as_slice() {
        Some(FlatRefusal::ReadOnly)
    } else if text == b"refused pinned".as_slice() {
        Some(FlatRefusal::Pinned)
    } else if text == b"refused not-pinned".as_slice() {
        Some(FlatRefusal::NotPinned)
    } else if text == b"refused too-many".as_slice() {
        Some(FlatRefusal::TooManyMaps)
    } else {
        None
    }
}

#[tactic(auto, unfolding(crate::specs::Entries::no_page_of))]
fn no_page(text: &[u8]) -> Option<Cause>
    ensures { result ≡ no_page_of text.now }
{
    let numbers = without_front(text, b"fail nopage ")?;
    let (pinned, unslotted) = two_numbers(numbers)?;
    Some(Cause::NoPage { pinned, unslotted })
}

/// The cause of a failure.
#[tactic(auto, unfolding(crate::specs::Entries::cause_of))]
pub fn read_cause(text: &[u8]) -> Option<Cause>
    ensures { result ≡ cause_of text.now }
{
    if text == b"fail disk".as_slice() {
        Some(Cause::Disk)
    } else if text == b"fail paging".as_slice() {
        Some(Cause::Paging)
    } else {
        no_page(text)
    }
}

#[tactic(auto, unfolding(crate::specs::Entries::bytes_reply_of))]
fn bytes_reply(text: &[u8]) -> Option<Reply>
    ensures { result ≡ bytes_reply_of text.now }
{
    let digits = without_front(text, b"ok ")?;
    let bytes = read_bytes(digits)?;
    Some(Reply::Bytes(bytes))
}

#[tactic(auto, unfolding(crate::specs::Entries::reply_of))]
fn read_reply(text: &[u8]) -> Option<Reply>
    ensures { result ≡ reply_of text.now }
{
    if text == b"ok".as_slice() {
        return Some(Reply::Done);
    }
    if let Some(cause) = read_cause(text) {
        return Some(Reply::Fail(cause));
    }
    match refusal_named(text) {
        Some(refusal) => Some(Reply::Refused(refusal)),
        None => bytes_reply(text),
    }
}

/// The processor and the number of an entry's line, and the text of its reply.
#[tactic(auto, unfolding(crate::specs::Entries::entry_head))]
pub fn read_head(line: &[u8]) -> Option<(u32, (u32, &[u8]))>
    ensures { option_map (λ head. (head.0, (head.1.0, head.1.1.now))) result ≡ entry_head line.now }
{
    let (cpu, rest) = cut(line, b' ')?;
    let cpu = read_number(cpu)?;
    let (k, reply) = cut(rest, b' ')?;
    let k = read_number(k)?;
    Some((cpu, (k, reply)))
}

#[tactic(auto, unfolding(crate::specs::Entries::entry_of))]
fn entry_of(line: &[u8]) -> Option<(u32, (u32, Reply))>
    ensures { result ≡ entry_of line.now }
{
    let (cpu, (k, text)) = read_head(line)?;
    let reply = read_reply(text)?;
    Some((cpu, (k, reply)))
}

/// The processor, the number of its command, and the reply, from the line of an entry without its line feed.
/// `None` exactly where the line isn't of the format.
pub fn read_entry(line: &[u8]) -> Option<(u32, u32, Reply)>
    ensures some { IfSome result (λ entry. IsEntryLine line.now entry.0 entry.1 entry.2) }
    ensures none { IfNone result ((cpu k : ℕ) (reply : Reply) → ¬ (IsEntryLine line.now cpu k reply)) }
{
    let (cpu, (k, reply)) = entry_of(line)?;
    Some((cpu, k, reply))
}
