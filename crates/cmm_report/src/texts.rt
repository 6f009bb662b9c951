ghost use Rattle.std.specs.Prelude.{◌≡◌, ◌+◌, ◌≤◌, ◌++◌, length};
ghost use Rattle.std.specs.Str.{bytes_eq};
ghost use Rattle.cmm_report.specs.Texts.{turn_text, alone_text, refused_text, answer_text, flat_refusal_text, cause_text, reply_text};

use crate::line::Line;
use cmm_types::{Alone, Answer, Cause, FlatRefusal, Refused, Reply, Turn};

fn add_turn(line: &mut Line, turn: Turn)
    requires { length line.old ≤ 60 }
    ensures text { line.new ≡ line.old ++ turn_text turn }
    ensures short { length line.new ≤ length line.old + 100 }
{
    match turn {
        Turn::Moved => line.add(b"moved"),
        Turn::Finished => line.add(b"finished"),
        Turn::Waits { page, owner } => {
            line.add(b"waits ");
            line.add_number(u64::from(page));
            line.add(b" ");
            line.add_number(u64::from(owner));
        }
        Turn::Again { why: _ } => line.add(b"again"),
        Turn::Idle => line.add(b"idle"),
    }
}

fn add_alone(line: &mut Line, alone: Alone)
    requires { length line.old ≤ 60 }
    ensures text { line.new ≡ line.old ++ alone_text alone }
    ensures short { length line.new ≤ length line.old + 100 }
{
    match alone {
        Alone::Finished { turns } => {
            line.add(b"alone finished ");
            line.add_number(u64::from(turns));
        }
        Alone::Waits { turns, page, owner } => {
            line.add(b"alone waits ");
            line.add_number(u64::from(turns));
            line.add(b" ");
            line.add_number(u64::from(page));
            line.add(b" ");
            line.add_number(u64::from(owner));
        }
        Alone::Idle => line.add(b"alone idle"),
    }
}

fn add_refused(line: &mut Line, refused: Refused)
    requires { length line.old ≤ 60 }
    ensures text { line.new ≡ line.old ++ refused_text refused }
    ensures short { length line.new ≤ length line.old + 100 }
{
    match refused {
        Refused::Stable => line.add(b"refused stable"),
        Refused::Changed => line.add(b"refused changed"),
        Refused::Absent => line.add(b"refused absent"),
        Refused::Volatile => line.add(b"refused volatile"),
        Refused::Counted => line.add(b"refused counted"),
    }
}

/// Adds the text of an answer.
pub fn add_answer(line: &mut Line, answer: &Answer)
    requires { length line.old ≤ 60 }
    ensures text { line.new ≡ line.old ++ answer_text answer.now }
    ensures short { length line.new ≤ length line.old + 100 }
{
    match *answer {
        Answer::Turn(turn) => add_turn(line, turn),
        Answer::Alone(alone) => add_alone(line, alone),
        Answer::HostDone => line.add(b"done"),
        Answer::HostRefused(refused) => add_refused(line, refused),
        Answer::HostPaging => line.add(b"failed paging"),
        Answer::Reclaimed { count, paging } => {
            line.add(b"reclaimed ");
            line.add_number(u64::from(count));
            if paging {
                line.add(b" failed paging");
            }
        }
    }
}

fn add_flat_refusal(line: &mut Line, refusal: FlatRefusal)
    requires { length line.old ≤ 60 }
    ensures text { line.new ≡ line.old ++ flat_refusal_text refusal }
    ensures short { length line.new ≤ length line.old + 131 }
{
    match refusal {
        FlatRefusal::NoMapping => line.add(b"refused no-mapping"),
        FlatRefusal::AlreadyMapped => line.add(b"refused mapped"),
        FlatRefusal::OutOfRange => line.add(b"refused range"),
        FlatRefusal::ReadOnly => line.add(b"refused read-only"),
        FlatRefusal::Pinned => line.add(b"refused pinned"),
        FlatRefusal::NotPinned => line.add(b"refused not-pinned"),
        FlatRefusal::TooManyMaps => line.add(b"refused too-many"),
    }
}

fn add_cause(line: &mut Line, cause: Cause)
    requires { length line.old ≤ 60 }
    ensures text { line.new ≡ line.old ++ cause_text cause }
    ensures short { length line.new ≤ length line.old + 131 }
{
    match cause {
        Cause::Disk => line.add(b"fail disk"),
        Cause::Paging => line.add(b"fail paging"),
        Cause::NoPage { pinned, unslotted } => {
            line.add(b"fail nopage ");
            line.add_number(u64::from(pinned));
            line.add(b" ");
            line.add_number(u64::from(unslotted));
        }
    }
}

/// Adds the text of a reply.
pub fn add_reply(line: &mut Line, reply: &Reply)
    requires { length line.old ≤ 60 }
    ensures text { line.new ≡ line.old ++ reply_text reply.now }
    ensures short { length line.new ≤ length line.old + 131 }
{
    match reply {
        Reply::Done => line.add(b"ok"),
        Reply::Bytes(bytes) => {
            line.add(b"ok ");
            line.add_hex(bytes.as_slice());
        }
        Reply::Refused(refusal) => add_flat_refusal(line, *refusal),
        Reply::Fail(cause) => add_cause(line, *cause),
    }
}

/// Whether a text is that of a reply.
pub fn is_reply_text(text: &[u8], reply: &Reply) -> bool
    ensures { result ≡ bytes_eq text.now (reply_text reply.now) }
{
    let mut line = Line::new();
    add_reply(&mut line, reply);
    text == line.as_slice()
}
