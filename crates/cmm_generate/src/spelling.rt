//! How commands and events are written.

ghost use Rattle.std.specs.Prelude.{◌≡◌, string_bytes, IfOk};
ghost use Rattle.hex.specs.Hex.{encode_lower};
ghost use Rattle.cmm_scenario.specs.Spelling.{mode_word, op_text, move_name, event_text};

use cmm_types::{Bytes64, Event, Move, Op};
use std::alloc::{AllocError, Global};

fn mode_word(writable: bool) -> &'static str
    ensures { result.now ≡ mode_word writable }
{
    if writable { "rw" } else { "ro" }
}

fn hex_digits(alloc: Global, bytes: &Bytes64) -> Result<String, AllocError>
    ensures { IfOk result (λ text. string_bytes text ≡ encode_lower bytes.now) }
{
    hex::encode(alloc, bytes.as_slice())
}

#[tactic(auto, using(crate::proofs::Spelled::text_end), unfolding(cmm_scenario::specs::Spelling::op_text))]
pub fn op_text(alloc: Global, op: &Op) -> Result<String, AllocError>
    ensures { IfOk result (λ text. string_bytes text ≡ op_text op.now) }
{
    match op {
        Op::Read { file, off, len } => format!(in alloc; "read {file} {off} {len}"),
        Op::Write { file, off, bytes } => {
            let digits = hex_digits(alloc, bytes)?;
            format!(in alloc; "write {file} {off} {digits}")
        }
        Op::Sync { file } => format!(in alloc; "sync {file}"),
        Op::MapFile {
            map,
            file,
            first,
            count,
            writable,
        } => {
            let mode = mode_word(*writable);
            format!(in alloc; "mapfile {map} {file} {first} {count} {mode}")
        }
        Op::MapAnon { map, count } => format!(in alloc; "mapanon {map} {count}"),
        Op::Unmap { map } => format!(in alloc; "unmap {map}"),
        Op::Load { map, off, len } => format!(in alloc; "load {map} {off} {len}"),
        Op::Store { map, off, bytes } => {
            let digits = hex_digits(alloc, bytes)?;
            format!(in alloc; "store {map} {off} {digits}")
        }
        Op::Pin { map, page } => format!(in alloc; "pin {map} {page}"),
        Op::Unpin { map, page } => format!(in alloc; "unpin {map} {page}"),
    }
}

fn move_name(action: Move) -> &'static str
    ensures { result.now ≡ move_name action }
{
    match action {
        Move::Discard => "discard",
        Move::Preserve => "preserve",
        Move::Bring => "bring",
        Move::Age => "age",
    }
}

#[tactic(auto, using(crate::proofs::Spelled::text_end), unfolding(cmm_scenario::specs::Spelling::event_text))]
pub fn event_text(alloc: Global, event: Event) -> Result<String, AllocError>
    ensures { IfOk result (λ text. string_bytes text ≡ event_text event) }
{
    match event {
        Event::Cpu { guest, cpu } => format!(in alloc; "cpu {guest} {cpu}"),
        Event::Alone { guest, cpu } => format!(in alloc; "alone {guest} {cpu}"),
        Event::Host {
            guest,
            page,
            action,
        } => {
            let name = move_name(action);
            format!(in alloc; "{name} {guest} {page}")
        }
        Event::Reclaim { count } => format!(in alloc; "reclaim {count}"),
    }
}
