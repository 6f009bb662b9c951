ghost use Rattle.std.specs.Prelude.{◌≡◌, ◌≤◌, OnOk};
ghost use Rattle.cmm_scenario.specs.Outcome.{ReadsAs};
ghost use Rattle.cmm_scenario.specs.Commands.{piece_of, read_of, write_of, sync_of, take_mode, mapfile_of, mapanon_of, unmap_of, load_of, store_of, mapping_page_of, pin_of, unpin_of, op_named, op_of};

use crate::fault::Kind;
use crate::words::{end_of_text, next_bytes, next_number, next_word, split_word, within};
use cmm_types::{
    MAX_BYTES, MAX_FILES, MAX_MAPPING_NUMBERS, MAX_MAPPING_PAGES, MAX_OFFSETS, Op, PAGE,
};

/// The offset, where so many bytes from it on lie in one page.
#[tactic(auto, unfolding(crate::specs::Commands::piece_of))]
fn piece(off: u64, len: u64) -> Result<u32, Kind>
    ensures start { result ≡ piece_of off len }
    ensures few { OnOk result (len ≤ MAX_BYTES) }
{
    let start = within(0, MAX_OFFSETS - 1, off)?;
    if len < 1 || len > MAX_BYTES as u64 {
        return Err(Kind::Range);
    }
    if u64::from(start) % PAGE as u64 + len <= PAGE as u64 {
        Ok(start)
    } else {
        Err(Kind::Range)
    }
}

#[tactic(auto, unfolding(crate::specs::Commands::read_of))]
fn read(text: &[u8]) -> Result<Op, Kind>
    ensures { result ≡ read_of text.now }
{
    let (file, rest) = next_number(text)?;
    let (off, rest) = next_number(rest)?;
    let (len, rest) = next_number(rest)?;
    end_of_text(rest)?;
    let file = within(0, MAX_FILES - 1, file)?;
    let off = piece(off, len)?;
    Ok(Op::Read {
        file,
        off,
        len: len as u32,
    })
}

#[tactic(auto, unfolding(crate::specs::Commands::write_of))]
fn write(text: &[u8]) -> Result<Op, Kind>
    ensures { result ≡ write_of text.now }
{
    let (file, rest) = next_number(text)?;
    let (off, rest) = next_number(rest)?;
    let (bytes, rest) = next_bytes(rest)?;
    end_of_text(rest)?;
    let file = within(0, MAX_FILES - 1, file)?;
    let off = piece(off, bytes.as_slice().len() as u64)?;
    Ok(Op::Write { file, off, bytes })
}

#[tactic(auto, unfolding(crate::specs::Commands::sync_of))]
fn sync(text: &[u8]) -> Result<Op, Kind>
    ensures { result ≡ sync_of text.now }
{
    let (file, rest) = next_number(text)?;
    end_of_text(rest)?;
    let file = within(0, MAX_FILES - 1, file)?;
    Ok(Op::Sync { file })
}

/// Whether a mapping is writable.
#[tactic(auto, unfolding(crate::specs::Commands::take_mode))]
fn mode(text: &[u8]) -> Result<(bool, &[u8]), Kind>
    ensures { ReadsAs (λ x. (x.0, x.1.now)) result (take_mode text.now) }
{
    let (word, rest) = next_word(text)?;
    match word {
        b"rw" => Ok((true, rest)),
        b"ro" => Ok((false, rest)),
        _ => Err(Kind::Text),
    }
}

#[tactic(auto, unfolding(crate::specs::Commands::mapfile_of))]
fn map_file(text: &[u8]) -> Result<Op, Kind>
    ensures { result ≡ mapfile_of text.now }
{
    let (map, rest) = next_number(text)?;
    let (file, rest) = next_number(rest)?;
    let (first, rest) = next_number(rest)?;
    let (count, rest) = next_number(rest)?;
    let (writable, rest) = mode(rest)?;
    end_of_text(rest)?;
    let map = within(0, MAX_MAPPING_NUMBERS - 1, map)?;
    let file = within(0, MAX_FILES - 1, file)?;
    let first = within(0, MAX_MAPPING_PAGES - 1, first)?;
    let count = within(1, MAX_MAPPING_PAGES, count)?;
    Ok(Op::MapFile {
        map,
        file,
        first,
        count,
        writable,
    })
}

#[tactic(auto, unfolding(crate::specs::Commands::mapanon_of))]
fn map_anon(text: &[u8]) -> Result<Op, Kind>
    ensures { result ≡ mapanon_of text.now }
{
    let (map, rest) = next_number(text)?;
    let (count, rest) = next_number(rest)?;
    end_of_text(rest)?;
    let map = within(0, MAX_MAPPING_NUMBERS - 1, map)?;
    let count = within(1, MAX_MAPPING_PAGES, count)?;
    Ok(Op::MapAnon { map, count })
}

#[tactic(auto, unfolding(crate::specs::Commands::unmap_of))]
fn unmap(text: &[u8]) -> Result<Op, Kind>
    ensures { result ≡ unmap_of text.now }
{
    let (map, rest) = next_number(text)?;
    end_of_text(rest)?;
    let map = within(0, MAX_MAPPING_NUMBERS - 1, map)?;
    Ok(Op::Unmap { map })
}

#[tactic(auto, unfolding(crate::specs::Commands::load_of))]
fn load(text: &[u8]) -> Result<Op, Kind>
    ensures { result ≡ load_of text.now }
{
    let (map, rest) = next_number(text)?;
    let (off, rest) = next_number(rest)?;
    let (len, rest) = next_number(rest)?;
    end_of_text(rest)?;
    let map = within(0, MAX_MAPPING_NUMBERS - 1, map)?;
    let off = piece(off, len)?;
    Ok(Op::Load {
        map,
        off,
        len: len as u32,
    })
}

#[tactic(auto, unfolding(crate::specs::Commands::store_of))]
fn store(text: &[u8]) -> Result<Op, Kind>
    ensures { result ≡ store_of text.now }
{
    let (map, rest) = next_number(text)?;
    let (off, rest) = next_number(rest)?;
    let (bytes, rest) = next_bytes(rest)?;
    end_of_text(rest)?;
    let map = within(0, MAX_MAPPING_NUMBERS - 1, map)?;
    let off = piece(off, bytes.as_slice().len() as u64)?;
    Ok(Op::Store { map, off, bytes })
}

/// The number of a mapping, and a page's index in it.
#[tactic(auto, unfolding(crate::specs::Commands::mapping_page_of))]
fn mapping_page(text: &[u8]) -> Result<(u32, u32), Kind>
    ensures { result ≡ mapping_page_of text.now }
{
    let (map, rest) = next_number(text)?;
    let (page, rest) = next_number(rest)?;
    end_of_text(rest)?;
    let map = within(0, MAX_MAPPING_NUMBERS - 1, map)?;
    let page = within(0, MAX_MAPPING_PAGES - 1, page)?;
    Ok((map, page))
}

#[tactic(auto, unfolding(crate::specs::Commands::pin_of))]
fn pin(text: &[u8]) -> Result<Op, Kind>
    ensures { result ≡ pin_of text.now }
{
    let (map, page) = mapping_page(text)?;
    Ok(Op::Pin { map, page })
}

#[tactic(auto, unfolding(crate::specs::Commands::unpin_of))]
fn unpin(text: &[u8]) -> Result<Op, Kind>
    ensures { result ≡ unpin_of text.now }
{
    let (map, page) = mapping_page(text)?;
    Ok(Op::Unpin { map, page })
}

#[tactic(auto, unfolding(crate::specs::Commands::op_named))]
fn command_named(name: &[u8], text: &[u8]) -> Result<Op, Kind>
    ensures { result ≡ op_named name.now text.now }
{
    if name == b"read".as_slice() {
        read(text)
    } else if name == b"write".as_slice() {
        write(text)
    } else if name == b"sync".as_slice() {
        sync(text)
    } else if name == b"mapfile".as_slice() {
        map_file(text)
    } else if name == b"mapanon".as_slice() {
        map_anon(text)
    } else if name == b"unmap".as_slice() {
        unmap(text)
    } else if name == b"load".as_slice() {
        load(text)
    } else if name == b"store".as_slice() {
        store(text)
    } else if name == b"pin".as_slice() {
        pin(text)
    } else if name == b"unpin".as_slice() {
        unpin(text)
    } else {
        Err(Kind::Text)
    }
}

/// The command that a text spells.
pub fn command(text: &[u8]) -> Result<Op, Kind>
    ensures { result ≡ op_of text.now }
{
    let (name, rest) = split_word(text);
    command_named(name, rest)
}
