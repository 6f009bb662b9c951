// Why commands are refused.
ghost use Rattle.std.specs.Prelude.{◌≡◌, ◌<◌, length, Some};
ghost use Rattle.cmm_types.specs.InRange.{IsPiece};
ghost use Rattle.guest_maps.specs.MapsView.{find_slot};
ghost use Rattle.guest_rules.specs.Turns.{refusal_at, refusal_of_pin, refusal_of_pin_at, refusal_of_unmap};
ghost use Rattle.guest_core.specs.Between.{CanLookUp, refusal_by_spot};

use cmm_types::{FlatRefusal, PAGE};
use guest_maps::{Maps, Spot};

/// Why the bytes at a place of a mapping can't be reached; all of them lie in the place's page.
fn refusal_by_spot(writes: bool, spot: Option<Spot>) -> Option<FlatRefusal>
    ensures { result ≡ refusal_by_spot writes spot }
{
    match spot {
        None => Some(FlatRefusal::OutOfRange),
        Some(spot) => {
            if writes && !spot.writable {
                Some(FlatRefusal::ReadOnly)
            } else {
                None
            }
        }
    }
}

/// Why `len` bytes from `off` on of a process's mapping can't be loaded, or be stored where it `writes`.
pub fn refusal_at(
    maps: &Maps,
    writes: bool,
    process: u32,
    map: u32,
    off: u32,
    len: u32,
) -> Option<FlatRefusal>
    requires looks_up { CanLookUp process map }
    requires piece { IsPiece off len }
    ensures { result ≡ refusal_at maps.now writes off len (find_slot maps.now process map) }
{
    match maps.find(process, map) {
        None => Some(FlatRefusal::NoMapping),
        Some(slot) => refusal_by_spot(writes, maps.spot(slot, off / PAGE as u32)),
    }
}

/// Why a place that is pinned or not can't be pinned, or unpinned where `pins` is false.
fn refusal_of_pin(pins: bool, is_pinned: bool) -> Option<FlatRefusal>
    ensures { result ≡ refusal_of_pin pins is_pinned }
{
    if pins && is_pinned {
        Some(FlatRefusal::Pinned)
    } else if !pins && !is_pinned {
        Some(FlatRefusal::NotPinned)
    } else {
        None
    }
}

/// Why page `index` of the mapping in a slot can't be pinned, or unpinned where `pins` is false.
fn refusal_in_slot(maps: &Maps, pins: bool, slot: u32, index: u32) -> Option<FlatRefusal>
    requires slot { slot < length maps.now.slots }
    ensures { result ≡ refusal_of_pin_at maps.now pins index (Some slot) }
{
    match maps.spot(slot, index) {
        None => Some(FlatRefusal::OutOfRange),
        Some(_) => refusal_of_pin(pins, maps.pinned(slot, index)),
    }
}

/// Why a page of a process's mapping can't be pinned, or unpinned where `pins` is false.
pub fn refusal_of_pin_at(
    maps: &Maps,
    pins: bool,
    process: u32,
    map: u32,
    index: u32,
) -> Option<FlatRefusal>
    requires looks_up { CanLookUp process map }
    ensures { result ≡ refusal_of_pin_at maps.now pins index (find_slot maps.now process map) }
{
    match maps.find(process, map) {
        None => Some(FlatRefusal::NoMapping),
        Some(slot) => refusal_in_slot(maps, pins, slot, index),
    }
}

/// Why a process's mapping can't end.
pub fn refusal_of_unmap(maps: &Maps, process: u32, map: u32) -> Option<FlatRefusal>
    requires looks_up { CanLookUp process map }
    ensures { result ≡ refusal_of_unmap maps.now (find_slot maps.now process map) }
{
    match maps.find(process, map) {
        None => Some(FlatRefusal::NoMapping),
        Some(slot) => {
            if maps.any_pinned(slot) {
                Some(FlatRefusal::Pinned)
            } else {
                None
            }
        }
    }
}
