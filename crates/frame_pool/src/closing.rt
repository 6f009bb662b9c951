// The end of a pool's table.
ghost use Rattle.std.specs.Prelude.{◌≡◌, ℕ, ◌+◌, ◌<◌, ◌≤◌, ◌++◌, ◌∷◌, [], length, vec_len, vec_capacity};
ghost use Rattle.cmm_types.specs.declared.plan.TheConstants.{MAX_FRAMES};
ghost use Rattle.frame_pool.specs.Seats.{IsWide};
ghost use Rattle.frame_pool.specs.Closing.{ClosesWith};

use crate::rule::Pooled;
use crate::steps::Held;
use crate::view::PoolView;
use atomic_table::Table;
use page_arena::{Frame, RegionMark};
use std::alloc::Global;

/// Puts a frame behind the others, where there is room.
fn give_back(into: &mut Vec<Frame>, frame: Frame)
    requires room { vec_len into.old < vec_capacity into.old }
    ensures frames { into.new.items ≡ into.old.items ++ frame ∷ [] }
    ensures len { vec_len into.new ≡ vec_len into.old + 1 }
    ensures room { vec_capacity into.old ≤ vec_capacity into.new }
{
    into.push_reserved(frame);
}

/// A word that is out has no frame at home. What its slot still has is lost, since the rule says nothing of it.
fn lose(slot: Option<Frame>) {
    if let Some(frame) = slot {
        frame.lose();
    }
}

/// Moves the frames that are in into the list, which has room, and answers how many are out.
pub(crate) fn close(
    table: Table<Option<Frame>, PoolView, RegionMark, Pooled, Global>,
    seat: Held,
    into: &mut Vec<Frame>,
) -> u32
    requires seat { seat.table_id ≡ table.shared.table_id }
    requires wide { IsWide table.shared.table_id table.shared.table_id.slots }
    requires most { table.shared.table_id.slots ≤ MAX_FRAMES }
    requires room { vec_len into.old + table.shared.table_id.slots ≤ vec_capacity into.old }
    ensures frames { ClosesWith table.shared.key table.shared.table_id.slots into.old.items into.new.items result }
    ensures all { length into.new.items + result ≡ length into.old.items + table.shared.table_id.slots }
{
    let frames = table.slot_count();
    let mut closed = table.close_with(seat);
    let mut out = 0;
    for place in 0..frames {
        let word = closed.word(place);
        let slot = closed.take(place);
        if word != 0 {
            out += 1;
            lose(slot);
            continue;
        }
        match slot {
            Some(frame) => give_back(into, frame),
            None => unreachable!(),
        }
    }
    closed.free();
    out
}
