// The steps on the pool's table.
ghost use Rattle.std.specs.Prelude.{◌≡◌, ℕ, ◌+◌, ◌<◌, [], ◌∷◌, ◌≢◌, true, false, Some, None, IfSome, IfNone};
ghost use Rattle.page_arena.specs.FrameView.{RegionView, FrameView};
ghost use Rattle.frame_pool.specs.PoolRule.{IsFrameOf};
ghost use Rattle.frame_pool.specs.Plays.{naming, found_out_at, dried, taking, returning, split_off, lending, joined, next_round};
ghost use Rattle.frame_pool.specs.Seats.{IsWide, IsIdle, TookWord, IsLending};
ghost use Rattle.frame_pool.specs.declared.view.Named.TheVariants.{Idle, Taken, Lent, Spent};

use crate::rule::{
    Apart, Claim, Compare, Copied, Count, Fetch, Kept, Lend, Look, Pooled, Replaced, Return,
    Together,
};
use crate::view::PoolView;
use atomic_table::{Seat, Shared};
use page_arena::{Frame, RegionMark};
use std::mem;

pub(crate) type Words = Shared<Option<Frame>, PoolView, RegionMark, Pooled>;

pub(crate) type Held = Seat<Option<Frame>, PoolView>;

const IN: u64 = 0;

const OUT: u64 = 1;

/// Whether a frame may be in. Where none is, the record says so.
pub(crate) fn has_spare(words: &Words, seat: &mut Held, frames: usize) -> bool
    requires wide { IsWide words.now.table_id frames }
    requires seat { (seat.old.table_id ≡ words.now.table_id) × (seat.old.me ≡ (naming seat.old.me.0 Idle, [])) }
    ensures seat { (seat.new.table_id ≡ seat.old.table_id) × (seat.new.id ≡ seat.old.id) }
    ensures some { result ≡ true → seat.new.me ≡ seat.old.me }
    ensures none { result ≡ false → seat.new.me ≡ (dried seat.old.me.0, []) }
{
    words.load::<Count>(seat, frames) != 0
}

/// Whether the word was in and is now taken, with its slot. Where it was out, the record says so.
pub(crate) fn claim(words: &Words, seat: &mut Held, frames: usize, word: usize) -> bool
    requires wide { IsWide words.now.table_id frames }
    requires word { word < frames }
    requires seat { (seat.old.table_id ≡ words.now.table_id) × (seat.old.me ≡ (naming seat.old.me.0 Idle, [])) }
    ensures seat { (seat.new.table_id ≡ seat.old.table_id) × (seat.new.id ≡ seat.old.id) }
    ensures won { result ≡ true → (f : FrameView) × (seat.new.me ≡ (taking word seat.old.me.0, (word, Some f) ∷ [])) × IsFrameOf seat.old.me.0.region word f }
    ensures missed { result ≡ false → seat.new.me ≡ (found_out_at frames word seat.old.me.0, []) }
{
    if words.load::<Look>(seat, word) != IN {
        return false;
    }
    words.compare_exchange::<Claim>(seat, word, IN, OUT) == IN
}

/// The frame of the word that the seat has taken. The seat then names it without its slot.
pub(crate) fn lend(words: &Words, seat: &mut Held, frames: usize, word: usize) -> Frame
    requires wide { IsWide words.now.table_id frames }
    requires word { word < frames }
    requires table { seat.old.table_id ≡ words.now.table_id }
    requires seat { (f : FrameView) × (seat.old.me ≡ (naming seat.old.me.0 (Taken word), (word, Some f) ∷ [])) × IsFrameOf seat.old.me.0.region word f }
    ensures seat { (seat.new.table_id ≡ seat.old.table_id) × (seat.new.id ≡ seat.old.id) }
    ensures lent { seat.new.me ≡ (naming seat.old.me.0 (Lent word), []) }
    ensures frame { IsFrameOf seat.old.me.0.region word result }
{
    match words.exchange(seat, word, None) {
        Some(frame) => {
            words.fetch_sub::<Lend>(seat, frames, 1);
            frame
        }
        None => unreachable!(),
    }
}

/// Puts the frame of the word that the seat names without its slot into the pool.
pub(crate) fn put(words: &Words, seat: &mut Held, frames: usize, word: usize, frame: Frame)
    requires wide { IsWide words.now.table_id frames }
    requires word { word < frames }
    requires frame { IsFrameOf seat.old.me.0.region word frame }
    requires seat { (seat.old.table_id ≡ words.now.table_id) × (seat.old.me ≡ (naming seat.old.me.0 (Lent word), [])) }
    ensures seat { (seat.new.table_id ≡ seat.old.table_id) × (seat.new.id ≡ seat.old.id) }
    ensures idle { seat.new.me ≡ (returning seat.old.me.0, []) }
{
    words.fetch_add::<Fetch>(seat, frames, 1);
    match words.exchange(seat, word, Some(frame)) {
        None => words.store::<Return>(seat, word, IN),
        Some(_) => unreachable!(),
    }
}

/// Another seat, which names nothing, and has taken and put back nothing.
pub(crate) fn copy(words: &Words, seat: &mut Held, frames: usize) -> Held
    requires wide { IsWide words.now.table_id frames }
    requires seat { seat.old.table_id ≡ words.now.table_id }
    requires unspent { seat.old.me.0.named ≢ Spent }
    ensures seat { (seat.new.table_id ≡ seat.old.table_id) × (seat.new.id ≡ seat.old.id) × (seat.new.me ≡ seat.old.me) }
    ensures copy { (result.table_id ≡ seat.old.table_id) × (result.me ≡ (split_off seat.old.me.0, [])) }
{
    words.split_seat::<Copied>(seat)
}

/// Another seat, which names nothing and has the whole record. This one is for a loan.
fn replace(words: &Words, seat: &mut Held, frames: usize) -> Held
    requires wide { IsWide words.now.table_id frames }
    requires seat { seat.old.table_id ≡ words.now.table_id }
    requires unspent { seat.old.me.0.named ≢ Spent }
    ensures seat { (seat.new.table_id ≡ seat.old.table_id) × (seat.new.me ≡ (lending seat.old.me.0, seat.old.me.1)) }
    ensures other { (result.table_id ≡ seat.old.table_id) × (result.me ≡ (naming seat.old.me.0 Idle, [])) }
{
    words.split_seat::<Replaced>(seat)
}

/// Spends another seat, which names nothing. What that one took and put back counts here.
pub(crate) fn join(words: &Words, seat: &mut Held, other: Held, frames: usize)
    requires wide { IsWide words.now.table_id frames }
    requires seat { seat.old.table_id ≡ words.now.table_id }
    requires other { (other.table_id ≡ words.now.table_id) × (other.me ≡ (naming other.me.0 Idle, [])) }
    ensures seat { (seat.new.table_id ≡ seat.old.table_id) × (seat.new.me ≡ (joined seat.old.me.0 other.me.0, seat.old.me.1)) }
{
    words.join_seat::<Kept>(seat, other);
}

/// The seats of two loans, whose words are different. The second gets the first one's record.
pub(crate) fn part(
    words: &Words,
    mut first: Held,
    second: Held,
    frames: usize,
    one: usize,
    other: usize,
) -> (Held, Held)
    requires wide { IsWide words.now.table_id frames }
    requires first { (first.table_id ≡ words.now.table_id) × (first.me ≡ (naming first.me.0 (Lent one), [])) }
    requires second { (second.table_id ≡ words.now.table_id) × (second.me ≡ (naming second.me.0 (Lent other), [])) }
    ensures apart { one ≢ other }
    ensures first { (result.0.table_id ≡ first.table_id) × (result.0.me ≡ (naming first.me.0 (Lent one), [])) }
    ensures second { (result.1.table_id ≡ first.table_id) × (result.1.me ≡ (naming first.me.0 (Lent other), [])) }
{
    words.join_seat::<Together>(&mut first, second);
    words.load::<Compare>(&mut first, frames);
    let second = words.split_seat::<Apart>(&mut first);
    (first, second)
}

/// The word after it, round the end.
fn word_after(frames: usize, word: usize) -> usize
    requires { word < frames }
    ensures next { result ≡ next_round frames word }
    ensures word { result < frames }
{
    if word + 1 < frames { word + 1 } else { 0 }
}

/// Takes the first word that it finds in, with its slot, from `start` on and round the end.
pub(crate) fn find(words: &Words, seat: &mut Held, frames: usize, start: usize) -> Option<usize>
    requires wide { IsWide words.now.table_id frames }
    requires start { start < frames }
    requires seat { (seat.old.table_id ≡ words.now.table_id) × IsIdle seat.old.me }
    ensures seat { (seat.new.table_id ≡ seat.old.table_id) × (seat.new.id ≡ seat.old.id) }
    ensures none { IfNone result (IsIdle seat.new.me × (seat.new.me.0.region ≡ seat.old.me.0.region) × (seat.new.me.0.dry ≡ seat.old.me.0.dry + 1)) }
    ensures counts { IfNone result ((seat.new.me.0.taken ≡ seat.old.me.0.taken) × (seat.new.me.0.given ≡ seat.old.me.0.given)) }
    ensures word { IfSome result (λ word. word < frames) }
    ensures some { IfSome result (λ word. TookWord seat.old.me.0 word seat.new.me) }
{
    let mut word = start;
    for _tried in 0..frames {
        if claim(words, seat, frames, word) {
            return Some(word);
        }
        word = word_after(frames, word);
    }
    None
}

/// A frame, with the seat that names its word. A copy of that seat takes its place.
pub(crate) fn take(
    words: &Words,
    seat: &mut Held,
    frames: usize,
    start: usize,
) -> Option<(Frame, Held)>
    requires wide { IsWide words.now.table_id frames }
    requires start { start < frames }
    requires seat { (seat.old.table_id ≡ words.now.table_id) × IsIdle seat.old.me }
    ensures seat { (seat.new.table_id ≡ seat.old.table_id) × IsIdle seat.new.me × (seat.new.me.0.region ≡ seat.old.me.0.region) }
    ensures none { IfNone result (seat.new.me.0.dry ≡ seat.old.me.0.dry + 1) }
    ensures none_taken { IfNone result (seat.new.me.0.taken ≡ seat.old.me.0.taken) }
    ensures same { IfSome result (λ r. (seat.new.me.0.dry ≡ seat.old.me.0.dry) × (seat.new.me.0.taken ≡ seat.old.me.0.taken + 1)) }
    ensures given { seat.new.me.0.given ≡ seat.old.me.0.given }
    ensures some { IfSome result (λ r. (r.1.table_id ≡ seat.old.table_id) × (r.0.number < frames) × (r.0.region ≡ seat.old.me.0.region) × IsLending r.0.region r.0.number r.1.me) }
{
    if !has_spare(words, seat, frames) {
        return None;
    }
    let word = find(words, seat, frames, start)?;
    let frame = lend(words, seat, frames, word);
    let mine = replace(words, seat, frames);
    Some((frame, mem::replace(seat, mine)))
}
