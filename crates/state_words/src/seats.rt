// The calls of a seat, which are the same for the guest's and the host's.
ghost use Rattle.std.specs.Prelude.{◌≡◌, ◌<◌, [], ◌∷◌, true, false, None, IfOk, IfErr};
ghost use Rattle.std.specs.Option.{ForSome};
ghost use Rattle.essa_state.specs.PageBody.{actual};
ghost use Rattle.state_words.specs.SeatView.{Host, Left, Moved, is_spent, is_guest, HoldsPage, host_first};
ghost use Rattle.state_words.specs.Accesses.{Leads};
ghost use Rattle.state_words.specs.Steps.{IsAllowedOn, IsMovedBody, word_after, released_view};
ghost use Rattle.state_words.specs.Plays.{IsClaimed, IsBusyFound, LooksAt};

use crate::rule::{
    Apart, Body, Claim, Founding, Knowledge, Leave, Look, MoveOf, MoveOn, Ruled, Spend,
};
use atomic_table::{Seat, Shared};
use cmm_storage::Busy;
use cmm_types::Move;
use essa_state::{Word, unpack};
use std::marker::Brand;

const BUSY: u64 = 64;

pub(crate) fn claim<B: Body>(
    shared: &Shared<Option<B>, Knowledge, Founding<B>, Ruled<B>>,
    seat: &mut Seat<Option<B>, Knowledge>,
    page: u32,
) -> Result<(Word, B), Busy>
    requires table { seat.old.table_id ≡ shared.now.table_id }
    requires page { page < shared.now.table_id.words }
    requires slot { page < shared.now.table_id.slots }
    requires idle { (seat.old.me.0.held ≡ None) × (seat.old.me.1 ≡ []) }
    requires used { is_spent seat.old.me.0.role ≡ false }
    ensures same { (seat.new.table_id ≡ seat.old.table_id) × (seat.new.id ≡ seat.old.id) }
    ensures claimed { IfOk result (λ r. IsClaimed B.body B.house page seat.old.me r.0 r.1 seat.new.me) }
    ensures busy { IfErr result (λ e. IsBusyFound page seat.old.me e.word seat.new.me) }
{
    let found = shared.fetch_or::<Claim<B>>(seat, page as usize, BUSY);
    match unpack(found) {
        None => unreachable!(),
        Some(word) => {
            if word.busy() {
                Err(Busy { word: found })
            } else {
                match shared.exchange(seat, page as usize, None) {
                    Some(body) => Ok((word, body)),
                    None => unreachable!(),
                }
            }
        }
    }
}

pub(crate) fn look<B: Body>(
    shared: &Shared<Option<B>, Knowledge, Founding<B>, Ruled<B>>,
    seat: &mut Seat<Option<B>, Knowledge>,
    page: u32,
) -> Word
    requires table { seat.old.table_id ≡ shared.now.table_id }
    requires page { page < shared.now.table_id.words }
    requires slot { page < shared.now.table_id.slots }
    ensures same { (seat.new.table_id ≡ seat.old.table_id) × (seat.new.id ≡ seat.old.id) }
    ensures looks { LooksAt page seat.old.me result seat.new.me }
{
    match unpack(shared.load::<Look>(seat, page as usize)) {
        None => unreachable!(),
        Some(word) => word,
    }
}

pub(crate) fn leave<B: Body>(
    shared: &Shared<Option<B>, Knowledge, Founding<B>, Ruled<B>>,
    seat: &mut Seat<Option<B>, Knowledge>,
    page: u32,
    word: Word,
    body: B,
)
    requires table { seat.old.table_id ≡ shared.now.table_id }
    requires page { page < shared.now.table_id.words }
    requires guest { is_guest seat.old.me.0.role ≡ true }
    requires held { HoldsPage seat.old.me.0 page × (seat.old.me.1 ≡ (page, None) ∷ []) }
    requires leads { ForSome seat.old.me.0.held (λ h. Leads h.word h.body word (B.body body)) }
    requires housed { B.house body ≡ seat.old.me.0.house }
    ensures same { (seat.new.table_id ≡ seat.old.table_id) × (seat.new.id ≡ seat.old.id) }
    ensures view { seat.new.me ≡ (released_view seat.old.me.0 page (actual word (B.body body)) (Left page), []) }
{
    match shared.exchange(seat, page as usize, Some(body)) {
        None => {}
        Some(_) => unreachable!(),
    }
    shared.store::<Leave<B>>(seat, page as usize, word.raw());
}

fn store_move<B: Body, A: MoveOf>(
    shared: &Shared<Option<B>, Knowledge, Founding<B>, Ruled<B>>,
    seat: &mut Seat<Option<B>, Knowledge>,
    page: u32,
    action: Option<Move>,
    word: Word,
    body: B,
)
    requires action { A.action ≡ action }
    requires table { seat.old.table_id ≡ shared.now.table_id }
    requires page { page < shared.now.table_id.words }
    requires host { seat.old.me.0.role ≡ Host }
    requires held { HoldsPage seat.old.me.0 page × (seat.old.me.1 ≡ (page, None) ∷ []) }
    requires allowed { ForSome seat.old.me.0.held (λ h. IsAllowedOn action h.word) }
    requires word { ForSome seat.old.me.0.held (λ h. word ≡ word_after action h.word) }
    requires body { ForSome seat.old.me.0.held (λ h. IsMovedBody action h (B.body body)) }
    requires housed { B.house body ≡ seat.old.me.0.house }
    ensures same { (seat.new.table_id ≡ seat.old.table_id) × (seat.new.id ≡ seat.old.id) }
    ensures view { seat.new.me ≡ (released_view seat.old.me.0 page (actual word (B.body body)) (Moved page action), []) }
{
    match shared.exchange(seat, page as usize, Some(body)) {
        None => {}
        Some(_) => unreachable!(),
    }
    shared.store::<MoveOn<B, A>>(seat, page as usize, word.raw());
}

pub(crate) fn move_on<B: Body>(
    shared: &Shared<Option<B>, Knowledge, Founding<B>, Ruled<B>>,
    seat: &mut Seat<Option<B>, Knowledge>,
    page: u32,
    action: Option<Move>,
    word: Word,
    body: B,
)
    requires table { seat.old.table_id ≡ shared.now.table_id }
    requires page { page < shared.now.table_id.words }
    requires host { seat.old.me.0.role ≡ Host }
    requires held { HoldsPage seat.old.me.0 page × (seat.old.me.1 ≡ (page, None) ∷ []) }
    requires allowed { ForSome seat.old.me.0.held (λ h. IsAllowedOn action h.word) }
    requires word { ForSome seat.old.me.0.held (λ h. word ≡ word_after action h.word) }
    requires body { ForSome seat.old.me.0.held (λ h. IsMovedBody action h (B.body body)) }
    requires housed { B.house body ≡ seat.old.me.0.house }
    ensures same { (seat.new.table_id ≡ seat.old.table_id) × (seat.new.id ≡ seat.old.id) }
    ensures view { seat.new.me ≡ (released_view seat.old.me.0 page (actual word (B.body body)) (Moved page action), []) }
{
    store_move::<B, Brand>(shared, seat, page, action, word, body);
}

pub(crate) fn split<B: Body>(
    shared: &Shared<Option<B>, Knowledge, Founding<B>, Ruled<B>>,
    seat: &mut Seat<Option<B>, Knowledge>,
) -> Seat<Option<B>, Knowledge>
    requires table { seat.old.table_id ≡ shared.now.table_id }
    requires some_page { 0 < shared.now.table_id.words }
    requires used { is_spent seat.old.me.0.role ≡ false }
    ensures same { (seat.new.table_id ≡ seat.old.table_id) × (seat.new.id ≡ seat.old.id) × (seat.new.me ≡ seat.old.me) }
    ensures other { (result.table_id ≡ seat.old.table_id) × (result.me ≡ (host_first seat.old.me.0.house, [])) }
{
    shared.split_seat::<Apart>(seat)
}

pub(crate) fn join<B: Body>(
    shared: &Shared<Option<B>, Knowledge, Founding<B>, Ruled<B>>,
    seat: &mut Seat<Option<B>, Knowledge>,
    other: Seat<Option<B>, Knowledge>,
)
    requires table { (seat.old.table_id ≡ shared.now.table_id) × (other.table_id ≡ shared.now.table_id) }
    requires some_page { 0 < shared.now.table_id.words }
    requires idle { (other.me.0.held ≡ None) × (other.me.1 ≡ []) × (other.me.0.role ≡ Host) }
    ensures { (seat.new.table_id ≡ seat.old.table_id) × (seat.new.id ≡ seat.old.id) × (seat.new.me ≡ seat.old.me) }
{
    shared.join_seat::<Spend>(seat, other);
}
