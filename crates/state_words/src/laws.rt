// What the rule says of the words in plain words.
ghost use Rattle.std.specs.Prelude.{◌≡◌, ◌<◌, ◌↔◌, ℕ, List, Option, length, slice_index, true};
ghost use mathlib.Core.Option.{some};
ghost use lib.ListN.{get_elem?};
ghost use Rattle.essa_state.specs.PageValue.{PageValue};
ghost use Rattle.atomic_table.specs.Table.{State};
ghost use Rattle.atomic_table.specs.Seated.{TableId};
ghost use Rattle.state_words.specs.SeatView.{Guest, SeatView};
ghost use Rattle.state_words.specs.WordsRule.{WordsRule, SeatHolds, HasHolder};
ghost use Rattle.state_words.specs.Closing.{is_busy_number};

use crate::rule::Body;

/// Wherever the rule stands, a word is busy exactly where some seat holds its page, no page is held by two seats, and
/// no two seats are the guest's.
pub fn one_seat_holds<B: Body>()
    ensures busy { (house : TableId) (s : State (Option B) SeatView) (page : ℕ) → WordsRule B.body B.house house s → page < length s.words
        → ((is_busy_number (slice_index s.words page) ≡ true) ↔ HasHolder s.views page) }
    ensures one_holder { (house : TableId) (s : State (Option B) SeatView) (page i j : ℕ) → WordsRule B.body B.house house s
        → SeatHolds s.views i page → SeatHolds s.views j page → i ≡ j }
    ensures one_guest { (house : TableId) (s : State (Option B) SeatView) (i j : ℕ) (v w : SeatView) (vs ws : List PageValue) → WordsRule B.body B.house house s
        → get_elem? s.views i ≡ some v → v.role ≡ Guest vs → get_elem? s.views j ≡ some w → w.role ≡ Guest ws → i ≡ j }
{}
