ghost use Rattle.std.specs.Prelude.{◌≡◌, ◌<◌, ◌≤◌, None, Some};
ghost use Rattle.essa_state.specs.PageBody.{FitsWord};
ghost use Rattle.words_tests.specs.Sheets.{sheet_body, house_of};

use crate::sheet::Sheet;
use cmm_types::{Content, Move};
use essa_state::{Order, Word, apply_order, reclaiming_move};
use state_words::{GuestSeat, HostSeat, Words};

// Uses the held page, and gives it back as one that the host may discard, or mayn't.
fn use_page(
    words: &Words<Sheet>,
    seat: &mut GuestSeat<Sheet>,
    page: u32,
    keeps: bool,
    word: Word,
    mut sheet: Sheet,
)
    requires words { seat.old.words ≡ words.now }
    requires held { seat.old.view.held ≡ Some (record { page = page; word = word; body = sheet_body sheet }) }
    requires housed { house_of sheet ≡ words.now.house }
    ensures words { seat.new.words ≡ words.now }
    ensures none_held { seat.new.view.held ≡ None }
{
    let (stable, _) = apply_order(word, Order::SetStable);
    let touched = sheet.touch(stable);
    let code = if keeps {
        Order::Get
    } else {
        Order::SetVolatile
    };
    let (left, _) = apply_order(touched, code);
    seat.release(words, page, left, sheet);
}

/// Claims the page, uses it and gives it back, so many times. Answers how often the page was busy.
pub fn guest_turns(words: &Words<Sheet>, seat: &mut GuestSeat<Sheet>, page: u32, turns: u32) -> u32
    requires words { seat.old.words ≡ words.now }
    requires page { page < words.now.pages }
    requires none_held { seat.old.view.held ≡ None }
    ensures words { seat.new.words ≡ words.now }
    ensures none_held { seat.new.view.held ≡ None }
    ensures few { result ≤ turns }
{
    let mut busy = 0;
    for turn in 0..turns {
        match seat.claim(words, page) {
            Err(_) => busy += 1,
            Ok((word, sheet)) => use_page(words, seat, page, turn % 3 == 0, word, sheet),
        }
    }
    busy
}

// Takes the frame of the held page, if it has one. Answers the move.
fn reclaim(
    words: &Words<Sheet>,
    seat: &mut HostSeat<Sheet>,
    page: u32,
    word: Word,
    mut sheet: Sheet,
) -> Option<Move>
    requires words { seat.old.words ≡ words.now }
    requires held { seat.old.view.held ≡ Some (record { page = page; word = word; body = sheet_body sheet }) }
    requires fits { FitsWord word (sheet_body sheet) }
    requires housed { house_of sheet ≡ words.now.house }
    ensures words { seat.new.words ≡ words.now }
    ensures none_held { seat.new.view.held ≡ None }
{
    if word.content() != Content::Resident {
        seat.release(words, page, None, sheet);
        return None;
    }
    if reclaiming_move(word) == Move::Discard {
        sheet.discard();
        seat.release(words, page, Some(Move::Discard), sheet);
        return Some(Move::Discard);
    }
    sheet.preserve();
    seat.release(words, page, Some(Move::Preserve), sheet);
    Some(Move::Preserve)
}

/// Claims the page and takes its frame, so many times. Answers how often that was a discard.
pub fn reclaim_turns(words: &Words<Sheet>, seat: &mut HostSeat<Sheet>, page: u32, turns: u32) -> u32
    requires words { seat.old.words ≡ words.now }
    requires page { page < words.now.pages }
    requires none_held { seat.old.view.held ≡ None }
    ensures words { seat.new.words ≡ words.now }
    ensures none_held { seat.new.view.held ≡ None }
    ensures few { result ≤ turns }
{
    let mut discards = 0;
    for _ in 0..turns {
        if let Ok((word, sheet)) = seat.claim(words, page) {
            if reclaim(words, seat, page, word, sheet) == Some(Move::Discard) {
                discards += 1;
            }
        }
    }
    discards
}
