// Two seats at two pages.
ghost use Rattle.std.specs.Prelude.{◌≡◌, Some, None, []};
ghost use Rattle.state_words.specs.SeatView.{no_view};

use crate::{Body, GuestSeat, Words};
use cmm_storage::Busy;
use essa_state::{Order, Word, apply_order};
use std::test::Fail;

// A body without a frame, with a number of its own.
#[derive(Debug, Drop)]
struct Numbered {
    number: u32,
}

impl Body for Numbered {
    ghost use Rattle.std.specs.Prelude.{[], None};
    ghost use Rattle.state_words.specs.SeatView.{no_view};

    ghost body = { λ b. record { frame = None; block = [] } };

    ghost house = { λ b. no_view.house };

    fn lose(self) {
        drop(self);
    }
}

fn is_shared<T: Sync>(_value: &T) {}

fn is_sent<T: Send>(_value: &T) {}

fn leave_stable(
    words: &Words<Numbered>,
    seat: &mut GuestSeat<Numbered>,
    page: u32,
    word: Word,
    body: Numbered,
)
    requires words { seat.old.words ≡ words.now }
    requires held { seat.old.view.held ≡ Some (record { page = page; word = word; body = record { frame = None; block = [] } }) }
    requires housed { no_view.house ≡ words.now.house }
    ensures { seat.new.words ≡ words.now }
{
    let (stable, _) = apply_order(word, Order::SetStable);
    seat.release(words, page, stable, body);
}

#[test]
fn a_second_claim_finds_the_page_busy(rt: HostRuntime) -> Result<(), Fail> {
    let mut bodies = Vec::new(rt.alloc());
    bodies.push(Numbered { number: 0 })?;
    bodies.push(Numbered { number: 1 })?;
    let (words, mut guest, mut host) = Words::open(rt.alloc(), bodies)?;
    is_shared(&words);
    is_sent(&words);
    is_sent(&guest);
    is_sent(&host);
    assert!(rt; words.pages() == 2);
    match guest.claim(&words, 0) {
        Err(_) => assert!(rt; false),
        Ok((word, body)) => {
            assert!(rt; word.raw() == 9 && body.number == 0);
            match host.claim(&words, 0) {
                Err(Busy { word }) => assert!(rt; word == 73),
                Ok(_) => assert!(rt; false),
            }
            assert!(rt; host.look(&words, 0).raw() == 73 && host.look(&words, 1).raw() == 9);
            leave_stable(&words, &mut guest, 0, word, body);
            assert!(rt; guest.look(&words, 0).raw() == 8);
        }
    }
    Ok(())
}
