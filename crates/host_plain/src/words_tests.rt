// The words with their marks against a plain search and a plain pass over the words.
use crate::words::Words;
use cmm_types::{Content, Usage};
use essa_state::{Fields, Word};
use host_clock::victim;
use std::alloc::{AllocError, Global};
use std::test::Fail;

/// One of eight words: resident or not, referenced or not, and busy or not.
fn word_of(kind: u64) -> Word {
    let busy = kind / 4 % 2 == 0;
    if kind % 2 == 0 {
        Word::new(Fields {
            usage: Usage::S,
            content: Content::Resident,
            referenced: kind / 2 % 2 == 0,
            changed: false,
            busy,
            count: 0,
        })
    } else {
        Word::new(Fields {
            usage: Usage::S,
            content: Content::Zero,
            referenced: false,
            changed: false,
            busy,
            count: 0,
        })
    }
}

/// Ages the word, if its page may be taken.
fn age_one(plain: &mut [Word], place: usize) {
    if place >= plain.len() {
        return;
    }
    let fields = plain[place].fields();
    if fields.content == Content::Resident && !fields.busy {
        plain[place] = Word::new(Fields {
            referenced: false,
            ..fields
        });
    }
}

/// Puts the drawn word at the drawn place of both.
fn put(words: &mut Words, plain: &mut [Word], draw: u64) {
    let places = words.len();
    if places == 0 || plain.len() != places {
        return;
    }
    let place = (draw % 1_048_576) as usize % places;
    let word = word_of(draw / 1_048_576);
    words.set(place, word);
    plain[place] = word;
}

/// Ages as many words as were drawn from the drawn hand on.
fn age(words: &mut Words, plain: &mut [Word], draw: u64) {
    let places = words.len();
    if places == 0 || plain.len() != places {
        return;
    }
    let hand = (draw % 1_048_576) as usize % places;
    let count = (draw / 1_048_576) as usize % places;
    words.age(hand, count);
    for step in 0..count {
        age_one(plain, (hand + step) % places);
    }
}

/// Whether both choose the same victim from the drawn hand on.
fn agree(words: &Words, plain: &[Word], draw: u64) -> bool {
    let places = words.len();
    if places == 0 || plain.len() != places {
        return false;
    }
    let hand = (draw % 1_048_576) as usize % places;
    words.victim(hand) == victim(plain, hand)
}

/// Whether all of so many drawn changes left both with the same words and the same victims. One change in eight ages.
fn same_for(alloc: Global, places: usize, changes: u32) -> Result<bool, AllocError> {
    if places > 65_536 {
        return Ok(false);
    }
    let mut words = Words::open(alloc, places)?;
    let mut plain = Vec::from_slice(alloc, words.as_slice())?;
    let mut draw = 1_u64;
    let mut same = true;
    for change in 0..changes {
        draw = draw
            .wrapping_mul(6_364_136_223_846_793_005)
            .wrapping_add(1_442_695_040_888_963_407);
        if change % 8 == 7 {
            age(&mut words, &mut plain, draw / 8);
        } else {
            put(&mut words, &mut plain, draw / 8);
        }
        same = same && agree(&words, &plain, draw / 8192);
    }
    for (word, other) in words.as_slice().iter().zip(plain.iter()) {
        same = same && word.raw() == other.raw();
    }
    Ok(same)
}

#[test]
fn marks_choose_and_age_as_a_pass_over_the_words(rt: HostRuntime) -> Result<(), Fail> {
    for (places, changes) in [
        (1, 20),
        (5, 200),
        (64, 300),
        (65, 300),
        (4_097, 400),
        (9_000, 400),
    ] {
        assert!(rt; same_for(rt.alloc(), places, changes)?, "{places} places");
    }
    Ok(())
}
