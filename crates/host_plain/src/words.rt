// The state words of all pages, and what finds the victim among them.
ghost use Rattle.std.specs.Prelude.{◌≡◌, ◌<◌, ◌+◌, ◌-◌, ◌≤◌, Bool, length, replicate, true, false, IfOk, IfSome, IfNone, slice_index_or, slice_set};
ghost use Rattle.host_clock.specs.Victim.{is_candidate, is_takeable, victim_of, chosen_at};
ghost use Rattle.marks.specs.Marking.{wrapped};
ghost use Rattle.essa_state.specs.StateWord.{opening_word};
ghost use Rattle.host_plain.specs.Eviction.{aged_candidate, aged_words};
ghost use Rattle.host_plain.specs.Candidates.{NoCandidates};

use cmm_types::{Content, MAX_TOTAL_PAGES, Usage};
use essa_state::{Fields, Word};
use marks::Marks;
use std::alloc::{AllocError, Global};
use std::marker::Model;

/// The words of the pages, guest by guest and page by page. Contracts see them as a list of their fields. A victim is
/// found, and the words on the way to it are aged, without a look at each word.
#[derive(Drop)]
pub struct Words {
    words: Vec<Word>,
    // The resident pages that nobody holds, and those of them without the reference bit.
    candidates: Marks,
    unreferenced: Marks,
}

impl Model for Words {
    ghost use Rattle.std.specs.Prelude.{◌≡◌, List, map, false};
    ghost use Rattle.essa_state.specs.declared.fields.Fields.{Fields};
    ghost use Rattle.host_clock.specs.Victim.{is_candidate, is_takeable};

    ghost Value = { List Fields };

    ghost view = { λ w. w.words.items };

    ghost invariant = { λ w. (w.candidates ≡ map is_candidate w.words.items) × (w.unreferenced ≡ map (is_takeable false) w.words.items) };
}

// The place, where the first of `count` places follows the last.
fn wrapped(place: usize, count: usize) -> usize
    requires { place < count + count }
    ensures wrapped { result ≡ wrapped count place }
    ensures within { result < count }
{
    if place < count { place } else { place - count }
}

fn is_candidate(word: Word) -> bool
    ensures { result ≡ is_candidate word }
{
    word.content() == Content::Resident && !word.busy()
}

fn is_unreferenced(word: Word) -> bool
    ensures { result ≡ is_takeable false word }
{
    word.content() == Content::Resident && !word.busy() && !word.referenced()
}

fn aged_candidate(word: Word) -> Word
    ensures { result ≡ aged_candidate word }
{
    let fields = word.fields();
    if fields.content == Content::Resident && !fields.busy {
        Word::new(Fields {
            referenced: false,
            ..fields
        })
    } else {
        word
    }
}

impl Words {
    /// The words of so many unused pages without contents.
    pub fn open(alloc: Global, count: usize) -> Result<Words, AllocError>
        requires { count ≤ MAX_TOTAL_PAGES }
        ensures { IfOk result (λ words. words ≡ replicate count opening_word) }
    {
        let word = Word::new(Fields {
            usage: Usage::U,
            content: Content::Zero,
            referenced: false,
            changed: false,
            busy: false,
            count: 0,
        });
        Ok(Words {
            words: vec![in alloc; word; count]?,
            candidates: Marks::open(alloc, count)?,
            unreferenced: Marks::open(alloc, count)?,
        })
    }

    pub fn as_slice(&self) -> &[Word]
        ensures { result.now ≡ self.now }
    {
        self.words.as_slice()
    }

    pub fn len(&self) -> usize
        ensures { result ≡ length self.now }
    {
        self.words.len()
    }

    pub fn get(&self, place: usize) -> Word
        requires { place < length self.now }
        ensures { result ≡ slice_index_or self.now place opening_word }
    {
        self.words[place]
    }

    pub fn set(&mut self, place: usize, word: Word)
        requires { place < length self.old }
        ensures { self.new ≡ slice_set self.old place word }
    {
        self.candidates.set(place, is_candidate(word));
        self.unreferenced.set(place, is_unreferenced(word));
        self.words[place] = word;
    }

    // The place of the victim.
    fn victim_place(&self, hand: usize) -> Option<usize>
        requires { hand < length self.now }
        ensures { chosen_at (length self.now) result ≡ victim_of self.now hand }
    {
        match self.unreferenced.first(hand) {
            Some(place) => Some(place),
            None => self.candidates.first(hand),
        }
    }

    /// The page that a frame is taken from, and the hand after it, as `host_clock::victim` chooses them.
    pub fn victim(&self, hand: usize) -> Option<(usize, usize)>
        requires { hand < length self.now }
        ensures chosen { result ≡ victim_of self.now hand }
        ensures within { IfSome result (λ v. (v.0 < length self.now) × (v.1 < length self.now)) }
        ensures candidate { IfSome result (λ v. is_candidate (slice_index_or self.now v.0 opening_word) ≡ true) }
    {
        match self.victim_place(hand) {
            Some(place) => Some((place, wrapped(place + 1, self.words.len()))),
            None => None,
        }
    }

    // The first candidate from `from` on, below `to`.
    fn next_candidate(&self, from: usize, to: usize) -> Option<usize>
        requires { to ≤ length self.now }
        ensures none { IfNone result (NoCandidates self.now from to) }
        ensures within { IfSome result (λ place. (from ≤ place) × (place < to)) }
        ensures first { IfSome result (λ place. NoCandidates self.now from place) }
    {
        self.candidates.next(from, to)
    }

    // Ages the candidates from one place on and below another.
    fn age_between(&mut self, from: usize, to: usize)
        requires order { from ≤ to }
        requires within { to ≤ length self.old }
        ensures { self.new ≡ aged_words self.old from (to - from) }
    {
        let mut start = from;
        while let Some(place) = self.next_candidate(start, to) {
            let aged = aged_candidate(self.get(place));
            self.set(place, aged);
            start = place + 1;
        }
    }

    /// Ages the candidates among `count` words from the hand on.
    pub fn age(&mut self, hand: usize, count: usize)
        requires hand { hand < length self.old }
        requires count { count ≤ length self.old }
        ensures { self.new ≡ aged_words self.old hand count }
    {
        let behind = self.words.len() - hand;
        if count <= behind {
            self.age_between(hand, hand + count);
        } else {
            self.age_between(hand, hand + behind);
            self.age_between(0, count - behind);
        }
    }
}
