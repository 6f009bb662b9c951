ghost use Rattle.std.specs.Prelude.{◌≡◌, ◌<◌, ◌^◌, ◌+◌, ◌≤◌, length, None, IfOk, IfErr, All, vec_len, vec_capacity};
ghost use Rattle.atomic_table.specs.Seated.{TableId};
ghost use Rattle.essa_state.specs.StateWord.{IsWord, opening_word};
ghost use Rattle.state_words.specs.SeatView.{guest_first, host_first, words_at, IsGuestSeat, IsHostSeat};
ghost use Rattle.state_words.specs.Closing.{is_busy_number, IsLast, HasComeBack};
ghost use Rattle.state_words.specs.WordsRule.{FitsStart};

use crate::guest_seat::GuestSeat;
use crate::host_seat::HostSeat;
use crate::rule::{Body, Founding, Knowledge, Ruled};
use crate::seats::split;
use crate::slots::{put_in, take_out};
use atomic_table::{Refused, Shared, Table};
use cmm_types::{Content, Usage};
use essa_state::{Fields, Word, unpack};
use std::alloc::Global;
use std::marker::Model;
use std::snapshot::Snapshot;

/// One guest's state words and the bodies of its pages. Contracts see which words they are, how many pages they have,
/// and the house of their bodies.
#[derive(Drop)]
pub struct Words<B: Body> {
    table: Table<Option<B>, Knowledge, Founding<B>, Ruled<B>, Global>,
}

impl<B: Body> Model for Words<B> {
    ghost use Rattle.std.specs.Prelude.{◌≡◌, ◌<◌, ◌^◌};
    ghost use Rattle.state_words.specs.SeatView.{WordsView, words_at};

    ghost Value = { WordsView };

    ghost view = { λ w. words_at w.table.shared.table_id (B.house w.table.shared.key.like.value) };

    ghost invariant = { λ w. (w.table.shared.table_id.slots ≡ w.table.shared.table_id.words) × (0 < w.table.shared.table_id.words) × (w.table.shared.table_id.words < 2 ^ 32) };
}

/// There was no memory. The bodies come back.
#[derive(Debug, Drop)]
pub struct NoWords<B> {
    pub bodies: Vec<B>,
}

fn opening_word() -> Word
    ensures { result ≡ opening_word }
{
    Word::new(Fields {
        usage: Usage::U,
        content: Content::Zero,
        referenced: false,
        changed: false,
        busy: false,
        count: 0,
    })
}

impl<B: Body> Words<B> {
    /// Each page starts unused, without contents, and with a body that fits that. All bodies are of one house. `Err` is
    /// want of memory and nothing else.
    pub fn open(
        alloc: Global,
        mut bodies: Vec<B>,
    ) -> Result<(Words<B>, GuestSeat<B>, HostSeat<B>), NoWords<B>>
        requires some { 0 < length bodies.items }
        requires most { length bodies.items < 2 ^ 32 }
        requires start { (house : TableId) × All (FitsStart B.body B.house house) bodies.items }
        ensures pages { IfOk result (λ t. t.0.pages ≡ length bodies.items) }
        ensures housed { IfOk result (λ t. All (FitsStart B.body B.house t.0.house) bodies.items) }
        ensures seats { IfOk result (λ t. (t.1.words ≡ t.0) × (t.2.words ≡ t.0)) }
        ensures guest { IfOk result (λ t. t.1.view ≡ guest_first t.0.pages t.0.house) }
        ensures guest_seat { IfOk result (λ t. IsGuestSeat t.1) }
        ensures host { IfOk result (λ t. t.2.view ≡ host_first t.0.house) }
        ensures host_seat { IfOk result (λ t. IsHostSeat t.2) }
        ensures same { IfErr result (λ e. e.bodies.items ≡ bodies.items) }
    {
        let count = bodies.len();
        let Ok(numbers) = vec![in alloc; 9; count] else {
            return Err(NoWords { bodies });
        };
        let Ok(mut slots) = Vec::with_capacity(alloc, count) else {
            return Err(NoWords { bodies });
        };
        let key = Founding {
            pages: count as u32,
            like: Snapshot::of(&bodies[0]),
        };
        put_in(&mut bodies, &mut slots);
        match Table::new(alloc, numbers.as_slice(), slots, &key) {
            Ok((table, mut seat)) => {
                bodies.destroy_empty();
                let words = Words { table };
                let host = split(words.shared(), &mut seat);
                let guest = GuestSeat::new(seat);
                let host = HostSeat::new(host, opening_word());
                Ok((words, guest, host))
            }
            Err(Refused { slots }) => {
                take_out(slots, &mut bodies);
                Err(NoWords { bodies })
            }
        }
    }

    /// The number of pages.
    pub fn pages(&self) -> u32
        ensures { result ≡ self.now.pages }
    {
        self.table.word_count() as u32
    }

    pub(crate) fn shared(&self) -> &Shared<Option<B>, Knowledge, Founding<B>, Ruled<B>>
        ensures words { self.now ≡ words_at result.now.table_id (B.house result.now.key.like.value) }
        ensures slots { result.now.table_id.slots ≡ result.now.table_id.words }
        ensures some { 0 < result.now.table_id.words }
    {
        &self.table.shared
    }
}

// Whether a word has the busy bit.
fn is_busy(raw: u64) -> bool
    requires { IsWord raw }
    ensures { result ≡ is_busy_number raw }
{
    match unpack(raw) {
        Some(word) => word.busy(),
        None => unreachable!(),
    }
}

// Spends what the slot of a busy word still has, of which the rule says nothing.
fn lose<B: Body>(slot: Option<B>) {
    if let Some(body) = slot {
        body.lose();
    }
}

impl<B: Body> Words<B> {
    /// Moves every body that is at home into the list, which has room for all. Answers how many words are busy, which
    /// are those of pages that other seats held when they were dropped. What the slots of these still have is lost.
    pub fn close(self, guest: GuestSeat<B>, host: HostSeat<B>, into: &mut Vec<B>) -> u32
        requires guest { guest.words ≡ self }
        requires host { host.words ≡ self }
        requires guest_none_held { guest.view.held ≡ None }
        requires host_none_held { host.view.held ≡ None }
        requires room { vec_len into.old + self.pages ≤ vec_capacity into.old }
        ensures bodies { HasComeBack B.house self.house into.old.items into.new.items result self.pages }
        ensures last { IsLast B.body B.house self guest.view result }
        ensures capacity { vec_capacity into.new ≡ vec_capacity into.old }
    {
        let seat = guest.into_seat();
        let Words { table } = self;
        let mut closed = table.close_with(seat);
        let mut busy = 0;
        for page in 0..closed.slot_count() {
            let held = is_busy(closed.word(page));
            let slot = closed.take(page);
            if held {
                busy += 1;
                lose(slot);
            } else {
                match slot {
                    Some(body) => into.push_reserved(body),
                    None => unreachable!(),
                }
            }
        }
        closed.free();
        drop(host);
        busy
    }
}
