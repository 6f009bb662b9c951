use crate::{Sheet, guest_turns, reclaim_turns};
use state_words::Words;
use std::test::Fail;
use std::thread::join_mut;

const TURNS: u32 = 100_000;

#[test]
fn the_word_counts_the_discards_of_another_thread(rt: HostRuntime) -> Result<(), Fail> {
    let mut sheets = Vec::new(rt.alloc());
    sheets.push(Sheet::new(7))?;
    sheets.push(Sheet::new(7))?;
    let mut home = Vec::with_capacity(rt.alloc(), 2)?;
    let (words, mut guest, mut host) = Words::open(rt.alloc(), sheets)?;
    let (busy, discards) = join_mut(
        &rt,
        &mut || guest_turns(&words, &mut guest, 0, TURNS),
        &mut || reclaim_turns(&words, &mut host, 0, TURNS),
    );
    assert!(rt; busy <= TURNS && discards <= TURNS);
    assert!(rt; host.look(&words, 0).count() == discards);
    assert!(rt; words.close(guest, host, &mut home) == 0);
    assert!(rt; home.len() == 2);
    Ok(())
}
