//! That the numbers which a report tells of a world fit its text. A number is known to fit where it is read, so each is
//! read once; nothing else is done.
ghost use Rattle.std.specs.Prelude.{ℕ, ◌<◌, ◌^◌, length, All};
ghost use Rattle.cmm_check.specs.Answers.{TurnFits, AloneFits, AnswerFits};
ghost use Rattle.cmm_world.specs.WorldView.{discards_of};

use crate::report::discards;
use cmm_types::{Alone, Answer, Turn};
use cmm_world::World;

fn read_turn(turn: &Turn)
    ensures { TurnFits turn.now }
{
    match turn {
        Turn::Waits { page, owner } => {
            let _numbers = (*page, *owner);
        }
        Turn::Moved | Turn::Finished | Turn::Again { .. } | Turn::Idle => {}
    }
}

fn read_alone(alone: &Alone)
    ensures { AloneFits alone.now }
{
    match alone {
        Alone::Finished { turns } => {
            let _turns = *turns;
        }
        Alone::Waits { turns, page, owner } => {
            let _numbers = (*turns, *page, *owner);
        }
        Alone::Idle => {}
    }
}

fn read_answer(answer: &Answer)
    ensures { AnswerFits answer.now }
{
    match answer {
        Answer::Turn(turn) => read_turn(turn),
        Answer::Alone(alone) => read_alone(alone),
        Answer::Reclaimed { count, .. } => {
            let _count = *count;
        }
        Answer::HostDone | Answer::HostRefused(_) | Answer::HostPaging => {}
    }
}

pub fn read_answers(answers: &[Answer])
    ensures { All AnswerFits answers.now }
{
    for answer in answers {
        read_answer(answer);
    }
}

pub fn read_discards(world: &World)
    ensures { (guest : ℕ) → guest < length world.now.state.guests → discards_of world.now.state guest < 2 ^ 64 }
{
    for guest in 0..world.guests() {
        let _ = discards(world, guest);
    }
}
