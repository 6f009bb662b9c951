ghost use Rattle.std.specs.Prelude.{◌≡◌, true, Ok, Err, IfOk, is_ok};
ghost use Rattle.cmm_types.specs.declared.page.Content.TheVariants.{Resident};
ghost use Rattle.essa_state.specs.declared.fields.Fields.{Fields};
ghost use Rattle.essa_state.specs.Moves.{move_answer, discard_answer, preserve_answer, reclaiming, discarded};
ghost use Rattle.essa_state.specs.PageValue.{MayBecome};
ghost use Rattle.essa_state.specs.PageBody.{Body, HostMove, FitsWord, actual};

use crate::fields::{Fields, LAST_COUNT};
use crate::word::Word;
use cmm_types::{Content, Move, Refused, Usage};

fn discard(fields: Fields) -> Result<Fields, Refused>
    ensures { result ≡ discard_answer fields }
{
    if fields.usage == Usage::S {
        return Err(Refused::Stable);
    }
    if fields.usage == Usage::P && fields.changed {
        return Err(Refused::Changed);
    }
    if fields.content == Content::Zero {
        return Err(Refused::Absent);
    }
    let counts = fields.usage != Usage::U;
    if counts && fields.count == LAST_COUNT {
        return Err(Refused::Counted);
    }
    Ok(Fields {
        content: Content::Zero,
        referenced: false,
        changed: false,
        count: if counts {
            fields.count + 1
        } else {
            fields.count
        },
        ..fields
    })
}

fn preserve(fields: Fields) -> Result<Fields, Refused>
    ensures { result ≡ preserve_answer fields }
{
    if fields.content != Content::Resident {
        return Err(Refused::Absent);
    }
    if fields.usage == Usage::U {
        return Err(Refused::Volatile);
    }
    if fields.usage == Usage::V && fields.count < LAST_COUNT {
        return Err(Refused::Volatile);
    }
    Ok(Fields {
        content: Content::Preserved,
        referenced: false,
        ..fields
    })
}

fn moved(fields: Fields, action: Move) -> Result<Fields, Refused>
    ensures { result ≡ move_answer fields action }
{
    match action {
        Move::Discard => discard(fields),
        Move::Preserve => preserve(fields),
        Move::Bring => {
            if fields.content == Content::Preserved {
                Ok(Fields {
                    content: Content::Resident,
                    ..fields
                })
            } else {
                Err(Refused::Absent)
            }
        }
        Move::Age => {
            if fields.content == Content::Resident {
                Ok(Fields {
                    referenced: false,
                    ..fields
                })
            } else {
                Err(Refused::Absent)
            }
        }
    }
}

/// The word after the move. A refusal comes by the first reason that fits, and changes nothing.
#[tactic(auto, using(crate::specs::Laws::WordLaws::moved_permitted))]
pub fn host_move(word: Word, action: Move) -> Result<Word, Refused>
    ensures answer { result ≡ move_answer word action }

    // Whatever the page's body is, the page becomes what its guest has to expect.
    ensures value { (body : Body) (word' : Fields) (body' : Body) → HostMove word body action word' body'
        → MayBecome (actual word body) (actual word' body') }
    ensures fits { (body : Body) (word' : Fields) (body' : Body) → FitsWord word body → HostMove word body action word' body'
        → FitsWord word' body' }
{
    match moved(word.fields(), action) {
        Ok(fields) => Ok(Word::new(fields)),
        Err(why) => Err(why),
    }
}

/// The move by which a host gets the frame of a resident page: Discard where it isn't refused, and Preserve
/// otherwise.
pub fn reclaiming_move(word: Word) -> Move
    ensures chosen { result ≡ reclaiming word }
    ensures allowed { word.content ≡ Resident → is_ok (move_answer word result) ≡ true }
{
    if discard(word.fields()).is_ok() {
        Move::Discard
    } else {
        Move::Preserve
    }
}
