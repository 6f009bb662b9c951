// What a pool's table begins with, and the frames back where there was no memory for it.
ghost use Rattle.std.specs.Prelude.{◌≡◌, ℕ, ◌+◌, ◌≤◌, ◌++◌, ◌∷◌, [], All, Some, map, replicate, IsSome, IfOk, IfErr, vec_len, vec_capacity};

use crate::pool::NoPool;
use cmm_types::Items;
use page_arena::Frame;
use std::alloc::{AllocError, Global};

/// A word 0 for each frame, and behind them their number.
fn words_of(alloc: Global, frames: usize) -> Result<Vec<u64>, AllocError>
    ensures { IfOk result (λ words. words.items ≡ replicate frames 0 ++ frames ∷ []) }
{
    let mut words = vec![in alloc; 0; frames]?;
    words.push(frames as u64)?;
    Ok(words)
}

/// A slot for each frame, and the list that the frames stood in, which is empty and has room for them.
fn slots_of(
    alloc: Global,
    mut frames: Vec<Frame>,
) -> Result<(Vec<Option<Frame>>, Vec<Frame>), NoPool>
    ensures slots { IfOk result (λ made. made.0.items ≡ map (λ f. Some f) frames.items) }
    ensures room { IfOk result (λ made. (made.1.items ≡ []) × (vec_len frames ≤ vec_capacity made.1)) }
    ensures back { IfErr result (λ e. e.frames ≡ frames.items) }
{
    let Ok(mut slots) = Vec::with_capacity(alloc, frames.len()) else {
        return Err(NoPool {
            frames: Items::from_vec(frames),
        });
    };
    for frame in frames.drain(..) {
        slots.push_reserved(Some(frame));
    }
    Ok((slots, frames))
}

/// What a pool's table begins with, and the list that the frames stood in.
pub(crate) fn parts(
    alloc: Global,
    frames: Vec<Frame>,
) -> Result<(Vec<u64>, Vec<Option<Frame>>, Vec<Frame>), NoPool>
    ensures words { IfOk result (λ made. made.0.items ≡ replicate (vec_len frames) 0 ++ vec_len frames ∷ []) }
    ensures slots { IfOk result (λ made. made.1.items ≡ map (λ f. Some f) frames.items) }
    ensures room { IfOk result (λ made. (made.2.items ≡ []) × (vec_len frames ≤ vec_capacity made.2)) }
    ensures back { IfErr result (λ e. e.frames ≡ frames.items) }
{
    let Ok(words) = words_of(alloc, frames.len()) else {
        return Err(NoPool {
            frames: Items::from_vec(frames),
        });
    };
    let (slots, emptied) = slots_of(alloc, frames)?;
    Ok((words, slots, emptied))
}

/// The frames of the slots, in the list that they stood in.
pub(crate) fn refused(mut emptied: Vec<Frame>, slots: Vec<Option<Frame>>) -> NoPool
    requires empty { emptied.items ≡ [] }
    requires room { vec_len slots ≤ vec_capacity emptied }
    requires full { All IsSome slots.items }
    ensures { map (λ f. Some f) result.frames ≡ slots.items }
{
    for slot in slots {
        match slot {
            Some(frame) => emptied.push_reserved(frame),
            None => unreachable!(),
        }
    }
    NoPool {
        frames: Items::from_vec(emptied),
    }
}
