ghost use Rattle.std.specs.Prelude.{◌≡◌, ◌<◌, ◌≤◌, ◌↔◌, [], All, Some, length, slice_get, IfOk, IfErr, IsOk, IfNone, IfSome, map, not, position, count_by};
ghost use Rattle.std.specs.List.{range_with_len};
ghost use Rattle.page_arena.specs.FrameView.{IsOf, first_frames, has_number, missing};

use crate::frame::Frame;
use crate::mark::Mark;
use cmm_types::{Items, MAX_FRAMES};
use page_pieces::pieces;
use std::alloc::{AllocError, Global};
use std::marker::Model;
use std::mem;

/// The frames 0 to `count - 1`, as a whole.
#[derive(Drop)]
pub struct Region {
    count: u32,
    mark: Mark,
    /// Which frames came back, by number; room that closing uses.
    back: Vec<bool>,
}

impl Model for Region {
    ghost use Rattle.std.specs.Prelude.{◌≡◌, length};
    ghost use Rattle.page_arena.specs.FrameView.{RegionView};

    ghost Value = { RegionView };

    ghost view = { λ r. record { name = r.mark; count = r.count } };

    ghost invariant = { λ r. length r.back.items ≡ r.count };
}

/// Why a region can't be closed: `count` of its frames aren't in the list, and the least of them is `first`.
#[derive(Drop)]
pub struct Missing {
    pub region: Region,
    pub frames: Items<Frame>,
    pub first: u32,
    pub count: u32,
}

impl Region {
    /// A region of 1 to `MAX_FRAMES` frames, with all of them.
    pub fn new(alloc: Global, count: u32) -> Result<(Region, Vec<Frame>), AllocError>
        requires some { 1 ≤ count }
        requires most { count ≤ MAX_FRAMES }
        ensures count { IfOk result (λ made. made.0.count ≡ count) }
        ensures frames { IfOk result (λ made. made.1.items ≡ first_frames made.0) }
    {
        let mark = Mark::new();
        let back = vec![in alloc; false; count as usize]?;
        let mut frames = Vec::with_capacity(alloc, count as usize)?;
        let mut number = 0;
        for bytes in pieces(alloc, count)? {
            frames.push_reserved(Frame::of(bytes, mark.again(), count, number));
            number += 1;
        }
        Ok((Region { count, mark, back }, frames))
    }

    /// Takes the region apart with all its frames. It takes no memory, and time in proportion to the frames.
    pub fn close(mut self, frames: Vec<Frame>) -> Result<(), Missing>
        requires { All (IsOf self) frames.items }
        ensures closed { IsOk result ↔ (missing self.count frames.items ≡ []) }
        ensures first { IfErr result (λ e. slice_get (missing self.count frames.items) 0 ≡ Some e.first) }
        ensures count { IfErr result (λ e. e.count ≡ length (missing self.count frames.items)) }
        ensures region_back { IfErr result (λ e. e.region ≡ self) }
        ensures frames_back { IfErr result (λ e. e.frames ≡ frames.items) }
    {
        match absent(&mut self.back, &frames) {
            None => Ok(()),
            Some((first, count)) => Err(Missing {
                region: self,
                frames: Items::from_vec(frames),
                first: first as u32,
                count: count as u32,
            }),
        }
    }

    /// Keeps the region's memory for good, with whatever the frames hold: none of it is given out again. No clause can
    /// say more of values that are spent.
    pub fn abandon(self, frames: Vec<Frame>) {
        mem::forget(frames);
    }
}

/// The least number below the slice's length that no frame has, and how many such numbers there are.
fn absent(back: &mut [bool], frames: &[Frame]) -> Option<(usize, usize)>
    requires { All (λ f. f.region.count ≡ length back.old) frames.now }
    ensures none { IfNone result (missing (length back.old) frames.now ≡ []) }
    ensures least { IfSome result (λ found. slice_get (missing (length back.old) frames.now) 0 ≡ Some found.0) }
    ensures count { IfSome result (λ found. found.1 ≡ length (missing (length back.old) frames.now)) }
    ensures within { IfSome result (λ found. (found.0 < length back.old) × (found.1 ≤ length back.old)) }
{
    note_numbers(back, frames);
    let first = first_unset(back)?;
    Some((first, count_unset(back)))
}

/// Notes by number which frames are in the list.
fn note_numbers(back: &mut [bool], frames: &[Frame])
    requires { All (λ f. f.region.count ≡ length back.old) frames.now }
    ensures { back.new ≡ map (has_number frames.now) (range_with_len 0 (length back.old)) }
{
    back.fill(false);
    for frame in frames {
        back[frame.number() as usize] = true;
    }
}

fn first_unset(flags: &[bool]) -> Option<usize>
    ensures { result ≡ position not flags.now }
{
    flags.iter().position(|flag| !*flag)
}

fn count_unset(flags: &[bool]) -> usize
    ensures count { result ≡ count_by not flags.now }
    ensures most { result ≤ length flags.now }
{
    flags.iter().filter(|flag| !**flag).count()
}
