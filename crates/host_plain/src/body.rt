// Where a page's bytes are: its frame, while it is resident, and its block of the paging store.
ghost use Rattle.std.specs.Prelude.{◌≡◌, ◌+◌, ◌≤◌, length, take, drop, true, Some, None, is_some, is_err, IfOk, IfErr};
ghost use Rattle.cmm_types.specs.declared.page.TheConstants.{PAGE};
ghost use Rattle.cmm_io.specs.FailurePlan.{fails_next, after_next};
ghost use Rattle.cmm_types.specs.Bytes.{zero_page};
ghost use Rattle.essa_state.specs.PageBody.{frame_bytes};
ghost use Rattle.host_plain.specs.MemoryState.{IsWholeBody};
ghost use Rattle.host_plain.specs.Bodies.{body_of, written_parts};

use cmm_io::Failed;
use cmm_pager::{MemBlock, MemPager, Pager};
use page_arena::Frame;
use std::marker::Model;

/// A page's frame and block. Contracts see both.
#[derive(Drop)]
pub struct PageBody {
    frame: Option<Frame>,
    block: MemBlock,
}

impl Model for PageBody {
    ghost use Rattle.std.specs.Prelude.{◌≡◌, length};
    ghost use Rattle.cmm_types.specs.declared.page.TheConstants.{PAGE};
    ghost use Rattle.host_plain.specs.MemoryState.{IsWholeBody};
    ghost use Rattle.host_plain.specs.Bodies.{PageParts, body_of};

    ghost Value = { PageParts };

    ghost view = { λ b. record { frame = b.frame; block = b.block } };

    ghost invariant = { λ b. IsWholeBody (body_of (record { frame = b.frame; block = b.block })) };
}

impl PageBody {
    pub fn new(block: MemBlock) -> PageBody
        ensures parts { result ≡ record { frame = None; block = block } }
        ensures whole { IsWholeBody (body_of result) }
    {
        PageBody { frame: None, block }
    }

    /// Gives up the frame.
    pub fn discard(&mut self) -> Option<Frame>
        ensures parts { self.new ≡ record self.old { frame = None } }
        ensures frame { result ≡ self.old.frame }
    {
        self.frame.take()
    }

    /// Puts the frame's bytes into the block, and gives up the frame.
    pub fn preserve(&mut self, pager: &mut MemPager) -> Result<Frame, Failed>
        requires resident { is_some self.old.frame ≡ true }
        ensures failed { is_err result ≡ fails_next pager.old }
        ensures pager { pager.new ≡ after_next pager.old }
        ensures frame { IfOk result (λ f. self.old.frame ≡ Some f) }
        ensures parts { IfOk result (λ f. self.new ≡ record { frame = None; block = f.bytes }) }
        ensures same { IfErr result (λ e. self.new ≡ self.old) }
    {
        match self.frame.take() {
            Some(frame) => match pager.put(&mut self.block, frame.bytes()) {
                Ok(()) => Ok(frame),
                Err(failed) => {
                    self.frame = Some(frame);
                    Err(failed)
                }
            },
            None => unreachable!(),
        }
    }

    /// Gets the block's bytes into a frame. The frame comes back where the pager fails, with any bytes.
    pub fn bring(&mut self, mut frame: Frame, pager: &mut MemPager) -> Result<(), Frame>
        ensures failed { is_err result ≡ fails_next pager.old }
        ensures pager { pager.new ≡ after_next pager.old }
        ensures parts { IfOk result (λ u. self.new ≡ record self.old { frame = Some (record frame { bytes = self.old.block }) }) }
        ensures same { IfErr result (λ f. self.new ≡ self.old) }
        ensures frame { IfErr result (λ f. record f { bytes = frame.bytes } ≡ frame) }
    {
        match pager.get(&self.block, frame.bytes_mut()) {
            Ok(()) => {
                self.frame = Some(frame);
                Ok(())
            }
            Err(_failed) => Err(frame),
        }
    }

    /// Takes a frame, and fills it with zeros.
    pub fn fill(&mut self, mut frame: Frame)
        ensures { self.new ≡ record self.old { frame = Some (record frame { bytes = zero_page }) } }
    {
        frame.bytes_mut().fill(0);
        self.frame = Some(frame);
    }

    pub fn fetch(&self, off: usize, into: &mut [u8])
        requires resident { is_some self.now.frame ≡ true }
        requires within { off + length into.old ≤ PAGE }
        ensures { into.new ≡ take (length into.old) (drop off (frame_bytes (body_of self.now))) }
    {
        let end = off + into.len();
        match &self.frame {
            Some(frame) => into.copy_from_slice(&frame.bytes()[off..end]),
            None => unreachable!(),
        }
    }

    pub fn store(&mut self, off: usize, from: &[u8])
        requires resident { is_some self.old.frame ≡ true }
        requires within { off + length from.now ≤ PAGE }
        ensures { self.new ≡ written_parts self.old off from.now }
    {
        let end = off + from.len();
        match &mut self.frame {
            Some(frame) => frame.bytes_mut()[off..end].copy_from_slice(from),
            None => unreachable!(),
        }
    }
}
