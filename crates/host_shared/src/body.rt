// Where a page's bytes are: its frame, while it is resident, and its block of the paging store.
ghost use Rattle.std.specs.Prelude.{◌≡◌, ◌+◌, ◌≤◌, length, take, drop, true, Some, None, Ok, Err, is_some, IfOk, IfErr, IfSome};
ghost use Rattle.cmm_types.specs.declared.page.TheConstants.{PAGE};
ghost use Rattle.cmm_types.specs.declared.page.Move.TheVariants.{Discard, Preserve};
ghost use Rattle.cmm_io.specs.Faults.{HasRisen};
ghost use Rattle.cmm_pager.specs.PagerCall.{Put};
ghost use Rattle.essa_state.specs.PageBody.{frame_bytes, moved_body};
ghost use Rattle.state_words.specs.Accesses.{touched_body, stored_body};
ghost use Rattle.host_shared.specs.PagerCalls.{GetsOnce};
ghost use Rattle.host_shared.specs.Bodies.{IsOfHouse, IsPageBody, lent_body, body_house};
ghost use Rattle.cmm_types.specs.declared.page.Content.TheVariants.{Preserved, Zero};

use cmm_io::Failed;
use cmm_pager::{MemBlock, Pager};
use frame_pool::{Loan, PoolMark};
use state_words::Body;
use std::marker::Model;

/// A page's frame, as a loan of the pool, its block of the paging store, and a mark of the pool. Contracts see the
/// loan, the block's bytes and the pool.
#[derive(Drop)]
pub struct PageBody {
    loan: Option<Loan>,
    block: MemBlock,
    mark: PoolMark,
}

impl Model for PageBody {
    ghost use Rattle.host_shared.specs.Bodies.{BodyParts, IsPageBody};

    ghost Value = { BodyParts };

    ghost view = { λ b. record { loan = b.loan; block = b.block; pool = b.mark } };

    ghost invariant = { λ b. IsPageBody (record { loan = b.loan; block = b.block; pool = b.mark }) };
}

impl Body for PageBody {
    ghost use Rattle.host_shared.specs.Bodies.{lent_body, body_house};

    ghost body = { lent_body };

    ghost house = { body_house };

    fn lose(self) {
        let PageBody {
            loan,
            block,
            mark: _,
        } = self;
        if let Some(loan) = loan {
            loan.lose();
        }
        drop(block);
    }
}

// Tells callers that a block has a whole page, whatever was put there.
fn recall(block: &MemBlock)
    ensures { length block.now ≡ PAGE }
{
    let _ = block.bytes();
}

impl PageBody {
    /// The body of a page that isn't resident.
    pub fn new(block: MemBlock, mark: PoolMark) -> PageBody
        ensures { result ≡ record { loan = None; block = block; pool = mark } }
    {
        PageBody {
            loan: None,
            block,
            mark,
        }
    }

    /// Gives up the frame.
    pub fn discard(&mut self) -> Option<Loan>
        ensures body { lent_body self.new ≡ moved_body Discard (lent_body self.old) }
        ensures pool { self.new.pool ≡ self.old.pool }
        ensures loan { result ≡ self.old.loan }
        ensures housed { IfSome result (IsOfHouse (body_house self.old)) }
    {
        self.loan.take()
    }

    /// Puts the frame's bytes into the block, and gives up the frame. After a failed put the block may hold any bytes.
    pub(crate) fn preserve<P: Pager<Block = MemBlock>>(
        &mut self,
        pager: &mut P,
    ) -> Result<Loan, Failed>
        requires resident { is_some self.old.loan ≡ true }
        ensures pool { self.new.pool ≡ self.old.pool }
        ensures faults { P.faults pager.old ≤ P.faults pager.new }
        ensures body { IfOk result (λ loan. lent_body self.new ≡ moved_body Preserve (lent_body self.old)) }
        ensures housed { IfOk result (IsOfHouse (body_house self.old)) }
        ensures put { IfOk result (λ loan. P.step pager.old (Put self.old.block (frame_bytes (lent_body self.old)) (Ok tt) self.new.block) pager.new) }
        ensures frame { IfErr result (λ failed. (lent_body self.new).frame ≡ (lent_body self.old).frame) }
        ensures risen { IfErr result (λ failed. HasRisen (P.faults pager.old) (P.faults pager.new)) }
        ensures not_put { IfErr result (λ failed. P.step pager.old (Put self.old.block (frame_bytes (lent_body self.old)) (Err failed) self.new.block) pager.new) }
    {
        match self.loan.take() {
            Some(loan) => match pager.put(&mut self.block, loan.bytes()) {
                Ok(()) => Ok(loan),
                Err(failed) => {
                    recall(&self.block);
                    self.loan = Some(loan);
                    Err(failed)
                }
            },
            None => unreachable!(),
        }
    }

    /// Gets the block's bytes into a frame. The frame comes back where the pager fails, with any bytes.
    pub(crate) fn bring<P: Pager<Block = MemBlock>>(
        &mut self,
        mut loan: Loan,
        pager: &mut P,
    ) -> Result<(), Loan>
        requires housed { IsOfHouse (body_house self.old) loan }
        ensures pool { self.new.pool ≡ self.old.pool }
        ensures faults { P.faults pager.old ≤ P.faults pager.new }
        ensures body { IfOk result (λ u. lent_body self.new ≡ touched_body Preserved (lent_body self.old)) }
        ensures whole { IfOk result (λ u. IsPageBody self.new) }
        ensures same { IfErr result (λ back. self.new ≡ self.old) }
        ensures back { IfErr result (IsOfHouse (body_house self.old)) }
        ensures risen { IfErr result (λ back. HasRisen (P.faults pager.old) (P.faults pager.new)) }
        ensures gets { GetsOnce P.step pager.old pager.new }
    {
        match pager.get(&self.block, loan.bytes_mut()) {
            Ok(()) => {
                self.loan = Some(loan);
                Ok(())
            }
            Err(_failed) => Err(loan),
        }
    }

    /// Takes a frame, and fills it with zeros.
    pub(crate) fn fill(&mut self, mut loan: Loan)
        requires housed { IsOfHouse (body_house self.old) loan }
        ensures pool { self.new.pool ≡ self.old.pool }
        ensures body { lent_body self.new ≡ touched_body Zero (lent_body self.old) }
        ensures whole { IsPageBody self.new }
    {
        loan.bytes_mut().fill(0);
        self.loan = Some(loan);
    }

    pub(crate) fn fetch(&self, off: usize, into: &mut [u8])
        requires resident { is_some self.now.loan ≡ true }
        requires within { off + length into.old ≤ PAGE }
        ensures { into.new ≡ take (length into.old) (drop off (frame_bytes (lent_body self.now))) }
    {
        let end = off + into.len();
        match &self.loan {
            Some(loan) => into.copy_from_slice(&loan.bytes()[off..end]),
            None => unreachable!(),
        }
    }

    pub(crate) fn store(&mut self, off: usize, from: &[u8])
        requires resident { is_some self.old.loan ≡ true }
        requires within { off + length from.now ≤ PAGE }
        ensures pool { self.new.pool ≡ self.old.pool }
        ensures body { lent_body self.new ≡ stored_body (lent_body self.old) off from.now }
        ensures whole { IsPageBody self.new }
    {
        let end = off + from.len();
        match &mut self.loan {
            Some(loan) => loan.bytes_mut()[off..end].copy_from_slice(from),
            None => unreachable!(),
        }
    }
}
