ghost use Rattle.std.specs.Prelude.{◌≡◌, ◌<◌, vec_len, IfOk};
ghost use Rattle.cmm_generate.specs.Draws.{Draws, below, times};

use std::alloc::{AllocError, Global};

/// A number from which further numbers are drawn.
#[derive(Clone, Copy)]
pub struct Numbers {
    pub number: u64,
}

impl Numbers {
    /// A number below the limit.
    #[tactic(auto, unfolding(crate::specs::Draws::below))]
    pub fn below(&mut self, limit: u32) -> u32
        requires { 0 < limit }
        ensures drawn { Draws (below limit) self.old.number self.new.number result }
        ensures small { result < limit }
    {
        self.number = self
            .number
            .wrapping_mul(6_364_136_223_846_793_005)
            .wrapping_add(1_442_695_040_888_963_407);
        ((self.number >> 33) % u64::from(limit)) as u32
    }
}

fn byte(numbers: &mut Numbers) -> u8
    ensures { Draws (below 256) numbers.old.number numbers.new.number result }
{
    numbers.below(256) as u8
}

/// So many bytes.
#[tactic(auto, using(crate::proofs::Loops::one_more), unfolding(crate::specs::Draws::in_turn))]
pub fn bytes(count: u32, alloc: Global, numbers: &mut Numbers) -> Result<Vec<u8>, AllocError>
    ensures count { IfOk result (λ bytes. vec_len bytes ≡ count) }
    ensures drawn { IfOk result (λ bytes.
        Draws (times count (below 256)) numbers.old.number numbers.new.number bytes.items) }
{
    let mut bytes = Vec::new(alloc);
    for _ in 0..count {
        bytes.push(byte(numbers))?;
    }
    Ok(bytes)
}
