// A kernel in its lock.
ghost use Rattle.std.specs.Prelude.{◌≡◌, ◌<◌, length};
ghost use Rattle.cmm_vcpu.specs.KernelState.{words_of, own_words, pool_of};

use crate::kernel::Kernel;
use cmm_types::Turn;
use frame_pool::Pool;
use host_shared::PageBody;
use state_words::Words;
use std::marker::{Brand, PhantomData};

/// What the kernel of a lock is of. Each lock is made under names of its own.
pub trait Job {
    ghost use Rattle.std.specs.Prelude.{List};
    ghost use Rattle.cmm_types.specs.declared.plan.GuestPlan.{GuestPlan};
    ghost use Rattle.state_words.specs.SeatView.{WordsView};
    ghost use Rattle.frame_pool.specs.Seats.{PoolId};

    ghost plan: { GuestPlan };

    ghost words: { List WordsView };

    ghost own: { WordsView };

    ghost pool: { PoolId };
}

impl Job for Brand {
    ghost use Rattle.std.specs.Prelude.{[]};
    ghost use Rattle.cmm_types.specs.NoPlan.{no_plan};
    ghost use Rattle.cmm_vcpu.specs.Names.{no_words, no_pool};

    ghost plan = { no_plan };

    ghost words = { [] };

    ghost own = { no_words };

    ghost pool = { no_pool };
}

/// A kernel of the plan, the words, its own words among them, and the pool that `N` names.
#[derive(Drop)]
pub struct Named<N: Job> {
    kernel: Kernel,
    of: PhantomData<N>,
    ghost plan_is: { kernel.guest.plan ≡ N.plan },
    ghost words_are: { words_of kernel ≡ N.words },
    ghost own_is: { own_words kernel ≡ N.own },
    ghost pool_is: { pool_of kernel ≡ N.pool },
}

impl<N: Job> Named<N> {
    pub fn new(kernel: Kernel) -> Named<N>
        requires plan { kernel.guest.plan ≡ N.plan }
        requires words { words_of kernel ≡ N.words }
        requires own { own_words kernel ≡ N.own }
        requires pool { pool_of kernel ≡ N.pool }
    {
        Named {
            kernel,
            of: PhantomData,
        }
    }

    /// One turn of a processor.
    pub fn turn(&mut self, words: &[Words<PageBody>], pool: &Pool, cpu: u32) -> Turn
        requires words { words.now ≡ N.words }
        requires pool { pool.now ≡ N.pool }
        requires cpu { cpu < length N.plan.cpus }
    {
        self.kernel.turn(words, pool, cpu)
    }

    pub fn into_kernel(self) -> Kernel
        ensures plan { result.guest.plan ≡ N.plan }
        ensures words { words_of result ≡ N.words }
        ensures own { own_words result ≡ N.own }
        ensures pool { pool_of result ≡ N.pool }
    {
        let Named { kernel, of: _ } = self;
        kernel
    }
}
