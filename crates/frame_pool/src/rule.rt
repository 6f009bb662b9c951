// The rule of the pool's table, and the names of its steps.
ghost use Rattle.std.specs.Prelude.{[]};
ghost use Rattle.frame_pool.specs.PoolRule.{PoolRule};
ghost use Rattle.frame_pool.specs.Plays.{first_view, spent_view, naming, lending, split_off, joined, spare_counted, looked, claimed, lends, fetches, returns, compared, paired, named_word, second_of};
ghost use Rattle.frame_pool.specs.declared.view.Named.TheVariants.{Idle, Lent};

use crate::view::PoolView;
use atomic_table::{Join, Play, Split, TableRule};
use page_arena::{Frame, RegionMark};

pub struct Pooled;

impl TableRule<Option<Frame>, PoolView, RegionMark> for Pooled {
    ghost holds = { PoolRule };

    ghost first = { λ region. first_view region };
}

pub struct Count;

impl Play<Option<Frame>, PoolView> for Count {
    ghost then = { spare_counted };
}

pub struct Look;

impl Play<Option<Frame>, PoolView> for Look {
    ghost then = { looked };
}

pub struct Claim;

impl Play<Option<Frame>, PoolView> for Claim {
    ghost then = { claimed };
}

pub struct Lend;

impl Play<Option<Frame>, PoolView> for Lend {
    ghost then = { lends };
}

pub struct Fetch;

impl Play<Option<Frame>, PoolView> for Fetch {
    ghost then = { fetches };
}

pub struct Return;

impl Play<Option<Frame>, PoolView> for Return {
    ghost then = { returns };
}

pub struct Compare;

impl Play<Option<Frame>, PoolView> for Compare {
    ghost then = { compared };
}

/// The new seat names nothing, has taken and put back nothing, and has a copy of the rest of the record.
pub struct Copied;

impl Split<PoolView> for Copied {
    ghost left = { λ v. v };

    ghost right = { λ v. split_off v };
}

/// The new seat names nothing and has the whole record. The old one keeps the word that it names, for a loan.
pub struct Replaced;

impl Split<PoolView> for Replaced {
    ghost left = { λ v. lending v };

    ghost right = { λ v. naming v Idle };
}

/// The joiner keeps its own record, and counts what the other took and put back.
pub struct Kept;

impl Join<PoolView> for Kept {
    ghost both = { joined };

    ghost spent = { spent_view };
}

/// The seats of two loans become one, which names both words.
pub struct Together;

impl Join<PoolView> for Together {
    ghost both = { paired };

    ghost spent = { spent_view };
}

/// The seat that names two words becomes two seats, each with one.
pub struct Apart;

impl Split<PoolView> for Apart {
    ghost left = { λ v. naming v (Lent (named_word v.named)) };

    ghost right = { λ v. naming v (Lent (second_of v.named)) };
}
