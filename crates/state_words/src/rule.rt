use atomic_table::{Join, Play, Split, TableRule};
use std::marker::{Brand, Model, PhantomData};
use std::snapshot::Snapshot;

/// Where a page's bytes are. `body` says which bytes it gives for a resident and for a preserved word, and whether it
/// has a frame. `house` is the pool from which its frames come, which contracts alone see.
pub trait Body {
    ghost use Rattle.essa_state.specs.PageBody.{Body};
    ghost use Rattle.atomic_table.specs.Seated.{TableId};

    ghost body: { Self → Body };

    ghost house: { Self → TableId };

    /// Spends a body of which nothing is known.
    fn lose(self);
}

/// What a seat at the words knows. No value of it is made: contracts see the views that seats have.
pub struct Knowledge {
    nothing: (),
}

impl Model for Knowledge {
    ghost use Rattle.state_words.specs.SeatView.{SeatView, no_view};

    ghost Value = { SeatView };

    ghost view = { λ k. no_view };
}

/// What the words are told once: how many there are, and a body of their house.
pub struct Founding<B> {
    pub(crate) pages: u32,
    pub(crate) like: Snapshot<B>,
}

impl<B> Drop for Founding<B> {
    fn drop(self) {
        let Founding { pages: _, like: _ } = self;
    }
}

/// The rule stands between any two atomic steps on the words, whichever seats make them.
pub struct Ruled<B> {
    body: PhantomData<B>,
}

impl<B: Body> TableRule<Option<B>, Knowledge, Founding<B>> for Ruled<B> {
    ghost use Rattle.state_words.specs.SeatView.{guest_first};
    ghost use Rattle.state_words.specs.WordsRule.{WordsRule};

    ghost holds = { λ key. WordsRule B.body B.house (B.house key.like.value) };

    ghost first = { λ key. guest_first key.pages (B.house key.like.value) };
}

pub(crate) struct Claim<B> {
    body: PhantomData<B>,
}

impl<B: Body> Play<Option<B>, Knowledge> for Claim<B> {
    ghost use Rattle.state_words.specs.Plays.{claims};

    ghost then = { claims B.body B.house };
}

pub(crate) struct Look;

impl<B> Play<Option<B>, Knowledge> for Look {
    ghost use Rattle.state_words.specs.Plays.{looks};

    ghost then = { looks };
}

pub(crate) struct Leave<B> {
    body: PhantomData<B>,
}

impl<B: Body> Play<Option<B>, Knowledge> for Leave<B> {
    ghost use Rattle.state_words.specs.Plays.{leaves};

    ghost then = { leaves B.body };
}

/// The host's move, or none, that a release makes.
pub(crate) trait MoveOf {
    ghost use Rattle.std.specs.Prelude.{Option};
    ghost use Rattle.cmm_types.specs.declared.page.Move.{Move};

    ghost action: { Option Move };
}

impl MoveOf for Brand {
    ghost use Rattle.std.specs.Prelude.{None};

    ghost action = { None };
}

pub(crate) struct MoveOn<B, A> {
    body: PhantomData<(B, A)>,
}

impl<B: Body, A: MoveOf> Play<Option<B>, Knowledge> for MoveOn<B, A> {
    ghost use Rattle.state_words.specs.Plays.{moves};

    ghost then = { moves B.body A.action };
}

/// A new seat of the host beside a seat that stays as it is.
pub(crate) struct Apart;

impl Split<Knowledge> for Apart {
    ghost use Rattle.state_words.specs.SeatView.{host_first};

    ghost left = { λ v. v };

    ghost right = { λ v. host_first v.house };
}

/// The second seat is spent.
pub(crate) struct Spend;

impl Join<Knowledge> for Spend {
    ghost use Rattle.state_words.specs.SeatView.{no_view};

    ghost both = { λ v w. v };

    ghost spent = { no_view };
}
