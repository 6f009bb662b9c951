ghost use Rattle.std.specs.Prelude.{◌≡◌};

use logbook::{Rule, Seen, Start};
use std::marker::Model;

/// A book without words, that says nothing: of a book, a mark uses only that each has a name of its own.
struct Nameless;

impl Rule<(), ()> for Nameless {
    ghost use Rattle.std.specs.Prelude.{[]};
    ghost use base.Fml.{ftrue};

    ghost holds = { λ words log. Unit {0} };

    ghost first = { [] };

    ghost hinted = { λ word log. Unit {0} };

    ghost shows = { λ log. [] };

    ghost keeps = { λ names log. ftrue };

    ghost moves = { λ asked before after answer. Unit {0} };
}

/// Names a region, for contracts alone: it has no bytes. Contracts see it as the name.
#[derive(Drop)]
pub struct Mark {
    seen: Seen<(), (), Nameless>,
}

impl Model for Mark {
    ghost use Rattle.std.specs.Prelude.{ℕ};

    ghost Value = { ℕ };

    ghost view = { λ m. m.seen.book.log_name };
}

impl Mark {
    pub fn new() -> Mark {
        let (seen, _, _) = Seen::open(Start::alone(), 0, 0);
        Mark { seen }
    }

    /// The same name again.
    pub fn again(&self) -> Mark
        ensures { result ≡ self.now }
    {
        Mark {
            seen: self.seen.again(),
        }
    }
}

/// Which region it is, for contracts alone. Contracts see it as the region's view.
#[derive(Drop)]
pub struct RegionMark {
    pub(crate) mark: Mark,
    pub(crate) count: u32,
}

impl Model for RegionMark {
    ghost use Rattle.page_arena.specs.FrameView.{RegionView};

    ghost Value = { RegionView };

    ghost view = { λ r. record { name = r.mark; count = r.count } };
}
