// What a seat at the pool's table knows. No value of these types is made.
use page_arena::RegionMark;

/// Which frame words a seat names.
pub enum Named {
    Idle,
    // With its slot, which isn't at home.
    Taken(u64),
    // Without its slot, which is at home and empty.
    Lent(u64),
    // The words of two loans that are compared, each without its slot.
    Pair(u64, u64),
    // A seat that was joined into another.
    Spent,
}

pub struct PoolView {
    pub region: RegionMark,
    pub named: Named,
    // How many frame words were found out in order, round the end, up to the one before `next`.
    pub run: u64,
    pub next: u64,
    // How often all frame words were found out.
    pub dry: u64,
    // How many frames the seat, and those that joined it, took.
    pub taken: u64,
    // How many they put back.
    pub given: u64,
}
