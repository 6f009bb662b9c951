// The answers of the host's own moves.
use cmm_types::Refused as Reason;

/// Why a host move isn't made.
#[derive(Clone, Copy, Debug, PartialEq, Eq)]
pub enum ApplyError {
    /// The page's word doesn't allow it.
    Refused(Reason),
    /// A call of the host's own pager failed.
    Paging,
}

/// How many pages the host took frames from, and whether it ended because a put failed.
#[derive(Clone, Copy, Debug, PartialEq, Eq)]
pub struct Reclaim {
    pub count: u32,
    pub paging: bool,
}
