/// A call on the outside failed. The count of faults of what it was made on rose in it.
#[derive(Clone, Copy, Debug, PartialEq, Eq)]
pub struct Failed;
