/// What is wrong at the place of a scenario's first fault.
#[derive(Clone, Copy, Debug, PartialEq, Eq)]
pub enum Kind {
    /// A key that has no default is absent.
    Missing,
    /// An object has a key that it may not have.
    Unknown,
    /// Another type is wanted, or a whole number of JSON below 2 to the 64th.
    Type_,
    /// A number, the length of a list or of a head is out of its range.
    Range,
    /// A command or an event isn't of the grammar.
    Text,
    /// A head isn't an even number of hexadecimal digits.
    Hex,
    /// All guests together have too many pages or blocks.
    Total,
}
