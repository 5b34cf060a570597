// A production of a book's grammar.

/// A class, a symbol, the number of its parts and their classes; a missing part's class is 0.
// A rule of the project: a listing is of numbers, with a 0 for what is missing.
#[derive(Clone, Copy, Debug, PartialEq, Eq)]
pub struct Production {
    pub of: u16,
    pub symbol: u16,
    pub parts: u8,
    pub left: u16,
    pub right: u16,
}
