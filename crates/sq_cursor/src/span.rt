/// The tokens from `first` to `last` of a passage.
///
/// A passage is one text of an item: `row` is the item's row, and `part` tells the item's texts
/// apart, as the number of their property times 1,000 plus the place among its values. `first` and
/// `last` are places of tokens in the passage, both within the span.
#[derive(Clone, Copy, Debug, PartialEq, Eq)]
pub struct Span {
    pub row: u32,
    pub part: u32,
    pub first: u32,
    pub last: u32,
}
