/// Where a token stands. Postings are ordered by row, then ordinal, then place.
#[derive(Clone, Copy, Debug, PartialEq, Eq)]
pub struct Posting {
    /// The row of the item, from 0; in a list below 1,000,000.
    pub row: u32,
    /// The place of the value among those of its property, from 0; in a list below 1,000.
    pub ordinal: u32,
    /// The place of the token in the value's text, from 0; in a list below 67,108,864.
    pub place: u32,
}
