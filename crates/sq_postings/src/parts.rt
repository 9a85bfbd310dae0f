use sq_base::{List, Text};
use sq_coded::Lists;
use sq_schema::Kind;

/// An item's number and static rank.
#[derive(Clone, Copy, Debug)]
pub struct Row {
    pub number: u32,
    pub rank: i64,
}

/// What an index keeps of a property.
#[derive(Clone, Copy, Debug)]
pub struct Shape {
    pub kind: Kind,
    pub searchable: bool,
}

/// A token of a property, and the number of its list among the coded lists.
#[derive(Drop)]
pub struct Term {
    pub property: u32,
    /// The folded text of the token.
    pub token: Text,
    pub list: u32,
}

/// How many tokens a passage has.
#[derive(Clone, Copy, Debug)]
pub struct Length {
    /// The row of the item, from 0.
    pub row: u32,
    /// The place of the value among those of its property, from 0.
    pub ordinal: u32,
    pub tokens: u32,
}

/// A claim, and the rising rows of the items whose list has it.
#[derive(Drop)]
pub struct Claim {
    pub claim: Text,
    pub rows: List<u32>,
}

/// What an index is made of.
#[derive(Drop)]
pub struct Parts {
    /// One for each property, in the schema's order.
    pub shapes: List<Shape>,
    /// One for each item, in order.
    pub rows: List<Row>,
    /// Each token of each property once, by property and then by the bytes of the token.
    pub terms: List<Term>,
    /// The postings of the terms.
    pub lists: Lists,
    /// For each property the pairs of a row and a number, by row and then by number.
    pub values: List<List<(u32, i64)>>,
    /// For each property the lengths of its passages, by row and then by ordinal.
    pub lengths: List<List<Length>>,
    /// The claims that admit, by their bytes.
    pub allow: List<Claim>,
    /// The claims that deny, by their bytes.
    pub deny: List<Claim>,
}
