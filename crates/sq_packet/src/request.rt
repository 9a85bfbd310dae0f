use sq_base::{List, Text};

/// The language of a query text: the Keyword Query Language (type `STRING`) or the FAST Query Language (type `FQL`).
#[derive(Clone, Copy, Debug, PartialEq, Eq)]
pub enum Language {
    Kql,
    Fql,
}

/// Whether the least key of a sort goes first, or the greatest.
#[derive(Clone, Copy, Debug, PartialEq, Eq)]
pub enum Direction {
    Ascending,
    Descending,
}

/// A refiner that is asked for: the name of a property, and the bounds of its buckets, which rise strictly. Without bounds
/// each value is counted by itself. At most 64 bounds.
#[derive(Debug, Drop)]
pub struct RefinerSpec {
    pub name: Text,
    pub bounds: List<i64>,
}

/// A sort that is asked for: `Rank` or the name of a property, and its direction.
#[derive(Debug, Drop)]
pub struct SortSpec {
    pub name: Text,
    pub direction: Direction,
}

/// What a packet asks for. The page has the hits from `start` on, counted from 1, at most `count` of them. The properties are
/// those to be shown of each hit. At most 64 properties, 16 refiners and 4 sorts, each in the packet's order. Where
/// `implicit_and` is false, operands that stand side by side in a KQL text are joined by or.
#[derive(Debug, Drop)]
pub struct Request {
    pub language: Language,
    pub text: Text,
    pub start: u32,
    pub count: u32,
    pub properties: List<Text>,
    pub refiners: List<RefinerSpec>,
    pub sorts: List<SortSpec>,
    pub implicit_and: bool,
}
