use crate::leaf::Leaf;
use sq_base::List;
use sqlite_items::Boxed;

/// The text properties at which an expression looks: all searchable ones, or one by its row of the schema.
#[derive(Clone, Copy, Debug, PartialEq, Eq)]
pub enum Look {
    Searchable,
    One(u32),
}

/// A proximity expression.
#[derive(Drop)]
pub enum SpanTree {
    Leaf(Leaf),
    Union(List<SpanTree>),
    /// Near, or onear where `ordered`: at most `n` tokens more lie between the ends than were matched.
    Near {
        parts: List<SpanTree>,
        n: u32,
        ordered: bool,
    },
}

/// An FQL expression, typed for a schema. A leaf's text has no effect.
#[derive(Drop)]
pub enum FTree {
    All,
    Spans {
        look: Look,
        tree: SpanTree,
    },
    /// The leaf fits at `from` places or more, and below `to` places.
    Count {
        look: Look,
        leaf: Leaf,
        from: u32,
        to: Option<u32>,
    },
    /// The leaf fits at the beginning of a passage, at its end, or from its beginning to its end.
    Edge {
        look: Look,
        leaf: Leaf,
        starts: bool,
        ends: bool,
    },
    /// A number of the property is from `first` to `last`. An empty interval has first 1 and last 0.
    Within {
        property: u32,
        first: i64,
        last: i64,
    },
    And(List<FTree>),
    Or(List<FTree>),
    AndNot {
        first: Boxed<FTree>,
        others: List<FTree>,
    },
    Not(Boxed<FTree>),
    Filter(Boxed<FTree>),
    /// What `matched` matches, with `cb` more where one of `ranks` holds too.
    Xrank {
        matched: Boxed<FTree>,
        ranks: List<FTree>,
        cb: i64,
    },
}
