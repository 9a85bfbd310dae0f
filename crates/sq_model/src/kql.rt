use crate::leaf::Leaf;
use sq_base::List;
use sqlite_items::Boxed;

/// How a value of a property is to stand to the query's value. `Range` is written `from..to`.
#[derive(Clone, Copy, Debug, PartialEq, Eq)]
pub enum Relation {
    Has,
    Equal,
    Less,
    More,
    AtMost,
    AtLeast,
    Unequal,
    Range,
}

/// The sign of an operand of a run. `NOT` is the sign `-`.
#[derive(Clone, Copy, Debug, PartialEq, Eq)]
pub enum Sign {
    Plain,
    Plus,
    Minus,
}

/// How the loose operands of a run stand to one another: under `All` every one must hold, under `Any` one of them.
#[derive(Clone, Copy, Debug, PartialEq, Eq)]
pub enum Joiner {
    All,
    Any,
}

/// One of the operands that stand side by side.
#[cycle(kql)]
#[derive(Drop)]
pub struct KOperand {
    pub sign: Sign,
    pub tree: KTree,
}

/// A KQL expression, typed for a schema ([MS-KQL]).
#[cycle(kql)]
#[derive(Drop)]
pub enum KTree {
    Free(Leaf),
    All,
    Words(List<Leaf>),
    Group(Boxed<KTree>),
    /// A restriction of a text property, by the row of the schema.
    TextTest {
        property: u32,
        relation: Relation,
        leaf: Leaf,
    },
    /// A restriction of a property of numbers, with the first and last number of its value.
    ValueTest {
        property: u32,
        relation: Relation,
        first: i64,
        last: i64,
    },
    /// NEAR, or ONEAR where `ordered`: at most `n` tokens more lie between the ends than were matched.
    Near {
        left: Boxed<KTree>,
        right: Boxed<KTree>,
        n: u32,
        ordered: bool,
    },
    /// Operands side by side.
    Run(List<KOperand>),
    And(List<KTree>),
    Or(List<KTree>),
    /// What `matched` matches, with `cb` more where `ranked` holds too.
    Xrank {
        matched: Boxed<KTree>,
        ranked: Boxed<KTree>,
        cb: i64,
    },
}
