use sq_near::Stream;
use sq_postings::{Index, PostCursor, ValueCursor};

/// A condition on rows, over cursors that borrow an index. A row that it holds of has a boost, which
/// is 0 but in an `Xrank` and in what stands over one.
#[cycle(node)]
#[derive(Drop)]
pub enum Node<'a> {
    All,
    /// Some of the streams has a span in the row.
    Spans(Vec<Stream<PostCursor<'a>>>),
    Count(Counted<'a>),
    Edge(Edges<'a>),
    Within(Ranged<'a>),
    /// All hold. Their boosts are added.
    And(Vec<Node<'a>>),
    /// Some holds. The boosts of those that hold are added.
    Or(Vec<Node<'a>>),
    AndNot(Without<'a>),
    Not(Box<Node<'a>>),
    /// Where it holds the boost is 0.
    Filter(Box<Node<'a>>),
    Xrank(Ranked<'a>),
}

/// So many spans in the row: at least `from`, and fewer than `to` where there is one.
#[derive(Drop)]
pub struct Counted<'a> {
    pub stream: Stream<PostCursor<'a>>,
    pub from: u32,
    pub to: Option<u32>,
}

/// A span in the row that begins with its passage where `starts`, and ends with it where `ends`.
#[derive(Drop)]
pub struct Edges<'a> {
    pub index: &'a Index,
    pub stream: Stream<PostCursor<'a>>,
    pub starts: bool,
    pub ends: bool,
}

/// A number of the row that is not below `first` and not above `last`.
#[derive(Drop)]
pub struct Ranged<'a> {
    pub values: ValueCursor<'a>,
    pub first: i64,
    pub last: i64,
}

/// Where the first holds and none of the others does. The boost is the first's.
#[cycle(node)]
#[derive(Drop)]
pub struct Without<'a> {
    pub first: Box<Node<'a>>,
    pub others: Vec<Node<'a>>,
}

/// Where `matched` holds. `boost` is added once to its boost where some of the ranks holds.
#[cycle(node)]
#[derive(Drop)]
pub struct Ranked<'a> {
    pub matched: Box<Node<'a>>,
    pub ranks: Vec<Node<'a>>,
    pub boost: i64,
}
