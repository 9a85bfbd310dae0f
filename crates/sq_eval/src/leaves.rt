//! The nodes of expressions that have no parts. None is put into its caller's frame, which stands on the
//! stack once for each level of an expression.
ghost use Rattle.std.specs.Prelude.{◌≡◌, ◌+◌, IfOk, MatchResult};
ghost use Rattle.sq_eval.specs.Nodes.{IsNodeOf, IsWithinTree};
ghost use Rattle.sq_nodes.specs.Scores.{node_rest};

use sq_base::Steps;
use sq_model::{FTree, Leaf, Look, SpanTree};
use sq_nodes::{Counted, Edges, Node, Ranged};
use sq_postings::Index;
use sq_streams::{pattern_stream, streams_of};
use std::alloc::{AllocError, Global};
use std::sync::ledger::Ledger;

#[inline(never)]
pub(crate) fn spans_node<'a, L: Ledger>(
    alloc: Global,
    index: &'a Index,
    look: Look,
    tree: &SpanTree,
    steps: &mut Steps<L>,
) -> Result<Box<Node<'a>>, AllocError>
    ensures scores { IfOk result (λ node. IsNodeOf index.now (FTree.Spans look tree.now) node.value) }
    ensures cost { MatchResult result
        (λ node. IsWithinTree index.now (FTree.Spans look tree.now) steps.old (steps.new + node_rest node.value))
        (λ _. IsWithinTree index.now (FTree.Spans look tree.now) steps.old steps.new) }
{
    let streams = streams_of(alloc, index, look, tree, steps)?;
    let node = Box::new(alloc, Node::Spans(streams))?;
    Ok(node)
}

#[inline(never)]
pub(crate) fn count_node<'a, L: Ledger>(
    alloc: Global,
    index: &'a Index,
    look: Look,
    leaf: &Leaf,
    from: u32,
    to: Option<u32>,
    steps: &mut Steps<L>,
) -> Result<Box<Node<'a>>, AllocError>
    ensures scores { IfOk result (λ node. IsNodeOf index.now (FTree.Count look leaf.now from to) node.value) }
    ensures cost { MatchResult result
        (λ node. IsWithinTree index.now (FTree.Count look leaf.now from to) steps.old (steps.new + node_rest node.value))
        (λ _. IsWithinTree index.now (FTree.Count look leaf.now from to) steps.old steps.new) }
{
    let stream = pattern_stream(alloc, index, look, &leaf.pattern, steps)?;
    let node = Box::new(alloc, Node::Count(Counted { stream, from, to }))?;
    Ok(node)
}

#[inline(never)]
pub(crate) fn edge_node<'a, L: Ledger>(
    alloc: Global,
    index: &'a Index,
    look: Look,
    leaf: &Leaf,
    starts: bool,
    ends: bool,
    steps: &mut Steps<L>,
) -> Result<Box<Node<'a>>, AllocError>
    ensures scores { IfOk result (λ node. IsNodeOf index.now (FTree.Edge look leaf.now starts ends) node.value) }
    ensures cost { MatchResult result
        (λ node. IsWithinTree index.now (FTree.Edge look leaf.now starts ends) steps.old (steps.new + node_rest node.value))
        (λ _. IsWithinTree index.now (FTree.Edge look leaf.now starts ends) steps.old steps.new) }
{
    let _tokens = leaf.pattern.len();
    let stream = pattern_stream(alloc, index, look, &leaf.pattern, steps)?;
    let edges = Edges {
        index,
        stream,
        starts,
        ends,
    };
    let node = Box::new(alloc, Node::Edge(edges))?;
    Ok(node)
}

#[inline(never)]
pub(crate) fn within_node<'a, L: Ledger>(
    alloc: Global,
    index: &'a Index,
    property: u32,
    first: i64,
    last: i64,
    steps: &mut Steps<L>,
) -> Result<Box<Node<'a>>, AllocError>
    ensures scores { IfOk result (λ node. IsNodeOf index.now (FTree.Within property first last) node.value) }
    ensures cost { MatchResult result
        (λ node. IsWithinTree index.now (FTree.Within property first last) steps.old (steps.new + node_rest node.value))
        (λ _. IsWithinTree index.now (FTree.Within property first last) steps.old steps.new) }
{
    let values = index.values(property, steps);
    let node = Box::new(
        alloc,
        Node::Within(Ranged {
            values,
            first,
            last,
        }),
    )?;
    Ok(node)
}
