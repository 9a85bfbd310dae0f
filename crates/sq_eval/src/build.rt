//! The node of an expression. An expression may nest to the greatest depth that its language allows, so the
//! functions that lead back here keep no large value: nodes stand in boxes.
ghost use Rattle.std.specs.Prelude.{◌≡◌, ℕ, ◌+◌, ◌++◌, ◌∷◌, [], map, sum, IfOk, OnOk, MatchResult};
ghost use Rattle.sq_eval.specs.Nodes.{IsNodeOf, AreNodesOf, IsWithinTree, IsWithinTrees, some_score};
ghost use Rattle.sq_nodes.specs.Scores.{node_score, node_rest, unless, with_boost};

use crate::leaves::{count_node, edge_node, spans_node, within_node};
use sq_base::Steps;
use sq_model::FTree;
use sq_nodes::{Node, Ranked, Without};
use sq_postings::Index;
use std::alloc::{AllocError, Global};
use std::sync::ledger::Ledger;

#[inline(never)]
fn boxed<'a>(alloc: Global, node: Node<'a>) -> Result<Box<Node<'a>>, AllocError>
    ensures { IfOk result (λ own. own.value ≡ node.entry) }
{
    let own = Box::new(alloc, node)?;
    Ok(own)
}

#[inline(never)]
fn push_node<'a>(nodes: &mut Vec<Node<'a>>, node: Box<Node<'a>>) -> Result<(), AllocError>
    ensures { OnOk result (nodes.new.items ≡ nodes.old.items ++ node.entry.value ∷ []) }
{
    nodes.push(Box::into_inner(node))?;
    Ok(())
}

#[inline(never)]
fn without_node<'a>(
    alloc: Global,
    first: Box<Node<'a>>,
    others: Vec<Node<'a>>,
) -> Result<Box<Node<'a>>, AllocError>
    ensures scores { IfOk result (λ node. (row : ℕ) → node_score node.value row ≡ unless (some_score row others.entry.items) (node_score first.entry.value row)) }
    ensures rest { IfOk result (λ node. node_rest node.value ≡ node_rest first.entry.value + sum (map node_rest others.entry.items)) }
{
    let node = Box::new(alloc, Node::AndNot(Without { first, others }))?;
    Ok(node)
}

#[inline(never)]
fn ranked_node<'a>(
    alloc: Global,
    matched: Box<Node<'a>>,
    ranks: Vec<Node<'a>>,
    boost: i64,
) -> Result<Box<Node<'a>>, AllocError>
    ensures scores { IfOk result (λ node. (row : ℕ) → node_score node.value row ≡ with_boost (some_score row ranks.entry.items) boost (node_score matched.entry.value row)) }
    ensures rest { IfOk result (λ node. node_rest node.value ≡ node_rest matched.entry.value + sum (map node_rest ranks.entry.items)) }
{
    let ranked = Ranked {
        matched,
        ranks,
        boost,
    };
    let node = Box::new(alloc, Node::Xrank(ranked))?;
    Ok(node)
}

/// The node of an expression. Its rest and the steps of making it are together at most what the expression
/// costs.
#[cycle(node_of)]
pub(crate) fn node_of<'a, L: Ledger>(
    alloc: Global,
    index: &'a Index,
    tree: &FTree,
    steps: &mut Steps<L>,
) -> Result<Box<Node<'a>>, AllocError>
    ensures scores { IfOk result (λ node. IsNodeOf index.now tree.now node.value) }
    ensures cost { MatchResult result
        (λ node. IsWithinTree index.now tree.now steps.old (steps.new + node_rest node.value))
        (λ _. IsWithinTree index.now tree.now steps.old steps.new) }
{
    match tree {
        FTree::All => boxed(alloc, Node::All),
        FTree::Spans { look, tree } => spans_node(alloc, index, *look, tree, steps),
        FTree::Count {
            look,
            leaf,
            from,
            to,
        } => count_node(alloc, index, *look, leaf, *from, *to, steps),
        FTree::Edge {
            look,
            leaf,
            starts,
            ends,
        } => edge_node(alloc, index, *look, leaf, *starts, *ends, steps),
        FTree::Within {
            property,
            first,
            last,
        } => within_node(alloc, index, *property, *first, *last, steps),
        FTree::And(parts) => and_node(alloc, index, parts.as_slice(), steps),
        FTree::Or(parts) => or_node(alloc, index, parts.as_slice(), steps),
        FTree::AndNot { first, others } => {
            let first_node = node_of(alloc, index, first.get(), steps)?;
            let other_nodes = nodes_of(alloc, index, others.as_slice(), steps)?;
            let node = without_node(alloc, first_node, other_nodes)?;
            Ok(node)
        }
        FTree::Not(inner) => not_node(alloc, index, inner.get(), steps),
        FTree::Filter(inner) => filter_node(alloc, index, inner.get(), steps),
        FTree::Xrank { matched, ranks, cb } => {
            let matched_node = node_of(alloc, index, matched.get(), steps)?;
            let rank_nodes = nodes_of(alloc, index, ranks.as_slice(), steps)?;
            let node = ranked_node(alloc, matched_node, rank_nodes, *cb)?;
            Ok(node)
        }
    }
}

#[cycle(node_of)]
fn nodes_of<'a, L: Ledger>(
    alloc: Global,
    index: &'a Index,
    trees: &[FTree],
    steps: &mut Steps<L>,
) -> Result<Vec<Node<'a>>, AllocError>
    ensures scores { IfOk result (λ nodes. AreNodesOf index.now trees.now nodes.items) }
    ensures cost { MatchResult result
        (λ nodes. IsWithinTrees index.now trees.now steps.old (steps.new + sum (map node_rest nodes.items)))
        (λ _. IsWithinTrees index.now trees.now steps.old steps.new) }
{
    let mut nodes = Vec::new(alloc);
    for tree in trees {
        let node = node_of(alloc, index, tree, steps)?;
        push_node(&mut nodes, node)?;
    }
    Ok(nodes)
}

#[cycle(node_of)]
fn and_node<'a, L: Ledger>(
    alloc: Global,
    index: &'a Index,
    parts: &[FTree],
    steps: &mut Steps<L>,
) -> Result<Box<Node<'a>>, AllocError>
    ensures scores { IfOk result (λ node. IsNodeOf index.now (FTree.And parts.now) node.value) }
    ensures cost { MatchResult result
        (λ node. IsWithinTree index.now (FTree.And parts.now) steps.old (steps.new + node_rest node.value))
        (λ _. IsWithinTree index.now (FTree.And parts.now) steps.old steps.new) }
{
    let nodes = nodes_of(alloc, index, parts, steps)?;
    let node = boxed(alloc, Node::And(nodes))?;
    Ok(node)
}

#[cycle(node_of)]
fn or_node<'a, L: Ledger>(
    alloc: Global,
    index: &'a Index,
    parts: &[FTree],
    steps: &mut Steps<L>,
) -> Result<Box<Node<'a>>, AllocError>
    ensures scores { IfOk result (λ node. IsNodeOf index.now (FTree.Or parts.now) node.value) }
    ensures cost { MatchResult result
        (λ node. IsWithinTree index.now (FTree.Or parts.now) steps.old (steps.new + node_rest node.value))
        (λ _. IsWithinTree index.now (FTree.Or parts.now) steps.old steps.new) }
{
    let nodes = nodes_of(alloc, index, parts, steps)?;
    let node = boxed(alloc, Node::Or(nodes))?;
    Ok(node)
}

#[cycle(node_of)]
fn not_node<'a, L: Ledger>(
    alloc: Global,
    index: &'a Index,
    inner: &FTree,
    steps: &mut Steps<L>,
) -> Result<Box<Node<'a>>, AllocError>
    ensures scores { IfOk result (λ node. IsNodeOf index.now (FTree.Not inner.now) node.value) }
    ensures cost { MatchResult result
        (λ node. IsWithinTree index.now (FTree.Not inner.now) steps.old (steps.new + node_rest node.value))
        (λ _. IsWithinTree index.now (FTree.Not inner.now) steps.old steps.new) }
{
    let inner = node_of(alloc, index, inner, steps)?;
    let node = boxed(alloc, Node::Not(inner))?;
    Ok(node)
}

#[cycle(node_of)]
fn filter_node<'a, L: Ledger>(
    alloc: Global,
    index: &'a Index,
    inner: &FTree,
    steps: &mut Steps<L>,
) -> Result<Box<Node<'a>>, AllocError>
    ensures scores { IfOk result (λ node. IsNodeOf index.now (FTree.Filter inner.now) node.value) }
    ensures cost { MatchResult result
        (λ node. IsWithinTree index.now (FTree.Filter inner.now) steps.old (steps.new + node_rest node.value))
        (λ _. IsWithinTree index.now (FTree.Filter inner.now) steps.old steps.new) }
{
    let inner = node_of(alloc, index, inner, steps)?;
    let node = boxed(alloc, Node::Filter(inner))?;
    Ok(node)
}
