ghost use Rattle.std.specs.Prelude.{◌≡◌, ℕ, ◌+◌, ◌≤◌, map, sum, None, IfSome};
ghost use Rattle.sq_nodes.specs.Leaves.{IsBefore, plain};
ghost use Rattle.sq_nodes.specs.Scores.{node_score, node_rest, without_score, without_rest, ranked_score, ranked_rest, all_scores, some_scores};

use crate::kinds::{count_skip, edge_skip, spans_skip, within_skip};
use crate::leaves::earlier;
use crate::node::{Node, Ranked, Without};
use sq_base::Steps;
use std::sync::ledger::Ledger;

impl<'a> Node<'a> {
    /// A row from `row` on before which it holds of none from `row` on, and `None` where it holds of
    /// none from `row` on. It moves past those rows, and not past the one that it gives.
    #[cycle(skip)]
    pub fn skip_to<L: Ledger>(&mut self, row: u32, steps: &mut Steps<L>) -> Option<u32>
        ensures none { (r : ℕ) → row ≤ r → IsBefore r result → node_score self.old r ≡ None }
        ensures forward { IfSome result (λ to. row ≤ to) }
        ensures later { (r : ℕ) → row ≤ r → node_score self.new r ≡ node_score self.old r }
        ensures cost { steps.new + node_rest self.new ≤ steps.old + node_rest self.old }
    {
        match self {
            Node::All => Some(row),
            Node::Spans(streams) => spans_skip(streams, row, steps),
            Node::Count(counted) => count_skip(counted, row, steps),
            Node::Edge(edges) => edge_skip(edges, row, steps),
            Node::Within(ranged) => within_skip(ranged, row, steps),
            Node::And(parts) => Node::all_skip(parts, row, steps),
            Node::Or(parts) => Node::some_skip(parts, row, steps),
            Node::AndNot(without) => Node::without_skip(without, row, steps),
            Node::Not(_) => Some(row),
            Node::Filter(inner) => Node::filter_skip(inner, row, steps),
            Node::Xrank(ranked) => Node::ranked_skip(ranked, row, steps),
        }
    }

    /// Each part moves on from where those before it lead.
    #[cycle(skip)]
    fn all_skip<L: Ledger>(parts: &mut Vec<Node<'_>>, row: u32, steps: &mut Steps<L>) -> Option<u32>
        ensures none { (r : ℕ) → row ≤ r → IsBefore r result → all_scores (map node_score parts.old.items) r ≡ None }
        ensures forward { IfSome result (λ to. row ≤ to) }
        ensures later { (r : ℕ) → row ≤ r → all_scores (map node_score parts.new.items) r ≡ all_scores (map node_score parts.old.items) r }
        ensures cost { steps.new + sum (map node_rest parts.new.items) ≤ steps.old + sum (map node_rest parts.old.items) }
    {
        let mut to = row;
        for i in 0..parts.len() {
            to = parts[i].skip_to(to, steps)?;
        }
        Some(to)
    }

    /// The first of the rows to which the parts lead.
    #[cycle(skip)]
    fn some_skip<L: Ledger>(
        parts: &mut Vec<Node<'_>>,
        row: u32,
        steps: &mut Steps<L>,
    ) -> Option<u32>
        ensures none { (r : ℕ) → row ≤ r → IsBefore r result → some_scores (map node_score parts.old.items) r ≡ None }
        ensures forward { IfSome result (λ to. row ≤ to) }
        ensures later { (r : ℕ) → row ≤ r → some_scores (map node_score parts.new.items) r ≡ some_scores (map node_score parts.old.items) r }
        ensures cost { steps.new + sum (map node_rest parts.new.items) ≤ steps.old + sum (map node_rest parts.old.items) }
    {
        let mut next: Option<u32> = None;
        for i in 0..parts.len() {
            next = earlier(next, parts[i].skip_to(row, steps));
        }
        next
    }

    #[cycle(skip)]
    fn filter_skip<L: Ledger>(
        inner: &mut Box<Node<'_>>,
        row: u32,
        steps: &mut Steps<L>,
    ) -> Option<u32>
        ensures none { (r : ℕ) → row ≤ r → IsBefore r result → node_score inner.old.value r ≡ None }
        ensures forward { IfSome result (λ to. row ≤ to) }
        ensures later { (r : ℕ) → row ≤ r → node_score inner.new.value r ≡ node_score inner.old.value r }
        ensures cost { steps.new + node_rest inner.new.value ≤ steps.old + node_rest inner.old.value }
    {
        inner.skip_to(row, steps)
    }

    #[cycle(skip)]
    fn without_skip<L: Ledger>(
        without: &mut Without<'_>,
        row: u32,
        steps: &mut Steps<L>,
    ) -> Option<u32>
        ensures none { (r : ℕ) → row ≤ r → IsBefore r result → without_score without.old r ≡ None }
        ensures forward { IfSome result (λ to. row ≤ to) }
        ensures later { (r : ℕ) → row ≤ r → without_score without.new r ≡ without_score without.old r }
        ensures cost { steps.new + without_rest without.new ≤ steps.old + without_rest without.old }
    {
        without.first.skip_to(row, steps)
    }

    #[cycle(skip)]
    fn ranked_skip<L: Ledger>(
        ranked: &mut Ranked<'_>,
        row: u32,
        steps: &mut Steps<L>,
    ) -> Option<u32>
        ensures none { (r : ℕ) → row ≤ r → IsBefore r result → ranked_score ranked.old r ≡ None }
        ensures forward { IfSome result (λ to. row ≤ to) }
        ensures later { (r : ℕ) → row ≤ r → ranked_score ranked.new r ≡ ranked_score ranked.old r }
        ensures cost { steps.new + ranked_rest ranked.new ≤ steps.old + ranked_rest ranked.old }
    {
        ranked.matched.skip_to(row, steps)
    }
}
