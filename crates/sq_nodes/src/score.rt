ghost use Rattle.std.specs.Prelude.{◌≡◌, ℕ, ◌+◌, ◌≤◌, ◌<◌, not, map, sum, is_some, ◌+ℤ◌};
ghost use Rattle.sq_nodes.specs.Leaves.{plain};
ghost use Rattle.sq_nodes.specs.Scores.{node_score, node_rest, without_score, without_rest, ranked_score, ranked_rest, all_scores, some_scores, some_holds, added, saturated};

use crate::kinds::{count_score, edge_score, plain, spans_score, within_score};
use crate::node::{Node, Ranked, Without};
use sq_base::Steps;
use std::sync::ledger::Ledger;

/// The sum of two boosts, or what is nearest to it in 64 bits.
fn sum_of(total: i64, boost: i64) -> i64
    ensures { result ≡ saturated (total +ℤ boost) }
{
    total.saturating_add(boost)
}

/// The sum of two boosts, and the one that is there where the other is not.
fn added(total: Option<i64>, boost: Option<i64>) -> Option<i64>
    ensures { result ≡ added total boost }
{
    match (total, boost) {
        (Some(x), Some(y)) => Some(sum_of(x, y)),
        (Some(x), None) => Some(x),
        (None, other) => other,
    }
}

impl<'a> Node<'a> {
    /// The boost where it holds of a row, and else `None`. Rows must rise from call to call: of
    /// earlier ones, and of this one, nothing is known afterwards.
    #[cycle(score)]
    pub fn score<L: Ledger>(&mut self, row: u32, steps: &mut Steps<L>) -> Option<i64>
        ensures value { result ≡ node_score self.old row }
        ensures later { (r : ℕ) → row < r → node_score self.new r ≡ node_score self.old r }
        ensures cost { steps.new + node_rest self.new ≤ steps.old + node_rest self.old }
    {
        match self {
            Node::All => Some(0),
            Node::Spans(streams) => spans_score(streams, row, steps),
            Node::Count(counted) => count_score(counted, row, steps),
            Node::Edge(edges) => edge_score(edges, row, steps),
            Node::Within(ranged) => within_score(ranged, row, steps),
            Node::And(parts) => Node::all_score(parts, row, steps),
            Node::Or(parts) => Node::some_score(parts, row, steps),
            Node::AndNot(without) => Node::without_score(without, row, steps),
            Node::Not(inner) => Node::not_score(inner, row, steps),
            Node::Filter(inner) => Node::filter_score(inner, row, steps),
            Node::Xrank(ranked) => Node::ranked_score(ranked, row, steps),
        }
    }

    /// All boosts added, up to the first part that doesn't hold.
    #[cycle(score)]
    fn all_score<L: Ledger>(
        parts: &mut Vec<Node<'_>>,
        row: u32,
        steps: &mut Steps<L>,
    ) -> Option<i64>
        ensures value { result ≡ all_scores (map node_score parts.old.items) row }
        ensures later { (r : ℕ) → row < r → all_scores (map node_score parts.new.items) r ≡ all_scores (map node_score parts.old.items) r }
        ensures cost { steps.new + sum (map node_rest parts.new.items) ≤ steps.old + sum (map node_rest parts.old.items) }
    {
        let mut total: i64 = 0;
        for i in 0..parts.len() {
            let boost = parts[i].score(row, steps)?;
            total = sum_of(total, boost);
        }
        Some(total)
    }

    /// The boosts of all parts that hold, added.
    #[cycle(score)]
    fn some_score<L: Ledger>(
        parts: &mut Vec<Node<'_>>,
        row: u32,
        steps: &mut Steps<L>,
    ) -> Option<i64>
        ensures value { result ≡ some_scores (map node_score parts.old.items) row }
        ensures later { (r : ℕ) → row < r → some_scores (map node_score parts.new.items) r ≡ some_scores (map node_score parts.old.items) r }
        ensures cost { steps.new + sum (map node_rest parts.new.items) ≤ steps.old + sum (map node_rest parts.old.items) }
    {
        let mut total: Option<i64> = None;
        for i in 0..parts.len() {
            total = added(total, parts[i].score(row, steps));
        }
        total
    }

    /// Whether some part holds. It asks the parts up to the first that does.
    #[cycle(score)]
    fn some_holds<L: Ledger>(parts: &mut Vec<Node<'_>>, row: u32, steps: &mut Steps<L>) -> bool
        ensures value { result ≡ some_holds (map node_score parts.old.items) row }
        ensures later { (r : ℕ) → row < r → some_holds (map node_score parts.new.items) r ≡ some_holds (map node_score parts.old.items) r }
        ensures cost { steps.new + sum (map node_rest parts.new.items) ≤ steps.old + sum (map node_rest parts.old.items) }
    {
        for i in 0..parts.len() {
            if parts[i].score(row, steps).is_some() {
                return true;
            }
        }
        false
    }

    #[cycle(score)]
    fn not_score<L: Ledger>(
        inner: &mut Box<Node<'_>>,
        row: u32,
        steps: &mut Steps<L>,
    ) -> Option<i64>
        ensures value { result ≡ plain (not (is_some (node_score inner.old.value row))) }
        ensures later { (r : ℕ) → row < r → node_score inner.new.value r ≡ node_score inner.old.value r }
        ensures cost { steps.new + node_rest inner.new.value ≤ steps.old + node_rest inner.old.value }
    {
        plain(inner.score(row, steps).is_none())
    }

    #[cycle(score)]
    fn filter_score<L: Ledger>(
        inner: &mut Box<Node<'_>>,
        row: u32,
        steps: &mut Steps<L>,
    ) -> Option<i64>
        ensures value { result ≡ plain (is_some (node_score inner.old.value row)) }
        ensures later { (r : ℕ) → row < r → node_score inner.new.value r ≡ node_score inner.old.value r }
        ensures cost { steps.new + node_rest inner.new.value ≤ steps.old + node_rest inner.old.value }
    {
        plain(inner.score(row, steps).is_some())
    }

    /// It asks the others only where the first holds.
    #[cycle(score)]
    fn without_score<L: Ledger>(
        without: &mut Without<'_>,
        row: u32,
        steps: &mut Steps<L>,
    ) -> Option<i64>
        ensures value { result ≡ without_score without.old row }
        ensures later { (r : ℕ) → row < r → without_score without.new r ≡ without_score without.old r }
        ensures cost { steps.new + without_rest without.new ≤ steps.old + without_rest without.old }
    {
        let boost = without.first.score(row, steps)?;
        if Node::some_holds(&mut without.others, row, steps) {
            return None;
        }
        Some(boost)
    }

    /// It asks the ranks only where the matched one holds.
    #[cycle(score)]
    fn ranked_score<L: Ledger>(
        ranked: &mut Ranked<'_>,
        row: u32,
        steps: &mut Steps<L>,
    ) -> Option<i64>
        ensures value { result ≡ ranked_score ranked.old row }
        ensures later { (r : ℕ) → row < r → ranked_score ranked.new r ≡ ranked_score ranked.old r }
        ensures cost { steps.new + ranked_rest ranked.new ≤ steps.old + ranked_rest ranked.old }
    {
        let boost = ranked.matched.score(row, steps)?;
        if Node::some_holds(&mut ranked.ranks, row, steps) {
            return Some(sum_of(boost, ranked.boost));
        }
        Some(boost)
    }
}
