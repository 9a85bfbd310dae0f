ghost use Rattle.std.specs.Prelude.{◌≡◌, ◌+◌, ◌≤◌, IfOk, MatchResult};
ghost use Rattle.sq_eval.specs.Meaning.{HasHits, IsWithinCost};

use crate::build::node_of;
use sq_base::{Steps, Text};
use sq_cursor::ItemCursor;
use sq_model::FTree;
use sq_nodes::Node;
use sq_postings::Index;
use sq_trim::Admitted;
use std::alloc::{AllocError, Global};
use std::sync::ledger::Ledger;

/// What is left of the admitted rows of which an expression holds, each with its boost.
#[derive(Drop)]
pub struct Plan<'a> {
    admitted: Admitted,
    tree: Node<'a>,
}

impl<'a> Plan<'a> {
    ghost use Rattle.sq_cursor.specs.Rows.{first_row, without_first as without_first_row};
    ghost use Rattle.sq_eval.specs.Meaning.{scored_rows};
    ghost use Rattle.sq_eval.specs.Plans.{admitted_left, plan_left, plan_rest, first, without_first};
    ghost use Rattle.sq_nodes.specs.Scores.{node_score};

    /// The plan of an expression, over the rows that a caller with these claims may see. Steps and rest together are at
    /// most what the claims and the expression cost. No row of a claim is read where the expression holds of no row.
    pub fn begin<L: Ledger>(
        alloc: Global,
        index: &'a Index,
        claims: &[Text],
        tree: &FTree,
        steps: &mut Steps<L>,
    ) -> Result<Plan<'a>, AllocError>
        ensures left { IfOk result (λ plan. HasHits index.now claims.now tree.now (plan_left plan)) }
        ensures cost { MatchResult result
            (λ plan. IsWithinCost index.now claims.now tree.now steps.old (steps.new + plan_rest plan))
            (λ _. IsWithinCost index.now claims.now tree.now steps.old steps.new) }
    {
        let node = node_of(alloc, index, tree, steps)?;
        let mut tree = Box::into_inner(node);
        match tree.skip_to(0, steps) {
            Some(_) => {
                let admitted = Admitted::begin(alloc, index, claims, steps)?;
                Ok(Plan { admitted, tree })
            }
            None => {
                let admitted = Admitted::none(alloc);
                Ok(Plan { admitted, tree })
            }
        }
    }

    /// The score of the admitted row at hand, which is passed.
    fn take<L: Ledger>(&mut self, row: u32, steps: &mut Steps<L>) -> Option<i64>
        requires { first_row (admitted_left self.old.admitted) ≡ Some row }
        ensures value { result ≡ node_score self.old.tree row }
        ensures left { plan_left self.new ≡ scored_rows (node_score self.old.tree) (without_first_row (admitted_left self.old.admitted)) }
        ensures rows { admitted_left self.new.admitted ≡ without_first_row (admitted_left self.old.admitted) }
        ensures cost { steps.new + plan_rest self.new ≤ steps.old + plan_rest self.old }
    {
        let score = self.tree.score(row, steps);
        self.admitted.step(steps);
        score
    }

    /// The next row of which the expression holds, with its boost, and `None` at the end. It takes no memory.
    pub fn next<L: Ledger>(&mut self, steps: &mut Steps<L>) -> Option<(u32, i64)>
        ensures value { result ≡ first (plan_left self.old) }
        ensures left { plan_left self.new ≡ without_first (plan_left self.old) }
        ensures cost { steps.new + plan_rest self.new ≤ steps.old + plan_rest self.old }
    {
        while let Some(row) = self.admitted.here() {
            let to = self.tree.skip_to(row, steps)?;
            if row < to {
                self.admitted.seek(to, steps);
            } else if let Some(boost) = self.take(row, steps) {
                return Some((row, boost));
            }
        }
        None
    }
}
