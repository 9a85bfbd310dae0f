ghost use Rattle.std.specs.Prelude.{◌≡◌, ℕ, ◌+◌, ◌*◌, ◌<◌, ◌≤◌, Some, map, sum_by, length, slice_index_or, IsPermutation};
ghost use Rattle.sq_cursor.specs.Parts.{is_after, stands_after, IsHeap, IsHeap-prop, IsHeapFrom, IsBeforeChildren};
ghost use Rattle.sq_cursor.specs.Rows.{union_of, IsRising-union_of, first_row, rows_from};

use crate::cursor::ItemCursor;
use sq_base::Steps;
use std::sync::ledger::Ledger;

/// The rows of all parts, which stand in a heap: no part is at a later row than its children, those
/// of the part at `p` being at `2p + 1` and `2p + 2`. So the first part stands at the first row, and
/// a move looks only at the parts that it moves and at their children on the way down.
#[derive(Drop)]
pub struct Or<C: ItemCursor> {
    parts: Vec<C>,
    ghost ordered: { IsHeap C.left parts.items } by { IsHeap-prop C.left parts.items },
}

/// Whether one row is after another, where the end is after each row.
fn is_later(a: Option<u32>, b: Option<u32>) -> bool
    ensures { result ≡ is_after a b }
{
    match a {
        Some(x) => match b {
            Some(y) => y < x,
            None => false,
        },
        None => b.is_some(),
    }
}

/// Whether the part at `a` stands after the part at `b`.
fn is_after_at<C: ItemCursor>(parts: &[C], a: usize, b: usize) -> bool
    requires a_in_bounds { a < length parts.now }
    requires b_in_bounds { b < length parts.now }
    ensures { (d : C) → stands_after C.left (slice_index_or parts.now a d) (slice_index_or parts.now b d) ≡ result }
{
    is_later(parts[a].here(), parts[b].here())
}

/// The child of the part at `p` that is not after its other child.
fn first_child<C: ItemCursor>(parts: &[C], p: usize) -> usize
    requires { p * 2 + 1 < length parts.now }
    ensures bounds { (p * 2 + 1 ≤ result) × (result ≤ p * 2 + 2) × (result < length parts.now) }
    ensures first { IsBeforeChildren C.left parts.now p result }
{
    let child = p * 2 + 1;
    if child + 1 == parts.len() {
        return child;
    }
    if is_after_at(parts, child, child + 1) {
        child + 1
    } else {
        child
    }
}

/// Moves the part at `root` down past those that are before it.
fn sift<C: ItemCursor>(parts: &mut Vec<C>, root: usize)
    ensures same { IsPermutation parts.old.items parts.new.items }
    ensures heap { IsHeapFrom C.left (root + 1) parts.old.items → IsHeapFrom C.left root parts.new.items }
{
    let mut at = root;
    while at < parts.len() / 2 {
        let child = first_child(parts.as_slice(), at);
        if !is_after_at(parts.as_slice(), at, child) {
            return;
        }
        parts.swap(at, child);
        at = child;
    }
}

/// Puts the parts in heap order.
fn order<C: ItemCursor>(parts: &mut Vec<C>)
    ensures same { IsPermutation parts.old.items parts.new.items }
    ensures heap { IsHeap C.left parts.new.items }
{
    let mut root = parts.len() / 2;
    while 0 < root {
        root -= 1;
        sift(parts, root);
    }
}

/// The first row of all parts.
fn first_of<C: ItemCursor>(parts: &[C]) -> Option<u32>
    requires { IsHeap C.left parts.now }
    ensures { result ≡ first_row (union_of (map C.left parts.now)) }
{
    parts.first()?.here()
}

/// Steps each part up to `row`, past it.
fn step_parts<C: ItemCursor, L: Ledger>(parts: &mut Vec<C>, row: u32, steps: &mut Steps<L>)
    requires { IsHeap C.left parts.old.items }
    ensures heap { IsHeap C.left parts.new.items }
    ensures left { union_of (map C.left parts.new.items) ≡ rows_from (row + 1) (union_of (map C.left parts.old.items)) }
    ensures cost { steps.new + sum_by C.rest parts.new.items ≤ steps.old + sum_by C.rest parts.old.items }
{
    while let Some(here) = first_of(parts.as_slice()) {
        if row < here {
            return;
        }
        parts[0].step(steps);
        sift(parts, 0);
    }
}

/// Seeks each part that stands below `row`.
fn seek_parts<C: ItemCursor, L: Ledger>(parts: &mut Vec<C>, row: u32, steps: &mut Steps<L>)
    requires { IsHeap C.left parts.old.items }
    ensures heap { IsHeap C.left parts.new.items }
    ensures left { union_of (map C.left parts.new.items) ≡ rows_from row (union_of (map C.left parts.old.items)) }
    ensures cost { steps.new + sum_by C.rest parts.new.items ≤ steps.old + sum_by C.rest parts.old.items }
{
    while let Some(here) = first_of(parts.as_slice()) {
        if row <= here {
            return;
        }
        parts[0].seek(row, steps);
        sift(parts, 0);
    }
}

impl<C: ItemCursor> Or<C> {
    /// A cursor over the rows that some part has. With no part it is at its end.
    pub fn new<L: Ledger>(parts: Vec<C>, _steps: &mut Steps<L>) -> Or<C>
        ensures left { ⟦<Or<C> as ItemCursor>⟧.left result ≡ union_of (map C.left parts.items) }
        ensures cost { _steps.new + ⟦<Or<C> as ItemCursor>⟧.rest result ≤ _steps.old + sum_by C.rest parts.items }
    {
        let mut parts = parts;
        order(&mut parts);
        Or { parts }
    }
}

impl<C: ItemCursor> ItemCursor for Or<C> {
    ghost left = { λ c. union_of (map C.left c.parts.items) };

    ghost rest = { λ c. sum_by C.rest c.parts.items };

    ghost rising = { λ c. IsRising-union_of (map C.left c.parts.items) };

    fn here(&self) -> Option<u32> {
        first_of(self.parts.as_slice())
    }

    fn step<L: Ledger>(&mut self, steps: &mut Steps<L>) {
        if let Some(row) = self.here() {
            step_parts(&mut self.parts, row, steps);
        }
    }

    fn seek<L: Ledger>(&mut self, row: u32, steps: &mut Steps<L>) {
        seek_parts(&mut self.parts, row, steps);
    }
}
