ghost use Rattle.std.specs.Prelude.{◌≡◌, ◌+◌, ◌≤◌, ◌^◌, true, false, not, length, map, drop, [], slice_set, IfOk, MatchResult};
ghost use Rattle.std.specs.Coded.{le_prop};
ghost use Rattle.sq_cursor.specs.Rows.{without_first, rows_from};
ghost use Rattle.sq_trim.specs.Flags.{flagged, left_of, left_rises, marked, marked_all};
ghost use Rattle.sq_trim.specs.Trimmed.{claim_rows, claim_entries, flags_by, AreAdmitted, IsWithinCost};

use sq_base::{Steps, Text};
use sq_cursor::{ItemCursor, ListCursor};
use sq_postings::Index;
use std::alloc::{AllocError, Global};
use std::sync::ledger::Ledger;

/// The rows of the items that a caller may see, rising. Its moves take no memory, and count no step: all rows of the
/// caller's claims were read when it was made.
#[derive(Drop)]
pub struct Admitted {
    /// Of each row whether the caller may see its item.
    flags: Vec<bool>,
    /// The first row that is left.
    next: Option<u32>,
    ghost few: { length flags.items ≤ 2 ^ 32 } by { le_prop },
}

/// Flags a row, or takes its flag away. A row past the end has none.
fn flag(flags: &mut [bool], row: u32, is_admitted: bool)
    ensures { flags.new ≡ slice_set flags.old row is_admitted }
{
    if (row as usize) < flags.len() {
        flags[row as usize] = is_admitted;
    }
}

/// The same of the rows of a cursor.
fn mark<L: Ledger>(
    flags: &mut [bool],
    mut rows: ListCursor<'_>,
    is_admitted: bool,
    steps: &mut Steps<L>,
)
    ensures flags { flags.new ≡ marked is_admitted (⟦<ListCursor<'static> as ItemCursor>⟧.left rows.entry) flags.old }
    ensures cost { steps.new ≤ steps.old + ⟦<ListCursor<'static> as ItemCursor>⟧.rest rows.entry }
{
    while let Some(row) = rows.here() {
        flag(flags, row, is_admitted);
        rows.step(steps);
    }
}

/// The same of the rows of each claim: those that are allowed it are admitted, and those that are denied it are not.
fn mark_all<L: Ledger>(
    flags: &mut [bool],
    index: &Index,
    claims: &[Text],
    denied: bool,
    steps: &mut Steps<L>,
)
    ensures flags { flags.new ≡ marked_all (not denied) (map (claim_rows index.now denied) claims.now) flags.old }
    ensures cost { steps.new ≤ steps.old + claim_entries index.now denied claims.now }
{
    for claim in claims {
        let rows = index.claims(claim.as_str(), denied, steps);
        mark(flags, rows, !denied, steps);
    }
}

/// The first row from `from` on that is flagged.
fn first_from(flags: &[bool], from: usize) -> Option<u32>
    requires { length flags.now ≤ 2 ^ 32 }
    ensures { left_of result flags.now ≡ flagged from (drop from flags.now) }
{
    for row in from..flags.len() {
        if flags[row] {
            return Some(row as u32);
        }
    }
    None
}

/// The first flagged row behind `next`.
fn behind(flags: &[bool], next: Option<u32>) -> Option<u32>
    requires { length flags.now ≤ 2 ^ 32 }
    ensures { left_of result flags.now ≡ without_first (left_of next flags.now) }
{
    let row = next?;
    first_from(flags, row as usize + 1)
}

/// The first flagged row from `next` on that is not below `row`.
fn not_below(flags: &[bool], next: Option<u32>, row: u32) -> Option<u32>
    requires { length flags.now ≤ 2 ^ 32 }
    ensures { left_of result flags.now ≡ rows_from row (left_of next flags.now) }
{
    let here = next?;
    if here < row {
        first_from(flags, row as usize)
    } else {
        next
    }
}

/// Of each row whether a claim admits its item, and none denies it.
fn flags_of<L: Ledger>(
    alloc: Global,
    index: &Index,
    claims: &[Text],
    steps: &mut Steps<L>,
) -> Result<Vec<bool>, AllocError>
    ensures flags { IfOk result (λ flags. flags.items ≡ flags_by index.now claims.now) }
    ensures few { IfOk result (λ flags. length flags.items ≤ 2 ^ 32) }
    ensures cost { steps.new ≤ steps.old + (claim_entries index.now false claims.now + claim_entries index.now true claims.now) }
{
    let mut flags = vec![in alloc; false; index.items() as usize]?;
    mark_all(&mut flags, index, claims, false, steps);
    mark_all(&mut flags, index, claims, true, steps);
    Ok(flags)
}

impl Admitted {
    /// The rows of the items that a caller with these claims may see: of those whose list of claims that
    /// admit has one of them, those whose list of claims that deny has none. Steps and rest together are
    /// at most the numbers of items that each claim admits and denies.
    pub fn begin<L: Ledger>(
        alloc: Global,
        index: &Index,
        claims: &[Text],
        steps: &mut Steps<L>,
    ) -> Result<Admitted, AllocError>
        ensures left { IfOk result (λ admitted. AreAdmitted index.now claims.now (⟦<Admitted as ItemCursor>⟧.left admitted)) }
        ensures cost { MatchResult result
            (λ admitted. IsWithinCost index.now claims.now steps.old (steps.new + ⟦<Admitted as ItemCursor>⟧.rest admitted))
            (λ _. IsWithinCost index.now claims.now steps.old steps.new) }
    {
        let flags = flags_of(alloc, index, claims, steps)?;
        let next = first_from(&flags, 0);
        Ok(Admitted { flags, next })
    }

    /// No rows, for whoever has nothing to ask of any.
    pub fn none(alloc: Global) -> Admitted
        ensures left { ⟦<Admitted as ItemCursor>⟧.left result ≡ [] }
        ensures rest { ⟦<Admitted as ItemCursor>⟧.rest result ≡ 0 }
    {
        Admitted {
            flags: Vec::new(alloc),
            next: None,
        }
    }
}

impl ItemCursor for Admitted {
    ghost left = { λ c. left_of c.next c.flags.items };

    ghost rest = { λ _. 0 };

    ghost rising = { λ c. left_rises c.next c.flags.items };

    fn here(&self) -> Option<u32> {
        self.next
    }

    fn step<L: Ledger>(&mut self, _steps: &mut Steps<L>) {
        self.next = behind(&self.flags, self.next);
    }

    fn seek<L: Ledger>(&mut self, row: u32, _steps: &mut Steps<L>) {
        self.next = not_below(&self.flags, self.next, row);
    }
}
