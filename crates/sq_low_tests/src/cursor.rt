//! Cursors over lists of rows and of spans, with a counter of steps.
ghost use Rattle.std.specs.Prelude.{◌≡◌, ◌<◌, true};
ghost use Rattle.sq_cursor.specs.Rows.{IsRising};
ghost use Rattle.sq_cursor.specs.Spans.{are_ordered};

use sq_base::Steps;
use sq_cursor::{And, AndNot, ItemCursor, ListCursor, Or, Span, SpanCursor, SpanListCursor};
use std::alloc::{AllocError, Global};
use std::marker::Brand;
use std::sync::ledger::{Blank, Ledger};
use std::test::Fail;

/// Whether a cursor gives just these rows.
fn gives<C: ItemCursor, L: Ledger>(cursor: &mut C, rows: &[u32], steps: &mut Steps<L>) -> bool {
    for row in rows {
        let Some(here) = cursor.here() else {
            return false;
        };
        if here != *row {
            return false;
        }
        cursor.step(steps);
    }
    cursor.here().is_none()
}

/// The rows of a or b that are rows of c, and then those that are not, from 3 on.
fn divided<L: Ledger>(
    alloc: Global,
    blank: Blank,
    a: &[u32],
    b: &[u32],
    c: &[u32],
) -> Result<bool, AllocError>
    requires name { blank.name ≡ L.name }
    requires parts { blank.parts ≡ L.parts }
    requires some { 0 < blank.parts }
    requires a_rises { IsRising a.now }
    requires b_rises { IsRising b.now }
    requires c_rises { IsRising c.now }
{
    let steps = &mut Steps::<L>::new(blank);
    steps.tick();
    let parts = vec![in alloc; ListCursor::new(a, steps), ListCursor::new(b, steps)]?;
    let either = Or::new(parts, steps);
    let within = ListCursor::new(c, steps);
    let mut both = And::new(either, within, steps);
    let parts = vec![in alloc; ListCursor::new(a, steps), ListCursor::new(b, steps)]?;
    let either = Or::new(parts, steps);
    let without = ListCursor::new(c, steps);
    let mut others = AndNot::new(either, without, steps);
    others.seek(3, steps);
    Ok(gives(&mut both, &[2, 4, 9], steps) && gives(&mut others, &[5, 7], steps))
}

#[test]
fn rows_of_two_lists_are_divided_by_a_third(rt: HostRuntime) -> Result<(), Fail> {
    assert!(rt;
        divided::<Brand>(
            rt.alloc(),
            Blank::new(1),
            &[1, 4, 5, 9],
            &[2, 4, 7],
            &[0, 2, 3, 4, 9],
        )?
    );
    Ok(())
}

/// The first span from a passage on, and the passage of the next.
fn two_spans<L: Ledger>(
    blank: Blank,
    spans: &[Span],
    passage: (u32, u32),
) -> (Option<(u32, u32)>, Option<(u32, u32)>)
    requires name { blank.name ≡ L.name }
    requires parts { blank.parts ≡ L.parts }
    requires some { 0 < blank.parts }
    requires ordered { are_ordered spans.now ≡ true }
{
    let steps = &mut Steps::<L>::new(blank);
    let mut cursor = SpanListCursor::new(spans, steps);
    cursor.seek_passage(passage, steps);
    let span = cursor.span();
    if span.is_some() {
        cursor.step_span(steps);
    }
    (span, cursor.passage())
}

fn span(row: u32, part: u32, first: u32, last: u32) -> Span
    ensures { result ≡ record { row = row; part = part; first = first; last = last } }
{
    Span {
        row,
        part,
        first,
        last,
    }
}

#[test]
fn a_span_cursor_goes_to_a_passage(rt: HostRuntime) {
    let spans = [
        span(1, 2000, 4, 4),
        span(3, 1000, 7, 9),
        span(3, 2000, 0, 1),
        span(3, 2000, 1, 2),
    ];
    let (first, next) = two_spans::<Brand>(Blank::new(1), &spans, (3, 1001));
    assert_eq!(rt; first, Some((0, 1)));
    assert_eq!(rt; next, Some((3, 2000)));
}
