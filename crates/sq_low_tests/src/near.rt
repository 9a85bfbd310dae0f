//! Joins and merges of spans: of one text, of several passages, nested, and many.
ghost use Rattle.std.specs.Prelude.{◌≡◌, ◌<◌, true};
ghost use Rattle.sq_cursor.specs.Spans.{are_ordered};

use sq_base::Steps;
use sq_cursor::{Span, SpanCursor, SpanListCursor};
use sq_near::{Joined, Merged, Stream};
use std::alloc::{AllocError, Global};
use std::marker::Brand;
use std::sync::ledger::{Blank, Ledger};
use std::test::Fail;

/// Some tokens of a passage of row 2.
fn span(part: u32, first: u32, last: u32) -> Span
    ensures { result ≡ record { row = 2; part = part; first = first; last = last } }
{
    Span {
        row: 2,
        part,
        first,
        last,
    }
}

fn leaf<'a, L: Ledger>(spans: &'a [Span], steps: &mut Steps<L>) -> Stream<SpanListCursor<'a>>
    requires { are_ordered spans.now ≡ true }
{
    Stream::Leaf(SpanListCursor::new(spans, steps))
}

/// Whether a stream gives just these spans.
fn gives<C: SpanCursor, L: Ledger>(stream: &mut C, spans: &[Span], steps: &mut Steps<L>) -> bool {
    for span in spans {
        let Some((row, part)) = stream.passage() else {
            return false;
        };
        if row != span.row || part != span.part || stream.span() != Some((span.first, span.last)) {
            return false;
        }
        stream.step_span(steps);
    }
    stream.passage().is_none()
}

/// The least covers of two lists, compared with spans.
fn joins<L: Ledger>(
    alloc: Global,
    a: &[Span],
    b: &[Span],
    width: u32,
    ordered: bool,
    spans: &[Span],
    steps: &mut Steps<L>,
) -> Result<bool, AllocError>
    requires a { are_ordered a.now ≡ true }
    requires b { are_ordered b.now ≡ true }
{
    let parts = vec![in alloc; leaf(a, steps), leaf(b, steps)]?;
    let mut joined = Joined::new(alloc, parts, width, ordered, steps)?;
    Ok(gives(&mut joined, spans, steps))
}

/// Of the text `merger of the old bank`: `near(merger, bank)` at a distance of two tokens and a width
/// of four, `near(merger, "old bank")` at the same distance and so a width of five, and `"old bank"`
/// with `bank`, which share a token, in any order and in theirs.
fn of_one_text<L: Ledger>(alloc: Global, blank: Blank) -> Result<bool, AllocError>
    requires name { blank.name ≡ L.name }
    requires parts { blank.parts ≡ L.parts }
    requires some { 0 < blank.parts }
{
    let steps = &mut Steps::<L>::new(blank);
    let merger = [span(1000, 0, 0)];
    let phrase = [span(1000, 3, 4)];
    let bank = [span(1000, 4, 4)];
    let short = joins(alloc, &merger, &bank, 4, false, &[], steps)?;
    let long = joins(
        alloc,
        &merger,
        &phrase,
        5,
        false,
        &[span(1000, 0, 4)],
        steps,
    )?;
    let shared = joins(alloc, &phrase, &bank, 5, false, &phrase, steps)?;
    let behind = joins(alloc, &phrase, &bank, 5, true, &[], steps)?;
    Ok(short && long && shared && behind)
}

/// Of the text `merger of the old bank with a new house`: `near(merger, old, new)` at a distance of
/// four tokens, which is one too few, and of five.
fn of_three<L: Ledger>(
    alloc: Global,
    blank: Blank,
    width: u32,
) -> Result<Option<(u32, u32)>, AllocError>
    requires name { blank.name ≡ L.name }
    requires parts { blank.parts ≡ L.parts }
    requires some { 0 < blank.parts }
{
    let steps = &mut Steps::<L>::new(blank);
    let merger = [span(1000, 0, 0)];
    let old = [span(1000, 3, 3)];
    let new = [span(1000, 7, 7)];
    let parts = vec![in alloc; leaf(&merger, steps), leaf(&old, steps), leaf(&new, steps)]?;
    let joined = Joined::new(alloc, parts, width, false, steps)?;
    Ok(joined.span())
}

/// Of the texts `a b x c d` and `c d a` of one row: `onear(or(onear(a, b), c), d)`, three tokens long
/// at most.
fn nested<L: Ledger>(alloc: Global, blank: Blank) -> Result<bool, AllocError>
    requires name { blank.name ≡ L.name }
    requires parts { blank.parts ≡ L.parts }
    requires some { 0 < blank.parts }
{
    let steps = &mut Steps::<L>::new(blank);
    let a = [span(1000, 0, 0), span(1001, 2, 2)];
    let b = [span(1000, 1, 1)];
    let c = [span(1000, 3, 3), span(1001, 0, 0)];
    let d = [span(1000, 4, 4), span(1001, 1, 1)];
    let parts = vec![in alloc; leaf(&a, steps), leaf(&b, steps)]?;
    let both = Joined::new(alloc, parts, 2, true, steps)?;
    let parts = vec![in alloc; Stream::Joined(both), leaf(&c, steps)]?;
    let either = Merged::new(alloc, parts, steps)?;
    let parts = vec![in alloc; Stream::Merged(either), leaf(&d, steps)]?;
    let mut all = Joined::new(alloc, parts, 3, true, steps)?;
    Ok(gives(&mut all, &[span(1000, 3, 4), span(1001, 0, 1)], steps))
}

/// Thirty lists merged: of spans that end together the shortest stays.
fn many<L: Ledger>(alloc: Global, blank: Blank) -> Result<bool, AllocError>
    requires name { blank.name ≡ L.name }
    requires parts { blank.parts ≡ L.parts }
    requires some { 0 < blank.parts }
{
    let steps = &mut Steps::<L>::new(blank);
    let long = [span(1000, 0, 2), span(1000, 3, 5), span(1002, 0, 1)];
    let short = [span(1000, 1, 2), span(1001, 7, 7)];
    let mut parts = Vec::new(alloc);
    for _ in 0..15 {
        parts.push(leaf(&long, steps))?;
        parts.push(leaf(&short, steps))?;
    }
    let mut merged = Merged::new(alloc, parts, steps)?;
    let spans = [
        span(1000, 1, 2),
        span(1000, 3, 5),
        span(1001, 7, 7),
        span(1002, 0, 1),
    ];
    Ok(gives(&mut merged, &spans, steps))
}

#[test]
fn near_measures_the_whole_interval(rt: HostRuntime) -> Result<(), Fail> {
    assert!(rt; of_one_text::<Brand>(rt.alloc(), Blank::new(1))?);
    assert_eq!(rt; of_three::<Brand>(rt.alloc(), Blank::new(1), 4 + 3)?, None);
    assert_eq!(rt;
        of_three::<Brand>(rt.alloc(), Blank::new(1), 5 + 3)?,
        Some((0, 7))
    );
    Ok(())
}

#[test]
fn streams_nest_and_merge(rt: HostRuntime) -> Result<(), Fail> {
    assert!(rt; nested::<Brand>(rt.alloc(), Blank::new(1))?);
    assert!(rt; many::<Brand>(rt.alloc(), Blank::new(1))?);
    Ok(())
}
