//! Coded lists of postings: the worked code, and three blocks that grow, are sealed, read back and
//! sought.
ghost use Rattle.std.specs.Prelude.{◌≡◌, ◌<◌, ◌≤◌, length, IfOk};

use sq_base::Steps;
use sq_coded::{Lists, OpenLists, Posting, Reader, coded, follows_last};
use std::alloc::{AllocError, Global};
use std::marker::Brand;
use std::sync::ledger::{Blank, Ledger};
use std::test::Fail;

fn posting(row: u32) -> Posting
    requires { row < 900 }
    ensures { result.row ≡ row }
{
    Posting {
        row,
        ordinal: row % 3,
        place: row * 70_000,
    }
}

fn entry(row: u32, ordinal: u32, place: u32) -> Posting
    ensures { result ≡ record { row = row; ordinal = ordinal; place = place } }
{
    Posting {
        row,
        ordinal,
        place,
    }
}

/// One list with a posting in each row.
fn list_of(alloc: Global, rows: u32) -> Result<Lists, AllocError>
    requires { rows ≤ 900 }
    ensures { IfOk result (λ lists. length lists ≡ 1) }
{
    follows_last();
    let mut growing = OpenLists::new(alloc);
    growing.start()?;
    for row in 0..rows {
        growing.push(0, posting(row))?;
    }
    let lists = growing.seal()?;
    Ok(lists)
}

/// Whether a reader gives just the postings of so many rows.
fn gives<L: Ledger>(reader: &mut Reader<'_>, rows: u32, steps: &mut Steps<L>) -> bool
    requires { rows ≤ 900 }
{
    for row in 0..rows {
        let Some(here) = reader.here() else {
            return false;
        };
        if here != posting(row) {
            return false;
        }
        reader.step(steps);
    }
    reader.here().is_none()
}

/// Whether 300 postings come back, and where seeks over blocks lead.
fn read_back<L: Ledger>(
    alloc: Global,
    blank: Blank,
) -> Result<(bool, Option<Posting>, Option<Posting>, Option<Posting>), AllocError>
    requires name { blank.name ≡ L.name }
    requires parts { blank.parts ≡ L.parts }
    requires some { 0 < blank.parts }
{
    let steps = &mut Steps::<L>::new(blank);
    let lists = list_of(alloc, 300)?;
    let whole = gives(&mut Reader::new(&lists, 0, steps), 300, steps);
    let mut reader = Reader::new(&lists, 0, steps);
    reader.seek(150, 1, steps);
    let second = reader.here();
    reader.seek(299, 2, steps);
    let third = reader.here();
    reader.seek(300, 0, steps);
    Ok((whole, second, third, reader.here()))
}

#[test]
fn three_blocks_come_back(rt: HostRuntime) -> Result<(), Fail> {
    let (whole, second, third, end) = read_back::<Brand>(rt.alloc(), Blank::new(1))?;
    assert!(rt; whole);
    assert_eq!(rt; second, Some(posting(151)));
    assert_eq!(rt; third, Some(posting(299)));
    assert_eq!(rt; end, None);
    Ok(())
}

#[test]
fn three_postings_have_five_words(rt: HostRuntime) -> Result<(), Fail> {
    let entries = [entry(0, 0, 2), entry(0, 0, 202), entry(3, 1, 0)];
    let words = coded(rt.alloc(), &entries)?;
    assert_eq!(rt;
        words.as_slice(),
        [3, 196_611, 131_072, 50_448_384, 1].as_slice()
    );
    Ok(())
}
