//! The index of a corpus: its lists by a token and by a beginning, numbers, claims, lengths, and a list that is sought
//! from block to block.
ghost use Rattle.std.specs.Prelude.{◌≡◌, ◌<◌, length};

use crate::corpus::{WORKED, corpus_of};
use sq_base::{Steps, Text};
use sq_build::build_index;
use sq_cursor::{ItemCursor, SpanCursor};
use sq_postings::Index;
use sq_trim::Admitted;
use std::alloc::{AllocError, Global};
use std::marker::Brand;
use std::sync::ledger::{Blank, Ledger};
use std::test::Fail;

/// How many lists of a property fit a token, and how many postings each of them has.
fn lists(
    alloc: Global,
    index: &Index,
    property: u32,
    token: &str,
    prefixed: bool,
) -> Result<String, AllocError> {
    let lists = index.rows(property, token, prefixed);
    let mut given = String::new(alloc);
    for list in lists {
        if list < index.lists() {
            let count = index.list_len(list);
            given.push_str(&format!(in alloc; "{count} ")?)?;
        }
    }
    Ok(given)
}

/// Tokens asked of a property, whether as beginnings, and how many postings each list has. The tokens of title, body and
/// author are annual, board, debt, memo, notes, report; acquisition, and, bank, before, company, debt, merger, new, of, old,
/// the; ann, smith. The size has none, and there is no property 7.
const ASKED: [(u32, &str, bool, &str); 36] = [
    (1, "debt", false, "2 "),
    (1, "deb", false, ""),
    (1, "deb", true, "2 "),
    (1, "debts", true, ""),
    (1, "a", false, ""),
    (1, "a", true, "2 1 "),
    (1, "abc", true, ""),
    (1, "acquisition", false, "2 "),
    (1, "acquisition", true, "2 "),
    (1, "acquisitio", true, "2 "),
    (1, "acquisitions", true, ""),
    (1, "\u{1}", true, ""),
    (1, "t", true, "2 "),
    (1, "the", false, "2 "),
    (1, "the", true, "2 "),
    (1, "thex", true, ""),
    (1, "thex", false, ""),
    (1, "zzz", true, ""),
    (1, "\u{10ffff}", true, ""),
    (1, "b", true, "2 1 "),
    (1, "o", true, "2 1 "),
    (1, "", true, "2 1 2 1 1 2 1 1 2 1 2 "),
    (1, "", false, ""),
    (0, "", true, "1 1 1 1 1 1 "),
    (0, "annual", false, "1 "),
    (0, "report", true, "1 "),
    (0, "reports", true, ""),
    (0, "smith", false, ""),
    (2, "", true, "1 1 "),
    (2, "smith", false, "1 "),
    (2, "annual", false, ""),
    (3, "docx", false, "1 "),
    (4, "", true, ""),
    (6, "", true, ""),
    (7, "", true, ""),
    (4_294_967_295, "", true, ""),
];

#[test]
fn lists_are_found_by_tokens_and_by_beginnings(rt: HostRuntime) -> Result<(), Fail> {
    let alloc = rt.alloc();
    let corpus = corpus_of(alloc, WORKED)?;
    let index = build_index(alloc, &corpus)?;
    for (property, token, prefixed, want) in ASKED {
        let given = lists(alloc, &index, property, token, prefixed)?;
        assert_eq!(rt; given.as_str(), want, "at {property} {token}");
    }
    Ok(())
}

/// The numbers of a property, each behind its row.
fn numbers<L: Ledger>(
    alloc: Global,
    blank: Blank,
    index: &Index,
    property: u32,
    from: u32,
) -> Result<String, AllocError>
    requires name { blank.name ≡ L.name }
    requires parts { blank.parts ≡ L.parts }
    requires some { 0 < blank.parts }
{
    let steps = &mut Steps::<L>::new(blank);
    let mut values = index.values(property, steps);
    values.seek(from, steps);
    let mut given = String::new(alloc);
    for _ in 0..10 {
        let Some((row, number)) = values.here() else {
            return Ok(given);
        };
        given.push_str(&format!(in alloc; "{row} {number};")?)?;
        values.step(steps);
    }
    Ok(given)
}

/// Three items: one with numbers that don't rise, one with none, one that claims deny.
const NUMBERS: &str = "SQCORPUS 1
property\tbody\ttext\tsm
property\tsize\tinteger\tm
caller\tAnn\tstaff
item\t1\t0\thttp://s/1
allow\tstaff
deny
value\tbody\tone two
value\tbody\t
value\tbody\tone
value\tsize\t7
value\tsize\t-3
value\tsize\t7
item\t4\t0\thttp://s/4
allow\tstaff\tboard
deny\ttemp
item\t9\t0\thttp://s/9
allow\tboard
deny
value\tsize\t0
";

#[test]
fn numbers_rise_within_an_item(rt: HostRuntime) -> Result<(), Fail> {
    let alloc = rt.alloc();
    let corpus = corpus_of(alloc, NUMBERS)?;
    let index = build_index(alloc, &corpus)?;
    let rows = [
        (1, 0, "0 -3;0 7;0 7;2 0;"),
        (1, 1, "2 0;"),
        (1, 2, "2 0;"),
        (1, 3, ""),
        (0, 0, ""),
        (2, 0, ""),
    ];
    for (property, from, want) in &rows {
        let given = numbers::<Brand>(alloc, Blank::new(1), &index, *property, *from)?;
        assert_eq!(rt; given.as_str(), *want, "at {property} {from}");
    }
    Ok(())
}

/// The claims of these names.
fn claims_of(alloc: Global, names: &str) -> Result<Vec<Text>, AllocError> {
    let mut claims = Vec::new(alloc);
    for name in names.split(' ') {
        claims.push(Text::from_str(alloc, name)?)?;
    }
    Ok(claims)
}

/// The rows that claims admit, from a row on.
fn admitted<L: Ledger>(
    alloc: Global,
    blank: Blank,
    index: &Index,
    claims: &Vec<Text>,
    from: u32,
) -> Result<String, AllocError>
    requires name { blank.name ≡ L.name }
    requires parts { blank.parts ≡ L.parts }
    requires some { 0 < blank.parts }
{
    let steps = &mut Steps::<L>::new(blank);
    let mut rows = Admitted::begin(alloc, index, claims, steps)?;
    rows.seek(from, steps);
    let mut given = String::new(alloc);
    for _ in 0..10 {
        let Some(row) = rows.here() else {
            return Ok(given);
        };
        given.push_str(&format!(in alloc; "{row};")?)?;
        rows.step(steps);
    }
    Ok(given)
}

#[test]
fn claims_admit_and_deny(rt: HostRuntime) -> Result<(), Fail> {
    let alloc = rt.alloc();
    let corpus = corpus_of(alloc, NUMBERS)?;
    let index = build_index(alloc, &corpus)?;
    let rows = [
        ("staff", 0, "0;1;"),
        ("staff staff", 0, "0;1;"),
        ("staff", 1, "1;"),
        ("staff", 2, ""),
        ("staff board", 0, "0;1;2;"),
        ("staff board", 1, "1;2;"),
        ("board", 2, "2;"),
        ("board", 3, ""),
        ("staff temp", 0, "0;"),
        ("temp board", 0, "2;"),
        ("temp", 0, ""),
        ("chief", 0, ""),
        ("Staff", 0, ""),
        ("staf", 0, ""),
        ("chief board", 0, "1;2;"),
        ("", 0, ""),
    ];
    for row in &rows {
        let (names, from, want) = *row;
        let claims = claims_of(alloc, names)?;
        let given = admitted::<Brand>(alloc, Blank::new(1), &index, &claims, from)?;
        assert_eq!(rt; given.as_str(), want, "at {names} {from}");
    }
    Ok(())
}

/// The lengths of four passages of an item, from a part on.
fn lengths<L: Ledger>(
    alloc: Global,
    blank: Blank,
    index: &Index,
    row: u32,
    from: u16,
) -> Result<String, AllocError>
    requires name { blank.name ≡ L.name }
    requires parts { blank.parts ≡ L.parts }
    requires some { 0 < blank.parts }
{
    let steps = &mut Steps::<L>::new(blank);
    let mut given = String::new(alloc);
    for part in 0..4 {
        let length = index.passage_length((row, u32::from(from) + part), steps);
        given.push_str(&format!(in alloc; "{length};")?)?;
    }
    Ok(given)
}

#[test]
fn passages_that_are_not_there_have_no_tokens(rt: HostRuntime) -> Result<(), Fail> {
    let alloc = rt.alloc();
    let corpus = corpus_of(alloc, NUMBERS)?;
    let index = build_index(alloc, &corpus)?;
    // the first item has three passages in its body, the others none; the size has none
    let rows = [
        (0, 0, "2;0;1;0;"),
        (0, 1, "0;1;0;0;"),
        (1, 0, "0;0;0;0;"),
        (2, 0, "0;0;0;0;"),
        (3, 0, "0;0;0;0;"),
        (4_294_967_295, 0, "0;0;0;0;"),
        (0, 999, "0;0;0;0;"),
        (0, 2_000, "0;0;0;0;"),
        (0, 65_535, "0;0;0;0;"),
    ];
    for (row, from, want) in &rows {
        let given = lengths::<Brand>(alloc, Blank::new(1), &index, *row, *from)?;
        assert_eq!(rt; given.as_str(), *want, "at {row} {from}");
    }
    Ok(())
}

/// An item whose first passage has one word at 2 and at 202, two without values, and one that has it first in its second.
fn spread(alloc: Global) -> Result<String, AllocError> {
    let mut text = String::from_str(
        alloc,
        "SQCORPUS 1\nproperty\tbody\ttext\tsm\nitem\t1\t0\tu\nallow\ndeny\nvalue\tbody\ta a x",
    )?;
    for _ in 0..199 {
        text.push_str(" a")?;
    }
    text.push_str(
        " x\nitem\t2\t0\tu\nallow\ndeny\nitem\t3\t0\tu\nallow\ndeny\nitem\t4\t0\tu\nallow\ndeny\nvalue\tbody\t\nvalue\tbody\tx\n",
    )?;
    Ok(text)
}

/// The first words of the code of the lists from one on and before another.
fn codes<L: Ledger>(
    alloc: Global,
    blank: Blank,
    index: &Index,
    start: u32,
    end: u32,
) -> Result<String, AllocError>
    requires name { blank.name ≡ L.name }
    requires parts { blank.parts ≡ L.parts }
    requires some { 0 < blank.parts }
{
    let steps = &mut Steps::<L>::new(blank);
    let mut given = String::new(alloc);
    for list in start..end {
        for at in 0..10 {
            if list < index.lists() {
                if let Some(word) = index.list_word(list, at, steps) {
                    given.push_str(&format!(in alloc; "{word} ")?)?;
                }
            }
        }
    }
    Ok(given)
}

#[test]
fn a_list_has_the_words_of_its_postings(rt: HostRuntime) -> Result<(), Fail> {
    let alloc = rt.alloc();
    let text = spread(alloc)?;
    let rows = [
        (text.as_str(), "x", "3 196611 131072 50448384 1 "),
        (text.as_str(), "y", ""),
        (NUMBERS, "one", "0 131074 0 2 "),
        (NUMBERS, "two", "0 65537 65536 "),
    ];
    for row in &rows {
        let (text, token, want) = *row;
        let corpus = corpus_of(alloc, text)?;
        let index = build_index(alloc, &corpus)?;
        let lists = index.rows(0, token, false);
        let given = codes::<Brand>(alloc, Blank::new(1), &index, lists.start, lists.end)?;
        assert_eq!(rt; given.as_str(), want, "at {token}");
    }
    Ok(())
}

/// Items that all have two words, of which some have one twice: lists of three blocks.
fn many(alloc: Global, count: u32) -> Result<String, AllocError> {
    let mut text = String::from_str(alloc, "SQCORPUS 1\nproperty\tbody\ttext\ts\n")?;
    for item in 1..=count {
        let words = if item % 10 == 0 {
            "word a word"
        } else {
            "a word"
        };
        text.push_str(&format!(in alloc;
            "item\t{item}\t0\tu\nallow\ndeny\nvalue\tbody\t{words}\n"
        )?)?;
    }
    Ok(text)
}

/// The numbers that stand in a text between single blanks.
fn rows_of(alloc: Global, text: &str) -> Result<Vec<u32>, AllocError> {
    let mut rows = Vec::new(alloc);
    for row in text.split(' ') {
        rows.push(row.parse::<u32>().unwrap_or(0))?;
    }
    Ok(rows)
}

/// The first span from each of these rows on, in a list, and 999 at its end; nothing where there is no such list.
fn sought<L: Ledger>(
    alloc: Global,
    blank: Blank,
    index: &Index,
    list: u32,
    rows: &Vec<u32>,
) -> Result<String, AllocError>
    requires name { blank.name ≡ L.name }
    requires parts { blank.parts ≡ L.parts }
    requires some { 0 < blank.parts }
{
    let steps = &mut Steps::<L>::new(blank);
    let mut given = String::new(alloc);
    if list < index.lists() {
        let mut cursor = index.cursor(list, steps);
        for row in rows {
            cursor.seek_passage((*row, 0), steps);
            let (here, _) = cursor.passage().unwrap_or((999, 0));
            let (first, _) = cursor.span().unwrap_or((0, 0));
            given.push_str(&format!(in alloc; "{here} {first};")?)?;
        }
    }
    Ok(given)
}

#[test]
fn a_list_is_sought_across_blocks(rt: HostRuntime) -> Result<(), Fail> {
    let alloc = rt.alloc();
    let text = many(alloc, 300)?;
    let corpus = corpus_of(alloc, text.as_str())?;
    let index = build_index(alloc, &corpus)?;
    // of a word that each item has once, the blocks end at the rows 127, 255 and 299
    let rows = [
        (
            "word",
            "0 9 120 121 255 299 300",
            "0 1;9 0;120 1;121 1;255 1;299 0;999 0;",
        ),
        (
            "a",
            "0 127 128 255 256 299 300",
            "0 0;127 0;128 0;255 0;256 0;299 1;999 0;",
        ),
        (
            "a",
            "127 127 128 128 255 255 256 256",
            "127 0;127 0;128 0;128 0;255 0;255 0;256 0;256 0;",
        ),
        ("a", "126 127 129 254 257", "126 0;127 0;129 1;254 0;257 0;"),
        ("a", "128 127", "128 0;128 0;"),
        ("a", "255 0", "255 0;255 0;"),
        ("a", "256", "256 0;"),
        ("a", "299 299", "299 1;299 1;"),
        ("a", "300 0", "999 0;999 0;"),
        ("a", "4294967295", "999 0;"),
        ("word", "127 128 255 256", "127 1;128 1;255 1;256 1;"),
        ("none", "0", ""),
    ];
    for row in &rows {
        let (token, sought_rows, want) = *row;
        let rows = rows_of(alloc, sought_rows)?;
        let lists = index.rows(0, token, false);
        let mut given = String::new(alloc);
        for list in lists {
            let spans = sought::<Brand>(alloc, Blank::new(1), &index, list, &rows)?;
            given.push_str(spans.as_str())?;
        }
        assert_eq!(rt; given.as_str(), want, "at {want}");
    }
    Ok(())
}
