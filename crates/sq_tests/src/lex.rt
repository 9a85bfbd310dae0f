//! Lexemes of both languages.

use sq_base::Fault;
use sq_lex::{Cut, FKind, FLexeme, KKind, KLexeme, Relation, fql_lexemes, kql_lexemes};
use std::alloc::Global;
use std::test::Fail;

/// How many lexemes a text has.
fn count(alloc: Global, language: &str, text: &str) -> Result<usize, Fault> {
    if language == "kql" {
        Ok(kql_lexemes(alloc, text)?.len())
    } else {
        Ok(fql_lexemes(alloc, text)?.len())
    }
}

/// Where one lexeme ends and the next begins: a line for each text, with its language before it and the number
/// of its lexemes behind it.
const COUNTS: &str = "\
kql|debt AND|2\n\
kql|(debt|2\n\
kql|)|1\n\
kql|+-debt|3\n\
kql|debt NEAR -x|4\n\
kql|(colour:red|2\n\
kql|&|0\n\
kql||0\n\
kql|old & bank|2\n\
kql|- debt|1\n\
kql|debt and notes|3\n\
kql|-& debt|2\n\
kql|-\"\"|1\n\
kql|a+b -(c) +)|6\n\
kql|a \"b\\\" c|3\n\
kql|x NEAR(n=1000) y|3\n\
kql|x ONEAR( n = 0003 ) y|3\n\
kql|x NEAR (2) y|6\n\
kql|x near(2) y|6\n\
kql|x XRANK ( Cb = -1000000 , n = 0 ) y|3\n\
kql|WORDS (a, \"b c\") d|5\n\
kql|size:1..2..3|1\n\
kql|size:\"1\"..\"2\" x|2\n\
kql|9a:b|1\n\
kql|*|1\n\
kql|straße*|1\n\
kql|e\u{301}*|1\n\
fql||0\n\
fql|and(a,b)|6\n\
fql|starts-with ( \"a b\" ) |4\n\
fql|title:12:30|3\n\
fql|-1:b|1\n\
fql|a:-1:b|3\n\
fql|straße=\"\\\"\\\\\"|3\n\
fql|e\u{301}\u{1f600},\"\u{1f600}\"|3\n\
fql|\\\"a\"|2";

#[test]
fn texts_are_cut_into_lexemes(rt: HostRuntime) -> Result<(), Fail> {
    let alloc = rt.alloc();
    for row in COUNTS.split('\n') {
        let (language, rest) = row.split_once('|').unwrap_or((row, ""));
        let (text, want) = rest.split_once('|').unwrap_or((rest, ""));
        let count = count(alloc, language, text)?;
        assert_eq!(rt; format!(in alloc; "{count}")?.as_str(), want, "at {row}");
    }
    Ok(())
}

#[test]
fn lexemes_of_kql_have_their_places(rt: HostRuntime) -> Result<(), Fail> {
    let lexemes = kql_lexemes(rt.alloc(), "size:1..2..3 ONEAR \"a\"")?;
    let lower = Cut {
        from: 5,
        to: 6,
        quoted: false,
    };
    let upper = Cut {
        from: 8,
        to: 12,
        quoted: false,
    };
    let range = KKind::Restrict {
        name_to: 4,
        relation: Relation::Range,
        value: lower,
        upper: Some(upper),
    };
    let phrase = KKind::Free(Cut {
        from: 20,
        to: 21,
        quoted: true,
    });
    let want = [
        KLexeme {
            kind: range,
            from: 0,
            to: 12,
        },
        KLexeme {
            kind: KKind::Onear(8),
            from: 13,
            to: 18,
        },
        KLexeme {
            kind: phrase,
            from: 19,
            to: 22,
        },
    ];
    assert_eq!(rt; lexemes.as_slice(), want.as_slice());
    Ok(())
}

#[test]
fn lexemes_of_fql_have_their_places(rt: HostRuntime) -> Result<(), Fail> {
    let lexemes = fql_lexemes(rt.alloc(), " a:\"b\"")?;
    let want = [
        FLexeme {
            kind: FKind::Word,
            from: 1,
            to: 2,
        },
        FLexeme {
            kind: FKind::Colon,
            from: 2,
            to: 3,
        },
        FLexeme {
            kind: FKind::Str,
            from: 3,
            to: 6,
        },
    ];
    assert_eq!(rt; lexemes.as_slice(), want.as_slice());
    Ok(())
}
