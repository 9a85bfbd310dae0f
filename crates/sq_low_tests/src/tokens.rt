//! Tokens with their places, and patterns.

use sq_tokens::{Pattern, Tokens, fits, pattern_of, tokens_of};
use std::alloc::{AllocError, Global};
use std::test::Fail;

fn shown_tokens(alloc: Global, tokens: &Tokens) -> Result<String, AllocError> {
    let mut shown = String::new(alloc);
    for i in 0..tokens.len() {
        let text = tokens.text(i);
        let (from, to) = tokens.span(i);
        shown.push_str(&format!(in alloc; "{text} {from} {to};")?)?;
    }
    Ok(shown)
}

/// Words are folded, and placed where they stand in the text: a line for each text, with its tokens and their
/// places.
const TOKENS: &str = "\
Old-Bank|old 0 3;bank 4 8;\n\
Straße 3.5 can't|strasse 0 7;3.5 8 11;can't 12 17;\n\
 & |";

#[test]
fn words_are_folded_and_placed(rt: HostRuntime) -> Result<(), Fail> {
    let alloc = rt.alloc();
    for row in TOKENS.split('\n') {
        let (text, want) = row.split_once('|').unwrap_or((row, ""));
        assert!(rt; text.len() < 100);
        let tokens = tokens_of(alloc, text)?;
        assert_eq!(rt; shown_tokens(alloc, &tokens)?.as_str(), want);
    }
    Ok(())
}

/// The texts of a pattern between blanks, with a star behind where it is prefixed.
fn shown(alloc: Global, pattern: &Pattern) -> Result<String, AllocError> {
    let mut text = String::new(alloc);
    for i in 0..pattern.len() {
        if i > 0 {
            text.push(' ')?;
        }
        text.push_str(pattern.token(i))?;
    }
    if pattern.prefixed() {
        text.push('*')?;
    }
    Ok(text)
}

/// A star is good at the end behind a token: a line for each text, with its pattern or why it is none.
const PATTERNS: &str = "\
new yor*|new yor*\n\
New York|new york\n\
don't*|don't*\n\
ba*k|BadStar(2)\n\
*|BadStar(0)\n\
a *|BadStar(2)\n\
a**|BadStar(1)\n\
é*a*|BadStar(2)\n\
&|NoToken\n\
|NoToken";

#[test]
fn a_star_is_good_at_the_end_behind_a_token(rt: HostRuntime) -> Result<(), Fail> {
    let alloc = rt.alloc();
    for row in PATTERNS.split('\n') {
        let (text, want) = row.split_once('|').unwrap_or((row, ""));
        assert!(rt; text.len() < 100);
        let given = match pattern_of(alloc, text) {
            Ok(pattern) => shown(alloc, &pattern)?,
            Err(fault) => format!(in alloc; "{fault:?}")?,
        };
        assert_eq!(rt; given.as_str(), want, "at {row}");
    }
    Ok(())
}

#[test]
fn patterns_are_joined_and_cut(rt: HostRuntime) -> Result<(), Fail> {
    let alloc = rt.alloc();
    let parts = [pattern_of(alloc, "new")?, pattern_of(alloc, "yor*")?];
    assert!(rt; !parts[0].prefixed());
    let joined = Pattern::joined(alloc, &parts)?;
    assert_eq!(rt; shown(alloc, &joined)?.as_str(), "new yor*");
    assert!(rt; joined.len() == 2);
    assert_eq!(rt; shown(alloc, &joined.single(alloc, 0)?)?.as_str(), "new");
    assert_eq!(rt; shown(alloc, &joined.single(alloc, 1)?)?.as_str(), "yor*");
    Ok(())
}

/// A pattern fits whole tokens, and at last the beginning of one: a line for each pattern, with the number of
/// a token and whether it fits there.
const FITS: &str = "\
old bank|1|true\n\
old bank|0|false\n\
OLD BAN*|1|true\n\
new york|4|true\n\
york|6|false\n\
new york city|4|false\n\
y*|18446744073709551615|false";

#[test]
fn a_pattern_fits_whole_tokens_and_at_last_a_beginning(rt: HostRuntime) -> Result<(), Fail> {
    let alloc = rt.alloc();
    let tokens = tokens_of(alloc, "The old bank of New York")?;
    for row in FITS.split('\n') {
        let (text, rest) = row.split_once('|').unwrap_or((row, ""));
        let (at, want) = rest.split_once('|').unwrap_or((rest, ""));
        assert!(rt; text.len() < 100);
        let pattern = pattern_of(alloc, text)?;
        let fit = fits(&pattern, &tokens, at.parse()?);
        assert_eq!(rt; format!(in alloc; "{fit}")?.as_str(), want, "at {row}");
    }
    Ok(())
}
