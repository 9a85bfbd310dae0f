//! Reading marks from the front.

ghost use Rattle.std.specs.Prelude.{◌≡◌, ◌<◌, ◌^◌, length, chars, drop, IfOk};
ghost use Rattle.sq_packet.specs.Gives.{Gives};
ghost use Rattle.sq_packet.specs.Marks as spec;

use crate::characters::{begins_name, is_blank, is_in, is_xml_char};
use crate::codes::MALFORMED;
use crate::fault::{PacketFault, refused};
use crate::mark::{Class, Mark};
use sq_base::{QueryFault, Text};
use std::alloc::{AllocError, Global};

/// The characters of a text with their places.
pub fn marks_of(alloc: Global, text: &str) -> Result<Vec<Mark>, AllocError>
    requires { length text.now < 2 ^ 32 }
    ensures { IfOk result (λ marks. marks.items ≡ spec.marks_from 0 (chars text.now)) }
{
    let mut marks = Vec::new(alloc);
    let mut at = 0;
    for c in text.chars() {
        marks.push(Mark { c, at })?;
        at += c.len_utf8() as u32;
    }
    Ok(marks)
}

/// The place of the first mark, or the end.
pub fn place(end: u32, marks: &[Mark]) -> u32
    ensures { result ≡ spec.place end marks.now }
{
    match marks {
        [] => end,
        [mark, ..] => mark.at,
    }
}

/// The fault of a first character that fits no rule.
pub fn misfit(end: u32, marks: &[Mark]) -> QueryFault
    ensures { result ≡ record { code = 502; at = spec.place end marks.now } }
{
    refused(MALFORMED, place(end, marks))
}

/// The marks behind so many.
pub fn behind(count: usize, marks: &[Mark]) -> &[Mark]
    ensures { result.now ≡ drop count marks.now }
{
    marks.get(count..).unwrap_or(&[])
}

/// Whether the marks begin with these ASCII characters.
pub fn begins(word: &str, marks: &[Mark]) -> bool
    requires { spec.is_ascii_word word.now }
    ensures { result ≡ spec.begins word.now marks.now }
{
    let mut wanted = word.as_bytes();
    let mut left = marks;
    'word: while let [byte, more @ ..] = wanted {
        let [mark, rest @ ..] = left else {
            return false;
        };
        if mark.c != *byte as char {
            return false;
        }
        wanted = more;
        left = rest;
    }
    true
}

/// What stands behind these ASCII characters, which have to come.
pub fn expected<'a>(end: u32, word: &str, marks: &'a [Mark]) -> Result<&'a [Mark], QueryFault>
    requires { spec.is_ascii_word word.now }
    ensures { spec.Reads (spec.expected end word.now marks.now) result }
{
    let mut wanted = word.as_bytes();
    let mut left = marks;
    'word: while let [byte, more @ ..] = wanted {
        let [mark, rest @ ..] = left else {
            return Err(misfit(end, left));
        };
        if mark.c != *byte as char {
            return Err(misfit(end, left));
        }
        wanted = more;
        left = rest;
    }
    Ok(left)
}

/// The marks behind white space.
pub fn skip_blanks(marks: &[Mark]) -> &[Mark]
    ensures { result.now ≡ spec.skip_blanks marks.now }
{
    let mut left = marks;
    'blanks: while let [mark, rest @ ..] = left {
        if !is_blank(mark.c) {
            return left;
        }
        left = rest;
    }
    left
}

pub fn begins_blank(marks: &[Mark]) -> bool
    ensures { result ≡ spec.begins_blank marks.now }
{
    match marks {
        [] => false,
        [mark, ..] => is_blank(mark.c),
    }
}

/// The marks behind the `-->` that ends a comment.
pub fn comment(end: u32, marks: &[Mark]) -> Result<&[Mark], QueryFault>
    ensures { spec.Reads (spec.comment end marks.now) result }
{
    let mut left = marks;
    'comment: while let [mark, rest @ ..] = left {
        if begins("-->", left) {
            return Ok(behind(2, rest));
        }
        if !is_xml_char(mark.c) {
            return Err(misfit(end, left));
        }
        left = rest;
    }
    Err(misfit(end, left))
}

/// The marks behind the `?>` that ends a declaration.
pub fn declaration(end: u32, marks: &[Mark]) -> Result<&[Mark], QueryFault>
    ensures { spec.Reads (spec.declaration end marks.now) result }
{
    let mut left = marks;
    'declaration: while let [_mark, rest @ ..] = left {
        if begins("?>", left) {
            return Ok(behind(1, rest));
        }
        left = rest;
    }
    Err(misfit(end, left))
}

/// The text of the characters of a class at the front, and the marks behind them.
pub fn run<'a>(
    alloc: Global,
    of: Class,
    marks: &'a [Mark],
) -> Result<(Text, &'a [Mark]), AllocError>
    ensures { IfOk result (λ r. spec.run of marks.now ≡ (r.0, r.1.now)) }
{
    let mut text = String::new(alloc);
    let mut left = marks;
    'run: while let [mark, rest @ ..] = left {
        if !is_in(of, mark.c) {
            break;
        }
        text.push(mark.c)?;
        left = rest;
    }
    Ok((Text::from_str(alloc, &text)?, left))
}

/// The name at the front. A name that ends where the text ends isn't known to be whole.
pub fn name<'a>(
    alloc: Global,
    of: Class,
    end: u32,
    marks: &'a [Mark],
) -> Result<(Text, &'a [Mark]), PacketFault>
    ensures { Gives (λ r. (r.0, r.1.now)) result (spec.name of end marks.now) }
{
    let [first, ..] = marks else {
        return Err(PacketFault::Packet(misfit(end, marks)));
    };
    if !begins_name(first.c) {
        return Err(PacketFault::Packet(misfit(end, marks)));
    }
    let (name, rest) = run(alloc, of, marks)?;
    match rest {
        [] => Err(PacketFault::Packet(misfit(end, rest))),
        [_, ..] => Ok((name, rest)),
    }
}
