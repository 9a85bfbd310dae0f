//! Texts and values of attributes: characters and references.

ghost use Rattle.std.specs.Prelude.{◌≡◌, ◌⊎◌, IfOk};
ghost use Rattle.std.specs.Str.Parse.{AllDigits};
ghost use Rattle.sq_packet.specs.Gives.{Gives};
ghost use Rattle.sq_packet.specs.Marks as marks;
ghost use Rattle.sq_packet.specs.Texts as spec;
ghost use Rattle.sq_packet.specs.Digits.{IsDigits};

use crate::characters::{is_blank, is_xml_char};
use crate::codes::MALFORMED;
use crate::fault::{PacketFault, refused};
use crate::mark::{Class, Mark};
use crate::marks::{begins, behind, misfit, run, skip_blanks};
use sq_base::Text;
use std::alloc::{AllocError, Global};

fn base_of(of: Class) -> u32
    ensures value { result ≡ spec.base_of of }
    ensures known { (result ≡ 10) ⊎ (result ≡ 16) }
{
    match of {
        Class::HexDigit => 16,
        Class::Name | Class::AttributeName | Class::Digit => 10,
    }
}

/// The character of a number, if an XML text may hold it.
fn xml_char(number: u32) -> Option<char>
    ensures { result ≡ spec.xml_char_of number }
{
    match char::from_u32(number) {
        None => None,
        Some(c) => { if is_xml_char(c) { Some(c) } else { None } }
    }
}

/// The character whose number these digits write.
fn numeral(base: u32, digits: &str) -> Option<char>
    requires base { (base ≡ 10) ⊎ (base ≡ 16) }
    requires digits { AllDigits base digits.now }
    ensures { result ≡ spec.numeral base digits.now }
{
    match u32::from_str_radix(digits, base) {
        Err(_) => None,
        Ok(number) => xml_char(number),
    }
}

/// The character whose number digits at the front write, behind which a `;` stands.
fn numeric<'a>(
    alloc: Global,
    of: Class,
    marks: &'a [Mark],
) -> Result<Option<(char, &'a [Mark])>, AllocError>
    requires { IsDigits of }
    ensures { IfOk result (λ taken. spec.Takes taken (spec.numeric of marks.now)) }
{
    let (digits, rest) = run(alloc, of, marks)?;
    if !begins(";", rest) {
        return Ok(None);
    }
    match numeral(base_of(of), digits.as_str()) {
        None => Ok(None),
        Some(c) => Ok(Some((c, behind(1, rest)))),
    }
}

/// The character that a reference at the front names, and the marks behind the reference.
#[tactic(auto, unfolding(crate::specs::Texts::reference))]
fn reference<'a>(alloc: Global, marks: &'a [Mark]) -> Result<Option<(char, &'a [Mark])>, AllocError>
    ensures { IfOk result (λ taken. spec.Takes taken (spec.reference marks.now)) }
{
    if begins("&lt;", marks) {
        return Ok(Some(('<', behind(4, marks))));
    }
    if begins("&gt;", marks) {
        return Ok(Some(('>', behind(4, marks))));
    }
    if begins("&amp;", marks) {
        return Ok(Some(('&', behind(5, marks))));
    }
    if begins("&quot;", marks) {
        return Ok(Some(('"', behind(6, marks))));
    }
    if begins("&apos;", marks) {
        return Ok(Some(('\'', behind(6, marks))));
    }
    if begins("&#x", marks) {
        return numeric(alloc, Class::HexDigit, behind(3, marks));
    }
    if begins("&#", marks) {
        return numeric(alloc, Class::Digit, behind(2, marks));
    }
    Ok(None)
}

/// The character at the front, itself or by a reference, with the place where it stands.
#[tactic(auto, unfolding(crate::specs::Texts::character))]
fn character<'a>(
    alloc: Global,
    end: u32,
    marks: &'a [Mark],
) -> Result<(Mark, &'a [Mark]), PacketFault>
    ensures { Gives (λ r. (r.0, r.1.now)) result (spec.character end marks.now) }
{
    let [mark, rest @ ..] = marks else {
        return Err(PacketFault::Packet(misfit(end, marks)));
    };
    if mark.c == '&' {
        let Some((c, rest)) = reference(alloc, marks)? else {
            return Err(PacketFault::Packet(refused(MALFORMED, mark.at)));
        };
        return Ok((Mark { c, at: mark.at }, rest));
    }
    if !is_xml_char(mark.c) {
        return Err(PacketFault::Packet(misfit(end, marks)));
    }
    Ok((*mark, rest))
}

/// The character at the front, or nothing at `stop`. A `<` may not stand there.
#[tactic(auto, unfolding(crate::specs::Texts::next_character))]
fn next_character<'a>(
    alloc: Global,
    end: u32,
    stop: char,
    marks: &'a [Mark],
) -> Result<Option<(Mark, &'a [Mark])>, PacketFault>
    ensures { Gives spec.next_view result (spec.next_character end stop marks.now) }
{
    let [mark, ..] = marks else {
        return Err(PacketFault::Packet(misfit(end, marks)));
    };
    if mark.c == stop {
        return Ok(None);
    }
    if mark.c == '<' {
        return Err(PacketFault::Packet(misfit(end, marks)));
    }
    let next = character(alloc, end, marks)?;
    Ok(Some(next))
}

/// The characters up to `stop`, and the marks from `stop` on.
pub fn text_to<'a>(
    alloc: Global,
    end: u32,
    stop: char,
    marks: &'a [Mark],
) -> Result<(Vec<Mark>, &'a [Mark]), PacketFault>
    ensures { Gives (λ r. (r.0.items, r.1.now)) result (spec.text_to end stop marks.now) }
{
    let mut text = Vec::new(alloc);
    let mut left = marks;
    // Each turn takes a mark.
    let mut turns = marks.len() + 1;
    'text: while turns > 0 {
        turns -= 1;
        let Some(next) = next_character(alloc, end, stop, left)? else {
            return Ok((text, left));
        };
        text.push(next.0)?;
        left = next.1;
    }
    Err(PacketFault::Packet(misfit(end, left)))
}

/// The characters without white space at both ends.
pub fn trimmed(marks: &[Mark]) -> &[Mark]
    ensures { result.now ≡ spec.trimmed marks.now }
{
    let mut left = skip_blanks(marks);
    'end: while let Some((last, front)) = left.split_last() {
        if !is_blank(last.c) {
            return left;
        }
        left = front;
    }
    left
}

/// The text of these characters.
pub fn text_of(alloc: Global, marks: &[Mark]) -> Result<Text, AllocError>
    ensures { IfOk result (λ text. text ≡ spec.bytes_of marks.now) }
{
    let mut text = String::new(alloc);
    let mut left = marks;
    'marks: while let [mark, rest @ ..] = left {
        text.push(mark.c)?;
        left = rest;
    }
    Text::from_str(alloc, &text)
}
