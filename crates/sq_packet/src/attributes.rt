//! The attributes of a tag.

ghost use Rattle.std.specs.Prelude.{◌≡◌, [], length, suc};
ghost use Rattle.std.specs.List.{list_any};
ghost use Rattle.std.specs.Str.{bytes_eq};
ghost use Rattle.sq_packet.specs.Gives.{Gives};
ghost use Rattle.sq_packet.specs.Packet as spec;

use crate::codes::{BAD_DIRECTION, MALFORMED, UNSUPPORTED_TYPE};
use crate::draft::{Attribute, Tag};
use crate::element::Element;
use crate::fault::{PacketFault, refused};
use crate::mark::{Class, Mark};
use crate::marks::{begins, begins_blank, behind, expected, misfit, name, place, skip_blanks};
use crate::request::{Direction, Language};
use crate::texts::{text_of, text_to};
use crate::words::is_word;
use sq_base::{QueryFault, Text};
use std::alloc::Global;

fn no_attributes() -> Tag
    ensures { result ≡ spec.no_attributes }
{
    Tag {
        is_in_namespace: false,
        language: Language::Kql,
        name: None,
        direction: Direction::Ascending,
    }
}

fn with_language(value: &str, at: u32, mut tag: Tag) -> Result<Tag, QueryFault>
    ensures { result ≡ spec.with_language value.now at tag }
{
    if value == "STRING" {
        tag.language = Language::Kql;
    } else if value == "FQL" {
        tag.language = Language::Fql;
    } else {
        return Err(refused(UNSUPPORTED_TYPE, at));
    }
    Ok(tag)
}

fn with_direction(value: &str, at: u32, mut tag: Tag) -> Result<Tag, QueryFault>
    ensures { result ≡ spec.with_direction value.now at tag }
{
    if is_word("ascending", value) {
        tag.direction = Direction::Ascending;
    } else if is_word("descending", value) {
        tag.direction = Direction::Descending;
    } else {
        return Err(refused(BAD_DIRECTION, at));
    }
    Ok(tag)
}

fn with_name(value: Text, mut tag: Tag) -> Tag
    ensures { result ≡ spec.with_name value tag }
{
    tag.name = Some(value);
    tag
}

fn with_namespace(value: &str, mut tag: Tag) -> Tag
    ensures { result ≡ spec.with_namespace value.now tag }
{
    tag.is_in_namespace = value == "urn:Microsoft.Search.Query";
    tag
}

/// What an attribute of an element says, whose value stands at `at`. Most say nothing.
#[tactic(auto, unfolding(crate::specs::Packet::with_attribute))]
fn with_attribute(
    element: Element,
    name: &str,
    value: Text,
    at: u32,
    tag: Tag,
) -> Result<Tag, QueryFault>
    ensures { result ≡ spec.with_attribute element (spec.attribute name.now value at) tag }
{
    match element {
        Element::QueryPacket => {
            if name == "xmlns" {
                Ok(with_namespace(value.as_str(), tag))
            } else {
                Ok(tag)
            }
        }
        Element::QueryText => {
            if name == "type" {
                with_language(value.as_str(), at, tag)
            } else {
                Ok(tag)
            }
        }
        Element::Property => {
            if name == "name" {
                Ok(with_name(value, tag))
            } else {
                Ok(tag)
            }
        }
        Element::SortByProperty => {
            if name == "name" {
                Ok(with_name(value, tag))
            } else if name == "direction" {
                with_direction(value.as_str(), at, tag)
            } else {
                Ok(tag)
            }
        }
        _ => Ok(tag),
    }
}

/// The quote at the front, and the marks behind it.
fn quote(end: u32, marks: &[Mark]) -> Result<(char, &[Mark]), PacketFault>
    ensures { Gives (λ r. (r.0, r.1.now)) result (spec.quote end marks.now) }
{
    let [mark, rest @ ..] = marks else {
        return Err(PacketFault::Packet(misfit(end, marks)));
    };
    if mark.c != '"' && mark.c != '\'' {
        return Err(PacketFault::Packet(misfit(end, marks)));
    }
    Ok((mark.c, rest))
}

fn is_named(names: &[Text], name: &Text) -> bool
    ensures { result ≡ list_any (bytes_eq name.now) names.now }
{
    names.iter().any(|other| name.as_str() == other.as_str())
}

/// The attribute at the front, whose name none of these is.
#[tactic(auto, unfolding(crate::specs::Packet::attribute_at))]
fn attribute_at<'a>(
    alloc: Global,
    end: u32,
    names: &[Text],
    marks: &'a [Mark],
) -> Result<(Attribute, &'a [Mark]), PacketFault>
    ensures { Gives (λ r. (r.0, r.1.now)) result (spec.attribute_at end names.now marks.now) }
{
    let (name, rest) = name(alloc, Class::AttributeName, end, marks)?;
    if is_named(names, &name) {
        return Err(PacketFault::Packet(refused(MALFORMED, place(end, marks))));
    }
    let after = expected(end, "=", skip_blanks(rest))?;
    let (quote, inside) = quote(end, skip_blanks(after))?;
    let (text, rest) = text_to(alloc, end, quote, inside)?;
    let value = text_of(alloc, text.as_slice())?;
    let at = place(end, inside);
    Ok((Attribute { name, value, at }, behind(1, rest)))
}

/// Whether the marks begin with what ends a tag.
pub fn ends_tag(marks: &[Mark]) -> bool
    ensures { result ≡ spec.ends_tag marks.now }
{
    begins("/", marks) || begins(">", marks)
}

/// The attribute at the front behind white space, or nothing where the tag ends.
#[tactic(auto, unfolding(crate::specs::Packet::next_attribute))]
fn next_attribute<'a>(
    alloc: Global,
    end: u32,
    names: &[Text],
    marks: &'a [Mark],
) -> Result<Option<(Attribute, &'a [Mark])>, PacketFault>
    ensures { Gives spec.attribute_view result (spec.next_attribute end names.now marks.now) }
{
    let next = skip_blanks(marks);
    if ends_tag(next) {
        return Ok(None);
    }
    if !begins_blank(marks) {
        return Err(PacketFault::Packet(misfit(end, marks)));
    }
    let attribute = attribute_at(alloc, end, names, next)?;
    Ok(Some(attribute))
}

/// What the attributes of a tag say, and the marks from its `/` or `>` on.
pub fn attributes<'a>(
    alloc: Global,
    end: u32,
    element: Element,
    marks: &'a [Mark],
) -> Result<(Tag, &'a [Mark]), PacketFault>
    ensures { Gives (λ r. (r.0, r.1.now)) result
        (spec.attributes (suc (length marks.now)) end element [] spec.no_attributes marks.now) }
{
    let mut names = Vec::new(alloc);
    let mut tag = no_attributes();
    let mut left = marks;
    // Each turn takes a mark.
    let mut turns = marks.len() + 1;
    'attributes: while turns > 0 {
        turns -= 1;
        let Some(next) = next_attribute(alloc, end, names.as_slice(), left)? else {
            return Ok((tag, skip_blanks(left)));
        };
        let (Attribute { name, value, at }, rest) = next;
        tag = with_attribute(element, name.as_str(), value, at, tag)?;
        names.push(name)?;
        left = rest;
    }
    Err(PacketFault::Packet(misfit(end, left)))
}
