//! Tags: where elements begin and end.

ghost use Rattle.std.specs.Prelude.{◌≡◌, Ok};
ghost use Rattle.sq_packet.specs.Gives.{Gives};
ghost use Rattle.sq_packet.specs.Packet as spec;
ghost use Rattle.sq_packet.specs.Readings.{state_of};

use crate::attributes::{attributes, ends_tag};
use crate::codes::{MALFORMED, REPEATED_ELEMENT, UNKNOWN_ELEMENT};
use crate::draft::{Draft, Reading, Tag};
use crate::element::Element;
use crate::elements::{child_of, full_code, is_seen, name_of, parent_of, repeats};
use crate::ends::ended;
use crate::fault::{PacketFault, refused};
use crate::mark::{Class, Mark};
use crate::marks::{begins, begins_blank, behind, expected, misfit, name, place, skip_blanks};
use crate::request::{Language, SortSpec};
use sq_base::{QueryFault, Text};
use std::alloc::Global;

fn with_query_language(language: Language, mut draft: Draft) -> Draft
    ensures { result ≡ spec.with_query_language draft language }
{
    draft.request.language = language;
    draft
}

fn with_property(name: Text, mut draft: Draft) -> Result<Draft, PacketFault>
    ensures { Gives (λ d. d) result (Ok (spec.with_property draft name)) }
{
    draft.request.properties.push(name)?;
    Ok(draft)
}

fn with_sort(sort: SortSpec, mut draft: Draft) -> Result<Draft, PacketFault>
    ensures { Gives (λ d. d) result (Ok (spec.with_sort draft sort)) }
{
    draft.request.sorts.push(sort)?;
    Ok(draft)
}

/// The name that a tag has to give, at whose `>` its absence is found.
fn named(name: Option<Text>, at: u32) -> Result<Text, QueryFault>
    ensures { result ≡ spec.named name at }
{
    match name {
        None => Err(refused(MALFORMED, at)),
        Some(name) => Ok(name),
    }
}

/// What has been read at the `>` of a start tag, whose `<` stands at `from`.
#[tactic(auto, unfolding(crate::specs::Packet::begun))]
fn begun(element: Element, tag: Tag, from: u32, at: u32, draft: Draft) -> Result<Draft, PacketFault>
    ensures { Gives (λ d. d) result (spec.begun element tag from at draft) }
{
    match element {
        Element::QueryPacket => {
            if tag.is_in_namespace {
                Ok(draft)
            } else {
                Err(PacketFault::Packet(refused(UNKNOWN_ELEMENT, from)))
            }
        }
        Element::QueryText => Ok(with_query_language(tag.language, draft)),
        Element::Property => {
            let name = named(tag.name, at)?;
            with_property(name, draft)
        }
        Element::SortByProperty => {
            let direction = tag.direction;
            let name = named(tag.name, at)?;
            with_sort(SortSpec { name, direction }, draft)
        }
        _ => Ok(draft),
    }
}

fn range_at(element: Element, from: u32, at: u32) -> u32
    ensures { result ≡ spec.range_at element from at }
{
    match element {
        Element::Range => from,
        _ => at,
    }
}

/// The draft before the attributes of a tag.
fn at_tag(element: Element, from: u32, mut draft: Draft) -> Result<Draft, PacketFault>
    ensures { Gives (λ d. d) result (Ok (spec.at_tag element from draft)) }
{
    draft.range = range_at(element, from, draft.range);
    draft.seen.push(element)?;
    Ok(draft)
}

/// Behind a name stand white space, `/` or `>`.
fn name_ends(end: u32, marks: &[Mark]) -> Result<(), QueryFault>
    ensures { result ≡ spec.name_ends end marks.now }
{
    if begins_blank(marks) || ends_tag(marks) {
        Ok(())
    } else {
        Err(misfit(end, marks))
    }
}

fn room_for(child: Option<Element>, draft: &Draft, from: u32) -> Result<(), QueryFault>
    ensures { result ≡ spec.room_for child draft.now from }
{
    match full_code(child, draft) {
        None => Ok(()),
        Some(code) => Err(refused(code, from)),
    }
}

fn once(element: Element, draft: &Draft, from: u32) -> Result<(), QueryFault>
    ensures { result ≡ spec.once element draft.now from }
{
    if !repeats(element) && is_seen(element, draft.seen.as_slice()) {
        Err(refused(REPEATED_ELEMENT, from))
    } else {
        Ok(())
    }
}

/// Behind the attributes of a tag, whose `<` stands at `from`. A `/>` ends the element at once.
fn tag_end<'a>(
    alloc: Global,
    end: u32,
    element: Element,
    from: u32,
    inside: Option<Element>,
    tag: Tag,
    draft: Draft,
    marks: &'a [Mark],
) -> Result<Reading<'a>, PacketFault>
    ensures { Gives state_of result (spec.tag_end end element from inside tag draft marks.now) }
{
    if begins("/", marks) {
        let draft = ended(alloc, element, &[], from, draft)?;
        let close = behind(1, marks);
        let rest = expected(end, ">", close)?;
        let draft = begun(element, tag, from, place(end, close), draft)?;
        return Ok(Reading {
            rest,
            inside,
            draft,
        });
    }
    let draft = begun(element, tag, from, place(end, marks), draft)?;
    Ok(Reading {
        rest: behind(1, marks),
        inside: Some(element),
        draft,
    })
}

/// A start tag, whose `<` comes first.
#[tactic(auto, unfolding(crate::specs::Packet::start_tag))]
pub fn start_tag<'a>(
    alloc: Global,
    end: u32,
    inside: Option<Element>,
    draft: Draft,
    marks: &'a [Mark],
) -> Result<Reading<'a>, PacketFault>
    ensures { Gives state_of result (spec.start_tag end inside draft marks.now) }
{
    let from = place(end, marks);
    let tag = expected(end, "<", marks)?;
    let (name, rest) = name(alloc, Class::Name, end, tag)?;
    let child = child_of(inside, name.as_str());
    room_for(child, &draft, from)?;
    name_ends(end, rest)?;
    let Some(element) = child else {
        return Err(PacketFault::Packet(refused(UNKNOWN_ELEMENT, from)));
    };
    once(element, &draft, from)?;
    let (tag, rest) = attributes(alloc, end, element, rest)?;
    let draft = at_tag(element, from, draft)?;
    tag_end(alloc, end, element, from, inside, tag, draft, rest)
}

/// An end tag, whose `<` comes first, behind the text of its element.
#[tactic(auto, unfolding(crate::specs::Packet::end_tag))]
pub fn end_tag<'a>(
    alloc: Global,
    end: u32,
    element: Element,
    text: &[Mark],
    draft: Draft,
    marks: &'a [Mark],
) -> Result<Reading<'a>, PacketFault>
    ensures { Gives state_of result (spec.end_tag end element text.now draft marks.now) }
{
    let at = place(end, marks);
    let tag = expected(end, "</", marks)?;
    let draft = ended(alloc, element, text, at, draft)?;
    let (name, rest) = name(alloc, Class::Name, end, tag)?;
    if name.as_str() != name_of(element) {
        return Err(PacketFault::Packet(refused(MALFORMED, at)));
    }
    let rest = expected(end, ">", skip_blanks(rest))?;
    Ok(Reading {
        rest,
        inside: parent_of(element),
        draft,
    })
}
