//! The request that a packet is.

ghost use Rattle.std.specs.Prelude.{◌≡◌, ◌≤◌, ◌<◌, ◌^◌, length, suc, IfOk};
ghost use Rattle.sq_base.specs.Limits.{most_packet_bytes};
ghost use Rattle.sq_packet.specs.Asked.{IsAsked};
ghost use Rattle.sq_packet.specs.Gives.{Gives};
ghost use Rattle.sq_packet.specs.Marks.{Reads};
ghost use Rattle.sq_packet.specs.Packet as spec;
ghost use Rattle.sq_packet.specs.Readings.{state_of};

use crate::codes::NOT_UTF8;
use crate::draft::{Draft, Reading};
use crate::element::{Content, Element};
use crate::elements::content_of;
use crate::fault::{PacketFault, refused};
use crate::mark::Mark;
use crate::marks::{begins, comment, declaration, expected, marks_of, misfit, skip_blanks};
use crate::request::{Language, Request};
use crate::tags::{end_tag, start_tag};
use crate::texts::text_to;
use sq_base::{List, QueryFault, Text};
use std::alloc::{AllocError, Global};
use std::str;

fn nothing_read(alloc: Global) -> Result<Draft, AllocError>
    ensures { IfOk result (λ draft. draft ≡ spec.nothing_read) }
{
    Ok(Draft {
        request: Request {
            language: Language::Kql,
            text: Text::from_str(alloc, "")?,
            start: 1,
            count: 10,
            properties: List::new(alloc),
            refiners: List::new(alloc),
            sorts: List::new(alloc),
            implicit_and: true,
        },
        seen: List::new(alloc),
        range: 0,
    })
}

fn open_comment<'a>(
    end: u32,
    inside: Option<Element>,
    draft: Draft,
    marks: &'a [Mark],
) -> Result<Reading<'a>, PacketFault>
    ensures { Gives state_of result (spec.open_comment end inside draft marks.now) }
{
    let begun = expected(end, "<!--", marks)?;
    let rest = comment(end, begun)?;
    Ok(Reading {
        rest,
        inside,
        draft,
    })
}

fn has_stood(draft: &Draft) -> bool
    ensures { result ≡ spec.has_some draft.now.seen }
{
    draft.seen.len() > 0
}

/// Outside `QueryPacket`: a comment, or its start tag where it has not stood.
fn outer_turn<'a>(
    alloc: Global,
    end: u32,
    draft: Draft,
    marks: &'a [Mark],
) -> Result<Reading<'a>, PacketFault>
    ensures { Gives state_of result (spec.outer_turn end draft marks.now) }
{
    if begins("<!", marks) || has_stood(&draft) {
        open_comment(end, None, draft, marks)
    } else {
        start_tag(alloc, end, None, draft, marks)
    }
}

/// Where elements may stand: a comment, an end tag or a start tag.
fn element_turn<'a>(
    alloc: Global,
    end: u32,
    element: Element,
    draft: Draft,
    marks: &'a [Mark],
) -> Result<Reading<'a>, PacketFault>
    ensures { Gives state_of result (spec.element_turn end element draft marks.now) }
{
    if begins("<!", marks) {
        open_comment(end, Some(element), draft, marks)
    } else if begins("</", marks) {
        end_tag(alloc, end, element, &[], draft, marks)
    } else {
        start_tag(alloc, end, Some(element), draft, marks)
    }
}

/// A text, and the end tag of its element.
fn text_turn<'a>(
    alloc: Global,
    end: u32,
    element: Element,
    draft: Draft,
    marks: &'a [Mark],
) -> Result<Reading<'a>, PacketFault>
    ensures { Gives state_of result (spec.text_turn end element draft marks.now) }
{
    let (text, rest) = text_to(alloc, end, '<', marks)?;
    end_tag(alloc, end, element, text.as_slice(), draft, rest)
}

/// One comment, start tag, or end tag with its text.
#[tactic(auto, unfolding(crate::specs::Packet::turn))]
fn turn<'a>(alloc: Global, end: u32, reading: Reading<'a>) -> Result<Reading<'a>, PacketFault>
    ensures { Gives state_of result (spec.turn end (state_of reading.entry)) }
{
    let Reading {
        rest,
        inside,
        draft,
    } = reading;
    let Some(element) = inside else {
        return outer_turn(alloc, end, draft, skip_blanks(rest));
    };
    match content_of(element) {
        Content::Words => text_turn(alloc, end, element, draft, rest),
        Content::Elements => element_turn(alloc, end, element, draft, skip_blanks(rest)),
    }
}

/// Whether `QueryPacket` has stood and ended, and only white space is left.
fn is_done(reading: &Reading) -> bool
    ensures { result ≡ spec.is_done (state_of reading.now) }
{
    reading.inside.is_none() && has_stood(&reading.draft) && skip_blanks(reading.rest).is_empty()
}

/// What has been read at the end of the packet.
fn read_on(alloc: Global, end: u32, turns: usize, reading: Reading) -> Result<Draft, PacketFault>
    ensures { Gives (λ d. d) result (spec.read_on turns end (state_of reading.entry)) }
{
    let mut reading = reading;
    let mut turns = turns;
    'turns: while turns > 0 {
        turns -= 1;
        if is_done(&reading) {
            return Ok(reading.draft);
        }
        reading = turn(alloc, end, reading)?;
    }
    Err(PacketFault::Packet(misfit(end, reading.rest)))
}

fn behind_order_mark(marks: &[Mark]) -> &[Mark]
    ensures { result.now ≡ spec.behind_order_mark marks.now }
{
    match marks {
        [] => marks,
        [mark, rest @ ..] => { if mark.c == '\u{feff}' { rest } else { marks } }
    }
}

fn behind_declaration(end: u32, marks: &[Mark]) -> Result<&[Mark], QueryFault>
    ensures { Reads (spec.behind_declaration end marks.now) result }
{
    if begins("<?", marks) {
        declaration(end, expected(end, "<?xml", marks)?)
    } else {
        Ok(marks)
    }
}

/// The request of a packet, whose characters these are. Each turn takes a mark.
fn packet_from(alloc: Global, end: u32, marks: &[Mark]) -> Result<Request, PacketFault>
    ensures { Gives (λ r. r) result (spec.packet_from end marks.now) }
{
    let rest = behind_declaration(end, behind_order_mark(marks))?;
    let draft = nothing_read(alloc)?;
    let reading = Reading {
        rest,
        inside: None,
        draft,
    };
    let draft = read_on(alloc, end, marks.len() + 1, reading)?;
    Ok(draft.request)
}

/// Reads a packet of at most 131,072 bytes. A fault is the first from left to right, by code and place in bytes: 501 to 508,
/// 510 and 512 to 515.
#[tactic(auto, unfolding(crate::specs::Packet::packet_of))]
pub fn read_packet(alloc: Global, bytes: &[u8]) -> Result<Request, PacketFault>
    requires { length bytes.now ≤ most_packet_bytes }
    ensures value { Gives (λ r. r) result (spec.packet_of bytes.now) }
    ensures limits { IfOk result IsAsked }
{
    let text = match str::from_utf8(bytes) {
        Ok(text) => text,
        Err(error) => {
            return Err(PacketFault::Packet(refused(NOT_UTF8, error.valid_up_to() as u32)));
        }
    };
    let marks = marks_of(alloc, text)?;
    packet_from(alloc, bytes.len() as u32, marks.as_slice())
}
