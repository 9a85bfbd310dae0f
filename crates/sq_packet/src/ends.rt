//! What an element adds to the request where it ends.

ghost use Rattle.std.specs.Prelude.{◌≡◌};
ghost use Rattle.sq_packet.specs.Gives.{Gives};
ghost use Rattle.sq_packet.specs.Packet as spec;
ghost use Rattle.sq_packet.specs.Refiners.{refiner_of};
ghost use Rattle.sq_packet.specs.Words.{whole_of, truth_of};

use crate::codes::{BAD_NUMBER, BAD_RANGE, BAD_REFINER, MISSING_QUERY_TEXT, UNSUPPORTED_SETTING};
use crate::draft::Draft;
use crate::element::Element;
use crate::elements::is_seen;
use crate::fault::{PacketFault, refused};
use crate::limits::{GREATEST_PAGE_END, MOST_HITS};
use crate::mark::Mark;
use crate::marks::place;
use crate::refiners::refiner;
use crate::request::{RefinerSpec, Request};
use crate::texts::{text_of, trimmed};
use crate::words::{truth, whole};
use sq_base::QueryFault;
use std::alloc::Global;

/// Whether the page lies among the first 10,000 hits.
fn has_range(request: &Request) -> bool
    ensures { result ≡ spec.has_range request.now }
{
    request.start >= 1
        && request.count >= 1
        && request.count <= MOST_HITS
        && request.start <= GREATEST_PAGE_END - request.count
}

fn whole_in(alloc: Global, text: &[Mark], at: u32) -> Result<u32, PacketFault>
    ensures { Gives (λ n. n) result (spec.of_kind 506 at text.now whole_of) }
{
    let kept = trimmed(text);
    let word = text_of(alloc, kept)?;
    let Some(number) = whole(word.as_str()) else {
        return Err(PacketFault::Packet(refused(BAD_NUMBER, place(at, kept))));
    };
    Ok(number)
}

fn refiner_in(alloc: Global, text: &[Mark], at: u32) -> Result<RefinerSpec, PacketFault>
    ensures { Gives (λ r. r) result (spec.of_kind 510 at text.now refiner_of) }
{
    let kept = trimmed(text);
    let word = text_of(alloc, kept)?;
    let Some(refiner) = refiner(alloc, word.as_str())? else {
        return Err(PacketFault::Packet(refused(BAD_REFINER, place(at, kept))));
    };
    Ok(refiner)
}

fn truth_in(alloc: Global, text: &[Mark], at: u32) -> Result<bool, PacketFault>
    ensures { Gives (λ b. b) result (spec.of_kind 512 at text.now truth_of) }
{
    let kept = trimmed(text);
    let word = text_of(alloc, kept)?;
    let Some(truth) = truth(word.as_str()) else {
        return Err(PacketFault::Packet(refused(UNSUPPORTED_SETTING, place(at, kept))));
    };
    Ok(truth)
}

/// The draft, if the element that has to stand in another one was there.
fn needs(child: Element, draft: Draft, at: u32) -> Result<Draft, QueryFault>
    ensures { result ≡ spec.needs child draft at }
{
    if is_seen(child, draft.seen.as_slice()) {
        Ok(draft)
    } else {
        Err(refused(MISSING_QUERY_TEXT, at))
    }
}

fn range_ended(draft: Draft) -> Result<Draft, QueryFault>
    ensures { result ≡ spec.range_ended draft }
{
    if has_range(&draft.request) {
        Ok(draft)
    } else {
        Err(refused(BAD_RANGE, draft.range))
    }
}

fn with_text(alloc: Global, text: &[Mark], mut draft: Draft) -> Result<Draft, PacketFault>
    ensures { Gives (λ d. d) result (Ok (spec.with_text draft (spec.bytes_of text.now))) }
{
    draft.request.text = text_of(alloc, text)?;
    Ok(draft)
}

fn with_start(start: u32, mut draft: Draft) -> Draft
    ensures { result ≡ spec.with_start draft start }
{
    draft.request.start = start;
    draft
}

fn with_count(count: u32, mut draft: Draft) -> Draft
    ensures { result ≡ spec.with_count draft count }
{
    draft.request.count = count;
    draft
}

fn with_behavior(implicit_and: bool, mut draft: Draft) -> Draft
    ensures { result ≡ spec.with_behavior draft implicit_and }
{
    draft.request.implicit_and = implicit_and;
    draft
}

fn with_refiner(refiner: RefinerSpec, mut draft: Draft) -> Result<Draft, PacketFault>
    ensures { Gives (λ d. d) result (Ok (spec.with_refiner draft refiner)) }
{
    draft.request.refiners.push(refiner)?;
    Ok(draft)
}

/// What has been read once an element ends, whose end tag stands at `at` behind its text.
#[tactic(auto, unfolding(crate::specs::Packet::ended))]
pub fn ended(
    alloc: Global,
    element: Element,
    text: &[Mark],
    at: u32,
    draft: Draft,
) -> Result<Draft, PacketFault>
    ensures { Gives (λ d. d) result (spec.ended element text.now at draft) }
{
    match element {
        Element::QueryPacket => Ok(needs(Element::Query, draft, at)?),
        Element::Query => Ok(needs(Element::Context, draft, at)?),
        Element::Context => Ok(needs(Element::QueryText, draft, at)?),
        Element::Range => Ok(range_ended(draft)?),
        Element::QueryText => with_text(alloc, text, draft),
        Element::StartAt => {
            let start = whole_in(alloc, text, at)?;
            Ok(with_start(start, draft))
        }
        Element::Count => {
            let count = whole_in(alloc, text, at)?;
            Ok(with_count(count, draft))
        }
        Element::Refiner => {
            let refiner = refiner_in(alloc, text, at)?;
            with_refiner(refiner, draft)
        }
        Element::ImplicitAndBehavior => {
            let implicit_and = truth_in(alloc, text, at)?;
            Ok(with_behavior(implicit_and, draft))
        }
        _ => Ok(draft),
    }
}
