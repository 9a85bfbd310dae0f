//! Where elements stand, what they hold, and how often.

ghost use Rattle.std.specs.Prelude.{◌≡◌};
ghost use Rattle.sq_packet.specs.Elements as spec;

use crate::codes::{BAD_REFINER, TOO_MANY_PROPERTIES, TOO_MANY_SORTS};
use crate::draft::Draft;
use crate::element::{Content, Element};
use crate::limits::{MOST_PROPERTIES, MOST_REFINERS, MOST_SORTS};

pub fn name_of(element: Element) -> &'static str
    ensures { result.now ≡ spec.name_of element }
{
    match element {
        Element::QueryPacket => "QueryPacket",
        Element::Query => "Query",
        Element::SupportedFormats => "SupportedFormats",
        Element::Format => "Format",
        Element::Context => "Context",
        Element::QueryText => "QueryText",
        Element::Range => "Range",
        Element::StartAt => "StartAt",
        Element::Count => "Count",
        Element::Properties => "Properties",
        Element::Property => "Property",
        Element::Refiners => "Refiners",
        Element::Refiner => "Refiner",
        Element::SortByProperties => "SortByProperties",
        Element::SortByProperty => "SortByProperty",
        Element::ImplicitAndBehavior => "ImplicitAndBehavior",
        Element::QueryId => "QueryId",
        Element::CapitalId => "QueryID",
        Element::EnableStemming => "EnableStemming",
        Element::TrimDuplicates => "TrimDuplicates",
        Element::IgnoreAllNoiseQuery => "IgnoreAllNoiseQuery",
        Element::IncludeRelevanceResults => "IncludeRelevanceResults",
        Element::IncludeSpecialTermResults => "IncludeSpecialTermResults",
        Element::IncludeHighConfidenceResults => "IncludeHighConfidenceResults",
    }
}

/// The elements that may stand in an element. Outside all it is `QueryPacket`.
fn children_of(inside: Option<Element>) -> &'static [Element]
    ensures { result.now ≡ spec.children_of inside }
{
    let Some(element) = inside else {
        return &[Element::QueryPacket];
    };
    match element {
        Element::QueryPacket => &[Element::Query],
        Element::Query => &[
            Element::SupportedFormats,
            Element::Context,
            Element::Range,
            Element::Properties,
            Element::Refiners,
            Element::SortByProperties,
            Element::ImplicitAndBehavior,
            Element::QueryId,
            Element::CapitalId,
            Element::EnableStemming,
            Element::TrimDuplicates,
            Element::IgnoreAllNoiseQuery,
            Element::IncludeRelevanceResults,
            Element::IncludeSpecialTermResults,
            Element::IncludeHighConfidenceResults,
        ],
        Element::SupportedFormats => &[Element::Format],
        Element::Context => &[Element::QueryText],
        Element::Range => &[Element::StartAt, Element::Count],
        Element::Properties => &[Element::Property],
        Element::Refiners => &[Element::Refiner],
        Element::SortByProperties => &[Element::SortByProperty],
        _ => &[],
    }
}

#[tactic(auto, unfolding(crate::specs::Elements::is_named))]
fn is_named(name: &str, element: Element) -> bool
    ensures { result ≡ spec.is_named name.now element }
{
    name_of(element) == name
}

/// The element of this name that may stand in an element.
pub fn child_of(inside: Option<Element>, name: &str) -> Option<Element>
    ensures { result ≡ spec.child_of inside name.now }
{
    let mut left = children_of(inside);
    'children: while let [child, rest @ ..] = left {
        if is_named(name, *child) {
            return Some(*child);
        }
        left = rest;
    }
    None
}

/// The element in which an element stands.
pub fn parent_of(element: Element) -> Option<Element>
    ensures { result ≡ spec.parent_of element }
{
    match element {
        Element::QueryPacket => None,
        Element::Query => Some(Element::QueryPacket),
        Element::Format => Some(Element::SupportedFormats),
        Element::QueryText => Some(Element::Context),
        Element::StartAt | Element::Count => Some(Element::Range),
        Element::Property => Some(Element::Properties),
        Element::Refiner => Some(Element::Refiners),
        Element::SortByProperty => Some(Element::SortByProperties),
        _ => Some(Element::Query),
    }
}

/// `Property` and `SortByProperty` hold nothing: no element may stand in them.
pub fn content_of(element: Element) -> Content
    ensures { result ≡ spec.content_of element }
{
    match element {
        Element::QueryPacket
        | Element::Query
        | Element::SupportedFormats
        | Element::Context
        | Element::Range
        | Element::Properties
        | Element::Property
        | Element::Refiners
        | Element::SortByProperties
        | Element::SortByProperty => Content::Elements,
        _ => Content::Words,
    }
}

/// Whether an element may stand more than once.
pub fn repeats(element: Element) -> bool
    ensures { result ≡ spec.repeats element }
{
    matches!(
        element,
        Element::Format | Element::Property | Element::Refiner | Element::SortByProperty
    )
}

/// Both spellings of the identifier are one element.
fn key_of(element: Element) -> &'static str
    ensures { result.now ≡ spec.key_of element }
{
    match element {
        Element::CapitalId => "QueryId",
        other => name_of(other),
    }
}

pub fn is_seen(element: Element, seen: &[Element]) -> bool
    ensures { result ≡ spec.is_seen element seen.now }
{
    let key = key_of(element);
    seen.iter().any(|other| key_of(*other) == key)
}

/// The code of one element too many.
pub fn full_code(child: Option<Element>, draft: &Draft) -> Option<u16>
    ensures { result ≡ spec.full_code child draft.now }
{
    let Some(element) = child else {
        return None;
    };
    match element {
        Element::Property => {
            if draft.request.properties.len() >= MOST_PROPERTIES {
                Some(TOO_MANY_PROPERTIES)
            } else {
                None
            }
        }
        Element::Refiner => {
            if draft.request.refiners.len() >= MOST_REFINERS {
                Some(BAD_REFINER)
            } else {
                None
            }
        }
        Element::SortByProperty => {
            if draft.request.sorts.len() >= MOST_SORTS {
                Some(TOO_MANY_SORTS)
            } else {
                None
            }
        }
        _ => None,
    }
}
