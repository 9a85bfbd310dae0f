//! The packet of a request.
ghost use Rattle.std.specs.Prelude.{◌≡◌, ◌++◌, flat_map, string_bytes, codes, IfOk, OnOk};
ghost use Rattle.std.specs.Fmt.{decimal};
ghost use Rattle.sq_packet_writer.specs.PacketText as spec;
ghost use Rattle.sq_response.specs.Response.{element};

use crate::escaped::push_escaped;
use crate::tags::{push_close, push_name, push_open, push_plain};
use sq_base::Text;
use sq_packet::{Direction, Language, RefinerSpec, Request, SortSpec};
use std::alloc::{AllocError, Global};

fn type_text(language: Language) -> &'static str
    ensures { result.now ≡ spec.type_text language }
{
    match language {
        Language::Kql => "STRING",
        Language::Fql => "FQL",
    }
}

#[tactic(auto, unfolding(crate::specs::PacketText::query_text, crate::specs::PacketText::opened_with))]
fn push_query(text: &mut String, request: &Request) -> Result<(), AllocError>
    ensures { OnOk result (string_bytes text.new ≡ string_bytes text.old ++ spec.query_text request.now) }
{
    text.push_str("<QueryText")?;
    push_plain(text, "type", type_text(request.language))?;
    text.push_str(">")?;
    push_escaped(text, request.text.as_str())?;
    push_close(text, "QueryText")
}

#[tactic(auto, unfolding(sq_response::specs::Response::element))]
fn push_context(text: &mut String, request: &Request) -> Result<(), AllocError>
    ensures { OnOk result (string_bytes text.new ≡ string_bytes text.old ++ element (codes "Context") (spec.query_text request.now)) }
{
    push_open(text, "Context")?;
    push_query(text, request)?;
    push_close(text, "Context")
}

#[tactic(auto, unfolding(sq_response::specs::Response::element))]
fn push_number(text: &mut String, name: &str, n: u32) -> Result<(), AllocError>
    ensures { OnOk result (string_bytes text.new ≡ string_bytes text.old ++ element name.now (decimal n)) }
{
    push_open(text, name)?;
    write!(text, "{n}")?;
    push_close(text, name)
}

#[tactic(auto, unfolding(sq_response::specs::Response::element, crate::specs::PacketText::range_text))]
fn push_range(text: &mut String, request: &Request) -> Result<(), AllocError>
    ensures { OnOk result (string_bytes text.new ≡ string_bytes text.old ++ element (codes "Range") (spec.range_text request.now)) }
{
    push_open(text, "Range")?;
    push_number(text, "StartAt", request.start)?;
    push_number(text, "Count", request.count)?;
    push_close(text, "Range")
}

#[tactic(auto, unfolding(crate::specs::PacketText::property_text, crate::specs::PacketText::lone))]
fn push_property(text: &mut String, name: &Text) -> Result<(), AllocError>
    ensures { OnOk result (string_bytes text.new ≡ string_bytes text.old ++ spec.property_text name.now) }
{
    text.push_str("<Property")?;
    push_name(text, name.as_str())?;
    text.push_str("/>")
}

fn push_each_property(text: &mut String, names: &[Text]) -> Result<(), AllocError>
    ensures { OnOk result (string_bytes text.new ≡ string_bytes text.old ++ flat_map spec.property_text names.now) }
{
    for name in names {
        push_property(text, name)?;
    }
    Ok(())
}

#[tactic(auto, unfolding(sq_response::specs::Response::element))]
fn push_properties(text: &mut String, names: &[Text]) -> Result<(), AllocError>
    ensures { OnOk result (string_bytes text.new ≡ string_bytes text.old ++ spec.group (codes "Properties") spec.property_text names.now) }
{
    match names {
        [] => Ok(()),
        [_, ..] => {
            push_open(text, "Properties")?;
            push_each_property(text, names)?;
            push_close(text, "Properties")
        }
    }
}

#[tactic(auto, unfolding(crate::specs::PacketText::bound_text))]
fn push_bound(text: &mut String, bound: i64) -> Result<(), AllocError>
    ensures { OnOk result (string_bytes text.new ≡ string_bytes text.old ++ spec.bound_text bound) }
{
    write!(text, "/{bound}")?;
    Ok(())
}

fn push_each_bound(text: &mut String, bounds: &[i64]) -> Result<(), AllocError>
    ensures { OnOk result (string_bytes text.new ≡ string_bytes text.old ++ flat_map spec.bound_text bounds.now) }
{
    for bound in bounds {
        push_bound(text, *bound)?;
    }
    Ok(())
}

fn push_bounds(text: &mut String, bounds: &[i64]) -> Result<(), AllocError>
    ensures { OnOk result (string_bytes text.new ≡ string_bytes text.old ++ spec.bounds_text bounds.now) }
{
    match bounds {
        [] => Ok(()),
        [_, ..] => {
            text.push_str("(discretize=manual")?;
            push_each_bound(text, bounds)?;
            text.push_str(")")
        }
    }
}

#[tactic(auto, unfolding(sq_response::specs::Response::element, crate::specs::PacketText::refiner_text))]
fn push_refiner(text: &mut String, refiner: &RefinerSpec) -> Result<(), AllocError>
    ensures { OnOk result (string_bytes text.new ≡ string_bytes text.old ++ spec.refiner_text refiner.now) }
{
    push_open(text, "Refiner")?;
    push_escaped(text, refiner.name.as_str())?;
    push_bounds(text, refiner.bounds.as_slice())?;
    push_close(text, "Refiner")
}

fn push_each_refiner(text: &mut String, refiners: &[RefinerSpec]) -> Result<(), AllocError>
    ensures { OnOk result (string_bytes text.new ≡ string_bytes text.old ++ flat_map spec.refiner_text refiners.now) }
{
    for refiner in refiners {
        push_refiner(text, refiner)?;
    }
    Ok(())
}

#[tactic(auto, unfolding(sq_response::specs::Response::element))]
fn push_refiners(text: &mut String, refiners: &[RefinerSpec]) -> Result<(), AllocError>
    ensures { OnOk result (string_bytes text.new ≡ string_bytes text.old ++ spec.group (codes "Refiners") spec.refiner_text refiners.now) }
{
    match refiners {
        [] => Ok(()),
        [_, ..] => {
            push_open(text, "Refiners")?;
            push_each_refiner(text, refiners)?;
            push_close(text, "Refiners")
        }
    }
}

fn direction_text(direction: Direction) -> &'static str
    ensures { result.now ≡ spec.direction_text direction }
{
    match direction {
        Direction::Ascending => "Ascending",
        Direction::Descending => "Descending",
    }
}

#[tactic(auto, unfolding(crate::specs::PacketText::sort_attributes))]
fn push_sort_attributes(text: &mut String, sort: &SortSpec) -> Result<(), AllocError>
    ensures { OnOk result (string_bytes text.new ≡ string_bytes text.old ++ spec.sort_attributes sort.now) }
{
    push_name(text, sort.name.as_str())?;
    push_plain(text, "direction", direction_text(sort.direction))
}

#[tactic(auto, unfolding(crate::specs::PacketText::lone))]
fn push_sort_tag(text: &mut String, name: &str, sort: &SortSpec) -> Result<(), AllocError>
    ensures { OnOk result (string_bytes text.new ≡ string_bytes text.old ++ spec.lone name.now (spec.sort_attributes sort.now)) }
{
    write!(text, "<{name}")?;
    push_sort_attributes(text, sort)?;
    text.push_str("/>")
}

#[tactic(auto, unfolding(crate::specs::PacketText::sort_text))]
fn push_sort(text: &mut String, sort: &SortSpec) -> Result<(), AllocError>
    ensures { OnOk result (string_bytes text.new ≡ string_bytes text.old ++ spec.sort_text sort.now) }
{
    push_sort_tag(text, "SortByProperty", sort)
}

fn push_each_sort(text: &mut String, sorts: &[SortSpec]) -> Result<(), AllocError>
    ensures { OnOk result (string_bytes text.new ≡ string_bytes text.old ++ flat_map spec.sort_text sorts.now) }
{
    for sort in sorts {
        push_sort(text, sort)?;
    }
    Ok(())
}

#[tactic(auto, unfolding(sq_response::specs::Response::element))]
fn push_sort_list(text: &mut String, name: &str, sorts: &[SortSpec]) -> Result<(), AllocError>
    ensures { OnOk result (string_bytes text.new ≡ string_bytes text.old ++ element name.now (flat_map spec.sort_text sorts.now)) }
{
    push_open(text, name)?;
    push_each_sort(text, sorts)?;
    push_close(text, name)
}

fn push_sorts(text: &mut String, sorts: &[SortSpec]) -> Result<(), AllocError>
    ensures { OnOk result (string_bytes text.new ≡ string_bytes text.old ++ spec.group (codes "SortByProperties") spec.sort_text sorts.now) }
{
    match sorts {
        [] => Ok(()),
        [_, ..] => push_sort_list(text, "SortByProperties", sorts),
    }
}

#[tactic(auto, unfolding(sq_response::specs::Response::element))]
fn push_false(text: &mut String, name: &str) -> Result<(), AllocError>
    ensures { OnOk result (string_bytes text.new ≡ string_bytes text.old ++ element name.now (codes "false")) }
{
    push_open(text, name)?;
    text.push_str("false")?;
    push_close(text, name)
}

/// Adds how operands are joined that stand side by side, where it is not by and.
fn push_behavior(text: &mut String, implicit_and: bool) -> Result<(), AllocError>
    ensures { OnOk result (string_bytes text.new ≡ string_bytes text.old ++ spec.behavior_text implicit_and) }
{
    if implicit_and {
        Ok(())
    } else {
        push_false(text, "ImplicitAndBehavior")
    }
}

#[tactic(auto, unfolding(crate::specs::PacketText::settings_text))]
fn push_settings(text: &mut String, request: &Request) -> Result<(), AllocError>
    ensures { OnOk result (string_bytes text.new ≡ string_bytes text.old ++ spec.settings_text request.now) }
{
    push_properties(text, request.properties.as_slice())?;
    push_refiners(text, request.refiners.as_slice())?;
    push_sorts(text, request.sorts.as_slice())?;
    push_behavior(text, request.implicit_and)
}

#[tactic(auto, unfolding(crate::specs::PacketText::asked_text))]
fn push_asked(text: &mut String, request: &Request) -> Result<(), AllocError>
    ensures { OnOk result (string_bytes text.new ≡ string_bytes text.old ++ spec.asked_text request.now) }
{
    push_context(text, request)?;
    push_range(text, request)?;
    push_settings(text, request)
}

#[tactic(auto, unfolding(sq_response::specs::Response::element))]
fn push_whole(text: &mut String, request: &Request) -> Result<(), AllocError>
    ensures { OnOk result (string_bytes text.new ≡ string_bytes text.old ++ element (codes "Query") (spec.asked_text request.now)) }
{
    push_open(text, "Query")?;
    push_asked(text, request)?;
    push_close(text, "Query")
}

/// The packet of a request: XML in UTF-8, without declaration, and without white space between elements. It always has the
/// query's language and the page; lists without items are left out, and so is how operands are joined where it is by and.
/// Where a packet can hold the request, [`sq_packet::read_packet`] reads it again ([`crate::packets_read_back`]), unless the
/// text is longer than that call takes.
#[tactic(auto, unfolding(crate::specs::PacketText::packet_text, crate::specs::PacketText::opened_with))]
pub fn write_packet(alloc: Global, request: &Request) -> Result<Vec<u8>, AllocError>
    ensures { IfOk result (λ bytes. bytes.items ≡ spec.packet_text request.now) }
{
    let mut text = String::new(alloc);
    text.push_str("<QueryPacket")?;
    push_plain(&mut text, "xmlns", "urn:Microsoft.Search.Query")?;
    text.push_str(">")?;
    push_whole(&mut text, request)?;
    push_close(&mut text, "QueryPacket")?;
    Ok(text.into_bytes())
}
