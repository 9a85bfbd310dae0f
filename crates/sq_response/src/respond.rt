//! The text of a response.
ghost use Rattle.std.specs.Prelude.{◌≡◌, ◌++◌, flat_map, length, string_bytes, codes, IfOk, OnOk};
ghost use Rattle.std.specs.Fmt.{decimal, signed_decimal};
ghost use Rattle.sq_response.specs.declared.response.Entry.TheVariants.{Single, Bucket};
ghost use Rattle.sq_response.specs.declared.response.Response.TheVariants.{Found as FoundOf};
ghost use Rattle.sq_response.specs.Escaped.{escaped};
ghost use Rattle.sq_response.specs.Response as spec;

use crate::escaped::push_escaped;
use crate::names::code_name;
use crate::response::{Entry, Found, Hit, Refined, Response, Shown};
use sq_base::{List, QueryFault};
use std::alloc::{AllocError, Global};

/// What stands before the answer of each response.
const OPENING: &str =
    "<?xml version=\"1.0\" encoding=\"utf-8\"?><ResponsePacket xmlns=\"urn:Microsoft.Search.Response\"><Response>";

#[tactic(auto, unfolding(crate::specs::Response::opened))]
fn push_open(text: &mut String, name: &str) -> Result<(), AllocError>
    ensures { OnOk result (string_bytes text.new ≡ string_bytes text.old ++ spec.opened name.now) }
{
    write!(text, "<{name}>")?;
    Ok(())
}

#[tactic(auto, unfolding(crate::specs::Response::closed))]
fn push_close(text: &mut String, name: &str) -> Result<(), AllocError>
    ensures { OnOk result (string_bytes text.new ≡ string_bytes text.old ++ spec.closed name.now) }
{
    write!(text, "</{name}>")?;
    Ok(())
}

#[tactic(auto, unfolding(crate::specs::Response::element))]
fn push_text(text: &mut String, name: &str, value: &str) -> Result<(), AllocError>
    ensures { OnOk result (string_bytes text.new ≡ string_bytes text.old ++ spec.element name.now (escaped value.now)) }
{
    push_open(text, name)?;
    push_escaped(text, value)?;
    push_close(text, name)
}

#[tactic(auto, unfolding(crate::specs::Response::element))]
fn push_plain(text: &mut String, name: &str, value: &str) -> Result<(), AllocError>
    ensures { OnOk result (string_bytes text.new ≡ string_bytes text.old ++ spec.element name.now value.now) }
{
    push_open(text, name)?;
    text.push_str(value)?;
    push_close(text, name)
}

#[tactic(auto, unfolding(crate::specs::Response::element))]
fn push_number(text: &mut String, name: &str, n: u64) -> Result<(), AllocError>
    ensures { OnOk result (string_bytes text.new ≡ string_bytes text.old ++ spec.element name.now (decimal n)) }
{
    push_open(text, name)?;
    write!(text, "{n}")?;
    push_close(text, name)
}

#[tactic(auto, unfolding(crate::specs::Response::element))]
fn push_signed(text: &mut String, name: &str, n: i64) -> Result<(), AllocError>
    ensures { OnOk result (string_bytes text.new ≡ string_bytes text.old ++ spec.element name.now (signed_decimal n)) }
{
    push_open(text, name)?;
    write!(text, "{n}")?;
    push_close(text, name)
}

#[tactic(auto, unfolding(crate::specs::Response::value_text))]
fn push_value(text: &mut String, shown: &Shown) -> Result<(), AllocError>
    ensures { OnOk result (string_bytes text.new ≡ string_bytes text.old ++ spec.value_text shown.now) }
{
    push_open(text, "Property")?;
    push_text(text, "Name", shown.name.as_str())?;
    push_text(text, "Value", shown.text.as_str())?;
    push_close(text, "Property")
}

fn push_values(text: &mut String, values: &[Shown]) -> Result<(), AllocError>
    ensures { OnOk result (string_bytes text.new ≡ string_bytes text.old ++ flat_map spec.value_text values.now) }
{
    for shown in values {
        push_value(text, shown)?;
    }
    Ok(())
}

#[tactic(auto, unfolding(crate::specs::Response::properties_text))]
fn push_properties(text: &mut String, values: &List<Shown>) -> Result<(), AllocError>
    ensures { OnOk result (string_bytes text.new ≡ string_bytes text.old ++ spec.properties_text values.now) }
{
    push_open(text, "Properties")?;
    push_values(text, values.as_slice())?;
    push_close(text, "Properties")
}

#[tactic(auto, unfolding(crate::specs::Response::item_text))]
fn push_item(text: &mut String, hit: &Hit) -> Result<(), AllocError>
    ensures { OnOk result (string_bytes text.new ≡ string_bytes text.old ++ spec.item_text hit.now) }
{
    push_number(text, "Number", hit.number as u64)?;
    push_signed(text, "Score", hit.score)?;
    push_text(text, "Url", hit.url.as_str())
}

#[tactic(auto, unfolding(crate::specs::Response::document_text))]
fn push_document(text: &mut String, hit: &Hit) -> Result<(), AllocError>
    ensures { OnOk result (string_bytes text.new ≡ string_bytes text.old ++ spec.document_text hit.now) }
{
    push_open(text, "Document")?;
    push_item(text, hit)?;
    push_properties(text, &hit.values)?;
    push_close(text, "Document")
}

fn push_documents(text: &mut String, hits: &[Hit]) -> Result<(), AllocError>
    ensures { OnOk result (string_bytes text.new ≡ string_bytes text.old ++ flat_map spec.document_text hits.now) }
{
    for hit in hits {
        push_document(text, hit)?;
    }
    Ok(())
}

#[tactic(auto, unfolding(crate::specs::Response::results_text))]
fn push_results(text: &mut String, hits: &List<Hit>) -> Result<(), AllocError>
    ensures { OnOk result (string_bytes text.new ≡ string_bytes text.old ++ spec.results_text hits.now) }
{
    push_open(text, "Results")?;
    push_documents(text, hits.as_slice())?;
    push_close(text, "Results")
}

#[tactic(auto, unfolding(crate::specs::Response::range_text))]
fn push_range(text: &mut String, found: &Found) -> Result<(), AllocError>
    ensures { OnOk result (string_bytes text.new ≡ string_bytes text.old ++ spec.range_text found.now) }
{
    push_open(text, "Range")?;
    push_number(text, "StartAt", found.start as u64)?;
    push_number(text, "Count", found.hits.len() as u64)?;
    push_number(text, "TotalAvailable", found.total)?;
    push_results(text, &found.hits)?;
    push_close(text, "Range")
}

fn push_bound(text: &mut String, name: &str, bound: Option<i64>) -> Result<(), AllocError>
    ensures { OnOk result (string_bytes text.new ≡ string_bytes text.old ++ spec.bound_text name.now bound) }
{
    match bound {
        Some(bound) => push_signed(text, name, bound),
        None => Ok(()),
    }
}

#[tactic(auto, unfolding(crate::specs::Response::entry_text))]
fn push_single(text: &mut String, value: i64, count: u64) -> Result<(), AllocError>
    ensures { OnOk result (string_bytes text.new ≡ string_bytes text.old ++ spec.entry_text (Single value count)) }
{
    push_open(text, "Entry")?;
    push_signed(text, "Value", value)?;
    push_number(text, "Count", count)?;
    push_close(text, "Entry")
}

#[tactic(auto, unfolding(crate::specs::Response::entry_text))]
fn push_bucket(
    text: &mut String,
    from: Option<i64>,
    to: Option<i64>,
    count: u64,
) -> Result<(), AllocError>
    ensures { OnOk result (string_bytes text.new ≡ string_bytes text.old ++ spec.entry_text (Bucket from to count)) }
{
    push_open(text, "Entry")?;
    push_bound(text, "From", from)?;
    push_bound(text, "To", to)?;
    push_number(text, "Count", count)?;
    push_close(text, "Entry")
}

fn push_entry(text: &mut String, entry: Entry) -> Result<(), AllocError>
    ensures { OnOk result (string_bytes text.new ≡ string_bytes text.old ++ spec.entry_text entry) }
{
    match entry {
        Entry::Single { value, count } => push_single(text, value, count),
        Entry::Bucket { from, to, count } => push_bucket(text, from, to, count),
    }
}

fn push_entries(text: &mut String, entries: &[Entry]) -> Result<(), AllocError>
    ensures { OnOk result (string_bytes text.new ≡ string_bytes text.old ++ flat_map spec.entry_text entries.now) }
{
    for entry in entries {
        push_entry(text, *entry)?;
    }
    Ok(())
}

#[tactic(auto, unfolding(crate::specs::Response::refiner_text))]
fn push_refiner(text: &mut String, refined: &Refined) -> Result<(), AllocError>
    ensures { OnOk result (string_bytes text.new ≡ string_bytes text.old ++ spec.refiner_text refined.now) }
{
    push_open(text, "Refiner")?;
    push_text(text, "Name", refined.name.as_str())?;
    push_entries(text, refined.entries.as_slice())?;
    push_close(text, "Refiner")
}

fn push_each_refiner(text: &mut String, refiners: &[Refined]) -> Result<(), AllocError>
    ensures { OnOk result (string_bytes text.new ≡ string_bytes text.old ++ flat_map spec.refiner_text refiners.now) }
{
    for refined in refiners {
        push_refiner(text, refined)?;
    }
    Ok(())
}

fn push_refiners(text: &mut String, refiners: &[Refined]) -> Result<(), AllocError>
    ensures { OnOk result (string_bytes text.new ≡ string_bytes text.old ++ spec.refiners_text refiners.now) }
{
    match refiners {
        [] => Ok(()),
        [_, ..] => {
            push_open(text, "Refiners")?;
            push_each_refiner(text, refiners)?;
            push_close(text, "Refiners")
        }
    }
}

#[tactic(auto, unfolding(crate::specs::Response::fault_text))]
fn push_fault(text: &mut String, fault: QueryFault) -> Result<(), AllocError>
    ensures { OnOk result (string_bytes text.new ≡ string_bytes text.old ++ spec.fault_text fault) }
{
    let code = fault.code;
    let name = code_name(code);
    let at = fault.at;
    write!(text, "{code} {name} at {at}")?;
    Ok(())
}

#[tactic(auto, unfolding(crate::specs::Response::element))]
fn push_message(text: &mut String, name: &str, fault: QueryFault) -> Result<(), AllocError>
    ensures { OnOk result (string_bytes text.new ≡ string_bytes text.old ++ spec.element name.now (spec.fault_text fault)) }
{
    push_open(text, name)?;
    push_fault(text, fault)?;
    push_close(text, name)
}

#[tactic(auto, unfolding(crate::specs::Response::refusal_text))]
fn push_refusal(text: &mut String, status: &str, fault: QueryFault) -> Result<(), AllocError>
    ensures { OnOk result (string_bytes text.new ≡ string_bytes text.old ++ spec.refusal_text status.now fault) }
{
    push_plain(text, "Status", status)?;
    push_message(text, "DebugErrorMessage", fault)
}

fn push_found(text: &mut String, found: &Found) -> Result<(), AllocError>
    ensures { OnOk result (string_bytes text.new ≡ string_bytes text.old ++ spec.answer_text (FoundOf found.now)) }
{
    push_range(text, found)?;
    push_refiners(text, found.refiners.as_slice())?;
    push_plain(text, "Status", "SUCCESS")
}

fn push_answer(text: &mut String, response: &Response) -> Result<(), AllocError>
    ensures { OnOk result (string_bytes text.new ≡ string_bytes text.old ++ spec.answer_text response.now) }
{
    match response {
        Response::Found(found) => push_found(text, found),
        Response::Nothing => push_plain(text, "Status", "ERROR_NO_RESULTS_FOUND"),
        Response::BadQuery(fault) => push_refusal(text, "ERROR_BAD_QUERY", *fault),
        Response::BadRequest(fault) => push_refusal(text, "ERROR_BAD_REQUEST", *fault),
    }
}

/// The bytes of a response: XML in UTF-8, without white space between elements.
#[tactic(auto, unfolding(crate::specs::Response::response_text, crate::specs::Response::opening, crate::specs::Response::closing))]
pub fn write_response(alloc: Global, response: &Response) -> Result<Vec<u8>, AllocError>
    ensures { IfOk result (λ bytes. bytes.items ≡ spec.response_text response.now) }
{
    let mut text = String::new(alloc);
    text.push_str(OPENING)?;
    push_answer(&mut text, response)?;
    text.push_str("</Response></ResponsePacket>")?;
    Ok(text.into_bytes())
}
