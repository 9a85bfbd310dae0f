ghost use Rattle.std.specs.Prelude.{◌≡◌, ◌∷◌, ◌++◌, ◌<◌, true, filter, length, slice_get, Some, IfOk, OnOk, string_bytes};
ghost use Rattle.std.specs.Fmt.{signed_decimal};
ghost use Rattle.std.specs.List.{flat_map, list_all};
ghost use Rattle.std.specs.Str.{encode_utf8_all};
ghost use Rattle.sq_model.specs.Shown as shown;
ghost use Rattle.sq_model.specs.Valid.{IsValid};
ghost use Rattle.sq_corpus.specs.Written as spec;
ghost use Rattle.sq_corpus.specs.Writes as writes;

use sq_base::Text;
use sq_model::{Caller, Corpus, Item, Value, shown_text, values_are_shown};
use sq_schema::{Kind, Property, Schema};
use std::alloc::{AllocError, Global};

#[tactic(auto, unfolding(crate::specs::Written::escape))]
fn push_escaped(out: &mut String, c: char) -> Result<(), AllocError>
    ensures { OnOk result (string_bytes out.new ≡ string_bytes out.old ++ encode_utf8_all (spec.escape c)) }
{
    if c == '\t' {
        out.push_str("\\t")
    } else if c == '\n' {
        out.push_str("\\n")
    } else if c == '\r' {
        out.push_str("\\r")
    } else if c == '\\' {
        out.push_str("\\\\")
    } else {
        out.push(c)
    }
}

fn push_spelled(out: &mut String, text: &str) -> Result<(), AllocError>
    ensures { OnOk result (string_bytes out.new ≡ string_bytes out.old ++ spec.spelled text.now) }
{
    for c in text.chars() {
        push_escaped(out, c)?;
    }
    Ok(())
}

fn push_field(out: &mut String, field: &str) -> Result<(), AllocError>
    ensures { OnOk result (string_bytes out.new ≡ string_bytes out.old ++ 9 ∷ field.now) }
{
    out.push('\t')?;
    out.push_str(field)
}

fn push_end(out: &mut String, mut fields: &[Text]) -> Result<(), AllocError>
    ensures { OnOk result (string_bytes out.new ≡ string_bytes out.old ++ spec.line_end fields.entry.now) }
{
    while let [field, rest @ ..] = fields {
        push_field(out, field.as_str())?;
        fields = rest;
    }
    out.push('\n')
}

fn kind_word(kind: Kind) -> &'static str
    ensures { result.now ≡ spec.kind_word kind }
{
    match kind {
        Kind::Text => "text",
        Kind::Integer => "integer",
        Kind::DateTime => "datetime",
        Kind::YesNo => "yesno",
    }
}

fn flags_word(searchable: bool, multi: bool, refinable: bool) -> &'static str
    ensures { result.now ≡ spec.flags_word searchable multi refinable }
{
    match (searchable, multi, refinable) {
        (false, false, false) => "-",
        (true, false, false) => "s",
        (false, true, false) => "m",
        (false, false, true) => "r",
        (true, true, false) => "sm",
        (true, false, true) => "sr",
        (false, true, true) => "mr",
        (true, true, true) => "smr",
    }
}

fn push_property(out: &mut String, row: &Property) -> Result<(), AllocError>
    ensures { OnOk result (string_bytes out.new ≡ string_bytes out.old ++ spec.property_line row.now) }
{
    out.push_str("property")?;
    push_field(out, row.name.as_str())?;
    push_field(out, kind_word(row.kind))?;
    push_field(out, flags_word(row.searchable, row.multi, row.refinable))?;
    out.push('\n')
}

fn property_at(schema: &Schema, row: u32) -> &Property
    requires { row < length schema.now }
    ensures { slice_get schema.now row ≡ Some result.now }
{
    match schema.property(row) {
        Some(property) => property,
        None => unreachable!(),
    }
}

fn push_properties(out: &mut String, schema: &Schema) -> Result<(), AllocError>
    ensures { OnOk result (string_bytes out.new ≡ string_bytes out.old ++ flat_map spec.property_line schema.now) }
{
    for row in 0..schema.len() {
        push_property(out, property_at(schema, row))?;
    }
    Ok(())
}

fn push_caller(out: &mut String, caller: &Caller) -> Result<(), AllocError>
    ensures { OnOk result (string_bytes out.new ≡ string_bytes out.old ++ spec.caller_line caller.now) }
{
    out.push_str("caller")?;
    push_field(out, caller.name.as_str())?;
    push_end(out, caller.claims.as_slice())
}

fn push_callers(out: &mut String, mut callers: &[Caller]) -> Result<(), AllocError>
    ensures { OnOk result (string_bytes out.new ≡ string_bytes out.old ++ flat_map spec.caller_line callers.entry.now) }
{
    while let [caller, rest @ ..] = callers {
        push_caller(out, caller)?;
        callers = rest;
    }
    Ok(())
}

fn push_value(alloc: Global, out: &mut String, name: &str, value: &Value) -> Result<(), AllocError>
    requires { shown.has_shown_text value.now.content ≡ true }
    ensures { OnOk result (string_bytes out.new ≡ string_bytes out.old ++ spec.value_line name.now value.now) }
{
    let text = shown_text(alloc, &value.content)?;
    out.push_str("value")?;
    push_field(out, name)?;
    out.push('\t')?;
    push_spelled(out, text.as_str())?;
    out.push('\n')
}

fn push_values_of(
    alloc: Global,
    out: &mut String,
    name: &str,
    property: u32,
    mut values: &[Value],
) -> Result<(), AllocError>
    requires { list_all writes.is_shown values.now ≡ true }
    ensures { OnOk result (string_bytes out.new
        ≡ string_bytes out.old ++ flat_map (spec.value_line name.now) (filter (spec.is_at property) values.entry.now)) }
{
    while let [value, rest @ ..] = values {
        if value.property == property {
            push_value(alloc, out, name, value)?;
        }
        values = rest;
    }
    Ok(())
}

fn push_values(
    alloc: Global,
    out: &mut String,
    schema: &Schema,
    values: &[Value],
) -> Result<(), AllocError>
    requires { list_all writes.is_shown values.now ≡ true }
    ensures { OnOk result (string_bytes out.new ≡ string_bytes out.old ++ spec.row_lines values.now 0 schema.now) }
{
    for row in 0..schema.len() {
        let name = property_at(schema, row).name.as_str();
        push_values_of(alloc, out, name, row, values)?;
    }
    Ok(())
}

fn push_number(alloc: Global, out: &mut String, n: i64) -> Result<(), AllocError>
    ensures { OnOk result (string_bytes out.new ≡ string_bytes out.old ++ 9 ∷ signed_decimal n) }
{
    let digits = format!(in alloc; "{n}")?;
    push_field(out, &digits)
}

fn push_item_line(alloc: Global, out: &mut String, item: &Item) -> Result<(), AllocError>
    ensures { OnOk result (string_bytes out.new ≡ string_bytes out.old ++ spec.item_line item.now) }
{
    out.push_str("item")?;
    push_number(alloc, out, i64::from(item.number))?;
    push_number(alloc, out, item.rank)?;
    out.push('\t')?;
    push_spelled(out, item.url.as_str())?;
    out.push('\n')
}

fn push_item(
    alloc: Global,
    out: &mut String,
    schema: &Schema,
    item: &Item,
) -> Result<(), AllocError>
    requires { writes.are_shown item.now ≡ true }
    ensures { OnOk result (string_bytes out.new ≡ string_bytes out.old ++ spec.item_text schema.now item.now) }
{
    push_item_line(alloc, out, item)?;
    out.push_str("allow")?;
    push_end(out, item.allow.as_slice())?;
    out.push_str("deny")?;
    push_end(out, item.deny.as_slice())?;
    push_values(alloc, out, schema, item.values.as_slice())
}

fn push_items(
    alloc: Global,
    out: &mut String,
    schema: &Schema,
    mut items: &[Item],
) -> Result<(), AllocError>
    requires { list_all writes.are_shown items.now ≡ true }
    ensures { OnOk result (string_bytes out.new ≡ string_bytes out.old ++ flat_map (spec.item_text schema.now) items.entry.now) }
{
    while let [item, rest @ ..] = items {
        push_item(alloc, out, schema, item)?;
        items = rest;
    }
    Ok(())
}

/// The text of a corpus, as [`crate::read_corpus`] reads it. Of each item the values stand by the
/// rows of their properties, and those of one property in their order. A text of more than
/// 67,108,864 bytes is written too, but not read again.
pub fn write_corpus(alloc: Global, corpus: &Corpus) -> Result<Vec<u8>, AllocError>
    requires { IsValid corpus.now }
    ensures { IfOk result (λ bytes. bytes.items ≡ spec.corpus_text corpus.now) }
{
    values_are_shown();
    let mut out = String::from_str(alloc, "SQCORPUS 1\n")?;
    push_properties(&mut out, &corpus.schema)?;
    push_callers(&mut out, corpus.callers.as_slice())?;
    push_items(alloc, &mut out, &corpus.schema, corpus.items.as_slice())?;
    Ok(out.into_bytes())
}
