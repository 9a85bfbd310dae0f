//! The items of the corpus, each made from its number.
ghost use Rattle.std.specs.Prelude.{◌≡◌, ◌≤◌, ◌++◌, ◌∷◌, [], ℕ, decimal, IfOk};
ghost use Rattle.sq_rehearsal.specs.Rehearsal as spec;

use sq_base::{List, Text};
use sq_model::{Content, Item, Value};
use std::alloc::{AllocError, Global};

/// A text and the digits of a number.
fn numbered(alloc: Global, front: &str, number: u32) -> Result<Text, AllocError>
    ensures { IfOk result (λ text. text ≡ front.now ++ decimal number) }
{
    Ok(Text::from_string(format!(in alloc; "{front}{number}")?))
}

/// The 20 words of an item's body.
fn body(alloc: Global, item: u32) -> Result<Text, AllocError>
    requires { item ≤ spec.most_rehearsed }
    ensures { IfOk result (λ text. text ≡ spec.body item) }
{
    let mut text = format!(in alloc; "w{}", item % 50)?;
    for before in 0u32..19 {
        let place = before + 1;
        let word = numbered(alloc, " w", (item * (place + 1) + place * place) % 50)?;
        text.push_str(word.as_str())?;
    }
    Ok(Text::from_string(text))
}

/// A list of one text.
fn one(alloc: Global, text: &str) -> Result<List<Text>, AllocError>
    ensures { IfOk result (λ list. list ≡ text.now ∷ []) }
{
    let mut list = List::new(alloc);
    list.push(Text::from_str(alloc, text)?)?;
    Ok(list)
}

fn allow(alloc: Global, item: u32) -> Result<List<Text>, AllocError>
    ensures { IfOk result (λ claims. claims ≡ spec.allow item) }
{
    if item % 3 == 0 {
        one(alloc, "board")
    } else {
        one(alloc, "staff")
    }
}

fn deny(alloc: Global, item: u32) -> Result<List<Text>, AllocError>
    ensures { IfOk result (λ claims. claims ≡ spec.deny item) }
{
    if item % 10 == 0 {
        one(alloc, "temp")
    } else {
        Ok(List::new(alloc))
    }
}

fn value(property: u32, content: Content) -> Value
    ensures { result ≡ record { property = property; content = content } }
{
    Value { property, content }
}

fn values(alloc: Global, item: u32) -> Result<List<Value>, AllocError>
    requires { item ≤ spec.most_rehearsed }
    ensures { IfOk result (λ values. values ≡ spec.values item) }
{
    let title = numbered(alloc, "note w", item % 7)?;
    let mut values = List::new(alloc);
    values.push(value(0, Content::Words(title)))?;
    values.push(value(1, Content::Words(body(alloc, item)?)))?;
    values.push(value(2, Content::Number(i64::from(item % 13))))?;
    Ok(values)
}

/// The item with this number.
pub(crate) fn item(alloc: Global, number: u32) -> Result<Item, AllocError>
    requires { number ≤ spec.most_rehearsed }
    ensures { IfOk result (λ item. item ≡ spec.item number) }
{
    Ok(Item {
        number,
        rank: i64::from(number * 37 % 101),
        url: numbered(alloc, "u", number)?,
        allow: allow(alloc, number)?,
        deny: deny(alloc, number)?,
        values: values(alloc, number)?,
    })
}
