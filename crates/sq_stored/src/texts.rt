ghost use Rattle.std.specs.Prelude.{◌≡◌, ◌<◌, ◌^◌, [], ◌∷◌, ◌++◌, length, slice_get, string_bytes, IfOk, OnOk, OnErr};
ghost use Rattle.std.specs.List.{All};
ghost use Rattle.std.specs.Option.{option_map};
ghost use Rattle.sq_stored.specs.Texts.{texts_at, IsSpanOf};

use std::alloc::{AllocError, Global};
use std::marker::Model;

/// All texts together have at most so many bytes, so that a place among them has 32 bits.
const MOST_BYTES: usize = 4_294_967_295;

/// Texts in one buffer, with a table of where each stands.
#[derive(Drop)]
pub struct Texts {
    buffer: String,
    spans: Vec<Span>,
}

/// Where a text stands in the buffer.
#[derive(Clone, Copy)]
pub struct Span {
    start: u32,
    end: u32,
}

impl Model for Texts {
    ghost use Rattle.std.specs.Prelude.{List, ℕ, string_bytes};
    ghost use Rattle.std.specs.List.{All};

    ghost Value = { List (List ℕ) };

    ghost use Rattle.sq_stored.specs.Texts.{texts_at, IsSpanOf};

    ghost view = { λ texts. texts_at (string_bytes texts.buffer) texts.spans.items };

    ghost invariant = { λ texts. All (IsSpanOf (string_bytes texts.buffer)) texts.spans.items };
}

/// Adds a text at the end of the buffer and its place at the end of the table.
fn push_text(buffer: &mut String, spans: &mut Vec<Span>, text: &str) -> Result<(), AllocError>
    requires { All (IsSpanOf (string_bytes buffer.old)) spans.old.items }
    ensures ok { OnOk result (texts_at (string_bytes buffer.new) spans.new.items
        ≡ texts_at (string_bytes buffer.old) spans.old.items ++ text.now ∷ []) }
    ensures err { OnErr result (texts_at (string_bytes buffer.new) spans.new.items
        ≡ texts_at (string_bytes buffer.old) spans.old.items) }
    ensures spans { All (IsSpanOf (string_bytes buffer.new)) spans.new.items }
{
    let start = buffer.len();
    buffer.push_str(text)?;
    let end = buffer.len();
    if end > MOST_BYTES {
        return Err(AllocError);
    }
    spans.push(Span {
        start: start as u32,
        end: end as u32,
    })?;
    Ok(())
}

impl Texts {
    pub fn new(alloc: Global) -> Texts
        ensures { result ≡ [] }
    {
        Texts {
            buffer: String::new(alloc),
            spans: Vec::new(alloc),
        }
    }

    /// Adds a text. After `AllocError`, which also comes where a place in the buffer has 32 bits no
    /// more, the texts are as before.
    pub fn push(&mut self, text: &str) -> Result<(), AllocError>
        ensures ok { OnOk result (self.new ≡ self.old ++ text.now ∷ []) }
        ensures err { OnErr result (self.new ≡ self.old) }
    {
        push_text(&mut self.buffer, &mut self.spans, text)
    }

    /// How many texts there are, refused past 32 bits.
    pub fn count(&self) -> Result<u32, AllocError>
        ensures { IfOk result (λ count. count ≡ length self.now) }
    {
        match u32::try_from(self.spans.len()) {
            Ok(count) => Ok(count),
            Err(_) => Err(AllocError),
        }
    }

    /// Text i, counted from 0.
    pub fn get(&self, i: usize) -> Option<&str>
        ensures { option_map (λ text. text.now) result ≡ slice_get self.now i }
    {
        if i >= self.spans.len() {
            return None;
        }
        let span = self.spans[i];
        Some(&self.buffer.as_str()[span.start as usize..span.end as usize])
    }

    /// Gives back what room the buffer and the table have left.
    pub fn shrink(&mut self)
        ensures { self.new ≡ self.old }
    {
        self.buffer.shrink_to_fit();
        self.spans.shrink_to_fit();
    }
}
