ghost use Rattle.std.specs.Prelude.{◌≡◌, IfOk, option_map};
ghost use Rattle.sq_corpus.specs.Escapes as spec;

use sq_base::Text;
use std::alloc::{AllocError, Global};

#[tactic(auto, unfolding(crate::specs::Escapes::escaped))]
fn escaped(letter: char) -> Option<char>
    ensures { result ≡ spec.escaped letter }
{
    if letter == 't' {
        Some('\t')
    } else if letter == 'n' {
        Some('\n')
    } else if letter == 'r' {
        Some('\r')
    } else if letter == '\\' {
        Some('\\')
    } else {
        None
    }
}

/// The text that a field spells with escapes. None where one is bad.
pub(crate) fn text_of(alloc: Global, field: &str) -> Result<Option<Text>, AllocError>
    ensures { IfOk result (λ text. text ≡ spec.text_of field.now) }
{
    let mut text = String::new(alloc);
    let mut is_escape = false;
    for c in field.chars() {
        if is_escape {
            match escaped(c) {
                Some(meant) => text.push(meant)?,
                None => return Ok(None),
            }
            is_escape = false;
        } else if c == '\\' {
            is_escape = true;
        } else {
            text.push(c)?;
        }
    }
    if is_escape {
        return Ok(None);
    }
    let text = Text::from_str(alloc, &text)?;
    Ok(Some(text))
}
