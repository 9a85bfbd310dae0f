ghost use Rattle.std.specs.Prelude.{◌≡◌, true, IfOk};
ghost use Rattle.sq_model.specs.Shown as spec;

use crate::corpus::Content;
use sq_base::Text;
use sq_schema::moment_text;
use std::alloc::{AllocError, Global};

/// The text of a content, as a response shows it: a text itself, a number in decimal, a moment as
/// `2024-02-29T12:00:00Z`, in UTC, and `true` or `false`.
pub fn shown_text(alloc: Global, content: &Content) -> Result<Text, AllocError>
    requires { spec.has_shown_text content.now ≡ true }
    ensures { IfOk result (λ text. text ≡ spec.shown_text content.now) }
{
    match content {
        Content::Words(text) => Text::from_str(alloc, text.as_str()),
        Content::Number(n) => Ok(Text::from_string(format!(in alloc; "{n}")?)),
        Content::Moment(moment) => moment_text(alloc, *moment),
        Content::Flag(true) => Text::from_str(alloc, "true"),
        Content::Flag(false) => Text::from_str(alloc, "false"),
    }
}
