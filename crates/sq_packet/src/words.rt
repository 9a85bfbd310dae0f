//! What short texts say.

ghost use Rattle.std.specs.Prelude.{◌≡◌};
ghost use Rattle.std.specs.Char.{is_ascii_digit};
ghost use Rattle.std.specs.List.{list_all};
ghost use Rattle.sq_packet.specs.Words as spec;

use sq_base::MOST_DIGITS;

pub fn is_word(word: &str, text: &str) -> bool
    ensures { result ≡ spec.is_word word.now text.now }
{
    text.eq_ignore_ascii_case(word)
}

fn has_digits(text: &[u8]) -> bool
    ensures { result ≡ list_all is_ascii_digit text.now }
{
    text.iter().all(|byte| byte.is_ascii_digit())
}

/// The number that 1 to 10 digits write, if 32 bits have it.
pub fn whole(text: &str) -> Option<u32>
    ensures { result ≡ spec.whole_of text.now }
{
    if text.len() > MOST_DIGITS || !has_digits(text.as_bytes()) {
        return None;
    }
    match text.parse() {
        Ok(number) => Some(number),
        Err(_) => None,
    }
}

/// What `true` and `false` say, ASCII case ignored.
pub fn truth(text: &str) -> Option<bool>
    ensures { result ≡ spec.truth_of text.now }
{
    if is_word("true", text) {
        Some(true)
    } else if is_word("false", text) {
        Some(false)
    } else {
        None
    }
}
