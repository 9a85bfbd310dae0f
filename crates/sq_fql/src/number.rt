//! Numbers as values of parameters.

ghost use Rattle.std.specs.Prelude.{◌≡◌, ◌≤◌, ◌<◌, ◌^◌};
ghost use Rattle.sq_fql.specs.Number as spec;

/// The value of one or more digits, where it is at most the limit.
fn size(value: &[u8], limit: u32) -> Option<u32>
    requires { limit < 2 ^ 24 }
    ensures { result ≡ spec.size value.now limit }
{
    if value.is_empty() {
        None
    } else {
        size_from(0, value, limit)
    }
}

/// The value of digits behind those of a number, where it is at most the limit.
fn size_from(front: u32, mut digits: &[u8], limit: u32) -> Option<u32>
    requires limit { limit < 2 ^ 24 }
    requires front { front ≤ limit }
    ensures { result ≡ spec.size_from front digits.entry.now limit }
{
    let mut value = front;
    while let [digit, rest @ ..] = digits {
        if !digit.is_ascii_digit() {
            return None;
        }
        value = 10 * value + u32::from(digit.saturating_sub(b'0'));
        if value > limit {
            return None;
        }
        digits = rest;
    }
    Some(value)
}

/// A number from 0 to the limit. Behind a minus sign it is 0.
pub fn natural(value: &[u8], limit: u32) -> Option<u32>
    requires { limit < 2 ^ 24 }
    ensures { result ≡ spec.natural value.now limit }
{
    match value {
        [b'-', digits @ ..] => size(digits, 0),
        _ => size(value, limit),
    }
}

/// A number whose size is at most the limit.
pub fn whole(value: &[u8], limit: u32) -> Option<i64>
    requires { limit < 2 ^ 24 }
    ensures { result ≡ spec.whole value.now limit }
{
    match value {
        [b'-', digits @ ..] => match size(digits, limit) {
            Some(n) => Some(-i64::from(n)),
            None => None,
        },
        _ => match size(value, limit) {
            Some(n) => Some(i64::from(n)),
            None => None,
        },
    }
}
