//! Where the parts of a head stand.
ghost use Rattle.std.specs.Prelude.{◌≡◌, ◌≤◌, length, MatchOption, IfSome, None, Some};
ghost use Rattle.httparse.specs.Spans.{IsRequestWithin};
ghost use Rattle.sq_head.specs.Head.{head_of};
ghost use Rattle.sq_head.specs.Parts.{head_at};

use httparse::Status;
use httparse::spans::{HeaderSpan, RequestSpans, parse_request};

/// How many fields a head may have.
pub const MOST_FIELDS: usize = 64;

/// Where the parts of a head stand, in bytes from its front, if the bytes are one, whole, with at most
/// `MOST_FIELDS` fields. The spans of its fields are written to the front of `headers`, as many as the
/// answer's `headers` counts.
///
/// A head that isn't whole, one with bytes behind it and one with more fields are none. It takes no
/// memory.
pub fn parts_of(head: &[u8], headers: &mut [HeaderSpan; MOST_FIELDS]) -> Option<RequestSpans>
    ensures head { MatchOption result (head_of head.now ≡ None)
        (λ spans. head_of head.now ≡ Some (head_at head.now headers.new spans)) }
    ensures within { IfSome result (IsRequestWithin head.now headers.new) }
{
    match parse_request(head, headers) {
        Ok(Status::Complete(spans)) => {
            if spans.len == head.len() {
                Some(spans)
            } else {
                None
            }
        }
        Ok(Status::Partial) => None,
        Err(_) => None,
    }
}
