//! What a head asks for.
ghost use Rattle.std.specs.Prelude.{◌≡◌, ◌≤◌, All, IfOk, ℕ, Some, length, codes};
ghost use Rattle.sq_base.specs.Limits.{most_packet_bytes};
ghost use Rattle.httparse.specs.Spans.{IsHeaderWithin};
ghost use Rattle.sq_head.specs.Head.{head_of};
ghost use Rattle.sq_http.specs.Body.{request_seen};
ghost use Rattle.sq_http.specs.Fields.{values_at};
ghost use Rattle.sq_http.specs.Judge.{judged_seen, head_by};
ghost use Rattle.sq_http.specs.Owed.{judged, length_of, by_caller, request_of};

use crate::fields::{any_closes, any_expects, next_value, number_of};
use http::StatusCode;
use httparse::spans::{EMPTY_HEADER_SPAN, HeaderSpan};
use sq_base::MOST_PACKET_BYTES;
use sq_head::{MOST_FIELDS, parts_of};

/// The name of who asks, or the status of a refusal and whether it closes the connection.
#[derive(Clone, Copy)]
pub enum Request<'x> {
    Refused(StatusCode, bool),
    Asks(&'x [u8]),
}

/// What is known of a request when its head has come.
#[derive(Clone, Copy)]
pub struct Job<'x> {
    /// The length of the body in bytes.
    pub size: usize,
    /// Whether the interim text is sent before the body is read.
    pub interim: bool,
    /// Whether the connection closes after the reply, whatever it is.
    pub last: bool,
    pub request: Request<'x>,
}

/// The length of the body, or the status of its refusal.
fn length_of(head: &[u8], headers: &[HeaderSpan]) -> Result<usize, StatusCode>
    requires { All (IsHeaderWithin (length head.now)) headers.now }
    ensures length { length_of (values_at (codes "content-length") head.now headers.now) ≡ result }
    ensures size { IfOk result (λ size. size ≤ most_packet_bytes) }
{
    match next_value(head, headers, 0, b"content-length") {
        None => Ok(0),
        Some((value, next)) => match next_value(head, headers, next, b"content-length") {
            None => match number_of(value) {
                None => Err(StatusCode::BAD_REQUEST),
                Some(size) => {
                    if size <= MOST_PACKET_BYTES {
                        Ok(size)
                    } else {
                        Err(StatusCode::PAYLOAD_TOO_LARGE)
                    }
                }
            },
            Some(_) => Err(StatusCode::BAD_REQUEST),
        },
    }
}

/// Who asks: the value of the one field X-Search-Caller, if it isn't empty.
fn caller_of<'x>(head: &'x [u8], headers: &[HeaderSpan]) -> Request<'x>
    requires { All (IsHeaderWithin (length head.now)) headers.now }
    ensures { by_caller (values_at (codes "x-search-caller") head.now headers.now) ≡ request_seen result }
{
    match next_value(head, headers, 0, b"x-search-caller") {
        None => Request::Refused(StatusCode::BAD_REQUEST, false),
        Some((value, next)) => match next_value(head, headers, next, b"x-search-caller") {
            None => match value {
                [] => Request::Refused(StatusCode::BAD_REQUEST, false),
                _ => Request::Asks(value),
            },
            Some(_) => Request::Refused(StatusCode::BAD_REQUEST, false),
        },
    }
}

/// Who asks, or the refusal that the target, the method or the fields call for.
fn request_of<'x>(
    head: &'x [u8],
    headers: &[HeaderSpan],
    method: &[u8],
    target: &[u8],
) -> Request<'x>
    requires { All (IsHeaderWithin (length head.now)) headers.now }
    ensures { (minor : ℕ)
        → request_of (head_by method.now target.now minor head.now headers.now) ≡ request_seen result }
{
    if target != b"/query".as_slice() {
        return Request::Refused(StatusCode::NOT_FOUND, false);
    }
    if method != b"POST".as_slice() {
        return Request::Refused(StatusCode::METHOD_NOT_ALLOWED, false);
    }
    match next_value(head, headers, 0, b"content-length") {
        None => Request::Refused(StatusCode::LENGTH_REQUIRED, true),
        Some(_) => caller_of(head, headers),
    }
}

/// Judges the parts of a head.
#[tactic(auto, unfolding(crate::specs::Owed::judged))]
fn judge_parts<'x>(
    head: &'x [u8],
    headers: &[HeaderSpan],
    method: &[u8],
    target: &[u8],
    minor: u8,
) -> Result<Job<'x>, StatusCode>
    requires { All (IsHeaderWithin (length head.now)) headers.now }
    ensures judged { judged (Some (head_by method.now target.now minor head.now headers.now))
        ≡ judged_seen result }
    ensures size { IfOk result (λ job. job.size ≤ most_packet_bytes) }
{
    match next_value(head, headers, 0, b"transfer-encoding") {
        Some(_) => Err(StatusCode::NOT_IMPLEMENTED),
        None => match length_of(head, headers) {
            Err(status) => Err(status),
            Ok(size) => {
                let expects = any_expects(head, headers);
                let closes = any_closes(head, headers);
                let request = request_of(head, headers, method, target);
                Ok(Job {
                    size,
                    interim: (minor == 1) & expects & (size > 0),
                    last: (minor == 0) | closes,
                    request,
                })
            }
        },
    }
}

/// Judges a head. Its refusals close.
#[tactic(auto, unfolding(crate::specs::Owed::judged))]
pub fn judge<'x>(head: &'x [u8]) -> Result<Job<'x>, StatusCode>
    ensures judged { judged (head_of head.now) ≡ judged_seen result }
    ensures size { IfOk result (λ job. job.size ≤ most_packet_bytes) }
{
    let mut headers = [EMPTY_HEADER_SPAN; MOST_FIELDS];
    match parts_of(head, &mut headers) {
        None => Err(StatusCode::BAD_REQUEST),
        Some(spans) => judge_parts(
            head,
            &headers[..spans.headers],
            spans.method.of(head),
            spans.path.of(head),
            spans.version,
        ),
    }
}
