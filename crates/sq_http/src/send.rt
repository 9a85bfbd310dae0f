//! Sending replies. Nothing here takes memory.
ghost use Rattle.std.specs.Prelude.{◌≡◌, ◌++◌, ◌==◌, if◌then◌else◌, [], codes, decimal, flat_map, length};
ghost use Rattle.std.specs.Option.{unwrap_or};
ghost use Rattle.http.specs.StatusCode.{code_digits, reason_phrase};
ghost use Rattle.sq_http.specs.Puts.{Puts};
ghost use Rattle.sq_http.specs.Replies.{reply_text};

use http::StatusCode;
use sq_base::{Failed, Wire, send_all};

/// Sends a text.
pub fn send<W: Wire>(wire: &mut W, text: &[u8]) -> Result<(), Failed>
    ensures { Puts W.Wire text.now wire.old wire.new result }
{
    send_all(wire, text)
}

/// Sends one part after the other.
fn send_parts<W: Wire>(wire: &mut W, parts: &[&[u8]]) -> Result<(), Failed>
    ensures { Puts W.Wire (flat_map (λ part. part.now) parts.now) wire.old wire.new result }
{
    'parts: for i in 0..parts.len() {
        match send(wire, parts[i]) {
            Ok(()) => {}
            Err(failed) => return Err(failed),
        }
    }
    Ok(())
}

/// The three digits of a status.
fn digits_of<'x>(status: StatusCode) -> &'x [u8]
    ensures { result.now ≡ code_digits status }
{
    status.as_str().as_bytes()
}

/// The reason phrase of a status.
fn reason_of<'x>(status: StatusCode) -> &'x [u8]
    ensures { result.now ≡ unwrap_or (reason_phrase status) [] }
{
    status.canonical_reason().unwrap_or("").as_bytes()
}

/// The line of a reply that says what its body is.
fn kind_of<'x>(status: StatusCode) -> &'x [u8]
    ensures { result.now ≡ (if status == 200 then codes "Content-Type: text/xml; charset=utf-8\r\n" else []) }
{
    if status == StatusCode::OK {
        b"Content-Type: text/xml; charset=utf-8\r\n"
    } else {
        b""
    }
}

/// The line of a reply that says which method is allowed.
fn allowed_of<'x>(status: StatusCode) -> &'x [u8]
    ensures { result.now ≡ (if status == 405 then codes "Allow: POST\r\n" else []) }
{
    if status == StatusCode::METHOD_NOT_ALLOWED {
        b"Allow: POST\r\n"
    } else {
        b""
    }
}

/// The line of a reply that says that it is the last one.
fn close_of<'x>(closing: bool) -> &'x [u8]
    ensures { result.now ≡ (if closing then codes "Connection: close\r\n" else []) }
{
    if closing {
        b"Connection: close\r\n"
    } else {
        b""
    }
}

/// Sends a reply, given the decimal digits of its body's length.
pub fn send_reply<'x, W: Wire>(
    wire: &mut W,
    status: StatusCode,
    closing: bool,
    size: &'x [u8],
    body: &'x [u8],
) -> Result<(), Failed>
    requires { size.now ≡ decimal (length body.now) }
    ensures { Puts W.Wire (reply_text status closing body.now) wire.old wire.new result }
{
    let parts: [&'x [u8]; 13] = [
        b"HTTP/1.1 ",
        digits_of(status),
        b" ",
        reason_of(status),
        b"\r\n",
        kind_of(status),
        b"Content-Length: ",
        size,
        b"\r\n",
        allowed_of(status),
        close_of(closing),
        b"\r\n",
        body,
    ];
    send_parts(wire, &parts)
}
