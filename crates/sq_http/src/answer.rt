//! The last reply to a request.
ghost use Rattle.std.specs.Prelude.{◌≡◌, ◌≤◌, ℕ, ℤ, Bool, List, [], Option, Err, IfOk, length, decimal, string_bytes};
ghost use Rattle.sq_base.specs.Limits.{most_packet_bytes};
ghost use Rattle.sq_http.specs.Exchange.{RepliesTo, told_of};
ghost use Rattle.sq_http.specs.Handles.{Handles};
ghost use Rattle.sq_http.specs.Owed.{Refusal, Asking};
ghost use Rattle.sq_http.specs.Puts.{Puts};
ghost use Rattle.sq_http.specs.Replies.{Answering, reply_text};

use crate::send::send_reply;
use http::StatusCode;
use sq_base::{Ended, Failed, Wire};
use std::alloc::{AllocError, Global};

/// Why a handler has no reply.
#[derive(Clone, Copy, Debug, PartialEq, Eq)]
pub enum Handled {
    /// Nobody has the caller's name. The reply is 403.
    UnknownCaller,
    /// Memory was wanting. The reply is 503, and the connection closes.
    NoMemory,
}

/// Who answers the bodies of a connection's requests.
pub trait Handler {
    /// The reply at a moment to a caller's name and a body: bytes, or nothing where nobody has that
    /// name.
    ghost reply: { Self → ℤ → List ℕ → List ℕ → Option (List ℕ) };

    /// The reply to the body of a request: the body of a 200. `caller` is the value of the field
    /// X-Search-Caller, which needn't be UTF-8, and `now` the moment at which the connection came, in
    /// seconds since 1970-01-01T00:00:00Z.
    fn handle(
        &self,
        alloc: Global,
        caller: &[u8],
        now: i64,
        body: &[u8],
    ) -> Result<Vec<u8>, Handled>
        requires { length body.now ≤ most_packet_bytes }
        ensures { Handles (reply self.now now caller.now body.now) result };
}

/// Who answers on a connection, with which memory and at which moment.
#[derive(Drop)]
pub struct Responder<'h, H> {
    pub alloc: Global,
    pub handler: &'h H,
    /// Seconds since 1970-01-01T00:00:00Z.
    pub moment: i64,
}

/// Sends a reply with an empty body. It takes no memory.
pub fn refuse<W: Wire>(wire: &mut W, status: StatusCode, closing: bool) -> Result<(), Failed>
    ensures { Puts W.Wire (reply_text status closing []) wire.old wire.new result }
{
    send_reply(wire, status, closing, b"0", b"")
}

/// Whether the connection goes on behind a last reply, where it was sent whole.
fn told(sent: Result<(), Failed>, closing: bool) -> Result<bool, Ended>
    ensures { result ≡ told_of sent closing }
{
    match sent {
        Ok(()) => Ok(!closing),
        Err(Failed) => Err(Ended::WriteFault),
    }
}

/// Sends a refusal as the last reply to a request.
pub fn refused<W: Wire>(wire: &mut W, status: StatusCode, closing: bool) -> Result<bool, Ended>
    ensures { (answering : Answering)
        → RepliesTo W.Wire answering (Refusal status closing) wire.old wire.new result }
{
    let sent = refuse(wire, status, closing);
    told(sent, closing)
}

/// Sends the text of want of memory in the place of a reply.
fn gave_up<W: Wire>(wire: &mut W) -> Ended
    ensures { (answering : Answering) (caller body : List ℕ) (closing : Bool)
        → RepliesTo W.Wire answering (Asking caller body closing) wire.old wire.new (Err result) }
{
    match refuse(wire, StatusCode::SERVICE_UNAVAILABLE, true) {
        Ok(()) => Ended::NoMemory,
        Err(Failed) => Ended::WriteFault,
    }
}

/// The decimal digits of a number.
fn decimal_of(alloc: Global, number: usize) -> Result<String, AllocError>
    ensures { IfOk result (λ text. string_bytes text ≡ decimal number) }
{
    Ok(format!(in alloc; "{number}")?)
}

/// Sends what the handler answers as the last reply to a request.
pub fn answered<W: Wire, H: Handler>(
    responder: &Responder<H>,
    wire: &mut W,
    caller: &[u8],
    body: &[u8],
    closing: bool,
) -> Result<bool, Ended>
    requires { length body.now ≤ most_packet_bytes }
    ensures { RepliesTo W.Wire (H.reply responder.now.handler.now responder.now.moment)
        (Asking caller.now body.now closing) wire.old wire.new result }
{
    match responder
        .handler
        .handle(responder.alloc, caller, responder.moment, body)
    {
        Ok(text) => match decimal_of(responder.alloc, text.len()) {
            Ok(size) => {
                let sent = send_reply(wire, StatusCode::OK, closing, size.as_bytes(), &text);
                told(sent, closing)
            }
            Err(_) => Err(gave_up(wire)),
        },
        Err(Handled::UnknownCaller) => {
            let sent = refuse(wire, StatusCode::FORBIDDEN, closing);
            told(sent, closing)
        }
        Err(Handled::NoMemory) => Err(gave_up(wire)),
    }
}
