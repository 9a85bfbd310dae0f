//! A request whose head has come: its interim text, its body and its last reply.
ghost use Rattle.std.specs.Prelude.{◌≡◌, ◌≤◌, ◌++◌, length, take, drop, false};
ghost use Rattle.sq_base.specs.Limits.{most_packet_bytes};
ghost use Rattle.sq_http.specs.Body.{body_step, request_seen};
ghost use Rattle.sq_http.specs.Exchange.{ExchangeBy, RepliesTo};
ghost use Rattle.sq_http.specs.Gathers.{held, room};
ghost use Rattle.sq_http.specs.Owed.{answer_to};

use crate::answer::{Handler, Responder, answered, refused};
use crate::buffer::Buffer;
use crate::judge::{Job, Request};
use crate::reading::read_body;
use crate::send::send;
use sq_base::{Ended, Failed, Wire};

/// Sends the last reply to a request.
fn reply_to<W: Wire, H: Handler>(
    responder: &Responder<H>,
    wire: &mut W,
    job: &Job,
    body: &[u8],
) -> Result<bool, Ended>
    requires { length body.now ≤ most_packet_bytes }
    ensures { RepliesTo W.Wire (H.reply responder.now.handler.now responder.now.moment)
        (answer_to (request_seen job.now.request) job.now.last body.now) wire.old wire.new result }
{
    match job.request {
        Request::Refused(status, closes) => refused(wire, status, closes | job.last),
        Request::Asks(caller) => answered(responder, wire, caller, body, job.last),
    }
}

/// At most so many bytes from the front.
fn front_of(bytes: &[u8], most: usize) -> &[u8]
    ensures { result.now ≡ take most bytes.now }
{
    if bytes.len() > most {
        &bytes[..most]
    } else {
        bytes
    }
}

/// Reads the body of a request behind the bytes `front` that have come with its head, and replies.
fn take_body<W: Wire, H: Handler>(
    responder: &Responder<H>,
    wire: &mut W,
    job: &Job,
    front: &[u8],
    bodies: &mut Buffer,
) -> Result<bool, Ended>
    requires size { job.now.size ≤ most_packet_bytes }
    requires room { room bodies.old ≡ most_packet_bytes }
    ensures exchange { ExchangeBy W.Wire (H.reply responder.now.handler.now responder.now.moment)
        (λ more. body_step false job.now.size (request_seen job.now.request) job.now.last (front.now ++ more))
        (drop job.now.size front.now) wire.old wire.new result }
    ensures room { room bodies.new ≡ room bodies.old }
{
    bodies.drop_front(bodies.len());
    bodies.push(front_of(front, job.size));
    match read_body(bodies, wire, job.size) {
        Ok(true) => reply_to(responder, wire, job, bodies.as_slice()),
        Ok(false) => Err(Ended::Finished),
        Err(Failed) => Err(Ended::ReadFault),
    }
}

/// Answers a request whose head has come with the bytes `front` behind it. True where the connection
/// goes on.
pub fn take_request<W: Wire, H: Handler>(
    responder: &Responder<H>,
    wire: &mut W,
    job: &Job,
    front: &[u8],
    bodies: &mut Buffer,
) -> Result<bool, Ended>
    requires size { job.now.size ≤ most_packet_bytes }
    requires room { room bodies.old ≡ most_packet_bytes }
    ensures exchange { ExchangeBy W.Wire (H.reply responder.now.handler.now responder.now.moment)
        (λ more. body_step job.now.interim job.now.size (request_seen job.now.request) job.now.last (front.now ++ more))
        (drop job.now.size front.now) wire.old wire.new result }
    ensures room { room bodies.new ≡ room bodies.old }
{
    if job.interim {
        match send(wire, b"HTTP/1.1 100 Continue\r\n\r\n") {
            Ok(()) => take_body(responder, wire, job, front, bodies),
            Err(Failed) => Err(Ended::WriteFault),
        }
    } else {
        take_body(responder, wire, job, front, bodies)
    }
}
