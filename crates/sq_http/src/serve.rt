//! A connection.
ghost use Rattle.std.specs.Prelude.{◌≡◌, ◌+◌, []};
ghost use Rattle.sq_base.specs.Limits.{most_packet_bytes};
ghost use Rattle.sq_http.specs.Gathers.{held, room};
ghost use Rattle.sq_http.specs.Replies.{Answering};
ghost use Rattle.sq_http.specs.Served.{Serves};
ghost use Rattle.sq_http.specs.Limits.{most_head_bytes};

use crate::answer::{Handler, Responder, refuse};
use crate::buffer::Buffer;
use crate::exchange::exchange;
use crate::limits::{MOST_HEAD_BYTES, MOST_REQUESTS};
use http::StatusCode;
use sq_base::{Ended, Failed, MOST_PACKET_BYTES, Wire};
use std::alloc::Global;

/// Answers requests until the connection closes.
fn serve<W: Wire, H: Handler>(
    responder: &Responder<H>,
    wire: &mut W,
    heads: &mut Buffer,
    bodies: &mut Buffer,
) -> Ended
    requires empty { held heads.old ≡ [] }
    requires heads { room heads.old ≡ most_head_bytes + 1 }
    requires bodies { room bodies.old ≡ most_packet_bytes }
    ensures { Serves W.Wire (H.reply responder.now.handler.now responder.now.moment) wire.old wire.new
        result }
{
    let mut left = MOST_REQUESTS;
    'requests: loop {
        left -= 1;
        match exchange(responder, wire, left == 0, heads, bodies) {
            Ok(true) => {}
            Ok(false) => return Ended::Finished,
            Err(ended) => return ended,
        }
    }
}

/// Sends the text of want of memory before anything is read.
fn without_buffers<W: Wire>(wire: &mut W) -> Ended
    ensures { (answering : Answering) → Serves W.Wire answering wire.old wire.new result }
{
    match refuse(wire, StatusCode::SERVICE_UNAVAILABLE, true) {
        Ok(()) => Ended::NoMemory,
        Err(Failed) => Ended::WriteFault,
    }
}

/// Answers the requests of a connection, at most `MOST_REQUESTS`, until it closes. `now` is the
/// moment at which it came, in seconds since 1970-01-01T00:00:00Z.
///
/// What it owes is a function of the bytes taken alone, however they are cut into reads. All that is
/// owed for the bytes taken is sent before more is read. It answers
///
/// - `Finished` after the end of input, or after a reply that closes,
/// - `ReadFault` where a read failed; all that is owed was sent,
/// - `WriteFault` where a write failed; a front part of what is owed was sent,
/// - `NoMemory` after the text of a 503, in the place of the handler's reply or before the first read.
///
/// The memory of its buffers is taken first. Then only the handler and the digits of the length of its
/// reply take memory.
pub fn serve_connection<W: Wire, H: Handler>(
    alloc: Global,
    handler: &H,
    now: i64,
    wire: &mut W,
) -> Ended
    ensures { Serves W.Wire (H.reply handler.now now) wire.old wire.new result }
{
    let Ok(mut heads) = Buffer::new(alloc, MOST_HEAD_BYTES + 1) else {
        return without_buffers(wire);
    };
    let Ok(mut bodies) = Buffer::new(alloc, MOST_PACKET_BYTES) else {
        return without_buffers(wire);
    };
    let responder = Responder {
        alloc,
        handler,
        moment: now,
    };
    serve(&responder, wire, &mut heads, &mut bodies)
}
