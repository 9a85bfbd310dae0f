//! One request of a connection, from its head to its last reply.
ghost use Rattle.std.specs.Prelude.{◌≡◌, ◌≤◌, ◌+◌, ◌++◌, length, take, drop};
ghost use Rattle.sq_base.specs.Limits.{most_packet_bytes};
ghost use Rattle.sq_head.specs.Head.{head_of};
ghost use Rattle.sq_http.specs.Exchange.{Exchange, ExchangeBy};
ghost use Rattle.sq_http.specs.Gathers.{held, room};
ghost use Rattle.sq_http.specs.Owed.{judged, step_judged};
ghost use Rattle.sq_http.specs.Limits.{most_head_bytes};

use crate::answer::{Handler, Responder, refused};
use crate::body::take_request;
use crate::buffer::Buffer;
use crate::judge::{Job, judge};
use crate::reading::{Heading, read_head};
use http::StatusCode;
use sq_base::{Ended, Failed, Wire};

/// Answers a request whose head has come and has this length.
fn with_head<W: Wire, H: Handler>(
    responder: &Responder<H>,
    wire: &mut W,
    last: bool,
    size: usize,
    heads: &mut Buffer,
    bodies: &mut Buffer,
) -> Result<bool, Ended>
    requires size { size ≤ length (held heads.old) }
    requires room { room bodies.old ≡ most_packet_bytes }
    ensures exchange { ExchangeBy W.Wire (H.reply responder.now.handler.now responder.now.moment)
        (λ more. step_judged last (judged (head_of (take size (held heads.old)))) (drop size (held heads.old) ++ more))
        (held heads.new) wire.old wire.new result }
    ensures heads { room heads.new ≡ room heads.old }
    ensures bodies { room bodies.new ≡ room bodies.old }
{
    let bytes = heads.as_slice();
    let head = &bytes[..size];
    let front = &bytes[size..];
    let judged = match judge(head) {
        Ok(job) => job,
        Err(status) => return refused(wire, status, true),
    };
    let job = Job {
        last: judged.last | last,
        ..judged
    };
    let used = size + front.len().min(job.size);
    let result = take_request(responder, wire, &job, front, bodies);
    heads.drop_front(used);
    result
}

/// Answers the next request, which is the last one that is answered where `last`. True where the
/// connection goes on.
pub fn exchange<W: Wire, H: Handler>(
    responder: &Responder<H>,
    wire: &mut W,
    last: bool,
    heads: &mut Buffer,
    bodies: &mut Buffer,
) -> Result<bool, Ended>
    requires heads { room heads.old ≡ most_head_bytes + 1 }
    requires bodies { room bodies.old ≡ most_packet_bytes }
    ensures exchange { Exchange W.Wire (H.reply responder.now.handler.now responder.now.moment) last
        (held heads.old) (held heads.new) wire.old wire.new result }
    ensures heads { room heads.new ≡ room heads.old }
    ensures bodies { room bodies.new ≡ room bodies.old }
{
    match read_head(heads, wire) {
        Ok(Heading::Whole(size)) => with_head(responder, wire, last, size, heads, bodies),
        Ok(Heading::TooLong) => { refused(wire, StatusCode::REQUEST_HEADER_FIELDS_TOO_LARGE, true) }
        Ok(Heading::Ended) => Err(Ended::Finished),
        Err(Failed) => Err(Ended::ReadFault),
    }
}
