//! The desk: it answers the packets of callers over an engine.
ghost use Rattle.std.specs.Prelude.{◌≡◌, ◌≤◌, length, IfOk};
ghost use Rattle.sq_base.specs.Limits.{most_packet_bytes};
ghost use Rattle.sq_schema.specs.Intervals.{clamped as moment};
ghost use Rattle.sq_packet.specs.Asked.{IsAsked};
ghost use Rattle.sq_run.specs.Desk.{desk_reply, desk_response, response_of};

use crate::answer::answer;
use sq_base::QueryFault;
use sq_engine::{Engine, Refused};
use sq_http::{Handled, Handler};
use sq_packet::{PacketFault, Request, read_packet};
use sq_response::{Response, write_response};
use sq_schema::clamped;
use std::alloc::{AllocError, Global};

/// A request that is refused before its text is read, or behind it, by a code and a number.
pub fn bad_request(code: u16, at: u32) -> Response
    ensures { result ≡ Response.BadRequest (record { code = code; at = at }) }
{
    Response::BadRequest(QueryFault { code, at })
}

/// The response to a request of a caller.
fn response_to<E: Engine>(
    alloc: Global,
    engine: &E,
    caller: &[u8],
    now: i64,
    request: &Request,
) -> Result<Response, AllocError>
    requires asked { IsAsked request.now }
    requires now { now ≡ moment now }
    ensures { IfOk result (λ response. response ≡ response_of (E.says engine.now caller.now now request.now)) }
{
    match answer(alloc, engine, caller, now, request) {
        Ok(response) => Ok(response),
        Err(Refused::UnknownCaller) => Ok(bad_request(511, 0)),
        Err(Refused::Query(fault)) => Ok(Response::BadQuery(fault)),
        Err(Refused::UnknownRefiner(i)) => Ok(bad_request(509, i)),
        Err(Refused::UnknownSort(i)) => Ok(bad_request(516, i)),
        Err(Refused::NoMemory) => Err(AllocError),
    }
}

/// The response to the packet of a known caller.
#[tactic(auto, unfolding(crate::specs::Desk::desk_response))]
pub fn respond<E: Engine>(
    alloc: Global,
    engine: &E,
    caller: &[u8],
    now: i64,
    body: &[u8],
) -> Result<Response, AllocError>
    requires body { length body.now ≤ most_packet_bytes }
    requires now { now ≡ moment now }
    ensures { IfOk result (λ response. response ≡ desk_response (E.says engine.now) caller.now now body.now) }
{
    match read_packet(alloc, body) {
        Ok(request) => response_to(alloc, engine, caller, now, &request),
        Err(PacketFault::Packet(fault)) => Ok(Response::BadRequest(fault)),
        Err(PacketFault::NoMemory) => Err(AllocError),
    }
}

/// Answers the packets of callers over an engine.
#[derive(Drop)]
pub struct Desk<E: Engine> {
    pub engine: E,
}

impl<E: Engine> Handler for Desk<E> {
    ghost reply = { λ desk now caller body. desk_reply (E.names desk.engine) (E.says desk.engine) (moment now) caller body };

    fn handle(
        &self,
        alloc: Global,
        caller: &[u8],
        now: i64,
        body: &[u8],
    ) -> Result<Vec<u8>, Handled> {
        if !self.engine.knows(caller) {
            return Err(Handled::UnknownCaller);
        }
        let Ok(response) = respond(alloc, &self.engine, caller, clamped(now), body) else {
            return Err(Handled::NoMemory);
        };
        match write_response(alloc, &response) {
            Ok(bytes) => Ok(bytes),
            Err(_) => Err(Handled::NoMemory),
        }
    }
}
