//! An engine's answers, each with a counter of its own.
ghost use Rattle.std.specs.Prelude.{◌≡◌};
ghost use Rattle.sq_schema.specs.Intervals.{clamped};
ghost use Rattle.sq_packet.specs.Asked.{IsAsked};
ghost use Rattle.sq_engine.specs.Answers.{Answers};

use sq_base::Steps;
use sq_engine::{Engine, Refused};
use sq_packet::Request;
use sq_response::Response;
use std::alloc::Global;
use std::marker::Brand;
use std::sync::ledger::{Blank, Ledger};

fn answer_on<E: Engine, L: Ledger>(
    alloc: Global,
    engine: &E,
    caller: &[u8],
    now: i64,
    request: &Request,
    blank: Blank,
) -> Result<Response, Refused>
    requires name { blank.name ≡ L.name }
    requires parts { blank.parts ≡ L.parts }
    requires one { blank.parts ≡ 1 }
    requires asked { IsAsked request.now }
    requires now { now ≡ clamped now }
    ensures { Answers (E.says engine.now caller.now now request.now) result }
{
    let mut steps = Steps::<L>::new(blank);
    engine.answer(alloc, caller, now, request, &mut steps)
}

/// Answers a caller at a moment, in UTC seconds since 1970-01-01T00:00:00Z.
pub fn answer<E: Engine>(
    alloc: Global,
    engine: &E,
    caller: &[u8],
    now: i64,
    request: &Request,
) -> Result<Response, Refused>
    requires asked { IsAsked request.now }
    requires now { now ≡ clamped now }
    ensures { Answers (E.says engine.now caller.now now request.now) result }
{
    answer_on::<E, Brand>(alloc, engine, caller, now, request, Blank::new(1))
}
