//! What is done with a corpus.
ghost use Rattle.std.specs.Prelude.{◌≡◌, ◌≤◌, ◌⊎◌, Err, IfOk, IfSome, IsErrOf, option_map, length, vec_len, false};
ghost use Rattle.sq_base.specs.Causes.{Rose};
ghost use Rattle.sq_base.specs.Limits.{most_packet_bytes};
ghost use Rattle.sq_schema.specs.Intervals.{clamped as moment};
ghost use Rattle.sq_packet.specs.Asked.{IsAsked};
ghost use Rattle.sq_run.specs.Command.{work_of, work_reads_input, Working};
ghost use Rattle.sq_run.specs.Output.{order_outcome};
ghost use Rattle.sq_run.specs.Replies as spec;

use crate::answer::answer;
use crate::command::Task;
use crate::desk::{bad_request, respond};
use crate::load::{Unloaded, load};
use crate::reply::{
    Reply, Stop, check_reply, found_reply, nothing_reply, refusal, silent, text_reply,
};
use sq_base::{Fault, List, MOST_PACKET_BYTES, ReadAll, Source, Text, read_all};
use sq_engine::{Engine, Loader, Refused, lowered_text};
use sq_model::Joiner;
use sq_packet::{Language, MOST_HITS, Request};
use sq_response::{Response, write_response};
use sq_schema::clamped;
use std::alloc::{AllocError, Global};

/// The request of a text alone.
pub fn request_of(alloc: Global, language: Language, text: &str) -> Result<Request, AllocError>
    ensures value { IfOk result (λ request. request ≡ spec.request_of language text.now) }
    ensures asked { IfOk result IsAsked }
{
    Ok(Request {
        language,
        text: Text::from_str(alloc, text)?,
        start: 1,
        count: MOST_HITS,
        properties: List::new(alloc),
        refiners: List::new(alloc),
        sorts: List::new(alloc),
        implicit_and: true,
    })
}

/// What an engine has.
fn check<E: Engine>(alloc: Global, engine: &E) -> Result<Reply, AllocError>
    ensures { IfOk result (spec.IsReply (spec.check_outcome (spec.known_by E.Engine engine.now))) }
{
    check_reply(
        alloc,
        engine.schema().len(),
        engine.callers(),
        engine.items(),
    )
}

/// Answers a query of a caller.
fn ask<E: Engine>(
    alloc: Global,
    engine: &E,
    caller: &str,
    language: Language,
    text: &str,
    now: i64,
) -> Result<Reply, AllocError>
    requires { now ≡ moment now }
    ensures reply { IfOk result (spec.IsReply (spec.answer_outcome (E.says engine.now caller.now now (spec.request_of language text.now)))) }
    ensures status { IfOk result (λ reply. reply.status ≤ 1) }
{
    let request = request_of(alloc, language, text)?;
    match answer(alloc, engine, caller.as_bytes(), now, &request) {
        Ok(Response::Found(found)) => found_reply(alloc, &found),
        Ok(Response::Nothing) => nothing_reply(alloc),
        Ok(Response::BadQuery(_)) => unreachable!(),
        Ok(Response::BadRequest(_)) => unreachable!(),
        Err(Refused::UnknownCaller) => refusal(alloc, 511, 0),
        Err(Refused::Query(fault)) => refusal(alloc, fault.code, fault.at),
        Err(Refused::UnknownRefiner(i)) => refusal(alloc, 509, i),
        Err(Refused::UnknownSort(i)) => refusal(alloc, 516, i),
        Err(Refused::NoMemory) => Err(AllocError),
    }
}

/// Writes a KQL text as FQL.
fn lower<E: Engine>(alloc: Global, engine: &E, text: &str, now: i64) -> Result<Reply, AllocError>
    requires { now ≡ moment now }
    ensures reply { IfOk result (spec.IsReply (spec.lowered_outcome (spec.lowered_of (E.schema engine.now) now Joiner.All text.now))) }
    ensures status { IfOk result (λ reply. reply.status ≤ 1) }
{
    match lowered_text(alloc, engine.schema(), Joiner::All, text, now) {
        Ok(text) => text_reply(alloc, &text),
        Err(Fault::Query(fault)) => refusal(alloc, fault.code, fault.at),
        Err(Fault::NoMemory) => Err(AllocError),
    }
}

/// 0 for an answer, 1 for a refusal.
fn status_of(response: &Response) -> u8
    ensures value { result ≡ spec.status_of response.now }
    ensures small { result ≤ 1 }
{
    match response {
        Response::Found(_) => 0,
        Response::Nothing => 0,
        Response::BadQuery(_) => 1,
        Response::BadRequest(_) => 1,
    }
}

/// The response to a packet of anybody.
fn response_to<E: Engine>(
    alloc: Global,
    engine: &E,
    caller: &str,
    now: i64,
    body: &[u8],
) -> Result<Response, AllocError>
    requires body { length body.now ≤ most_packet_bytes }
    requires now { now ≡ moment now }
    ensures { IfOk result (λ response. response ≡ spec.packet_answer (spec.known_by E.Engine engine.now) now caller.now body.now) }
{
    if engine.knows(caller.as_bytes()) {
        respond(alloc, engine, caller.as_bytes(), now, body)
    } else {
        Ok(bad_request(511, 0))
    }
}

/// Answers the packet of a caller.
fn body_reply<E: Engine>(
    alloc: Global,
    engine: &E,
    caller: &str,
    now: i64,
    body: &[u8],
) -> Result<Reply, AllocError>
    requires body { length body.now ≤ most_packet_bytes }
    requires now { now ≡ moment now }
    ensures reply { IfOk result (spec.IsReply (spec.response_outcome (spec.packet_answer (spec.known_by E.Engine engine.now) now caller.now body.now))) }
    ensures status { IfOk result (λ reply. reply.status ≤ 1) }
{
    let response = response_to(alloc, engine, caller, now, body)?;
    let text = write_response(alloc, &response)?;
    Ok(Reply {
        status: status_of(&response),
        text,
    })
}

/// Reads the input to its end, where it isn't longer than a packet may be.
fn read_packet_bytes<I: Source>(alloc: Global, input: &mut I) -> Result<Vec<u8>, ReadAll>
    ensures whole { spec.ReadsPacket (I.left input.old) result }
    ensures small { IfOk result (λ bytes. vec_len bytes ≤ most_packet_bytes) }
    ensures fault { IsErrOf result ReadAll.Fault → Rose (I.faults input.old) (I.faults input.new) }
    ensures later { I.faults input.old ≤ I.faults input.new }
{
    read_all(alloc, input, MOST_PACKET_BYTES)
}

/// Reads the packet of a caller, and answers it.
#[tactic(auto, unfolding(crate::specs::Replies::packet_outcome))]
fn packet<E: Engine, I: Source>(
    alloc: Global,
    engine: &E,
    caller: &str,
    now: i64,
    input: &mut I,
) -> Result<Reply, Stop>
    requires { now ≡ moment now }
    ensures reply { IfOk result (λ reply. IfSome (option_map (spec.packet_outcome (spec.known_by E.Engine engine.now) now caller.now) (I.left input.old)) (λ outcome. spec.IsReply outcome reply)) }
    ensures status { IfOk result (λ reply. (reply.status ≤ 1) ⊎ (reply.status ≡ 8)) }
    ensures fault { result ≡ Err Stop.ReadFault → Rose (I.faults input.old) (I.faults input.new) }
    ensures later { I.faults input.old ≤ I.faults input.new }
    ensures wired { IsErrOf result Stop.AcceptFault → ⊥ }
{
    match read_packet_bytes(alloc, input) {
        Ok(body) => {
            let reply = body_reply(alloc, engine, caller, now, &body)?;
            Ok(reply)
        }
        Err(ReadAll::TooLong) => Ok(silent(alloc, 8)),
        Err(ReadAll::Fault) => Err(Stop::ReadFault),
        Err(ReadAll::NoMemory) => Err(Stop::NoMemory),
    }
}

/// Does what is asked of an engine.
#[tactic(auto, unfolding(crate::specs::Replies::work_outcome, crate::specs::Command::work_of))]
fn task_reply<E: Engine, I: Source>(
    alloc: Global,
    engine: &E,
    task: Task,
    now: i64,
    input: &mut I,
) -> Result<Reply, Stop>
    requires { now ≡ moment now }
    ensures reply { IfOk result (λ reply. IfSome (spec.work_outcome (spec.known_by E.Engine engine.now) now (I.left input.old) (work_of task.entry)) (λ outcome. spec.IsReply outcome reply)) }
    ensures status { IfOk result (λ reply. (reply.status ≤ 1) ⊎ (reply.status ≡ 8)) }
    ensures input { work_reads_input (work_of task.entry) ≡ false → input.new ≡ input.old }
    ensures fault { result ≡ Err Stop.ReadFault → Rose (I.faults input.old) (I.faults input.new) }
    ensures later { I.faults input.old ≤ I.faults input.new }
    ensures wired { IsErrOf result Stop.AcceptFault → ⊥ }
{
    match task {
        Task::Check => {
            let reply = check(alloc, engine)?;
            Ok(reply)
        }
        Task::Ask {
            caller,
            language,
            text,
        } => {
            let reply = ask(alloc, engine, caller, language, text, now)?;
            Ok(reply)
        }
        Task::Lower { text } => {
            let reply = lower(alloc, engine, text, now)?;
            Ok(reply)
        }
        Task::Packet { caller } => packet(alloc, engine, caller, now, input),
    }
}

/// Loads the corpus, and does what is asked of it.
#[tactic(auto, unfolding(crate::specs::Output::order_outcome))]
pub fn work_reply<D: Loader, S: Source, I: Source>(
    alloc: Global,
    loader: &D,
    task: Task,
    now: i64,
    corpus: &mut S,
    input: &mut I,
) -> Result<Reply, Stop>
    ensures reply { IfOk result (λ reply. IfSome (order_outcome (D.says loader.now) now (S.left corpus.old) (I.left input.old) (Working (work_of task.entry))) (λ outcome. spec.IsReply outcome reply)) }
    ensures status { IfOk result (λ reply. (reply.status ≤ 1) ⊎ ((reply.status ≡ 3) ⊎ (reply.status ≡ 8))) }
    ensures input { work_reads_input (work_of task.entry) ≡ false → input.new ≡ input.old }
    ensures refused { IfOk result (λ reply. reply.status ≡ 3 → input.new ≡ input.old) }
    ensures fault { result ≡ Err Stop.ReadFault → Rose (S.faults corpus.old) (S.faults corpus.new) ⊎ Rose (I.faults input.old) (I.faults input.new) }
    ensures corpus_later { S.faults corpus.old ≤ S.faults corpus.new }
    ensures input_later { I.faults input.old ≤ I.faults input.new }
    ensures wired { IsErrOf result Stop.AcceptFault → ⊥ }
{
    match load(alloc, loader, corpus) {
        Ok(engine) => task_reply(alloc, &engine, task, clamped(now), input),
        Err(Unloaded::Refused(reply)) => Ok(reply),
        Err(Unloaded::ReadFault) => Err(Stop::ReadFault),
        Err(Unloaded::NoMemory) => Err(Stop::NoMemory),
    }
}
