//! The rehearsal.
ghost use Rattle.std.specs.Prelude.{◌≡◌, ◌≤◌, ◌++◌, All, IfOk, OnOk, string_bytes, flat_map};
ghost use Rattle.sq_rehearsal.specs.Rehearsal.{most_rehearsed};
ghost use Rattle.sq_schema.specs.Intervals.{clamped as moment};
ghost use Rattle.sq_packet.specs.Asked.{IsAsked};
ghost use Rattle.sq_run.specs.Replies.{IsReply};
ghost use Rattle.sq_run.specs.Rehearsing as spec;

use crate::answer::answer;
use crate::reply::Reply;
use sq_engine::{Engine, Loader, Refused};
use sq_rehearsal::{Question, questions, rehearsal};
use sq_response::Response;
use sq_schema::clamped;
use std::alloc::{AllocError, Global};

/// How many hits an answer has, and the first one that it lists; 0 where none is listed.
fn hits_told(alloc: Global, answered: Result<Response, Refused>) -> Result<String, AllocError>
    ensures { IfOk result (λ text. spec.TellsHits answered (string_bytes text)) }
{
    match answered {
        Err(Refused::NoMemory) => Err(AllocError),
        Ok(Response::Found(found)) => match found.hits.as_slice() {
            [] => String::from_str(alloc, "0\n"),
            [hit, ..] => {
                let total = found.total;
                let number = hit.number;
                let score = hit.score;
                Ok(format!(in alloc; "{total} first {number} score {score}\n")?)
            }
        },
        _ => String::from_str(alloc, "0\n"),
    }
}

/// Asks a question, and adds its line.
#[tactic(auto, unfolding(crate::specs::Rehearsing::question_line))]
fn add_line<E: Engine>(
    alloc: Global,
    engine: &E,
    now: i64,
    text: &mut String,
    question: &Question,
) -> Result<(), AllocError>
    requires asked { IsAsked question.now.request }
    requires now { now ≡ moment now }
    ensures { OnOk result (string_bytes text.new ≡ string_bytes text.old ++ spec.question_line (E.says engine.now) now question.now) }
{
    let caller = question.caller.as_str();
    let number = question.number;
    let answered = answer(alloc, engine, caller.as_bytes(), now, &question.request);
    let told = hits_told(alloc, answered)?;
    let told = told.as_str();
    let line = format!(in alloc; "{caller} {number} total {told}")?;
    text.push_str(line.as_str())
}

/// Asks questions, and adds their lines.
fn add_lines<E: Engine>(
    alloc: Global,
    engine: &E,
    now: i64,
    text: &mut String,
    questions: &[Question],
) -> Result<(), AllocError>
    requires asked { All (λ question. IsAsked question.request) questions.now }
    requires now { now ≡ moment now }
    ensures { OnOk result (string_bytes text.new ≡ string_bytes text.old ++ flat_map (spec.question_line (E.says engine.now) now) questions.now) }
{
    for question in questions {
        add_line(alloc, engine, now, text, question)?;
    }
    Ok(())
}

/// Makes the corpus, and asks it the questions of a rehearsal.
pub fn rehearse_reply<D: Loader>(
    alloc: Global,
    loader: &D,
    now: i64,
    count: u32,
) -> Result<Reply, AllocError>
    requires some { 1 ≤ count }
    requires few { count ≤ most_rehearsed }
    ensures { IfOk result (IsReply (spec.rehearsal_outcome (D.says loader.now) now count)) }
{
    let corpus = rehearsal(alloc, count)?;
    let engine = loader.build(alloc, &corpus)?;
    let questions = questions(alloc)?;
    let mut text = String::new(alloc);
    add_lines(
        alloc,
        &engine,
        clamped(now),
        &mut text,
        questions.as_slice(),
    )?;
    Ok(Reply {
        status: 0,
        text: text.into_bytes(),
    })
}
