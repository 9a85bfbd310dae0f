//! What is asked in a rehearsal.
ghost use Rattle.std.specs.Prelude.{◌≡◌, ◌++◌, ◌∷◌, [], All, IfOk, OnOk};
ghost use Rattle.sq_packet.specs.Asked.{IsAsked};
ghost use Rattle.sq_rehearsal.specs.Questions as spec;

use sq_base::{List, Text};
use sq_packet::{Language, MOST_HITS, Request};
use std::alloc::{AllocError, Global};

/// A query of the rehearsal.
#[derive(Debug, Drop)]
pub struct Question {
    /// The name of the caller who asks.
    pub caller: Text,
    /// Which of his queries it is, counted from 1.
    pub number: u32,
    pub request: Request,
}

fn request(alloc: Global, language: Language, text: &str) -> Result<Request, AllocError>
    ensures { IfOk result (λ request. request ≡ spec.request language text.now) }
{
    Ok(Request {
        language,
        text: Text::from_str(alloc, text)?,
        start: 1,
        count: MOST_HITS,
        properties: List::new(alloc),
        refiners: List::new(alloc),
        sorts: List::new(alloc),
        implicit_and: true,
    })
}

/// Adds a question of a caller.
fn put(
    alloc: Global,
    caller: &str,
    number: u32,
    language: Language,
    text: &str,
    all: &mut List<Question>,
) -> Result<(), AllocError>
    ensures { OnOk result (all.new ≡ all.old ++ spec.question caller.now number language text.now ∷ []) }
{
    all.push(Question {
        caller: Text::from_str(alloc, caller)?,
        number,
        request: request(alloc, language, text)?,
    })
}

/// Adds the six questions of a caller.
fn ask(alloc: Global, caller: &str, all: &mut List<Question>) -> Result<(), AllocError>
    ensures { OnOk result (all.new ≡ all.old ++ spec.questions_of caller.now) }
{
    let nested = "near(or(\"w2 w1\",w3),w10,N=1)";
    put(alloc, caller, 1, Language::Kql, "w1", all)?;
    put(alloc, caller, 2, Language::Kql, "w1 NEAR(n=3) w2", all)?;
    put(alloc, caller, 3, Language::Kql, "w1 ONEAR(n=3) w2", all)?;
    put(alloc, caller, 4, Language::Fql, nested, all)?;
    put(alloc, caller, 5, Language::Kql, "size<4 -w5", all)?;
    put(alloc, caller, 6, Language::Kql, "w* XRANK(cb=50) w9", all)?;
    Ok(())
}

/// The twelve questions of a rehearsal, in the order in which they are asked: the reader's six and then
/// the chief's. Each is for the first 500 hits, and within the limits of a request.
pub fn questions(alloc: Global) -> Result<List<Question>, AllocError>
    ensures equals { IfOk result (λ all. all ≡ spec.questions) }
    ensures asked { IfOk result (All (λ question. IsAsked question.request)) }
{
    let mut all = List::new(alloc);
    ask(alloc, "reader", &mut all)?;
    ask(alloc, "chief", &mut all)?;
    Ok(all)
}
