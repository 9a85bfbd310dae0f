//! What is to be written, made whole before its first byte is written.
ghost use Rattle.std.specs.Prelude.{◌≡◌, ◌∷◌, ◌++◌, [], IfOk, OnOk, string_bytes, flat_map};
ghost use Rattle.sq_run.specs.Replies as spec;

use sq_base::Text;
use sq_response::{Found, Hit};
use std::alloc::{AllocError, Global};

/// A status, and the whole text that goes with it.
#[derive(Debug, Drop)]
pub struct Reply {
    pub status: u8,
    pub text: Vec<u8>,
}

/// Why there is no reply.
#[derive(Clone, Copy, Debug, PartialEq, Eq)]
pub enum Stop {
    /// The corpus or the input could not be read.
    ReadFault,
    /// A connection could not be accepted.
    AcceptFault,
    NoMemory,
}

impl From<AllocError> for Stop {
    ghost use Rattle.sq_run.specs.declared.reply.Stop.TheVariants.{NoMemory};

    ghost from_gives = { λ _ e. e ≡ NoMemory };

    fn from(_error: AllocError) -> Stop {
        Stop::NoMemory
    }
}

/// A reply without a text.
pub fn silent(alloc: Global, status: u8) -> Reply
    ensures { spec.IsReply (record { status = status; text = [] }) result }
{
    Reply {
        status,
        text: Vec::new(alloc),
    }
}

/// The line of a fault, with status 1.
pub fn refusal(alloc: Global, code: u16, place: u32) -> Result<Reply, AllocError>
    ensures { IfOk result (spec.IsReply (spec.refusal code place)) }
{
    let text = format!(in alloc; "fault {code} at {place}\n")?;
    Ok(Reply {
        status: 1,
        text: text.into_bytes(),
    })
}

/// The first faulty line of a corpus.
pub fn corpus_refusal(alloc: Global, code: u16, line: u32) -> Result<Reply, AllocError>
    ensures { IfOk result (spec.IsReply (record { status = 3; text = spec.corpus_fault_text code line })) }
{
    let text = format!(in alloc; "corpus fault {code} line {line}\n")?;
    Ok(Reply {
        status: 3,
        text: text.into_bytes(),
    })
}

/// How much a corpus has.
pub fn check_reply(
    alloc: Global,
    properties: u32,
    callers: u32,
    items: u32,
) -> Result<Reply, AllocError>
    ensures { IfOk result (spec.IsReply (record { status = 0; text = spec.check_text properties callers items })) }
{
    let text = format!(in alloc; "ok {properties} properties {callers} callers {items} items\n")?;
    Ok(Reply {
        status: 0,
        text: text.into_bytes(),
    })
}

/// The line of a text.
pub fn text_reply(alloc: Global, text: &Text) -> Result<Reply, AllocError>
    ensures { IfOk result (spec.IsReply (record { status = 0; text = text.now ++ 10 ∷ [] })) }
{
    let text = text.as_str();
    let line = format!(in alloc; "{text}\n")?;
    Ok(Reply {
        status: 0,
        text: line.into_bytes(),
    })
}

fn total_line(alloc: Global, total: u64) -> Result<String, AllocError>
    ensures { IfOk result (λ text. string_bytes text ≡ spec.total_text total) }
{
    Ok(format!(in alloc; "total {total}\n")?)
}

/// Adds the line of a hit.
fn add_hit(alloc: Global, text: &mut String, hit: &Hit) -> Result<(), AllocError>
    ensures { OnOk result (string_bytes text.new ≡ string_bytes text.old ++ spec.hit_text hit.now) }
{
    let number = hit.number;
    let score = hit.score;
    let line = format!(in alloc; "item {number} score {score}\n")?;
    text.push_str(line.as_str())
}

/// Adds a line for each hit.
fn add_hits(alloc: Global, text: &mut String, hits: &[Hit]) -> Result<(), AllocError>
    ensures { OnOk result (string_bytes text.new ≡ string_bytes text.old ++ flat_map spec.hit_text hits.now) }
{
    for hit in hits {
        add_hit(alloc, text, hit)?;
    }
    Ok(())
}

/// Where there is no hit: the total alone.
pub fn nothing_reply(alloc: Global) -> Result<Reply, AllocError>
    ensures { IfOk result (spec.IsReply (record { status = 0; text = spec.total_text 0 })) }
{
    let text = total_line(alloc, 0)?;
    Ok(Reply {
        status: 0,
        text: text.into_bytes(),
    })
}

/// The total, and the hits of the page in order.
pub fn found_reply(alloc: Global, found: &Found) -> Result<Reply, AllocError>
    ensures { IfOk result (spec.IsReply (record { status = 0; text = spec.total_text found.now.total ++ flat_map spec.hit_text found.now.hits })) }
{
    let mut text = total_line(alloc, found.total)?;
    add_hits(alloc, &mut text, found.hits.as_slice())?;
    Ok(Reply {
        status: 0,
        text: text.into_bytes(),
    })
}
