//! The top call.
ghost use Rattle.std.specs.Prelude.{Ok, Err, Some, ◌≡◌, ◌⊎◌, ◌≢◌, ◌↔◌, ◌≤◌, [], map, true, false, IfOk, IfSome, OnOk, OnErr, None};
ghost use Rattle.std.specs.Io.KnownBytes.{Appends};
ghost use Rattle.sq_base.specs.Causes.{Rose, HasCause};
ghost use Rattle.sq_base.specs.Bytes.{AppendsPrefix};
ghost use Rattle.sq_run.specs.Command.{IsInBounds, order_of, plain, reads_corpus, reads_input, serves};
ghost use Rattle.sq_run.specs.Output.{output, order_outcome, Delivers, IsOfOutput};
ghost use Rattle.sq_run.specs.Replies.{IsReply};
ghost use Rattle.sq_run.specs.Serving.{ServesMany, ServesOver, Untouched, known_reply, status_of_reply};

use crate::command::{Command, command_of};
use crate::rehearse::rehearse_reply;
use crate::reply::{Reply, Stop};
use crate::serve::serve_reply;
use crate::work::work_reply;
use sq_base::{Failed, Ports, Sink, Source, write_all};
use sq_engine::Loader;
use std::alloc::Global;

/// Does what is asked, and makes the whole reply.
#[tactic(auto, unfolding(crate::specs::Command::plain, crate::specs::Output::order_outcome))]
fn reply_of<D: Loader, S: Source, I: Source, P: Ports>(
    alloc: Global,
    loader: &D,
    command: Command,
    now: i64,
    corpus: &mut S,
    input: &mut I,
    ports: &mut P,
) -> Result<Reply, Stop>
    requires { IsInBounds (plain command) }
    ensures reply { IfOk result (λ reply. IfSome (order_outcome (D.says loader.now) now (S.left corpus.old) (I.left input.old) (plain command.entry)) (λ outcome. IsReply outcome reply)) }
    ensures status { IfOk result (λ reply. (reply.status ≤ 1) ⊎ ((reply.status ≡ 3) ⊎ (reply.status ≡ 8))) }
    ensures quiet { serves (Some (plain command.entry)) ≡ true → IfOk result (λ reply. reply.status ≡ 0 → reply.text.items ≡ []) }
    ensures served { ServesOver (D.says loader.now) (S.left corpus.old) (Some (plain command.entry))
        (λ known n. ServesMany P.W.Wire (known_reply known) n (P.waiting ports.old) (P.waiting ports.new) (P.ended ports.old) (P.ended ports.new))
        (status_of_reply result) }
    ensures unserved { Untouched result (ports.new ≡ ports.old) }
    ensures corpus { reads_corpus (Some (plain command.entry)) ≡ false → corpus.new ≡ corpus.old }
    ensures input { reads_input (Some (plain command.entry)) ≡ false → input.new ≡ input.old }
    ensures refused { IfOk result (λ reply. reply.status ≡ 3 → input.new ≡ input.old) }
    ensures ports { serves (Some (plain command.entry)) ≡ false → ports.new ≡ ports.old }
    ensures read { result ≡ Err Stop.ReadFault → Rose (S.faults corpus.old) (S.faults corpus.new) ⊎ Rose (I.faults input.old) (I.faults input.new) }
    ensures accept { result ≡ Err Stop.AcceptFault → Rose (P.faults ports.old) (P.faults ports.new) }
    ensures corpus_later { S.faults corpus.old ≤ S.faults corpus.new }
    ensures input_later { I.faults input.old ≤ I.faults input.new }
    ensures ports_later { P.faults ports.old ≤ P.faults ports.new }
{
    match command {
        Command::Over(task) => work_reply(alloc, loader, task, now, corpus, input),
        Command::Serve { count } => serve_reply(alloc, loader, count, corpus, ports),
        Command::Rehearse { count } => {
            let reply = rehearse_reply(alloc, loader, now, count)?;
            Ok(reply)
        }
    }
}

/// Writes a text, where there is one.
fn send<K: Sink>(out: &mut K, text: &[u8]) -> Result<(), Failed>
    ensures sent { OnOk result (Appends (K.sent out.old) (K.sent out.new) text.now) }
    ensures prefix { OnErr result (AppendsPrefix (K.sent out.old) (K.sent out.new) text.now) }
    ensures cause { HasCause (K.faults out.old) (K.faults out.new) result }
    ensures nothing { text.now ≡ [] → (result ≡ Ok tt) × (out.new ≡ out.old) }
{
    if text.is_empty() {
        return Ok(());
    }
    write_all(out, text)
}

/// Does what the words ask, at a moment in UTC seconds since 1970-01-01T00:00:00Z, and gives the status: 0 all was done, 1 the
/// caller, the packet, the query, a refiner or a sort is refused, 2 the words are no command, 3 the corpus is no corpus text, 4 the
/// corpus or the input can't be read, 5 the answer can't be written, 6 a connection can't be accepted, 7 want of memory, 8 the corpus
/// or the packet is too long.
pub fn run<D: Loader, S: Source, I: Source, K: Sink, P: Ports>(
    alloc: Global,
    loader: &D,
    words: &[&str],
    now: i64,
    corpus: &mut S,
    input: &mut I,
    out: &mut K,
    ports: &mut P,
) -> u8
    // Where no count rose, the status and what was sent are the output. Want of memory may come in its place.
    ensures output { IfSome (output (D.says loader.now) (map (λ word. word.now) words.now) now (S.left corpus.old) (I.left input.old)) (λ outcome.
        ¬ Rose (S.faults corpus.old) (S.faults corpus.new) → ¬ Rose (I.faults input.old) (I.faults input.new)
        → ¬ Rose (K.faults out.old) (K.faults out.new) → ¬ Rose (P.faults ports.old) (P.faults ports.new) → result ≢ 7
        → Delivers outcome result (K.sent out.old) (K.sent out.new)) }

    // Whatever counts rose, an answer or a refusal is that of the output, with its whole text sent.
    ensures whole { IfSome (output (D.says loader.now) (map (λ word. word.now) words.now) now (S.left corpus.old) (I.left input.old)) (λ outcome.
        IsOfOutput result → Delivers outcome result (K.sent out.old) (K.sent out.new)) }

    // The words alone decide that they are no command. Then nothing is touched.
    ensures words { (result ≡ 2) ↔ (order_of (map (λ word. word.now) words.now) ≡ None) }
    ensures untouched { result ≡ 2 → (corpus.new ≡ corpus.old) × (input.new ≡ input.old) × (out.new ≡ out.old) × (ports.new ≡ ports.old) }

    // What the words don't name isn't touched, nor what would have come after a refusal.
    ensures corpus { reads_corpus (order_of (map (λ word. word.now) words.now)) ≡ false → corpus.new ≡ corpus.old }
    ensures input { reads_input (order_of (map (λ word. word.now) words.now)) ≡ false → input.new ≡ input.old }
    ensures ports { serves (order_of (map (λ word. word.now) words.now)) ≡ false → ports.new ≡ ports.old }
    ensures refused { result ≡ 3 → input.new ≡ input.old }
    ensures unserved { (result ≡ 0) ⊎ ((result ≡ 6) ⊎ (ports.new ≡ ports.old)) }

    // Connections are served in the order in which they came, each at its own moment, by the desk of the corpus.
    ensures served { ServesOver (D.says loader.now) (S.left corpus.old) (order_of (map (λ word. word.now) words.now))
        (λ known n. ServesMany P.W.Wire (known_reply known) n (P.waiting ports.old) (P.waiting ports.new) (P.ended ports.old) (P.ended ports.new)) result }
    ensures quiet { serves (order_of (map (λ word. word.now) words.now)) ≡ true → result ≡ 0 → out.new ≡ out.old }

    // A failed read, write or accept is answered only where that count rose.
    ensures read { result ≡ 4 → Rose (S.faults corpus.old) (S.faults corpus.new) ⊎ Rose (I.faults input.old) (I.faults input.new) }
    ensures write { result ≡ 5 → Rose (K.faults out.old) (K.faults out.new) }
    ensures accept { result ≡ 6 → Rose (P.faults ports.old) (P.faults ports.new) }

    // After a failed write a prefix of the text was sent, and after a failed read or accept, or want of memory, nothing.
    ensures prefix { IfSome (output (D.says loader.now) (map (λ word. word.now) words.now) now (S.left corpus.old) (I.left input.old)) (λ outcome.
        result ≡ 5 → AppendsPrefix (K.sent out.old) (K.sent out.new) outcome.text) }
    ensures silent { (result ≡ 4) ⊎ ((result ≡ 6) ⊎ (result ≡ 7)) → out.new ≡ out.old }

    ensures status { IsOfOutput result ⊎ ((result ≡ 4) ⊎ ((result ≡ 5) ⊎ ((result ≡ 6) ⊎ (result ≡ 7)))) }
    ensures corpus_later { S.faults corpus.old ≤ S.faults corpus.new }
    ensures input_later { I.faults input.old ≤ I.faults input.new }
    ensures out_later { K.faults out.old ≤ K.faults out.new }
    ensures ports_later { P.faults ports.old ≤ P.faults ports.new }
{
    let Some(command) = command_of(words) else {
        return 2;
    };
    match reply_of(alloc, loader, command, now, corpus, input, ports) {
        Ok(reply) => match send(out, &reply.text) {
            Ok(()) => reply.status,
            Err(Failed) => 5,
        },
        Err(Stop::ReadFault) => 4,
        Err(Stop::AcceptFault) => 6,
        Err(Stop::NoMemory) => 7,
    }
}
