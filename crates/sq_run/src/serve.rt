//! Connections, one after the other.
ghost use Rattle.std.specs.Prelude.{◌≡◌, ◌⊎◌, ◌≤◌, ◌<◌, ℕ, List, Option, Some, Err, [], true, false, IfOk, IfSome};
ghost use Rattle.sq_base.specs.Causes.{Rose};
ghost use Rattle.sq_run.specs.Command.{Serving};
ghost use Rattle.sq_run.specs.Output.{nothing_written, serving_outcome};
ghost use Rattle.sq_run.specs.Replies.{IsReply, known_by};
ghost use Rattle.sq_run.specs.Serving as spec;

use crate::desk::Desk;
use crate::load::{Unloaded, load};
use crate::reply::{Reply, Stop, silent};
use sq_base::{Ports, Source};
use sq_engine::{Engine, Loader};
use sq_http::{Handler, serve_connection};
use std::alloc::Global;

/// Serves so many connections, in the order in which they come, and answers whether each could be accepted.
fn serve_count<P: Ports, H: Handler>(alloc: Global, handler: &H, count: u32, ports: &mut P) -> bool
    ensures all { result ≡ true → spec.ServesMany P.W.Wire (H.reply handler.now) count (P.waiting ports.old) (P.waiting ports.new) (P.ended ports.old) (P.ended ports.new) }
    ensures some { result ≡ false → (n : ℕ) × (n < count)
        × spec.ServesMany P.W.Wire (H.reply handler.now) n (P.waiting ports.old) (P.waiting ports.new) (P.ended ports.old) (P.ended ports.new) }
    ensures fault { result ≡ false → Rose (P.faults ports.old) (P.faults ports.new) }
    ensures later { P.faults ports.old ≤ P.faults ports.new }
{
    for _served in 0..count {
        let Ok((mut wire, moment)) = ports.accept() else {
            return false;
        };
        let how = serve_connection(alloc, handler, moment, &mut wire);
        ports.done(wire, how);
    }
    true
}

/// Serves so many connections over an engine. The reply says nothing.
fn serve_engine<E: Engine, P: Ports>(
    alloc: Global,
    engine: E,
    count: u32,
    ports: &mut P,
) -> Result<Reply, Stop>
    ensures reply { IfOk result (IsReply nothing_written) }
    ensures served { spec.ServesBy (λ n. spec.ServesMany P.W.Wire (spec.known_reply (known_by E.Engine engine)) n (P.waiting ports.old) (P.waiting ports.new) (P.ended ports.old) (P.ended ports.new))
        count (spec.status_of_reply result) }
    ensures kinds { (spec.status_of_reply result ≡ 0) ⊎ (result ≡ Err Stop.AcceptFault) }
    ensures accept { result ≡ Err Stop.AcceptFault → Rose (P.faults ports.old) (P.faults ports.new) }
    ensures later { P.faults ports.old ≤ P.faults ports.new }
{
    let desk = Desk { engine };
    if serve_count(alloc, &desk, count, ports) {
        Ok(silent(alloc, 0))
    } else {
        Err(Stop::AcceptFault)
    }
}

/// Loads the corpus, and serves so many connections over it. The reply says nothing where all were served.
pub fn serve_reply<D: Loader, S: Source, P: Ports>(
    alloc: Global,
    loader: &D,
    count: u32,
    corpus: &mut S,
    ports: &mut P,
) -> Result<Reply, Stop>
    ensures reply { IfOk result (λ reply. IfSome (serving_outcome (D.says loader.now) (S.left corpus.old)) (λ outcome. IsReply outcome reply)) }
    ensures status { IfOk result (λ reply. (reply.status ≡ 0) ⊎ ((reply.status ≡ 3) ⊎ (reply.status ≡ 8))) }
    ensures quiet { IfOk result (λ reply. reply.status ≡ 0 → reply.text.items ≡ []) }
    ensures served { spec.ServesOver (D.says loader.now) (S.left corpus.old) (Some (Serving count))
        (λ known n. spec.ServesMany P.W.Wire (spec.known_reply known) n (P.waiting ports.old) (P.waiting ports.new) (P.ended ports.old) (P.ended ports.new))
        (spec.status_of_reply result) }
    ensures unserved { spec.Untouched result (ports.new ≡ ports.old) }
    ensures read { result ≡ Err Stop.ReadFault → Rose (S.faults corpus.old) (S.faults corpus.new) }
    ensures accept { result ≡ Err Stop.AcceptFault → Rose (P.faults ports.old) (P.faults ports.new) }
    ensures corpus_later { S.faults corpus.old ≤ S.faults corpus.new }
    ensures ports_later { P.faults ports.old ≤ P.faults ports.new }
{
    match load(alloc, loader, corpus) {
        Ok(engine) => serve_engine(alloc, engine, count, ports),
        Err(Unloaded::Refused(reply)) => Ok(reply),
        Err(Unloaded::ReadFault) => Err(Stop::ReadFault),
        Err(Unloaded::NoMemory) => Err(Stop::NoMemory),
    }
}
