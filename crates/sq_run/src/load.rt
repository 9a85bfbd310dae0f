//! Loading a corpus.
ghost use Rattle.std.specs.Prelude.{◌≡◌, ◌≤◌, Err};
ghost use Rattle.sq_base.specs.Causes.{Rose};
ghost use Rattle.sq_run.specs.Output.{IsLoaded, IsRefused};

use crate::reply::{Reply, corpus_refusal, silent};
use sq_base::Source;
use sq_engine::{LoadFault, Loader};
use std::alloc::Global;

/// Why there is no engine.
#[derive(Debug, Drop)]
pub enum Unloaded {
    /// The corpus is refused, by this reply.
    Refused(Reply),
    ReadFault,
    NoMemory,
}

/// Loads the corpus.
#[tactic(auto, unfolding(crate::specs::Output::loaded))]
pub fn load<D: Loader, S: Source>(
    alloc: Global,
    loader: &D,
    corpus: &mut S,
) -> Result<D::E, Unloaded>
    ensures loaded { IsLoaded D.E.Engine (D.says loader.now) (S.left corpus.old) result }
    ensures refused { IsRefused result }
    ensures fault { result ≡ Err Unloaded.ReadFault → Rose (S.faults corpus.old) (S.faults corpus.new) }
    ensures later { S.faults corpus.old ≤ S.faults corpus.new }
{
    match loader.load(alloc, corpus) {
        Ok(engine) => Ok(engine),
        Err(LoadFault::TooLong) => Err(Unloaded::Refused(silent(alloc, 8))),
        Err(LoadFault::Corpus { code, line }) => match corpus_refusal(alloc, code, line) {
            Ok(reply) => Err(Unloaded::Refused(reply)),
            Err(_) => Err(Unloaded::NoMemory),
        },
        Err(LoadFault::ReadFault) => Err(Unloaded::ReadFault),
        Err(LoadFault::NoMemory) => Err(Unloaded::NoMemory),
    }
}
