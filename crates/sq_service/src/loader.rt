//! What makes services.
ghost use Rattle.std.specs.Prelude.{◌≡◌, IfOk};
ghost use Rattle.sq_model.specs.Valid.{IsValid};
ghost use Rattle.sq_service.specs.ServiceOf.{IsServiceOf};

use crate::service::Service;
use sq_base::{MOST_CORPUS_BYTES, ReadAll, Source, read_all};
use sq_corpus::{CorpusFault, read_corpus};
use sq_engine::{LoadFault, Loader, alike_give_one_verdict};
use sq_holding::{Holding, told_is_alike};
use sq_model::Corpus;
use std::alloc::{AllocError, Global};

/// What makes services.
#[derive(Clone, Copy, Debug)]
pub struct Services;

/// The service of a corpus, whose items are let go.
fn service_of(alloc: Global, corpus: Corpus) -> Result<Service, AllocError>
    requires { IsValid corpus }
    ensures { IfOk result (λ service. IsServiceOf service corpus) }
{
    told_is_alike();
    alike_give_one_verdict();
    Ok(Service::new(Holding::of(alloc, corpus)?))
}

/// The service of a corpus that stays.
fn built(alloc: Global, corpus: &Corpus) -> Result<Service, AllocError>
    requires { IsValid corpus.now }
    ensures { IfOk result (λ service. IsServiceOf service corpus.now) }
{
    told_is_alike();
    alike_give_one_verdict();
    Ok(Service::new(Holding::of_copy(alloc, corpus)?))
}

impl Loader for Services {
    type E = Service;

    ghost use Rattle.sq_engine.specs.Verdict.{verdict as said_of};

    ghost says = { λ _. said_of };

    fn load<S: Source>(&self, alloc: Global, source: &mut S) -> Result<Service, LoadFault> {
        let bytes = match read_all(alloc, source, MOST_CORPUS_BYTES as usize) {
            Ok(bytes) => bytes,
            Err(ReadAll::Fault) => return Err(LoadFault::ReadFault),
            Err(ReadAll::TooLong) => return Err(LoadFault::TooLong),
            Err(ReadAll::NoMemory) => return Err(LoadFault::NoMemory),
        };
        let corpus = match read_corpus(alloc, &bytes) {
            Ok(corpus) => corpus,
            Err(CorpusFault::Line { code, line }) => return Err(LoadFault::Corpus { code, line }),
            Err(CorpusFault::NoMemory) => return Err(LoadFault::NoMemory),
        };
        // The text is let go before the index is built, so that the two never take memory at once.
        drop(bytes);
        match service_of(alloc, corpus) {
            Ok(service) => Ok(service),
            Err(AllocError) => Err(LoadFault::NoMemory),
        }
    }

    fn build(&self, alloc: Global, corpus: &Corpus) -> Result<Service, AllocError> {
        built(alloc, corpus)
    }
}
