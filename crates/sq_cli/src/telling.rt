//! A loader that tells what it loaded.
ghost use Rattle.std.specs.Prelude.{◌≡◌};

use sq_base::Source;
use sq_engine::{Engine, LoadFault, Loader};
use sq_model::Corpus;
use sq_service::{Service, Services};
use std::alloc::{AllocError, Global};

/// Loads services, and where it does so aloud it says on standard error how many items one holds.
#[derive(Drop)]
pub struct Telling<'a> {
    rt: &'a HostRuntime,
    aloud: bool,
}

impl<'a> Telling<'a> {
    pub fn new(rt: &'a HostRuntime, aloud: bool) -> Telling<'a> {
        Telling { rt, aloud }
    }

    fn tell(&self, service: &Service) {
        if self.aloud {
            let items = service.items();
            let _ = self.rt.eprintln(format_args!("holding {items} items"));
        }
    }
}

impl<'a> Loader for Telling<'a> {
    type E = Service;

    ghost use Rattle.sq_engine.specs.Verdict.{verdict};

    ghost says = { λ _. verdict };

    fn load<S: Source>(&self, alloc: Global, source: &mut S) -> Result<Service, LoadFault> {
        match Services.load(alloc, source) {
            Ok(service) => {
                self.tell(&service);
                Ok(service)
            }
            Err(fault) => Err(fault),
        }
    }

    fn build(&self, alloc: Global, corpus: &Corpus) -> Result<Service, AllocError> {
        Services.build(alloc, corpus)
    }
}
