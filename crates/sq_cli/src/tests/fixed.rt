//! An engine that gives one answer to each known caller, and a loader of such engines: `run` says what they say.
ghost use Rattle.std.specs.Prelude.{◌≡◌, length};
ghost use Rattle.sq_engine.specs.Verdict.{knows};
ghost use Rattle.sq_cli.specs.Fixed.{fixed_verdict, fixed_verdict-unknown};

use super::corpora::WORKED;
use super::{MOMENT, no_ports, source_of};
use sq_base::{List, MemSink, Source, Steps, Text};
use sq_engine::{Engine, LoadFault, Loader, Refused};
use sq_model::Corpus;
use sq_packet::Request;
use sq_response::{Found, Hit, Response};
use sq_run::run;
use sq_schema::Schema;
use sq_service::{Service, Services};
use std::alloc::{AllocError, Global};
use std::process::Abort;
use std::sync::ledger::Ledger;

#[derive(Drop)]
struct Fixed {
    service: Service,
}

#[derive(Drop)]
struct FixedAnswers;

impl Engine for Fixed {
    ghost schema = { λ f. ⟦<Service as Engine>⟧.schema f.service };

    ghost callers = { λ f. ⟦<Service as Engine>⟧.callers f.service };

    ghost items = { λ f. ⟦<Service as Engine>⟧.items f.service };

    ghost names = { λ f. ⟦<Service as Engine>⟧.names f.service };

    ghost says = { λ f. fixed_verdict (⟦<Service as Engine>⟧.names f.service) };

    ghost price = { λ f caller now request. 0 };

    ghost unknown = { λ f. fixed_verdict-unknown (⟦<Service as Engine>⟧.names f.service) };

    fn schema(&self) -> &Schema {
        self.service.schema()
    }

    fn callers(&self) -> u32 {
        self.service.callers()
    }

    fn items(&self) -> u32 {
        self.service.items()
    }

    fn knows(&self, caller: &[u8]) -> bool {
        self.service.knows(caller)
    }

    fn answer<L: Ledger>(
        &self,
        alloc: Global,
        caller: &[u8],
        _now: i64,
        _request: &Request,
        _steps: &mut Steps<L>,
    ) -> Result<Response, Refused> {
        if !self.knows(caller) {
            return Err(Refused::UnknownCaller);
        }
        let mut hits = List::new(alloc);
        hits.push(Hit {
            number: 7,
            score: 70,
            url: Text::from_str(alloc, "")?,
            values: List::new(alloc),
        })?;
        Ok(Response::Found(Found {
            start: 1,
            total: 3,
            hits,
            refiners: List::new(alloc),
        }))
    }
}

impl Loader for FixedAnswers {
    type E = Fixed;

    ghost says = { λ _ corpus. fixed_verdict (knows corpus) };

    fn load<S: Source>(&self, alloc: Global, source: &mut S) -> Result<Fixed, LoadFault> {
        match Services.load(alloc, source) {
            Ok(service) => Ok(Fixed { service }),
            Err(fault) => Err(fault),
        }
    }

    fn build(&self, alloc: Global, corpus: &Corpus) -> Result<Fixed, AllocError> {
        let service = Services.build(alloc, corpus)?;
        Ok(Fixed { service })
    }
}

#[test]
fn what_is_written_is_the_engines_answer(rt: HostRuntime) -> Result<(), AllocError> {
    let alloc = rt.alloc();
    let rows = [
        (
            ["ask", "Ann", "kql", "nothing"],
            0,
            "total 3\nitem 7 score 70\n",
        ),
        (["ask", "Zed", "kql", "debt"], 1, "fault 511 at 0\n"),
    ];
    for (words, status, text) in &rows {
        let mut corpus = source_of(alloc, WORKED, Vec::new(alloc))?;
        let mut input = source_of(alloc, "", Vec::new(alloc))?;
        let mut out = MemSink::new(alloc, 1000, Vec::new(alloc))?;
        let mut ports = no_ports(alloc)?;
        let given = run(
            alloc,
            &FixedAnswers,
            words,
            MOMENT,
            &mut corpus,
            &mut input,
            &mut out,
            &mut ports,
        );
        assert_eq!(rt; given, *status);
        assert_eq!(rt; out.bytes(), text.as_bytes());
    }
    Ok(())
}
