//! The service.
ghost use Rattle.std.specs.Prelude.{◌≡◌};

use crate::answer::answer;
use crate::callers::caller_named;
use sq_base::Steps;
use sq_engine::{Engine, Refused, alike_cost_alike, alike_give_one_verdict};
use sq_holding::{Holding, told_is_alike};
use sq_packet::Request;
use sq_response::Response;
use sq_schema::Schema;
use std::alloc::Global;
use std::sync::ledger::Ledger;

/// A service over what it holds of a corpus: its schema and callers, an index, and the values that are shown. It asks no item
/// by the meaning of a query, but reads the lists of the index.
#[derive(Drop)]
pub struct Service {
    holding: Holding,
}

impl Service {
    /// The service of what is held.
    pub fn new(holding: Holding) -> Service
        ensures { result.holding ≡ holding }
    {
        Service { holding }
    }
}

impl Engine for Service {
    ghost use Rattle.std.specs.Prelude.{length};
    ghost use Rattle.sq_engine.specs.Price.{price as price_of};
    ghost use Rattle.sq_engine.specs.Verdict.{knows as knows_name, verdict as said_of};
    ghost use Rattle.sq_holding.specs.Told.{told};
    ghost use Rattle.sq_service.specs.Unknown.{unknown_are_unnamed};

    ghost schema = { λ service. service.holding.schema };

    ghost callers = { λ service. length service.holding.callers };

    ghost items = { λ service. length service.holding.index.rows };

    ghost names = { λ service. knows_name (told service.holding) };

    ghost says = { λ service. said_of (told service.holding) };

    ghost price = { λ service. price_of (told service.holding) };

    ghost unknown = { λ service name moment request. unknown_are_unnamed (told service.holding) name moment request };

    fn schema(&self) -> &Schema {
        self.holding.schema()
    }

    fn callers(&self) -> u32 {
        self.holding.tells();
        self.holding.callers().len() as u32
    }

    fn items(&self) -> u32 {
        self.holding.index().items()
    }

    fn knows(&self, caller: &[u8]) -> bool {
        match caller_named(self.holding.callers().as_slice(), caller) {
            Some(_) => true,
            None => false,
        }
    }

    fn answer<L: Ledger>(
        &self,
        alloc: Global,
        caller: &[u8],
        now: i64,
        request: &Request,
        steps: &mut Steps<L>,
    ) -> Result<Response, Refused> {
        self.holding.tells();
        told_is_alike();
        alike_give_one_verdict();
        alike_cost_alike();
        answer(alloc, &self.holding, caller, now, request, steps)
    }
}
