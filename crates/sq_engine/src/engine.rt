//! Engines and loaders.
ghost use Rattle.std.specs.Prelude.{◌≡◌, ◌↔◌, ◌≤◌, ◌+◌, ℕ, ℤ, Bool, false, List, IfOk, IfSome, IsErrOf, OnOk};
ghost use Rattle.std.specs.Io.KnownBytes.{IsAtEnd};
ghost use Rattle.sq_base.specs.Causes.{Rose};
ghost use Rattle.sq_schema.specs.Intervals.{clamped};
ghost use Rattle.sq_model.specs.Valid.{IsValid};
ghost use Rattle.sq_packet.specs.Asked.{IsAsked};

use crate::refused::{LoadFault, Refused};
use sq_base::{Source, Steps};
use sq_model::Corpus;
use sq_packet::Request;
use sq_response::Response;
use sq_schema::Schema;
use std::alloc::{AllocError, Global};
use std::sync::ledger::Ledger;

/// What answers requests.
pub trait Engine: Drop {
    ghost use Rattle.sq_schema.specs.declared.property.Property.{Property};
    ghost use Rattle.sq_packet.specs.declared.request.Request.{Request};
    ghost use Rattle.sq_engine.specs.Verdict.{Says, Unknown};
    ghost use Rattle.sq_engine.specs.Answers.{Answers};

    ghost schema: { Self → List Property };

    /// How many callers there are.
    ghost callers: { Self → ℕ };

    /// How many items there are, whoever may see them.
    ghost items: { Self → ℕ };

    /// The names that it knows.
    ghost names: { Self → List ℕ → Bool };

    /// What it says to a caller, at a moment, on a request.
    ghost says: { Self → Says };

    /// How many steps an answer counts at most.
    ghost price: { Self → List ℕ → ℤ → Request → ℕ };

    fn schema(&self) -> &Schema
        ensures { result.now ≡ schema self.now };

    fn callers(&self) -> u32
        ensures { result ≡ callers self.now };

    fn items(&self) -> u32
        ensures { result ≡ items self.now };

    fn knows(&self, caller: &[u8]) -> bool
        ensures { result ≡ names self.now caller.now };

    /// Answers what it says to the caller of this name, at a moment, in UTC seconds since 1970-01-01T00:00:00Z.
    fn answer<L: Ledger>(
        &self,
        alloc: Global,
        caller: &[u8],
        now: i64,
        request: &Request,
        steps: &mut Steps<L>,
    ) -> Result<Response, Refused>
        requires asked { IsAsked request.now }
        requires now { now ≡ clamped now }
        ensures says { Answers (says self.now caller.now now request.now) result }
        ensures price { steps.new ≤ steps.old + price self.now caller.now now request.now };

    /// It calls a caller unknown exactly where it doesn't know the name.
    ghost unknown: { (engine : Self) (caller : List ℕ) (moment : ℤ) (request : Request) → (says engine caller moment request ≡ Unknown) ↔ (names engine caller ≡ false) };
}

/// What makes engines.
pub trait Loader {
    type E: Engine;

    ghost use Rattle.sq_model.specs.declared.corpus.Corpus.{Corpus};
    ghost use Rattle.sq_engine.specs.declared.refused.LoadFault.TheVariants as faults;
    ghost use Rattle.sq_engine.specs.Verdict.{Says};
    ghost use Rattle.sq_engine.specs.Loading.{IsEngineOf, Loads};

    /// What its engines say of a corpus.
    ghost says: { Self → Corpus → Says };

    /// Reads a corpus text of at most 67,108,864 bytes to its end, and makes an engine of the corpus that it spells.
    fn load<S: Source>(&self, alloc: Global, source: &mut S) -> Result<Self::E, LoadFault>
        ensures loads { IfSome (S.left source.old) (λ bytes. Loads (IsEngineOf Self.E.Engine (says self.now)) bytes result) }
        ensures end { OnOk result (IsAtEnd (S.left source.new)) }
        ensures later { S.faults source.old ≤ S.faults source.new }
        ensures fault { IsErrOf result faults.ReadFault → Rose (S.faults source.old) (S.faults source.new) };

    /// Makes an engine of a corpus.
    fn build(&self, alloc: Global, corpus: &Corpus) -> Result<Self::E, AllocError>
        requires { IsValid corpus.now }
        ensures { IfOk result (λ engine. IsEngineOf Self.E.Engine (says self.now) engine corpus.now) };
}
