//! Operands side by side.
ghost use Rattle.std.specs.Prelude.{◌≡◌};
ghost use Rattle.sq_model.specs.Kql.{restriction_holds, loose_holds, met, run_holds};

use sq_model::{Joiner, Judged, Role, Sign};

fn restriction_holds(run: &[Judged], property: u32) -> bool
    ensures { result ≡ restriction_holds run.now property }
{
    run.iter()
        .any(|j| j.role == Role::Restricts(property) && j.holds)
}

fn loose_holds(run: &[Judged]) -> bool
    ensures { result ≡ loose_holds run.now }
{
    run.iter().any(|j| j.role == Role::Loose && j.holds)
}

fn met(run: &[Judged], j: Judged, joiner: Joiner) -> bool
    ensures { result ≡ met joiner run.now j.sign j.role j.holds }
{
    match j.sign {
        Sign::Minus => !j.holds,
        Sign::Plain | Sign::Plus => match j.role {
            Role::Restricts(property) => restriction_holds(run, property),
            Role::Loose => match joiner {
                Joiner::All => j.holds,
                Joiner::Any => loose_holds(run),
            },
            Role::Other => j.holds,
        },
    }
}

pub fn run_holds(run: &[Judged], joiner: Joiner) -> bool
    ensures { result ≡ run_holds joiner run.now }
{
    run.iter().all(|j| met(run, *j, joiner))
}
