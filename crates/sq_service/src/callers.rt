//! Callers by their names.
ghost use Rattle.std.specs.Prelude.{◌≡◌, MatchOption, None, Some};
ghost use Rattle.std.specs.List.{find};
ghost use Rattle.sq_engine.specs.Verdict.{is_named};

use sq_model::Caller;

/// The first caller of this name.
pub(crate) fn caller_named<'a>(callers: &'a [Caller], name: &[u8]) -> Option<&'a Caller>
    ensures { MatchOption result (find (is_named name.now) callers.now ≡ None)
        (λ caller. find (is_named name.now) callers.now ≡ Some caller.now) }
{
    for caller in callers {
        if caller.name.as_slice() == name {
            return Some(caller);
        }
    }
    None
}
