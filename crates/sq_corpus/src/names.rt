ghost use Rattle.std.specs.Prelude.{◌≡◌, ℕ, List, true, if◌then◌else◌, OnOk};
ghost use Rattle.std.specs.BTreeSet.{contains_text};
ghost use Rattle.std.specs.Str.{bytes_eq};

use std::alloc::{AllocError, Global};
use std::collections::BTreeSet;

/// Adds a name.
pub(crate) fn add_name(
    alloc: Global,
    names: &mut BTreeSet<String>,
    name: &str,
) -> Result<(), AllocError>
    ensures { OnOk result ((other : List ℕ) → contains_text names.new other ≡ (if bytes_eq name.now other then true else contains_text names.old other)) }
{
    names.insert(String::from_str(alloc, name)?)?;
    Ok(())
}
