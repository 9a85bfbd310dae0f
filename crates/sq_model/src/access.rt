ghost use Rattle.std.specs.Prelude.{◌≡◌};
ghost use Rattle.std.specs.List.{list_any};
ghost use Rattle.std.specs.Str.{bytes_eq};
ghost use Rattle.sq_model.specs.Access as spec;

use crate::corpus::Item;
use sq_base::Text;

fn contains(list: &[Text], claim: &Text) -> bool
    ensures { result ≡ list_any (bytes_eq claim.now) list.now }
{
    list.iter().any(|entry| claim.as_str() == entry.as_str())
}

fn names_one(list: &[Text], claims: &[Text]) -> bool
    ensures { result ≡ spec.names_one list.now claims.now }
{
    claims.iter().any(|claim| contains(list, claim))
}

/// Whether a caller with these claims may see the item.
pub fn admits(claims: &[Text], item: &Item) -> bool
    ensures { result ≡ spec.admits claims.now item.now }
{
    names_one(item.allow.as_slice(), claims) && !names_one(item.deny.as_slice(), claims)
}
