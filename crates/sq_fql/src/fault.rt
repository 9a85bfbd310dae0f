ghost use Rattle.std.specs.Prelude.{◌≡◌};

use sq_base::QueryFault;

pub fn refused(code: u16, at: u32) -> QueryFault
    ensures { result ≡ record { code = code; at = at } }
{
    QueryFault { code, at }
}
