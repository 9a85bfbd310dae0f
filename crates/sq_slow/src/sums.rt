ghost use Rattle.std.specs.Prelude.{◌≡◌, ◌+ℤ◌, IfOk};

use std::alloc::AllocError;

/// Gives up, as for want of memory, where the sum passes 64 bits.
pub fn add(m: i64, n: i64) -> Result<i64, AllocError>
    ensures { IfOk result (λ sum. sum ≡ m +ℤ n) }
{
    match m.checked_add(n) {
        Some(sum) => Ok(sum),
        None => Err(AllocError),
    }
}
