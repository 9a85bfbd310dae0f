//! The law of lowering. The function does nothing: its contract is the law.
ghost use Rattle.sq_lower.specs.Law as spec;

use sq_schema::{moments_are_written, moments_read_back, names_find_rows, numbers_read_back};

/// The typed tree of a lowered KQL tree holds of the same items as the KQL tree, and gives them the same boosts, under
/// either joiner.
pub fn lowering_keeps_meaning()
    ensures { spec.LoweringKeepsMeaning }
{
    names_find_rows();
    numbers_read_back();
    moments_read_back();
    moments_are_written();
}
