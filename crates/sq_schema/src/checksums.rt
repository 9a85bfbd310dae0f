//! Checksums of names, by which a row is found without comparing its name with all others.
ghost use Rattle.std.specs.Prelude.{◌≡◌, ◌≤◌, length, IfOk, position};
ghost use Rattle.std.specs.List.{fold};
ghost use Rattle.sq_schema.specs.Checksums as spec;
ghost use Rattle.sq_schema.specs.Properties.{has_name};
ghost use Rattle.sq_schema.specs.Limits.{most_rows};

use crate::Property;
use crate::rows::has_name;
use std::alloc::{AllocError, Global};

#[tactic(auto, unfolding(crate::specs::Checksums::checksum_step))]
fn checksum_step(sum: u32, byte: u8) -> u32
    ensures { result ≡ spec.checksum_step sum byte }
{
    sum.wrapping_mul(31)
        .wrapping_add(u32::from(byte.to_ascii_lowercase()))
}

#[tactic(auto, unfolding(crate::specs::Checksums::checksum))]
fn checksum(name: &str) -> u32
    ensures { result ≡ spec.checksum name.now }
{
    name.as_bytes()
        .iter()
        .fold(0, |sum, byte| checksum_step(sum, *byte))
}

/// The checksums of the rows' names, in their order.
pub(crate) fn checksums_of(alloc: Global, rows: &[Property]) -> Result<Vec<u32>, AllocError>
    ensures { IfOk result (λ sums. spec.AreChecksums sums.items rows.now) }
{
    let mut sums = Vec::new(alloc);
    for row in rows {
        sums.push(checksum(row.name.as_str()))?;
    }
    Ok(sums)
}

/// Whether the row has the name, where both checksums are known.
fn is_named(row: &Property, row_sum: u32, name: &str, sum: u32) -> bool
    requires row_sum { row_sum ≡ spec.checksum row.now.name }
    requires sum { sum ≡ spec.checksum name.now }
    ensures { result ≡ has_name name.now row.now }
{
    row_sum == sum && has_name(row, name)
}

/// The first row of that name.
pub(crate) fn position_of(rows: &[Property], sums: &[u32], name: &str) -> Option<u32>
    requires few { length rows.now ≤ most_rows }
    requires sums { spec.AreChecksums sums.now rows.now }
    ensures { result ≡ position (has_name name.now) rows.now }
{
    let sum = checksum(name);
    for row in 0..rows.len() {
        if is_named(&rows[row], sums[row], name, sum) {
            return Some(row as u32);
        }
    }
    None
}
