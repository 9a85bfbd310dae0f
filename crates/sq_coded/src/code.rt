ghost use Rattle.std.specs.Prelude.{◌≡◌, ℕ, ◌+◌, ◌*◌, ◌<◌, ◌≤◌, true, ◌++◌, length, slice_index, OnOk, IfOk, List};
ghost use Rattle.sq_coded.specs.Coded.{origin, number_bytes, numbers_bytes, difference, bytes_behind, packed, last_row, block_words, is_list, coded, decoded, block_entries};
ghost use Rattle.sq_coded.specs.declared.posting.Posting.{Posting as Entry};

use crate::posting::Posting;
use std::alloc::{AllocError, Global};

/// The postings of a block; the last block of a list may have fewer.
pub(crate) const BLOCK_ENTRIES: usize = 128;

/// Adds the bytes of a number.
fn add_number(bytes: &mut Vec<u8>, mut n: u32) -> Result<(), AllocError>
    ensures { OnOk result (bytes.new.items ≡ bytes.old.items ++ number_bytes n) }
{
    while n >= 128 {
        bytes.push((128 + n % 128) as u8)?;
        n /= 128;
    }
    bytes.push(n as u8)?;
    Ok(())
}

/// Adds the bytes of the three numbers of an entry.
fn add_numbers(bytes: &mut Vec<u8>, numbers: Posting) -> Result<(), AllocError>
    ensures { OnOk result (bytes.new.items ≡ bytes.old.items ++ numbers_bytes numbers) }
{
    add_number(bytes, numbers.row)?;
    add_number(bytes, numbers.ordinal)?;
    add_number(bytes, numbers.place)?;
    Ok(())
}

/// The numbers of an entry behind another one of its block.
fn difference(before: Posting, entry: Posting) -> Posting
    ensures { result ≡ difference before entry }
{
    if entry.row != before.row {
        return Posting {
            row: entry.row.saturating_sub(before.row),
            ordinal: entry.ordinal,
            place: entry.place,
        };
    }
    if entry.ordinal != before.ordinal {
        return Posting {
            row: 0,
            ordinal: entry.ordinal.saturating_sub(before.ordinal),
            place: entry.place,
        };
    }
    Posting {
        row: 0,
        ordinal: 0,
        place: entry.place.saturating_sub(before.place),
    }
}

/// The bytes of the entries of a block.
fn block_bytes(alloc: Global, block: &[Posting]) -> Result<Vec<u8>, AllocError>
    ensures { IfOk result (λ bytes. bytes.items ≡ bytes_behind origin block.now) }
{
    let mut bytes = Vec::new(alloc);
    let mut before = Posting {
        row: 0,
        ordinal: 0,
        place: 0,
    };
    for entry in block {
        add_numbers(&mut bytes, difference(before, *entry))?;
        before = *entry;
    }
    Ok(bytes)
}

/// The byte at a place, and zero past the end.
fn byte_or_zero(bytes: &[u8], at: usize) -> u32
    ensures value { result ≡ slice_index bytes.now at }
    ensures small { result < 256 }
{
    if at < bytes.len() {
        bytes[at] as u32
    } else {
        0
    }
}

/// Adds the words of bytes, four to a word.
fn pack(words: &mut Vec<u32>, bytes: &[u8]) -> Result<(), AllocError>
    ensures { OnOk result (words.new.items ≡ words.old.items ++ packed bytes.now) }
{
    let mut at = 0;
    while at < bytes.len() {
        let high = byte_or_zero(bytes, at + 2) + 256 * byte_or_zero(bytes, at + 3);
        let low = byte_or_zero(bytes, at) + 256 * byte_or_zero(bytes, at + 1);
        words.push(low + 65_536 * high)?;
        at += 4;
    }
    Ok(())
}

/// The row of the last entry.
fn last_row(block: &[Posting]) -> u32
    ensures { result ≡ last_row block.now }
{
    if block.is_empty() {
        0
    } else {
        block[block.len() - 1].row
    }
}

/// The words of a block.
pub(crate) fn block_words(alloc: Global, block: &[Posting]) -> Result<Vec<u32>, AllocError>
    requires { length block.now ≤ block_entries }
    ensures { IfOk result (λ words. words.items ≡ block_words block.now) }
{
    let bytes = block_bytes(alloc, block)?;
    let mut words = Vec::new(alloc);
    words.push(last_row(block))?;
    words.push(65_536 * block.len() as u32 + ((bytes.len() + 3) / 4) as u32)?;
    pack(&mut words, &bytes)?;
    Ok(words)
}

/// The words of a list: blocks of 128 postings, each with its last row, its numbers of postings and of
/// words, and the postings' differences as bytes of base 128, four to a word. The postings rise and
/// are within the limits of `Posting`.
pub fn coded(alloc: Global, entries: &[Posting]) -> Result<Vec<u32>, AllocError>
    requires { is_list entries.now ≡ true }
    ensures words { IfOk result (λ words. words.items ≡ coded entries.now) }
    ensures only { IfOk result (λ words. (other : List Entry) → is_list other ≡ true → words.items ≡ coded other → other ≡ entries.now) }
    ensures back { IfOk result (λ words. decoded words.items ≡ entries.now) }
{
    let mut words = Vec::new(alloc);
    let mut rest = entries;
    while !rest.is_empty() {
        let (block, more) = rest.split_at(rest.len().min(BLOCK_ENTRIES));
        let next = block_words(alloc, block)?;
        words.extend_from_slice(&next)?;
        rest = more;
    }
    Ok(words)
}
