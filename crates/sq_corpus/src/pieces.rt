ghost use Rattle.std.specs.Prelude.{◌≡◌, ◌<◌, ◌==◌, [], ◌∷◌, length, map, position, IfOk, IfSome, MatchOption};
ghost use Rattle.sq_corpus.specs.Pieces.{lines_of, fields_of};

use std::alloc::{AllocError, Global};

fn end_of_line(bytes: &[u8]) -> Option<usize>
    ensures value { result ≡ position (λ byte. byte == 10) bytes.now }
    ensures within { IfSome result (λ at. at < length bytes.now) }
{
    bytes.iter().position(|byte| *byte == b'\n')
}

/// The first line without its LF, and what stands behind it. None where there is no LF.
pub(crate) fn first_line(bytes: &[u8]) -> Option<(&[u8], &[u8])>
    ensures { MatchOption result (lines_of bytes.now ≡ bytes.now ∷ [])
        (λ cut. (lines_of bytes.now ≡ cut.0.now ∷ lines_of cut.1.now) × (length cut.1.now < length bytes.now)) }
{
    match end_of_line(bytes) {
        Some(at) => Some((&bytes[..at], &bytes[at + 1..])),
        None => None,
    }
}

/// The fields of a line.
pub(crate) fn fields_of(alloc: Global, line: &str) -> Result<Vec<&str>, AllocError>
    ensures { IfOk result (λ fields. map (λ field. field.now) fields.items ≡ fields_of line.now) }
{
    let mut fields = Vec::new(alloc);
    let mut rest = line;
    while let Some((field, behind)) = rest.split_once('\t') {
        fields.push(field)?;
        rest = behind;
    }
    fields.push(rest)?;
    Ok(fields)
}
