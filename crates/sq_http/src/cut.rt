//! Where a head ends.
ghost use Rattle.std.specs.Prelude.{◌≡◌, ◌≤◌, length, IfSome};
ghost use Rattle.sq_http.specs.Cut as spec;

/// The length of the shortest front that ends with CR LF CR LF.
pub fn head_length(bytes: &[u8]) -> Option<usize>
    ensures value { result ≡ spec.head_length bytes.now }
    ensures within { IfSome result (λ count. count ≤ length bytes.now) }
{
    let mut at = 0;
    let mut rest = bytes;
    while let [_, behind @ ..] = rest {
        if rest.starts_with(b"\r\n\r\n") {
            return Some(at + 4);
        }
        at += 1;
        rest = behind;
    }
    None
}
