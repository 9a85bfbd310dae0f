//! Reading a head, and reading a body.
ghost use Rattle.std.specs.Prelude.{◌≡◌, ◌+◌, ◌<◌, ◌≤◌, ◌++◌, length, take, drop, List, ℕ, MatchResult, MatchBool};
ghost use Rattle.std.specs.Io.KnownBytes.{IsAtEnd};
ghost use Rattle.sq_base.specs.Causes.{HasCause};
ghost use Rattle.sq_http.specs.Gathers.{held, room, gains, GathersOn};
ghost use Rattle.sq_http.specs.Cut.{cut, Waiting};
ghost use Rattle.sq_http.specs.Heading.{IsHeading};
ghost use Rattle.sq_http.specs.Limits.{most_head_bytes};

use crate::buffer::Buffer;
use crate::cut::head_length;
use crate::limits::MOST_HEAD_BYTES;
use sq_base::{Failed, Wire};

/// Reads until a body of this length is held. False where the input ends before.
pub fn read_body<W: Wire>(buffer: &mut Buffer, wire: &mut W, size: usize) -> Result<bool, Failed>
    requires held { length (held buffer.old) ≤ size }
    requires fits { size ≤ room buffer.old }
    ensures held { held buffer.new ≡ held buffer.old ++ gains buffer.old buffer.new }
    ensures gathers { GathersOn W.Wire (λ first. length (held buffer.old ++ first) < size) wire.old wire.new (gains buffer.old buffer.new) }
    ensures whole { MatchResult result
        (λ whole. MatchBool whole (length (held buffer.new) ≡ size) ((length (held buffer.new) < size) × IsAtEnd (W.left wire.new)))
        (λ _. length (held buffer.new) < size) }
    ensures room { room buffer.new ≡ room buffer.old }
    ensures sent { W.sent wire.new ≡ W.sent wire.old }
    ensures cause { HasCause (W.read_faults wire.old) (W.read_faults wire.new) result }
    ensures write_faults { W.write_faults wire.new ≡ W.write_faults wire.old }
{
    'filling: while buffer.len() < size {
        let missing = size - buffer.len();
        if !buffer.fill(wire, missing)? {
            return Ok(false);
        }
    }
    Ok(true)
}

/// What has come of a head.
pub enum Heading {
    /// All of it, with its length.
    Whole(usize),
    /// More than a head may have.
    TooLong,
    /// A part, and the input has ended.
    Ended,
}

/// The front of the bytes in which a head has to end.
fn front(bytes: &[u8]) -> &[u8]
    ensures { result.now ≡ take most_head_bytes bytes.now }
{
    if bytes.len() > MOST_HEAD_BYTES {
        &bytes[..MOST_HEAD_BYTES]
    } else {
        bytes
    }
}

/// Reads until a head is held, or more than one may have. It reads nothing where one is held.
#[tactic(auto, unfolding(crate::specs::Cut::cut))]
pub fn read_head<W: Wire>(buffer: &mut Buffer, wire: &mut W) -> Result<Heading, Failed>
    requires room { room buffer.old ≡ most_head_bytes + 1 }
    requires fits { length (held buffer.old) ≤ most_head_bytes + 1 }
    ensures held { held buffer.new ≡ held buffer.old ++ gains buffer.old buffer.new }
    ensures gathers { GathersOn W.Wire (λ first. cut (held buffer.old ++ first) ≡ Waiting) wire.old wire.new (gains buffer.old buffer.new) }
    ensures heading { MatchResult result (λ heading. IsHeading heading (held buffer.new) (W.left wire.new))
        (λ _. cut (held buffer.new) ≡ Waiting) }
    ensures room { room buffer.new ≡ room buffer.old }
    ensures fits { length (held buffer.new) ≤ most_head_bytes + 1 }
    ensures sent { W.sent wire.new ≡ W.sent wire.old }
    ensures cause { HasCause (W.read_faults wire.old) (W.read_faults wire.new) result }
    ensures write_faults { W.write_faults wire.new ≡ W.write_faults wire.old }
{
    'reading: loop {
        match head_length(front(buffer.as_slice())) {
            Some(size) => return Ok(Heading::Whole(size)),
            None => {}
        }
        if buffer.len() > MOST_HEAD_BYTES {
            return Ok(Heading::TooLong);
        }
        let missing = MOST_HEAD_BYTES + 1 - buffer.len();
        if !buffer.fill(wire, missing)? {
            return Ok(Heading::Ended);
        }
    }
}
