//! Bytes that have come and are not yet used.
ghost use Rattle.std.specs.Prelude.{◌≡◌, ◌≤◌, vec_len, vec_capacity};

use std::alloc::{AllocError, Global};

/// How many bytes are asked for at once.
const PIECE: usize = 4096;

/// A buffer of a fixed size. It takes its memory when it is made.
#[derive(Drop)]
pub struct Buffer {
    bytes: Vec<u8>,
    size: usize,
    ghost has_room: { size ≤ vec_capacity bytes },
    ghost within: { vec_len bytes ≤ size },
}

impl Buffer {
    ghost use Rattle.std.specs.Prelude.{◌+◌, ◌-◌, ◌<◌, ◌++◌, [], length, take, drop, IfOk, List, ℕ, MatchResult, MatchBool};
    ghost use Rattle.std.specs.Io.KnownBytes.{IsAtEnd};
    ghost use Rattle.sq_base.specs.Causes.{HasCause};
    ghost use Rattle.sq_http.specs.Gathers.{held, room, gains, GathersOn};

    /// An empty buffer with room for so many bytes.
    pub fn new(alloc: Global, size: usize) -> Result<Buffer, AllocError>
        ensures held { IfOk result (λ buffer. held buffer ≡ []) }
        ensures room { IfOk result (λ buffer. room buffer ≡ size) }
    {
        let bytes = Vec::with_capacity(alloc, size)?;
        Ok(Buffer { bytes, size })
    }

    /// What is held.
    pub fn as_slice(&self) -> &[u8]
        ensures { result.now ≡ held self.now }
    {
        &self.bytes
    }

    /// How many bytes are held.
    pub fn len(&self) -> usize
        ensures { result ≡ length (held self.now) }
    {
        self.bytes.len()
    }

    /// Drops so many bytes from the front.
    pub fn drop_front(&mut self, count: usize)
        requires { count ≤ length (held self.old) }
        ensures held { held self.new ≡ drop count (held self.old) }
        ensures room { room self.new ≡ room self.old }
    {
        self.bytes.rotate_left(count);
        self.bytes.truncate(self.bytes.len() - count);
    }

    /// Adds bytes behind those that are held.
    pub fn push(&mut self, more: &[u8])
        requires { length (held self.old) + length more.now ≤ room self.old }
        ensures held { held self.new ≡ held self.old ++ more.now }
        ensures room { room self.new ≡ room self.old }
    {
        self.bytes.extend_from_slice(more).unwrap();
    }

    /// Reads at most so many bytes behind those that are held. False where the input has ended.
    pub fn fill<W: sq_base::Wire>(
        &mut self,
        wire: &mut W,
        most: usize,
    ) -> Result<bool, sq_base::Failed>
        requires some { 0 < most }
        requires fits { length (held self.old) + most ≤ room self.old }
        ensures held { held self.new ≡ held self.old ++ gains self.old self.new }
        ensures most { length (held self.new) ≤ length (held self.old) + most }
        ensures gathers { GathersOn W.Wire (λ first. first ≡ []) wire.old wire.new (gains self.old self.new) }
        ensures came { MatchResult result
            (λ came. MatchBool came (length (held self.old) < length (held self.new)) ((held self.new ≡ held self.old) × IsAtEnd (W.left wire.new)))
            (λ _. held self.new ≡ held self.old) }
        ensures room { room self.new ≡ room self.old }
        ensures sent { W.sent wire.new ≡ W.sent wire.old }
        ensures cause { HasCause (W.read_faults wire.old) (W.read_faults wire.new) result }
        ensures write_faults { W.write_faults wire.new ≡ W.write_faults wire.old }
    {
        let mut piece = [0; PIECE];
        let count = wire.read(&mut piece[..PIECE.min(most)])?;
        self.push(&piece[..count]);
        Ok(count > 0)
    }
}
