//! Writers as sinks.
ghost use Rattle.std.specs.Prelude.{None};

use sq_base::{Failed, Sink};
use std::io::Write;

/// A writer as a sink, which tells nothing of the bytes that were sent. A writer that takes no byte of
/// a piece has failed.
#[derive(Drop)]
pub struct Writing<W> {
    inner: W,
    faults: u64,
}

impl<W> Writing<W> {
    /// A sink over this writer.
    pub fn new(inner: W) -> Writing<W> {
        Writing { inner, faults: 0 }
    }
}

impl<W: Write> Sink for Writing<W> {
    ghost sent = { λ _. None };

    ghost faults = { λ s. s.faults };

    fn write(&mut self, from: &[u8]) -> Result<usize, Failed> {
        match self.inner.write(from) {
            Ok(count) if count > 0 || from.is_empty() => Ok(count),
            _ => {
                self.faults = self.faults.saturating_add(1);
                Err(Failed)
            }
        }
    }
}
