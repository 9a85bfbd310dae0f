//! Readers as sources.
ghost use Rattle.std.specs.Prelude.{None};

use sq_base::{Failed, Source};
use std::io::Read;

/// A reader as a source, which tells nothing of the bytes that are left. Without a reader, as where a
/// file could not be opened, each read fails.
#[derive(Drop)]
pub struct Reading<R> {
    inner: Option<R>,
    faults: u64,
}

impl<R> Reading<R> {
    /// A source over this reader.
    pub fn new(inner: Option<R>) -> Reading<R> {
        Reading { inner, faults: 0 }
    }
}

impl<R: Read> Source for Reading<R> {
    ghost left = { λ _. None };

    ghost faults = { λ s. s.faults };

    fn read(&mut self, into: &mut [u8]) -> Result<usize, Failed> {
        if let Some(inner) = &mut self.inner {
            if let Ok(count) = inner.read(into) {
                return Ok(count);
            }
        }
        self.faults = self.faults.saturating_add(1);
        Err(Failed)
    }
}
