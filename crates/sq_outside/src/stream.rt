//! TCP connections as wires.
ghost use Rattle.std.specs.Prelude.{None};

use sq_base::{Failed, Wire};
use std::io::{Read, Write};
use std::net::{Shutdown, TcpStream};
use std::time::Duration;

/// How many seconds a read or a write waits for a peer that does nothing. Connections are served one after the other,
/// so a silent peer keeps the next one waiting for as long.
const PATIENCE: u64 = 30;

/// How many milliseconds a read waits while a connection is closed.
const FAREWELL: u64 = 200;

/// How many pieces of 4,096 bytes are read at most while a connection is closed.
const LEFTOVERS: u32 = 256;

/// A TCP connection as a wire, which tells nothing of its bytes. It is closed where it is dropped.
#[derive(Drop)]
pub struct Stream {
    inner: TcpStream,
    read_faults: u64,
    write_faults: u64,
}

impl Stream {
    /// A wire over this connection. What is written is sent at once, for a reply is complete when it is
    /// written; a system that can't do so sends it a little later. A read or a write fails where the peer
    /// does nothing for 30 seconds.
    pub fn new(inner: TcpStream) -> Stream {
        let _ = inner.set_nodelay(true);
        let _ = inner.set_read_timeout(Some(Duration::from_secs(PATIENCE)));
        let _ = inner.set_write_timeout(Some(Duration::from_secs(PATIENCE)));
        Stream {
            inner,
            read_faults: 0,
            write_faults: 0,
        }
    }
}

impl Stream {
    /// Closes the connection. What the peer still sends is read and let go for a moment, since a connection
    /// that is closed with bytes unread is reset by some systems, and the peer may then lose the last reply.
    pub(crate) fn close(mut self) {
        let _ = self.inner.shutdown(Shutdown::Write);
        let _ = self
            .inner
            .set_read_timeout(Some(Duration::from_millis(FAREWELL)));
        let mut piece = [0u8; 4096];
        for _ in 0..LEFTOVERS {
            match self.inner.read(&mut piece) {
                Ok(count) if count > 0 => {}
                _ => return,
            }
        }
    }
}

impl Wire for Stream {
    ghost left = { λ _. None };

    ghost sent = { λ _. None };

    ghost asked = { λ _. None };

    ghost read_faults = { λ wire. wire.read_faults };

    ghost write_faults = { λ wire. wire.write_faults };

    fn read(&mut self, into: &mut [u8]) -> Result<usize, Failed> {
        if let Ok(count) = self.inner.read(into) {
            return Ok(count);
        }
        self.read_faults = self.read_faults.saturating_add(1);
        Err(Failed)
    }

    fn write(&mut self, from: &[u8]) -> Result<usize, Failed> {
        match self.inner.write(from) {
            Ok(count) if count > 0 || from.is_empty() => Ok(count),
            _ => {
                self.write_faults = self.write_faults.saturating_add(1);
                Err(Failed)
            }
        }
    }
}
