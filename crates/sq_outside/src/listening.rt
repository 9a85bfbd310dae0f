//! A TCP port as ports.
ghost use Rattle.std.specs.Prelude.{◌≡◌, None};
ghost use Rattle.sq_base.specs.Causes.{HasCause};
ghost use Rattle.sq_outside.specs.Listening.{connections_out, port_faults};

use crate::{Stream, seconds_now};
use sq_base::{Ended, Failed, Ports};
use std::io;
use std::net::{TcpListener, TcpStream};

/// Where the service listens: port 8971, for this machine alone.
pub const ADDRESS: &str = "127.0.0.1:8971";

/// A port that is bound when the first connection is waited for.
#[derive(Drop)]
struct Port<'a> {
    rt: &'a HostRuntime,
    address: &'a str,
    listener: Option<TcpListener>,
}

impl<'a> Port<'a> {
    /// Binds the port, and says so in a line on standard error.
    fn bound(&self) -> io::Result<TcpListener> {
        let listener = TcpListener::bind(self.rt, self.address)?;
        let _ = self
            .rt
            .eprintln(format_args!("listening on {}", self.address));
        Ok(listener)
    }

    fn open(&mut self) -> io::Result<&TcpListener> {
        let listener = match self.listener.take() {
            Some(listener) => listener,
            None => self.bound()?,
        };
        Ok(self.listener.insert(listener))
    }

    /// Waits for the next connection.
    fn accept(&mut self) -> io::Result<TcpStream> {
        let (stream, _) = self.open()?.accept()?;
        Ok(stream)
    }
}

/// A TCP port as ports, which tell nothing of the connections that wait. The port is bound by the first
/// accept, so that whoever accepts nothing opens none. The moment of a connection is the clock's when
/// it was accepted, in UTC seconds since 1970-01-01T00:00:00Z.
#[derive(Drop)]
pub struct Listening<'a> {
    port: Port<'a>,
    out: u64,
    faults: u64,
}

impl<'a> Listening<'a> {
    /// Ports at an address, which is an IP address or a host's name, a colon and the port's number.
    pub fn new(rt: &'a HostRuntime, address: &'a str) -> Listening<'a>
        ensures { connections_out result ≡ 0 }
    {
        let port = Port {
            rt,
            address,
            listener: None,
        };
        Listening {
            port,
            out: 0,
            faults: 0,
        }
    }

    /// Binds the port where it isn't bound yet, without waiting for a connection: from then on the
    /// system keeps those that come, and `accept` takes them.
    pub fn open(&mut self) -> Result<(), Failed>
        ensures cause { HasCause (port_faults self.old) (port_faults self.new) result }
        ensures out { connections_out self.new ≡ connections_out self.old }
    {
        if self.port.open().is_ok() {
            return Ok(());
        }
        self.faults = self.faults.saturating_add(1);
        Err(Failed)
    }
}

impl<'a> Ports for Listening<'a> {
    type W = Stream;

    ghost waiting = { λ _. None };

    ghost ended = { λ _. None };

    ghost out = { connections_out };

    ghost faults = { port_faults };

    fn accept(&mut self) -> Result<(Stream, i64), Failed> {
        if self.out < u64::MAX {
            if let Ok(stream) = self.port.accept() {
                self.out += 1;
                return Ok((Stream::new(stream), seconds_now(self.port.rt)));
            }
        }
        self.faults = self.faults.saturating_add(1);
        Err(Failed)
    }

    /// The connection is closed.
    fn done(&mut self, wire: Stream, _how: Ended) {
        self.out -= 1;
        wire.close();
    }
}
