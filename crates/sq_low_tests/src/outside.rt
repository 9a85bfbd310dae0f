//! The real outside: what readers, writers, connections and the port give where the system has them.

use sq_base::{Ended, Failed, Ports, Sink, Source, Wire, send_all, write_all};
use sq_outside::{Listening, Reading, Writing, seconds_now};
use std::io::{Read, Write};
use std::net::{Shutdown, TcpStream};
use std::process;
use std::test::Fail;

/// Where a test listens: the service's own port may be taken, and so may another run's of this test.
fn address(rt: &HostRuntime) -> Result<String, Fail> {
    let port = 20_000 + process::id(rt.process()) % 10_000;
    Ok(format!(in rt.alloc(); "127.0.0.1:{port}")?)
}

/// In pieces, and then none; without a reader each read fails.
#[test]
fn a_reader_is_a_source(rt: HostRuntime) -> Result<(), Fail> {
    let mut piece = [0u8; 3];
    let mut source = Reading::new(Some(b"debt".as_slice()));
    assert_eq!(rt; source.read(&mut piece), Ok(3));
    assert_eq!(rt; piece.as_slice(), b"deb".as_slice());
    assert_eq!(rt; source.read(&mut piece), Ok(1));
    assert_eq!(rt; source.read(&mut piece), Ok(0));
    let mut missing: Reading<&[u8]> = Reading::new(None);
    assert_eq!(rt; missing.read(&mut piece), Err(Failed));
    Ok(())
}

/// A writer with room for the piece takes it; a full one fails.
#[test]
fn a_writer_is_a_sink(rt: HostRuntime) -> Result<(), Fail> {
    let mut room = [0u8; 4];
    let mut sink = Writing::new(room.as_mut_slice());
    assert_eq!(rt; write_all(&mut sink, b"debt"), Ok(()));
    assert_eq!(rt; sink.write(b"s"), Err(Failed));
    assert_eq!(rt; sink.write(b""), Ok(0));
    Ok(())
}

/// The port is opened once, a connection that waits is accepted with the clock's moment, bytes go both
/// ways, and the peer sees the connection's end where it was handed back. While the port is taken, whoever
/// else opens it fails.
#[test]
fn a_connection_is_accepted_served_and_closed(rt: HostRuntime) -> Result<(), Fail> {
    let address = address(&rt)?;
    let mut ports = Listening::new(&rt, address.as_str());
    assert_eq!(rt; ports.open(), Ok(()));
    let mut second = Listening::new(&rt, address.as_str());
    assert!(rt; second.accept().is_err());
    let mut peer = TcpStream::connect(&rt, address.as_str())?;
    peer.write_all(b"debt")?;
    peer.shutdown(Shutdown::Write)?;
    let before = seconds_now(&rt);
    let Ok((mut wire, moment)) = ports.accept() else {
        return Err(Fail::from(Failed));
    };
    assert!(rt; 1_700_000_000 < before && before <= moment);
    let mut asked = [0u8; 8];
    assert_eq!(rt; wire.read(&mut asked), Ok(4));
    assert_eq!(rt; wire.read(&mut asked), Ok(0));
    assert_eq!(rt; send_all(&mut wire, b"total 1"), Ok(()));
    ports.done(wire, Ended::Finished);
    let mut answer = Vec::new(rt.alloc());
    peer.read_to_end(&mut answer)?;
    assert_eq!(rt; answer.as_slice(), b"total 1".as_slice());
    Ok(())
}
