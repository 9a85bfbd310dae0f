//! Connections, in rows `COUNT|WIRE|WIRE..|WANT`: what comes in on each wire, and the status with what goes out on each,
//! each behind ` / `. In these `;` is the end of a line, CR LF.

use super::corpora::WORKED;
use super::hostile::filled_packet;
use super::packets::{ANSWERED, packet_of};
use super::{MOMENT, source_of, status_of};
use sq_base::{MemPorts, MemSink, MemSource, MemWire};
use std::alloc::{AllocError, Global};
use std::process::Abort;

/// A wire on which this text comes in, whole or byte by byte, of which the reads and writes of these numbers fail.
fn wire_of(
    alloc: Global,
    text: &str,
    piece: u32,
    reads: &[u32],
    writes: &[u32],
) -> Result<MemWire, AllocError> {
    let mut pieces = Vec::new(alloc);
    for _ in 0..text.len() {
        pieces.push(piece)?;
    }
    let source = MemSource {
        bytes: Vec::from_slice(alloc, text.as_bytes())?,
        pieces,
        failing: Vec::from_slice(alloc, reads)?,
        calls: 0,
        faults: 0,
    };
    MemWire::new(alloc, source, 10_000, Vec::from_slice(alloc, writes)?)
}

/// The status of serving these wires, and what each was sent.
fn served(
    alloc: Global,
    count: &str,
    wires: Vec<MemWire>,
    refused: &[u32],
) -> Result<String, AllocError> {
    let mut waiting = Vec::new(alloc);
    for wire in wires {
        waiting.push((wire, MOMENT))?;
    }
    let mut ports = MemPorts::new(alloc, waiting, Vec::from_slice(alloc, refused)?)?;
    let mut corpus = source_of(alloc, WORKED, Vec::new(alloc))?;
    let mut input = source_of(alloc, "unread", Vec::new(alloc))?;
    let mut out = MemSink::new(alloc, 10, Vec::new(alloc))?;
    let words = ["serve", count];
    let status = status_of(alloc, &words, &mut corpus, &mut input, &mut out, &mut ports);
    let mut text = format!(in alloc; "{status}")?;
    for (wire, _) in ports.ended() {
        let sent = String::from_utf8_lossy(alloc, wire.bytes())?;
        let sent = sent.replace(alloc, "\r\n", ";")?;
        text.push_str(" / ")?;
        text.push_str(&sent)?;
    }
    Ok(text)
}

/// Asks each row of a table, with wires that come in pieces of so many bytes.
fn expect_served(
    rt: &impl Abort,
    alloc: Global,
    table: &str,
    piece: u32,
) -> Result<(), AllocError> {
    for row in table.split('\n') {
        let mut fields = Vec::new(alloc);
        for field in row.split('|') {
            fields.push(field)?;
        }
        if let [count, texts @ .., want] = fields.as_slice() {
            let mut wires = Vec::new(alloc);
            for text in texts {
                let text = text.replace(alloc, ';', "\r\n")?;
                wires.push(wire_of(alloc, &text, piece, &[], &[])?)?;
            }
            let given = served(alloc, count, wires, &[])?;
            assert_eq!(rt; given.as_str(), *want, "at {row}");
        }
    }
    Ok(())
}

/// Two requests on one connection, the second of which closes; one whose last byte never comes; a caller whom nobody knows,
/// and then Ann; refusals of the head alone; a second connection; and one accept more than there are connections.
const SERVED: &str = "\
1|POST /query HTTP/1.1;Host: localhost;X-Search-Caller: Ann;Content-Length: 122;;<QueryPacket xmlns=\"urn:Microsoft.Search.Query\"><Query><Context><QueryText>zzz</QueryText></Context></Query></QueryPacket>POST /query HTTP/1.1;Host: localhost;X-Search-Caller: Ann;Content-Length: 122;Connection: close;;<QueryPacket xmlns=\"urn:Microsoft.Search.Query\"><Query><Context><QueryText>zzz</QueryText></Context></Query></QueryPacket>|0 / HTTP/1.1 200 OK;Content-Type: text/xml; charset=utf-8;Content-Length: 169;;<?xml version=\"1.0\" encoding=\"utf-8\"?><ResponsePacket xmlns=\"urn:Microsoft.Search.Response\"><Response><Status>ERROR_NO_RESULTS_FOUND</Status></Response></ResponsePacket>HTTP/1.1 200 OK;Content-Type: text/xml; charset=utf-8;Content-Length: 169;Connection: close;;<?xml version=\"1.0\" encoding=\"utf-8\"?><ResponsePacket xmlns=\"urn:Microsoft.Search.Response\"><Response><Status>ERROR_NO_RESULTS_FOUND</Status></Response></ResponsePacket>
1|POST /query HTTP/1.1;Host: localhost;X-Search-Caller: Ann;Content-Length: 122;;<QueryPacket xmlns=\"urn:Microsoft.Search.Query\"><Query><Context><QueryText>zzz</QueryText></Context></Query></QueryPacket|0 / 
1|POST /query HTTP/1.1;X-Search-Caller: Zed;Content-Length: 1;;xPOST /query HTTP/1.1;X-Search-Caller: Ann;Content-Length: 1;;x|0 / HTTP/1.1 403 Forbidden;Content-Length: 0;;HTTP/1.1 200 OK;Content-Type: text/xml; charset=utf-8;Content-Length: 221;;<?xml version=\"1.0\" encoding=\"utf-8\"?><ResponsePacket xmlns=\"urn:Microsoft.Search.Response\"><Response><Status>ERROR_BAD_REQUEST</Status><DebugErrorMessage>502 Malformed at 0</DebugErrorMessage></Response></ResponsePacket>
1|GET /x HTTP/1.1;;GET /query HTTP/1.0;;|0 / HTTP/1.1 404 Not Found;Content-Length: 0;;HTTP/1.1 405 Method Not Allowed;Content-Length: 0;Allow: POST;Connection: close;;
2|GET /x HTTP/1.0;;|GET /query HTTP/1.0;;|0 / HTTP/1.1 404 Not Found;Content-Length: 0;Connection: close;; / HTTP/1.1 405 Method Not Allowed;Content-Length: 0;Allow: POST;Connection: close;;
1|GET /x HTTP/1.0;;|GET /query HTTP/1.0;;|0 / HTTP/1.1 404 Not Found;Content-Length: 0;Connection: close;;
2|GET /x HTTP/1.0;;|6 / HTTP/1.1 404 Not Found;Content-Length: 0;Connection: close;;
1|6";

#[test]
fn connections_are_served_one_after_the_other(rt: HostRuntime) -> Result<(), AllocError> {
    expect_served(&rt, rt.alloc(), SERVED, 10_000)
}

#[test]
fn pieces_of_one_byte_change_nothing(rt: HostRuntime) -> Result<(), AllocError> {
    expect_served(&rt, rt.alloc(), SERVED, 1)
}

/// What a second connection is sent, whatever becomes of the first.
const SECOND: &str = " / HTTP/1.1 404 Not Found;Content-Length: 0;Connection: close;;";

/// What is sent on a first connection before its second request, which is its last, is answered.
const FIRST: &str = "0 / HTTP/1.1 404 Not Found;Content-Length: 0;;";

/// What two connections are sent, of which the first asks a packet behind a request that is refused, comes in pieces of so many
/// bytes, and fails at these calls.
fn after_a_failure(
    alloc: Global,
    piece: u32,
    reads: &[u32],
    writes: &[u32],
) -> Result<String, AllocError> {
    let packet = packet_of(alloc, "", "debt", "")?;
    let length = packet.len();
    let request = format!(in alloc;
        "GET /x HTTP/1.1\r\n\r\nPOST /query HTTP/1.1\r\nX-Search-Caller: Ann\r\nContent-Length: {length}\r\nConnection: close\r\n\r\n{packet}"
    )?;
    let mut wires = Vec::new(alloc);
    wires.push(wire_of(alloc, &request, piece, reads, writes)?)?;
    wires.push(wire_of(alloc, "GET /x HTTP/1.0\r\n\r\n", 100, &[], &[])?)?;
    served(alloc, "2", wires, &[])
}

/// The number of the first read that no run reaches: where an earlier one fails, all is sent that was owed before it, and the
/// second connection is served.
fn failing_reads(rt: &impl Abort, alloc: Global, piece: u32) -> Result<u32, AllocError> {
    let whole = after_a_failure(alloc, piece, &[], &[])?;
    let last = whole.strip_prefix(FIRST).unwrap_or("");
    assert!(rt; last.starts_with("HTTP/1.1 200 OK;") && last.ends_with(SECOND));
    for call in 0..1000 {
        let given = after_a_failure(alloc, piece, &[call], &[])?;
        if given.as_str() == whole.as_str() {
            return Ok(call);
        }
        let sent = given.strip_suffix(SECOND).unwrap_or("");
        assert!(rt; sent == "0 / " || sent == FIRST, "read {call}");
    }
    Ok(1000)
}

/// The number of the first write that no run reaches: where an earlier one fails, a front part is sent, and the second
/// connection is served.
fn failing_writes(rt: &impl Abort, alloc: Global, piece: u32) -> Result<u32, AllocError> {
    let whole = after_a_failure(alloc, piece, &[], &[])?;
    for call in 0..1000 {
        let given = after_a_failure(alloc, piece, &[], &[call])?;
        if given.as_str() == whole.as_str() {
            return Ok(call);
        }
        let sent = given.strip_suffix(SECOND).unwrap_or("");
        assert!(rt;
            whole.starts_with(sent) && sent.starts_with("0 / "),
            "write {call}"
        );
    }
    Ok(1000)
}

#[test]
fn a_wire_that_fails_to_read_ends_alone(rt: HostRuntime) -> Result<(), AllocError> {
    let alloc = rt.alloc();
    for piece in [1, 100, 10_000] {
        let reads = failing_reads(&rt, alloc, piece)?;
        assert!(rt; reads > 0 && reads < 1000, "pieces of {piece}");
    }
    Ok(())
}

#[test]
fn a_wire_that_fails_to_write_ends_alone(rt: HostRuntime) -> Result<(), AllocError> {
    let alloc = rt.alloc();
    for piece in [1, 100, 10_000] {
        let writes = failing_writes(&rt, alloc, piece)?;
        assert!(rt; writes > 1 && writes < 1000, "pieces of {piece}");
    }
    Ok(())
}

#[test]
fn an_accept_that_fails_ends_serving(rt: HostRuntime) -> Result<(), AllocError> {
    let alloc = rt.alloc();
    let mut sent = String::new(alloc);
    for call in 0..3 {
        let mut wires = Vec::new(alloc);
        for _ in 0..2 {
            wires.push(wire_of(alloc, "GET /x HTTP/1.0\r\n\r\n", 100, &[], &[])?)?;
        }
        let status = if call < 2 { 6 } else { 0 };
        let want = format!(in alloc; "{status}{sent}")?;
        assert_eq!(rt; served(alloc, "2", wires, &[call])?.as_str(), want.as_str());
        sent.push_str(SECOND)?;
    }
    Ok(())
}

/// What one connection is sent that asks the worked packet, filled to this length.
fn filled_reply(alloc: Global, length: usize) -> Result<String, AllocError> {
    let packet = filled_packet(alloc, length)?;
    let request = format!(in alloc;
        "POST /query HTTP/1.1\r\nX-Search-Caller: Ann\r\nContent-Length: {length}\r\nConnection: close\r\n\r\n{packet}"
    )?;
    let mut wires = Vec::new(alloc);
    wires.push(wire_of(alloc, &request, 10_000, &[], &[])?)?;
    served(alloc, "1", wires, &[])
}

#[test]
fn a_body_that_a_comment_fills_is_answered(rt: HostRuntime) -> Result<(), AllocError> {
    let alloc = rt.alloc();
    let answer = ANSWERED.strip_prefix("0 ").unwrap_or("");
    let length = answer.len();
    let want = format!(in alloc;
        "0 / HTTP/1.1 200 OK;Content-Type: text/xml; charset=utf-8;Content-Length: {length};Connection: close;;{answer}"
    )?;
    assert_eq!(rt; filled_reply(alloc, 131_072)?.as_str(), want.as_str());
    assert_eq!(rt;
        filled_reply(alloc, 131_073)?.as_str(),
        "0 / HTTP/1.1 413 Payload Too Large;Content-Length: 0;Connection: close;;"
    );
    Ok(())
}
