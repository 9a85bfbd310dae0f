//! Connections, over wires in memory.
ghost use Rattle.std.specs.Prelude.{Some, None, codes, if◌then◌else◌};
ghost use Rattle.std.specs.Str.{bytes_eq};

use sq_base::{Ended, MemSource, MemWire};
use sq_http::{Handled, Handler, serve_connection};
use std::alloc::{AllocError, Global};
use std::test::Fail;

/// Sends Ann's bodies back, and knows nobody else.
struct OnlyAnn;

impl Handler for OnlyAnn {
    ghost reply = { λ handler now caller body. if bytes_eq caller (codes "Ann") then Some body else None };

    fn handle(
        &self,
        alloc: Global,
        caller: &[u8],
        _now: i64,
        body: &[u8],
    ) -> Result<Vec<u8>, Handled> {
        if caller != b"Ann".as_slice() {
            return Err(Handled::UnknownCaller);
        }
        match body.to_vec(alloc) {
            Ok(bytes) => Ok(bytes),
            Err(_) => Err(Handled::NoMemory),
        }
    }
}

/// How a connection ended whose bytes came in pieces of this size, and what was sent. Reads and writes
/// fail at the calls with these numbers.
fn served(
    alloc: Global,
    text: &str,
    piece: u32,
    reads: Vec<u32>,
    writes: Vec<u32>,
) -> Result<(Ended, Vec<u8>), AllocError> {
    let source = MemSource {
        bytes: text.as_bytes().to_vec(alloc)?,
        pieces: vec![in alloc; piece; text.len()]?,
        failing: reads,
        calls: 0,
        faults: 0,
    };
    let mut wire = MemWire::new(alloc, source, 200_000, writes)?;
    let how = serve_connection(alloc, &OnlyAnn, 0, &mut wire);
    Ok((how, wire.bytes().to_vec(alloc)?))
}

/// A text in short: parts between `|`, of which `3*x` is `xxx`; `~` is CR LF, and a grave accent LF.
fn text_of(alloc: Global, short: &str) -> Result<String, Fail> {
    let mut text = String::new(alloc);
    for part in short.split('|') {
        match part.split_once('*') {
            Some((times, piece)) => {
                text.push_str(piece.repeat(alloc, times.parse::<usize>()?)?.as_str())?
            }
            None => text.push_str(part)?,
        }
    }
    let ended = text.as_str().replace(alloc, '~', "\r\n")?;
    Ok(ended.as_str().replace(alloc, '`', "\n")?)
}

// A line for each connection: what comes, and what is sent, both in short.
const CONNECTIONS: &str = "\
GET /x HTTP/1.1~~GET /query HTTP/1.0~~>HTTP/1.1 404 Not Found~Content-Length: 0~~HTTP/1.1 405 Method Not Allowed~Content-Length: 0~Allow: POST~Connection: close~~\n\
POST /query HTTP/1.1~X-Search-Caller: Ann~Content-Length: 5~~helloGET / HTTP/1.1~~>HTTP/1.1 200 OK~Content-Type: text/xml; charset=utf-8~Content-Length: 5~~helloHTTP/1.1 404 Not Found~Content-Length: 0~~\n\
POST /query HTTP/1.1~X-Search-Caller: Ann~Content-Length: 5~~hell>\n\
POST /query HTTP/1.1~X-Search-Caller: Ann~Content-Length: 5~>\n\
>\n\
POST /query HTTP/1.1~X-Search-Caller: Ann~Content-Length: 5~Expect: 100-Continue~~hell>HTTP/1.1 100 Continue~~\n\
POST /query HTTP/1.1~X-Search-Caller: Ann~Content-Length: 5~Expect: x~expect: 100-continue~~hello>HTTP/1.1 100 Continue~~HTTP/1.1 200 OK~Content-Type: text/xml; charset=utf-8~Content-Length: 5~~hello\n\
PUT /x HTTP/1.1~Content-Length: 1~Expect: 100-continue~~a>HTTP/1.1 100 Continue~~HTTP/1.1 404 Not Found~Content-Length: 0~~\n\
POST /query HTTP/1.1~X-Search-Caller: Ann~Content-Length: 0~Expect: 100-continue~~>HTTP/1.1 200 OK~Content-Type: text/xml; charset=utf-8~Content-Length: 0~~\n\
POST /query HTTP/1.1~X-Search-Caller: Ann~Content-Length: 1~Expect: 100-continue, x~~a>HTTP/1.1 200 OK~Content-Type: text/xml; charset=utf-8~Content-Length: 1~~a\n\
POST /query HTTP/1.0~X-Search-Caller: Ann~Content-Length: 1~Expect: 100-continue~~aGET / HTTP/1.1~~>HTTP/1.1 200 OK~Content-Type: text/xml; charset=utf-8~Content-Length: 1~Connection: close~~a\n\
POST /query HTTP/1.1~x-search-CALLER: \t Ann \t~content-LENGTH:1~~a>HTTP/1.1 200 OK~Content-Type: text/xml; charset=utf-8~Content-Length: 1~~a\n\
POST /query HTTP/1.1~X-Search-Caller: Bob~Content-Length: 1~~aGET / HTTP/1.1~~>HTTP/1.1 403 Forbidden~Content-Length: 0~~HTTP/1.1 404 Not Found~Content-Length: 0~~\n\
POST /query HTTP/1.1~X-Search-Caller: ann~Content-Length: 1~~a>HTTP/1.1 403 Forbidden~Content-Length: 0~~\n\
POST /query HTTP/1.1~Content-Length: 0~~>HTTP/1.1 400 Bad Request~Content-Length: 0~~\n\
POST /query HTTP/1.1~X-Search-Caller: ~Content-Length: 0~~>HTTP/1.1 400 Bad Request~Content-Length: 0~~\n\
POST /query HTTP/1.1~X-Search-Caller: Ann~X-Search-Caller: Ann~Content-Length: 0~~>HTTP/1.1 400 Bad Request~Content-Length: 0~~\n\
POST /query HTTP/1.1~X-Search-Caller: Ann~~GET / HTTP/1.1~~>HTTP/1.1 411 Length Required~Content-Length: 0~Connection: close~~\n\
POST /query?x HTTP/1.1~~>HTTP/1.1 404 Not Found~Content-Length: 0~~\n\
post /query HTTP/1.1~Content-Length: 3~~abcGET / HTTP/1.1~~>HTTP/1.1 405 Method Not Allowed~Content-Length: 0~Allow: POST~~HTTP/1.1 404 Not Found~Content-Length: 0~~\n\
POST /query HTTP/1.1~tRANSFER-eNCODING: chunked~Content-Length: x~~GET / HTTP/1.1~~>HTTP/1.1 501 Not Implemented~Content-Length: 0~Connection: close~~\n\
GET /x HTTP/1.1~Transfer-Encoding: gzip~Transfer-Encoding: chunked~~>HTTP/1.1 501 Not Implemented~Content-Length: 0~Connection: close~~\n\
GET /x HTTP/1.1~Transfer-Encoding : chunked~~>HTTP/1.1 400 Bad Request~Content-Length: 0~Connection: close~~\n\
POST /query HTTP/1.1~Content-Length: 5~Content-Length: 5~~hello>HTTP/1.1 400 Bad Request~Content-Length: 0~Connection: close~~\n\
POST /query HTTP/1.1~Content-Length: 5, 5~~hello>HTTP/1.1 400 Bad Request~Content-Length: 0~Connection: close~~\n\
POST /query HTTP/1.1~Content-Length: +5~~hello>HTTP/1.1 400 Bad Request~Content-Length: 0~Connection: close~~\n\
POST /query HTTP/1.1~Content-Length: ~~>HTTP/1.1 400 Bad Request~Content-Length: 0~Connection: close~~\n\
POST /query HTTP/1.1~X-Search-Caller: Ann~Content-Length: 0000000005~~hello>HTTP/1.1 200 OK~Content-Type: text/xml; charset=utf-8~Content-Length: 5~~hello\n\
POST /query HTTP/1.1~X-Search-Caller: Ann~Content-Length: 00000000005~~hello>HTTP/1.1 400 Bad Request~Content-Length: 0~Connection: close~~\n\
POST /query HTTP/1.1~Content-Length: 9999999999~~>HTTP/1.1 413 Payload Too Large~Content-Length: 0~Connection: close~~\n\
POST /query HTTP/1.1~X-Search-Caller: Ann~Content-Length: 131072~~|131072*a>HTTP/1.1 200 OK~Content-Type: text/xml; charset=utf-8~Content-Length: 131072~~|131072*a\n\
POST /query HTTP/1.1~X-Search-Caller: Ann~Content-Length: 131072~~|131071*a>\n\
POST /query HTTP/1.1~X-Search-Caller: Ann~Content-Length: 131073~Expect: 100-continue~~|131073*a>HTTP/1.1 413 Payload Too Large~Content-Length: 0~Connection: close~~\n\
GET /x HTTP/1.1~A: |8168*a|~~GET / HTTP/1.1~~>HTTP/1.1 404 Not Found~Content-Length: 0~~HTTP/1.1 404 Not Found~Content-Length: 0~~\n\
GET /x HTTP/1.1~A: |8169*a|~~>HTTP/1.1 431 Request Header Fields Too Large~Content-Length: 0~Connection: close~~\n\
GET /x HTTP/1.1~A: |8172*a>\n\
GET /x HTTP/1.1~A: |8173*a>HTTP/1.1 431 Request Header Fields Too Large~Content-Length: 0~Connection: close~~\n\
GET /x HTTP/1.1~|64*A: b~|~>HTTP/1.1 404 Not Found~Content-Length: 0~~\n\
GET /x HTTP/1.1~|65*A: b~|~>HTTP/1.1 400 Bad Request~Content-Length: 0~Connection: close~~\n\
GET /x HTTP/1.1`A: b~~>HTTP/1.1 404 Not Found~Content-Length: 0~~\n\
GET /x HTTP/1.1`A: b``>\n\
GET /x HTTP/1.1``~~>HTTP/1.1 400 Bad Request~Content-Length: 0~Connection: close~~\n\
GET /x HTTP/1.1~A: b~ c~~>HTTP/1.1 400 Bad Request~Content-Length: 0~Connection: close~~\n\
GET /x HTTP/1.1~A : b~~>HTTP/1.1 400 Bad Request~Content-Length: 0~Connection: close~~\n\
GET /x HTTP/1.2~~>HTTP/1.1 400 Bad Request~Content-Length: 0~Connection: close~~\n\
GET  /x HTTP/1.1~~>HTTP/1.1 400 Bad Request~Content-Length: 0~Connection: close~~\n\
~GET /x HTTP/1.1~~>HTTP/1.1 404 Not Found~Content-Length: 0~~\n\
~~GET /x HTTP/1.1~~>HTTP/1.1 400 Bad Request~Content-Length: 0~Connection: close~~\n\
GET /x HTTP/1.1~connection: a , CLOSE~~GET / HTTP/1.1~~>HTTP/1.1 404 Not Found~Content-Length: 0~Connection: close~~\n\
GET /x HTTP/1.1~Connection: keep-alive~Connection: close~~>HTTP/1.1 404 Not Found~Content-Length: 0~Connection: close~~\n\
GET /x HTTP/1.1~Connection: closed, not close~~GET / HTTP/1.0~~>HTTP/1.1 404 Not Found~Content-Length: 0~~HTTP/1.1 404 Not Found~Content-Length: 0~Connection: close~~\n\
1001*GET /x HTTP/1.1~~>999*HTTP/1.1 404 Not Found~Content-Length: 0~~|HTTP/1.1 404 Not Found~Content-Length: 0~Connection: close~~";

/// Whole and in small pieces.
#[test]
fn replies_are_a_function_of_the_bytes(rt: HostRuntime) -> Result<(), Fail> {
    let alloc = rt.alloc();
    for row in CONNECTIONS.split('\n') {
        let (asked, answer) = row.split_once('>').unwrap_or((row, ""));
        let text = text_of(alloc, asked)?;
        let wanted = text_of(alloc, answer)?;
        for piece in [1_000_000, if text.len() < 1_000 { 1 } else { 997 }] {
            let (how, sent) = served(
                alloc,
                text.as_str(),
                piece,
                Vec::new(alloc),
                Vec::new(alloc),
            )?;
            assert_eq!(rt; how, Ended::Finished, "at {row}");
            assert_eq!(rt; sent.as_slice(), wanted.as_bytes(), "at {row}");
        }
    }
    Ok(())
}

const THREE: &str =
    "POST /query HTTP/1.1\r\nX-Search-Caller: Ann\r\nContent-Length: 5\r\nExpect: 100-continue\r\n\r\nhelloGET /x HTTP/1.1\r\n\r\nGET /x HTTP/1.0\r\n\r\n";

/// At each call in turn, until none fails.
#[test]
fn what_is_sent_before_a_fault_is_owed(rt: HostRuntime) -> Result<(), Fail> {
    let alloc = rt.alloc();
    let none = Vec::new(alloc);
    let (_, whole) = served(alloc, THREE, 7, none, Vec::new(alloc))?;
    for fault in [Ended::ReadFault, Ended::WriteFault] {
        let mut finished = false;
        for call in 0..100 {
            let failing = vec![in alloc; call]?;
            let (how, sent) = match fault {
                Ended::ReadFault => served(alloc, THREE, 7, failing, Vec::new(alloc))?,
                _ => served(alloc, THREE, 7, Vec::new(alloc), failing)?,
            };
            finished = sent.len() == whole.len();
            assert!(rt;
                how == if finished { Ended::Finished } else { fault },
                "at {call}"
            );
            assert!(rt; whole.starts_with(&sent), "at {call}");
        }
        assert!(rt; finished);
    }
    Ok(())
}
