//! What a stranger may send: each front part of the worked packet and of the worked corpus, each of them with one byte that no
//! text has, and texts at the ends of their limits, in rows that are spelled as [the tests](super) read them.

use super::corpora::WORKED;
use super::packets::{ANSWERED, SENT};
use super::{asked, expect_rows, reply, source_of, source_of_bytes, spelled};
use std::alloc::{AllocError, Global};
use std::process::Abort;

/// These bytes, with 255 in one place.
fn with_bad_byte(alloc: Global, bytes: &[u8], place: usize) -> Result<Vec<u8>, AllocError> {
    let mut bytes = bytes.to_vec(alloc)?;
    if let Some(byte) = bytes.get_mut(place) {
        *byte = 255;
    }
    Ok(bytes)
}

/// The reply to a packet of Ann over the worked corpus.
fn packet_reply(alloc: Global, packet: &[u8]) -> Result<String, AllocError> {
    let mut corpus = source_of(alloc, WORKED, Vec::new(alloc))?;
    let mut input = source_of_bytes(alloc, packet.to_vec(alloc)?, Vec::new(alloc))?;
    reply(
        alloc,
        &["packet", "Ann"],
        &mut corpus,
        &mut input,
        Vec::new(alloc),
    )
}

/// The reply to a packet that has this fault at a place.
fn packet_refusal(alloc: Global, fault: &str, place: usize) -> Result<String, AllocError> {
    format!(in alloc;
        "1 <?xml version=\"1.0\" encoding=\"utf-8\"?><ResponsePacket xmlns=\"urn:Microsoft.Search.Response\"><Response><Status>ERROR_BAD_REQUEST</Status><DebugErrorMessage>{fault} at {place}</DebugErrorMessage></Response></ResponsePacket>"
    )
}

#[test]
fn a_packet_that_is_cut_is_refused_where_it_ends(rt: HostRuntime) -> Result<(), AllocError> {
    let alloc = rt.alloc();
    let mut front = Vec::new(alloc);
    for byte in SENT.trim_end().bytes() {
        let place = front.len();
        let given = packet_reply(alloc, &front)?;
        let want = packet_refusal(alloc, "502 Malformed", place)?;
        assert_eq!(rt; given.as_str(), want.as_str(), "cut at {place}");
        front.push(byte)?;
    }
    assert_eq!(rt; packet_reply(alloc, &front)?.as_str(), ANSWERED);
    Ok(())
}

#[test]
fn a_packet_with_a_bad_byte_is_refused_there(rt: HostRuntime) -> Result<(), AllocError> {
    let alloc = rt.alloc();
    for place in 0..SENT.len() {
        let packet = with_bad_byte(alloc, SENT.as_bytes(), place)?;
        let given = packet_reply(alloc, &packet)?;
        let want = packet_refusal(alloc, "501 NotUtf8", place)?;
        assert_eq!(rt; given.as_str(), want.as_str(), "255 at {place}");
    }
    Ok(())
}

/// The reply to words over a corpus of these bytes.
fn corpus_reply(alloc: Global, words: &[&str], corpus: &[u8]) -> Result<String, AllocError> {
    let mut corpus = source_of_bytes(alloc, corpus.to_vec(alloc)?, Vec::new(alloc))?;
    let mut input = source_of(alloc, "", Vec::new(alloc))?;
    reply(alloc, words, &mut corpus, &mut input, Vec::new(alloc))
}

/// Checks each front part of a corpus that ends inside this line, and puts the line behind the front.
fn expect_cut_line(
    rt: &impl Abort,
    alloc: Global,
    front: &mut Vec<u8>,
    line: &str,
    number: u32,
) -> Result<(), AllocError> {
    let want = format!(in alloc; "3 corpus fault 602 line {number};")?;
    for byte in line.bytes() {
        front.push(byte)?;
        let given = corpus_reply(alloc, &["check"], front)?;
        assert_eq!(rt; given.as_str(), want.as_str(), "cut in line {number}");
    }
    front.push(b'\n')?;
    Ok(())
}

/// Checks and asks a corpus that ends behind this line: where a list has to follow it is refused at the line past the end, else
/// it is one, and knows Ann from her line on.
fn expect_cut_behind(
    rt: &impl Abort,
    alloc: Global,
    front: &[u8],
    line: &str,
    next: u32,
) -> Result<(), AllocError> {
    let checked = corpus_reply(alloc, &["check"], front)?;
    let answer = corpus_reply(alloc, &["ask", "Ann", "kql", "debt"], front)?;
    if line.starts_with("item") || line.starts_with("allow") {
        let want = format!(in alloc; "3 corpus fault 602 line {next};")?;
        assert_eq!(rt; checked.as_str(), want.as_str());
        assert_eq!(rt; answer.as_str(), want.as_str());
    } else {
        assert!(rt; checked.starts_with("0 ok "), "cut before line {next}");
        let (before_bob, _) = WORKED.split_once("caller\tBob").unwrap_or(("", ""));
        let want = if front.len() < before_bob.len() {
            "1 fault 511 at 0;"
        } else {
            "0 total "
        };
        assert!(rt; answer.starts_with(want), "cut before line {next}");
    }
    Ok(())
}

#[test]
fn a_corpus_that_is_cut_is_refused_where_it_ends(rt: HostRuntime) -> Result<(), AllocError> {
    let alloc = rt.alloc();
    let mut front = Vec::new(alloc);
    let mut number: u32 = 1;
    for line in WORKED.trim_end().split('\n') {
        expect_cut_line(&rt, alloc, &mut front, line, number)?;
        number = number.saturating_add(1);
        expect_cut_behind(&rt, alloc, &front, line, number)?;
    }
    assert_eq!(rt; front.as_slice(), WORKED.as_bytes());
    Ok(())
}

#[test]
fn a_corpus_with_a_bad_byte_is_refused_at_its_line(rt: HostRuntime) -> Result<(), AllocError> {
    let alloc = rt.alloc();
    let mut number: u32 = 1;
    let mut place: usize = 0;
    for byte in WORKED.bytes() {
        let corpus = with_bad_byte(alloc, WORKED.as_bytes(), place)?;
        let given = corpus_reply(alloc, &["check"], &corpus)?;
        let want = format!(in alloc; "3 corpus fault 601 line {number};")?;
        assert_eq!(rt; given.as_str(), want.as_str(), "255 at {place}");
        place = place.saturating_add(1);
        if byte == b'\n' {
            number = number.saturating_add(1);
        }
    }
    Ok(())
}

/// The worked packet with a comment that fills it to this length.
pub fn filled_packet(alloc: Global, length: usize) -> Result<String, AllocError> {
    let (front, rest) = SENT.split_once(" <Query ").unwrap_or(("", ""));
    let room = length.saturating_sub(SENT.len()).saturating_sub(7);
    let comment = "x".repeat(alloc, room)?;
    format!(in alloc; "{front}<!--{comment}--> <Query {rest}")
}

#[test]
fn a_packet_that_a_comment_fills_is_answered(rt: HostRuntime) -> Result<(), AllocError> {
    let alloc = rt.alloc();
    for (length, want) in [(131_072, ANSWERED), (131_073, "8 ")] {
        let packet = filled_packet(alloc, length)?;
        assert_eq!(rt; packet.len(), length);
        let given = packet_reply(alloc, packet.as_bytes())?;
        assert_eq!(rt; given.as_str(), want);
    }
    Ok(())
}

/// Texts of 20,480 and of 20,481 bytes of one kind, and chains of NEAR without operands and past the limit.
const OF_ONE_KIND: &str = "\
ask Ann kql|{20481*(}|1 fault 101 at 20480;\n\
ask Ann kql|{20480*)}|1 fault 105 at 0;\n\
ask Ann kql|{20479*\"}|1 fault 103 at 20478;\n\
ask Ann kql|{20480*\"}|1 fault 102 at 0;\n\
ask Ann kql|{20481*\"}|1 fault 101 at 20480;\n\
ask Ann kql|{20480*+}|1 fault 102 at 0;\n\
ask Ann kql|{20480*-}|1 fault 102 at 0;\n\
ask Ann kql|{20481*-}|1 fault 101 at 20480;\n\
ask Ann kql|{20480**}|1 fault 112 at 0;\n\
ask Ann kql|{20481**}|1 fault 101 at 20480;\n\
ask Ann kql|{10240*a }a|1 fault 101 at 20480;\n\
ask Ann kql|{4096*NEAR }|1 fault 104 at 0;\n\
ask Ann kql|{5000*a NEAR }a|1 fault 101 at 20480;\n\
ask Ann fql|{20481*(}|1 fault 201 at 20480;\n\
ask Ann fql|{20480*)}|1 fault 205 at 0;\n\
ask Ann fql|{20480*,}|1 fault 205 at 0;\n\
ask Ann fql|{20480*\"}|1 fault 208 at 2;\n\
ask Ann fql|{20481*\"}|1 fault 201 at 20480;\n\
ask Ann fql|{20480*+}|1 fault 307 at 0;\n\
ask Ann fql|{20480*-}|1 fault 307 at 0;\n\
ask Ann fql|{20480**}|1 fault 212 at 0;\n\
ask Ann fql|{20481**}|1 fault 201 at 20480;";

#[test]
fn texts_of_one_kind_are_refused_at_their_first_fault(rt: HostRuntime) -> Result<(), AllocError> {
    expect_rows(&rt, rt.alloc(), OF_ONE_KIND)
}

/// The deepest trees by levels, the widest, and chains, which nest as deep as they are long: here as long as the stack of a
/// build with checks allows.
const DEEPEST: &str = "\
ask Ann kql|{1000*a ONEAR }a|0 total 0;\n\
ask Ann kql|{500*debt NEAR }debt|0 total 1;item 2 score 20;\n\
ask Ann kql|{500*debt XRANK(cb=1) }debt|0 total 1;item 2 score 520;\n\
ask Ann kql|{64*-(}debt{64*)}|0 total 1;item 2 score 20;\n\
ask Ann kql|{64*(a OR }debt{64*)}|0 total 1;item 2 score 20;\n\
ask Ann fql|{64*not(}debt{64*)}|0 total 1;item 2 score 20;\n\
ask Ann fql|{64*near(debt,}debt{64*)}|0 total 1;item 2 score 20;\n\
ask Ann fql|{64*xrank(}debt{64*,debt,cb=1)}|0 total 1;item 2 score 84;\n\
ask Ann fql|and({10236*a,}a)|0 total 0;\n\
ask Ann fql|near({10235*a,}a)|0 total 0;\n\
ask Ann fql|near({4094*debt,}debt)|0 total 1;item 2 score 20;";

#[test]
fn the_deepest_texts_are_answered(rt: HostRuntime) -> Result<(), AllocError> {
    expect_rows(&rt, rt.alloc(), DEEPEST)
}

#[test]
fn a_long_chain_is_lowered(rt: HostRuntime) -> Result<(), AllocError> {
    let alloc = rt.alloc();
    let given = asked(alloc, "lower", Some("{1000*a ONEAR }a"), "worked", "")?;
    let mut want = spelled(
        alloc,
        "0 {1000*onear(}string(\"a\"){1000*,string(\"a\"),N=8)}",
    )?;
    want.push(';')?;
    assert_eq!(rt; given.as_str(), want.as_str());
    Ok(())
}
