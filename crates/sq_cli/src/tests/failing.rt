//! Objects of the outside that fail, and texts that are too long.
ghost use Rattle.std.specs.Prelude.{None, ◌<◌, ◌≤◌};

use super::corpora::WORKED;
use super::packets::packet_of;
use super::{no_ports, reply, source_of, status_of};
use sq_base::{Failed, Sink, Source};
use sq_outside::{Reading, Writing};
use std::alloc::{AllocError, Global};
use std::fs::File;
use std::process::Abort;
use std::test::Fail;

/// So many bytes, made as they are read.
#[derive(Drop)]
struct Made {
    left: u64,
}

impl Source for Made {
    ghost left = { λ _. None };

    ghost faults = { λ _. 0 };

    fn read(&mut self, into: &mut [u8]) -> Result<usize, Failed> {
        let count = (into.len() as u64).min(self.left);
        self.left -= count;
        Ok(count as usize)
    }
}

/// The reply of `packet Ann`, of which the reads of these numbers fail.
fn packet_reply(
    alloc: Global,
    corpus_fails: &[u32],
    input_fails: &[u32],
    out_fails: &[u32],
) -> Result<String, AllocError> {
    let packet = packet_of(alloc, "", "debt", "")?;
    let mut corpus = source_of(alloc, WORKED, Vec::from_slice(alloc, corpus_fails)?)?;
    let mut input = source_of(alloc, &packet, Vec::from_slice(alloc, input_fails)?)?;
    reply(
        alloc,
        &["packet", "Ann"],
        &mut corpus,
        &mut input,
        Vec::from_slice(alloc, out_fails)?,
    )
}

/// What fails.
#[derive(Clone, Copy, Debug)]
enum Object {
    Corpus,
    Input,
    Output,
}

/// The reply of `packet Ann` where this call of an object fails.
fn reply_failing(alloc: Global, object: Object, call: u32) -> Result<String, AllocError> {
    match object {
        Object::Corpus => packet_reply(alloc, &[call], &[], &[]),
        Object::Input => packet_reply(alloc, &[], &[call], &[]),
        Object::Output => packet_reply(alloc, &[], &[], &[call]),
    }
}

/// How many calls of an object can fail, one in each run: each of these runs has the status that is wanted, and writes nothing.
fn failures(rt: &impl Abort, alloc: Global, object: Object, want: &str) -> Result<u32, AllocError> {
    let whole = packet_reply(alloc, &[], &[], &[])?;
    assert!(rt; whole.starts_with("0 <?xml"));
    for call in 0..10 {
        let given = reply_failing(alloc, object, call)?;
        if given.as_str() == whole.as_str() {
            return Ok(call);
        }
        assert_eq!(rt; given.as_str(), want, "{object:?}, call {call}");
    }
    Ok(10)
}

/// A source gives three bytes, one, two, the rest and its end; the output takes all at once.
#[test]
fn each_failed_read_or_write_is_told(rt: HostRuntime) -> Result<(), AllocError> {
    let alloc = rt.alloc();
    assert_eq!(rt; failures(&rt, alloc, Object::Corpus, "4 ")?, 5);
    assert_eq!(rt; failures(&rt, alloc, Object::Input, "4 ")?, 5);
    assert_eq!(rt; failures(&rt, alloc, Object::Output, "5 ")?, 1);
    Ok(())
}

/// How much of so many bytes is taken at once: at most 100.
fn taken(length: usize) -> usize
    ensures within { result ≤ length }
    ensures some { 0 < length → 0 < result }
{
    if length < 100 { length } else { 100 }
}

/// A sink that takes at most 100 bytes at once, and fails at one call.
#[derive(Drop)]
struct Narrow {
    bytes: Vec<u8>,
    fails_at: u32,
    calls: u32,
    faults: u64,
}

impl Sink for Narrow {
    ghost sent = { λ _. None };

    ghost faults = { λ sink. sink.faults };

    fn write(&mut self, from: &[u8]) -> Result<usize, Failed> {
        let call = self.calls;
        self.calls = call.saturating_add(1);
        let count = taken(from.len());
        if call != self.fails_at && self.bytes.extend_from_slice(&from[..count]).is_ok() {
            return Ok(count);
        }
        self.faults = self.faults.saturating_add(1);
        Err(Failed)
    }
}

/// The status of `packet Ann` and what was sent, where this write fails.
fn sent_before(alloc: Global, fails_at: u32) -> Result<(u8, Vec<u8>), AllocError> {
    let packet = packet_of(alloc, "", "debt", "")?;
    let mut corpus = source_of(alloc, WORKED, Vec::new(alloc))?;
    let mut input = source_of(alloc, &packet, Vec::new(alloc))?;
    let mut out = Narrow {
        bytes: Vec::new(alloc),
        fails_at,
        calls: 0,
        faults: 0,
    };
    let mut ports = no_ports(alloc)?;
    let words = ["packet", "Ann"];
    let status = status_of(alloc, &words, &mut corpus, &mut input, &mut out, &mut ports);
    Ok((status, out.bytes))
}

/// At each write in turn, until none fails.
#[test]
fn what_is_sent_before_a_failed_write_is_a_front_part(rt: HostRuntime) -> Result<(), AllocError> {
    let alloc = rt.alloc();
    let (_, whole) = sent_before(alloc, u32::MAX)?;
    assert!(rt; whole.starts_with(b"<?xml"));
    let mut finished = false;
    for call in 0..20 {
        let (status, sent) = sent_before(alloc, call)?;
        finished = sent.len() == whole.len();
        assert_eq!(rt; status, if finished { 0 } else { 5 }, "write {call}");
        assert!(rt; whole.starts_with(&sent), "write {call}");
    }
    assert!(rt; finished);
    Ok(())
}

/// The status of words over a corpus and an input of so many bytes.
fn length_status(
    alloc: Global,
    words: &[&str],
    corpus: &str,
    input: u64,
) -> Result<String, AllocError> {
    let mut source = source_of(alloc, corpus, Vec::new(alloc))?;
    let mut input = Made { left: input };
    reply(alloc, words, &mut source, &mut input, Vec::new(alloc))
}

#[test]
fn texts_that_are_too_long_are_told(rt: HostRuntime) -> Result<(), AllocError> {
    let alloc = rt.alloc();
    let mut corpus = Made { left: 67_108_865 };
    let mut input = Made { left: 0 };
    let given = reply(alloc, &["check"], &mut corpus, &mut input, Vec::new(alloc))?;
    assert_eq!(rt; given.as_str(), "8 ");
    let packet = ["packet", "Ann"];
    assert_eq!(rt;
        length_status(alloc, &packet, WORKED, 131_073)?.as_str(),
        "8 "
    );
    assert!(rt; length_status(alloc, &packet, WORKED, 131_072)?.starts_with("1 <?xml"));
    Ok(())
}

#[test]
fn a_file_is_read_and_a_missing_one_is_a_failed_read(rt: HostRuntime) -> Result<(), Fail> {
    let alloc = rt.alloc();
    let mut corpus = Reading::new(File::open(&rt, "corpus.sq").ok());
    let mut input = Made { left: 0 };
    let mut out = Writing::new(Vec::new(alloc));
    let mut ports = no_ports(alloc)?;
    let status = status_of(
        alloc,
        &["check"],
        &mut corpus,
        &mut input,
        &mut out,
        &mut ports,
    );
    assert_eq!(rt; status, 4);
    std::fs::write(&rt, "corpus.sq", WORKED)?;
    let mut corpus = Reading::new(File::open(&rt, "corpus.sq").ok());
    let status = status_of(
        alloc,
        &["check"],
        &mut corpus,
        &mut input,
        &mut out,
        &mut ports,
    );
    assert_eq!(rt; status, 0);
    Ok(())
}
