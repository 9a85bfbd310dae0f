//! The program, asked in rows of text: `WORDS|WANT`, `WORDS|TEXT|WANT`, `WORDS|FRONT|REST|WANT` or `WORDS|TEXT|FRONT|REST|WANT`.
//!
//! WORDS are words between blanks, and TEXT is one more word behind them. The corpus is the worked one where
//! the row names no other: it is FRONT, the name of a corpus, and then REST; or, where FRONT is no such name,
//! the worked corpus with REST in the place of the text FRONT. WANT is the status and what is written. In each
//! text `;` ends a line, and `{3*x}` is x three times, with the number of its repetition, from 0, in the place
//! of a `#`; in a corpus `~` is the byte 255, which no text of UTF-8 has, and `^` the byte 195, which stands
//! before no TAB there.

mod corpora;
mod failing;
mod fixed;
mod fql;
mod hostile;
mod kql;
mod packets;
mod served;
mod words;

use corpora::{EDGES, GUARDED, HEAD, ITEM, WORKED};
use sq_base::{MemPorts, MemSink, MemSource, Ports, Sink, Source};
use sq_run::run;
use sq_service::Services;
use std::alloc::{AllocError, Global};
use std::process::Abort;

/// 2024-02-29T12:00:00Z.
const MOMENT: i64 = 1_709_208_000;

/// The status of a run of these words.
fn status_of<S: Source, I: Source, K: Sink, P: Ports>(
    alloc: Global,
    words: &[&str],
    corpus: &mut S,
    input: &mut I,
    out: &mut K,
    ports: &mut P,
) -> u8 {
    run(alloc, &Services, words, MOMENT, corpus, input, out, ports)
}

/// Ports at which nothing waits.
fn no_ports(alloc: Global) -> Result<MemPorts, AllocError> {
    MemPorts::new(alloc, Vec::new(alloc), Vec::new(alloc))
}

/// The status of a run and what it writes, as rows have it, where the writes of these numbers fail.
fn reply<S: Source, I: Source>(
    alloc: Global,
    words: &[&str],
    corpus: &mut S,
    input: &mut I,
    failing: Vec<u32>,
) -> Result<String, AllocError> {
    let mut out = MemSink::new(alloc, 100_000, failing)?;
    let mut ports = no_ports(alloc)?;
    let status = status_of(alloc, words, corpus, input, &mut out, &mut ports);
    let text = String::from_utf8_lossy(alloc, out.bytes())?;
    let text = text.replace(alloc, '\n', ";")?;
    format!(in alloc; "{status} {text}")
}

/// The bytes of a corpus text, which come in small pieces at first.
fn source_of(alloc: Global, text: &str, failing: Vec<u32>) -> Result<MemSource, AllocError> {
    let mut bytes = Vec::with_capacity(alloc, text.len())?;
    for byte in text.bytes() {
        bytes.push(match byte {
            b'~' => 255,
            b'^' => 195,
            byte => byte,
        })?;
    }
    source_of_bytes(alloc, bytes, failing)
}

/// These bytes, which come in small pieces at first.
fn source_of_bytes(
    alloc: Global,
    bytes: Vec<u8>,
    failing: Vec<u32>,
) -> Result<MemSource, AllocError> {
    Ok(MemSource {
        bytes,
        pieces: Vec::from_slice(alloc, &[3, 1, 2])?,
        failing,
        calls: 0,
        faults: 0,
    })
}

/// Adds a piece so many times.
fn repeat(alloc: Global, text: &mut String, piece: &str, times: u32) -> Result<(), AllocError> {
    for number in 0..times {
        match piece.split_once('#') {
            Some((front, behind)) => {
                text.push_str(&format!(in alloc; "{front}{number}{behind}")?)?
            }
            None => text.push_str(piece)?,
        }
    }
    Ok(())
}

/// What a row spells.
fn spelled(alloc: Global, text: &str) -> Result<String, AllocError> {
    let mut spelled = String::new(alloc);
    for part in text.split('{') {
        let (repeated, rest) = part.split_once('}').unwrap_or(("", part));
        let (times, piece) = repeated.split_once('*').unwrap_or(("", ""));
        repeat(alloc, &mut spelled, piece, times.parse().unwrap_or(0))?;
        spelled.push_str(rest)?;
    }
    spelled.replace(alloc, ';', "\n")
}

/// The corpus of a front and a rest.
fn corpus_of(alloc: Global, front: &str, rest: &str) -> Result<String, AllocError> {
    match front {
        "" => format!(in alloc; "{rest}"),
        "worked" => format!(in alloc; "{WORKED}{rest}"),
        "head" => format!(in alloc; "{HEAD}{rest}"),
        "item" => format!(in alloc; "{HEAD}{ITEM}{rest}"),
        "edges" => format!(in alloc; "{EDGES}{rest}"),
        "guarded" => format!(in alloc; "{GUARDED}{rest}"),
        old => WORKED.replace(alloc, old, rest),
    }
}

/// The reply to words, and to a text behind them, over a corpus.
fn asked(
    alloc: Global,
    head: &str,
    text: Option<&str>,
    front: &str,
    rest: &str,
) -> Result<String, AllocError> {
    let text_word = spelled(alloc, text.unwrap_or(""))?;
    let mut words = Vec::new(alloc);
    for word in head.split_whitespace() {
        words.push(word)?;
    }
    if text.is_some() {
        words.push(text_word.as_str())?;
    }
    let front = spelled(alloc, front)?;
    let rest = spelled(alloc, rest)?;
    let corpus = corpus_of(alloc, &front, &rest)?;
    let mut source = source_of(alloc, &corpus, Vec::new(alloc))?;
    let mut input = source_of(alloc, "", Vec::new(alloc))?;
    reply(alloc, &words, &mut source, &mut input, Vec::new(alloc))
}

/// The reply to a row, and what it has to be.
fn answered<'a>(alloc: Global, row: &'a str) -> Result<(String, &'a str), AllocError> {
    let mut fields = Vec::new(alloc);
    for field in row.split('|') {
        fields.push(field)?;
    }
    match fields.as_slice() {
        [head, want] => Ok((asked(alloc, head, None, "worked", "")?, want)),
        [head, text, want] => Ok((asked(alloc, head, Some(text), "worked", "")?, want)),
        [head, front, rest, want] => Ok((asked(alloc, head, None, front, rest)?, want)),
        [head, text, front, rest, want] => {
            Ok((asked(alloc, head, Some(text), front, rest)?, want))
        }
        _ => Ok((String::new(alloc), "a row of two to five fields")),
    }
}

/// Asks each row of a table.
fn expect_rows(rt: &impl Abort, alloc: Global, table: &str) -> Result<(), AllocError> {
    for row in table.split('\n') {
        let (given, want) = answered(alloc, row)?;
        assert_eq!(rt; given.as_str(), want, "at {row}");
    }
    Ok(())
}

#[test]
fn kql_texts_find_their_hits(rt: HostRuntime) -> Result<(), AllocError> {
    expect_rows(&rt, rt.alloc(), kql::ASKED)
}

#[test]
fn kql_texts_are_lowered_or_refused_at_their_first_fault(
    rt: HostRuntime,
) -> Result<(), AllocError> {
    expect_rows(&rt, rt.alloc(), kql::LOWERED)
}

#[test]
fn fql_texts_find_their_hits_or_are_refused_at_their_first_fault(
    rt: HostRuntime,
) -> Result<(), AllocError> {
    expect_rows(&rt, rt.alloc(), fql::ASKED)
}

#[test]
fn other_words_and_corpora_have_their_status_and_text(rt: HostRuntime) -> Result<(), AllocError> {
    expect_rows(&rt, rt.alloc(), words::NO_COMMANDS)?;
    expect_rows(&rt, rt.alloc(), words::OTHER_CORPORA)
}

#[test]
fn a_corpus_is_read_or_its_first_fault_is_told(rt: HostRuntime) -> Result<(), AllocError> {
    expect_rows(&rt, rt.alloc(), words::CHECKED)?;
    expect_rows(&rt, rt.alloc(), words::LIMITS)
}

#[test]
fn a_made_corpus_is_rehearsed(rt: HostRuntime) -> Result<(), AllocError> {
    expect_rows(&rt, rt.alloc(), words::REHEARSED)
}
