ghost use Rattle.std.specs.Prelude.{◌≡◌, ◌≤◌, true, length, IfOk};
ghost use Rattle.std.specs.List.{list_all};
ghost use Rattle.sq_base.specs.Limits.{most_corpus_bytes};
ghost use Rattle.sq_model.specs.Valid.{IsValid, has_short_texts};
ghost use Rattle.sq_corpus.specs.CorpusText as spec;
ghost use Rattle.sq_corpus.specs.Keeps.{IsKept};
ghost use Rattle.sq_corpus.specs.Reads as reads;

use crate::CorpusFault;
use crate::fault::Refusal;
use crate::laws::spelled_corpora_are_valid;
use crate::pieces::first_line;
use crate::reader::Reader;
use sq_model::{Corpus, valid_texts_are_short};
use std::alloc::Global;

fn code_of_rest(rest: &[u8]) -> u16
    ensures { result ≡ spec.code_of_rest rest.now }
{
    match str::from_utf8(rest) {
        Ok(_) => 602,
        Err(_) => 601,
    }
}

fn fault_at(refusal: Refusal, line: u32) -> CorpusFault
    ensures { result ≡ reads.fault_at refusal line }
{
    match refusal {
        Refusal::Code(code) => CorpusFault::Line { code, line },
        Refusal::Memory => CorpusFault::NoMemory,
    }
}

fn end_of(alloc: Global, reader: Reader, line: u32, rest: &[u8]) -> Result<Corpus, CorpusFault>
    requires { IsKept reader }
    ensures { reads.IsAnswer (spec.at_end line reader.before rest.now) result }
{
    match rest {
        [] => {
            if reader.may_end() {
                match reader.into_corpus(alloc) {
                    Ok(corpus) => Ok(corpus),
                    Err(_) => Err(CorpusFault::NoMemory),
                }
            } else {
                Err(CorpusFault::Line { code: 602, line })
            }
        }
        _ => Err(CorpusFault::Line {
            code: code_of_rest(rest),
            line,
        }),
    }
}

/// The corpus that a text spells. Else the first faulty line, and the lowest code there:
///
/// | Code | Where |
/// |---|---|
/// | 601 | the line isn't UTF-8 |
/// | 602 | it isn't of its form, or may not stand there, or the text ends too early |
/// | 603 | a number is bad or out of its range |
/// | 604 | the property is unknown |
/// | 605 | a property's or a caller's name, or the value of a property that isn't multi, is there already |
/// | 606 | an item's number isn't above the one before |
/// | 607 | a bad escape, date, yes-no value, name or claim, or a character that XML doesn't have |
/// | 608 | there are too many of them |
#[tactic(auto, unfolding(crate::specs::CorpusText::corpus_of))]
pub fn read_corpus(alloc: Global, bytes: &[u8]) -> Result<Corpus, CorpusFault>
    requires { length bytes.now ≤ most_corpus_bytes }
    ensures reads { reads.Reads bytes.now result }
    ensures valid { IfOk result IsValid }
    ensures short { IfOk result (λ corpus. list_all has_short_texts corpus.items ≡ true) }
{
    spelled_corpora_are_valid();
    valid_texts_are_short();
    let mut reader = Reader::new(alloc);
    let mut rest = bytes;
    let mut number = 1u32;
    while let Some((line, behind)) = first_line(rest) {
        match reader.take_line(alloc, line) {
            Ok(()) => {
                rest = behind;
                number += 1;
            }
            Err(refusal) => return Err(fault_at(refusal, number)),
        }
    }
    end_of(alloc, reader, number, rest)
}
