//! The program: it reads the corpus from the file `corpus.sq` in the current folder, and does what its
//! words ask.
#![tactic(auto)]

mod telling;

use sq_outside::{ADDRESS, Listening, Reading, Writing, seconds_now};
use sq_run::run;
use std::alloc::AllocError;
use std::fs::File;
use std::process::ExitCode;
use std::{env, io};
use telling::Telling;

/// The words behind the program's name. None where they can't be read as text, which is no command.
fn words_of(rt: &HostRuntime) -> Result<Vec<String>, AllocError> {
    let mut words = Vec::new(rt.alloc());
    match env::args(rt) {
        Ok(args) => {
            for word in args.skip(1) {
                words.push(word)?;
            }
        }
        Err(error) => {
            // Words that there was no memory for aren't known to be no command.
            if error.kind() == io::ErrorKind::OutOfMemory {
                return Err(AllocError);
            }
        }
    }
    Ok(words)
}

/// Whether the first word is that of serving.
fn asks_to_serve(words: &[&str]) -> bool {
    match words {
        [first, ..] => *first == "serve",
        [] => false,
    }
}

fn status_of(rt: &HostRuntime) -> Result<u8, AllocError> {
    let owned = words_of(rt)?;
    let mut words = Vec::new(rt.alloc());
    for word in &owned {
        words.push(word.as_str())?;
    }
    let loader = Telling::new(rt, asks_to_serve(&words));
    let mut corpus = Reading::new(File::open(rt, "corpus.sq").ok());
    let mut input = Reading::new(Some(rt.reader()));
    let mut out = Writing::new(io::writer(rt));
    let mut ports = Listening::new(rt, ADDRESS);
    Ok(run(
        rt.alloc(),
        &loader,
        &words,
        seconds_now(rt),
        &mut corpus,
        &mut input,
        &mut out,
        &mut ports,
    ))
}

/// Says on standard error why there is no answer, where standard output says nothing of it.
fn explain(rt: &HostRuntime, status: u8) {
    let reason = match status {
        2 => {
            "usage: check | ask CALLER kql TEXT | ask CALLER fql TEXT | lower TEXT | packet CALLER | serve COUNT | rehearse N"
        }
        4 => "corpus.sq or standard input can't be read",
        5 => "the answer can't be written",
        6 => "no connection can be accepted on 127.0.0.1:8971",
        7 => "out of memory",
        8 => "corpus.sq has more than 67,108,864 bytes, or the packet more than 131,072",
        _ => return,
    };
    let _ = rt.eprintln(reason);
}

fn main(rt: HostRuntime) -> ExitCode {
    let status = status_of(&rt).unwrap_or(7);
    explain(&rt, status);
    ExitCode::from(status)
}

#[cfg(test)]
mod tests;
