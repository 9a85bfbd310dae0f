//! The words of the command line.
ghost use Rattle.std.specs.Prelude.{◌≡◌, ◌≤◌, map, MatchOption, IfSome, None, Some};
ghost use Rattle.sq_run.specs.Command as spec;

use sq_packet::Language;

/// What is done with a corpus.
#[derive(Clone, Copy, Debug)]
pub enum Task<'a> {
    /// Whether the corpus is one, and how much it has.
    Check,
    /// A query of a caller.
    Ask {
        caller: &'a str,
        language: Language,
        text: &'a str,
    },
    /// The FQL text of a KQL text.
    Lower {
        text: &'a str,
    },
    /// The input is a packet of a caller.
    Packet {
        caller: &'a str,
    },
}

/// What the words ask for.
#[derive(Clone, Copy, Debug)]
pub enum Command<'a> {
    /// Something is done with the corpus.
    Over(Task<'a>),
    /// So many connections are served over the corpus.
    Serve { count: u32 },
    /// A corpus of so many items is made and asked.
    Rehearse { count: u32 },
}

/// How many connections are served at most.
const MOST_SERVED: u32 = 1_000_000;

/// Of how many items the corpus of a rehearsal is at most.
const MOST_REHEARSED: u32 = 2_000;

fn language_of(word: &str) -> Option<Language>
    ensures { result ≡ spec.language_of word.now }
{
    if word == "kql" {
        Some(Language::Kql)
    } else if word == "fql" {
        Some(Language::Fql)
    } else {
        None
    }
}

/// The number from 1 to `most` that a word writes in digits, without a sign or a leading zero.
fn count_to(most: u32, word: &str) -> Option<u32>
    ensures bounds { IfSome result (λ count. (1 ≤ count) × (count ≤ most)) }
    ensures value { result ≡ spec.count_to most word.now }
{
    let [first, ..] = word.as_bytes() else {
        return None;
    };
    if *first < b'1' || *first > b'9' {
        return None;
    }
    match word.parse::<u32>() {
        Ok(count) if count <= most => Some(count),
        _ => None,
    }
}

#[tactic(auto, unfolding(crate::specs::Command::plain, crate::specs::Command::work_of))]
fn ask_of<'a>(caller: &'a str, language: &str, text: &'a str) -> Option<Command<'a>>
    ensures bounds { IfSome result (λ command. spec.IsInBounds (spec.plain command)) }
    ensures value { MatchOption result (spec.asking caller.now (spec.language_of language.now) text.now ≡ None)
        (λ command. spec.asking caller.now (spec.language_of language.now) text.now ≡ Some (spec.plain command)) }
{
    match language_of(language) {
        Some(language) => Some(Command::Over(Task::Ask {
            caller,
            language,
            text,
        })),
        None => None,
    }
}

#[tactic(auto, unfolding(crate::specs::Command::plain))]
fn serve_of<'a>(word: &'a str) -> Option<Command<'a>>
    ensures bounds { IfSome result (λ command. spec.IsInBounds (spec.plain command)) }
    ensures value { MatchOption result (spec.serving_of word.now ≡ None) (λ command. spec.serving_of word.now ≡ Some (spec.plain command)) }
{
    match count_to(MOST_SERVED, word) {
        Some(count) => Some(Command::Serve { count }),
        None => None,
    }
}

#[tactic(auto, unfolding(crate::specs::Command::plain))]
fn rehearse_of<'a>(word: &'a str) -> Option<Command<'a>>
    ensures bounds { IfSome result (λ command. spec.IsInBounds (spec.plain command)) }
    ensures value { MatchOption result (spec.rehearsing_of word.now ≡ None) (λ command. spec.rehearsing_of word.now ≡ Some (spec.plain command)) }
{
    match count_to(MOST_REHEARSED, word) {
        Some(count) => Some(Command::Rehearse { count }),
        None => None,
    }
}

#[tactic(auto, unfolding(crate::specs::Command::plain, crate::specs::Command::work_of))]
fn two_words<'a>(word: &str, text: &'a str) -> Option<Command<'a>>
    ensures bounds { IfSome result (λ command. spec.IsInBounds (spec.plain command)) }
    ensures value { MatchOption result (spec.order_of_two word.now text.now ≡ None) (λ command. spec.order_of_two word.now text.now ≡ Some (spec.plain command)) }
{
    if word == "lower" {
        Some(Command::Over(Task::Lower { text }))
    } else if word == "packet" {
        Some(Command::Over(Task::Packet { caller: text }))
    } else if word == "serve" {
        serve_of(text)
    } else if word == "rehearse" {
        rehearse_of(text)
    } else {
        None
    }
}

#[tactic(auto, unfolding(crate::specs::Command::plain, crate::specs::Command::work_of))]
fn one_word<'a>(word: &str) -> Option<Command<'a>>
    ensures bounds { IfSome result (λ command. spec.IsInBounds (spec.plain command)) }
    ensures value { MatchOption result (spec.order_of_one word.now ≡ None) (λ command. spec.order_of_one word.now ≡ Some (spec.plain command)) }
{
    if word == "check" {
        Some(Command::Over(Task::Check))
    } else {
        None
    }
}

#[tactic(auto, unfolding(crate::specs::Command::plain))]
fn four_words<'a>(word: &str, caller: &'a str, language: &str, text: &'a str) -> Option<Command<'a>>
    ensures bounds { IfSome result (λ command. spec.IsInBounds (spec.plain command)) }
    ensures value { MatchOption result (spec.order_of_four word.now caller.now language.now text.now ≡ None)
        (λ command. spec.order_of_four word.now caller.now language.now text.now ≡ Some (spec.plain command)) }
{
    if word == "ask" {
        ask_of(caller, language, text)
    } else {
        None
    }
}

/// Reads the words, whole. `None` where they are no command.
pub fn command_of<'a>(words: &[&'a str]) -> Option<Command<'a>>
    ensures bounds { IfSome result (λ command. spec.IsInBounds (spec.plain command)) }
    ensures value { MatchOption result (spec.order_of (map (λ word. word.now) words.now) ≡ None)
        (λ command. spec.order_of (map (λ word. word.now) words.now) ≡ Some (spec.plain command)) }
{
    match words {
        [word] => one_word(word),
        [word, text] => two_words(word, text),
        [word, caller, language, text] => four_words(word, caller, language, text),
        _ => None,
    }
}
