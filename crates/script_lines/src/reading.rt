//! A line from its words.
ghost use Rattle.std.specs.Prelude.{◌≡◌, ◌∷◌};
ghost use Rattle.std.specs.List.{list_any};
ghost use Rattle.script_words.specs.Reasons.{Reads};
ghost use Rattle.script_lines.specs.Table.{texts, is_empty, is_later_word as spec_is_later_word, begins_later as spec_begins_later, line_said};

use crate::forms::{begin_line, is_later, plain_line, says, word_named};
use crate::lines::Line;
use ckpt_types::FirstWord;
use script_words::{LineError, Reason};
use std::alloc::Global;

/// The line that the words say, or its first fault.
pub fn read_line(alloc: Global, words: &[&[u8]]) -> Result<Line, LineError>
    ensures { Reads result (line_said (texts words.now)) }
{
    let [first, rest @ ..] = words else {
        return Err(LineError::Fault(Reason::Word));
    };
    line_from(alloc, first, rest)
}

// The line that the first word and those behind it say.
#[tactic(auto, unfolding(crate::specs::Table::line_said))]
fn line_from(alloc: Global, first: &[u8], rest: &[&[u8]]) -> Result<Line, LineError>
    ensures { Reads result (line_said (first.now ∷ texts rest.now)) }
{
    if says(first, b"begin") {
        if begins_later(rest) {
            return Err(LineError::Fault(Reason::NotBuilt));
        }
        if has_empty(first, rest) {
            return Err(LineError::Fault(Reason::Word));
        }
        return begin_line(alloc, rest);
    }
    let word = word_named(first);
    if is_later_word(word) {
        return Err(LineError::Fault(Reason::NotBuilt));
    }
    if has_empty(first, rest) {
        return Err(LineError::Fault(Reason::Word));
    }
    plain_line(alloc, word, rest)
}

// Whether the lines of this first word are not built yet.
fn is_later_word(word: Option<FirstWord>) -> bool
    ensures { result ≡ spec_is_later_word word }
{
    match word {
        Some(word) => is_later(word),
        None => false,
    }
}

// Whether the lines of the first of these words, which stand behind `begin`, are not built yet.
fn begins_later(words: &[&[u8]]) -> bool
    ensures { result ≡ spec_begins_later (texts words.now) }
{
    match words {
        [] => false,
        [first, ..] => is_later_word(word_named(first)),
    }
}

// Whether two spaces meet, or one stands at an end.
#[tactic(auto, using(crate::proofs::Texts::any_texts))]
fn has_empty(first: &[u8], rest: &[&[u8]]) -> bool
    ensures { result ≡ list_any is_empty (first.now ∷ texts rest.now) }
{
    if first.is_empty() {
        return true;
    }
    has_empty_behind(rest)
}

fn has_empty_behind(words: &[&[u8]]) -> bool
    ensures { result ≡ list_any (λ w. is_empty w.now) words.now }
{
    words.iter().any(|word| word.is_empty())
}
