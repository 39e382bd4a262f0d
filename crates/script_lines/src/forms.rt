//! The form of a line by its first word, and which forms are not built yet.
ghost use Rattle.std.specs.Prelude.{◌≡◌, bytes_eq};
ghost use Rattle.ckpt_types.specs.declared.words.FirstWord.TheVariants as first;
ghost use Rattle.script_words.specs.Reasons.{Reads};
ghost use Rattle.script_lines.specs.Table.{texts, first_word_of, word_of_first, word_of_second, word_of_third, is_later as spec_is_later, may_begin as spec_may_begin, only_begun as spec_begun, said_by, plain_by, begun_by, begin};

use crate::call_shapes::{HandleCall, IterationCall, TimedCall};
use crate::lines::Line;
use crate::{call_forms, line_forms};
use ckpt_types::{ActorName, FirstWord, Op, OpWord};
use script_words::{LineError, Reason};
use std::alloc::Global;

/// The line that a first word and the words behind it say.
pub fn plain_line(
    alloc: Global,
    word: Option<FirstWord>,
    words: &[&[u8]],
) -> Result<Line, LineError>
    ensures { Reads result (plain_by word (texts words.now)) }
{
    match word {
        Some(word) => line_named(alloc, word, words),
        None => Err(LineError::Fault(Reason::Word)),
    }
}

/// The line that the words behind `begin` say.
pub fn begin_line(alloc: Global, words: &[&[u8]]) -> Result<Line, LineError>
    ensures { Reads result (begin (texts words.now)) }
{
    let [first, rest @ ..] = words else {
        return Err(LineError::Fault(Reason::Count));
    };
    begun_line(alloc, word_named(first), rest)
}

fn begun_line(alloc: Global, word: Option<FirstWord>, words: &[&[u8]]) -> Result<Line, LineError>
    ensures { Reads result (begun_by word (texts words.now)) }
{
    let Some(word) = word else {
        return Err(LineError::Fault(Reason::Word));
    };
    if !may_begin(word) {
        return Err(LineError::Fault(Reason::Word));
    }
    let line = line_named(alloc, word, words)?;
    Ok(begun(line))
}

// What may stand behind `begin`: a call or a copying.
fn may_begin(word: FirstWord) -> bool
    ensures { result ≡ spec_may_begin word }
{
    matches!(word, FirstWord::Op(_))
}

// The same line, begun and not stepped.
fn begun(line: Line) -> Line
    ensures { result ≡ spec_begun line }
{
    match line {
        Line::Call(client, op) => Line::Begin(ActorName::Client(client), op),
        Line::Copy(node) => Line::Begin(ActorName::Node(node), Op::Copy),
        other => other,
    }
}

// The line of this form that the words behind its first say.
fn line_named(alloc: Global, word: FirstWord, words: &[&[u8]]) -> Result<Line, LineError>
    ensures { Reads result (said_by word (texts words.now)) }
{
    match word {
        FirstWord::Op(call) => call_named(alloc, call, words),
        FirstWord::Nodes => line_forms::nodes_line(words),
        FirstWord::Step => line_forms::step_line(words),
        FirstWord::Finish => line_forms::finish_line(words),
        FirstWord::Fail => line_forms::fail_line(words),
        FirstWord::Join => line_forms::join_line(words),
        FirstWord::At => line_forms::at_line(words),
        FirstWord::Pull => line_forms::pull_line(words),
        FirstWord::Put => line_forms::put_line(words),
        FirstWord::Propagate => line_forms::propagate_line(words),
        FirstWord::Show => line_forms::show_line(words),
        FirstWord::Race => line_forms::race_line(words),
        FirstWord::End => line_forms::end_line(words),
    }
}

// The same of a call or a copying.
fn call_named(alloc: Global, call: OpWord, words: &[&[u8]]) -> Result<Line, LineError>
    ensures { Reads result (said_by (first.Op call) (texts words.now)) }
{
    match call {
        OpWord::Client => call_forms::client_line(words),
        OpWord::Finalize => call_forms::finalize_line(words),
        OpWord::Open => call_forms::open_line(alloc, words),
        OpWord::OpenAsync => call_forms::open_async_line(alloc, words),
        OpWord::Close => call_forms::handle_line(HandleCall::Close, words),
        OpWord::Unlink => call_forms::unlink_line(alloc, words),
        OpWord::Retain => call_forms::timed_line(TimedCall::Retain, words),
        OpWord::Active => call_forms::handle_line(HandleCall::Active, words),
        OpWord::Status => call_forms::handle_line(HandleCall::Status, words),
        OpWord::Create => call_forms::create_line(alloc, words),
        OpWord::Delete => call_forms::delete_line(alloc, words),
        OpWord::Expire => call_forms::expire_line(alloc, words),
        OpWord::Iter => call_forms::iter_line(words),
        OpWord::Next => call_forms::iteration_line(IterationCall::Next, words),
        OpWord::EndIter => call_forms::iteration_line(IterationCall::EndIter, words),
        OpWord::Write => call_forms::write_line(alloc, words),
        OpWord::Over => call_forms::over_line(alloc, words),
        OpWord::Read => call_forms::read_line(alloc, words),
        OpWord::Sync => call_forms::timed_line(TimedCall::Sync, words),
        OpWord::SyncAsync => call_forms::sync_async_line(words),
        OpWord::Dispatch => call_forms::dispatch_line(words),
        OpWord::Copy => line_forms::copy_line(words),
    }
}

/// Whether the lines of this first word are not built yet.
pub fn is_later(word: FirstWord) -> bool
    ensures { result ≡ spec_is_later word }
{
    matches!(word, FirstWord::Race | FirstWord::End)
}

/// The first word that is spelled so.
#[tactic(auto, unfolding(crate::specs::Table::first_word_of))]
pub fn word_named(text: &[u8]) -> Option<FirstWord>
    ensures { result ≡ first_word_of text.now }
{
    if let Some(word) = word_in_first(text) {
        return Some(word);
    }
    if let Some(word) = word_in_second(text) {
        return Some(word);
    }
    word_in_third(text)
}

/// Whether a text is this word. It is quick, and much quicker still for the words of another length.
#[inline(always)]
pub fn says(text: &[u8], word: &[u8]) -> bool
    ensures { result ≡ bytes_eq text.now word.now }
{
    if text.len() != word.len() {
        return false;
    }
    for i in 0..word.len() {
        if text[i] != word[i] {
            return false;
        }
    }
    true
}

// A first word of the calls that are most used.
#[tactic(auto, unfolding(crate::specs::Table::word_of_first))]
fn word_in_first(text: &[u8]) -> Option<FirstWord>
    ensures { result ≡ word_of_first text.now }
{
    if says(text, b"write") {
        Some(FirstWord::Op(OpWord::Write))
    } else if says(text, b"read") {
        Some(FirstWord::Op(OpWord::Read))
    } else if says(text, b"open") {
        Some(FirstWord::Op(OpWord::Open))
    } else if says(text, b"client") {
        Some(FirstWord::Op(OpWord::Client))
    } else if says(text, b"close") {
        Some(FirstWord::Op(OpWord::Close))
    } else if says(text, b"unlink") {
        Some(FirstWord::Op(OpWord::Unlink))
    } else if says(text, b"retain") {
        Some(FirstWord::Op(OpWord::Retain))
    } else if says(text, b"status") {
        Some(FirstWord::Op(OpWord::Status))
    } else if says(text, b"create") {
        Some(FirstWord::Op(OpWord::Create))
    } else if says(text, b"delete") {
        Some(FirstWord::Op(OpWord::Delete))
    } else if says(text, b"expire") {
        Some(FirstWord::Op(OpWord::Expire))
    } else if says(text, b"over") {
        Some(FirstWord::Op(OpWord::Over))
    } else {
        None
    }
}

// A first word of other calls, or of the lines `nodes`, `copy` and `at`.
#[tactic(auto, unfolding(crate::specs::Table::word_of_second))]
fn word_in_second(text: &[u8]) -> Option<FirstWord>
    ensures { result ≡ word_of_second text.now }
{
    if says(text, b"finalize") {
        Some(FirstWord::Op(OpWord::Finalize))
    } else if says(text, b"openasync") {
        Some(FirstWord::Op(OpWord::OpenAsync))
    } else if says(text, b"active") {
        Some(FirstWord::Op(OpWord::Active))
    } else if says(text, b"iter") {
        Some(FirstWord::Op(OpWord::Iter))
    } else if says(text, b"next") {
        Some(FirstWord::Op(OpWord::Next))
    } else if says(text, b"enditer") {
        Some(FirstWord::Op(OpWord::EndIter))
    } else if says(text, b"sync") {
        Some(FirstWord::Op(OpWord::Sync))
    } else if says(text, b"syncasync") {
        Some(FirstWord::Op(OpWord::SyncAsync))
    } else if says(text, b"dispatch") {
        Some(FirstWord::Op(OpWord::Dispatch))
    } else if says(text, b"copy") {
        Some(FirstWord::Op(OpWord::Copy))
    } else if says(text, b"nodes") {
        Some(FirstWord::Nodes)
    } else if says(text, b"at") {
        Some(FirstWord::At)
    } else {
        None
    }
}

// A first word of the other lines.
#[tactic(auto, unfolding(crate::specs::Table::word_of_third))]
fn word_in_third(text: &[u8]) -> Option<FirstWord>
    ensures { result ≡ word_of_third text.now }
{
    if says(text, b"step") {
        Some(FirstWord::Step)
    } else if says(text, b"finish") {
        Some(FirstWord::Finish)
    } else if says(text, b"fail") {
        Some(FirstWord::Fail)
    } else if says(text, b"join") {
        Some(FirstWord::Join)
    } else if says(text, b"pull") {
        Some(FirstWord::Pull)
    } else if says(text, b"put") {
        Some(FirstWord::Put)
    } else if says(text, b"propagate") {
        Some(FirstWord::Propagate)
    } else if says(text, b"show") {
        Some(FirstWord::Show)
    } else if says(text, b"race") {
        Some(FirstWord::Race)
    } else if says(text, b"end") {
        Some(FirstWord::End)
    } else {
        None
    }
}
