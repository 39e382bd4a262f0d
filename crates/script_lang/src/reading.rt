//! A line of bytes into words, and the line that they say.
ghost use Rattle.std.specs.Prelude.{◌≡◌, ◌<◌, ◌≤◌, ◌∷◌, ◌++◌, [], IfOk, IfErr, IfSome, IfNone, length, take, drop, ◌==◌, Ok, None};
ghost use Rattle.script_lang.specs.FewWords.{HasWords};
ghost use Rattle.std.specs.Bool.{OnTrue, OnFalse};
ghost use Rattle.std.specs.List.{position_or_len};
ghost use Rattle.script_words.specs.Reasons.{Reads};
ghost use Rattle.script_lines.specs.Table.{texts, line_said};
ghost use Rattle.script_lang.specs.Grammar.{text_lines, words_of, reading, some_line};

use memchr::memchr;
use script_lines::Line;
use script_words::LineError;
use std::alloc::{AllocError, Global};

// The words of most lines are no more.
const FEW: usize = 12;

// Nor are those of a write of sixteen elements.
const MORE: usize = 51;

/// Whether a line says nothing, as it is empty or a comment.
#[tactic(auto, unfolding(crate::specs::Grammar::reading))]
pub fn says_nothing(line: &[u8]) -> bool
    ensures nothing { OnTrue result (reading line.now ≡ Ok None) }
    ensures something { OnFalse result (reading line.now ≡ some_line (line_said (words_of line.now))) }
{
    match line {
        [] => true,
        [first, ..] => *first == b'#',
    }
}

/// The line that the words of a text say. Where these are no more than those of a write of sixteen elements, it takes no
/// memory for them.
pub fn read_line(alloc: Global, text: &[u8]) -> Result<Line, LineError>
    ensures { Reads result (line_said (words_of text.now)) }
{
    let mut words: [&[u8]; FEW] = [&[]; FEW];
    match few_words(text, &mut words) {
        Ok(count) => script_lines::read_line(alloc, &words[..count]),
        Err(_) => line_of_more(alloc, text),
    }
}

// The line that more words say. The places for these lie here, so that a line of few clears no room for them.
#[inline(never)]
fn line_of_more(alloc: Global, text: &[u8]) -> Result<Line, LineError>
    ensures { Reads result (line_said (words_of text.now)) }
{
    let mut words: [&[u8]; MORE] = [&[]; MORE];
    match few_words(text, &mut words) {
        Ok(count) => script_lines::read_line(alloc, &words[..count]),
        Err(rest) => line_of_many(alloc, &words, rest),
    }
}

// The line that these words say, with any number of words behind them.
#[inline(never)]
fn line_of_many(alloc: Global, front: &[&[u8]], rest: &[u8]) -> Result<Line, LineError>
    ensures { Reads result (line_said (texts front.now ++ words_of rest.now)) }
{
    let words = words_in(alloc, front, rest)?;
    script_lines::read_line(alloc, &words)
}

// These words, and behind them what stands between the spaces of a text.
fn words_in<'a>(
    alloc: Global,
    front: &[&'a [u8]],
    rest: &'a [u8],
) -> Result<Vec<&'a [u8]>, AllocError>
    ensures { IfOk result (λ words. texts words.items ≡ texts front.now ++ words_of rest.now) }
{
    let mut words = Vec::with_capacity(alloc, 2 * MORE)?;
    words.extend_from_slice(front)?;
    words.extend(rest.split(|b| *b == b' '))?;
    Ok(words)
}

// Puts the words of a line in front, and tells how many they are. Where there is no place for each, what lies behind those
// that have one.
#[inline(always)]
fn few_words<'a>(line: &'a [u8], words: &mut [&'a [u8]]) -> Result<usize, &'a [u8]>
    ensures all { IfOk result (λ count. HasWords line.now words.new count) }
    ensures more { IfErr result (λ rest. texts words.new ++ words_of rest.now ≡ words_of line.now) }
{
    let mut rest = line;
    for count in 0..words.len() {
        let Some((word, behind)) = first_word(rest) else {
            words[count] = rest;
            return Ok(count + 1);
        };
        words[count] = word;
        rest = behind;
    }
    Err(rest)
}

/// The word in front of the first space, and what lies behind it; none where there is no space.
#[inline(always)]
pub fn first_word(line: &[u8]) -> Option<(&[u8], &[u8])>
    ensures some { IfSome result (λ p. words_of line.now ≡ p.0.now ∷ words_of p.1.now) }
    ensures none { IfNone result (words_of line.now ≡ line.now ∷ []) }
{
    let end = space_or_len(line);
    if end < line.len() {
        Some((&line[..end], &line[end + 1..]))
    } else {
        None
    }
}

// The place of the first space, or the length. The first six bytes are looked at one by one, since most
// words are short.
#[inline(always)]
fn space_or_len(text: &[u8]) -> usize
    ensures value { result ≡ position_or_len (λ b. b == 32) text.now }
    ensures within { result ≤ length text.now }
{
    match text {
        [b' ', _, _, ..] => 0,
        [_, b' ', _, ..] => 1,
        [_, _, b' ', ..] => 2,
        [_, _, _, rest @ ..] => 3 + space_behind(rest),
        _ => found_or_len(b' ', text),
    }
}

// The same of what stands behind three bytes.
#[inline(always)]
fn space_behind(text: &[u8]) -> usize
    ensures value { result ≡ position_or_len (λ b. b == 32) text.now }
    ensures within { result ≤ length text.now }
{
    match text {
        [b' ', _, _, ..] => 0,
        [_, b' ', _, ..] => 1,
        [_, _, b' ', ..] => 2,
        _ => found_or_len(b' ', text),
    }
}

/// The first line, and what lies behind it.
pub fn first_line(text: &[u8]) -> (&[u8], &[u8])
    requires { 0 < length text.now }
    ensures first { text_lines text.now ≡ result.0.now ∷ text_lines result.1.now }
    ensures shorter { length result.1.now < length text.now }
{
    let end = found_or_len(b'\n', text);
    if end < text.len() {
        (&text[..end], &text[end + 1..])
    } else {
        (text, &[])
    }
}

// The first place of a byte, or the length; quick where it is far.
#[inline(never)]
fn found_or_len(byte: u8, text: &[u8]) -> usize
    ensures value { result ≡ position_or_len (λ b. b == byte) text.now }
    ensures within { result ≤ length text.now }
{
    match memchr(byte, text) {
        Some(end) => end,
        None => text.len(),
    }
}
