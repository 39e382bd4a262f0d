//! The words of the command line are read.
ghost use Rattle.std.specs.Prelude.{◌≡◌, ◌≤◌, Some, length, map, take};

use crate::rows::holds;
use command_run::{Arguments, Status, words};
use std::alloc::Global;
use std::env::FillError;
use std::string::String;

/// The words with which a program was called, its name in front.
#[derive(Drop)]
struct Called<'a> {
    words: &'a [&'a [u8]],
}

impl Arguments for Called<'_> {
    ghost called = { λ c. Some (map (λ word. word.now) c.words.now) };

    fn word(&self, number: usize, place: &mut [u8]) -> Result<usize, FillError> {
        let Some(word) = self.words.get(number) else {
            return Err(FillError::NotPresent);
        };
        if word.len() > place.len() {
            return Err(FillError::TooLong);
        }
        Ok(put(word, place))
    }
}

// Copies a word to the front of a place that has room for it, and returns its length.
fn put(word: &[u8], place: &mut [u8]) -> usize
    requires { length word.now ≤ length place.old }
    ensures within { result ≤ length place.new }
    ensures put { take result place.new ≡ word.now }
{
    place[..word.len()].copy_from_slice(word);
    word.len()
}

/// Whether just these words are read behind the name.
fn are_read(alloc: Global, called: &[&[u8]], wanted: &[&str]) -> bool {
    let Ok(read) = words(&Called { words: called }, alloc) else {
        return false;
    };
    if read.len() != wanted.len() {
        return false;
    }
    for (word, wanted) in read.iter().zip(wanted) {
        if word.as_str() != *wanted {
            return false;
        }
    }
    true
}

// A name alone; two words; a third; a name that is no text; no letter, and one of two bytes.
#[test]
fn the_words_behind_the_name_are_read(rt: HostRuntime) {
    let alloc = rt.alloc();
    holds(&rt, 1, are_read(alloc, &[b"ckptsim"], &[]));
    holds(
        &rt,
        2,
        are_read(
            alloc,
            &[b"ckptsim", b"run", b"--steps"],
            &["run", "--steps"],
        ),
    );
    holds(
        &rt,
        3,
        are_read(
            alloc,
            &[b"ckptsim", b"run", b"--steps", b"x"],
            &["run", "--steps", "x"],
        ),
    );
    holds(&rt, 4, are_read(alloc, &[b"name \xff", b"run"], &["run"]));
    holds(
        &rt,
        5,
        are_read(
            alloc,
            &[b"ckptsim", b"", "k\u{e4}".as_bytes()],
            &["", "k\u{e4}"],
        ),
    );
}

/// Whether the program ends with the usage.
fn is_usage(alloc: Global, called: &[&[u8]]) -> bool {
    match words(&Called { words: called }, alloc) {
        Err(Status::Usage) => true,
        _ => false,
    }
}

// No first byte of a letter; half of a letter; a letter's second byte; both words; a third word; and a word longer than
// each of a command.
#[test]
fn a_word_that_is_no_text_is_no_command(rt: HostRuntime) {
    let alloc = rt.alloc();
    holds(&rt, 1, is_usage(alloc, &[b"ckptsim", b"\xff"]));
    holds(&rt, 2, is_usage(alloc, &[b"ckptsim", b"run", b"\xc3"]));
    holds(
        &rt,
        3,
        is_usage(alloc, &[b"ckptsim", b"run\x80", b"--steps"]),
    );
    holds(&rt, 4, is_usage(alloc, &[b"ckptsim", b"\xff", b"\xff"]));
    holds(
        &rt,
        5,
        is_usage(alloc, &[b"ckptsim", b"run", b"--steps", b"\xff"]),
    );
    holds(&rt, 6, is_usage(alloc, &[b"ckptsim", &[b'r'; 65]]));
}
