//! The words of the command line.
ghost use Rattle.std.specs.Prelude.{◌≡◌, List, map, drop, IfOk, IfErr, IfSome, IsSomeAnd, IsUtf8, slice_get, string_bytes};
ghost use Rattle.command_run.specs.Arguments.{HasNoWord, IsNoWord, IsUsageWhere, IsWordAt};

use crate::arguments::Arguments;
use crate::running::Status;
use std::alloc::Global;
use std::env::FillError;
use std::str;
use std::string::String;

/// Room for each word of a command: a longer one is none.
const ROOM: usize = 64;

/// The words of the command line behind the program's name, whatever that is. The error is how the program ends
/// without them: with the usage, as a word is no text or longer than any of a command, or for want of memory.
pub fn words<A: Arguments>(arguments: &A, alloc: Global) -> Result<Vec<String>, Status>
    ensures all { IfOk result (λ words. IfSome (A.called arguments.now) (λ called. map string_bytes words.items ≡ drop 1 called)) }
    ensures cause { IfErr result (IsUsageWhere (IfSome (A.called arguments.now) (λ called. HasNoWord (drop 1 called)))) }
{
    let mut words = Vec::new(alloc);
    for number in 1..usize::MAX {
        let word = match word(arguments, alloc, number) {
            Ok(Some(word)) => word,
            Ok(None) => return Ok(words),
            Err(status) => return Err(status),
        };
        let Ok(()) = words.push(word) else {
            return Err(Status::NoMemory);
        };
    }
    // No memory holds so many words.
    Err(Status::NoMemory)
}

// The word with this number, if there is one.
fn word<A: Arguments>(arguments: &A, alloc: Global, number: usize) -> Result<Option<String>, Status>
    ensures word { IfOk result (λ word. IfSome (A.called arguments.now) (λ called. IsWordAt called number word)) }
    ensures cause { IfErr result (IsUsageWhere (IfSome (A.called arguments.now) (λ called. IsSomeAnd (slice_get called number) IsNoWord))) }
{
    let mut place = [0u8; ROOM];
    match arguments.word(number, &mut place) {
        Ok(length) => match text(alloc, &place[..length]) {
            Ok(text) => Ok(Some(text)),
            Err(status) => Err(status),
        },
        Err(FillError::TooLong) => Err(Status::Usage),
        Err(FillError::NotPresent) => Ok(None),
    }
}

// The text that the bytes are.
fn text(alloc: Global, bytes: &[u8]) -> Result<String, Status>
    ensures text { IfOk result (λ text. string_bytes text ≡ bytes.now) }
    ensures cause { IfErr result (IsUsageWhere (IsUtf8 bytes.now → ⊥)) }
{
    let Ok(text) = str::from_utf8(bytes) else {
        return Err(Status::Usage);
    };
    match String::from_str(alloc, text) {
        Ok(text) => Ok(text),
        Err(_) => Err(Status::NoMemory),
    }
}
