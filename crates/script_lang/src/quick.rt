//! A write or a read of one element, word by word: the lines that are most used.
ghost use Rattle.std.specs.Prelude.{◌≡◌, ◌-◌, ◌++◌, ◌∷◌, IfOk, IfSome, true, codes};
ghost use Rattle.std.specs.Char.{is_ascii_digit};
ghost use Rattle.ckpt_types.specs.FirstWord.{begin_text};
ghost use Rattle.script_words.specs.Words.{a_client, a_place};
ghost use Rattle.ckpt_types.specs.declared.words.FirstWord.TheVariants as first;
ghost use Rattle.ckpt_types.specs.declared.words.OpWord.TheVariants as calls;
ghost use Rattle.script_lang.specs.declared.quick.Quick.TheVariants as quicks;
ghost use Rattle.script_lang.specs.Plain.{SaysFirst, SaysFront, SaysBehind, SaysLine};

use crate::reading::first_word;
use ckpt_types::{
    IoElement, IoVector, ReadElement, ReadVector, Shared, SharedReads, SharedUpdate, Update,
};
use script_words::LineError;
use std::alloc::{AllocError, Global};

/// A line that was read at once, where it is one that is most used.
#[derive(Drop)]
pub(crate) enum Quick {
    /// A write of one element.
    Write(u8, u8, SharedUpdate),
    /// A read of one element, which asks for so many bytes.
    Read(u8, u8, SharedReads, u64),
    /// It may be another line, or none.
    Other,
}

// What the words of a write or a read of one element say, up to the last. The identifier is not yet read.
#[derive(Clone, Copy)]
pub(crate) struct Front<'a> {
    client: u8,
    place: u8,
    id: &'a [u8],
    offset: u64,
    last: &'a [u8],
}

/// The write or the read of one element that a text says plainly.
#[inline(always)]
#[tactic(auto, using(crate::proofs::Plain::begins_write, crate::proofs::Plain::begins_read))]
pub fn quick_line(alloc: Global, text: &[u8]) -> Result<Quick, AllocError>
    ensures { IfOk result (λ quick. SaysLine text.now quick) }
{
    if let Some(rest) = behind_write(text) {
        return quick_write(alloc, rest);
    }
    if let Some(rest) = behind_read(text) {
        return quick_read(alloc, rest);
    }
    Ok(Quick::Other)
}

/// What lies behind `begin` and a space, where they stand in front.
#[inline(always)]
pub fn behind_begin(text: &[u8]) -> Option<&[u8]>
    ensures { IfSome result (λ rest. text.now ≡ begin_text ++ 32 ∷ rest.now) }
{
    match text {
        [b'b', b'e', b'g', b'i', b'n', b' ', rest @ ..] => Some(rest),
        _ => None,
    }
}

// What lies behind `write` and a space, where they stand in front.
#[inline(always)]
fn behind_write(text: &[u8]) -> Option<&[u8]>
    ensures { IfSome result (λ rest. text.now ≡ codes "write" ++ 32 ∷ rest.now) }
{
    match text {
        [b'w', b'r', b'i', b't', b'e', b' ', rest @ ..] => Some(rest),
        _ => None,
    }
}

// What lies behind `read` and a space, where they stand in front.
#[inline(always)]
fn behind_read(text: &[u8]) -> Option<&[u8]>
    ensures { IfSome result (λ rest. text.now ≡ codes "read" ++ 32 ∷ rest.now) }
{
    match text {
        [b'r', b'e', b'a', b'd', b' ', rest @ ..] => Some(rest),
        _ => None,
    }
}

// The write that the text behind its first word says.
#[inline(never)]
fn quick_write(alloc: Global, text: &[u8]) -> Result<Quick, AllocError>
    ensures { IfOk result (λ quick. SaysBehind (first.Op calls.Write) text.now quick) }
{
    let Some(front) = front_of(text) else {
        return Ok(Quick::Other);
    };
    let [b'\'', quoted @ ..] = front.last else {
        return Ok(Quick::Other);
    };
    let id = match script_words::id(alloc, front.id) {
        Ok(id) => id,
        Err(error) => return given_up(error),
    };
    let bytes = match script_words::quoted(alloc, quoted) {
        Ok(bytes) => bytes,
        Err(error) => return given_up(error),
    };
    let element = IoElement {
        id,
        offset: front.offset,
        bytes,
    };
    let update = Shared::new(alloc, Update::Write(IoVector::one(element)))?;
    Ok(Quick::Write(front.client, front.place, update))
}

// The read that the text behind its first word says.
#[inline(never)]
fn quick_read(alloc: Global, text: &[u8]) -> Result<Quick, AllocError>
    ensures { IfOk result (λ quick. SaysBehind (first.Op calls.Read) text.now quick) }
{
    let Some(front) = front_of(text) else {
        return Ok(Quick::Other);
    };
    let Ok(len) = script_words::number(0, u64::MAX, front.last) else {
        return Ok(Quick::Other);
    };
    let id = match script_words::id(alloc, front.id) {
        Ok(id) => id,
        Err(error) => return given_up(error),
    };
    let element = ReadElement {
        id,
        offset: front.offset,
        len,
    };
    let elements = Shared::new(alloc, ReadVector::one(element))?;
    Ok(Quick::Read(front.client, front.place, elements, len))
}

// A word is at fault, which is told when all are read; or memory was refused.
fn given_up(error: LineError) -> Result<Quick, AllocError>
    ensures { IfOk result (λ quick. quick ≡ quicks.Other) }
{
    match error {
        LineError::Fault(_) => Ok(Quick::Other),
        LineError::NoMemory => Err(AllocError),
    }
}

// The words up to the last, where they say what they should.
#[inline(always)]
fn front_of(text: &[u8]) -> Option<Front<'_>>
    ensures { IfSome result (λ front. SaysFront text.now front) }
{
    let (client, rest) = client_front(text)?;
    let (place, rest) = place_front(rest)?;
    let (id, rest) = first_word(rest)?;
    let (offset, last) = first_word(rest)?;
    let Ok(offset) = script_words::number(0, u64::MAX, offset) else {
        return None;
    };
    Some(Front {
        client,
        place,
        id,
        offset,
        last,
    })
}

// The client that the first word says, and what lies behind it.
#[inline(always)]
fn client_front(text: &[u8]) -> Option<(u8, &[u8])>
    ensures { IfSome result (λ p. SaysFirst a_client text.now p.0 p.1.now) }
{
    match text {
        [b'c', digit, b' ', rest @ ..] => short_front(*digit, rest),
        _ => any_client_front(text),
    }
}

#[inline(never)]
fn any_client_front(text: &[u8]) -> Option<(u8, &[u8])>
    ensures { IfSome result (λ p. SaysFirst a_client text.now p.0 p.1.now) }
{
    let (client, rest) = first_word(text)?;
    let Ok(client) = script_words::client(client) else {
        return None;
    };
    Some((client, rest))
}

// The place that the first word says, and what lies behind it.
#[inline(always)]
fn place_front(text: &[u8]) -> Option<(u8, &[u8])>
    ensures { IfSome result (λ p. SaysFirst a_place text.now p.0 p.1.now) }
{
    match text {
        [b'h', digit, b' ', rest @ ..] => short_front(*digit, rest),
        _ => any_place_front(text),
    }
}

#[inline(never)]
fn any_place_front(text: &[u8]) -> Option<(u8, &[u8])>
    ensures { IfSome result (λ p. SaysFirst a_place text.now p.0 p.1.now) }
{
    let (place, rest) = first_word(text)?;
    let Ok(place) = script_words::place(place) else {
        return None;
    };
    Some((place, rest))
}

// The number of a digit, and what lies behind it.
#[inline(always)]
fn short_front(digit: u8, rest: &[u8]) -> Option<(u8, &[u8])>
    ensures { IfSome result (λ p. (is_ascii_digit digit ≡ true) × (p.0 ≡ digit - 48) × (p.1.now ≡ rest.now)) }
{
    if !digit.is_ascii_digit() {
        return None;
    }
    Some((digit - b'0', rest))
}
