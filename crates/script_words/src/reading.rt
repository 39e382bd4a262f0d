//! The reader of each class of words.
ghost use Rattle.std.specs.Prelude.{◌≡◌, ◌<◌, ◌≤◌, ◌^◌, [], ◌∷◌, Ok, Some, None, IfOk, IfSome, IfNone, length, ◌==◌, bytes_eq, codes, not, ◌&&◌, pos, neg_ℤ};
ghost use Rattle.std.specs.List.{list_all, position_or_len, before_first, after_first};
ghost use Rattle.std.specs.Str.Parse.{AllDigits, digits_value};
ghost use Rattle.script_words.specs.Reasons.{Reads};
ghost use Rattle.script_words.specs.Words.{starts_well, is_graphic, is_dot, number_within as spec_number, lettered, named_call, read_word, a_client, a_node, a_place, an_iteration, a_ckpt, a_number, a_time, a_moment, some_bytes, an_id, a_new_id, a_version, the_callbacks, a_who};

use crate::digits::decode_digits;
use crate::reason::{LineError, Reason};
use ckpt_types::{
    ActorName, Bytes, CKPT_NUMBERS, CLIENT_NUMBERS, CallId, CallbackSet, CkptId, Moment, NEVER,
    NODES_MAX, NewId, NodeId, PLACES_MAX, SECTION_ID_MAX, Version, Who,
};
use std::alloc::Global;

// So many digits say a number below 2^64, whatever they are.
const ALWAYS_FIT: usize = 19;

// So many bytes are tested by a few instructions.
const BLOCK: usize = 16;

/// A client, `c` and its number.
#[inline(always)]
#[tactic(auto, unfolding(crate::specs::Words::read_word))]
pub fn client(word: &[u8]) -> Result<u8, LineError>
    ensures { Reads result (read_word a_client word.now) }
{
    match lettered_of(b'c', 0, CLIENT_NUMBERS as u64, word) {
        Some(n) => Ok(n as u8),
        None => Err(LineError::Fault(Reason::Word)),
    }
}

/// A node, `n` and its number.
#[tactic(auto, unfolding(crate::specs::Words::read_word))]
pub fn node(word: &[u8]) -> Result<NodeId, LineError>
    ensures { Reads result (read_word a_node word.now) }
{
    match lettered_of(b'n', 0, NODES_MAX as u64, word) {
        Some(n) => Ok(n as NodeId),
        None => Err(LineError::Fault(Reason::Word)),
    }
}

/// The place of a handle, `h` and a number.
#[inline(always)]
#[tactic(auto, unfolding(crate::specs::Words::read_word))]
pub fn place(word: &[u8]) -> Result<u8, LineError>
    ensures { Reads result (read_word a_place word.now) }
{
    match lettered_of(b'h', 0, PLACES_MAX as u64, word) {
        Some(n) => Ok(n as u8),
        None => Err(LineError::Fault(Reason::Word)),
    }
}

/// The place of an iteration, `i` and a number.
#[tactic(auto, unfolding(crate::specs::Words::read_word))]
pub fn iteration(word: &[u8]) -> Result<u8, LineError>
    ensures { Reads result (read_word an_iteration word.now) }
{
    match lettered_of(b'i', 0, PLACES_MAX as u64, word) {
        Some(n) => Ok(n as u8),
        None => Err(LineError::Fault(Reason::Word)),
    }
}

/// A checkpoint, `K` and its number, from 1 on.
#[tactic(auto, unfolding(crate::specs::Words::read_word))]
pub fn ckpt(word: &[u8]) -> Result<CkptId, LineError>
    ensures { Reads result (read_word a_ckpt word.now) }
{
    match lettered_of(b'K', 1, CKPT_NUMBERS, word) {
        Some(n) => Ok(n as CkptId),
        None => Err(LineError::Fault(Reason::Word)),
    }
}

/// A number from `low` to `high`.
#[inline(always)]
#[tactic(auto, unfolding(crate::specs::Words::read_word))]
pub fn number(low: u64, high: u64, word: &[u8]) -> Result<u64, LineError>
    ensures exact { Reads result (read_word (a_number low high) word.now) }
    ensures within { IfOk result (λ n. (low ≤ n) × (n ≤ high)) }
{
    match number_of(low, high, word) {
        Some(n) => Ok(n),
        None => Err(LineError::Fault(Reason::Number)),
    }
}

/// A time: decimal digits, behind a minus where it is below 0, or `end`.
#[tactic(auto, unfolding(crate::specs::Words::read_word, crate::specs::Words::time_of))]
pub fn time(word: &[u8]) -> Result<Moment, LineError>
    ensures { Reads result (read_word a_time word.now) }
{
    if is_end(word) {
        return Ok(NEVER);
    }
    match word {
        [] => Err(LineError::Fault(Reason::Number)),
        [b'-', rest @ ..] => match number_of(1, 9_223_372_036_854_775_808, rest) {
            Some(n) => Ok(below_zero(n)),
            None => Err(LineError::Fault(Reason::Number)),
        },
        _ => match number_of(0, NEVER as u64, word) {
            Some(n) => Ok(n as i64),
            None => Err(LineError::Fault(Reason::Number)),
        },
    }
}

// Whether the word says the end of time.
#[inline(always)]
fn is_end(word: &[u8]) -> bool
    ensures { result ≡ bytes_eq word.now (codes "end") }
{
    match word {
        b"end" => true,
        _ => false,
    }
}

// The time that lies so far below 0.
#[inline(always)]
fn below_zero(n: u64) -> Moment
    requires { (1 ≤ n) × (n ≤ 2 ^ 63) }
    ensures { result ≡ neg_ℤ (pos n) }
{
    -((n - 1) as i64) - 1
}

/// A moment, from 0 on and before the end of time.
#[tactic(auto, unfolding(crate::specs::Words::read_word))]
pub fn moment(word: &[u8]) -> Result<Moment, LineError>
    ensures { Reads result (read_word a_moment word.now) }
{
    match number_of(0, NEVER as u64 - 1, word) {
        Some(n) => Ok(n as i64),
        None => Err(LineError::Fault(Reason::Number)),
    }
}

/// Bytes: in hexadecimal digits behind an `x`, or as they stand behind a quote.
#[tactic(auto, unfolding(crate::specs::Words::read_word, crate::specs::Words::bytes_of))]
pub fn bytes(alloc: Global, word: &[u8]) -> Result<Bytes, LineError>
    ensures { Reads result (read_word some_bytes word.now) }
{
    match word {
        [b'x', digits @ ..] => match decode_digits(alloc, digits)? {
            Some(items) => Ok(Bytes::from_vec(items)),
            None => Err(LineError::Fault(Reason::Bytes)),
        },
        [b'\'', text @ ..] => quoted(alloc, text),
        _ => Err(LineError::Fault(Reason::Bytes)),
    }
}

/// The bytes of a word, from what stands behind its quote.
#[inline(always)]
#[tactic(auto, unfolding(crate::specs::Words::read_word, crate::specs::Words::bytes_of))]
pub fn quoted(alloc: Global, text: &[u8]) -> Result<Bytes, LineError>
    ensures { Reads result (read_word some_bytes (39 ∷ text.now)) }
{
    if !may_be_quoted(text) {
        return Err(LineError::Fault(Reason::Bytes));
    }
    Ok(Bytes::from_slice(alloc, text)?)
}

// Whether the bytes may stand behind a quote.
fn may_be_quoted(text: &[u8]) -> bool
    ensures { result ≡ (not (length text.now == 0) && list_all is_graphic text.now) }
{
    !text.is_empty() && all_graphic(text)
}

// Up to two blocks are tested as the first and the last, which may lie over one another.
fn all_graphic(text: &[u8]) -> bool
    ensures { result ≡ list_all is_graphic text.now }
{
    if BLOCK <= text.len() && text.len() <= 2 * BLOCK {
        let (front, _) = text.split_at(BLOCK);
        let (_, back) = text.split_at(text.len() - BLOCK);
        each_graphic(front) & each_graphic(back)
    } else {
        each_graphic(text)
    }
}

// Goes on behind a byte that fails, so that many bytes are tested at once.
#[inline(always)]
fn each_graphic(text: &[u8]) -> bool
    ensures { result ≡ list_all is_graphic text.now }
{
    let mut graphic = true;
    for byte in text {
        graphic = graphic & (33 <= *byte) & (*byte <= 126);
    }
    graphic
}

/// The identifier of a section: a bytes word of no more than `SECTION_ID_MAX` bytes.
#[inline(always)]
#[tactic(auto, unfolding(crate::specs::Words::read_word, crate::specs::Words::id_of, crate::specs::Words::bytes_of))]
pub fn id(alloc: Global, word: &[u8]) -> Result<Bytes, LineError>
    ensures { Reads result (read_word an_id word.now) }
{
    if is_x(word) {
        return Ok(Bytes::default());
    }
    let found = bytes(alloc, word)?;
    if SECTION_ID_MAX < found.as_slice().len() {
        return Err(LineError::Fault(Reason::Bytes));
    }
    Ok(found)
}

// Whether the word says no bytes by a single letter.
#[inline(always)]
fn is_x(word: &[u8]) -> bool
    ensures { result ≡ bytes_eq word.now (codes "x") }
{
    match word {
        b"x" => true,
        _ => false,
    }
}

/// The identifier of a new section; or `gen`, where the service is to make one.
#[tactic(auto, unfolding(crate::specs::Words::read_word, crate::specs::Words::new_id_of))]
pub fn new_id(alloc: Global, word: &[u8]) -> Result<NewId, LineError>
    ensures { Reads result (read_word a_new_id word.now) }
{
    if word == b"gen".as_slice() {
        return Ok(NewId::Generated);
    }
    match id(alloc, word) {
        Ok(id) => Ok(NewId::Given(id)),
        Err(error) => Err(error),
    }
}

/// A version, as `B.2.2`.
#[tactic(auto, unfolding(crate::specs::Words::read_word, crate::specs::Words::version_of))]
pub fn version(word: &[u8]) -> Result<Version, LineError>
    ensures { Reads result (read_word a_version word.now) }
{
    let [release, b'.', rest @ ..] = word else {
        return Err(LineError::Fault(Reason::Word));
    };
    if *release < b'A' || b'Z' < *release {
        return Err(LineError::Fault(Reason::Word));
    }
    let (front, back) = at_dot(rest);
    let Some(major) = number_of(0, 255, front) else {
        return Err(LineError::Fault(Reason::Word));
    };
    let Some(minor) = number_of(0, 255, back) else {
        return Err(LineError::Fault(Reason::Word));
    };
    Ok(Version {
        release: *release,
        major: major as u8,
        minor: minor as u8,
    })
}

/// Which callbacks a client registers: `none`, `open`, `sync` or `both`.
#[tactic(auto, unfolding(crate::specs::Words::read_word, crate::specs::Words::callbacks_of))]
pub fn callbacks(word: &[u8]) -> Result<CallbackSet, LineError>
    ensures { Reads result (read_word the_callbacks word.now) }
{
    if word == b"none".as_slice() {
        Ok(callback_set(false, false))
    } else if word == b"open".as_slice() {
        Ok(callback_set(true, false))
    } else if word == b"sync".as_slice() {
        Ok(callback_set(false, true))
    } else if word == b"both".as_slice() {
        Ok(callback_set(true, true))
    } else {
        Err(LineError::Fault(Reason::Word))
    }
}

fn callback_set(opens: bool, syncs: bool) -> CallbackSet
    ensures { result ≡ record { opens = opens; syncs = syncs } }
{
    CallbackSet { opens, syncs }
}

/// Whose call is stepped: a client, a node, or a call of a client as `c0.5`.
#[tactic(auto, unfolding(crate::specs::Words::read_word, crate::specs::Words::who_of))]
pub fn who(word: &[u8]) -> Result<Who, LineError>
    ensures { Reads result (read_word a_who word.now) }
{
    if let Some(client) = lettered_of(b'c', 0, CLIENT_NUMBERS as u64, word) {
        return Ok(Who::Actor(ActorName::Client(client as u8)));
    }
    if let Some(node) = lettered_of(b'n', 0, NODES_MAX as u64, word) {
        return Ok(Who::Actor(ActorName::Node(node as u8)));
    }
    match call_named(word) {
        Some(call) => Ok(Who::Call(call)),
        None => Err(LineError::Fault(Reason::Word)),
    }
}

// A client, a dot and a number from 1.
#[tactic(auto, unfolding(crate::specs::Words::named_call))]
fn call_named(word: &[u8]) -> Option<CallId>
    ensures { result ≡ named_call word.now }
{
    let (front, back) = at_dot(word);
    let client = lettered_of(b'c', 0, CLIENT_NUMBERS as u64, front)?;
    let number = number_of(1, 4_294_967_295, back)?;
    Some(CallId {
        actor: ActorName::Client(client as u8),
        number: number as u32,
    })
}

// A letter and a number from `low` on, below `end`.
#[inline(always)]
#[tactic(auto, unfolding(crate::specs::Words::lettered))]
fn lettered_of(letter: u8, low: u64, end: u64, word: &[u8]) -> Option<u64>
    requires { 0 < end }
    ensures value { result ≡ lettered letter low end word.now }
    ensures within { IfSome result (λ n. n < end) }
{
    match word {
        [] => None,
        [first, rest @ ..] => {
            if *first == letter {
                number_of(low, end - 1, rest)
            } else {
                None
            }
        }
    }
}

// The number that a word says, where it is from `low` to `high`.
#[inline(always)]
fn number_of(low: u64, high: u64, word: &[u8]) -> Option<u64>
    ensures exact { result ≡ spec_number low high word.now }
    ensures within { IfSome result (λ n. (low ≤ n) × (n ≤ high)) }
{
    match word {
        [digit] => one_digit(low, high, *digit),
        _ => any_number(low, high, word),
    }
}

// The same of a single byte.
#[inline(always)]
#[tactic(auto, using(crate::proofs::Numbers::no_digit_alone, crate::proofs::Numbers::digit_alone))]
fn one_digit(low: u64, high: u64, digit: u8) -> Option<u64>
    ensures exact { result ≡ spec_number low high (digit ∷ []) }
    ensures within { IfSome result (λ n. (low ≤ n) × (n ≤ high)) }
{
    if !digit.is_ascii_digit() {
        return None;
    }
    let n = (digit - b'0') as u64;
    if low <= n && n <= high { Some(n) } else { None }
}

// The same of any word.
#[inline(always)]
#[tactic(auto, using(crate::proofs::Numbers::badly_begun, crate::proofs::Numbers::past_all))]
fn any_number(low: u64, high: u64, word: &[u8]) -> Option<u64>
    ensures exact { result ≡ spec_number low high word.now }
    ensures within { IfSome result (λ n. (low ≤ n) × (n ≤ high)) }
{
    if !begins_well(word) {
        return None;
    }
    let n = value_of(word)?;
    if low <= n && n <= high { Some(n) } else { None }
}

// Whether the word has a first byte, which is no zero in front of others.
#[inline(always)]
fn begins_well(word: &[u8]) -> bool
    ensures { result ≡ starts_well word.now }
{
    match word {
        [] => false,
        [b'0', _, ..] => false,
        _ => true,
    }
}

// The number that decimal digits say, where it is below 2^64.
#[inline(always)]
fn value_of(digits: &[u8]) -> Option<u64>
    ensures some { IfSome result (λ n. AllDigits 10 digits.now × (n ≡ digits_value 10 digits.now)) }
    ensures none { IfNone result (AllDigits 10 digits.now → 2 ^ 64 ≤ digits_value 10 digits.now) }
{
    if digits.len() <= ALWAYS_FIT {
        short_value(digits)
    } else {
        long_value(digits)
    }
}

// The same of digits that are so few that no number is too large.
#[inline(always)]
fn short_value(digits: &[u8]) -> Option<u64>
    requires { length digits.now ≤ 19 }
    ensures some { IfSome result (λ n. AllDigits 10 digits.now × (n ≡ digits_value 10 digits.now)) }
    ensures none { IfNone result (AllDigits 10 digits.now → 2 ^ 64 ≤ digits_value 10 digits.now) }
{
    let mut value: u64 = 0;
    for digit in digits {
        if !digit.is_ascii_digit() {
            return None;
        }
        value = value * 10 + (*digit - b'0') as u64;
    }
    Some(value)
}

// The same of any digits.
#[inline(never)]
fn long_value(digits: &[u8]) -> Option<u64>
    ensures some { IfSome result (λ n. AllDigits 10 digits.now × (n ≡ digits_value 10 digits.now)) }
    ensures none { IfNone result (AllDigits 10 digits.now → 2 ^ 64 ≤ digits_value 10 digits.now) }
{
    let mut value: u64 = 0;
    for digit in digits {
        if !digit.is_ascii_digit() {
            return None;
        }
        value = value.checked_mul(10)?.checked_add((*digit - b'0') as u64)?;
    }
    Some(value)
}

// What stands before the first dot, and what behind it.
fn at_dot(word: &[u8]) -> (&[u8], &[u8])
    ensures { (result.0.now ≡ before_first is_dot word.now) × (result.1.now ≡ after_first is_dot word.now) }
{
    let end = place_of(b'.', word);
    if end < word.len() {
        (&word[..end], &word[end + 1..])
    } else {
        (word, &[])
    }
}

// The first place of a byte, or the length where there is none.
fn place_of(byte: u8, text: &[u8]) -> usize
    ensures value { result ≡ position_or_len (λ b. b == byte) text.now }
    ensures within { result ≤ length text.now }
{
    for (i, b) in text.iter().enumerate() {
        if *b == byte {
            return i;
        }
    }
    text.len()
}
