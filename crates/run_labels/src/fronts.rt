//! The front of a result line in one piece, where the call has a small number.
ghost use Rattle.std.specs.Prelude.{◌≡◌, ◌<◌, ◌≤◌, ◌+◌, ◌++◌, codes, length, vec_len, vec_capacity};
ghost use Rattle.ckpt_types.specs.OpWord.{op_text};
ghost use Rattle.ckpt_types.specs.Spelling.{actor_text, call_text};

use crate::digits::{push_hundreds, push_thousands};
use ckpt_types::{ActorName, CallId, OpWord};

/// The least number of a call that has more than four digits.
pub(crate) const LONG_NUMBER: u32 = 10_000;

/// So many bytes are the most of a call with a lesser number, ` openasync OK` and the end of the line.
pub(crate) const FRONT_ROOM: usize = 23;

/// Adds a call, where there is room for nine bytes.
#[inline(always)]
pub(crate) fn push_call(out: &mut Vec<u8>, call: &CallId)
    requires number { call.now.number < 10000 }
    requires room { vec_len out.old + 9 ≤ vec_capacity out.old }
    ensures items { out.new.items ≡ out.old.items ++ call_text call.now }
    ensures len { vec_len out.new ≤ vec_len out.old + 9 }
    ensures capacity { vec_capacity out.new ≡ vec_capacity out.old }
{
    push_actor(out, call.actor);
    out.push_reserved(b'.');
    push_thousands(out, u64::from(call.number));
}

/// Adds who begins calls, where there is room for four bytes.
#[inline(always)]
fn push_actor(out: &mut Vec<u8>, actor: ActorName)
    requires { vec_len out.old + 4 ≤ vec_capacity out.old }
    ensures items { out.new.items ≡ out.old.items ++ actor_text actor }
    ensures len { vec_len out.new ≤ vec_len out.old + 4 }
    ensures capacity { vec_capacity out.new ≡ vec_capacity out.old }
{
    match actor {
        ActorName::Client(client) => {
            out.push_reserved(b'c');
            push_hundreds(out, u64::from(client));
        }
        ActorName::Node(node) => {
            out.push_reserved(b'n');
            push_hundreds(out, u64::from(node));
        }
    }
}

/// Adds a space and the word of a write, where there is room.
#[inline(always)]
pub(crate) fn push_write(out: &mut Vec<u8>)
    requires { vec_len out.old + 6 ≤ vec_capacity out.old }
    ensures items { out.new.items ≡ out.old.items ++ codes " write" }
    ensures len { vec_len out.new ≡ vec_len out.old + 6 }
    ensures capacity { vec_capacity out.new ≡ vec_capacity out.old }
{
    out.push_reserved(b' ');
    out.push_reserved(b'w');
    out.push_reserved(b'r');
    out.push_reserved(b'i');
    out.push_reserved(b't');
    out.push_reserved(b'e');
}

/// Adds a space and the word of a read, where there is room.
#[inline(always)]
pub(crate) fn push_read(out: &mut Vec<u8>)
    requires { vec_len out.old + 5 ≤ vec_capacity out.old }
    ensures items { out.new.items ≡ out.old.items ++ codes " read" }
    ensures len { vec_len out.new ≡ vec_len out.old + 5 }
    ensures capacity { vec_capacity out.new ≡ vec_capacity out.old }
{
    out.push_reserved(b' ');
    out.push_reserved(b'r');
    out.push_reserved(b'e');
    out.push_reserved(b'a');
    out.push_reserved(b'd');
}

/// Adds a space and the first word of a line, where there is room.
#[inline(always)]
pub(crate) fn push_word(out: &mut Vec<u8>, op: OpWord)
    requires { vec_len out.old + 10 ≤ vec_capacity out.old }
    ensures items { out.new.items ≡ out.old.items ++ (codes " " ++ op_text op) }
    ensures len { vec_len out.new ≤ vec_len out.old + 10 }
    ensures capacity { vec_capacity out.new ≡ vec_capacity out.old }
{
    out.push_reserved(b' ');
    push_letters(out, op.word().as_bytes());
}

/// Adds some bytes, where there is room.
#[inline(always)]
fn push_letters(out: &mut Vec<u8>, letters: &[u8])
    requires { vec_len out.old + length letters.now ≤ vec_capacity out.old }
    ensures items { out.new.items ≡ out.old.items ++ letters.now }
    ensures len { vec_len out.new ≡ vec_len out.old + length letters.now }
    ensures capacity { vec_capacity out.new ≡ vec_capacity out.old }
{
    for letter in letters {
        out.push_reserved(*letter);
    }
}

/// Adds that a call was done, where there is room.
#[inline(always)]
pub(crate) fn push_ok(out: &mut Vec<u8>)
    requires { vec_len out.old + 3 ≤ vec_capacity out.old }
    ensures items { out.new.items ≡ out.old.items ++ codes " OK" }
    ensures len { vec_len out.new ≡ vec_len out.old + 3 }
    ensures capacity { vec_capacity out.new ≡ vec_capacity out.old }
{
    out.push_reserved(b' ');
    out.push_reserved(b'O');
    out.push_reserved(b'K');
}
