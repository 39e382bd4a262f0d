//! The words of lines: numbers, times, bytes, names of calls, checkpoints and nodes.
ghost use Rattle.std.specs.Prelude.{◌≡◌, ◌<◌, ◌++◌, OnOk, codes, decimal};
ghost use Rattle.ckpt_types.specs.Spelling.{node_text, ckpt_text, actor_text, call_text, who_text, time_text, bytes_text};
ghost use Rattle.run_labels.specs.Words.{state_text};

use crate::digits::{append_digits, push_thousands};
use ckpt_types::{ActorName, CallId, CkptId, Moment, NEVER, NodeId, SectionState, Who};
use itoa::Buffer;
use std::alloc::AllocError;

/// The least number of more than `SHORT_DIGITS` digits.
const SHORT_END: u64 = 10_000;

const SHORT_DIGITS: usize = 4;

/// Adds a text behind the others.
#[inline(always)]
pub(crate) fn append_text(out: &mut Vec<u8>, text: &str) -> Result<(), AllocError>
    ensures { OnOk result (out.new.items ≡ out.old.items ++ text.now) }
{
    out.extend_from_slice(text.as_bytes())
}

/// Ends a line.
#[inline(always)]
pub(crate) fn append_line_end(out: &mut Vec<u8>) -> Result<(), AllocError>
    ensures { OnOk result (out.new.items ≡ out.old.items ++ codes "\n") }
{
    out.reserve(1)?;
    out.push_reserved(b'\n');
    Ok(())
}

/// Adds a number.
#[inline(always)]
pub(crate) fn append_number(out: &mut Vec<u8>, number: u64) -> Result<(), AllocError>
    ensures { OnOk result (out.new.items ≡ out.old.items ++ decimal number) }
{
    if number < SHORT_END {
        append_short(out, number)
    } else {
        append_long(out, number)
    }
}

/// Adds a number of at most four digits.
#[inline(always)]
fn append_short(out: &mut Vec<u8>, number: u64) -> Result<(), AllocError>
    requires { number < 10000 }
    ensures { OnOk result (out.new.items ≡ out.old.items ++ decimal number) }
{
    out.reserve(SHORT_DIGITS)?;
    push_thousands(out, number);
    Ok(())
}

/// Adds a number of any size.
#[inline(never)]
fn append_long(out: &mut Vec<u8>, number: u64) -> Result<(), AllocError>
    ensures { OnOk result (out.new.items ≡ out.old.items ++ decimal number) }
{
    append_text(out, Buffer::new().format(number))
}

/// Adds a text and a number.
#[inline(always)]
pub(crate) fn append_counted(out: &mut Vec<u8>, text: &str, number: u64) -> Result<(), AllocError>
    ensures { OnOk result (out.new.items ≡ out.old.items ++ (text.now ++ decimal number)) }
{
    append_text(out, text)?;
    append_number(out, number)
}

/// Adds a text and a call.
#[inline(always)]
pub(crate) fn append_of_call(out: &mut Vec<u8>, text: &str, call: CallId) -> Result<(), AllocError>
    ensures { OnOk result (out.new.items ≡ out.old.items ++ (text.now ++ call_text call)) }
{
    append_text(out, text)?;
    append_call(out, call)
}

/// Adds a space and a number.
pub(crate) fn append_spaced(out: &mut Vec<u8>, number: u64) -> Result<(), AllocError>
    ensures { OnOk result (out.new.items ≡ out.old.items ++ (codes " " ++ decimal number)) }
{
    append_text(out, " ")?;
    append_number(out, number)
}

/// Adds a space and a time.
pub(crate) fn append_spaced_time(out: &mut Vec<u8>, time: Moment) -> Result<(), AllocError>
    ensures { OnOk result (out.new.items ≡ out.old.items ++ (codes " " ++ time_text time)) }
{
    append_text(out, " ")?;
    append_time(out, time)
}

/// Adds a space and bytes.
pub(crate) fn append_spaced_bytes(out: &mut Vec<u8>, bytes: &[u8]) -> Result<(), AllocError>
    ensures { OnOk result (out.new.items ≡ out.old.items ++ (codes " " ++ bytes_text bytes.now)) }
{
    append_text(out, " x")?;
    append_digits(out, bytes)
}

/// Adds a space, and whether a section has what was written.
pub(crate) fn append_spaced_state(out: &mut Vec<u8>, state: SectionState) -> Result<(), AllocError>
    ensures { OnOk result (out.new.items ≡ out.old.items ++ (codes " " ++ state_text state)) }
{
    match state {
        SectionState::Valid => append_text(out, " VALID"),
        SectionState::Corrupted => append_text(out, " CORRUPTED"),
    }
}

/// Adds a node.
pub(crate) fn append_node(out: &mut Vec<u8>, node: NodeId) -> Result<(), AllocError>
    ensures { OnOk result (out.new.items ≡ out.old.items ++ node_text node) }
{
    append_text(out, "n")?;
    append_number(out, u64::from(node))
}

/// Adds a checkpoint.
pub(crate) fn append_ckpt(out: &mut Vec<u8>, ckpt: CkptId) -> Result<(), AllocError>
    ensures { OnOk result (out.new.items ≡ out.old.items ++ ckpt_text ckpt) }
{
    append_text(out, "K")?;
    append_number(out, u64::from(ckpt))
}

/// Adds who begins calls.
#[inline(always)]
pub(crate) fn append_actor(out: &mut Vec<u8>, actor: ActorName) -> Result<(), AllocError>
    ensures { OnOk result (out.new.items ≡ out.old.items ++ actor_text actor) }
{
    match actor {
        ActorName::Client(client) => {
            append_text(out, "c")?;
            append_number(out, u64::from(client))
        }
        ActorName::Node(node) => append_node(out, node),
    }
}

/// Adds a call.
#[inline(always)]
pub(crate) fn append_call(out: &mut Vec<u8>, call: CallId) -> Result<(), AllocError>
    ensures { OnOk result (out.new.items ≡ out.old.items ++ call_text call) }
{
    append_actor(out, call.actor)?;
    append_text(out, ".")?;
    append_number(out, u64::from(call.number))
}

/// Adds whose call is stepped.
pub(crate) fn append_who(out: &mut Vec<u8>, who: Who) -> Result<(), AllocError>
    ensures { OnOk result (out.new.items ≡ out.old.items ++ who_text who) }
{
    match who {
        Who::Actor(actor) => append_actor(out, actor),
        Who::Call(call) => append_call(out, call),
    }
}

/// Adds a time.
pub(crate) fn append_time(out: &mut Vec<u8>, time: Moment) -> Result<(), AllocError>
    ensures { OnOk result (out.new.items ≡ out.old.items ++ time_text time) }
{
    if time == NEVER {
        append_text(out, "end")
    } else {
        append_text(out, Buffer::new().format(time))
    }
}

/// Adds bytes.
pub(crate) fn append_bytes(out: &mut Vec<u8>, bytes: &[u8]) -> Result<(), AllocError>
    ensures { OnOk result (out.new.items ≡ out.old.items ++ bytes_text bytes.now) }
{
    append_text(out, "x")?;
    append_digits(out, bytes)
}
