//! The lines of the callbacks that a dispatch gives.
ghost use Rattle.std.specs.Prelude.{◌≡◌, ◌<◌, ◌++◌, Some, IfOk, OnOk, length};
ghost use Rattle.std.specs.List.{flat_map};
ghost use Rattle.run_labels.specs.Callbacks.{callback_word, callback_head, callback_line, is_answered_dispatch, callback_lines, callback_lines_at};

use crate::labels::Label;
use crate::log::RunLog;
use crate::outcomes::{append_answered, append_refused};
use crate::texts::{append_actor, append_spaced, append_text};
use ckpt_types::{ActorName, AisError, AsyncKind, Bytes, Callback, Cause, Op, OpWord, Outcome};
use node_msgs::Details;
use std::alloc::{AllocError, Global};

/// What the callbacks of the label at a place print: nothing where it is no answered dispatch.
pub fn render_callbacks(alloc: Global, log: &RunLog, place: usize) -> Result<Bytes, AllocError>
    requires { place < length log.now.labels }
    ensures { IfOk result (λ text. callback_lines_at log.now.labels place ≡ Some text) }
{
    let mut out = Vec::new(alloc);
    append_callbacks(&mut out, log.at(place))?;
    Ok(Bytes::from_vec(out))
}

/// Adds what the callbacks of a label print behind what the buffer has: nothing where it is no answered dispatch.
/// After an error, which is want of memory, the buffer may have a part of it.
#[inline(always)]
pub fn append_callbacks(out: &mut Vec<u8>, label: &Label) -> Result<(), AllocError>
    ensures { OnOk result (out.new.items ≡ out.old.items ++ callback_lines label.now) }
{
    let Label::Began {
        call,
        op,
        end,
        details,
    } = label
    else {
        return Ok(());
    };
    let Details::Callbacks(callbacks) = details else {
        return Ok(());
    };
    if !is_answered_dispatch(op, end) {
        return Ok(());
    }
    append_each_callback(out, call.actor, callbacks.value().as_slice())
}

/// Whether an operation is a dispatch that was done.
fn is_answered_dispatch(op: &Op, end: &Option<Outcome>) -> bool
    ensures { result ≡ is_answered_dispatch op.now end.now }
{
    match (op, end) {
        (Op::Dispatch(_), Some(Outcome::Done(_))) => true,
        _ => false,
    }
}

/// The line of each callback in order. Few labels have any, so this stands apart.
#[inline(never)]
fn append_each_callback(
    out: &mut Vec<u8>,
    client: ActorName,
    callbacks: &[Callback],
) -> Result<(), AllocError>
    ensures { OnOk result (out.new.items ≡ out.old.items ++ flat_map (callback_line client) callbacks.now) }
{
    for callback in callbacks {
        append_callback(out, client, callback)?;
    }
    Ok(())
}

/// The line of one callback.
fn append_callback(
    out: &mut Vec<u8>,
    client: ActorName,
    callback: &Callback,
) -> Result<(), AllocError>
    ensures { OnOk result (out.new.items ≡ out.old.items ++ callback_line client callback.now) }
{
    match callback.outcome {
        Outcome::Done(answer) => {
            append_callback_head(out, client, callback)?;
            append_answered(out, &answer, &Details::Nothing)
        }
        Outcome::Refused(error, cause) => {
            append_callback_head(out, client, callback)?;
            append_refused(out, error, &cause)
        }
        Outcome::NoMemory => {
            append_callback_head(out, client, callback)?;
            append_refused(out, AisError::NoMemory, &Cause::Plain)
        }
        Outcome::Abandoned | Outcome::Busy | Outcome::Astray => Ok(()),
    }
}

/// The front of a callback's line.
fn append_callback_head(
    out: &mut Vec<u8>,
    client: ActorName,
    callback: &Callback,
) -> Result<(), AllocError>
    ensures { OnOk result (out.new.items ≡ out.old.items ++ callback_head client callback.now) }
{
    append_actor(out, client)?;
    append_text(out, " callback ")?;
    append_text(out, callback_word(callback.kind).word())?;
    append_spaced(out, callback.invocation)
}

/// The word of the call that waits for the same.
fn callback_word(kind: AsyncKind) -> OpWord
    ensures { result ≡ callback_word kind }
{
    match kind {
        AsyncKind::Open(_) => OpWord::Open,
        AsyncKind::Sync => OpWord::Sync,
    }
}
